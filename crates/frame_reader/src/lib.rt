// The frame reader as C calls it, without an engine: for a program that looks at frames and holds no connection.
#![tactic(auto)]

ghost use Rattle.std.specs.Prelude.{◌≡◌, ◌≤◌, length};
ghost use Rattle.octets.specs.Octets.{put};
ghost use Rattle.performatives.specs.Answers.{performative_says};
ghost use Rattle.frame_decoder.specs.Frame.{size_of, channel_of};
ghost use Rattle.frame_reader.specs.Reading.{frame_bytes, told};

use frame_decoder::Frame;
use octets::{Refusal, number, put_number};
use performatives::Performative;

// How many bytes are told of a frame.
pub const ANSWER_SIZE: usize = 27;

// The number of a performative's descriptor.
fn code_of(performative: Performative) -> u8
    ensures { result ≡ (performative_says performative).0 }
{
    match performative {
        Performative::Open {
            max_frame_size: _,
            channel_max: _,
            idle_time_out: _,
        } => 16,
        Performative::Begin(_) => 17,
        Performative::Attach => 18,
        Performative::Flow => 19,
        Performative::Transfer => 20,
        Performative::Disposition => 21,
        Performative::Detach(_) => 22,
        Performative::End(_) => 23,
        Performative::Close(_) => 24,
    }
}

// Lays what is told of a frame at the front of the answer, if it fits there. The channel and the size are read from the frame's header once more: kept since
// it was judged, they would take registers while the body is read.
fn put_frame(code: u8, from: usize, end: usize, frame: &[u8], answer: &mut [u8])
    requires { 8 ≤ length frame.now }
    ensures { answer.new ≡ put answer.old 0 (frame_bytes code (channel_of frame.now) from end (size_of frame.now)) }
{
    if answer.len() < ANSWER_SIZE {
        return;
    }
    put_number(answer, 0, 1, code as u64);
    put_number(answer, 1, 2, number(&frame[6..8]));
    put_number(answer, 3, 8, from as u64);
    put_number(answer, 11, 8, end as u64);
    put_number(answer, 19, 8, number(&frame[..4]));
}

// Reads the frame that the bytes start with, of at most `reading_limit` bytes and on a channel that is at most `channel_max`, and tells of it.
#[unsafe(no_mangle)]
pub extern "C" fn hisproat_read_frame(
    frame: &[u8],
    reading_limit: u32,
    channel_max: u16,
    answer: &mut [u8],
) -> u8
    ensures { record { returned = result; answer = answer.new } ≡ told reading_limit channel_max frame.now answer.old }
{
    if answer.len() < ANSWER_SIZE {
        return Refusal::NoRoom.number();
    }
    let read = match frame_decoder::read(frame, reading_limit, channel_max) {
        Ok(read) => read,
        Err(refusal) => return refusal.number(),
    };
    match read {
        Frame::Empty {
            channel: _,
            size: _,
            from,
        } => put_frame(0, from, 0, frame, answer),
        Frame::Body {
            channel: _,
            size: _,
            from,
            performative,
            end,
        } => put_frame(code_of(performative), from, end, frame, answer),
    }
    0
}
