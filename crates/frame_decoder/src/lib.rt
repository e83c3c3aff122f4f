// Frames, read from bytes: Part 2, section 2.3.
#![tactic(auto)]

ghost use Rattle.std.specs.Prelude.{◌≡◌};
ghost use Rattle.octets.specs.Refusal.{judged};
ghost use Rattle.frame_decoder.specs.Frame.{frame, body_of, session_frames};
ghost use Rattle.frame_decoder.specs.Answers.{
  header_says,
  may_send,
  begins_within,
  session_body,
  shown,
  frame_says,
  frame_answer,
  session_answer,
};

use octets::Refusal;
use performatives::{Body, Performative};

// The type of AMQP frames.
const FRAME_TYPE_AMQP: u8 = 0;

// A frame's header has so many bytes, and its body starts after them.
const HEADER_SIZE: usize = 8;

// A limit that no frame is over.
const ANY_SIZE: u32 = 4294967295;

// A highest channel that no channel is above.
const ANY_CHANNEL: u16 = 65535;

// A frame that was read: one that has no body, or one that has a performative. It takes `size` bytes, its body
// starts at `from`, and the performative ends `end` bytes after that.
#[derive(Clone, Copy)]
pub enum Frame {
    Empty {
        channel: u16,
        size: usize,
        from: usize,
    },
    Body {
        channel: u16,
        size: usize,
        from: usize,
        performative: Performative,
        end: usize,
    },
}

// What a frame's header says.
#[derive(Clone, Copy)]
struct Header {
    size: usize,
    channel: u16,
}

impl Frame {
    // How many bytes the frame takes.
    fn size(self) -> usize
        ensures { result ≡ (shown self).size }
    {
        match self {
            Frame::Empty {
                channel: _,
                size,
                from: _,
            } => size,
            Frame::Body {
                channel: _,
                size,
                from: _,
                performative: _,
                end: _,
            } => size,
        }
    }
}

// Judges the header of the frame that the bytes start with, and whether the whole frame is there.
fn read_header(s: &[u8], limit: u32, highest: u16) -> Result<Header, Refusal>
    ensures { header_says result ≡ frame limit highest s.now }
{
    if s.len() < 4 {
        return Err(Refusal::BytesMissing);
    }
    let size = octets::number(&s[..4]) as usize;
    if size < HEADER_SIZE {
        return Err(Refusal::TooShort);
    }
    if (limit as usize) < size {
        return Err(Refusal::OverReadingLimit);
    }
    if s.len() < size {
        return Err(Refusal::BytesMissing);
    }
    // a header that is extended has a greater doff
    let doff = s[4];
    if doff != 2 {
        return Err(Refusal::WrongType);
    }
    let ftype = s[5];
    if ftype != FRAME_TYPE_AMQP {
        return Err(Refusal::WrongType);
    }
    let channel = octets::number(&s[6..8]) as u16;
    if highest < channel {
        return Err(Refusal::ChannelTooHigh);
    }
    Ok(Header { size, channel })
}

// The body of the frame that the bytes start with, its performative and payload: that very part of them. Nothing where they start with no frame.
pub fn body(s: &[u8]) -> &[u8]
    ensures { result.now ≡ body_of s.now }
{
    let Ok(header) = read_header(s, ANY_SIZE, ANY_CHANNEL) else {
        return &s[..0];
    };
    &s[HEADER_SIZE..header.size]
}

// Reads the frame that the bytes start with, of at most `limit` bytes and on a channel that is at most `highest`. Bytes after it are not looked at.
pub fn read(s: &[u8], limit: u32, highest: u16) -> Result<Frame, Refusal>
    ensures { frame_says result ≡ frame_answer limit highest s.now }
{
    let Header { size, channel } = read_header(s, limit, highest)?;
    let from = HEADER_SIZE;
    if size == from {
        return Ok(Frame::Empty {
            channel,
            size,
            from,
        });
    }
    let Some(Body { performative, end }) = performatives::read(&s[from..size]) else {
        return Err(Refusal::BodyMalformed);
    };
    Ok(Frame::Body {
        channel,
        size,
        from,
        performative,
        end,
    })
}

// Whether a session may send it, where `whole` says that it fills its frame's body: Begin to End, of which only a Transfer has a payload after it.
fn may_send(performative: Performative, whole: bool) -> bool
    ensures { result ≡ may_send performative whole }
{
    match performative {
        Performative::Open {
            max_frame_size: _,
            channel_max: _,
            idle_time_out: _,
        } => false,
        Performative::Begin(_) => whole,
        Performative::Attach => whole,
        Performative::Flow => whole,
        Performative::Transfer => true,
        Performative::Disposition => whole,
        Performative::Detach(_) => whole,
        Performative::End(_) => whole,
        Performative::Close(_) => false,
    }
}

// Whether the remote-channel of a Begin is at most `highest`.
fn begins_within(performative: Performative, highest: u16) -> bool
    ensures { result ≡ begins_within highest performative }
{
    let Performative::Begin(remote) = performative else {
        return true;
    };
    let Some(n) = remote else {
        return true;
    };
    n <= highest
}

// A frame of which the body is read, where a session may send it.
fn session_body(body: &[u8], channel: u16, size: usize, highest: u16) -> Result<Frame, Refusal>
    ensures { frame_says result ≡ session_body highest channel size body.now }
{
    let Some(Body { performative, end }) = performatives::read(body) else {
        return Err(Refusal::BodyMalformed);
    };
    if !may_send(performative, end == body.len()) {
        return Err(Refusal::BodyMalformed);
    }
    if !begins_within(performative, highest) {
        return Err(Refusal::ChannelTooHigh);
    }
    Ok(Frame::Body {
        channel,
        size,
        from: HEADER_SIZE,
        performative,
        end,
    })
}

// Reads the session's frame that the bytes start with and that is to be sent. A Begin's remote-channel is at most `highest`.
pub fn session_frame(s: &[u8], highest: u16) -> Result<Frame, Refusal>
    ensures { frame_says result ≡ session_answer highest s.now }
{
    let Header { size, channel } = read_header(s, ANY_SIZE, ANY_CHANNEL)?;
    session_body(&s[HEADER_SIZE..size], channel, size, highest)
}

// Counts the session's frames that the bytes are, one after the other. The first that is refused decides.
pub fn session_frames(s: &[u8], highest: u16) -> Result<usize, Refusal>
    ensures { judged result ≡ session_frames highest s.now }
{
    let mut at: usize = 0;
    let mut count: usize = 0;
    // (A `while`: how far a turn goes stands in the frame.)
    while at < s.len() {
        let frame = session_frame(&s[at..], highest)?;
        at += frame.size();
        count += 1;
    }
    Ok(count)
}
