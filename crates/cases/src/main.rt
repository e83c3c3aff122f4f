// Runs a list of cases against the codec, and says which of them went wrong.
//
// Standard input has one case to a line; an empty line, and one that starts with #, is none. A case is a letter, its numbers, its bytes in hexadecimal, `=`,
// the expected answer, `;` and where the expectation comes from. Of the bytes, `_` is passed over, 61*300 is the byte 61 three hundred times, and `-` is none.
//
//   letter  runs                                   numbers, and then bytes
//   h       protocol_header::read                  header
//   u       text::is_utf8                          text
//   a       text::is_ascii                         text
//   v       values::value_end                      depth; value
//   p       performatives::read                    body
//   f       frame_decoder::read                    limit, highest channel; frame
//   s       frame_decoder::session_frame           highest channel; frame
//   n       frame_decoder::session_frames          highest channel; frames
//   o       frame_encoder::write_open              room, limit, max-frame-size, channel-max, 1 with an idle-time-out and 0 without, idle-time-out; container-id
//   c       frame_encoder::write_close             room, limit
//   e       frame_encoder::write_close_with_error  room, limit, 1 with a description and 0 without; condition, description
//   t       frame_encoder::write_empty             room, limit
//   w       session_frame::write                   room, limit, highest channel; frame
//
// The room is how many bytes of output are lent. They hold a pattern at first, and where the call changes one that it does not count as written the
// answer is `touched`. A line that is no case is answered `badline`.
#![tactic(auto)]

mod answers;
mod case;
mod output;
mod spelling;

use answers::Answer;
use case::Case;
use output::Rooms;
use std::io::{self, Read};

// How many bytes of input are read, and how many a line has at most, spelled out.
const MOST: usize = 1_048_576;

// The bytes that the words of a case say: 65,536 at most, and 4,096 of a description.
const MOST_SAID: usize = 69_632;

// The expected answer of a line: what stands between the first `=` and the first `;`.
fn wanted_in(line: &[u8]) -> &[u8] {
    let from = line
        .iter()
        .position(|b| *b == b'=')
        .map_or(line.len(), |at| at + 1);
    let end = line.iter().position(|b| *b == b';').unwrap_or(line.len());
    line.get(from..end).unwrap_or_default()
}

// Runs the case of a line, with its bytes spelled out, and says whether it went right.
fn is_right(
    rt: &impl Print,
    number: usize,
    line: &[u8],
    said: &mut [u8],
    rooms: &mut Rooms,
) -> io::Result<bool> {
    let wanted = wanted_in(line);
    let answer = match Case::parse(line, said) {
        Some(case) => case.answer(rt, wanted, rooms)?,
        None => Answer::BadLine,
    };
    let mut room = [0; 256];
    let text = answer.text(&mut room)?;
    let written = match answer {
        Answer::Wrote => words::word(wanted, 1),
        _ => &[],
    };
    if answers::agree(text, written, wanted) {
        return Ok(true);
    }
    print!(rt; "line {number}: got")?;
    answers::print_words(rt, text)?;
    answers::print_words(rt, written)?;
    // as bytes, since what is wanted need be no text
    rt.write_all(b" and wanted")?;
    rt.write_all(wanted)?;
    rt.write_all(b"\n")?;
    Ok(false)
}

// Runs the cases of a text, and says how many there were, and how many of them went wrong.
fn run_lines(
    rt: &impl Print,
    text: &[u8],
    spelled: &mut [u8],
    said: &mut [u8],
    rooms: &mut Rooms,
) -> io::Result<(u64, u64)> {
    let mut run: u64 = 0;
    let mut wrong: u64 = 0;
    for (i, line) in text.split(|b| *b == b'\n').enumerate() {
        if !line.is_empty() && !line.starts_with(b"#") {
            let length = spelling::spelled(line, spelled);
            let line = spelled.get(..length).unwrap_or_default();
            run = run.wrapping_add(1);
            if !is_right(rt, i + 1, line, said, rooms)? {
                wrong = wrong.wrapping_add(1);
            }
        }
    }
    Ok((run, wrong))
}

// Room for so many bytes.
fn room<const N: usize>() -> [u8; N] {
    [0; N]
}

// Reads as much of the input as there is room for, and says how much that is.
fn read_text(rt: &HostRuntime, text: &mut [u8]) -> io::Result<usize> {
    Ok(io::copy(&mut rt.stdin().take(MOST as u64), &mut &mut text[..])? as usize)
}

fn main(rt: HostRuntime) -> io::Result<()> {
    let mut text = room::<MOST>();
    let n = read_text(&rt, &mut text)?;
    let text = text.get(..n).unwrap_or_default();
    let mut spelled = room::<MOST>();
    let mut said = room::<MOST_SAID>();
    let mut rooms = Rooms::new();
    let (run, wrong) = run_lines(&rt, text, &mut spelled, &mut said, &mut rooms)?;
    if n == MOST {
        println!(rt; "cases: only the first 1048576 bytes were read")?;
    }
    println!(rt; "cases: {run} run, {wrong} wrong")
}
