// Prints a recorded AMQP conversation, one line for each protocol header and each frame.
//
// Standard input has the bytes of both sides, headers and frames one after the other in the order in which they were sent. What starts with the letter A is a header.
// Frames are read with a limit of 16,384 bytes, on every channel. A header or frame that is refused has a line with the number of its refusal; where
// that leaves unknown how long the frame is (1, 3 and 4), the program stops there. It takes at most 65,535 bytes, and says so where there are more.
#![tactic(auto)]

mod rows;
mod says;

use rows::Rows;
use std::io::{self, Read};

fn main(rt: HostRuntime) -> io::Result<()> {
    // An array: the program allocates nothing.
    let mut bytes = [0u8; 65536];
    let n = io::copy(&mut rt.stdin().take(65536), &mut &mut bytes[..])? as usize;
    if n == bytes.len() {
        return println!(rt; "more than 65,535 bytes");
    }
    let conversation = bytes.get(..n).unwrap_or_default();
    println!(rt; "  offset  what    length  channel  performative  payload  says")?;
    for (offset, row) in Rows::new(conversation) {
        println!(rt; "{offset:>8}  {row}")?;
    }
    Ok(())
}
