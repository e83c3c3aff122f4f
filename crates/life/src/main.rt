// The whole life of an AMQP connection, between two ends in one program: a pad that dials and a hub that listens.
//
// Standard input is the script: a call on each line, with whose it is (pad or hub), its name, a number (a max-frame-size, a handle, a channel, how many channels are
// told of, or how much output is lent), and the bytes that are lent, in hexadecimal; `<` stands for the whole output of the other end, at whose front is what it
// wrote last. In two bytes stands the channel-max of a new connection, how many sessions are allocated, of which the last is told of, and the first channel that is
// told of. Lines that start with `--` are titles.
// Every call has a line of output: whose it is, the call, the state afterwards, what it was lent, and the answer.
#![tactic(auto)]

mod answers;
mod call;
mod lent;
mod side;

use side::Side;
use std::io::{self, Read};

// The calls of a script, whose lines each end with a newline.
fn play(rt: &impl Print, script: &[u8]) -> io::Result<()> {
    // Arrays, here and in main: the program allocates nothing.
    let mut pad_tables = [0u8; 65536];
    let mut pad_out = [0u8; 65536];
    let Ok(mut pad) = Side::new(&mut pad_tables, &mut pad_out) else {
        return Ok(());
    };
    let mut hub_tables = [0u8; 65536];
    let mut hub_out = [0u8; 65536];
    let Ok(mut hub) = Side::new(&mut hub_tables, &mut hub_out) else {
        return Ok(());
    };
    // the bytes that a line says
    let mut said = [0u8; 8192];
    for ended in script.split_inclusive(|b| *b == b'\n') {
        let Some(line) = ended.strip_suffix(b"\n") else {
            break;
        };
        match line.first() {
            Some(b'p') => pad.call(rt, line, &hub, &mut said)?,
            Some(b'h') => hub.call(rt, line, &pad, &mut said)?,
            // a title, as bytes, since it need be no text
            _ => rt.write_all(ended)?,
        }
    }
    Ok(())
}

fn main(rt: HostRuntime) -> io::Result<()> {
    let mut script = [0u8; 65536];
    let n = io::copy(&mut rt.stdin().take(65536), &mut &mut script[..])? as usize;
    println!(rt; "side  call                    state after     lent: answer")?;
    play(&rt, script.get(..n).unwrap_or_default())
}
