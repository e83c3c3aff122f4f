// Does an operation of an engine, or of the connection inside it, so many times over, for measuring what an event and a call cost.
//
// Each line of standard input names what the operation is done on, `engine`, `connection` or `frame`, the operation, how many sessions are open, from 1 to 2,048,
// and how many rounds there are:
//
//   transfer  a Transfer is received, on each tied channel in turn
//   pair      a session is deallocated and its channel allocated again, on each channel in turn
//   open      an Open is received, each time by the same hub, which waits for it and has no session
//   tick      an empty frame is written; by a connection, after a Transfer was received as above
//   write     a Transfer is written; of a frame alone, without a connection
//
// The line is printed with the sum of the answers: for `transfer` the handles, for `pair` the handles and the channels, for `open` the idle-time-outs,
// for `tick` the bytes written and the handles, for `write` the bytes written; and once the number of sessions, or for `open` the first channel.
#![tactic(auto)]

mod answers;
mod frames;
mod operations;
mod setting;
mod subject;

use engine::ConnectionEngine;
use operations::{Operation, Room};
use std::io::{self, Read};

// The last channel, where there are n sessions.
fn last_channel(n: u64) -> u16 {
    (n.clamp(1, 2048) - 1) as u16
}

// Operations as events of an engine.
fn run_events(
    fresh: ConnectionEngine,
    operation: Operation,
    last: u16,
    rounds: u64,
    room: &mut Room<'_>,
) -> u64 {
    if let Operation::Open = operation {
        return operations::opens(setting::exchanged(fresh, room.out), rounds, room);
    }
    let hub = setting::with_sessions(fresh, last, room);
    match operation {
        Operation::Transfer => operations::transfers(hub, last, rounds, room),
        Operation::Pair => operations::pairs(hub, last, rounds, room),
        _ => operations::ticks(hub, rounds, room),
    }
}

// Operations as calls of the connection inside.
fn run_calls(
    fresh: ConnectionEngine,
    operation: Operation,
    last: u16,
    rounds: u64,
    room: &mut Room<'_>,
) -> u64 {
    if let Operation::Open = operation {
        let waiting = setting::exchanged(fresh, room.out);
        return operations::opens(waiting.connection(), rounds, room);
    }
    let hub = setting::with_sessions(fresh, last, room).connection();
    match operation {
        Operation::Transfer => operations::transfers(hub, last, rounds, room),
        Operation::Pair => operations::pairs(hub, last, rounds, room),
        _ => operations::transfers_and_ticks(hub, last, rounds, room),
    }
}

// The sum of what a line's operation answers.
fn run(line: &[u8], room: &mut Room<'_>) -> u64 {
    let mut words = line.split(|b| *b == b' ').filter(|word| !word.is_empty());
    let _on = words.next();
    let operation = Operation::from(words.next().unwrap_or_default());
    let last = last_channel(words::decimal(words.next().unwrap_or_default()));
    let rounds = words::decimal(words.next().unwrap_or_default());
    match line.first() {
        None => return 0,
        Some(b'f') => return frames::writes(rounds, room.out),
        Some(_) => {}
    }
    let Ok(fresh) = setting::hub(room.tables) else {
        return 0;
    };
    if line.starts_with(b"c") {
        run_calls(fresh, operation, last, rounds, room)
    } else {
        run_events(fresh, operation, last, rounds, room)
    }
}

fn main(rt: HostRuntime) -> io::Result<()> {
    // Arrays: the program allocates nothing. Besides, their length is known to the compiler: with a Vec a round of `write` takes two fifths more instructions.
    let mut bytes = [0u8; 4096];
    let n = io::copy(&mut rt.stdin().take(4096), &mut &mut bytes[..])? as usize;
    let text = bytes.get(..n).unwrap_or_default();
    let mut tables = [0u8; 65536];
    let mut out = [0u8; 65536];
    for ended in text.split_inclusive(|b| *b == b'\n') {
        let line = ended.strip_suffix(b"\n").unwrap_or(ended);
        let mut room = Room {
            tables: &mut tables,
            out: &mut out,
        };
        let sum = run(line, &mut room);
        // as bytes, since a line need be no text
        rt.write_all(line)?;
        println!(rt; ": {sum}")?;
    }
    Ok(())
}
