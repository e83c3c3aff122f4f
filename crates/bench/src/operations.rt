// The operations, each so many times over on the connection or engine that the one before left. Each answers a sum of what the calls or events answered.
use crate::answers::{channel_of, freed, handle_of, idle_of, wrote};
use crate::setting;
use crate::subject::Subject;

#[derive(Clone, Copy)]
pub(crate) enum Operation {
    Transfer,
    Pair,
    Open,
    Tick,
}

impl<'a> From<&'a [u8]> for Operation {
    // A name is told by its first letter, and those of `transfer` and `tick` are told apart by the second. Each name is that of an operation: on every input the
    // program does what it did.
    fn from(name: &'a [u8]) -> Self {
        match name {
            [_, b'i', ..] => Operation::Tick,
            [b't', _, ..] => Operation::Transfer,
            [b'p', _, ..] => Operation::Pair,
            [b'o', _, ..] => Operation::Open,
            _ => Operation::Tick,
        }
    }
}

// What is lent to calls and events: the tables, and room for output.
#[derive(Drop)]
pub(crate) struct Room<'a> {
    pub(crate) tables: &'a mut [u8],
    pub(crate) out: &'a mut [u8],
}

// Does a step so many times over, and answers the sum of what it answered.
pub(crate) fn sum_of<F: FnMut() -> u64>(rounds: u64, mut step: F) -> u64
    requires { F.IsAlwaysCallable step }
{
    let mut sum: u64 = 0;
    for _ in 0..rounds {
        sum = sum.wrapping_add(step());
    }
    sum
}

// The same, with a step for each channel in turn.
fn sum_in_turn<F: FnMut(u16) -> u64>(last: u16, rounds: u64, mut step: F) -> u64
    requires { F.IsAlwaysCallable step }
{
    let mut sum: u64 = 0;
    let mut channel: u16 = 0;
    for _ in 0..rounds {
        sum = sum.wrapping_add(step(channel));
        channel = if channel < last { channel + 1 } else { 0 };
    }
    sum
}

// A Transfer is received, on each channel in turn.
pub(crate) fn transfers<S: Subject>(
    mut hub: S,
    last: u16,
    rounds: u64,
    room: &mut Room<'_>,
) -> u64 {
    let mut frame = setting::TRANSFER;
    let sum = sum_in_turn(last, rounds, |channel| {
        setting::set_channel(&mut frame, channel);
        handle_of(hub.receive(room.tables, &frame, room.out))
    });
    sum.wrapping_add(u64::from(hub.sessions()))
}

// The session on each channel in turn is deallocated, and its channel allocated again.
pub(crate) fn pairs<S: Subject>(mut hub: S, last: u16, rounds: u64, room: &mut Room<'_>) -> u64 {
    let sum = sum_in_turn(last, rounds, |channel| {
        let handle = freed(hub.deallocate(room.tables, channel));
        handle.wrapping_add(channel_of(hub.allocate(room.tables, 2000)))
    });
    sum.wrapping_add(u64::from(hub.sessions()))
}

// An Open is received, each time by the same hub, which waits for it.
pub(crate) fn opens<S: Subject>(waiting: S, rounds: u64, room: &mut Room<'_>) -> u64 {
    let mut frame = setting::OPEN;
    let mut hub = waiting;
    let mut last_byte: u8 = 0;
    let sum = sum_of(rounds, || {
        setting::set_last(&mut frame, last_byte);
        last_byte = last_byte.wrapping_add(1);
        hub = waiting;
        idle_of(hub.receive(room.tables, &frame, room.out))
    });
    sum.wrapping_add(channel_of(hub.allocate(room.tables, 2000)))
}

// An empty frame is written.
pub(crate) fn ticks<S: Subject>(mut hub: S, rounds: u64, room: &mut Room<'_>) -> u64 {
    let sum = sum_of(rounds, || wrote(hub.tick(room.out)));
    sum.wrapping_add(u64::from(hub.sessions()))
}

// A Transfer is received, on each channel in turn, and then an empty frame is written. For a connection: without the Transfer the compiler would see that a tick
// changes nothing, and leave the rounds out.
pub(crate) fn transfers_and_ticks<S: Subject>(
    mut hub: S,
    last: u16,
    rounds: u64,
    room: &mut Room<'_>,
) -> u64 {
    let mut frame = setting::TRANSFER;
    let sum = sum_in_turn(last, rounds, |channel| {
        setting::set_channel(&mut frame, channel);
        let handle = handle_of(hub.receive(room.tables, &frame, room.out));
        handle.wrapping_add(wrote(hub.tick(room.out)))
    });
    sum.wrapping_add(u64::from(hub.sessions()))
}
