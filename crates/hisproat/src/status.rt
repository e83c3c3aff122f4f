// What an engine is, as C is told: role, phase and limits, and the handles of sessions.
ghost use Rattle.std.specs.Prelude.{◌≡◌, List, ℕ};
ghost use Rattle.octets.specs.Octets.{put};
ghost use Rattle.layout.specs.Layout.{may};
ghost use Rattle.octets.specs.Refusal.{judged};
ghost use Rattle.engine.specs.Answers.{whole};
ghost use Rattle.hisproat.specs.Answers.{status_bytes, taken_bytes, tied_bytes};
ghost use Rattle.hisproat.specs.Promises.{PutsHandle, PutsStatus};
ghost use Rattle.hisproat.specs.Crossing.{Reports};

use crate::{BROKEN, HANDLE_SIZE, NO_ROOM, STATUS_SIZE};
use engine::ConnectionEngine;
use engine_bytes::FIXED_SIZE;
use engine_bytes::numbers::{put_phase, role_number};
use layout::put_may;
use octets::{Refusal, put_number};

// Lays a handle that was looked up into the answer, or tells the refusal.
fn put_handle(found: Result<Option<u32>, Refusal>, answer: &mut [u8]) -> u8
    ensures { PutsHandle (judged found) answer.old result answer.new }
{
    let held = match found {
        Err(refusal) => return refusal.number(),
        Ok(held) => held,
    };
    match held {
        Some(handle) => {
            put_may(answer, 0, 4, Some(u64::from(handle)));
            0
        }
        None => {
            put_may(answer, 0, 4, None);
            0
        }
    }
}

// Lays the agreed channel-max into the answer.
fn put_agreed(agreed: Option<u16>, answer: &mut [u8])
    ensures { answer.new ≡ put answer.old 12 (may 2 agreed) }
{
    match agreed {
        Some(highest) => put_may(answer, 12, 2, Some(u64::from(highest))),
        None => put_may(answer, 12, 2, None),
    }
}

// Lays what an engine is into the answer.
fn put_status(engine: ConnectionEngine, answer: &mut [u8])
    ensures { (t id : List ℕ) → PutsStatus (whole engine t id) answer.old answer.new }
{
    if answer.len() < STATUS_SIZE {
        return;
    }
    let connection = engine.connection();
    let state = connection.state();
    put_number(answer, 0, 1, role_number(connection.role()) as u64);
    put_phase(engine.phase(), answer, 1);
    put_number(answer, 3, 1, state.number() as u64);
    put_number(answer, 4, 4, connection.reading_limit() as u64);
    put_number(answer, 8, 4, connection.writing_limit() as u64);
    put_agreed(connection.agreed_channel_max(), answer);
    put_number(answer, 15, 4, connection.taken_count() as u64);
}

// Tells role, phase, outcome, state, limits, and how many channels are taken.
#[unsafe(no_mangle)]
pub extern "C" fn hisproat_status(state: &[u8], answer: &mut [u8]) -> u8
    ensures { Reports 19 status_bytes state.now answer.old (record { returned = result; answer = answer.new }) }
{
    if answer.len() < STATUS_SIZE {
        return NO_ROOM.number();
    }
    let Some(engine) = engine_bytes::from_bytes(state) else {
        return BROKEN.number();
    };
    put_status(engine, answer);
    0
}

// Tells the handle of the session on an outgoing channel.
#[unsafe(no_mangle)]
pub extern "C" fn hisproat_handle_at(state: &[u8], channel: u16, answer: &mut [u8]) -> u8
    ensures { Reports 5 (taken_bytes channel) state.now answer.old (record { returned = result; answer = answer.new }) }
{
    if answer.len() < HANDLE_SIZE {
        return NO_ROOM.number();
    }
    let Some(engine) = engine_bytes::from_bytes(state) else {
        return BROKEN.number();
    };
    let connection = engine.connection();
    put_handle(connection.handle_at(&state[FIXED_SIZE..], channel), answer)
}

// Tells the handle that an incoming channel is tied to.
#[unsafe(no_mangle)]
pub extern "C" fn hisproat_tied_handle(state: &[u8], channel: u16, answer: &mut [u8]) -> u8
    ensures { Reports 5 (tied_bytes channel) state.now answer.old (record { returned = result; answer = answer.new }) }
{
    if answer.len() < HANDLE_SIZE {
        return NO_ROOM.number();
    }
    let Some(engine) = engine_bytes::from_bytes(state) else {
        return BROKEN.number();
    };
    let connection = engine.connection();
    put_handle(
        connection.tied_handle(&state[FIXED_SIZE..], channel),
        answer,
    )
}
