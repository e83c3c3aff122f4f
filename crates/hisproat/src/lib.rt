// The engine as C calls it: numbers and byte slices only. The lent state has a fixed part, which each event reads whole and lays back as far as it can change,
// and behind it the tables, which the engine is lent as they stand. A function returns 0, or the number of a refusal, and then no lent byte has changed.
#![tactic(auto)]

mod answers;
mod kind;
mod status;

ghost use Rattle.std.specs.Prelude.{◌≡◌, not, ◌&&◌, [], ◌+◌, ◌*◌, ◌≤◌, leb, length};
ghost use Rattle.layout.specs.Layout.{held};
ghost use Rattle.frame_encoder.specs.Answers.{error_text};
ghost use Rattle.connection_model.specs.Connection as M;
ghost use Rattle.engine_model.specs.Engine.{send_header, receive_header, send_open, incoming, close_order, allocate, deallocate, outgoing, tick, end_of_input, not_delivered};
ghost use Rattle.hisproat.specs.Answers.{flagged, settings_of, error_of};
ghost use Rattle.hisproat.specs.Promises.{Starts, IsId};
ghost use Rattle.hisproat.specs.Crossing.{crossing, Crosses, Makes};

use answers::finish;
use engine::ConnectionEngine;
use engine_bytes::{FIXED_SIZE, ID};
use frame_encoder::{ErrorText, Settings};
use octets::{Refusal, number};

// How many bytes an event's answer has, what is told of an engine, and a handle.
pub const ANSWER_SIZE: usize = 42;

pub const STATUS_SIZE: usize = 19;

pub const HANDLE_SIZE: usize = 5;

// C takes a number and no Result: 0, or one of `Refusal`'s. So each export tells here what it was
// answered, and `?` stands in no export.

// The refusal of too little room, which is judged first and from lengths alone, and of bytes that stand for no engine.
const NO_ROOM: Refusal = Refusal::NoRoom;

const BROKEN: Refusal = Refusal::OutOfBounds;

// Whether an event's answer, or its output where so many bytes wait to be sent, is too short.
fn lacks_room(answer: usize, output: usize, waiting: usize) -> bool
    ensures { result ≡ not (leb 42 answer && leb (16384 + 2 * waiting) output) }
{
    if answer < ANSWER_SIZE {
        return true;
    }
    engine::room::lacks_room(output, waiting)
}

// A flag: 0 is no, anything else is yes.
fn is_set(flag: u8) -> bool
    ensures { result ≡ flagged flag }
{
    0 < flag
}

fn idle_of(has: u8, millis: u32) -> Option<u32>
    ensures { result ≡ held (flagged has) millis }
{
    is_set(has).then_some(millis)
}

// The text of an error as it is handed over.
fn error_of<'a>(condition: &'a [u8], has_description: u8, description: &'a [u8]) -> ErrorText<'a>
    ensures { error_text result ≡ error_of condition.now has_description description.now }
{
    let description = is_set(has_description).then_some(description);
    ErrorText {
        condition,
        description,
    }
}

// The container-id in a state, no longer than there is room.
fn container_id(state: &[u8]) -> &[u8]
    requires { 300 ≤ length state.now }
    ensures { IsId state.now result.now }
{
    let n = number(&state[42..44]);
    if 255 < n {
        return &state[..0];
    }
    let end = ID + (n as usize);
    &state[ID..end]
}

// Lays the fixed part of a new engine into the state, unless it was refused.
fn started(new: Result<ConnectionEngine, Refusal>, container_id: &[u8], state: &mut [u8]) -> u8
    ensures { Starts new container_id.now state.old result state.new }
{
    match new {
        Ok(engine) => {
            engine_bytes::write_new(engine, container_id, state);
            0
        }
        Err(refusal) => refusal.number(),
    }
}

// Makes a fresh engine of the one that dials in the lent state.
#[unsafe(no_mangle)]
pub extern "C" fn hisproat_dialler(
    state: &mut [u8],
    container_id: &[u8],
    max_frame_size: u32,
    channel_max: u16,
    has_idle_time_out: u8,
    idle_time_out: u32,
) -> u8
    ensures { Makes M.dialler (settings_of container_id.now max_frame_size channel_max has_idle_time_out idle_time_out) state.old (record { returned = result; state = state.new }) }
{
    if state.len() < FIXED_SIZE {
        return BROKEN.number();
    }
    let settings = Settings {
        container_id,
        max_frame_size,
        channel_max,
        idle_time_out: idle_of(has_idle_time_out, idle_time_out),
    };
    let new = ConnectionEngine::dialler(&settings, &mut state[FIXED_SIZE..]);
    started(new, container_id, state)
}

// Makes a fresh engine of the one that listens in the lent state.
#[unsafe(no_mangle)]
pub extern "C" fn hisproat_listener(
    state: &mut [u8],
    container_id: &[u8],
    max_frame_size: u32,
    channel_max: u16,
    has_idle_time_out: u8,
    idle_time_out: u32,
) -> u8
    ensures { Makes M.listener (settings_of container_id.now max_frame_size channel_max has_idle_time_out idle_time_out) state.old (record { returned = result; state = state.new }) }
{
    if state.len() < FIXED_SIZE {
        return BROKEN.number();
    }
    let settings = Settings {
        container_id,
        max_frame_size,
        channel_max,
        idle_time_out: idle_of(has_idle_time_out, idle_time_out),
    };
    let new = ConnectionEngine::listener(&settings, &mut state[FIXED_SIZE..]);
    started(new, container_id, state)
}

// Writes the protocol header.
#[unsafe(no_mangle)]
pub extern "C" fn hisproat_send_header(state: &mut [u8], output: &mut [u8], answer: &mut [u8]) -> u8
    ensures { Crosses (send_header output.old) state.old answer.old (crossing result state.new answer.new output.new) }
{
    if lacks_room(answer.len(), output.len(), 0) {
        return NO_ROOM.number();
    }
    let Some(engine) = engine_bytes::from_bytes(state) else {
        return BROKEN.number();
    };
    let header = engine.send_header(output);
    let wrote = header.answer;
    let after = header.engine;
    finish(answers::opening_sent(wrote), after, state, answer)
}

// Reads the peer's protocol header.
#[unsafe(no_mangle)]
pub extern "C" fn hisproat_receive_header(state: &mut [u8], input: &[u8], answer: &mut [u8]) -> u8
    ensures { Crosses (receive_header input.now) state.old answer.old (crossing result state.new answer.new []) }
{
    if answer.len() < ANSWER_SIZE {
        return NO_ROOM.number();
    }
    let Some(engine) = engine_bytes::from_bytes(state) else {
        return BROKEN.number();
    };
    let came = engine.receive_header(input);
    let answered = came.answer;
    let after = came.engine;
    finish(answers::opening_received(answered), after, state, answer)
}

// Writes the Open.
#[unsafe(no_mangle)]
pub extern "C" fn hisproat_send_open(state: &mut [u8], output: &mut [u8], answer: &mut [u8]) -> u8
    ensures { Crosses (send_open output.old) state.old answer.old (crossing result state.new answer.new output.new) }
{
    if lacks_room(answer.len(), output.len(), 0) {
        return NO_ROOM.number();
    }
    let Some(engine) = engine_bytes::from_bytes(state) else {
        return BROKEN.number();
    };
    let opening = engine.send_open(container_id(state), output);
    let opened = opening.answer;
    let after = opening.engine;
    finish(answers::opening_sent(opened), after, state, answer)
}

// A frame came. `spare` is the handle that a listener's new session would get, `waiting` the session frames that wait to be sent.
#[unsafe(no_mangle)]
pub extern "C" fn hisproat_on_incoming(
    state: &mut [u8],
    frame: &[u8],
    spare: u32,
    waiting: &[u8],
    output: &mut [u8],
    answer: &mut [u8],
) -> u8
    ensures { Crosses (incoming frame.now spare waiting.now output.old) state.old answer.old (crossing result state.new answer.new output.new) }
{
    if lacks_room(answer.len(), output.len(), waiting.len()) {
        return NO_ROOM.number();
    }
    let Some(engine) = engine_bytes::from_bytes(state) else {
        return BROKEN.number();
    };
    let taken = engine.on_incoming(&mut state[FIXED_SIZE..], frame, spare, waiting, output);
    let running = taken.running;
    let answered = taken.answer;
    let after = taken.engine;
    let received = answers::received(running, taken.consumed, taken.written, answered);
    finish(received, after, state, answer)
}

// Sends the session frames that wait, and then a Close.
#[unsafe(no_mangle)]
pub extern "C" fn hisproat_on_close(
    state: &mut [u8],
    waiting: &[u8],
    output: &mut [u8],
    answer: &mut [u8],
) -> u8
    ensures { Crosses (close_order None waiting.now output.old) state.old answer.old (crossing result state.new answer.new output.new) }
{
    if lacks_room(answer.len(), output.len(), waiting.len()) {
        return NO_ROOM.number();
    }
    let Some(engine) = engine_bytes::from_bytes(state) else {
        return BROKEN.number();
    };
    let closing = engine.on_close(&mut state[FIXED_SIZE..], waiting, output);
    let running = closing.running;
    let answered = closing.answer;
    let after = closing.engine;
    let closed = answers::sent(running, closing.written, answered);
    finish(closed, after, state, answer)
}

// Sends the session frames that wait, and then a Close with an error.
#[unsafe(no_mangle)]
pub extern "C" fn hisproat_on_close_with_error(
    state: &mut [u8],
    condition: &[u8],
    has_description: u8,
    description: &[u8],
    waiting: &[u8],
    output: &mut [u8],
    answer: &mut [u8],
) -> u8
    ensures { Crosses (close_order (Some (error_of condition.now has_description description.now)) waiting.now output.old) state.old answer.old (crossing result state.new answer.new output.new) }
{
    if lacks_room(answer.len(), output.len(), waiting.len()) {
        return NO_ROOM.number();
    }
    let Some(engine) = engine_bytes::from_bytes(state) else {
        return BROKEN.number();
    };
    let error = error_of(condition, has_description, description);
    let order = engine.on_close_with_error(&mut state[FIXED_SIZE..], &error, waiting, output);
    let running = order.running;
    let answered = order.answer;
    let after = order.engine;
    let ordered = answers::sent(running, order.written, answered);
    finish(ordered, after, state, answer)
}

// Hands out a channel to the handle.
#[unsafe(no_mangle)]
pub extern "C" fn hisproat_on_allocate(state: &mut [u8], handle: u32, answer: &mut [u8]) -> u8
    ensures { Crosses (allocate handle) state.old answer.old (crossing result state.new answer.new []) }
{
    if answer.len() < ANSWER_SIZE {
        return NO_ROOM.number();
    }
    let Some(engine) = engine_bytes::from_bytes(state) else {
        return BROKEN.number();
    };
    let given = engine.on_allocate(&mut state[FIXED_SIZE..], handle);
    let running = given.running;
    let answered = given.answer;
    let after = given.engine;
    finish(answers::allocated(running, answered), after, state, answer)
}

// Frees a channel.
#[unsafe(no_mangle)]
pub extern "C" fn hisproat_on_deallocate(state: &mut [u8], channel: u16, answer: &mut [u8]) -> u8
    ensures { Crosses (deallocate channel) state.old answer.old (crossing result state.new answer.new []) }
{
    if answer.len() < ANSWER_SIZE {
        return NO_ROOM.number();
    }
    let Some(engine) = engine_bytes::from_bytes(state) else {
        return BROKEN.number();
    };
    let freed = engine.on_deallocate(&mut state[FIXED_SIZE..], channel);
    let running = freed.running;
    let answered = freed.answer;
    let after = freed.engine;
    finish(
        answers::deallocated(running, answered),
        after,
        state,
        answer,
    )
}

// Sends a session's frame.
#[unsafe(no_mangle)]
pub extern "C" fn hisproat_on_outgoing(
    state: &mut [u8],
    frame: &[u8],
    output: &mut [u8],
    answer: &mut [u8],
) -> u8
    ensures { Crosses (outgoing frame.now output.old) state.old answer.old (crossing result state.new answer.new output.new) }
{
    if lacks_room(answer.len(), output.len(), 0) {
        return NO_ROOM.number();
    }
    let Some(engine) = engine_bytes::from_bytes(state) else {
        return BROKEN.number();
    };
    let sent = engine.on_outgoing_session_frame(&mut state[FIXED_SIZE..], frame, output);
    let running = sent.running;
    let answered = sent.answer;
    let after = sent.engine;
    let done = answers::sent(running, sent.written, answered);
    finish(done, after, state, answer)
}

// It is time for a heartbeat.
#[unsafe(no_mangle)]
pub extern "C" fn hisproat_on_tick(state: &mut [u8], output: &mut [u8], answer: &mut [u8]) -> u8
    ensures { Crosses (tick output.old) state.old answer.old (crossing result state.new answer.new output.new) }
{
    if lacks_room(answer.len(), output.len(), 0) {
        return NO_ROOM.number();
    }
    let Some(engine) = engine_bytes::from_bytes(state) else {
        return BROKEN.number();
    };
    let beat = engine.on_heartbeat(output);
    let running = beat.running;
    let answered = beat.answer;
    let after = beat.engine;
    finish(answers::ticked(running, answered), after, state, answer)
}

// The peer sends no more.
#[unsafe(no_mangle)]
pub extern "C" fn hisproat_on_end_of_input(
    state: &mut [u8],
    output: &mut [u8],
    answer: &mut [u8],
) -> u8
    ensures { Crosses (end_of_input output.old) state.old answer.old (crossing result state.new answer.new output.new) }
{
    if lacks_room(answer.len(), output.len(), 0) {
        return NO_ROOM.number();
    }
    let Some(engine) = engine_bytes::from_bytes(state) else {
        return BROKEN.number();
    };
    let ended = engine.on_end_of_input(output);
    let running = ended.running;
    let after = ended.engine;
    let over = answers::handled(running, ended.written);
    finish(over, after, state, answer)
}

// What came could not be delivered to its session.
#[unsafe(no_mangle)]
pub extern "C" fn hisproat_on_not_delivered(
    state: &mut [u8],
    new_session: u8,
    output: &mut [u8],
    answer: &mut [u8],
) -> u8
    ensures { Crosses (not_delivered (flagged new_session) output.old) state.old answer.old (crossing result state.new answer.new output.new) }
{
    if lacks_room(answer.len(), output.len(), 0) {
        return NO_ROOM.number();
    }
    let Some(engine) = engine_bytes::from_bytes(state) else {
        return BROKEN.number();
    };
    let told = engine.on_not_delivered(is_set(new_session), output);
    let running = told.running;
    let after = told.engine;
    let failed = answers::handled(running, told.written);
    finish(failed, after, state, answer)
}
