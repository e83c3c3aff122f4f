// What came of an event, in numbers, and how it is laid into the lent answer.
ghost use Rattle.std.specs.Prelude.{◌≡◌, ◌++◌, Err, Ok};
ghost use Rattle.octets.specs.Octets.{bytes_of, put};
ghost use Rattle.octets.specs.Refusal.{number_of};
ghost use Rattle.connection.specs.View.{header_says, freed_says, tick_says};
ghost use Rattle.endpoint.specs.Answers.{came_says, answer_says, sent_says, allocate_says};
ghost use Rattle.engine.specs.Answers.{reply_says, opening_says, sent_count, tick_count};
ghost use Rattle.hisproat.specs.Answers.{inner, answer_inner, inner_of, inner_bytes};
ghost use Rattle.channels.specs.Numbers.{one};
ghost use Rattle.hisproat.specs.Promises.{kind_number, inner_says, HeaderRuns, Amounts, Lays, Finishes};

use crate::ANSWER_SIZE;
use crate::kind::Kind;
use connection::{HeaderAnswer, TickAnswer};
use endpoint::FrameAnswer;
use engine::{ConnectionEngine, Running};
use engine_bytes::numbers::outcome_number;
use octets::{Refusal, put_number};

// The code of a Begin.
const BEGIN: u8 = 17;

// What the call inside answered, in numbers. What a kind does not have is zero.
#[derive(Clone, Copy)]
pub struct Inner {
    kind: Kind,
    detail: u8,
    channel: u16,
    number: u32,
    from: usize,
    len: usize,
}

// What came of an event, besides the engine.
#[derive(Clone, Copy)]
pub struct Done {
    running: Result<Running, Refusal>,
    consumed: usize,
    written: usize,
    inner: Inner,
}

// An answer of a kind, with a detail and nothing else.
fn plain(kind: Kind, detail: u8) -> Inner
    ensures { inner_says result ≡ inner (kind_number kind) detail 0 0 0 0 }
{
    Inner {
        kind,
        detail,
        channel: 0,
        number: 0,
        from: 0,
        len: 0,
    }
}

// The answer of a call that was refused
fn refused(refusal: Refusal) -> Inner
    ensures { inner_says result ≡ inner 1 (number_of refusal) 0 0 0 0 }
{
    plain(Kind::Refused, refusal.number())
}

fn written_inner(answer: Result<usize, Refusal>) -> Inner
    ensures { inner_says result ≡ inner_of (Some (sent_says answer)) }
{
    match answer {
        Ok(_) => plain(Kind::Wrote, 0),
        Err(refusal) => refused(refusal),
    }
}

fn header_inner(answer: Result<HeaderAnswer, Refusal>) -> Inner
    ensures { inner_says result ≡ inner_of (Some (header_says answer)) }
{
    let header = match answer {
        Err(refusal) => return refused(refusal),
        Ok(header) => header,
    };
    match header {
        HeaderAnswer::Amqp(_) => plain(Kind::Header, 0),
        HeaderAnswer::OtherProtocol(_) => plain(Kind::OtherProtocol, 0),
    }
}

fn tick_inner(answer: Result<TickAnswer, Refusal>) -> Inner
    ensures { inner_says result ≡ inner_of (Some (tick_says answer)) }
{
    let ticked = match answer {
        Err(refusal) => return refused(refusal),
        Ok(ticked) => ticked,
    };
    match ticked {
        TickAnswer::Wrote(_) => plain(Kind::Wrote, 0),
        TickAnswer::Stop => plain(Kind::End, 0),
    }
}

fn allocate_inner(answer: Result<u16, Refusal>) -> Inner
    ensures { inner_says result ≡ inner_of (Some (allocate_says answer)) }
{
    match answer {
        Ok(channel) => Inner {
            kind: Kind::Channel,
            detail: 0,
            channel,
            number: 0,
            from: 0,
            len: 0,
        },
        Err(refusal) => refused(refusal),
    }
}

fn deallocate_inner(answer: Result<u32, Refusal>) -> Inner
    ensures { inner_says result ≡ inner_of (Some (freed_says answer)) }
{
    match answer {
        Ok(handle) => numbered(Kind::Freed, handle),
        Err(refusal) => refused(refusal),
    }
}

// An answer of a kind, with a number and nothing else.
fn numbered(kind: Kind, number: u32) -> Inner
    ensures { inner_says result ≡ inner (kind_number kind) 0 0 number 0 0 }
{
    Inner {
        kind,
        detail: 0,
        channel: 0,
        number,
        from: 0,
        len: 0,
    }
}

fn flag(b: bool) -> u8
    ensures { result ≡ one b }
{
    u8::from(b)
}

fn frame_inner(answer: Result<FrameAnswer, Refusal>) -> Inner
    ensures { inner_says result ≡ inner_of (Some (answer_says answer)) }
{
    match answer {
        Err(refusal) => refused(refusal),
        Ok(taken) => taken_inner(taken),
    }
}

// What came of a frame that was taken.
fn taken_inner(taken: FrameAnswer) -> Inner
    ensures { inner_says result ≡ answer_inner (came_says taken) }
{
    match taken {
        FrameAnswer::NothingToDo { consumed: _ } => plain(Kind::NothingToDo, 0),
        FrameAnswer::Opened {
            consumed: _,
            idle_time_out,
        } => numbered(Kind::Opened, idle_time_out),
        FrameAnswer::Closed {
            consumed: _,
            with_error,
        } => plain(Kind::Closed, flag(with_error)),
        FrameAnswer::Forward {
            consumed: _,
            code,
            handle,
            from,
            len,
        } => body(Kind::Forward, code, 0, handle, from, len),
        FrameAnswer::Began {
            consumed: _,
            channel,
            handle,
            from,
            len,
        } => body(Kind::Began, BEGIN, channel, handle, from, len),
    }
}

// A body that goes on to a session.
fn body(kind: Kind, code: u8, channel: u16, handle: u32, from: usize, len: usize) -> Inner
    ensures { inner_says result ≡ inner (kind_number kind) code channel handle from len }
{
    Inner {
        kind,
        detail: code,
        channel,
        number: handle,
        from,
        len,
    }
}

// What a call that opens the connection and writes came to.
pub fn opening_sent(answer: Result<usize, Refusal>) -> Done
    ensures { Amounts result (Some (sent_says answer)) (opening_says 0 (sent_count answer) (sent_says answer)) }
{
    let inner = written_inner(answer);
    match answer {
        Ok(n) => Done {
            running: Ok(Running::Continue),
            consumed: 0,
            written: n,
            inner,
        },
        Err(refusal) => Done {
            running: Err(refusal),
            consumed: 0,
            written: 0,
            inner,
        },
    }
}

// Whether a header that came was refused.
fn header_running(answer: Result<HeaderAnswer, Refusal>) -> Result<Running, Refusal>
    ensures { HeaderRuns answer result }
{
    match answer {
        Ok(_) => Ok(Running::Continue),
        Err(refusal) => Err(refusal),
    }
}

// What a header that came led to.
pub fn opening_received(answer: Result<HeaderAnswer, Refusal>) -> Done
    ensures { Amounts result (Some (header_says answer)) (opening_says 8 0 (header_says answer)) }
{
    Done {
        running: header_running(answer),
        consumed: 8,
        written: 0,
        inner: header_inner(answer),
    }
}

pub fn allocated(running: Result<Running, Refusal>, answer: Result<u16, Refusal>) -> Done
    ensures { Amounts result (Some (allocate_says answer)) (reply_says running 0 0 (Some (allocate_says answer))) }
{
    Done {
        running,
        consumed: 0,
        written: 0,
        inner: allocate_inner(answer),
    }
}

pub fn deallocated(running: Result<Running, Refusal>, answer: Result<u32, Refusal>) -> Done
    ensures { Amounts result (Some (freed_says answer)) (reply_says running 0 0 (Some (freed_says answer))) }
{
    Done {
        running,
        consumed: 0,
        written: 0,
        inner: deallocate_inner(answer),
    }
}

// How many bytes a tick wrote.
fn tick_count(answer: Result<TickAnswer, Refusal>) -> usize
    ensures { result ≡ tick_count answer }
{
    match answer {
        Ok(TickAnswer::Wrote(n)) => n,
        Ok(TickAnswer::Stop) => 0,
        Err(_) => 0,
    }
}

pub fn ticked(running: Result<Running, Refusal>, answer: Result<TickAnswer, Refusal>) -> Done
    ensures { Amounts result (Some (tick_says answer)) (reply_says running 0 (tick_count answer) (Some (tick_says answer))) }
{
    Done {
        running,
        consumed: 0,
        written: tick_count(answer),
        inner: tick_inner(answer),
    }
}

pub fn sent(
    running: Result<Running, Refusal>,
    written: usize,
    answer: Result<usize, Refusal>,
) -> Done
    ensures { Amounts result (Some (sent_says answer)) (reply_says running 0 written (Some (sent_says answer))) }
{
    Done {
        running,
        consumed: 0,
        written,
        inner: written_inner(answer),
    }
}

pub fn received(
    running: Result<Running, Refusal>,
    consumed: usize,
    written: usize,
    answer: Result<FrameAnswer, Refusal>,
) -> Done
    ensures { Amounts result (Some (answer_says answer)) (reply_says running consumed written (Some (answer_says answer))) }
{
    Done {
        running,
        consumed,
        written,
        inner: frame_inner(answer),
    }
}

// What the error path came to: no call of the connection is told of.
pub fn handled(running: Result<Running, Refusal>, written: usize) -> Done
    ensures { Amounts result None (reply_says running 0 written None) }
{
    Done {
        running,
        consumed: 0,
        written,
        inner: plain(Kind::NoCall, 0),
    }
}

// Lays what the call inside answered into the answer.
fn put_inner(inner: Inner, answer: &mut [u8])
    ensures { answer.new ≡ put answer.old 2 (inner_bytes (inner_says inner)) }
{
    if answer.len() < 26 {
        return;
    }
    put_number(answer, 2, 1, inner.kind.number() as u64);
    put_number(answer, 3, 1, inner.detail as u64);
    put_number(answer, 4, 2, inner.channel as u64);
    put_number(answer, 6, 4, inner.number as u64);
    put_number(answer, 10, 8, inner.from as u64);
    put_number(answer, 18, 8, inner.len as u64);
}

// Lays an answer: whether the engine stopped and how it ended, what the call inside answered, and how many bytes were consumed and written.
fn put_answer(stopped: u8, outcome: u8, done: Done, answer: &mut [u8])
    ensures { answer.new ≡ put answer.old 0 (bytes_of 1 stopped ++ (bytes_of 1 outcome ++ (inner_bytes (inner_says done.inner) ++ (bytes_of 8 done.consumed ++ bytes_of 8 done.written)))) }
{
    if answer.len() < ANSWER_SIZE {
        return;
    }
    put_number(answer, 0, 1, stopped as u64);
    put_number(answer, 1, 1, outcome as u64);
    put_inner(done.inner, answer);
    put_number(answer, 26, 8, done.consumed as u64);
    put_number(answer, 34, 8, done.written as u64);
}

// Lays the answer of an event that was done, and the engine's bytes.
fn lay(
    stopped: u8,
    outcome: u8,
    done: Done,
    engine: ConnectionEngine,
    state: &mut [u8],
    answer: &mut [u8],
)
    ensures { Lays stopped outcome done engine state.old answer.old state.new answer.new }
{
    put_answer(stopped, outcome, done, answer);
    engine_bytes::write(engine, state);
}

// Lays the answer of an event and the bytes of the engine afterwards, unless the event was refused, and tells its refusal or 0.
pub fn finish(done: Done, engine: ConnectionEngine, state: &mut [u8], answer: &mut [u8]) -> u8
    ensures { Finishes done engine state.old answer.old result state.new answer.new }
{
    let running = done.running;
    let going = match running {
        Err(refusal) => return refusal.number(),
        Ok(going) => going,
    };
    match going {
        Running::Continue => {
            lay(0, 0, done, engine, state, answer);
            0
        }
        Running::Stop(outcome) => {
            lay(1, outcome_number(outcome), done, engine, state, answer);
            0
        }
    }
}
