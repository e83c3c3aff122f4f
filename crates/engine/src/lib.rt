// The engine of a connection: its events, each of which takes the engine and gives it back with its answer.
#![tactic(auto)]

mod control;
mod ending;
mod error;
mod heartbeat;
mod incoming;
mod opening;
mod resuming;
pub mod room;
mod sending;
mod settling;

ghost use Rattle.std.specs.Prelude.{◌≡◌, not};
ghost use Rattle.frame_encoder.specs.Answers.{settings_say};
ghost use Rattle.connection_model.specs.Connection.{dialler, listener};
ghost use Rattle.engine_model.specs.Engine.{is_running, is_stopped};
ghost use Rattle.engine.specs.Answers.{phase_says, goes_on};
ghost use Rattle.engine.specs.Promises.{Makes, Runs, resumed_as};

use connection::{Connection, HeaderAnswer, TickAnswer};
use endpoint::FrameAnswer;
use frame_encoder::Settings;
use octets::Refusal;

// How an engine ends.
#[derive(Clone, Copy)]
pub enum Outcome {
    Fine,
    TransportError,
    IllegalState,
    NotFound,
    NotImplemented,
    RemoteClosed,
    RemoteClosedWithError,
}

// While the peer's Close is awaited, the outcome to come is kept.
#[derive(Clone, Copy)]
pub enum Phase {
    Running,
    Awaiting(Outcome),
    Stopped(Outcome),
}

// Whether the engine goes on after an event, or has stopped and how it ended. Not an Option: going
// on is an answer, and not the want of one.
#[derive(Clone, Copy)]
pub enum Running {
    Continue,
    Stop(Outcome),
}

#[derive(Clone, Copy)]
pub struct ConnectionEngine {
    phase: Phase,
    connection: Connection,
}

#[derive(Clone, Copy)]
pub struct OpeningSent {
    pub answer: Result<usize, Refusal>,
    pub engine: ConnectionEngine,
}

#[derive(Clone, Copy)]
pub struct OpeningReceived {
    pub answer: Result<HeaderAnswer, Refusal>,
    pub engine: ConnectionEngine,
}

#[derive(Clone, Copy)]
pub struct OnAllocate {
    pub running: Result<Running, Refusal>,
    pub answer: Result<u16, Refusal>,
    pub engine: ConnectionEngine,
}

#[derive(Clone, Copy)]
pub struct OnDeallocate {
    pub running: Result<Running, Refusal>,
    pub answer: Result<u32, Refusal>,
    pub engine: ConnectionEngine,
}

#[derive(Clone, Copy)]
pub struct OnHeartbeat {
    pub running: Result<Running, Refusal>,
    pub answer: Result<TickAnswer, Refusal>,
    pub engine: ConnectionEngine,
}

// A frame that went out, or did not.
#[derive(Clone, Copy)]
pub struct OnOutgoing {
    pub running: Result<Running, Refusal>,
    pub written: usize,
    pub answer: Result<usize, Refusal>,
    pub engine: ConnectionEngine,
}

// A frame that came: what became of it, and how many bytes were consumed and written.
#[derive(Clone, Copy)]
pub struct OnIncoming {
    pub running: Result<Running, Refusal>,
    pub consumed: usize,
    pub written: usize,
    pub answer: Result<FrameAnswer, Refusal>,
    pub engine: ConnectionEngine,
}

// What the error path did.
#[derive(Clone, Copy)]
pub struct OnError {
    pub running: Result<Running, Refusal>,
    pub written: usize,
    pub engine: ConnectionEngine,
}

// Where an event leaves the engine, and how many bytes it wrote.
#[derive(Clone, Copy)]
struct Landed {
    phase: Phase,
    written: usize,
    connection: Connection,
}

// What came of frames that were sent one after the other: the last answer, and how many bytes were written in all.
#[derive(Clone, Copy)]
struct Trailed {
    answer: Result<usize, Refusal>,
    written: usize,
    connection: Connection,
}

// An engine that runs, with a connection that was made.
fn running_with(made: Result<Connection, Refusal>) -> Result<ConnectionEngine, Refusal>
    ensures { Runs made result }
{
    let connection = made?;
    Ok(ConnectionEngine {
        phase: Phase::Running,
        connection,
    })
}

impl ConnectionEngine {
    // The engine of the one that dials
    pub fn dialler(settings: &Settings<'_>, tables: &mut [u8]) -> Result<ConnectionEngine, Refusal>
        ensures { Makes dialler (settings_say settings.now) tables.old result tables.new }
    {
        let made = Connection::dialler(settings, tables);
        running_with(made)
    }

    // The engine of the one that listens
    pub fn listener(settings: &Settings<'_>, tables: &mut [u8]) -> Result<ConnectionEngine, Refusal>
        ensures { Makes listener (settings_say settings.now) tables.old result tables.new }
    {
        let made = Connection::listener(settings, tables);
        running_with(made)
    }

    // The connection inside, to be read
    pub fn connection(self) -> Connection
        ensures { result ≡ self.connection }
    {
        self.connection
    }

    pub fn phase(self) -> Phase
        ensures { result ≡ self.phase }
    {
        self.phase
    }

    // An engine that was kept: a phase, and a connection, if events can lead to the phase in its state. It is as sound as its connection.
    pub fn resumed(phase: Phase, connection: Connection) -> Option<ConnectionEngine>
        ensures { result ≡ resumed_as phase connection }
    {
        let goes = resuming::goes_with(phase, connection.state());
        goes.then_some(ConnectionEngine { phase, connection })
    }

    // Whether the engine goes on
    pub fn running(self) -> Running
        ensures { result ≡ goes_on self.phase }
    {
        let phase = self.phase;
        match phase {
            Phase::Running => Running::Continue,
            Phase::Awaiting(_) => Running::Continue,
            Phase::Stopped(outcome) => Running::Stop(outcome),
        }
    }

    // Whether the engine awaits the peer's Close, or has stopped
    fn is_ending(self) -> bool
        ensures { result ≡ not (is_running (phase_says self.phase)) }
    {
        let phase = self.phase;
        match phase {
            Phase::Running => false,
            _ => true,
        }
    }

    fn is_stopped(self) -> bool
        ensures { result ≡ is_stopped (phase_says self.phase) }
    {
        let phase = self.phase;
        match phase {
            Phase::Stopped(_) => true,
            _ => false,
        }
    }
}
