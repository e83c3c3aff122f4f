// The phase in which an event leaves the engine.
ghost use Rattle.std.specs.Prelude.{◌≡◌};
ghost use Rattle.connection_state.specs.Answers.{state_says};
ghost use Rattle.endpoint.specs.Answers.{came_says, answer_says, role_says};
ghost use Rattle.engine_model.specs.Engine.{phase_answered, closed_by, phase_read, close_in};
ghost use Rattle.engine.specs.Answers.{phase_says, outcome_says};
ghost use Rattle.engine.specs.Promises.{Settles, awaited_by};

use crate::error::{incoming_error, outcome_of};
use crate::{ConnectionEngine, Outcome, Phase};
use connection::Connection;
use connection_state::ConnectionState;
use endpoint::{FrameAnswer, Role};
use octets::Refusal;

// A Close was read in this state: the outcome, where none is at hand.
fn closed_by(outcome: Outcome, state: ConnectionState, with_error: bool) -> Outcome
    ensures { outcome_says result ≡ closed_by (outcome_says outcome) (state_says state) with_error }
{
    if with_error {
        return Outcome::RemoteClosedWithError;
    }
    match state {
        ConnectionState::CloseReceived => Outcome::RemoteClosed,
        _ => outcome,
    }
}

// The phase after a frame was read, which led to one state; by now the connection is in another.
pub(crate) fn phase_read(
    answer: FrameAnswer,
    reached: ConnectionState,
    state: ConnectionState,
) -> Phase
    ensures { phase_says result ≡ phase_read (close_in (came_says answer)) (state_says reached) (state_says state) }
{
    if let FrameAnswer::Closed {
        consumed: _,
        with_error,
    } = answer
    {
        return Phase::Stopped(closed_by(Outcome::Fine, reached, with_error));
    }
    if state.is_end() {
        return Phase::Stopped(Outcome::Fine);
    }
    Phase::Running
}

// The phase after a frame was read while the peer's Close is awaited.
pub(crate) fn phase_awaited(
    kept: Outcome,
    connection: Connection,
    answer: Result<FrameAnswer, Refusal>,
) -> Phase
    ensures { phase_says result ≡ awaited_by (role_says connection.endpoint.role) (outcome_says kept) (state_says connection.local_state) (answer_says answer) }
{
    let taken = match answer {
        Err(refusal) => {
            return Phase::Stopped(outcome_of(incoming_error(connection.role(), refusal)));
        }
        Ok(taken) => taken,
    };
    if let FrameAnswer::Closed {
        consumed: _,
        with_error,
    } = taken
    {
        return Phase::Stopped(closed_by(kept, connection.state(), with_error));
    }
    Phase::Awaiting(kept)
}

// The phase after a frame was read that a Close has answered.
pub(crate) fn phase_answered(
    role: Role,
    answer: Result<FrameAnswer, Refusal>,
    reached: ConnectionState,
    state: ConnectionState,
) -> Phase
    ensures { phase_says result ≡ phase_answered (role_says role) (state_says reached) (answer_says answer) (state_says state) }
{
    match answer {
        Err(refusal) => Phase::Stopped(outcome_of(incoming_error(role, refusal))),
        Ok(taken) => phase_read(taken, reached, state),
    }
}

// After an event that went well, the engine goes on unless the connection is over.
pub(crate) fn settle(connection: Connection) -> ConnectionEngine
    ensures { Settles connection result }
{
    let state = connection.state();
    if state.is_end() {
        return ConnectionEngine {
            phase: Phase::Stopped(Outcome::Fine),
            connection,
        };
    }
    ConnectionEngine {
        phase: Phase::Running,
        connection,
    }
}
