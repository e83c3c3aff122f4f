// An engine that was kept: which phases go with which states of its connection.
ghost use Rattle.std.specs.Prelude.{◌≡◌};
ghost use Rattle.connection_state.specs.States.{is_one_of};
ghost use Rattle.connection_state.specs.Answers.{state_says};
ghost use Rattle.engine_model.specs.Engine.{illegal_state};
ghost use Rattle.engine_model.specs.Phases.{is_told, awaits, stops_in, goes_with};
ghost use Rattle.engine.specs.Answers.{outcome_says, phase_says};

use crate::ending::may_end;
use crate::{Outcome, Phase};
use connection_state::ConnectionState;

// Whether it is the outcome of an error that a Close tells the peer of.
fn is_told(outcome: Outcome) -> bool
    ensures { result ≡ is_told (outcome_says outcome) }
{
    matches!(
        outcome,
        Outcome::IllegalState | Outcome::NotFound | Outcome::NotImplemented
    )
}

// Whether the peer's Close can be awaited in a state.
fn awaits(state: ConnectionState) -> bool
    ensures { result ≡ awaits (state_says state) }
{
    matches!(
        state,
        ConnectionState::ClosePipe | ConnectionState::CloseSent | ConnectionState::Discarding
    )
}

// Whether an engine can stop in a state because of what is illegal there.
fn may_be_illegal(state: ConnectionState) -> bool
    ensures { result ≡ is_one_of (stops_in illegal_state) (state_says state) }
{
    matches!(
        state,
        ConnectionState::Start
            | ConnectionState::HeaderReceived
            | ConnectionState::HeaderSent
            | ConnectionState::HeaderExchange
            | ConnectionState::OpenClosePipe
            | ConnectionState::OpenReceived
            | ConnectionState::ClosePipe
            | ConnectionState::CloseSent
            | ConnectionState::End
    )
}

// Whether an engine can stop in a state with an outcome.
fn stops_in(outcome: Outcome, state: ConnectionState) -> bool
    ensures { result ≡ is_one_of (stops_in (outcome_says outcome)) (state_says state) }
{
    match outcome {
        Outcome::Fine => may_end(state),
        Outcome::TransportError => true,
        Outcome::IllegalState => may_be_illegal(state),
        Outcome::NotFound => state.is_end(),
        Outcome::NotImplemented => state.is_end(),
        Outcome::RemoteClosed => state.is_end(),
        Outcome::RemoteClosedWithError => state.is_end(),
    }
}

// Whether events can lead to a phase and a state together.
pub(crate) fn goes_with(phase: Phase, state: ConnectionState) -> bool
    ensures { result ≡ goes_with (phase_says phase) (state_says state) }
{
    match phase {
        Phase::Running => !state.is_close_received(),
        Phase::Awaiting(outcome) => {
            if is_told(outcome) {
                return awaits(state);
            }
            false
        }
        Phase::Stopped(outcome) => stops_in(outcome, state),
    }
}
