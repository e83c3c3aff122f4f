// Errors inside an event: the outcome that each leads to, what the peer is told, and where the error path leaves the engine.
ghost use Rattle.std.specs.Prelude.{◌≡◌, List, ℕ, ◌≤◌, length, leb, not};
ghost use Rattle.octets.specs.Refusal.{number_of};
ghost use Rattle.connection_state.specs.Answers.{state_says};
ghost use Rattle.endpoint.specs.Answers.{role_says, sent_says};
ghost use Rattle.connection.specs.View as View;
ghost use Rattle.engine_model.specs.Engine.{outcome_of, send_fault, read_fault, closed_with};
ghost use Rattle.engine.specs.Answers.{phase_says, outcome_says, error_says};
ghost use Rattle.engine.specs.Promises.{SendsError, Fails, not_closed, landed_in};

use crate::room::advanced;
use crate::{Landed, Outcome, Phase};
use connection::{Connection, Sent};
use connection_state::ConnectionState;
use endpoint::Role;
use frame_encoder::ErrorText;
use octets::Refusal;

// An error inside an event: the outcome that it leads to, and what the peer is told.
#[derive(Clone, Copy)]
pub(crate) enum InnerError {
    TransportError,
    IllegalState,
    NotFound,
    SessionNotFound,
    OutgoingChannelNotFound,
    NotImplemented,
    RemoteSession,
}

// The outcome that an error leads to.
pub(crate) fn outcome_of(error: InnerError) -> Outcome
    ensures { outcome_says result ≡ outcome_of (error_says error) }
{
    match error {
        InnerError::TransportError => Outcome::TransportError,
        InnerError::IllegalState => Outcome::IllegalState,
        InnerError::NotFound => Outcome::NotFound,
        InnerError::SessionNotFound => Outcome::NotFound,
        InnerError::OutgoingChannelNotFound => Outcome::NotFound,
        InnerError::NotImplemented => Outcome::NotImplemented,
        InnerError::RemoteSession => Outcome::NotImplemented,
    }
}

// What the refusal of something that was to go out leads to.
pub(crate) fn outgoing_error(refusal: Refusal) -> InnerError
    ensures { error_says result ≡ send_fault (number_of refusal) }
{
    match refusal {
        Refusal::IllegalState => InnerError::IllegalState,
        Refusal::NotFound => InnerError::OutgoingChannelNotFound,
        _ => InnerError::TransportError,
    }
}

// Whether a refusal is of what is lent alone, whatever the state: those numbered below 20.
pub(crate) fn is_of_input(refusal: Refusal) -> bool
    ensures { result ≡ not (leb 20 (number_of refusal)) }
{
    match refusal {
        Refusal::IllegalState => false,
        Refusal::NotOpened => false,
        Refusal::Stopped => false,
        Refusal::NoChannelLeft => false,
        Refusal::NotFound => false,
        Refusal::NotImplemented => false,
        Refusal::NotTaken => false,
        Refusal::OverWritingLimit => false,
        _ => true,
    }
}

// What the refusal of a frame that came leads to.
pub(crate) fn incoming_error(role: Role, refusal: Refusal) -> InnerError
    ensures { error_says result ≡ read_fault (role_says role) (number_of refusal) }
{
    match refusal {
        Refusal::IllegalState => InnerError::IllegalState,
        Refusal::NotFound => InnerError::NotFound,
        Refusal::NotImplemented => match role {
            Role::Dialler => InnerError::RemoteSession,
            Role::Listener => InnerError::NotImplemented,
        },
        _ => InnerError::TransportError,
    }
}

// What the peer is told of each error
const ILLEGAL_STATE: ErrorText<'static> = ErrorText {
    condition: b"amqp:illegal-state",
    description: None,
};

const NOT_FOUND: ErrorText<'static> = ErrorText {
    condition: b"amqp:not-found",
    description: None,
};

const SESSION_NOT_FOUND: ErrorText<'static> = ErrorText {
    condition: b"amqp:not-found",
    description: Some(b"Session is not found"),
};

const OUTGOING_CHANNEL_NOT_FOUND: ErrorText<'static> = ErrorText {
    condition: b"amqp:not-found",
    description: Some(b"Outgoing channel is not found"),
};

const NOT_IMPLEMENTED: ErrorText<'static> = ErrorText {
    condition: b"amqp:not-implemented",
    description: None,
};

const REMOTE_SESSION: ErrorText<'static> = ErrorText {
    condition: b"amqp:not-implemented",
    description: Some(b"Remotely initiazted session is not supported yet"),
};

// Tells the peer of an error by a Close. Of a transport error it is told nothing.
fn send_error(connection: Connection, error: InnerError, out: &mut [u8]) -> Sent
    ensures { (t id : List ℕ) → SendsError (error_says error) (View.whole connection t id) (sent_says result.answer) out.old out.new (View.whole result.connection t id) }
{
    match error {
        InnerError::TransportError => Sent {
            answer: Err(Refusal::OverWritingLimit),
            connection,
        },
        InnerError::IllegalState => connection.send_close_with_error(&ILLEGAL_STATE, out),
        InnerError::NotFound => connection.send_close_with_error(&NOT_FOUND, out),
        InnerError::SessionNotFound => connection.send_close_with_error(&SESSION_NOT_FOUND, out),
        InnerError::OutgoingChannelNotFound => connection.send_close_with_error(
            &OUTGOING_CHANNEL_NOT_FOUND,
            out,
        ),
        InnerError::NotImplemented => connection.send_close_with_error(&NOT_IMPLEMENTED, out),
        InnerError::RemoteSession => connection.send_close_with_error(&REMOTE_SESSION, out),
    }
}

// A Close with the error was written: the peer's is awaited, unless it came before.
fn closed_with(outcome: Outcome, state: ConnectionState) -> Phase
    ensures { phase_says result ≡ closed_with (outcome_says outcome) (state_says state) }
{
    if state.is_end() {
        return Phase::Stopped(outcome);
    }
    Phase::Awaiting(outcome)
}

// The Close was refused: it is on its way already, or the connection is over, or there is nothing to close.
fn unclosed(refusal: Refusal, outcome: Outcome, state: ConnectionState) -> Phase
    ensures { phase_says result ≡ not_closed (number_of refusal) (outcome_says outcome) (state_says state) }
{
    let Refusal::IllegalState = refusal else {
        return Phase::Stopped(Outcome::TransportError);
    };
    match state {
        ConnectionState::ClosePipe => Phase::Awaiting(outcome),
        ConnectionState::CloseSent => Phase::Awaiting(outcome),
        ConnectionState::Discarding => Phase::Awaiting(outcome),
        ConnectionState::End => Phase::Stopped(outcome),
        _ => Phase::Stopped(Outcome::IllegalState),
    }
}

// The error path. So many bytes of the output are written already.
pub(crate) fn on_error(
    connection: Connection,
    error: InnerError,
    written: usize,
    out: &mut [u8],
) -> Landed
    requires { written ≤ length out.old }
    ensures { (t id : List ℕ) → Fails (error_says error) (View.whole connection t id) written out.old out.new (landed_in result t id) }
{
    let outcome = outcome_of(error);
    let sent = send_error(connection, error, &mut out[written..]);
    let after = sent.connection;
    let answer = sent.answer;
    let state = after.state();
    match answer {
        Ok(n) => Landed {
            phase: closed_with(outcome, state),
            written: advanced(written, n, out.len()),
            connection: after,
        },
        Err(refusal) => Landed {
            phase: unclosed(refusal, outcome, state),
            written,
            connection: after,
        },
    }
}
