// What is lost: a session to which a frame could not be delivered, and the input.
ghost use Rattle.std.specs.Prelude.{◌≡◌, List, ℕ, Err};
ghost use Rattle.connection_state.specs.Answers.{state_says};
ghost use Rattle.connection_state.specs.States.{is_one_of};
ghost use Rattle.endpoint.specs.Answers.{role_says};
ghost use Rattle.connection.specs.View as View;
ghost use Rattle.engine_model.specs.Engine as M;
ghost use Rattle.engine_model.specs.Engine.{fine, cut_short, not_delivered, end_of_input};
ghost use Rattle.engine_model.specs.Phases.{stops_in};
ghost use Rattle.engine.specs.Answers.{whole, phase_says, error_says, reply_says, Bare};
ghost use Rattle.engine.specs.Promises.{Does, Ends, Handled, landed_in};

use crate::error::{InnerError, on_error};
use crate::room::OUTPUT_ROOM;
use crate::{ConnectionEngine, Landed, OnError, Outcome, Phase};
use connection::Connection;
use connection_state::ConnectionState;
use endpoint::Role;
use octets::Refusal;

// What could not be delivered.
fn undelivered(role: Role, new_session: bool) -> InnerError
    ensures { error_says result ≡ Some (M.undelivered (role_says role) new_session) }
{
    if !new_session {
        return InnerError::SessionNotFound;
    }
    match role {
        Role::Dialler => InnerError::SessionNotFound,
        Role::Listener => InnerError::NotImplemented,
    }
}

// Whether the input may end in a state: the Close is on its way, or the connection is over.
pub(crate) fn may_end(state: ConnectionState) -> bool
    ensures { result ≡ is_one_of (stops_in fine) (state_says state) }
{
    matches!(
        state,
        ConnectionState::ClosePipe | ConnectionState::Discarding | ConnectionState::End
    )
}

// There is no more input, so that nothing can be awaited.
fn cut_short(phase: Phase) -> Phase
    ensures { phase_says result ≡ cut_short (phase_says phase) }
{
    match phase {
        Phase::Running => phase,
        Phase::Awaiting(_) => Phase::Stopped(Outcome::TransportError),
        Phase::Stopped(_) => phase,
    }
}

// The input ends while the engine runs.
fn input_ends(connection: Connection, out: &mut [u8]) -> Landed
    ensures { (t id : List ℕ) → Ends (View.whole connection t id) out.old out.new (landed_in result t id) }
{
    if may_end(connection.state()) {
        return Landed {
            phase: Phase::Stopped(Outcome::Fine),
            written: 0,
            connection,
        };
    }
    let failed = on_error(connection, InnerError::IllegalState, 0, out);
    let phase = failed.phase;
    let after = failed.connection;
    Landed {
        phase: cut_short(phase),
        written: failed.written,
        connection: after,
    }
}

impl Landed {
    // The engine, and what its error path did
    fn handled(self) -> OnError
        ensures { Handled self result }
    {
        let phase = self.phase;
        let connection = self.connection;
        let engine = ConnectionEngine { phase, connection };
        OnError {
            running: Ok(engine.running()),
            written: self.written,
            engine,
        }
    }
}

impl ConnectionEngine {
    fn not_handled(self, refusal: Refusal) -> OnError
        ensures { (result.running ≡ Err refusal) × (result.engine ≡ self) × (result.written ≡ 0) }
    {
        OnError {
            running: Err(refusal),
            written: 0,
            engine: self,
        }
    }

    // A frame that was handed on, or a new session, could not be delivered.
    pub fn on_not_delivered(self, new_session: bool, out: &mut [u8]) -> OnError
        ensures { ((t id : List ℕ) → Does (not_delivered new_session out.old) (whole self t id) (reply_says result.running 0 result.written None) out.new (whole result.engine t id)) × Bare result.running 0 result.written (λ e. Unit {0}) }
    {
        if out.len() < OUTPUT_ROOM {
            return self.not_handled(Refusal::NoRoom);
        }
        if self.is_ending() {
            return self.not_handled(Refusal::IllegalState);
        }
        let connection = self.connection;
        let error = undelivered(connection.role(), new_session);
        let landed = on_error(connection, error, 0, out);
        landed.handled()
    }

    // There is no more input.
    pub fn on_end_of_input(self, out: &mut [u8]) -> OnError
        ensures { ((t id : List ℕ) → Does (end_of_input out.old) (whole self t id) (reply_says result.running 0 result.written None) out.new (whole result.engine t id)) × Bare result.running 0 result.written (λ e. Unit {0}) }
    {
        if out.len() < OUTPUT_ROOM {
            return self.not_handled(Refusal::NoRoom);
        }
        let phase = self.phase;
        let connection = self.connection;
        match phase {
            Phase::Stopped(_) => self.not_handled(Refusal::IllegalState),
            Phase::Awaiting(_) => {
                let landed = Landed {
                    phase: Phase::Stopped(Outcome::TransportError),
                    written: 0,
                    connection,
                };
                landed.handled()
            }
            Phase::Running => {
                let landed = input_ends(connection, out);
                landed.handled()
            }
        }
    }
}
