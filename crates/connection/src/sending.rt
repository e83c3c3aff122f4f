// The calls that write: the header, the Open, a Close, and the tick.
ghost use Rattle.std.specs.Prelude.{◌≡◌, List, ℕ, Err};
ghost use Rattle.frame_encoder.specs.Answers.{error_text};
ghost use Rattle.connection_state.specs.Answers.{state_says};
ghost use Rattle.connection_model.specs.Connection as M;
ghost use Rattle.connection_model.specs.Connection.{send_header_to, send_open_to, send_close_to};
ghost use Rattle.endpoint.specs.Answers.{sent_says};
ghost use Rattle.connection.specs.View.{whole, tick_says};
ghost use Rattle.connection.specs.Promises.{Does, Beats};

use crate::{Connection, OUTPUT_ROOM, Sent, TickAnswer, Ticked};
use connection_state::ConnectionState;
use frame_encoder::ErrorText;
use octets::Refusal;
use protocol_header::ProtocolHeader;

// What a tick writes in a state.
fn heartbeat(state: ConnectionState, out: &mut [u8]) -> Result<TickAnswer, Refusal>
    ensures { Beats (state_says state) (tick_says result) out.old out.new }
{
    if out.len() < OUTPUT_ROOM {
        return Err(Refusal::NoRoom);
    }
    if state.is_end() {
        return Ok(TickAnswer::Stop);
    }
    if state.is_silent() {
        return Ok(TickAnswer::Wrote(0));
    }
    let n = frame_encoder::write_empty(Connection::MIN_MAX_FRAME_SIZE, out)?;
    Ok(TickAnswer::Wrote(n))
}

impl Connection {
    pub(crate) fn not_sent(self, refusal: Refusal) -> Sent
        ensures { (result.answer ≡ Err refusal) × (result.connection ≡ self) }
    {
        Sent {
            answer: Err(refusal),
            connection: self,
        }
    }

    // Writes the protocol header.
    pub fn send_header(self, out: &mut [u8]) -> Sent
        ensures { (t id : List ℕ) → Does (send_header_to out.old) (whole self t id) (sent_says result.answer) out.new (whole result.connection t id) }
    {
        if out.len() < OUTPUT_ROOM {
            return self.not_sent(Refusal::NoRoom);
        }
        let state = self.local_state;
        let Some(next) = state.send_header() else {
            return self.not_sent(Refusal::IllegalState);
        };
        let header = ProtocolHeader::new(
            Connection::PROTOCOL_ID,
            Connection::MAJOR,
            Connection::MINOR,
            Connection::REVISION,
        );
        let answer = protocol_header::write(header, out);
        Sent {
            answer,
            connection: self.moved_if(answer, next),
        }
    }

    // Writes the Open, with the container-id that is lent: the one of its settings, or else it may be refused as `OutOfBounds`.
    pub fn send_open(self, container_id: &[u8], out: &mut [u8]) -> Sent
        ensures { (t : List ℕ) → Does (send_open_to out.old) (whole self t container_id.now) (sent_says result.answer) out.new (whole result.connection t container_id.now) }
    {
        if out.len() < OUTPUT_ROOM {
            return self.not_sent(Refusal::NoRoom);
        }
        let state = self.local_state;
        let Some(next) = state.send_open() else {
            return self.not_sent(Refusal::IllegalState);
        };
        let endpoint = self.endpoint;
        let open = endpoint.local_open();
        let answer = open.write(container_id, endpoint.writing_limit(), out);
        Sent {
            answer,
            connection: self.moved_if(answer, next),
        }
    }

    // Writes a Close without an error.
    pub fn send_close(self, out: &mut [u8]) -> Sent
        ensures { (t id : List ℕ) → Does (send_close_to None out.old) (whole self t id) (sent_says result.answer) out.new (whole result.connection t id) }
    {
        if out.len() < OUTPUT_ROOM {
            return self.not_sent(Refusal::NoRoom);
        }
        let state = self.local_state;
        let Some(next) = state.send_close() else {
            return self.not_sent(Refusal::IllegalState);
        };
        let endpoint = self.endpoint;
        let answer = frame_encoder::write_close(endpoint.writing_limit(), out);
        Sent {
            answer,
            connection: self.moved_if(answer, next),
        }
    }

    // Writes a Close with an error.
    pub fn send_close_with_error(self, error: &ErrorText<'_>, out: &mut [u8]) -> Sent
        ensures { (t id : List ℕ) → Does (send_close_to (Some (error_text error.now)) out.old) (whole self t id) (sent_says result.answer) out.new (whole result.connection t id) }
    {
        if out.len() < OUTPUT_ROOM {
            return self.not_sent(Refusal::NoRoom);
        }
        if !frame_encoder::error_ok(error) {
            return self.not_sent(Refusal::OutOfBounds);
        }
        let state = self.local_state;
        let Some(next) = state.send_close_with_error() else {
            return self.not_sent(Refusal::IllegalState);
        };
        let endpoint = self.endpoint;
        let limit = endpoint.writing_limit();
        let answer = frame_encoder::write_close_with_error(error, limit, out);
        Sent {
            answer,
            connection: self.moved_if(answer, next),
        }
    }

    // Writes the empty frame that keeps an idle connection alive.
    pub fn tick(self, out: &mut [u8]) -> Ticked
        ensures { (t id : List ℕ) → Does (M.tick out.old) (whole self t id) (tick_says result.answer) out.new (whole result.connection t id) }
    {
        let state = self.local_state;
        let answer = heartbeat(state, out);
        Ticked {
            answer,
            connection: self,
        }
    }
}
