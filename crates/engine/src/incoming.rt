// A frame that came.
ghost use Rattle.std.specs.Prelude.{◌≡◌, List, ℕ, ◌≤◌, length, Err};
ghost use Rattle.connection_state.specs.Answers.{state_says};
ghost use Rattle.connection.specs.View as View;
ghost use Rattle.frame_decoder.specs.Frame.{read_frame};
ghost use Rattle.engine.specs.Reading.{Answered, Took, Taken, answers_close, lacks_bytes};
ghost use Rattle.endpoint.specs.Answers.{answer_says};
ghost use Rattle.engine_model.specs.Engine.{incoming, is_close};
ghost use Rattle.engine.specs.Answers.{whole, connection_in, reply_says, Bare};
ghost use Rattle.engine.specs.Promises.{DoesIn, consumed_for, LeadsTo, landed_in};

use crate::error::{incoming_error, on_error, outgoing_error};
use crate::room::{UNCOVERED, advanced, lacks_room};
use crate::sending::{frame_size, send_waiting};
use crate::settling::{phase_answered, phase_awaited, phase_read};
use crate::{ConnectionEngine, Landed, OnIncoming, Phase};
use connection::Connection;
use connection_state::ConnectionState;
use endpoint::FrameAnswer;
use frame_decoder::Frame;
use octets::Refusal;
use performatives::Performative;

// Whether a frame is a Close.
fn is_close(s: &[u8], limit: u32, highest: u16) -> bool
    ensures { result ≡ is_close (read_frame limit highest s.now) }
{
    let Ok(frame) = frame_decoder::read(s, limit, highest) else {
        return false;
    };
    let Frame::Body {
        channel: _,
        size: _,
        from: _,
        performative,
        end: _,
    } = frame
    else {
        return false;
    };
    match performative {
        Performative::Close(_) => true,
        _ => false,
    }
}

// How many bytes a frame that was answered so consumes.
fn consumed_by(answer: Result<FrameAnswer, Refusal>, size: usize) -> usize
    ensures { result ≡ consumed_for (answer_says answer) size }
{
    let Err(refusal) = answer else {
        return size;
    };
    match refusal {
        Refusal::TooShort => 0,
        Refusal::OverReadingLimit => 0,
        _ => size,
    }
}

// Whether bytes of the frame are missing, which is judged before anything is done.
fn lacks_bytes(s: &[u8], limit: u32) -> bool
    ensures { result ≡ lacks_bytes limit s.now }
{
    if s.len() < 4 {
        return true;
    }
    let size = frame_size(s);
    if size < 8 {
        return false;
    }
    if (limit as usize) < size {
        return false;
    }
    s.len() < size
}

// Where a frame leads that was read and answered so, while the engine runs. So many bytes of the output are written already.
fn read_to(
    connection: Connection,
    answer: Result<FrameAnswer, Refusal>,
    reached: ConnectionState,
    written: usize,
    out: &mut [u8],
) -> Landed
    requires { written ≤ length out.old }
    ensures { (t id : List ℕ) → LeadsTo (state_says reached) (answer_says answer) (View.whole connection t id) written out.old out.new (landed_in result t id) }
{
    match answer {
        Err(refusal) => {
            let error = incoming_error(connection.role(), refusal);
            on_error(connection, error, written, out)
        }
        Ok(taken) => Landed {
            phase: phase_read(taken, reached, connection.state()),
            written,
            connection,
        },
    }
}

// The peer's Close was read, which is answered: the waiting frames, and then a Close.
fn answer_close(
    connection: Connection,
    tables: &mut [u8],
    answer: Result<FrameAnswer, Refusal>,
    waiting: &[u8],
    count: usize,
    out: &mut [u8],
) -> Landed
    ensures { (id : List ℕ) → Answered (answer_says answer) (View.whole connection tables.old id) count waiting.now out.old out.new (landed_in result tables.new id) }
{
    let reached = connection.state();
    let waited = send_waiting(connection, tables, waiting, count, out);
    let last = waited.answer;
    let written = waited.written;
    let sender = waited.connection;
    if let Err(refusal) = last {
        return on_error(sender, outgoing_error(refusal), written, out);
    }
    let sent = sender.send_close(&mut out[written..]);
    let closed = sent.answer;
    let after = sent.connection;
    match closed {
        Err(refusal) => on_error(after, outgoing_error(refusal), written, out),
        Ok(n) => Landed {
            phase: phase_answered(after.role(), answer, reached, after.state()),
            written: advanced(written, n, out.len()),
            connection: after,
        },
    }
}

impl Landed {
    // The engine, after a frame was answered so and consumed so many bytes
    fn taken(self, answer: Result<FrameAnswer, Refusal>, consumed: usize) -> OnIncoming
        ensures { Taken self answer consumed result }
    {
        let phase = self.phase;
        let connection = self.connection;
        let engine = ConnectionEngine { phase, connection };
        OnIncoming {
            running: Ok(engine.running()),
            consumed,
            written: self.written,
            answer,
            engine,
        }
    }
}

impl ConnectionEngine {
    fn not_taken(self, refusal: Refusal) -> OnIncoming
        ensures { (result.running ≡ Err refusal) × (result.engine ≡ self) × (result.consumed ≡ 0) × (result.written ≡ 0) × (result.answer ≡ Err refusal) }
    {
        OnIncoming {
            running: Err(refusal),
            consumed: 0,
            written: 0,
            answer: Err(refusal),
            engine: self,
        }
    }

    // Whether a frame is a Close that left this state behind, so that it is answered.
    fn is_answered(self, s: &[u8], state: ConnectionState) -> bool
        ensures { (t id : List ℕ) → result ≡ answers_close (View.view_of (connection_in (whole self t id))).reading_limit (View.settings_of (connection_in (whole self t id))).channel_max s.now (state_says state) }
    {
        let connection = self.connection;
        match state {
            ConnectionState::CloseReceived => {
                is_close(s, connection.reading_limit(), connection.channel_max())
            }
            _ => false,
        }
    }

    // Where a frame leads that was read and answered so, and left the connection so.
    fn lands(
        self,
        tables: &mut [u8],
        s: &[u8],
        answer: Result<FrameAnswer, Refusal>,
        after: Connection,
        waiting: &[u8],
        count: usize,
        out: &mut [u8],
    ) -> Landed
        ensures { (t id : List ℕ) → Took (whole self t id) s.now (answer_says answer) (View.whole after tables.old id) count waiting.now out.old out.new (landed_in result tables.new id) }
    {
        let phase = self.phase;
        if let Phase::Awaiting(kept) = phase {
            return Landed {
                phase: phase_awaited(kept, after, answer),
                written: 0,
                connection: after,
            };
        }
        let state = after.state();
        if self.is_answered(s, state) {
            return answer_close(after, tables, answer, waiting, count, out);
        }
        read_to(after, answer, state, 0, out)
    }

    // Takes the frame that the bytes start with. A session that the peer begins gets the spare handle. The session frames that wait are sent
    // if the frame is a Close that is to be answered.
    pub fn on_incoming(
        self,
        tables: &mut [u8],
        s: &[u8],
        spare: u32,
        waiting: &[u8],
        out: &mut [u8],
    ) -> OnIncoming
        ensures { ((id : List ℕ) → DoesIn (incoming s.now spare waiting.now out.old) (whole self tables.old id) (reply_says result.running result.consumed result.written (Some (answer_says result.answer))) out.new (whole result.engine tables.new id)) × Bare result.running result.consumed result.written (λ e. result.answer ≡ Err e) }
    {
        if lacks_room(out.len(), waiting.len()) {
            return self.not_taken(Refusal::NoRoom);
        }
        let connection = self.connection;
        if !connection.is_covered(tables) {
            return self.not_taken(UNCOVERED);
        }
        if self.is_stopped() {
            return self.not_taken(Refusal::IllegalState);
        }
        if lacks_bytes(s, connection.reading_limit()) {
            return self.not_taken(Refusal::BytesMissing);
        }
        let count = match frame_decoder::session_frames(waiting, connection.channel_max()) {
            Err(refusal) => return self.not_taken(refusal),
            Ok(count) => count,
        };
        let received = connection.receive_frame(tables, s, spare);
        let answer = received.answer;
        let after = received.connection;
        let landed = self.lands(tables, s, answer, after, waiting, count, out);
        landed.taken(answer, consumed_by(answer, frame_size(s)))
    }
}
