// Session frames that go out.
ghost use Rattle.std.specs.Prelude.{◌≡◌, List, ℕ, ◌≤◌, length, Err};
ghost use Rattle.frame_decoder.specs.Frame.{size_of};
ghost use Rattle.connection.specs.View as View;
ghost use Rattle.engine.specs.Sending.{Drains, GoesOut, outgoing_from, trailed_in};
ghost use Rattle.endpoint.specs.Answers.{sent_says};
ghost use Rattle.engine_model.specs.Engine.{outgoing};
ghost use Rattle.engine.specs.Answers.{whole, reply_says, Bare};
ghost use Rattle.engine.specs.Promises.{DoesIn};

use crate::error::{is_of_input, on_error, outgoing_error};
use crate::room::{OUTPUT_ROOM, UNCOVERED, advanced};
use crate::settling::settle;
use crate::{ConnectionEngine, Landed, OnOutgoing, Trailed};
use connection::{Connection, Sent};
use octets::Refusal;

// How many bytes the frame has that the bytes start with.
pub(crate) fn frame_size(s: &[u8]) -> usize
    ensures { result ≡ size_of s.now }
{
    if s.len() < 4 {
        return octets::number(s) as usize;
    }
    octets::number(&s[..4]) as usize
}

// Sends the session frames that stand one after the other in the slice, up to the first that is refused.
pub(crate) fn send_waiting(
    connection: Connection,
    tables: &mut [u8],
    waiting: &[u8],
    count: usize,
    out: &mut [u8],
) -> Trailed
    ensures { (id : List ℕ) → Drains (View.whole connection tables.old id) count waiting.now out.old out.new (trailed_in result tables.new id) }
{
    let mut sender = connection;
    let mut at: usize = 0;
    let mut written: usize = 0;
    let mut last: usize = 0;
    for _sent in 0..count {
        let size = frame_size(&waiting[at..]);
        let sent = sender.send_session_frame(tables, &waiting[at..], &mut out[written..]);
        let answer = sent.answer;
        let reached = sent.connection;
        let Ok(n) = answer else {
            return Trailed {
                answer,
                written,
                connection: reached,
            };
        };
        sender = reached;
        at = advanced(at, size, waiting.len());
        written = advanced(written, n, out.len());
        last = n;
    }
    Trailed {
        answer: Ok(last),
        written,
        connection: sender,
    }
}

// What was to go out was refused, and the error path led here.
fn landed_out(landed: Landed, refusal: Refusal) -> OnOutgoing
    ensures { result ≡ outgoing_from landed refusal }
{
    let phase = landed.phase;
    let connection = landed.connection;
    let engine = ConnectionEngine { phase, connection };
    OnOutgoing {
        running: Ok(engine.running()),
        written: landed.written,
        answer: Err(refusal),
        engine,
    }
}

// The last of what goes out was sent, behind so many bytes: the engine goes on, or what was refused is an error.
pub(crate) fn gone_out(sent: Sent, written: usize, out: &mut [u8]) -> OnOutgoing
    requires { written ≤ length out.old }
    ensures { (t id : List ℕ) → GoesOut sent.answer (View.whole sent.connection t id) written out.old out.new result (whole result.engine t id) }
{
    let answer = sent.answer;
    let connection = sent.connection;
    match answer {
        Ok(n) => {
            let engine = settle(connection);
            OnOutgoing {
                running: Ok(engine.running()),
                written: advanced(written, n, out.len()),
                answer,
                engine,
            }
        }
        Err(refusal) => {
            let landed = on_error(connection, outgoing_error(refusal), written, out);
            landed_out(landed, refusal)
        }
    }
}

impl ConnectionEngine {
    pub(crate) fn not_outgoing(self, refusal: Refusal) -> OnOutgoing
        ensures { (result.running ≡ Err refusal) × (result.engine ≡ self) × (result.written ≡ 0) × (result.answer ≡ Err refusal) }
    {
        OnOutgoing {
            running: Err(refusal),
            written: 0,
            answer: Err(refusal),
            engine: self,
        }
    }

    // Sends a session's frame, lent whole. A refusal that judges more than the input takes the error path.
    pub fn on_outgoing_session_frame(
        self,
        tables: &mut [u8],
        frame: &[u8],
        out: &mut [u8],
    ) -> OnOutgoing
        ensures { ((id : List ℕ) → DoesIn (outgoing frame.now out.old) (whole self tables.old id) (reply_says result.running 0 result.written (Some (sent_says result.answer))) out.new (whole result.engine tables.new id)) × Bare result.running 0 result.written (λ e. result.answer ≡ Err e) }
    {
        if out.len() < OUTPUT_ROOM {
            return self.not_outgoing(Refusal::NoRoom);
        }
        let connection = self.connection;
        if !connection.is_covered(tables) {
            return self.not_outgoing(UNCOVERED);
        }
        if self.is_ending() {
            return self.not_outgoing(Refusal::IllegalState);
        }
        let sent = connection.send_session_frame(tables, frame, out);
        let answer = sent.answer;
        let after = sent.connection;
        match answer {
            Ok(n) => {
                let engine = settle(after);
                OnOutgoing {
                    running: Ok(engine.running()),
                    written: n,
                    answer,
                    engine,
                }
            }
            Err(refusal) => {
                if is_of_input(refusal) {
                    return self.not_outgoing(refusal);
                }
                let landed = on_error(after, outgoing_error(refusal), 0, out);
                landed_out(landed, refusal)
            }
        }
    }
}
