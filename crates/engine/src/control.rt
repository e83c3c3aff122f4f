// The orders of the application: a channel for a session, a channel given back, a Close.
ghost use Rattle.std.specs.Prelude.{◌≡◌, List, [], ℕ, Err};
ghost use Rattle.octets.specs.Refusal.{judged};
ghost use Rattle.connection.specs.View as View;
ghost use Rattle.connection.specs.View.{freed_says};
ghost use Rattle.engine_model.specs.Engine.{close_order};
ghost use Rattle.frame_encoder.specs.Answers.{error_text};
ghost use Rattle.frame_encoder.specs.Frames.{close_ok};
ghost use Rattle.connection_model.specs.Connection.{send_close_to};
ghost use Rattle.connection.specs.Promises as C;
ghost use Rattle.engine.specs.Sending.{ordered, error_if};
ghost use Rattle.endpoint.specs.Answers.{sent_says, allocate_says};
ghost use Rattle.engine_model.specs.Engine as M;
ghost use Rattle.engine.specs.Answers.{whole, reply_says, Bare};
ghost use Rattle.engine.specs.Promises.{DoesIn};

use crate::room::{UNCOVERED, lacks_room};
use crate::sending::{gone_out, send_waiting};
use crate::settling::settle;
use crate::{ConnectionEngine, OnAllocate, OnDeallocate, OnOutgoing};
use connection::{Connection, Sent};
use frame_encoder::ErrorText;
use octets::Refusal;

// Whether the error of a Close is one that can be sent; no error is.
fn error_fine(error: Option<&ErrorText<'_>>) -> bool
    ensures { result ≡ close_ok (error_if error.entry) }
{
    match error {
        Some(text) => frame_encoder::error_ok(text),
        None => true,
    }
}

// Sends a Close, with an error or with none.
fn send_last(connection: Connection, error: Option<&ErrorText<'_>>, out: &mut [u8]) -> Sent
    ensures { (t id : List ℕ) → C.Does (send_close_to (error_if error.entry) out.old) (View.whole connection t id) (sent_says result.answer) out.new (View.whole result.connection t id) }
{
    match error {
        Some(text) => connection.send_close_with_error(text, out),
        None => connection.send_close(out),
    }
}

impl ConnectionEngine {
    // Takes the next free channel for a session.
    pub fn on_allocate(self, tables: &mut [u8], handle: u32) -> OnAllocate
        ensures { ((id : List ℕ) → DoesIn (M.allocate handle) (whole self tables.old id) (reply_says result.running 0 0 (Some (allocate_says result.answer))) [] (whole result.engine tables.new id)) × Bare result.running 0 0 (λ e. result.answer ≡ Err e) }
    {
        let connection = self.connection;
        if !connection.is_covered(tables) {
            return self.not_allocated(UNCOVERED);
        }
        if self.is_ending() {
            return self.not_allocated(Refusal::IllegalState);
        }
        let allocated = connection.allocate_session(tables, handle);
        let answer = allocated.answer;
        if let Err(refusal) = answer {
            return self.not_allocated(refusal);
        }
        let engine = settle(allocated.connection);
        OnAllocate {
            running: Ok(engine.running()),
            answer,
            engine,
        }
    }

    fn not_allocated(self, refusal: Refusal) -> OnAllocate
        ensures { (result.running ≡ Err refusal) × (result.answer ≡ Err refusal) × (result.engine ≡ self) }
    {
        OnAllocate {
            running: Err(refusal),
            answer: Err(refusal),
            engine: self,
        }
    }

    // Gives a session's channel back.
    pub fn on_deallocate(self, tables: &mut [u8], channel: u16) -> OnDeallocate
        ensures { ((id : List ℕ) → DoesIn (M.deallocate channel) (whole self tables.old id) (reply_says result.running 0 0 (Some (freed_says result.answer))) [] (whole result.engine tables.new id)) × Bare result.running 0 0 (λ e. result.answer ≡ Err e) }
    {
        let connection = self.connection;
        if !connection.is_covered(tables) {
            return self.not_deallocated(UNCOVERED);
        }
        if self.is_ending() {
            return self.not_deallocated(Refusal::IllegalState);
        }
        let freed = connection.deallocate_session(tables, channel);
        let answer = freed.answer;
        if let Err(refusal) = answer {
            return self.not_deallocated(refusal);
        }
        let engine = settle(freed.connection);
        OnDeallocate {
            running: Ok(engine.running()),
            answer,
            engine,
        }
    }

    fn not_deallocated(self, refusal: Refusal) -> OnDeallocate
        ensures { (result.running ≡ Err refusal) × (result.answer ≡ Err refusal) × (result.engine ≡ self) }
    {
        OnDeallocate {
            running: Err(refusal),
            answer: Err(refusal),
            engine: self,
        }
    }

    // How many session frames go out before the Close, or the refusal of the order. Its error is fine, or not.
    fn frames_to_send(
        self,
        tables: &[u8],
        fine: bool,
        waiting: &[u8],
        output: usize,
    ) -> Result<usize, Refusal>
        ensures { (id : List ℕ) → judged result ≡ ordered (whole self tables.now id) fine waiting.now output }
    {
        if lacks_room(output, waiting.len()) {
            return Err(Refusal::NoRoom);
        }
        if !fine {
            return Err(Refusal::OutOfBounds);
        }
        let connection = self.connection;
        if !connection.is_covered(tables) {
            return Err(UNCOVERED);
        }
        if self.is_ending() {
            return Err(Refusal::IllegalState);
        }
        frame_decoder::session_frames(waiting, connection.channel_max())
    }

    // Sends the session frames that wait, and then a Close, with an error or with none.
    fn close(
        self,
        tables: &mut [u8],
        error: Option<&ErrorText<'_>>,
        waiting: &[u8],
        out: &mut [u8],
    ) -> OnOutgoing
        ensures { ((id : List ℕ) → DoesIn (close_order (error_if error.entry) waiting.now out.old) (whole self tables.old id) (reply_says result.running 0 result.written (Some (sent_says result.answer))) out.new (whole result.engine tables.new id)) × Bare result.running 0 result.written (λ e. result.answer ≡ Err e) }
    {
        let fine = error_fine(error);
        let frames = self.frames_to_send(tables, fine, waiting, out.len());
        match frames {
            Err(refusal) => self.not_outgoing(refusal),
            Ok(count) => {
                let connection = self.connection;
                let waited = send_waiting(connection, tables, waiting, count, out);
                let answer = waited.answer;
                let written = waited.written;
                let connection = waited.connection;
                let Ok(_) = answer else {
                    let sent = Sent { answer, connection };
                    return gone_out(sent, written, out);
                };
                let sent = send_last(connection, error, &mut out[written..]);
                gone_out(sent, written, out)
            }
        }
    }

    // Sends the session frames that wait, and then a Close.
    pub fn on_close(self, tables: &mut [u8], waiting: &[u8], out: &mut [u8]) -> OnOutgoing
        ensures { ((id : List ℕ) → DoesIn (close_order None waiting.now out.old) (whole self tables.old id) (reply_says result.running 0 result.written (Some (sent_says result.answer))) out.new (whole result.engine tables.new id)) × Bare result.running 0 result.written (λ e. result.answer ≡ Err e) }
    {
        self.close(tables, None, waiting, out)
    }

    // Sends the session frames that wait, and then a Close with an error.
    pub fn on_close_with_error(
        self,
        tables: &mut [u8],
        error: &ErrorText<'_>,
        waiting: &[u8],
        out: &mut [u8],
    ) -> OnOutgoing
        ensures { ((id : List ℕ) → DoesIn (close_order (Some (error_text error.now)) waiting.now out.old) (whole self tables.old id) (reply_says result.running 0 result.written (Some (sent_says result.answer))) out.new (whole result.engine tables.new id)) × Bare result.running 0 result.written (λ e. result.answer ≡ Err e) }
    {
        self.close(tables, Some(error), waiting, out)
    }
}
