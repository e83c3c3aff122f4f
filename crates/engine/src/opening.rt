// The calls that open the connection: headers and the Open.
ghost use Rattle.std.specs.Prelude.{◌≡◌, List, [], ℕ, Err};
ghost use Rattle.connection.specs.View.{header_says};
ghost use Rattle.endpoint.specs.Answers.{sent_says};
ghost use Rattle.engine_model.specs.Engine.{send_header, receive_header, send_open};
ghost use Rattle.engine.specs.Answers.{whole, opening_says, sent_count};
ghost use Rattle.engine.specs.Promises.{Does};

use crate::room::OUTPUT_ROOM;
use crate::{ConnectionEngine, OpeningReceived, OpeningSent};
use octets::Refusal;

impl ConnectionEngine {
    fn not_opening(self, refusal: Refusal) -> OpeningSent
        ensures { (result.answer ≡ Err refusal) × (result.engine ≡ self) }
    {
        OpeningSent {
            answer: Err(refusal),
            engine: self,
        }
    }

    // Writes the protocol header.
    pub fn send_header(self, out: &mut [u8]) -> OpeningSent
        ensures { (t id : List ℕ) → Does (send_header out.old) (whole self t id) (opening_says 0 (sent_count result.answer) (sent_says result.answer)) out.new (whole result.engine t id) }
    {
        if out.len() < OUTPUT_ROOM {
            return self.not_opening(Refusal::NoRoom);
        }
        if self.is_ending() {
            return self.not_opening(Refusal::IllegalState);
        }
        let phase = self.phase;
        let connection = self.connection;
        let sent = connection.send_header(out);
        let answer = sent.answer;
        let after = sent.connection;
        OpeningSent {
            answer,
            engine: ConnectionEngine {
                phase,
                connection: after,
            },
        }
    }

    // Writes the Open, with the container-id that is lent: the one of its settings, or else it may be refused as `OutOfBounds`.
    pub fn send_open(self, container_id: &[u8], out: &mut [u8]) -> OpeningSent
        ensures { (t : List ℕ) → Does (send_open out.old) (whole self t container_id.now) (opening_says 0 (sent_count result.answer) (sent_says result.answer)) out.new (whole result.engine t container_id.now) }
    {
        if out.len() < OUTPUT_ROOM {
            return self.not_opening(Refusal::NoRoom);
        }
        if self.is_ending() {
            return self.not_opening(Refusal::IllegalState);
        }
        let phase = self.phase;
        let connection = self.connection;
        let sent = connection.send_open(container_id, out);
        let answer = sent.answer;
        let after = sent.connection;
        OpeningSent {
            answer,
            engine: ConnectionEngine {
                phase,
                connection: after,
            },
        }
    }

    // Takes the peer's protocol header.
    pub fn receive_header(self, s: &[u8]) -> OpeningReceived
        ensures { (t id : List ℕ) → Does (receive_header s.now) (whole self t id) (opening_says 8 0 (header_says result.answer)) [] (whole result.engine t id) }
    {
        if self.is_ending() {
            return OpeningReceived {
                answer: Err(Refusal::IllegalState),
                engine: self,
            };
        }
        let phase = self.phase;
        let connection = self.connection;
        let received = connection.receive_header(s);
        let answer = received.answer;
        let after = received.connection;
        OpeningReceived {
            answer,
            engine: ConnectionEngine {
                phase,
                connection: after,
            },
        }
    }
}
