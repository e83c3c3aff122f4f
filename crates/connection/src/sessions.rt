// The calls about sessions: a channel taken, a channel given back, a session's frame that goes out. Tables that are too short are `OutOfBounds`.
ghost use Rattle.std.specs.Prelude.{◌≡◌, List, [], ℕ, Err};
ghost use Rattle.connection_model.specs.Connection as M;
ghost use Rattle.connection_model.specs.Connection.{send_session_frame};
ghost use Rattle.endpoint.specs.Answers.{sent_says, allocate_says, deallocate_says};
ghost use Rattle.connection.specs.View.{whole, freed_says};
ghost use Rattle.connection.specs.Promises.{DoesIn};

use crate::{AllocatedSession, Connection, DeallocatedSession, OUTPUT_ROOM, Sent, UNCOVERED};
use octets::Refusal;

fn deallocated(answer: Option<u32>) -> Result<u32, Refusal>
    ensures { freed_says result ≡ deallocate_says answer }
{
    match answer {
        Some(handle) => Ok(handle),
        None => Err(Refusal::NotTaken),
    }
}

impl Connection {
    fn not_allocated(self, refusal: Refusal) -> AllocatedSession
        ensures { (result.answer ≡ Err refusal) × (result.connection ≡ self) }
    {
        AllocatedSession {
            answer: Err(refusal),
            connection: self,
        }
    }

    // Takes the next free channel for a session.
    pub fn allocate_session(self, tables: &mut [u8], handle: u32) -> AllocatedSession
        ensures { (id : List ℕ) → DoesIn (M.allocate handle) (whole self tables.old id) (allocate_says result.answer) [] (whole result.connection tables.new id) }
    {
        let endpoint = self.endpoint;
        if !endpoint.is_covered(tables) {
            return self.not_allocated(UNCOVERED);
        }
        let state = self.local_state;
        if state.is_stopped() {
            return self.not_allocated(Refusal::Stopped);
        }
        let a = endpoint.allocate(tables, handle);
        let answer = a.answer;
        let after = a.endpoint;
        AllocatedSession {
            answer,
            connection: Connection {
                local_state: state,
                endpoint: after,
            },
        }
    }

    // Gives a session's channel back, in every state.
    pub fn deallocate_session(self, tables: &mut [u8], channel: u16) -> DeallocatedSession
        ensures { (id : List ℕ) → DoesIn (M.deallocate channel) (whole self tables.old id) (freed_says result.answer) [] (whole result.connection tables.new id) }
    {
        let endpoint = self.endpoint;
        if !endpoint.is_covered(tables) {
            return DeallocatedSession {
                answer: Err(UNCOVERED),
                connection: self,
            };
        }
        let state = self.local_state;
        let d = endpoint.deallocate(tables, channel);
        let answer = d.answer;
        let after = d.endpoint;
        DeallocatedSession {
            answer: deallocated(answer),
            connection: Connection {
                local_state: state,
                endpoint: after,
            },
        }
    }

    // Sends a session's frame, lent whole.
    pub fn send_session_frame(self, tables: &mut [u8], frame: &[u8], out: &mut [u8]) -> Sent
        ensures { (id : List ℕ) → DoesIn (send_session_frame frame.now out.old) (whole self tables.old id) (sent_says result.answer) out.new (whole result.connection tables.new id) }
    {
        if out.len() < OUTPUT_ROOM {
            return self.not_sent(Refusal::NoRoom);
        }
        let endpoint = self.endpoint;
        if !endpoint.is_covered(tables) {
            return self.not_sent(UNCOVERED);
        }
        let state = self.local_state;
        let sent = endpoint.send(tables, state, frame, out);
        let answer = sent.answer;
        let after = sent.endpoint;
        Sent {
            answer,
            connection: Connection {
                local_state: state,
                endpoint: after,
            },
        }
    }
}
