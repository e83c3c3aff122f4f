// The heartbeat.
ghost use Rattle.std.specs.Prelude.{◌≡◌, List, ℕ, Err};
ghost use Rattle.connection.specs.View.{tick_says};
ghost use Rattle.engine_model.specs.Engine as M;
ghost use Rattle.engine.specs.Answers.{whole, reply_says, Bare, tick_count};
ghost use Rattle.engine.specs.Promises.{Does};

use crate::room::OUTPUT_ROOM;
use crate::settling::settle;
use crate::{ConnectionEngine, OnHeartbeat};
use octets::Refusal;

impl ConnectionEngine {
    // Writes the empty frame that keeps an idle connection alive.
    pub fn on_heartbeat(self, out: &mut [u8]) -> OnHeartbeat
        ensures { ((t id : List ℕ) → Does (M.tick out.old) (whole self t id) (reply_says result.running 0 (tick_count result.answer) (Some (tick_says result.answer))) out.new (whole result.engine t id)) × Bare result.running 0 0 (λ e. result.answer ≡ Err e) }
    {
        if out.len() < OUTPUT_ROOM {
            return self.no_heartbeat(Refusal::NoRoom);
        }
        if self.is_ending() {
            return self.no_heartbeat(Refusal::IllegalState);
        }
        let connection = self.connection;
        let ticked = connection.tick(out);
        let answer = ticked.answer;
        if let Err(refusal) = answer {
            return self.no_heartbeat(refusal);
        }
        let engine = settle(ticked.connection);
        OnHeartbeat {
            running: Ok(engine.running()),
            answer,
            engine,
        }
    }

    fn no_heartbeat(self, refusal: Refusal) -> OnHeartbeat
        ensures { (result.running ≡ Err refusal) × (result.engine ≡ self) × (result.answer ≡ Err refusal) }
    {
        OnHeartbeat {
            running: Err(refusal),
            answer: Err(refusal),
            engine: self,
        }
    }
}
