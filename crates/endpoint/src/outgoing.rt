// A session's frame that goes out.
ghost use Rattle.std.specs.Prelude.{◌≡◌, cond, List, [], ℕ, eqb, Err};
ghost use Rattle.performatives.specs.Answers.{performative_says};
ghost use Rattle.session_frame.specs.Session.{write_session};
ghost use Rattle.connection_state.specs.Answers.{state_says};
ghost use Rattle.connection_model.specs.Connection.{decide, send_session_frame};
ghost use Rattle.endpoint.specs.Answers.{whole, role_of, settings_of, view_as, sent_says, tie_says};
ghost use Rattle.endpoint.specs.Promises.{Sends};
ghost use Rattle.endpoint.specs.Outgoing.{Low, AsksTie, Ties, writes_with};

use crate::{Endpoint, OutgoingTie, Role, SessionSent};
use channels::ties;
use connection_state::ConnectionState;
use frame_decoder::Frame;
use octets::Refusal;
use performatives::Performative;

impl Endpoint {
    fn not_sent(self, refusal: Refusal) -> SessionSent
        ensures { (result.answer ≡ Err refusal) × (result.endpoint ≡ self) }
    {
        SessionSent {
            answer: Err(refusal),
            endpoint: self,
        }
    }

    // A session's frame, lent whole, goes out on its channel.
    pub fn send(
        self,
        tables: &mut [u8],
        state: ConnectionState,
        frame: &[u8],
        out: &mut [u8],
    ) -> SessionSent
        ensures { Sends (λ w. decide (role_of w) (settings_of w) (view_as (state_says state) w) (send_session_frame frame.now out.old)) self tables.old (sent_says result.answer) result.endpoint tables.new out.old out.new }
    {
        if out.len() < 16384 {
            return self.not_sent(Refusal::NoRoom);
        }
        let highest = self.channel_max();
        let read = match frame_decoder::session_frame(frame, highest) {
            Err(refusal) => return self.not_sent(refusal),
            Ok(read) => read,
        };
        let Frame::Body {
            channel,
            size: _,
            from: _,
            performative,
            end: _,
        } = read
        else {
            return self.not_sent(Refusal::BodyMalformed);
        };
        if !state.sends_session_frames() {
            return self.not_sent(Refusal::IllegalState);
        }
        match self.outgoing_tie(tables, channel, performative) {
            Err(refusal) => self.not_sent(refusal),
            Ok(tie) => self.write_tied(tables, tie, highest, frame, out),
        }
    }

    // A listener's Begin that names a remote-channel ties it through the sender's channel to the handle there.
    fn outgoing_tie(
        self,
        tables: &[u8],
        channel: u16,
        performative: Performative,
    ) -> Result<Option<OutgoingTie>, Refusal>
        ensures { (id : List ℕ) → AsksTie (whole self tables.now id) channel (cond (eqb (performative_says performative).0 17) (performative_says performative).1 []) result }
    {
        let role = self.role;
        if let Role::Dialler = role {
            return Ok(None);
        }
        let Performative::Begin(remote) = performative else {
            return Ok(None);
        };
        let Some(r) = remote else {
            return Ok(None);
        };
        let Some(handle) = self.handle_at(tables, channel) else {
            return Err(Refusal::NotFound);
        };
        Ok(Some(OutgoingTie {
            incoming: r,
            outgoing: channel,
            handle,
        }))
    }

    // Writes the frame, and ties once it is written.
    fn write_tied(
        self,
        tables: &mut [u8],
        tie: Option<OutgoingTie>,
        highest: u16,
        frame: &[u8],
        out: &mut [u8],
    ) -> SessionSent
        requires { Low self tables.old tie }
        ensures { Sends (λ w. writes_with (tie_says tie) (write_session highest frame.now self.writing_limit out.old)) self tables.old (sent_says result.answer) result.endpoint tables.new out.old out.new }
    {
        let answer = session_frame::write(frame, highest, self.writing_limit, out);
        let Ok(n) = answer else {
            return SessionSent {
                answer,
                endpoint: self,
            };
        };
        self.make_tie(tables, tie);
        SessionSent {
            answer: Ok(n),
            endpoint: self,
        }
    }

    // Makes the tie in the tables.
    fn make_tie(self, tables: &mut [u8], tie: Option<OutgoingTie>)
        requires { Low self tables.old tie }
        ensures { (id : List ℕ) → Ties (whole self tables.old id) tie (whole self tables.new id) }
    {
        let Some(tie) = tie else {
            return;
        };
        ties::tie(
            tables,
            self.channel_max(),
            tie.incoming,
            tie.outgoing,
            tie.handle,
        );
    }
}
