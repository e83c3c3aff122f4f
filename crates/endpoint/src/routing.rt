// A session's frame that came, and the session that it goes to.
ghost use Rattle.std.specs.Prelude.{◌≡◌, ◌-◌, ◌<◌, leb, Err};
ghost use Rattle.octets.specs.Verdict.{require};
ghost use Rattle.performatives.specs.Answers.{performative_says, channel_says};
ghost use Rattle.connection_state.specs.States.{Opened};
ghost use Rattle.connection_state.specs.Answers.{state_says};
ghost use Rattle.connection_model.specs.Connection.{forwarded, session_read, begun, new_session, untie, pass_on};
ghost use Rattle.endpoint.specs.Answers.{places_of, role_of, settings_of, hand_out_of, ties_of, view_as, frame_of, came_says, answer_says};
ghost use Rattle.endpoint.specs.Promises.{Steps};

use crate::{Endpoint, FrameAnswer, Incoming, Role, Routed};
use channels::ties;
use connection_state::ConnectionState;
use octets::Refusal;
use performatives::Performative;

// A body that goes on to a session.
fn forward(frame: Incoming, code: u8, handle: u32) -> FrameAnswer
    ensures { came_says result ≡ forwarded (frame_of frame) code handle }
{
    FrameAnswer::Forward {
        consumed: frame.size,
        code,
        handle,
        from: frame.from,
        len: body_len(frame),
    }
}

fn body_len(frame: Incoming) -> usize
    ensures { result ≡ frame.size - frame.from }
{
    if frame.size < frame.from {
        return 0;
    }
    frame.size - frame.from
}

impl Endpoint {
    fn refused(self, refusal: Refusal) -> Routed
        ensures { (result.answer ≡ Err refusal) × (result.endpoint ≡ self) }
    {
        Routed {
            answer: Err(refusal),
            endpoint: self,
        }
    }

    // A session's frame that came: its body goes on to the handle that its channel is tied to. A channel above the channel-max that the peer was told is `ChannelTooHigh`.
    pub fn receive(
        self,
        tables: &mut [u8],
        state: ConnectionState,
        frame: Incoming,
        performative: Performative,
        spare: u32,
    ) -> Routed
        ensures { Steps (λ w. require 7 (leb frame.channel (settings_of w).channel_max) (λ _. session_read (role_of w) (view_as (state_says state) w) (frame_of frame) spare (performative_says performative).0 (performative_says performative).1)) self tables.old (answer_says result.answer) result.endpoint tables.new }
    {
        if self.channel_max() < frame.channel {
            return self.refused(Refusal::ChannelTooHigh);
        }
        if !state.takes_session_frames() {
            return self.refused(Refusal::IllegalState);
        }
        match performative {
            Performative::Open {
                max_frame_size: _,
                channel_max: _,
                idle_time_out: _,
            } => self.pass_on(tables, frame, 16),
            Performative::Begin(remote) => self.on_incoming_begin(tables, frame, remote, spare),
            Performative::Attach => self.pass_on(tables, frame, 18),
            Performative::Flow => self.pass_on(tables, frame, 19),
            Performative::Transfer => self.pass_on(tables, frame, 20),
            Performative::Disposition => self.pass_on(tables, frame, 21),
            Performative::Detach(_) => self.pass_on(tables, frame, 22),
            Performative::End(_) => self.on_incoming_end(tables, frame),
            Performative::Close(_) => self.pass_on(tables, frame, 24),
        }
    }

    // A Begin that answers one of ours ties its channel to the session that it names. One that names none begins a session.
    fn on_incoming_begin(
        self,
        tables: &mut [u8],
        frame: Incoming,
        remote: Option<u16>,
        spare: u32,
    ) -> Routed
        requires { frame.channel < places_of self }
        ensures { Steps (λ w. begun (role_of w) (view_as Opened w) (frame_of frame) spare (channel_says remote)) self tables.old (answer_says result.answer) result.endpoint tables.new }
    {
        let Some(r) = remote else {
            return self.on_new_session(tables, frame, spare);
        };
        let Some(handle) = self.handle_at(tables, r) else {
            return self.refused(Refusal::NotFound);
        };
        ties::tie(tables, self.channel_max(), frame.channel, r, handle);
        Routed {
            answer: Ok(forward(frame, 17, handle)),
            endpoint: self,
        }
    }

    // A listener gives the session that its peer began a channel and the spare handle.
    fn on_new_session(mut self, tables: &mut [u8], frame: Incoming, spare: u32) -> Routed
        requires { frame.channel < places_of self }
        ensures { Steps (λ w. new_session (role_of w) (frame_of frame) spare (hand_out_of w)) self tables.old (answer_says result.answer) result.endpoint tables.new }
    {
        let own_role = self.role;
        let Role::Listener = own_role else {
            return self.refused(Refusal::NotImplemented);
        };
        let outgoing = self.outgoing;
        let a = outgoing.allocate(tables, spare);
        let answer = a.answer;
        let Ok(channel) = answer else {
            return self.refused(Refusal::NotImplemented);
        };
        let channels = a.channels;
        self.outgoing = channels;
        ties::tie(tables, self.channel_max(), frame.channel, channel, spare);
        Routed {
            answer: Ok(FrameAnswer::Began {
                consumed: frame.size,
                channel,
                handle: spare,
                from: frame.from,
                len: body_len(frame),
            }),
            endpoint: self,
        }
    }

    // An End unties its channel.
    fn on_incoming_end(self, tables: &mut [u8], frame: Incoming) -> Routed
        requires { frame.channel < places_of self }
        ensures { Steps (λ w. untie (frame_of frame) (ties_of w frame.channel)) self tables.old (answer_says result.answer) result.endpoint tables.new }
    {
        let Some(handle) = self.tied_handle(tables, frame.channel) else {
            return self.refused(Refusal::NotFound);
        };
        ties::untie(tables, self.channel_max(), frame.channel);
        Routed {
            answer: Ok(forward(frame, 23, handle)),
            endpoint: self,
        }
    }

    fn pass_on(self, tables: &[u8], frame: Incoming, code: u8) -> Routed
        ensures { Steps (λ w. pass_on (frame_of frame) code (ties_of w frame.channel)) self tables.now (answer_says result.answer) result.endpoint tables.now }
    {
        let Some(handle) = self.tied_handle(tables, frame.channel) else {
            return self.refused(Refusal::NotFound);
        };
        Routed {
            answer: Ok(forward(frame, code, handle)),
            endpoint: self,
        }
    }
}
