// The calls that read: the peer's header, and a frame.
ghost use Rattle.std.specs.Prelude.{◌≡◌, List, [], ℕ, ◌<◌, Err};
ghost use Rattle.octets.specs.Verdict.{and_then};
ghost use Rattle.protocol_header.specs.Header.{amqp100};
ghost use Rattle.performatives.specs.Answers.{performative_says};
ghost use Rattle.connection_state.specs.States.{along, receive_other_header};
ghost use Rattle.connection_model.specs.Connection.{
  headed,
  open_read,
  close_read,
  session_read,
  says,
  other_protocol,
  go,
  receive_header_from,
  receive_frame,
};
ghost use Rattle.endpoint.specs.Answers.{places_of, frame_of, came_says, answer_says};
ghost use Rattle.connection.specs.View.{whole, role_of, settings_of, view_of, header_says};
ghost use Rattle.connection.specs.Promises.{Does, DoesIn, ReadsIn, ReadsBy, bare_says, said_read};

use crate::{Connection, HeaderAnswer, ReceivedFrame, ReceivedHeader, UNCOVERED};
use endpoint::{FrameAnswer, Incoming};
use frame_decoder::Frame;
use octets::Refusal;
use performatives::Performative;
use protocol_header::HeaderRead;

// What comes of a frame that has no performative: there is nothing to do.
fn bodiless(frame: Frame) -> FrameAnswer
    ensures { came_says result ≡ bare_says frame }
{
    match frame {
        Frame::Empty {
            channel: _,
            size,
            from: _,
        } => FrameAnswer::NothingToDo { consumed: size },
        Frame::Body {
            channel: _,
            size,
            from: _,
            performative: _,
            end: _,
        } => FrameAnswer::NothingToDo { consumed: size },
    }
}

impl Connection {
    fn not_received(self, refusal: Refusal) -> ReceivedFrame
        ensures { (result.answer ≡ Err refusal) × (result.connection ≡ self) }
    {
        ReceivedFrame {
            answer: Err(refusal),
            connection: self,
        }
    }

    fn no_header(self, refusal: Refusal) -> ReceivedHeader
        ensures { (result.answer ≡ Err refusal) × (result.connection ≡ self) }
    {
        ReceivedHeader {
            answer: Err(refusal),
            connection: self,
        }
    }

    // Takes the peer's protocol header.
    pub fn receive_header(self, s: &[u8]) -> ReceivedHeader
        ensures { (t id : List ℕ) → Does (receive_header_from s.now) (whole self t id) (header_says result.answer) [] (whole result.connection t id) }
    {
        let header = match protocol_header::read(s) {
            Err(refusal) => return self.no_header(refusal),
            Ok(header) => header,
        };
        match header {
            HeaderRead::Amqp => self.on_amqp_header(),
            HeaderRead::Other(_) => self.on_other_header(),
        }
    }

    fn on_amqp_header(self) -> ReceivedHeader
        ensures { ReadsBy (λ w. headed (view_of w) amqp100) self (header_says result.answer) result.connection }
    {
        let state = self.local_state;
        let Some(next) = state.receive_header() else {
            return self.no_header(Refusal::IllegalState);
        };
        ReceivedHeader {
            answer: Ok(HeaderAnswer::Amqp(8)),
            connection: self.moved_to(next),
        }
    }

    fn on_other_header(self) -> ReceivedHeader
        ensures { ReadsBy (λ w. and_then (along receive_other_header (view_of w).state) (λ x. says (other_protocol 8) (go x))) self (header_says result.answer) result.connection }
    {
        let state = self.local_state;
        let Some(next) = state.receive_other_header() else {
            return self.no_header(Refusal::IllegalState);
        };
        ReceivedHeader {
            answer: Ok(HeaderAnswer::OtherProtocol(8)),
            connection: self.moved_to(next),
        }
    }

    // Takes the frame that the bytes start with. A session that the peer begins gets the spare handle. Tables that are too short are `OutOfBounds`.
    pub fn receive_frame(self, tables: &mut [u8], s: &[u8], spare: u32) -> ReceivedFrame
        ensures { (id : List ℕ) → DoesIn (receive_frame s.now spare) (whole self tables.old id) (answer_says result.answer) [] (whole result.connection tables.new id) }
    {
        let endpoint = self.endpoint;
        if !endpoint.is_covered(tables) {
            return self.not_received(UNCOVERED);
        }
        let highest = endpoint.channel_max();
        let read = frame_decoder::read(s, endpoint.reading_limit(), highest);
        let frame = match read {
            Err(refusal) => return self.not_received(refusal),
            Ok(frame) => frame,
        };
        let Frame::Body {
            channel,
            size,
            from,
            performative,
            end: _,
        } = frame
        else {
            return ReceivedFrame {
                answer: Ok(bodiless(frame)),
                connection: self,
            };
        };
        let incoming = Incoming {
            channel,
            size,
            from,
        };
        self.on_incoming(tables, incoming, performative, spare)
    }

    // A Close is taken while discarding, and nothing else is.
    fn on_incoming(
        self,
        tables: &mut [u8],
        frame: Incoming,
        performative: Performative,
        spare: u32,
    ) -> ReceivedFrame
        requires { frame.channel < places_of self.endpoint }
        ensures { ReadsIn (λ w. said_read (role_of w) (settings_of w) (view_of w) (frame_of frame) spare (performative_says performative).0 (performative_says performative).1) self tables.old (answer_says result.answer) result.connection tables.new }
    {
        if let Performative::Close(error) = performative {
            return self.on_incoming_close(frame, error.is_some());
        }
        let state = self.local_state;
        if state.is_discarding() {
            return ReceivedFrame {
                answer: Ok(FrameAnswer::NothingToDo {
                    consumed: frame.size,
                }),
                connection: self,
            };
        }
        if let Performative::Open {
            max_frame_size,
            channel_max,
            idle_time_out,
        } = performative
        {
            return self.on_incoming_open(frame, max_frame_size, channel_max, idle_time_out);
        }
        self.on_incoming_session(tables, frame, performative, spare)
    }

    fn on_incoming_open(
        self,
        frame: Incoming,
        max_frame_size: u32,
        channel_max: u16,
        idle_time_out: u32,
    ) -> ReceivedFrame
        ensures { ReadsBy (λ w. open_read (settings_of w) (view_of w) (frame_of frame) max_frame_size channel_max idle_time_out) self (answer_says result.answer) result.connection }
    {
        let state = self.local_state;
        let Some(next) = state.receive_open() else {
            return self.not_received(Refusal::IllegalState);
        };
        let endpoint = self.endpoint;
        let opened = FrameAnswer::Opened {
            consumed: frame.size,
            idle_time_out,
        };
        ReceivedFrame {
            answer: Ok(opened),
            connection: Connection {
                local_state: next,
                endpoint: endpoint.open(max_frame_size, channel_max),
            },
        }
    }

    fn on_incoming_close(self, frame: Incoming, with_error: bool) -> ReceivedFrame
        ensures { ReadsBy (λ w. close_read (view_of w) (frame_of frame) with_error) self (answer_says result.answer) result.connection }
    {
        let state = self.local_state;
        let Some(next) = state.receive_close() else {
            return self.not_received(Refusal::IllegalState);
        };
        let closed = FrameAnswer::Closed {
            consumed: frame.size,
            with_error,
        };
        ReceivedFrame {
            answer: Ok(closed),
            connection: self.moved_to(next),
        }
    }

    fn on_incoming_session(
        self,
        tables: &mut [u8],
        frame: Incoming,
        performative: Performative,
        spare: u32,
    ) -> ReceivedFrame
        requires { frame.channel < places_of self.endpoint }
        ensures { ReadsIn (λ w. session_read (role_of w) (view_of w) (frame_of frame) spare (performative_says performative).0 (performative_says performative).1) self tables.old (answer_says result.answer) result.connection tables.new }
    {
        let state = self.local_state;
        let endpoint = self.endpoint;
        let routed = endpoint.receive(tables, state, frame, performative, spare);
        let answer = routed.answer;
        let after = routed.endpoint;
        ReceivedFrame {
            answer,
            connection: Connection {
                local_state: state,
                endpoint: after,
            },
        }
    }
}
