// The states of a connection and the moves between them (Part 2, section 2.4.6).
#![tactic(auto)]

ghost use Rattle.std.specs.Prelude.{◌≡◌};
ghost use Rattle.connection_state.specs.States.{along, is, is_one_of, numbered, with_number, CloseReceived, Discarding, End};
ghost use Rattle.connection_state.specs.States.{send_header, receive_header, receive_other_header, send_open, read_open, send_close, send_close_with_error, read_close};
ghost use Rattle.connection_state.specs.States.{reading, sending, before_open, after_open, stopped, silent};
ghost use Rattle.connection_state.specs.Answers.{state_says, moved_says, numbered_says};

#[derive(Clone, Copy, Debug, PartialEq, Eq)]
pub enum ConnectionState {
    Start,
    HeaderReceived,
    HeaderSent,
    HeaderExchange,
    OpenPipe,
    OpenClosePipe,
    OpenReceived,
    OpenSent,
    ClosePipe,
    Opened,
    CloseReceived,
    CloseSent,
    Discarding,
    End,
}

// A move answers the state that it leads to, or None where it is illegal in the state (20).
impl ConnectionState {
    // A protocol header is sent.
    pub fn send_header(self) -> Option<ConnectionState>
        ensures { moved_says result ≡ along send_header (state_says self) }
    {
        match self {
            ConnectionState::Start => Some(ConnectionState::HeaderSent),
            ConnectionState::HeaderReceived => Some(ConnectionState::HeaderExchange),
            _ => None,
        }
    }

    // The header of AMQP 1.0.0 is received.
    pub fn receive_header(self) -> Option<ConnectionState>
        ensures { moved_says result ≡ along receive_header (state_says self) }
    {
        match self {
            ConnectionState::Start => Some(ConnectionState::HeaderReceived),
            ConnectionState::HeaderSent => Some(ConnectionState::HeaderExchange),
            _ => None,
        }
    }

    // The header of another protocol or version is received.
    pub fn receive_other_header(self) -> Option<ConnectionState>
        ensures { moved_says result ≡ along receive_other_header (state_says self) }
    {
        match self {
            ConnectionState::Start => Some(ConnectionState::End),
            ConnectionState::HeaderSent => Some(ConnectionState::End),
            _ => None,
        }
    }

    // An Open is sent.
    pub fn send_open(self) -> Option<ConnectionState>
        ensures { moved_says result ≡ along send_open (state_says self) }
    {
        match self {
            ConnectionState::HeaderExchange => Some(ConnectionState::OpenSent),
            ConnectionState::OpenReceived => Some(ConnectionState::Opened),
            ConnectionState::HeaderSent => Some(ConnectionState::OpenPipe),
            _ => None,
        }
    }

    // An Open is received.
    pub fn receive_open(self) -> Option<ConnectionState>
        ensures { moved_says result ≡ along read_open (state_says self) }
    {
        match self {
            ConnectionState::HeaderExchange => Some(ConnectionState::OpenReceived),
            ConnectionState::OpenSent => Some(ConnectionState::Opened),
            ConnectionState::ClosePipe => Some(ConnectionState::CloseSent),
            _ => None,
        }
    }

    // A Close without an error is sent.
    pub fn send_close(self) -> Option<ConnectionState>
        ensures { moved_says result ≡ along send_close (state_says self) }
    {
        match self {
            ConnectionState::Opened => Some(ConnectionState::CloseSent),
            ConnectionState::OpenSent => Some(ConnectionState::ClosePipe),
            ConnectionState::OpenPipe => Some(ConnectionState::OpenClosePipe),
            ConnectionState::CloseReceived => Some(ConnectionState::End),
            _ => None,
        }
    }

    // A Close with an error is sent.
    pub fn send_close_with_error(self) -> Option<ConnectionState>
        ensures { moved_says result ≡ along send_close_with_error (state_says self) }
    {
        match self {
            ConnectionState::Opened => Some(ConnectionState::Discarding),
            ConnectionState::OpenSent => Some(ConnectionState::Discarding),
            ConnectionState::OpenPipe => Some(ConnectionState::Discarding),
            ConnectionState::CloseReceived => Some(ConnectionState::End),
            _ => None,
        }
    }

    // A Close is received.
    pub fn receive_close(self) -> Option<ConnectionState>
        ensures { moved_says result ≡ along read_close (state_says self) }
    {
        match self {
            ConnectionState::Opened => Some(ConnectionState::CloseReceived),
            ConnectionState::OpenPipe => Some(ConnectionState::CloseReceived),
            ConnectionState::OpenClosePipe => Some(ConnectionState::CloseReceived),
            ConnectionState::OpenReceived => Some(ConnectionState::CloseReceived),
            ConnectionState::OpenSent => Some(ConnectionState::CloseReceived),
            ConnectionState::CloseSent => Some(ConnectionState::End),
            ConnectionState::Discarding => Some(ConnectionState::End),
            _ => None,
        }
    }

    // Whether frames of sessions are read.
    pub fn takes_session_frames(self) -> bool
        ensures { result ≡ is_one_of reading (state_says self) }
    {
        matches!(self, ConnectionState::Opened)
    }

    // Whether frames of sessions are sent.
    pub fn sends_session_frames(self) -> bool
        ensures { result ≡ is_one_of sending (state_says self) }
    {
        matches!(
            self,
            ConnectionState::Opened | ConnectionState::CloseReceived
        )
    }

    // Whether the peer's Open is still to come, if it comes.
    pub fn is_before_open(self) -> bool
        ensures { result ≡ is_one_of before_open (state_says self) }
    {
        matches!(
            self,
            ConnectionState::Start
                | ConnectionState::HeaderReceived
                | ConnectionState::HeaderSent
                | ConnectionState::HeaderExchange
                | ConnectionState::OpenPipe
                | ConnectionState::OpenClosePipe
                | ConnectionState::OpenSent
                | ConnectionState::ClosePipe
        )
    }

    // Whether the peer's Open was read.
    pub fn is_after_open(self) -> bool
        ensures { result ≡ is_one_of after_open (state_says self) }
    {
        matches!(
            self,
            ConnectionState::OpenReceived | ConnectionState::Opened | ConnectionState::CloseSent
        )
    }

    // Whether the peer's Close was read and ours is to be sent.
    pub fn is_close_received(self) -> bool
        ensures { result ≡ is CloseReceived (state_says self) }
    {
        matches!(self, ConnectionState::CloseReceived)
    }

    // Whether no channel is given any more (22).
    pub fn is_stopped(self) -> bool
        ensures { result ≡ is_one_of stopped (state_says self) }
    {
        matches!(
            self,
            ConnectionState::CloseSent | ConnectionState::Discarding | ConnectionState::End
        )
    }

    // Whether a tick writes nothing.
    pub fn is_silent(self) -> bool
        ensures { result ≡ is_one_of silent (state_says self) }
    {
        matches!(self, ConnectionState::Start | ConnectionState::CloseSent)
    }

    // Whether what is received is thrown away until a Close.
    pub fn is_discarding(self) -> bool
        ensures { result ≡ is Discarding (state_says self) }
    {
        matches!(self, ConnectionState::Discarding)
    }

    // Whether the connection is over.
    pub fn is_end(self) -> bool
        ensures { result ≡ is End (state_says self) }
    {
        matches!(self, ConnectionState::End)
    }

    // The number of the state.
    pub fn number(self) -> u8
        ensures { result ≡ numbered (state_says self) }
    {
        self as u8
    }

    // The state that has the number.
    pub fn with_number(k: u8) -> Option<ConnectionState>
        ensures { numbered_says result ≡ with_number k }
    {
        match k {
            0 => Some(ConnectionState::Start),
            1 => Some(ConnectionState::HeaderReceived),
            2 => Some(ConnectionState::HeaderSent),
            3 => Some(ConnectionState::HeaderExchange),
            4 => Some(ConnectionState::OpenPipe),
            5 => Some(ConnectionState::OpenClosePipe),
            6 => Some(ConnectionState::OpenReceived),
            7 => Some(ConnectionState::OpenSent),
            8 => Some(ConnectionState::ClosePipe),
            9 => Some(ConnectionState::Opened),
            10 => Some(ConnectionState::CloseReceived),
            11 => Some(ConnectionState::CloseSent),
            12 => Some(ConnectionState::Discarding),
            13 => Some(ConnectionState::End),
            _ => None,
        }
    }
}
