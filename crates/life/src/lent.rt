// What a call was lent, and the names of states and performatives.
use connection_state::ConnectionState;
use std::fmt;

#[derive(Clone, Copy, Drop)]
pub(crate) enum Lent<'a> {
    Nothing,
    Size(u16),
    Handle(u32),
    Channel(u16),
    // told by its protocol id, or by how many bytes there are of it
    Header(&'a [u8]),
    // told by its performative, or its length where there is none, and its channel; or by how many bytes there are of its header
    Frame(&'a [u8]),
}

impl fmt::Display for Lent<'_> {
    fn fmt<W: fmt::Write>(&self, f: &mut fmt::Formatter<W>) -> fmt::Result {
        match *self {
            Lent::Nothing => Ok(()),
            Lent::Size(size) => write!(f, "size {size}: "),
            Lent::Handle(handle) => write!(f, "handle {handle}: "),
            Lent::Channel(channel) => write!(f, "channel {channel}: "),
            Lent::Header([_, _, _, _, id, _, _, _, ..]) => write!(f, "id {id}: "),
            Lent::Frame([a, b, c, d, _, _, high, low, body @ ..]) => {
                let length = u32::from_be_bytes([*a, *b, *c, *d]);
                let channel = u16::from_be_bytes([*high, *low]);
                match body {
                    [_, _, code, ..] if *code != 0 && 11 <= length => {
                        let name = performative(*code);
                        write!(f, "{name} on {channel}: ")
                    }
                    _ => write!(f, "length {length} on {channel}: "),
                }
            }
            Lent::Header(bytes) | Lent::Frame(bytes) => {
                let count = bytes.len();
                write!(f, "bytes {count}: ")
            }
        }
    }
}

// The performative that a code stands for; nothing where it stands for none.
pub(crate) fn performative(code: u8) -> &'static str {
    match code {
        16 => "open",
        17 => "begin",
        18 => "attach",
        19 => "flow",
        20 => "transfer",
        21 => "disposition",
        22 => "detach",
        23 => "end",
        24 => "close",
        _ => "",
    }
}

pub(crate) fn state(state: ConnectionState) -> &'static str {
    match state {
        ConnectionState::Start => "Start",
        ConnectionState::HeaderReceived => "HeaderReceived",
        ConnectionState::HeaderSent => "HeaderSent",
        ConnectionState::HeaderExchange => "HeaderExchange",
        ConnectionState::OpenPipe => "OpenPipe",
        ConnectionState::OpenClosePipe => "OpenClosePipe",
        ConnectionState::OpenReceived => "OpenReceived",
        ConnectionState::OpenSent => "OpenSent",
        ConnectionState::ClosePipe => "ClosePipe",
        ConnectionState::Opened => "Opened",
        ConnectionState::CloseReceived => "CloseReceived",
        ConnectionState::CloseSent => "CloseSent",
        ConnectionState::Discarding => "Discarding",
        ConnectionState::End => "End",
    }
}
