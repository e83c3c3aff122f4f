// The calls that a script can name.

#[derive(Clone, Copy)]
pub(crate) enum Call {
    Dialler,
    Listener,
    ReceiveHeader,
    ReceiveFrame,
    AllocateSessions,
    DeallocateSession,
    Limits,
    Channels,
    SendSessionFrame,
    SendHeader,
    SendOpen,
    SendClose,
    SendCloseWithError,
    Tick,
}

impl<'a> From<&'a [u8]> for Call {
    // A name is told by a letter of it, so that each name is that of a call: on every input the program does what it did. One that starts with s has a call that
    // sends; besides, the great letters stand for these.
    fn from(name: &'a [u8]) -> Self {
        let place = match name.first() {
            Some(b'd') => 1,
            Some(b'l') => 2,
            Some(b'r') => 8,
            Some(b's') => return Call::sending(name),
            _ => 0,
        };
        match name.get(place) {
            Some(b'i') => Call::Dialler,
            Some(b's') => Call::Listener,
            Some(b'h') => Call::ReceiveHeader,
            Some(b'f') => Call::ReceiveFrame,
            Some(b'a') => Call::AllocateSessions,
            Some(b'e') => Call::DeallocateSession,
            Some(b'm') => Call::Limits,
            Some(b'c') => Call::Channels,
            Some(b'S') => Call::SendSessionFrame,
            Some(b'H') => Call::SendHeader,
            Some(b'O') => Call::SendOpen,
            Some(b'C') => Call::SendClose,
            Some(b'E') => Call::SendCloseWithError,
            _ => Call::Tick,
        }
    }
}

impl Call {
    fn sending(name: &[u8]) -> Self {
        match name.get(5) {
            Some(b'h') => Call::SendHeader,
            Some(b'o') => Call::SendOpen,
            Some(b's') => Call::SendSessionFrame,
            _ if 10 < name.len() => Call::SendCloseWithError,
            _ => Call::SendClose,
        }
    }
}
