// The lines: for each header and each frame where it stands, its columns, and what it says.
ghost use Rattle.std.specs.Prelude.{◌-◌, length};
ghost use Rattle.std.specs.Iterator.{at_most};

use crate::says::{Says, name};
use frame_decoder::Frame;
use octets::Refusal;
use performatives::Performative;
use protocol_header::HeaderRead;
use std::fmt;

const LIMIT: u32 = 16384;

const HIGHEST: u16 = 65535;

// A number in a column, or a dash where there is none.
#[derive(Clone, Copy)]
struct Column(Option<usize>);

impl fmt::Display for Column {
    fn fmt<W: fmt::Write>(&self, f: &mut fmt::Formatter<W>) -> fmt::Result {
        match self.0 {
            Some(n) => n.fmt(f),
            None => f.pad("-"),
        }
    }
}

// A line. After a header or frame of unknown length there is none.
#[derive(Clone, Copy, Drop)]
pub(crate) struct Row<'a> {
    what: &'static str,
    length: Column,
    channel: Column,
    performative: &'static str,
    payload: Column,
    says: Says<'a>,
    next: Option<usize>,
}

impl<'a> Row<'a> {
    // A line with a dash in each column, and where the next one's place is known how far that is.
    fn dashes(what: &'static str, says: Says<'a>, next: Option<usize>) -> Self {
        Row {
            what,
            length: Column(None),
            channel: Column(None),
            performative: "-",
            payload: Column(None),
            says,
            next,
        }
    }

    fn header(bytes: &'a [u8]) -> Self {
        let (says, length) = match protocol_header::read(bytes) {
            Ok(HeaderRead::Amqp) => (Says::Amqp, Some(8)),
            Ok(HeaderRead::Other(header)) => (Says::Other(header), Some(8)),
            Err(Refusal::BytesMissing) => (Says::Refused(Refusal::BytesMissing), None),
            Err(refusal) => (Says::Refused(refusal), Some(8)),
        };
        Row {
            length: Column(length),
            ..Row::dashes("header", says, length)
        }
    }

    // A refused frame is passed over by its length, if that can be known.
    fn refused(bytes: &'a [u8], refusal: Refusal) -> Self {
        match refusal {
            Refusal::BytesMissing | Refusal::TooShort | Refusal::OverReadingLimit => {
                Row::dashes("frame", Says::Lost(refusal), None)
            }
            _ => {
                let size = octets::number(&bytes[..bytes.len().min(4)]);
                Row::dashes("frame", Says::Refused(refusal), Some(size as usize))
            }
        }
    }

    fn empty(channel: u16, size: usize) -> Self {
        Row {
            what: "frame",
            length: Column(Some(size)),
            channel: Column(Some(usize::from(channel))),
            performative: "empty",
            payload: Column(Some(0)),
            says: Says::NothingToDo,
            next: Some(size),
        }
    }

    fn performative(
        channel: u16,
        size: usize,
        performative: Performative,
        end: usize,
        body: &'a [u8],
    ) -> Self {
        Row {
            what: "frame",
            length: Column(Some(size)),
            channel: Column(Some(usize::from(channel))),
            performative: name(performative),
            payload: Column(body.len().checked_sub(end)),
            says: Says::Performative(performative, body),
            next: Some(size),
        }
    }

    fn frame(bytes: &'a [u8]) -> Self {
        let frame = match frame_decoder::read(bytes, LIMIT, HIGHEST) {
            Ok(frame) => frame,
            Err(refusal) => return Row::refused(bytes, refusal),
        };
        match frame {
            Frame::Empty {
                channel,
                size,
                from: _,
            } => Row::empty(channel, size),
            Frame::Body {
                channel,
                size,
                from: _,
                performative,
                end,
            } => {
                let body = frame_decoder::body(bytes);
                Row::performative(channel, size, performative, end, body)
            }
        }
    }

    // The line for what `bytes` begin with.
    fn read(bytes: &'a [u8]) -> Self {
        if bytes.starts_with(b"A") {
            Row::header(bytes)
        } else {
            Row::frame(bytes)
        }
    }
}

impl fmt::Display for Row<'_> {
    fn fmt<W: fmt::Write>(&self, f: &mut fmt::Formatter<W>) -> fmt::Result {
        let Row {
            what,
            length,
            channel,
            performative,
            payload,
            says,
            next: _,
        } = *self;
        write!(f, "{what:<6}{length:>8}{channel:>9}")?;
        write!(f, "  {performative:<12}{payload:>9}  {says}")
    }
}

// The lines of a conversation, each with the place that it is about.
#[derive(Drop)]
pub(crate) struct Rows<'a> {
    bytes: &'a [u8],
    at: usize,
}

impl<'a> Rows<'a> {
    pub(crate) fn new(bytes: &'a [u8]) -> Self {
        Rows { bytes, at: 0 }
    }
}

impl<'a> Iterator for Rows<'a> {
    type Item = (usize, Row<'a>);

    ghost remaining = { λ rows. at_most (length rows.bytes.now - rows.at) };

    fn next(&mut self) -> Option<(usize, Row<'a>)> {
        let at = self.at;
        if self.bytes.len() <= at {
            return None;
        }
        let row = Row::read(&self.bytes[at..]);
        self.at = match row.next {
            Some(length) if 0 < length => at.saturating_add(length),
            _ => self.bytes.len(),
        };
        Some((at, row))
    }
}
