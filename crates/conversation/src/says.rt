// What a header or a frame says, in the last column.
use octets::Refusal;
use performatives::{Condition, Performative};
use protocol_header::ProtocolHeader;
use std::fmt;

#[derive(Clone, Copy, Drop)]
pub(crate) enum Says<'a> {
    Amqp,
    Other(ProtocolHeader),
    Refused(Refusal),
    // a refusal that leaves unknown how long the frame is
    Lost(Refusal),
    NothingToDo,
    // with the body that it was read from
    Performative(Performative, &'a [u8]),
}

impl fmt::Display for Says<'_> {
    fn fmt<W: fmt::Write>(&self, f: &mut fmt::Formatter<W>) -> fmt::Result {
        match *self {
            Says::Amqp => write!(f, "AMQP 1.0.0"),
            Says::Other(header) => other(f, header),
            Says::Refused(refusal) => refused(f, refusal),
            Says::Lost(refusal) => {
                refused(f, refusal)?;
                write!(f, "\nstopped: it is not known where the next frame starts")
            }
            Says::NothingToDo => write!(f, "nothing to do"),
            Says::Performative(performative, body) => fields(f, performative, body),
        }
    }
}

fn refused<W: fmt::Write>(f: &mut fmt::Formatter<W>, refusal: Refusal) -> fmt::Result {
    let number = refusal.number();
    write!(f, "refused {number}")
}

fn other<W: fmt::Write>(f: &mut fmt::Formatter<W>, header: ProtocolHeader) -> fmt::Result {
    let id = u8::from(header.id);
    let ProtocolHeader {
        id: _,
        major,
        minor,
        revision,
    } = header;
    write!(
        f,
        "other protocol: id {id}, version {major}.{minor}.{revision}"
    )
}

pub(crate) fn name(performative: Performative) -> &'static str {
    match performative {
        Performative::Open { .. } => "open",
        Performative::Begin(_) => "begin",
        Performative::Attach => "attach",
        Performative::Flow => "flow",
        Performative::Transfer => "transfer",
        Performative::Disposition => "disposition",
        Performative::Detach(_) => "detach",
        Performative::End(_) => "end",
        Performative::Close(_) => "close",
    }
}

fn fields<W: fmt::Write>(
    f: &mut fmt::Formatter<W>,
    performative: Performative,
    body: &[u8],
) -> fmt::Result {
    match performative {
        Performative::Open {
            max_frame_size,
            channel_max,
            idle_time_out,
        } => {
            write!(
                f,
                "max-frame-size {max_frame_size}, channel-max {channel_max}"
            )?;
            if 0 < idle_time_out {
                write!(f, ", idle-time-out {idle_time_out}")?;
            }
            Ok(())
        }
        Performative::Begin(Some(channel)) => write!(f, "remote-channel {channel}"),
        Performative::Detach(condition)
        | Performative::End(condition)
        | Performative::Close(condition) => error(f, condition, body),
        _ => Ok(()),
    }
}

fn error<W: fmt::Write>(
    f: &mut fmt::Formatter<W>,
    condition: Option<Condition>,
    body: &[u8],
) -> fmt::Result {
    let Some(Condition { from, len }) = condition else {
        return Ok(());
    };
    write!(f, "error ")?;
    for byte in body.iter().skip(from).take(len) {
        f.write_char(sign(*byte))?;
    }
    Ok(())
}

// A byte of a text that came from a peer; a dot where it is no printable sign of ASCII.
fn sign(byte: u8) -> char {
    match byte {
        0x20..=0x7e => char::from(byte),
        _ => '.',
    }
}
