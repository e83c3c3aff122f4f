// What a call answered.
use crate::lent::performative;
use connection::{Connection, HeaderAnswer, TickAnswer};
use endpoint::FrameAnswer;
use octets::Refusal;
use std::fmt;

// A refusal, told by its number.
#[derive(Clone, Copy)]
pub(crate) struct Refused(pub(crate) Refusal);

impl fmt::Display for Refused {
    fn fmt<W: fmt::Write>(&self, f: &mut fmt::Formatter<W>) -> fmt::Result {
        let number = self.0.number();
        write!(f, "refused {number}")
    }
}

#[derive(Clone, Copy, Drop)]
pub(crate) enum Answer {
    SettingsTaken,
    Header(HeaderAnswer),
    Frame(FrameAnswer),
    Allocated(u16),
    Freed(u32),
    Wrote(usize),
    Ticked(TickAnswer),
    Limits {
        reading: u32,
        writing: u32,
        agreed: Option<u16>,
    },
}

impl fmt::Display for Answer {
    fn fmt<W: fmt::Write>(&self, f: &mut fmt::Formatter<W>) -> fmt::Result {
        match *self {
            Answer::SettingsTaken => write!(f, "settings taken"),
            Answer::Header(HeaderAnswer::Amqp(n)) => write!(f, "AMQP 1.0.0; consumed {n}"),
            Answer::Header(HeaderAnswer::OtherProtocol(n)) => {
                write!(f, "other protocol; consumed {n}")
            }
            Answer::Frame(answered) => frame(f, answered),
            Answer::Allocated(channel) => write!(f, "channel {channel}"),
            Answer::Freed(handle) => write!(f, "freed handle {handle}"),
            Answer::Wrote(n) | Answer::Ticked(TickAnswer::Wrote(n)) => write!(f, "wrote {n}"),
            Answer::Ticked(TickAnswer::Stop) => write!(f, "stop"),
            Answer::Limits {
                reading,
                writing,
                agreed,
            } => {
                write!(f, "reads up to {reading}, writes up to {writing}, ")?;
                agreed_max(f, agreed)
            }
        }
    }
}

fn agreed_max<W: fmt::Write>(f: &mut fmt::Formatter<W>, agreed: Option<u16>) -> fmt::Result {
    match agreed {
        None => write!(f, "no channel-max agreed"),
        Some(channel_max) => write!(f, "agreed channel-max {channel_max}"),
    }
}

fn opened<W: fmt::Write>(
    f: &mut fmt::Formatter<W>,
    idle_time_out: u32,
    consumed: usize,
) -> fmt::Result {
    match idle_time_out {
        0 => write!(f, "open, no idle-time-out; consumed {consumed}"),
        _ => write!(
            f,
            "open, idle-time-out {idle_time_out}; consumed {consumed}"
        ),
    }
}

// The handle that a session's frame goes to, the place and the length of its body, and the bytes consumed.
fn passed<W: fmt::Write>(
    f: &mut fmt::Formatter<W>,
    handle: u32,
    from: usize,
    len: usize,
    consumed: usize,
) -> fmt::Result {
    write!(
        f,
        " to handle {handle}, body at {from}, {len} bytes; consumed {consumed}"
    )
}

fn frame<W: fmt::Write>(f: &mut fmt::Formatter<W>, answered: FrameAnswer) -> fmt::Result {
    match answered {
        FrameAnswer::NothingToDo { consumed } => write!(f, "nothing to do; consumed {consumed}"),
        FrameAnswer::Opened {
            consumed,
            idle_time_out,
        } => opened(f, idle_time_out, consumed),
        FrameAnswer::Closed {
            consumed,
            with_error,
        } => {
            let how = if with_error { "with" } else { "without" };
            write!(f, "close {how} an error; consumed {consumed}")
        }
        FrameAnswer::Forward {
            consumed,
            code,
            handle,
            from,
            len,
        } => {
            f.write_str(performative(code))?;
            passed(f, handle, from, len, consumed)
        }
        FrameAnswer::Began {
            consumed,
            channel,
            handle,
            from,
            len,
        } => {
            write!(f, "new session on channel {channel}, begin")?;
            passed(f, handle, from, len, consumed)
        }
    }
}

// The channels that are taken and those that are tied, each with its handle: of so many from the first on.
#[derive(Clone, Copy, Drop)]
pub(crate) struct Channels<'a> {
    pub(crate) connection: Connection,
    pub(crate) tables: &'a [u8],
    pub(crate) first: u16,
    pub(crate) count: u16,
}

impl Channels<'_> {
    fn entries<W: fmt::Write, F: Fn(u16) -> Result<Option<u32>, Refusal>>(
        &self,
        f: &mut fmt::Formatter<W>,
        handle: F,
    ) -> fmt::Result
        requires { F.IsAlwaysCallable handle }
    {
        for channel in (self.first..=u16::MAX).take(usize::from(self.count)) {
            entry(f, channel, handle(channel))?;
        }
        Ok(())
    }
}

impl fmt::Display for Channels<'_> {
    fn fmt<W: fmt::Write>(&self, f: &mut fmt::Formatter<W>) -> fmt::Result {
        let connection = self.connection;
        let tables = self.tables;
        let count = connection.taken_count();
        write!(f, "{count} taken,")?;
        self.entries(f, |channel| connection.handle_at(tables, channel))?;
        write!(f, "; tied")?;
        self.entries(f, |channel| connection.tied_handle(tables, channel))
    }
}

// A channel and its handle; nothing where it has none.
fn entry<W: fmt::Write>(
    f: &mut fmt::Formatter<W>,
    channel: u16,
    found: Result<Option<u32>, Refusal>,
) -> fmt::Result {
    match found {
        Ok(Some(handle)) => write!(f, " {channel}:{handle}"),
        Ok(None) => Ok(()),
        Err(refusal) => writeln!(f, "{}", Refused(refusal)),
    }
}
