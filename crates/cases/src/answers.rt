// Answers, the words that they are written in, and when these are the words expected.
use crate::spelling::{Words, is_number};
use frame_decoder::Frame;
use octets::Refusal;
use performatives::{Body, Condition, Performative};
use protocol_header::{HeaderRead, ProtocolHeader};
use std::fmt;
use std::io::{self, Write};

// How many words an answer has at most.
const MOST_WORDS: usize = 10;

// What a case is answered. The last three are no answer that a case expects.
#[derive(Clone, Copy, Drop)]
pub(crate) enum Answer {
    Header(HeaderRead),
    YesOrNo(bool),
    ValueEnd(usize),
    Body(Body),
    Frame(Frame),
    Frames(usize),
    Refused(Refusal),
    // the bytes that the case expects to be written
    Wrote,
    Differs(usize),
    Touched(usize),
    BadLine,
}

impl Answer {
    // The answer's words, laid into a room: none is longer than 20 letters. After `wrote` comes the word of the bytes that the case expects to be written.
    pub(crate) fn text<'a>(&self, room: &'a mut [u8; 256]) -> io::Result<&'a [u8]> {
        let mut rest = &mut room[..];
        write!(rest, "{self}")?;
        let left = rest.len();
        let n = room.len().saturating_sub(left);
        Ok(room.get(..n).unwrap_or_default())
    }
}

impl fmt::Display for Answer {
    fn fmt<W: fmt::Write>(&self, f: &mut fmt::Formatter<W>) -> fmt::Result {
        match *self {
            Answer::Header(read) => header(f, read),
            Answer::YesOrNo(true) => write!(f, "yes"),
            Answer::YesOrNo(false) => write!(f, "no"),
            Answer::ValueEnd(end) => write!(f, "end {end}"),
            Answer::Body(Body { performative, end }) => fields(f, performative, end),
            Answer::Frame(read) => frame(f, read),
            Answer::Frames(count) => write!(f, "frames {count}"),
            Answer::Refused(refusal) => {
                let number = refusal.number();
                write!(f, "refused {number}")
            }
            Answer::Wrote => write!(f, "wrote"),
            Answer::Differs(n) => write!(f, "differs {n}"),
            Answer::Touched(n) => write!(f, "touched {n}"),
            Answer::BadLine => write!(f, "badline"),
        }
    }
}

fn header<W: fmt::Write>(f: &mut fmt::Formatter<W>, read: HeaderRead) -> fmt::Result {
    match read {
        HeaderRead::Amqp => write!(f, "amqp"),
        HeaderRead::Other(header) => {
            let id = u8::from(header.id);
            let ProtocolHeader {
                id: _,
                major,
                minor,
                revision,
            } = header;
            write!(f, "other {id} {major} {minor} {revision}")
        }
    }
}

fn frame<W: fmt::Write>(f: &mut fmt::Formatter<W>, read: Frame) -> fmt::Result {
    match read {
        Frame::Empty {
            channel,
            size,
            from,
        } => write!(f, "empty {channel} {size} {from}"),
        Frame::Body {
            channel,
            size,
            from,
            performative,
            end,
        } => {
            write!(f, "frame {channel} {size} {from} ")?;
            fields(f, performative, end)
        }
    }
}

// A performative, and where it ends.
fn fields<W: fmt::Write>(
    f: &mut fmt::Formatter<W>,
    performative: Performative,
    end: usize,
) -> fmt::Result {
    match performative {
        Performative::Open {
            max_frame_size,
            channel_max,
            idle_time_out,
        } => write!(f, "open {max_frame_size} {channel_max} {idle_time_out}")?,
        Performative::Begin(None) => write!(f, "begin none")?,
        Performative::Begin(Some(channel)) => write!(f, "begin {channel}")?,
        Performative::Attach => write!(f, "attach")?,
        Performative::Flow => write!(f, "flow")?,
        Performative::Transfer => write!(f, "transfer")?,
        Performative::Disposition => write!(f, "disposition")?,
        Performative::Detach(condition) => error(f, "detach", condition)?,
        Performative::End(condition) => error(f, "end", condition)?,
        Performative::Close(condition) => error(f, "close", condition)?,
    }
    write!(f, " end {end}")
}

// The place and the length of an error's condition.
fn error<W: fmt::Write>(
    f: &mut fmt::Formatter<W>,
    name: &str,
    condition: Option<Condition>,
) -> fmt::Result {
    match condition {
        None => write!(f, "{name} none"),
        Some(Condition { from, len }) => write!(f, "{name} error {from} {len}"),
    }
}

const LETTERS: u64 = 0x8000_0000_0000_0000;

// What a word stands for: a number for itself, and any other word for its letters, the first eight of them, after a bit that no number has. It stays a number
// since the program is to do what it did on every input: whatever a case expects, the same words are taken for the same, and are printed the same.
fn meaning(word: &[u8]) -> u64 {
    if is_number(word) {
        words::decimal(word)
    } else {
        LETTERS.wrapping_add(octets::number(word))
    }
}

// Whether an answer's words, those of its text and then of the bytes written, are those wanted.
pub(crate) fn agree<'a>(text: &'a [u8], written: &'a [u8], wanted: &[u8]) -> bool {
    let mut words = Words::of(text);
    let mut last = Words::of(written);
    let mut wanted = Words::of(wanted);
    for _ in 0..=MOST_WORDS {
        let word = match words.next() {
            Some(word) => Some(word),
            None => last.next(),
        };
        match (word, wanted.next()) {
            (None, None) => return true,
            (Some(word), Some(other)) if meaning(word) == meaning(other) => {}
            _ => return false,
        }
    }
    false
}

// Prints words of an answer.
pub(crate) fn print_words(rt: &impl Print, text: &[u8]) -> io::Result<()> {
    let mut words = Words::of(text);
    for _ in 0..MOST_WORDS {
        if let Some(word) = words.next() {
            print_word(rt, word)?;
        }
    }
    Ok(())
}

// Prints a word of an answer as what it stands for, after a blank.
fn print_word(rt: &impl Print, word: &[u8]) -> io::Result<()> {
    let meant = meaning(word);
    if meant < LETTERS {
        return print!(rt; " {meant}");
    }
    let letters = (meant - LETTERS).to_be_bytes();
    let blank = letters.iter().take_while(|b| **b == 0).count();
    rt.write_all(b" ")?;
    rt.write_all(&letters[blank..])
}
