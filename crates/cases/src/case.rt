// A case: which function it runs, and on what.
use crate::answers::Answer;
use crate::output::{Output, Rooms};
use crate::spelling::{Words, is_bytes, is_number};
use frame_decoder::Frame;
use octets::Refusal;
use std::io;

// The answer where the bytes are no value or no performative.
const MALFORMED: Answer = Answer::Refused(Refusal::BodyMalformed);

fn framed(read: Result<Frame, Refusal>) -> Answer {
    read.map_or_else(Answer::Refused, Answer::Frame)
}

// The words of a line that are still to be read, and the room for the bytes that they say. Where a word is none that is asked for, the line has no case.
#[derive(Drop)]
pub(crate) struct Fields<'a> {
    words: Words<'a>,
    room: &'a mut [u8],
}

impl<'a> Fields<'a> {
    // A number; the most that it can be where it is larger.
    pub(crate) fn number<T: TryFrom<u64> + Drop>(&mut self, most: T) -> Option<T>
    where
        <T as TryFrom<u64>>::Error: Drop,
    {
        let word = self.words.next()?;
        if !is_number(word) {
            return None;
        }
        Some(T::try_from(words::decimal(word)).unwrap_or(most))
    }

    // The bytes that a word says, up to so many.
    pub(crate) fn bytes(&mut self, most: usize) -> Option<&'a [u8]> {
        let word = self.words.next()?;
        if !is_bytes(word) {
            return None;
        }
        let bytes = self.room.split_off_mut(..most.min(word.len() / 2))?;
        let _ = words::hex(word, bytes);
        Some(bytes)
    }
}

#[derive(Clone, Copy, Drop)]
pub(crate) enum Case<'a> {
    Header(&'a [u8]),
    Utf8(&'a [u8]),
    Ascii(&'a [u8]),
    Value {
        depth: u8,
        value: &'a [u8],
    },
    Performative(&'a [u8]),
    Frame {
        limit: u32,
        highest: u16,
        frame: &'a [u8],
    },
    SessionFrame {
        highest: u16,
        frame: &'a [u8],
    },
    SessionFrames {
        highest: u16,
        frames: &'a [u8],
    },
    Write {
        room: usize,
        limit: u32,
        output: Output<'a>,
    },
}

impl<'a> Case<'a> {
    fn read(letter: u8, fields: &mut Fields<'a>) -> Option<Self> {
        Some(match letter {
            b'h' => Case::Header(fields.bytes(65536)?),
            b'u' => Case::Utf8(fields.bytes(65536)?),
            b'a' => Case::Ascii(fields.bytes(65536)?),
            b'v' => Case::Value {
                depth: fields.number(u8::MAX)?,
                value: fields.bytes(65536)?,
            },
            b'p' => Case::Performative(fields.bytes(65536)?),
            b'f' => Case::Frame {
                limit: fields.number(u32::MAX)?,
                highest: fields.number(u16::MAX)?,
                frame: fields.bytes(65536)?,
            },
            b's' => Case::SessionFrame {
                highest: fields.number(u16::MAX)?,
                frame: fields.bytes(65536)?,
            },
            b'n' => Case::SessionFrames {
                highest: fields.number(u16::MAX)?,
                frames: fields.bytes(65536)?,
            },
            b'o' | b'c' | b'e' | b't' | b'w' => Case::Write {
                room: fields.number(usize::MAX)?,
                limit: fields.number(u32::MAX)?,
                output: Output::read(letter, fields)?,
            },
            _ => Case::read_any(fields)?,
        })
    }

    // A letter that names no function runs session_frames all the same, where as many as 255 numbers come after it: the first is the highest channel.
    fn read_any(fields: &mut Fields<'a>) -> Option<Self> {
        let highest = fields.number(u16::MAX)?;
        for _ in 1..255 {
            fields.number(u64::MAX)?;
        }
        Some(Case::SessionFrames {
            highest,
            frames: fields.bytes(65536)?,
        })
    }

    // The case of a line, with its bytes spelled out.
    pub(crate) fn parse(line: &'a [u8], room: &'a mut [u8]) -> Option<Self> {
        let letter = line.first()?;
        let mut fields = Fields {
            words: Words::of(line),
            room,
        };
        // the word with the letter
        fields.words.next()?;
        let case = Case::read(*letter, &mut fields)?;
        if fields.words.next()? != b"=".as_slice() {
            return None;
        }
        Some(case)
    }

    // What comes of it.
    pub(crate) fn answer(
        &self,
        rt: &impl Print,
        wanted: &[u8],
        rooms: &mut Rooms,
    ) -> io::Result<Answer> {
        Ok(match *self {
            Case::Header(header) => {
                protocol_header::read(header).map_or_else(Answer::Refused, Answer::Header)
            }
            Case::Utf8(text) => Answer::YesOrNo(text::is_utf8(text)),
            Case::Ascii(text) => Answer::YesOrNo(text::is_ascii(text)),
            Case::Value { depth, value } => {
                values::value_end(value, depth).map_or(MALFORMED, Answer::ValueEnd)
            }
            Case::Performative(body) => performatives::read(body).map_or(MALFORMED, Answer::Body),
            Case::Frame {
                limit,
                highest,
                frame,
            } => framed(frame_decoder::read(frame, limit, highest)),
            Case::SessionFrame { highest, frame } => {
                framed(frame_decoder::session_frame(frame, highest))
            }
            Case::SessionFrames { highest, frames } => {
                frame_decoder::session_frames(frames, highest).map_or_else(
                    Answer::Refused,
                    Answer::Frames,
                )
            }
            Case::Write {
                room,
                limit,
                output,
            } => return output.answer(rt, room, limit, wanted, rooms),
        })
    }
}
