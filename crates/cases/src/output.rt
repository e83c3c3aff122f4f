// The cases that write: what is written, and how it is compared with what is expected.
use crate::answers::Answer;
use crate::case::Fields;
use frame_encoder::{ErrorText, Settings};
use octets::Refusal;
use std::io;

#[derive(Clone, Copy, Drop)]
pub(crate) enum Output<'a> {
    Open {
        max_frame_size: u32,
        channel_max: u16,
        idle_time_out: Option<u32>,
        container_id: &'a [u8],
    },
    Close,
    CloseWithError {
        condition: &'a [u8],
        description: Option<&'a [u8]>,
    },
    Empty,
    SessionFrame {
        highest: u16,
        frame: &'a [u8],
    },
}

// The most bytes that are lent, and that a case expects to be written.
const MOST: usize = 65536;

// The output that is lent, and beside it the pattern that it held, and then the bytes that the case expects.
#[derive(Drop)]
pub(crate) struct Rooms {
    out: [u8; MOST],
    beside: [u8; MOST],
}

impl Rooms {
    pub(crate) fn new() -> Self {
        Rooms {
            out: [0; MOST],
            beside: [0; MOST],
        }
    }
}

// Fills a lent output with the pattern.
fn fill(out: &mut [u8]) {
    for chunk in out.chunks_mut(251) {
        for (i, b) in chunk.iter_mut().enumerate() {
            *b = i as u8;
        }
    }
}

fn idle_time_out(fields: &mut Fields<'_>) -> Option<Option<u32>> {
    let given = fields.number(u64::MAX)?;
    let millis = fields.number(u32::MAX)?;
    Some((given != 0).then_some(millis))
}

impl<'a> Output<'a> {
    // What comes after the room and the limit.
    pub(crate) fn read(letter: u8, fields: &mut Fields<'a>) -> Option<Self> {
        Some(match letter {
            b'o' => Output::Open {
                max_frame_size: fields.number(u32::MAX)?,
                channel_max: fields.number(u16::MAX)?,
                idle_time_out: idle_time_out(fields)?,
                container_id: fields.bytes(MOST)?,
            },
            b'c' => Output::Close,
            b'e' => {
                let described = fields.number(u64::MAX)? != 0;
                let condition = fields.bytes(MOST)?;
                let description = fields.bytes(4096)?;
                Output::CloseWithError {
                    condition,
                    description: described.then_some(description),
                }
            }
            b't' => Output::Empty,
            b'w' => Output::SessionFrame {
                highest: fields.number(u16::MAX)?,
                frame: fields.bytes(MOST)?,
            },
            _ => return None,
        })
    }

    fn write(&self, limit: u32, out: &mut [u8]) -> Result<usize, Refusal> {
        match *self {
            Output::Open {
                max_frame_size,
                channel_max,
                idle_time_out,
                container_id,
            } => {
                let settings = Settings {
                    container_id,
                    max_frame_size,
                    channel_max,
                    idle_time_out,
                };
                frame_encoder::write_open(&settings, limit, out)
            }
            Output::Close => frame_encoder::write_close(limit, out),
            Output::CloseWithError {
                condition,
                description,
            } => {
                let error = ErrorText {
                    condition,
                    description,
                };
                frame_encoder::write_close_with_error(&error, limit, out)
            }
            Output::Empty => frame_encoder::write_empty(limit, out),
            Output::SessionFrame { highest, frame } => {
                session_frame::write(frame, highest, limit, out)
            }
        }
    }

    // Writes to a lent output that holds the pattern, and compares what was written with the bytes that the wanted answer says.
    pub(crate) fn answer(
        &self,
        rt: &impl Print,
        room: usize,
        limit: u32,
        wanted: &[u8],
        rooms: &mut Rooms,
    ) -> io::Result<Answer> {
        let (Some(out), Some(pattern)) = (rooms.out.get_mut(..room), rooms.beside.get_mut(..room))
        else {
            return Ok(Answer::BadLine);
        };
        fill(out);
        fill(pattern);
        let n = match self.write(limit, out) {
            Ok(n) => n,
            Err(refusal) if *out == *pattern => return Ok(Answer::Refused(refusal)),
            Err(refusal) => return Ok(Answer::Touched(usize::from(refusal.number()))),
        };
        if out.get(n..) != pattern.get(n..) {
            return Ok(Answer::Touched(n));
        }
        let written = out.get(..n).unwrap_or(out);
        let length = words::hex(words::word(wanted, 1), &mut rooms.beside);
        if written == rooms.beside.get(..length).unwrap_or_default() {
            return Ok(Answer::Wrote);
        }
        for byte in written {
            print!(rt; "{byte:02x}")?;
        }
        println!(rt)?;
        Ok(Answer::Differs(n))
    }
}
