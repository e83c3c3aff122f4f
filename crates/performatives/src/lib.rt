// Performatives, read from the bodies of frames: which it is, whether its fields are well formed and of their types, and what the layers above learn of it.
#![tactic(auto)]

mod composite;
mod error;
mod fields;
mod values_of;

ghost use Rattle.std.specs.Prelude.{◌≡◌, [], ◌∷◌, ◌+◌, ◌^◌, ◌≤◌, ◌<◌, length};
ghost use Rattle.octets.specs.Verdict.{accept, and_then};
ghost use Rattle.values.specs.Null.{is_null};
ghost use Rattle.performatives.specs.Fields.{field_at};
ghost use Rattle.performatives.specs.Performative.{described, number_of, performative_by, when_not, said, performative_said};
ghost use Rattle.performatives.specs.Answers.{row_says, described_says, channel_says, performative_says, body_says};
ghost use Rattle.performatives.specs.Inner.{value_at, open_says};

pub use composite::starts_with;
use composite::{any_described, is_short};
use error::condition_in;
use fields::{fields, row_named, rows_of};
use values::is_null;
use values_of::{item, next, number_in, skip};

// The type of a field. The value of an `Any` field is not looked into.
#[derive(Clone, Copy, Debug, PartialEq, Eq)]
pub enum FieldType {
    Any,
    UShort,
    UInt,
    String,
    Error,
}

// What the table says of a field. Null in it stands for the number `default`, if there is one.
#[derive(Clone, Copy, Debug, PartialEq, Eq)]
pub struct Field {
    pub kind: FieldType,
    pub mandatory: bool,
    pub default: Option<u32>,
}

// A descriptor and a list: the descriptor's number, how many values the list has, and from where to where they lie.
#[derive(Clone, Copy, Debug, PartialEq, Eq)]
pub struct Described {
    pub code: u64,
    pub count: u32,
    pub from: usize,
    pub end: usize,
}

// The condition of an error: where its text begins in the body, and how long it is.
#[derive(Clone, Copy, Debug, PartialEq, Eq)]
pub struct Condition {
    pub from: usize,
    pub len: usize,
}

// A Begin has its remote-channel, and a Detach, an End and a Close have their error's condition, if any. An idle-time-out of zero is none.
#[derive(Clone, Copy, Debug, PartialEq, Eq)]
pub enum Performative {
    Open {
        max_frame_size: u32,
        channel_max: u16,
        idle_time_out: u32,
    },
    Begin(Option<u16>),
    Attach,
    Flow,
    Transfer,
    Disposition,
    Detach(Option<Condition>),
    End(Option<Condition>),
    Close(Option<Condition>),
}

// A performative, and where it ends in the body.
#[derive(Clone, Copy, Debug, PartialEq, Eq)]
pub struct Body {
    pub performative: Performative,
    pub end: usize,
}

// The row of field `i` of the performative with this descriptor. There is none past its last field, and where there is no such performative.
pub fn field_row(code: u64, i: usize) -> Option<Field>
    ensures { row_says result ≡ field_at code i }
{
    if 14 <= i {
        return None;
    }
    row_named((rows_of(code) >> (4 * i)) % 16)
}

// A descriptor and a list at the front of `s`. At once where the descriptor and the size have one byte each, as most do.
pub fn described_list(s: &[u8]) -> Option<Described>
    ensures { described_says result ≡ described s.now }
{
    if is_short(s) {
        let size = octets::wide(s[4]) as usize;
        if 0 < size {
            if size <= s.len() - 5 {
                return Some(Described {
                    code: octets::wide(s[2]),
                    count: octets::wide(s[5]) as u32,
                    from: 6,
                    end: 5 + size,
                });
            }
        }
    }
    any_described(&s[..])
}

// The third field lies from `a` to `b`, the fourth from there to `c`, and the fifth from there to `d`.
fn open(s: &[u8]) -> Performative
    requires { (length (value_at 2 s.now) ≤ 5) × (length (value_at 3 s.now) ≤ 3) × (length (value_at 4 s.now) ≤ 5) }
    ensures { performative_says result ≡ (16, open_says (value_at 2 s.now) (value_at 3 s.now) (value_at 4 s.now)) }
{
    let a = skip(s, 2);
    let b = next(s, a);
    let c = next(s, b);
    let d = next(s, c);
    let max_frame_size = number_in(s, a, b, 4294967295) as u32;
    let channel_max = number_in(s, b, c, 65535) as u16;
    let idle_time_out = number_in(s, c, d, 0) as u32;
    Performative::Open {
        max_frame_size,
        channel_max,
        idle_time_out,
    }
}

fn remote_channel(s: &[u8]) -> Option<u16>
    requires { length (value_at 0 s.now) ≤ 3 }
    ensures { channel_says result ≡ when_not (is_null (value_at 0 s.now)) (number_of (value_at 0 s.now) ∷ []) }
{
    let f = item(s, 0);
    if is_null(f) {
        return None;
    }
    Some(octets::number(&f[1..]) as u16)
}

// A performative by its descriptor and its fields, which are `count` values that fill `s`. They lie from place `from` to place `end` of the body.
fn performative_in(s: &[u8], code: u64, count: u32, from: usize, end: usize) -> Option<Body>
    requires { from + length s.now < 2 ^ 64 }
    ensures { body_says result ≡ and_then (performative_by (record { code = code; count = count; from = from; end = end }) s.now) (λ p. accept (said p)) }
{
    let last = fields(s, code, count)?;
    let performative = match code {
        16 => open(s),
        17 => Performative::Begin(remote_channel(s)),
        18 => Performative::Attach,
        19 => Performative::Flow,
        20 => Performative::Transfer,
        21 => Performative::Disposition,
        22 => Performative::Detach(condition_in(s, 2, count, last, from)),
        23 => Performative::End(condition_in(s, 0, count, last, from)),
        24 => Performative::Close(condition_in(s, 0, count, last, from)),
        _ => return None,
    };
    Some(Body { performative, end })
}

// The performative that a frame's body starts with, and where it ends. What stands after it is not looked at.
pub fn read(body: &[u8]) -> Option<Body>
    ensures { body_says result ≡ performative_said body.now }
{
    let Described {
        code,
        count,
        from,
        end,
    } = described_list(body)?;
    performative_in(&body[from..end], code, count, from, end)
}
