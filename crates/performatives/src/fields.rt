// The table of fields, and whether the values of a list may stand in the fields of a performative.
ghost use Rattle.std.specs.Prelude.{◌≡◌};
ghost use Rattle.values.specs.Answers.{well_formed};
ghost use Rattle.performatives.specs.Fields.{may, must, defaults};
ghost use Rattle.performatives.specs.Performative.{fits};
ghost use Rattle.performatives.specs.Answers.{type_says, field_says, row_says};
ghost use Rattle.performatives.specs.Inner.{row_named, RowsIn, suits, last_of};

use crate::composite::starts_with;
use crate::error::is_error;
use crate::{Field, FieldType};
use values::DEPTH;

// The letters of the words below: what a field is. One that is mandatory begins with MUST, and in one that ends with MAX null stands for the greatest number.
// F is past the last field.
const ANY: u64 = 0;

const STRING: u64 = 1;

const MUST_STRING: u64 = 2;

const UINT: u64 = 3;

const MUST_UINT: u64 = 4;

const UINT_OR_MAX: u64 = 5;

const USHORT: u64 = 6;

const USHORT_OR_MAX: u64 = 7;

const ERROR: u64 = 8;

// A word for each performative. Its last fourteen hexadecimal digits are the letters of its fields, the last one that of the first field; before them stands
// the least number of fields such that none that is mandatory is missing. A `match`, since an array would be laid on the stack at each use.
pub(crate) fn rows_of(code: u64) -> u64
    ensures { RowsIn code result }
{
    match code {
        16 => 0x01_ffff0000037512, // Open
        17 => 0x04_ffffff00054446, // Begin
        18 => 0x00_00000000000000, // Attach
        19 => 0x00_fff00000000000, // Flow
        20 => 0x00_fff00000000000, // Transfer
        21 => 0x00_ffffffff000000, // Disposition
        22 => 0x00_fffffffffff800, // Detach
        23 => 0x00_fffffffffffff8, // End
        24 => 0x00_fffffffffffff8, // Close
        _ => 0x00_ffffffffffffff,
    }
}

fn may(kind: FieldType) -> Field
    ensures { field_says result ≡ may (type_says kind) }
{
    Field {
        kind,
        mandatory: false,
        default: None,
    }
}

fn must(kind: FieldType) -> Field
    ensures { field_says result ≡ must (type_says kind) }
{
    Field {
        kind,
        mandatory: true,
        default: None,
    }
}

fn defaults(kind: FieldType, n: u32) -> Field
    ensures { field_says result ≡ defaults (type_says kind) n }
{
    Field {
        kind,
        mandatory: false,
        default: Some(n),
    }
}

// The row that a letter stands for; there is none past the last field.
pub(crate) fn row_named(letter: u64) -> Option<Field>
    ensures { row_says result ≡ row_named letter }
{
    match letter {
        ANY => Some(may(FieldType::Any)),
        STRING => Some(may(FieldType::String)),
        MUST_STRING => Some(must(FieldType::String)),
        UINT => Some(may(FieldType::UInt)),
        MUST_UINT => Some(must(FieldType::UInt)),
        UINT_OR_MAX => Some(defaults(FieldType::UInt, 4294967295)),
        USHORT => Some(may(FieldType::UShort)),
        USHORT_OR_MAX => Some(defaults(FieldType::UShort, 65535)),
        ERROR => Some(may(FieldType::Error)),
        _ => None,
    }
}

// Whether a value may stand in a field.
fn fits(f: &[u8], kind: FieldType, mandatory: bool) -> bool
    ensures { result ≡ fits (type_says kind) mandatory f.now }
{
    if starts_with(f, &[0x40]) {
        return !mandatory;
    }
    match kind {
        FieldType::Any => true,
        FieldType::UShort => starts_with(f, &[0x60]),
        FieldType::UInt => starts_with(f, &[0x70, 0x52, 0x43]),
        FieldType::String => starts_with(f, &[0xa1, 0xb1]),
        FieldType::Error => is_error(f),
    }
}

// Whether a value may stand in the field that a letter stands for.
fn suits(f: &[u8], letter: u64) -> bool
    ensures { result ≡ suits (row_named letter) f.now }
{
    let Some(field) = row_named(letter) else {
        return false;
    };
    fits(f, field.kind, field.mandatory)
}

// Where the last of the `count` values begins that have to fill `s` (0 where there is none); nothing where they may not stand in the fields of a performative.
// Of a value in a field of any type only its end is looked for.
pub(crate) fn fields(s: &[u8], code: u64, count: u32) -> Option<usize>
    ensures { well_formed result ≡ last_of code count s.now }
{
    if 14 < count {
        return None;
    }
    let word = rows_of(code);
    let mut rows = word;
    let mut at: usize = 0;
    let mut last: usize = 0;
    for _i in 0..count {
        let end = values::end_at(s, at, DEPTH);
        if end == 0 {
            return None;
        }
        let letter = rows % 16;
        if letter != ANY {
            if !suits(&s[at..end], letter) {
                return None;
            }
        }
        rows = rows / 16;
        last = at;
        at = end;
    }
    if (count as u64) < word >> 56 {
        return None;
    }
    if at != s.len() {
        return None;
    }
    Some(last)
}
