// A field by its type: how many bytes it takes as it is written, and how it is laid.
ghost use Rattle.std.specs.Prelude.{◌≡◌, false, [], ◌∷◌, ◌+◌, ◌*◌, ◌^◌, ◌<◌, length};
ghost use Rattle.octets.specs.Octets.{big_endian, put};
ghost use Rattle.values.specs.Null.{is_null, or_null};
ghost use Rattle.performatives.specs.Answers.{type_says, field_says};
ghost use Rattle.session_frame.specs.Session.{text_of, default_of, shortest, written_field};
ghost use Rattle.session_frame.specs.Parts.{number_bytes, text_start, Sized, size_of, kept_before, Room};

use crate::error::{error_size, put_error};
use performatives::{Field, FieldType, starts_with};
use serializer::Text;
use values::is_null;

// How many bytes a field takes, and whether it is null.
#[derive(Clone, Copy)]
pub(crate) struct Size {
    pub(crate) len: usize,
    pub(crate) null: bool,
}

// How many fields are left without the trailing nulls, and how many bytes they take.
#[derive(Clone, Copy)]
pub(crate) struct Kept {
    pub(crate) count: usize,
    pub(crate) len: usize,
}

// What is kept of a field and the fields after it.
pub(crate) fn before(field: Size, rest: Kept) -> Kept
    requires { (rest.count + 1 < 2 ^ 64) × (rest.len + field.len < 2 ^ 64) }
    ensures { result ≡ kept_before field rest }
{
    let more = Kept {
        count: rest.count + 1,
        len: rest.len + field.len,
    };
    if 0 < rest.count {
        return more;
    }
    if field.null {
        return Kept { count: 0, len: 0 };
    }
    more
}

// What stands after the format code.
fn number_of(f: &[u8]) -> u64
    ensures { (result ≡ big_endian (number_bytes f.now)) × (result < 2 ^ (8 * length (number_bytes f.now))) }
{
    if f.len() == 0 {
        return 0;
    }
    octets::number(&f[1..])
}

// Where the bytes of a string or a symbol begin.
fn text_start(f: &[u8]) -> usize
    ensures { result ≡ text_start f.now }
{
    if starts_with(f, &[0xa1, 0xa3]) {
        return 2;
    }
    5
}

pub(crate) fn text_of(f: &[u8]) -> &[u8]
    ensures { result.now ≡ text_of f.now }
{
    let from = text_start(f);
    if f.len() < from {
        return &f[..0];
    }
    &f[from..]
}

fn default_size(row: Field) -> Size
    ensures { result ≡ size_of (default_of (type_says row.kind) row.default) }
{
    let null = Size { len: 1, null: true };
    let Some(n) = row.default else {
        return null;
    };
    match row.kind {
        FieldType::Any => null,
        FieldType::UShort => Size {
            len: 3,
            null: false,
        },
        FieldType::UInt => Size {
            len: serializer::uint_len(n),
            null: false,
        },
        FieldType::String => null,
        FieldType::Error => null,
    }
}

pub(crate) fn put_null(out: &mut [u8], at: usize)
    ensures { out.new ≡ put out.old at (0x40 ∷ []) }
{
    octets::put_number(out, at, 1, 0x40);
}

fn put_default(out: &mut [u8], at: usize, row: Field)
    ensures { out.new ≡ put out.old at (default_of (type_says row.kind) row.default) }
{
    let Some(n) = row.default else {
        put_null(out, at);
        return;
    };
    match row.kind {
        FieldType::Any => put_null(out, at),
        FieldType::UShort => serializer::put_ushort(out, at, (n % 65536) as u16),
        FieldType::UInt => serializer::put_uint(out, at, n),
        FieldType::String => put_null(out, at),
        FieldType::Error => put_null(out, at),
    }
}

fn shortest_size(f: &[u8], kind: FieldType) -> Size
    requires { Sized (type_says kind) f.now × (is_null f.now ≡ false) }
    ensures { result ≡ size_of (shortest (type_says kind) f.now) }
{
    match kind {
        FieldType::Any => Size {
            len: f.len(),
            null: false,
        },
        FieldType::UShort => Size {
            len: 3,
            null: false,
        },
        FieldType::UInt => Size {
            len: serializer::uint_len(number_of(f) as u32),
            null: false,
        },
        FieldType::String => Size {
            len: serializer::text_len(text_of(f), Text::String),
            null: false,
        },
        FieldType::Error => error_size(f),
    }
}

fn put_shortest(out: &mut [u8], at: usize, f: &[u8], kind: FieldType)
    requires { Sized (type_says kind) f.now × Room out.old at (shortest (type_says kind) f.now) }
    ensures { out.new ≡ put out.old at (shortest (type_says kind) f.now) }
{
    match kind {
        FieldType::Any => octets::copy(out, at, f),
        FieldType::UShort => serializer::put_ushort(out, at, number_of(f) as u16),
        FieldType::UInt => serializer::put_uint(out, at, number_of(f) as u32),
        FieldType::String => serializer::put_text(out, at, Text::String, text_of(f)),
        FieldType::Error => put_error(out, at, f),
    }
}

// The size of a field as it is written; nothing stands for a field that is missing.
pub(crate) fn field_size(f: &[u8], row: Field) -> Size
    requires { Sized (type_says row.kind) (or_null f.now) }
    ensures { result ≡ size_of (written_field (field_says row) (or_null f.now)) }
{
    if is_null(f) {
        return default_size(row);
    }
    shortest_size(f, row.kind)
}

// Lays a field, and answers where the next one begins.
pub(crate) fn put_field(out: &mut [u8], at: usize, f: &[u8], row: Field) -> usize
    requires { Sized (type_says row.kind) (or_null f.now) × Room out.old at (written_field (field_says row) (or_null f.now)) }
    ensures { (result ≡ at + length (written_field (field_says row) (or_null f.now))) × (out.new ≡ put out.old at (written_field (field_says row) (or_null f.now))) }
{
    let next = at + field_size(f, row).len;
    if is_null(f) {
        put_default(out, at, row);
        return next;
    }
    put_shortest(out, at, f, row.kind);
    next
}
