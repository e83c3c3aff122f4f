// An error among the fields: its condition as a symbol, and what is kept of the values after it.
ghost use Rattle.std.specs.Prelude.{◌≡◌, ◌+◌, ◌≤◌, length};
ghost use Rattle.octets.specs.Octets.{put};
ghost use Rattle.values.specs.Answers.{well_formed};
ghost use Rattle.performatives.specs.Fields.{Error};
ghost use Rattle.session_frame.specs.Session.{shortest};
ghost use Rattle.session_frame.specs.Parts.{Sized, size_of, Room, others_of, parts_joined, PartsOf};

use crate::field::{Kept, Size, before, put_null, text_of};
use serializer::Text;
use values::is_null;

// An error's condition lies from `from` to `end`; of the values after it, `count` are kept, which take `len` bytes.
#[derive(Clone, Copy)]
struct ErrorParts {
    from: usize,
    end: usize,
    count: usize,
    len: usize,
}

// What is kept of the `count` values after an error's condition, which have to fill `s`.
fn trim_values(s: &[u8], count: u32) -> Option<Kept>
    ensures { well_formed result ≡ others_of count s.now }
{
    if count == 0 {
        if s.len() == 0 {
            return Some(Kept { count: 0, len: 0 });
        }
        return None;
    }
    let n = values::value_end(s, 14)?;
    let rest = trim_values(&s[n..], count - 1)?;
    Some(before(
        Size {
            len: n,
            null: is_null(s),
        },
        rest,
    ))
}

fn error_parts(f: &[u8]) -> Option<ErrorParts>
    requires { Sized Error f.now }
    ensures { PartsOf f.now result }
{
    let list = performatives::described_list(f)?;
    let items = &f[list.from..list.end];
    let n = values::value_end(items, 14)?;
    let rest = trim_values(&items[n..], list.count - 1)?;
    Some(ErrorParts {
        from: list.from,
        end: list.from + n,
        count: rest.count,
        len: rest.len,
    })
}

// How many bytes the condition as a symbol takes, and what is kept of the values after it.
fn parts_len(f: &[u8], parts: ErrorParts) -> usize
    requires { (parts.from ≤ parts.end) × (parts.end + parts.len ≤ length f.now) }
    ensures { result ≡ length (parts_joined f.now parts.from parts.end parts.len) }
{
    serializer::text_len(text_of(&f[parts.from..parts.end]), Text::Symbol) + parts.len
}

fn put_parts(out: &mut [u8], at: usize, f: &[u8], parts: ErrorParts)
    requires { (parts.from ≤ parts.end) × (parts.end + parts.len ≤ length f.now) × Room out.old at (parts_joined f.now parts.from parts.end parts.len) }
    ensures { out.new ≡ put out.old at (parts_joined f.now parts.from parts.end parts.len) }
{
    let condition = text_of(&f[parts.from..parts.end]);
    let next = at + serializer::text_len(condition, Text::Symbol);
    serializer::put_text(out, at, Text::Symbol, condition);
    octets::copy(out, next, &f[parts.end..parts.end + parts.len]);
}

pub(crate) fn error_size(f: &[u8]) -> Size
    requires { Sized Error f.now }
    ensures { result ≡ size_of (shortest Error f.now) }
{
    let Some(parts) = error_parts(f) else {
        return Size { len: 1, null: true };
    };
    let size = parts_len(f, parts);
    Size {
        len: serializer::composite_header_len(parts.count + 1, size, 29) + size,
        null: false,
    }
}

pub(crate) fn put_error(out: &mut [u8], at: usize, f: &[u8])
    requires { Sized Error f.now × Room out.old at (shortest Error f.now) }
    ensures { out.new ≡ put out.old at (shortest Error f.now) }
{
    let Some(parts) = error_parts(f) else {
        put_null(out, at);
        return;
    };
    let count = parts.count + 1;
    let size = parts_len(f, parts);
    let start = at + serializer::composite_header_len(count, size, 29);
    serializer::put_composite_header(out, at, 29, count as u8, size as u32);
    put_parts(out, start, f, parts);
}
