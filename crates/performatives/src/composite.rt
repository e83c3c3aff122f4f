// A descriptor and a list at the front of bytes, and their parts.
ghost use Rattle.std.specs.Prelude.{◌≡◌, ◌≤◌, ◌<◌};
ghost use Rattle.octets.specs.Octets.{starts_with};
ghost use Rattle.values.specs.Answers.{well_formed};
ghost use Rattle.performatives.specs.Performative.{sized, list_at, descriptor, described};
ghost use Rattle.performatives.specs.Answers.{described_says};
ghost use Rattle.performatives.specs.Inner.{items_says, is_short};

use crate::Described;

// A list at the front of bytes: how many values it says it has, and from where to where they lie.
#[derive(Clone, Copy)]
struct Items {
    count: u32,
    from: usize,
    end: usize,
}

// Whether `s` starts with one of these format codes.
pub fn starts_with(s: &[u8], codes: &[u8]) -> bool
    ensures { result ≡ starts_with codes.now s.now }
{
    match s.first() {
        Some(code) => codes.contains(code),
        None => false,
    }
}

// After a list's format code: a size and a count of `w` bytes each, and its values.
fn sized(s: &[u8], w: usize) -> Option<Items>
    requires { (1 ≤ w) × (w ≤ 4) }
    ensures { items_says result ≡ sized w s.now }
{
    let counted = 1 + w;
    if s.len() < counted {
        return None;
    }
    let size = octets::number(&s[1..counted]) as usize;
    if s.len() - counted < size {
        return None;
    }
    if size < w {
        return None;
    }
    let from = counted + w;
    let count = octets::number(&s[counted..from]) as u32;
    Some(Items {
        count,
        from,
        end: counted + size,
    })
}

fn list_at(s: &[u8]) -> Option<Items>
    ensures { items_says result ≡ list_at s.now }
{
    if starts_with(s, &[0x45]) {
        return Some(Items {
            count: 0,
            from: 1,
            end: 1,
        });
    }
    if starts_with(s, &[0xc0]) {
        return sized(s, 1);
    }
    if starts_with(s, &[0xd0]) {
        return sized(s, 4);
    }
    None
}

// 00 and a ulong, which names a type: its number, and where it ends.
fn descriptor_at(s: &[u8]) -> Option<(u64, usize)>
    ensures { well_formed result ≡ descriptor s.now }
{
    if !starts_with(s, &[0]) {
        return None;
    }
    let ulong = &s[1..];
    if !starts_with(ulong, &[0x80, 0x53, 0x44]) {
        return None;
    }
    let n = values::value_end(ulong, 1)?;
    Some((octets::number(&ulong[1..n]), 1 + n))
}

// A descriptor and a list at the front of `s`: the descriptor's number, how many values the list has, and from where to where they lie.
pub(crate) fn any_described(s: &[u8]) -> Option<Described>
    ensures { described_says result ≡ described s.now }
{
    let (code, at) = descriptor_at(s)?;
    let Items { count, from, end } = list_at(&s[at..])?;
    Some(Described {
        code,
        count,
        from: at + from,
        end: at + end,
    })
}

// Whether there are 00, a ulong of one byte, the code of a list with a size of one byte, and two bytes after it.
pub(crate) fn is_short(s: &[u8]) -> bool
    ensures { result ≡ is_short s.now }
{
    if s.len() < 6 {
        return false;
    }
    if s[0] != 0 {
        return false;
    }
    if s[1] != 0x53 {
        return false;
    }
    s[3] == 0xc0
}
