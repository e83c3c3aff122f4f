// Whether octets are text: UTF-8 or ASCII.
#![tactic(auto)]

ghost use Rattle.std.specs.Prelude.{◌≡◌, ◌≤◌, length};
ghost use Rattle.text.specs.Ascii.{ascii};
ghost use Rattle.text.specs.Utf8.{in_range, utf8};
ghost use Rattle.text.specs.Character.{followed, char_length};

fn within(b: u8, low: u8, high: u8) -> bool
    ensures { result ≡ in_range (low, high) b }
{
    if b < low {
        return false;
    }
    b <= high
}

// n where the first octet is followed by one from low to high and then by tails, n octets in all.
fn followed(s: &[u8], n: usize, low: u8, high: u8) -> Option<usize>
    requires { 2 ≤ n }
    ensures { result ≡ followed n low high s.now }
{
    if s.len() < n {
        return None;
    }
    if !within(s[1], low, high) {
        return None;
    }
    if !s[2..n].iter().all(|b| within(*b, 0x80, 0xBF)) {
        return None;
    }
    Some(n)
}

// How many octets the character has that `s` starts with, if it starts with one. The arms are the rows of RFC 3629, section 4.
fn char_length(s: &[u8]) -> Option<usize>
    ensures { result ≡ char_length s.now }
{
    if s.len() == 0 {
        return None;
    }
    match s[0] {
        0x00..=0x7F => Some(1),
        0xC2..=0xDF => followed(s, 2, 0x80, 0xBF),
        0xE0 => followed(s, 3, 0xA0, 0xBF),
        0xE1..=0xEC => followed(s, 3, 0x80, 0xBF),
        0xED => followed(s, 3, 0x80, 0x9F),
        0xEE..=0xEF => followed(s, 3, 0x80, 0xBF),
        0xF0 => followed(s, 4, 0x90, 0xBF),
        0xF1..=0xF3 => followed(s, 4, 0x80, 0xBF),
        0xF4 => followed(s, 4, 0x80, 0x8F),
        _ => None,
    }
}

// Whether `s` is UTF-8, as RFC 3629 has it: no overlong form, no surrogate, nothing above 10FFFF. Most texts are ASCII, which is told faster.
// Not std's `from_utf8`: the edits of must-fail/ make `within`, `followed` and `char_length` wrong, row by row.
pub fn is_utf8(s: &[u8]) -> bool
    ensures { result ≡ utf8 s.now }
{
    if is_ascii(s) {
        return true;
    }
    let mut rest = s;
    while let Some(n) = char_length(rest) {
        rest = &rest[n..];
    }
    rest.is_empty()
}

// Whether every octet of `s` is below 128.
pub fn is_ascii(s: &[u8]) -> bool
    ensures { result ≡ ascii s.now }
{
    s.is_ascii()
}
