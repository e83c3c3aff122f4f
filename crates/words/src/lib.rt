// The words of a line, and what they say: decimal numbers, and bytes in hexadecimal.
#![tactic(auto)]

ghost use Rattle.std.specs.Prelude.{◌≡◌};
ghost use Rattle.words.specs.Words.{
  part_in,
  place_from,
  is_byte,
  other_than,
  word_in,
  digit_of,
  decimal_in,
  byte_of,
  Spelled,
};

// The part of s from one place to another, as far as s goes.
pub fn part(s: &[u8], from: usize, end: usize) -> &[u8]
    ensures { result.now ≡ part_in from end s.now }
{
    if end < from {
        return &s[..0];
    }
    if s.len() < from {
        return &s[..0];
    }
    if s.len() < end {
        return &s[from..];
    }
    &s[from..end]
}

// The first place from `from` on where s has the byte b; the end where there is none.
pub fn find(s: &[u8], from: usize, b: u8) -> usize
    ensures { result ≡ place_from (is_byte b) from s.now }
{
    from + s.iter().skip(from).take_while(|c| **c != b).count()
}

// The first place from `from` on where s has a byte other than b; the end where there is none.
pub fn skip(s: &[u8], from: usize, b: u8) -> usize
    ensures { result ≡ place_from (other_than b) from s.now }
{
    from + s.iter().skip(from).take_while(|c| **c == b).count()
}

// The n-th word of a line, counted from 0; nothing where the line has fewer.
pub fn word(line: &[u8], n: usize) -> &[u8]
    ensures { result.now ≡ word_in n line.now }
{
    let mut at = 0;
    for _passed in 0..n {
        at = find(line, skip(line, at, b' '), b' ');
    }
    let from = skip(line, at, b' ');
    part(line, from, find(line, from, b' '))
}

// What a digit stands for, a hexadecimal one too.
pub fn digit(b: u8) -> Option<u8>
    ensures { result ≡ digit_of b }
{
    let place = b"0123456789ABCDEF".iter().position(|d| *d == b)?;
    Some(place as u8)
}

// The decimal number that s starts with; of its digits nineteen count.
pub fn decimal(s: &[u8]) -> u64
    ensures { result ≡ decimal_in s.now }
{
    let mut n = 0;
    for b in s {
        let Some(d) = digit(*b) else {
            return n;
        };
        if 10 <= d {
            return n;
        }
        if 1_000_000_000_000_000_000 <= n {
            return n;
        }
        n = n * 10 + u64::from(d);
    }
    n
}

// The byte that two digits say.
fn byte(high: u8, low: u8) -> u8
    ensures { result ≡ byte_of high low }
{
    digit(high).unwrap_or(0) * 16 + digit(low).unwrap_or(0)
}

// Lays the bytes that a word says, two digits each, into the front of `out`, and answers how many they are. Those that find no room are left out.
pub fn hex(w: &[u8], out: &mut [u8]) -> usize
    ensures { Spelled w.now result out.old out.new }
{
    let n = (w.len() / 2).min(out.len());
    for i in 0..n {
        out[i] = byte(w[2 * i], w[2 * i + 1]);
    }
    n
}
