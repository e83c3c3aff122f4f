// The values of a list, found one after the other, and the number in one.
ghost use Rattle.std.specs.Prelude.{◌≡◌, ◌-◌, ◌≤◌, length, take, drop};
ghost use Rattle.values.specs.Null.{or_null};
ghost use Rattle.performatives.specs.Inner.{next, skip, item, NumberRead};

use values::DEPTH;

// The place after the value at a place; the place itself where there is none.
pub(crate) fn next(s: &[u8], at: usize) -> usize
    ensures { result ≡ next s.now at }
{
    let end = values::end_at(s, at, DEPTH);
    if end == 0 {
        return at;
    }
    end
}

// Where value `i` of those in `s` begins; where they end, if there are not so many.
pub(crate) fn skip(s: &[u8], i: usize) -> usize
    ensures { result ≡ skip i s.now }
{
    let mut at: usize = 0;
    for _k in 0..i {
        at = next(s, at);
    }
    at
}

// The bytes of value `i` of those in `s`; none, if there are not so many.
pub(crate) fn item(s: &[u8], i: usize) -> &[u8]
    ensures { result.now ≡ item i s.now }
{
    let at = skip(s, i);
    let end = next(s, at);
    &s[at..end]
}

// The number in the field between two places, or another in the place of null. A field that is missing is null.
pub(crate) fn number_in(s: &[u8], at: usize, end: usize, other: u64) -> u64
    requires { (end ≤ length s.now) × (length (or_null (take (end - at) (drop at s.now))) ≤ 9) }
    ensures { NumberRead other (or_null (take (end - at) (drop at s.now))) result }
{
    if end <= at {
        return other;
    }
    if s[at] == 0x40 {
        return other;
    }
    octets::number(&s[at + 1..end])
}
