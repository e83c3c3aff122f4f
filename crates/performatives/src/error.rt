// Errors in a field: whether a value is one, and where the text of its condition lies.
ghost use Rattle.std.specs.Prelude.{◌≡◌, true, false, ◌+◌, ◌-◌, ◌^◌, ◌≤◌, ◌<◌, length, Some};
ghost use Rattle.octets.specs.Verdict.{accept};
ghost use Rattle.values.specs.Value.{value_end};
ghost use Rattle.values.specs.Null.{is_null};
ghost use Rattle.performatives.specs.Fields.{Error};
ghost use Rattle.performatives.specs.Performative.{described, is_error, fits, when_not, text_at, condition_at};
ghost use Rattle.performatives.specs.Answers.{condition_says};
ghost use Rattle.performatives.specs.Inner.{skip, value_at, text_from};

use crate::Condition;
use crate::composite::{any_described, starts_with};
use values::is_null;

// Descriptor 29 with one to three fields, the first a symbol.
pub(crate) fn is_error(f: &[u8]) -> bool
    ensures { result ≡ is_error f.now }
{
    let Some(list) = any_described(f) else {
        return false;
    };
    if list.code != 29 {
        return false;
    }
    if list.count < 1 {
        return false;
    }
    if 3 < list.count {
        return false;
    }
    starts_with(&f[list.from..list.end], &[0xa3, 0xb3])
}

// The text of a symbol or a string at the front of `s`, which stands at place `at`.
fn text(s: &[u8], at: usize) -> Condition
    requires { (text_from s.now ≤ length s.now) × (at + length s.now < 2 ^ 64) }
    ensures { condition_says (Some result) ≡ text_at at s.now }
{
    if starts_with(s, &[0xa1, 0xa3]) {
        return Condition {
            from: at + 2,
            len: octets::number(&s[1..2]) as usize,
        };
    }
    Condition {
        from: at + 5,
        len: octets::number(&s[1..5]) as usize,
    }
}

// The condition of an error that stands at place `at`: its first field.
fn error_condition(f: &[u8], at: usize) -> Option<Condition>
    requires { (is_error f.now ≡ true) × (value_end 16 f.now ≡ accept (length f.now)) × (at + length f.now < 2 ^ 64) }
    ensures { condition_says result ≡ condition_at at f.now (described f.now) }
{
    let list = any_described(f)?;
    Some(text(&f[list.from..list.end], at + list.from))
}

// The condition of the error in field `i`, which is the last that a performative may have: so it begins at `last`, where `count` says that it is there. The
// fields begin at place `from`.
pub(crate) fn condition_in(
    s: &[u8],
    i: u32,
    count: u32,
    last: usize,
    from: usize,
) -> Option<Condition>
    requires { (fits Error false (value_at i s.now) ≡ true) × (from + length s.now < 2 ^ 64) × (last ≡ skip (count - 1) s.now) × (skip count s.now ≡ length s.now) × (count ≤ i + 1) }
    ensures { condition_says result ≡ when_not (is_null (value_at i s.now)) (condition_at (from + skip i s.now) (value_at i s.now) (described (value_at i s.now))) }
{
    if count <= i {
        return None;
    }
    let f = &s[last..];
    if is_null(f) {
        return None;
    }
    error_condition(f, from + last)
}
