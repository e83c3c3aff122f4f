// Whether bytes start with one well-formed AMQP 1.0 value, and where it ends.
//
// The functions whose names end in `_end` answer a place: that after what stands at `at`, or 0 where it is malformed. So the answer goes in a register: where
// `other_end` alone answered an `Option`, described values took more instructions than tests/linear.txt allows.
#![tactic(auto)]

mod format_code;
mod null;

ghost use Rattle.std.specs.Prelude.{◌≡◌, ℕ, List, true, cond, ◌+◌, ◌/◌, ◌^◌, ◌<◌, ◌≤◌, eqb, length, take, drop, get_or};
ghost use Rattle.octets.specs.Verdict.{refuse, accept};
ghost use Rattle.octets.specs.Octets.{big_endian};
ghost use Rattle.values.specs.Value.{
  Reader,
  compound,
  kind_of,
  followed_by,
  times,
  bytes,
  boolean_end,
  variable_end,
  paired_in,
  items,
  compound_end,
  run,
  value_end,
};
ghost use Rattle.values.specs.Plain.{is_plain};
ghost use Rattle.values.specs.Answers.{well_formed, place_after, width_of, shape_of, end_in};

use format_code::{Kind, Shape, Width, code_of, fixed_width, is_known, is_plain};
pub use null::is_null;

// A field of a performative stands at the first of so many levels.
pub const DEPTH: u8 = 16;

// The half of C0 and of C1, a list and a map with sizes of one byte. (One test for both: by a `match` on the codes booleans take more than tests/linear.txt allows.)
const SMALL: u8 = 0x60;

// The shape of C0 and of C1.
fn small_shape(c: u8) -> Shape
    requires { c / 2 ≡ 0x60 }
    ensures { kind_of c ≡ accept (compound (shape_of result) 1) }
{
    if c % 2 == 0 { Shape::List } else { Shape::Map }
}

// ---- sizes and counts

// The size or the count at a place.
fn number_at(s: &[u8], at: usize, width: Width) -> usize
    requires { at + width_of width ≤ length s.now }
    ensures { (result ≡ big_endian (take (width_of width) (drop at s.now))) × (result < 2 ^ 32) }
{
    match width {
        Width::One => octets::wide(s[at]) as usize,
        Width::Four => octets::number(&s[at..at + 4]) as usize,
    }
}

// ---- bodies without values in them

fn bytes_end(s: &[u8], at: usize, n: usize) -> usize
    requires { (at ≤ length s.now) × (n < 2 ^ 63) }
    ensures { (result ≡ place_after at (bytes n (drop at s.now))) × (result ≤ length s.now) }
{
    let end = at + n;
    if s.len() < end {
        return 0;
    }
    end
}

// The body of the code 56, a byte that is 00 or 01.
fn boolean_end(s: &[u8], at: usize) -> usize
    requires { at ≤ length s.now }
    ensures { (result ≡ place_after at (boolean_end (drop at s.now))) × (result ≤ length s.now) }
{
    let w = fixed_width(0x56) as usize;
    if s.len() - at < w {
        return 0;
    }
    if 1 < s[at] {
        return 0;
    }
    at + w
}

// A size, and as many bytes.
fn variable_end(s: &[u8], at: usize, width: Width) -> usize
    requires { at ≤ length s.now }
    ensures { (result ≡ place_after at (variable_end (width_of width) (drop at s.now))) × (result ≤ length s.now) }
{
    let w = width.bytes();
    if s.len() - at < w {
        return 0;
    }
    bytes_end(s, at, w + number_at(s, at, width))
}

// As many as `count` says, one after the other, where `next` tells where one ends; 0 where one is malformed.
fn times_end<F: Fn(usize) -> usize>(at: usize, count: usize, next: F) -> usize
    requires first { (0 < at) × F.pre next at }
    requires more { (p r : ℕ) → F.pre next p → F.post next p r → (r ≡ 0 → ⊥) → F.pre next r }
    ensures { (f : Reader) (s : List ℕ) → ((p r : ℕ) → F.pre next p → F.post next p r → r ≡ place_after p (f (drop p s))) → result ≡ place_after at (times count f (drop at s)) }
{
    let mut end = at;
    for _i in 0..count {
        end = next(end);
        if end == 0 {
            return 0;
        }
    }
    end
}

fn booleans_end(s: &[u8], at: usize, count: usize) -> usize
    requires { (0 < at) × (at ≤ length s.now) }
    ensures { result ≡ place_after at (times count boolean_end (drop at s.now)) }
{
    times_end(at, count, |end| boolean_end(s, end))
}

fn variables_end(s: &[u8], at: usize, count: usize, width: Width) -> usize
    requires { (0 < at) × (at ≤ length s.now) }
    ensures { result ≡ place_after at (times count (variable_end (width_of width)) (drop at s.now)) }
{
    times_end(at, count, |end| variable_end(s, end, width))
}

// ---- values

// A value of a plain code: its width, or the byte after the code, tells where it ends.
fn plain_end(s: &[u8], at: usize) -> usize
    requires { (at < length s.now) × (is_plain (get_or s.now at 0) ≡ true) }
    ensures { result ≡ place_after at (value_end 1 (drop at s.now)) }
{
    let c = s[at];
    if c < 0xa0 {
        return bytes_end(s, at + 1, fixed_width(c) as usize);
    }
    variable_end(s, at + 1, Width::One)
}

// As many bodies of a plain code as `count` says.
fn plains_end(s: &[u8], at: usize, count: usize) -> usize
    requires { (at < length s.now) × (is_plain (get_or s.now at 0) ≡ true) × (count < 2 ^ 32) }
    ensures { result ≡ place_after at (run 1 count (drop at s.now)) }
{
    let c = s[at];
    if c < 0xa0 {
        return bytes_end(s, at + 1, count * (fixed_width(c) as usize));
    }
    variables_end(s, at + 1, count, Width::One)
}

// The place after the value at a place, which stands at the first of `depth` levels; 0 where it is malformed, or where there are no bytes. Most values are plain.
// (`&s[..]` is a slice made for the others alone: `s` itself, lent on, would be stored for every value.)
#[cycle(value)]
pub fn end_at(s: &[u8], at: usize, depth: u8) -> usize
    ensures { result ≡ place_after at (value_end depth (drop at s.now)) }
{
    if s.len() <= at {
        return 0;
    }
    if depth == 0 {
        return 0;
    }
    if is_plain(s[at]) {
        return plain_end(s, at);
    }
    other_end(&s[..], at, depth, s[at])
}

// The same of a value of the code `c`, which is not plain. What is often met is told by its code; all else by the table of codes.
#[cycle(value)]
fn other_end(s: &[u8], at: usize, depth: u8, c: u8) -> usize
    requires { (at < length s.now) × (0 < depth) × (c ≡ get_or s.now at 0) }
    ensures { result ≡ place_after at (value_end depth (drop at s.now)) }
{
    if c == 0 {
        return described_end(s, at + 1, depth - 1, 1);
    }
    if c == 0x56 {
        return boolean_end(s, at + 1);
    }
    if c / 2 == SMALL {
        return compound_end(s, at + 1, depth - 1, small_shape(c), Width::One);
    }
    if c == 0xe0 {
        return compound_end(s, at + 1, depth - 1, Shape::Array, Width::One);
    }
    code_end(s, at, depth, 1)
}

// After 00: a value that describes, and a constructor with as many bodies as `count` says.
#[cycle(value)]
fn described_end(s: &[u8], at: usize, depth: u8, count: usize) -> usize
    requires { (at ≤ length s.now) × (count < 2 ^ 32) }
    ensures { result ≡ place_after at (followed_by (run depth 1) (run depth count) (drop at s.now)) }
{
    if depth == 0 {
        return 0;
    }
    let next = end_at(s, at, depth);
    if next == 0 {
        return 0;
    }
    run_end(s, next, depth, count)
}

// A constructor, and as many bodies of it as `count` says: a value is a constructor with one body. It stands at the first of `depth` levels; a value that
// describes, and what is described or stands in a compound, at the next. Where no level is left only a format code with no bodies may stand.
#[cycle(value)]
fn run_end(s: &[u8], at: usize, depth: u8, count: usize) -> usize
    requires { (at ≤ length s.now) × (count < 2 ^ 32) }
    ensures { result ≡ place_after at (run depth count (drop at s.now)) }
{
    if count == 1 {
        return end_at(s, at, depth);
    }
    if s.len() <= at {
        return 0;
    }
    let c = s[at];
    if c == 0 {
        if depth == 0 {
            return 0;
        }
        return described_end(s, at + 1, depth - 1, count);
    }
    if count == 0 {
        if is_known(c) {
            return at + 1;
        }
        return 0;
    }
    if depth == 0 {
        return 0;
    }
    if is_plain(c) {
        return plains_end(s, at, count);
    }
    code_end(s, at, depth, count)
}

// The same of a format code. Bodies of a fixed width are not counted one by one: a count may claim any number of bodies that take no bytes.
#[cycle(value)]
fn code_end(s: &[u8], at: usize, depth: u8, count: usize) -> usize
    requires { (at < length s.now) × (0 < depth) × (get_or s.now at 0 ≡ 0 → ⊥) × (count < 2 ^ 32) }
    ensures { result ≡ place_after at (run depth count (drop at s.now)) }
{
    let from = at + 1;
    let c = s[at];
    if c / 2 == SMALL {
        return compounds_end(s, from, depth - 1, count, small_shape(c), Width::One);
    }
    if c == 0xe0 {
        return compounds_end(s, from, depth - 1, count, Shape::Array, Width::One);
    }
    let Some(kind) = code_of(c) else {
        return 0;
    };
    match kind {
        Kind::Fixed(c) => bytes_end(s, from, count * (fixed_width(c) as usize)),
        Kind::Boolean => booleans_end(s, from, count),
        Kind::Variable(width) => variables_end(s, from, count, width),
        Kind::List(width) => compounds_end(s, from, depth - 1, count, Shape::List, width),
        Kind::Map(width) => compounds_end(s, from, depth - 1, count, Shape::Map, width),
        Kind::Array(width) => compounds_end(s, from, depth - 1, count, Shape::Array, width),
    }
}

// The bodies of a compound. (A loop of its own here and in `items_end`: with both by `times_end`, an array of empty lists took twice the instructions.)
#[cycle(value)]
fn compounds_end(s: &[u8], at: usize, depth: u8, count: usize, shape: Shape, width: Width) -> usize
    requires { (0 < at) × (at ≤ length s.now) }
    ensures { result ≡ place_after at (times count (compound_end (run depth) (shape_of shape) (width_of width)) (drop at s.now)) }
{
    let mut end = at;
    for _i in 0..count {
        end = compound_end(s, end, depth, shape, width);
        if end == 0 {
            return 0;
        }
    }
    end
}

// A size, a count, and as many items as the count says, which have to fill the size.
#[cycle(value)]
fn compound_end(s: &[u8], at: usize, depth: u8, shape: Shape, width: Width) -> usize
    requires { at ≤ length s.now }
    ensures { (result ≡ place_after at (compound_end (run depth) (shape_of shape) (width_of width) (drop at s.now))) × (result ≤ length s.now) }
{
    let end = sized_end(s, at, width);
    if end == 0 {
        return 0;
    }
    let w = width.bytes();
    let count = number_at(s, at + w, width);
    if !paired(shape, count) {
        return 0;
    }
    if items_end(&s[..end], at + w + w, depth, shape, count) == end {
        return end;
    }
    0
}

// The same by the size alone: as many bytes as it says, and in these a count.
fn sized_end(s: &[u8], at: usize, width: Width) -> usize
    requires { at ≤ length s.now }
    ensures { (result ≡ place_after at (end_in (width_of width) (drop at s.now))) × (result ≤ length s.now) }
{
    let w = width.bytes();
    let left = s.len() - at;
    if left < w + w {
        return 0;
    }
    let size = number_at(s, at, width);
    if size < w {
        return 0;
    }
    bytes_end(s, at, w + size)
}

// A map has a value to each key.
#[tactic(auto, unfolding(crate::specs::Value::paired_in))]
fn paired(shape: Shape, count: usize) -> bool
    ensures { result ≡ paired_in (shape_of shape) count }
{
    match shape {
        Shape::List => true,
        Shape::Map => count % 2 == 0,
        Shape::Array => true,
    }
}

// As many values as `count` says, one after the other; of an array, one constructor with as many bodies.
#[cycle(value)]
fn items_end(s: &[u8], at: usize, depth: u8, shape: Shape, count: usize) -> usize
    requires { (0 < at) × (at ≤ length s.now) × (count < 2 ^ 32) }
    ensures { result ≡ place_after at (items (run depth) (shape_of shape) count (drop at s.now)) }
{
    if matches!(shape, Shape::Array) {
        return run_end(s, at, depth, count);
    }
    let mut end = at;
    for _i in 0..count {
        end = end_at(s, end, depth);
        if end == 0 {
            return 0;
        }
    }
    end
}

// A value from place 0 on, by the place after it.
fn value_to(end: usize) -> Option<usize>
    ensures { well_formed result ≡ cond (eqb end 0) (refuse 6) (accept end) }
{
    if end == 0 {
        return None;
    }
    Some(end)
}

// Where the value ends that `s` starts with, which stands at the first of `depth` levels; nothing where it is malformed. What stands inside a list, map, array or described value is a level deeper.
// (Not by `end_at`: `other_end` has two callers, so that the compiler leaves it out of `end_at`, and `end_at` is short enough for the loops of its callers.)
pub fn value_end(s: &[u8], depth: u8) -> Option<usize>
    ensures { well_formed result ≡ value_end depth s.now }
{
    if s.len() == 0 {
        return None;
    }
    if depth == 0 {
        return None;
    }
    if is_plain(s[0]) {
        return value_to(plain_end(s, 0));
    }
    value_to(other_end(&s[..], 0, depth, s[0]))
}
