// The format codes of Part 1: which there are, of which kind each is, and how wide the fixed ones are.
ghost use Rattle.std.specs.Prelude.{◌≡◌, ◌^◌, ◌<◌, ◌≤◌};
ghost use Rattle.values.specs.Value.{kind_of};
ghost use Rattle.values.specs.Widths.{fixed_width};
ghost use Rattle.values.specs.Plain.{is_known, is_plain, BitsOf};
ghost use Rattle.values.specs.Answers.{width_of, code_said};

// The shapes of a compound.
#[derive(Clone, Copy)]
pub(crate) enum Shape {
    List,
    Map,
    Array,
}

// How many bytes a size or a count has.
#[derive(Clone, Copy)]
pub(crate) enum Width {
    One,
    Four,
}

impl Width {
    pub(crate) fn bytes(self) -> usize
        ensures { (result ≡ width_of self) × (result ≤ 4) }
    {
        match self {
            Width::One => 1,
            Width::Four => 4,
        }
    }
}

// What stands after a format code. A fixed one has the code itself, from which its width follows.
// (Each shape is a kind, and so has a loop of its own: with one kind and the shape in it, lists take more instructions than tests/linear.txt allows.)
#[derive(Clone, Copy)]
pub(crate) enum Kind {
    Fixed(u8),
    Boolean,
    Variable(Width),
    List(Width),
    Map(Width),
    Array(Width),
}

// The kinds of codes, as `KINDS` has them. Sizes and counts have four bytes in those of 32 bits, and one byte in those of 8.
const NONE: u64 = 0;

const FIXED: u64 = 1;

const BOOLEAN: u64 = 2;

const VARIABLE_8: u64 = 3;

const VARIABLE_32: u64 = 4;

const LIST_8: u64 = 5;

const LIST_32: u64 = 6;

const MAP_8: u64 = 7;

const MAP_32: u64 = 8;

const ARRAY_8: u64 = 9;

const ARRAY_32: u64 = 10;

// Which format codes there are, and of which kind: a word for each upper half of a code, and in it a hexadecimal digit for each lower half, the last one
// for 0. `FIXED * 0x11` in the place of 6 says that 60 and 61 are fixed, and that there are no other codes from 60 to 6F.
const KINDS: [u64; 16] = [
    NONE,
    NONE,
    NONE,
    NONE,
    FIXED * 0x11_1111, // 40 null, 41 true, 42 false, 43 uint 0, 44 ulong 0, 45 list of none
    FIXED * 0x11_1111 + BOOLEAN * 0x100_0000, // 50 ubyte, 51 byte, 52 uint, 53 ulong, 54 int, 55 long, 56 boolean
    FIXED * 0x11, // 60 ushort, 61 short
    FIXED * 0x1_1111, // 70 uint, 71 int, 72 float, 73 char, 74 decimal32
    FIXED * 0x1_1111, // 80 ulong, 81 long, 82 double, 83 timestamp, 84 decimal64
    FIXED * 0x1_0001_0000, // 94 decimal128, 98 uuid
    VARIABLE_8 * 0x1011, // A0 binary, A1 string, A3 symbol
    VARIABLE_32 * 0x1011, // B0 binary, B1 string, B3 symbol
    LIST_8 * 0x1 + MAP_8 * 0x10, // C0 list, C1 map
    LIST_32 * 0x1 + MAP_32 * 0x10, // D0 list, D1 map
    ARRAY_8 * 0x1, // E0 array
    ARRAY_32 * 0x1, // F0 array
];

// The width of a code from 40 to 9F, by its upper half: no byte for 4, and for 5 to 9 one, two, four, eight and sixteen.
pub(crate) fn fixed_width(c: u8) -> u32
    ensures { (result ≡ fixed_width c) × (result < 2 ^ 27) }
{
    (1 << (c >> 4)) >> 5
}

// The kind of a format code; there is none where there is no such code.
pub(crate) fn code_of(c: u8) -> Option<Kind>
    ensures { code_said result ≡ kind_of c }
{
    let word = KINDS[(c >> 4) as usize];
    match (word >> (c % 16 * 4)) % 16 {
        FIXED => Some(Kind::Fixed(c)),
        BOOLEAN => Some(Kind::Boolean),
        VARIABLE_8 => Some(Kind::Variable(Width::One)),
        VARIABLE_32 => Some(Kind::Variable(Width::Four)),
        LIST_8 => Some(Kind::List(Width::One)),
        LIST_32 => Some(Kind::List(Width::Four)),
        MAP_8 => Some(Kind::Map(Width::One)),
        MAP_32 => Some(Kind::Map(Width::Four)),
        ARRAY_8 => Some(Kind::Array(Width::One)),
        ARRAY_32 => Some(Kind::Array(Width::Four)),
        _ => None,
    }
}

// Which of the 64 codes from 64 k on exist: a bit for each, the lowest for the first.
fn known_word(k: u8) -> u64
    requires { k < 4 }
    ensures { BitsOf is_known k result }
{
    match k {
        1 => 0x001f_0003_007f_003f,
        2 => 0x000b_000b_0110_001f,
        3 => 0x0001_0001_0003_0003,
        _ => 0,
    }
}

// Which of them are plain.
fn plain_word(k: u8) -> u64
    requires { k < 4 }
    ensures { BitsOf is_plain k result }
{
    match k {
        0 => 0,
        1 => 0x001f_0003_003f_003f,
        2 => 0x0000_000b_0110_001f,
        _ => 0,
    }
}

// Whether there is such a code.
pub(crate) fn is_known(c: u8) -> bool
    ensures { result ≡ is_known c }
{
    (known_word(c / 64) >> (c % 64)) % 2 == 1
}

// Whether the code, or the byte after it, tells where a value ends: those with a fixed width, where every byte will do, and those with a size of one byte.
pub(crate) fn is_plain(c: u8) -> bool
    ensures { result ≡ is_plain c }
{
    (plain_word(c / 64) >> (c % 64)) % 2 == 1
}
