// Numbers in bytes, the first of which counts most, and writing into a lent buffer.
#![tactic(auto)]

ghost use Rattle.std.specs.Prelude.{◌≡◌, ◌*◌, ◌^◌, ◌<◌, length, take};
ghost use Rattle.octets.specs.Octets.{big_endian, bytes_of, put};
ghost use Rattle.octets.specs.Refusal.{number_of};

// Why a call refuses. Each has a number, by which C and the definitions call it.
#[derive(Clone, Copy, Debug, PartialEq, Eq)]
pub enum Refusal {
    BytesMissing,
    HeaderMalformed,
    TooShort,
    OverReadingLimit,
    WrongType,
    BodyMalformed,
    ChannelTooHigh,
    OutOfBounds,
    NoRoom,
    IllegalState,
    NotOpened,
    Stopped,
    NoChannelLeft,
    NotFound,
    NotImplemented,
    NotTaken,
    OverWritingLimit,
}

impl Refusal {
    // The refusal's number.
    pub fn number(self) -> u8
        ensures { result ≡ number_of self }
    {
        match self {
            Refusal::BytesMissing => 1,
            Refusal::HeaderMalformed => 2,
            Refusal::TooShort => 3,
            Refusal::OverReadingLimit => 4,
            Refusal::WrongType => 5,
            Refusal::BodyMalformed => 6,
            Refusal::ChannelTooHigh => 7,
            Refusal::OutOfBounds => 8,
            Refusal::NoRoom => 9,
            Refusal::IllegalState => 20,
            Refusal::NotOpened => 21,
            Refusal::Stopped => 22,
            Refusal::NoChannelLeft => 23,
            Refusal::NotFound => 24,
            Refusal::NotImplemented => 25,
            Refusal::NotTaken => 26,
            Refusal::OverWritingLimit => 27,
        }
    }
}

// A byte as a number.
pub fn wide(b: u8) -> u64
    ensures { (result ≡ b) × (result < 256) }
{
    u64::from(b)
}

// The number in the first eight bytes, or in all of them where there are fewer. (Over a part of eight, by `min`, reading took a tenth more instructions.)
pub fn number(s: &[u8]) -> u64
    ensures { (result ≡ big_endian (take 8 s.now)) × (result < 2 ^ (8 * length (take 8 s.now))) }
{
    let mut x = 0;
    for i in 0..s.len() {
        if i == 8 {
            return x;
        }
        x = x * 256 + wide(s[i]);
    }
    x
}

// Lays the w low bytes of x into the buffer at a place, if they fit there.
pub fn put_number(out: &mut [u8], at: usize, w: usize, x: u64)
    ensures { out.new ≡ put out.old at (bytes_of w x) }
{
    if out.len() < at {
        return;
    }
    if out.len() - at < w {
        return;
    }
    let mut y = x;
    for i in (at..at + w).rev() {
        out[i] = (y % 256) as u8;
        y /= 256;
    }
}

// Lays the bytes of src into the buffer at a place, if they fit there. (By `copy_from_slice` a byte took an instruction more, which misses tests/linear.txt.)
pub fn copy(out: &mut [u8], at: usize, src: &[u8])
    ensures { out.new ≡ put out.old at src.now }
{
    if out.len() < at {
        return;
    }
    if out.len() - at < src.len() {
        return;
    }
    for i in 0..src.len() {
        out[at + i] = src[i];
    }
}
