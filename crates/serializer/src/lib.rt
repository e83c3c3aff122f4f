// AMQP values in their shortest form, laid into a lent buffer. A function `.._len` says how many bytes a value takes, and the function
// `put_..` of the same value lays them at a place, if they fit there.
#![tactic(auto)]

ghost use Rattle.std.specs.Prelude.{◌≡◌, ◌+◌, ◌<◌, ◌≤◌, length};
ghost use Rattle.octets.specs.Octets.{put};
ghost use Rattle.serializer.specs.Written.{uint, ushort, text, composite_header};
ghost use Rattle.serializer.specs.Answers.{code_of};

#[derive(Clone, Copy)]
pub enum Text {
    String,
    Symbol,
}

pub fn uint_len(n: u32) -> usize
    ensures { (result ≡ length (uint n)) × (result ≤ 5) }
{
    if n == 0 {
        return 1;
    }
    if n <= 255 {
        return 2;
    }
    5
}

pub fn put_uint(out: &mut [u8], at: usize, n: u32)
    ensures { out.new ≡ put out.old at (uint n) }
{
    if n == 0 {
        octets::put_number(out, at, 1, 0x43);
        return;
    }
    if n <= 255 {
        octets::put_number(out, at, 2, 0x5200 + (n as u64));
        return;
    }
    octets::put_number(out, at, 5, 0x70_0000_0000 + (n as u64));
}

pub fn put_ushort(out: &mut [u8], at: usize, n: u16)
    ensures { out.new ≡ put out.old at (ushort n) }
{
    octets::put_number(out, at, 3, 0x60_0000 + (n as u64));
}

fn code(kind: Text) -> u64
    ensures { (result ≡ code_of kind) × (result < 256) }
{
    match kind {
        Text::String => 0xa1,
        Text::Symbol => 0xa3,
    }
}

// The number of bytes of a string or a symbol.
pub fn text_len(bs: &[u8], kind: Text) -> usize
    ensures { (result ≡ length (text (code_of kind) bs.now)) × (result ≤ 5 + length bs.now) }
{
    if bs.len() <= 255 {
        return 2 + bs.len();
    }
    5 + bs.len()
}

pub fn put_text(out: &mut [u8], at: usize, kind: Text, bs: &[u8])
    ensures { out.new ≡ put out.old at (text (code_of kind) bs.now) }
{
    let n = text_len(bs, kind);
    if out.len() < at {
        return;
    }
    if out.len() - at < n {
        return;
    }
    let size = bs.len() as u64;
    if bs.len() <= 255 {
        octets::put_number(out, at, 2, code(kind) * 256 + size);
        octets::copy(out, at + 2, bs);
        return;
    }
    octets::put_number(out, at, 1, code(kind) + 16);
    octets::put_number(out, at + 1, 4, size);
    octets::copy(out, at + 5, bs);
}

// The number of bytes before the fields of a described list with `count` fields, which take `size` bytes.
pub fn composite_header_len(count: usize, size: usize, code: u8) -> usize
    ensures { (result ≡ length (composite_header code count size)) × (result ≤ 12) }
{
    if count == 0 {
        return 4;
    }
    if size <= 254 {
        return 6;
    }
    12
}

pub fn put_composite_header(out: &mut [u8], at: usize, code: u8, count: u8, size: u32)
    ensures { out.new ≡ put out.old at (composite_header code count size) }
{
    let head = 0x5300 + (code as u64);
    if count == 0 {
        octets::put_number(out, at, 4, head * 256 + 0x45);
        return;
    }
    if size <= 254 {
        let sized = (head * 256 + 0xc0) * 256 + (size as u64 + 1);
        octets::put_number(out, at, 6, sized * 256 + (count as u64));
        return;
    }
    if out.len() < at {
        return;
    }
    if out.len() - at < 12 {
        return;
    }
    octets::put_number(out, at, 4, head * 256 + 0xd0);
    octets::put_number(out, at + 4, 4, size as u64 + 4);
    octets::put_number(out, at + 8, 4, count as u64);
}
