// The lent tables of a connection: a place of 28 bytes for each channel number, with seven numbers of 32 bits, called fields.
// Nothing is asked of the bytes: tables that their owner altered are read like any others.
ghost use Rattle.std.specs.Prelude.{◌≡◌, suc, ◌+◌, ◌*◌, ◌≤◌, ◌<◌, length};
ghost use Rattle.channels.specs.Places.{Covers, word, store, covers, field, write, put};

// How many bytes a place has.
pub const PLACE_SIZE: usize = 28;

// The i-th number of 32 bits, the first byte of which counts most.
fn word(s: &[u8], i: usize) -> u32
    requires { 4 * i + 4 ≤ length s.now }
    ensures { result ≡ word s.now i }
{
    let at = 4 * i;
    u32::from_be_bytes([s[at], s[at + 1], s[at + 2], s[at + 3]])
}

// The i-th number becomes x.
fn store(s: &mut [u8], i: usize, x: u32)
    requires { 4 * i + 4 ≤ length s.old }
    ensures { s.new ≡ store s.old i x }
{
    let at = 4 * i;
    s[at..at + 4].copy_from_slice(&x.to_be_bytes());
}

// Whether the tables have a place for each channel up to the highest.
pub fn covers(t: &[u8], highest: u16) -> bool
    ensures { result ≡ covers (suc highest) t.now }
{
    has(t, u32::from(highest))
}

// Whether the tables have a place for number k.
pub(crate) fn has(t: &[u8], k: u32) -> bool
    ensures { result ≡ covers (suc k) t.now }
{
    PLACE_SIZE * (k as usize) + PLACE_SIZE <= t.len()
}

// Field f of number k.
pub(crate) fn field(t: &[u8], k: u32, f: usize) -> u32
    requires { Covers (suc k) t.now × (f < 7) }
    ensures { result ≡ field t.now k f }
{
    word(t, 7 * (k as usize) + f)
}

// Field f of number k becomes x.
pub(crate) fn write(t: &mut [u8], k: u32, f: usize, x: u32)
    requires { Covers (suc k) t.old × (f < 7) }
    ensures { t.new ≡ write t.old k f x }
{
    store(t, 7 * (k as usize) + f, x);
}

// Field f of number k becomes x, where k is at most the top.
pub(crate) fn put(t: &mut [u8], top: u32, k: u32, f: usize, x: u32)
    requires { Covers (suc top) t.old × (f < 7) }
    ensures { t.new ≡ put (suc top) t.old k f x }
{
    if top < k {
        return;
    }
    write(t, k, f, x);
}
