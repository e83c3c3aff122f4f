// Null, the value that stands for a missing one: Part 1 section 1.6.1.
ghost use Rattle.std.specs.Prelude.{◌≡◌};
ghost use Rattle.values.specs.Null.{is_null, or_null};

// Whether the bytes of a field start with null. A field that is missing is null.
pub fn is_null(f: &[u8]) -> bool
    ensures { result ≡ is_null (or_null f.now) }
{
    if f.len() == 0 {
        return true;
    }
    f[0] == 0x40
}
