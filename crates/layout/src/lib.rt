// A number that may be absent, laid as bytes.
#![tactic(auto)]

ghost use Rattle.std.specs.Prelude.{◌≡◌};
ghost use Rattle.octets.specs.Octets.{put};
ghost use Rattle.layout.specs.Layout.{may};

use octets::put_number;

// Lays a number of w bytes that may be absent into the buffer at a place, if it fits there.
pub fn put_may(out: &mut [u8], at: usize, w: usize, x: Option<u64>)
    ensures { out.new ≡ put out.old at (may w x) }
{
    if out.len() < at {
        return;
    }
    if out.len() - at <= w {
        return;
    }
    put_number(out, at, 1, u64::from(x.is_some()));
    put_number(out, at + 1, w, x.unwrap_or(0));
}
