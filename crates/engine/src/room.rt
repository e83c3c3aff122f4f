// Room in the output: how much an event asks for, and how much is left.
ghost use Rattle.std.specs.Prelude.{◌≡◌, ◌+◌, ◌*◌, ◌≤◌, leb, not};

use connection::Connection;
use octets::Refusal;

// The room that an event asks of its lent output before it writes.
pub(crate) const OUTPUT_ROOM: usize = Connection::MAX_FRAME_SIZE as usize;

// The refusal of tables that are too short for the channels that the peer may use.
pub(crate) const UNCOVERED: Refusal = Refusal::OutOfBounds;

// Whether so much output is too little where so many bytes wait to be sent.
pub fn lacks_room(output: usize, waiting: usize) -> bool
    ensures { result ≡ not (leb (16384 + 2 * waiting) output) }
{
    if output < OUTPUT_ROOM {
        return true;
    }
    if (output - OUTPUT_ROOM) / 2 < waiting {
        return true;
    }
    false
}

// How many bytes are written with n more of them; never more than there are.
pub(crate) fn advanced(written: usize, n: usize, len: usize) -> usize
    ensures { (result ≤ len) × (written + n ≤ len → result ≡ written + n) }
{
    if len < written {
        return len;
    }
    if len - written < n {
        return len;
    }
    written + n
}
