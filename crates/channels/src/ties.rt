// The ties of a connection: through which outgoing channel and to which handle an incoming channel is tied, and for each outgoing channel the list of
// the incoming ones that are tied through it. Both stand in the lent tables, beside the outgoing channel numbers. The lists are linked both ways, so a
// tie is made and ended at the same cost however many there are, and dropping those of a channel costs only these.
// A peer picks incoming channels as it likes, so all places are cleared once, when a connection is made. No link is trusted: in tables that their
// owner altered no place beyond those of the connection is written, and each call ends.
ghost use Rattle.std.specs.Prelude.{◌≡◌, ◌&&◌, suc, ◌≤◌, ◌<◌, leb};
ghost use Rattle.channels.specs.Places.{Covers, covers};
ghost use Rattle.channels.specs.Ties.{tie_of};
ghost use Rattle.channels.specs.Lists.{Clears, Changes, Drops, FindsTied};
ghost use Rattle.channels.specs.Links.{lead_to, come_from, bypassed, taken_out, unbound, bound, pushed, DropsFrom};

use crate::places;

// The field of an outgoing channel: the first incoming one that is tied through it.
const FIRST: usize = 2;

// The fields of an incoming channel: the outgoing one through which it is tied, the handle, and the next and the previous of the list.
// Each channel in these fields is written as one more than its number, and 0 is none.
const OUTGOING: usize = 3;

const HANDLE: usize = 4;

const NEXT: usize = 5;

const PREVIOUS: usize = 6;

// No channel up to the highest is tied.
pub fn clear(t: &mut [u8], highest: u16)
    ensures { Clears (suc highest) t.old t.new }
{
    if !places::covers(t, highest) {
        return;
    }
    for k in 0..=u32::from(highest) {
        places::write(t, k, FIRST, 0);
        places::write(t, k, OUTGOING, 0);
    }
}

// The handle that a channel is tied to, if it is tied. No channel above the highest is.
pub fn get(t: &[u8], highest: u16, channel: u16) -> Option<u32>
    ensures { FindsTied (suc highest) t.now channel result }
{
    let k = u32::from(channel);
    if u32::from(highest) < k {
        return None;
    }
    if !places::has(t, k) {
        return None;
    }
    if places::field(t, k, OUTGOING) == 0 {
        return None;
    }
    Some(places::field(t, k, HANDLE))
}

// Whatever leads to a channel of the list, the channel before it or the list itself, leads to `next` instead.
fn lead_to(t: &mut [u8], top: u32, outgoing: u32, previous: u32, next: u32)
    requires { Covers (suc top) t.old }
    ensures { t.new ≡ lead_to (suc top) t.old outgoing previous next }
{
    if previous == 0 {
        places::put(t, top, outgoing, FIRST, next);
        return;
    }
    places::put(t, top, previous - 1, NEXT, next);
}

// The channel before `next`, if there is a next, is `previous`.
fn come_from(t: &mut [u8], top: u32, next: u32, previous: u32)
    requires { Covers (suc top) t.old }
    ensures { t.new ≡ come_from (suc top) t.old next previous }
{
    if next == 0 {
        return;
    }
    places::put(t, top, next - 1, PREVIOUS, previous);
}

fn bypass(t: &mut [u8], top: u32, outgoing: u32, previous: u32, next: u32)
    requires { Covers (suc top) t.old }
    ensures { t.new ≡ bypassed (suc top) t.old outgoing previous next }
{
    lead_to(t, top, outgoing, previous, next);
    come_from(t, top, next, previous);
}

// Takes a channel out of the list of an outgoing one.
fn take_out(t: &mut [u8], top: u32, channel: u32, outgoing: u32)
    requires { Covers (suc top) t.old × (channel ≤ top) }
    ensures { t.new ≡ taken_out (suc top) t.old channel outgoing }
{
    let next = places::field(t, channel, NEXT);
    let previous = places::field(t, channel, PREVIOUS);
    bypass(t, top, outgoing, previous, next);
    places::write(t, channel, OUTGOING, 0);
}

// A channel is not tied from now on.
fn unbind(t: &mut [u8], top: u32, k: u32)
    requires { Covers (suc top) t.old × (k ≤ top) }
    ensures { t.new ≡ unbound (suc top) t.old k }
{
    let outgoing = places::field(t, k, OUTGOING);
    if outgoing == 0 {
        return;
    }
    take_out(t, top, k, outgoing - 1);
}

// Writes the fields of a channel that leads a list.
fn bind(t: &mut [u8], k: u32, outgoing: u32, handle: u32, next: u32)
    requires { Covers (suc k) t.old × (outgoing < 65536) }
    ensures { t.new ≡ bound t.old k outgoing handle next }
{
    places::write(t, k, OUTGOING, outgoing + 1);
    places::write(t, k, HANDLE, handle);
    places::write(t, k, NEXT, next);
    places::write(t, k, PREVIOUS, 0);
}

// A channel that is not tied becomes the first in the list of an outgoing one.
fn push(t: &mut [u8], top: u32, k: u32, outgoing: u32, handle: u32)
    requires { Covers (suc top) t.old × (top < 65536) × (k ≤ top) × (outgoing ≤ top) }
    ensures { t.new ≡ pushed (suc top) t.old k outgoing handle }
{
    let first = places::field(t, outgoing, FIRST);
    come_from(t, top, first, k + 1);
    bind(t, k, outgoing, handle, first);
    places::write(t, outgoing, FIRST, k + 1);
}

// Whether a channel is at most the highest, and the tables have a place for each of these.
fn is_place(t: &[u8], highest: u16, channel: u16) -> bool
    ensures { result ≡ leb channel highest && covers (suc highest) t.now }
{
    if highest < channel {
        return false;
    }
    places::covers(t, highest)
}

// The channel is tied through the outgoing one to the handle from now on.
pub fn tie(t: &mut [u8], highest: u16, channel: u16, outgoing: u16, handle: u32)
    ensures { Changes (suc highest) channel (Some (tie_of outgoing handle)) t.old t.new }
{
    if highest < outgoing {
        return;
    }
    if !is_place(t, highest, channel) {
        return;
    }
    let top = u32::from(highest);
    let k = u32::from(channel);
    unbind(t, top, k);
    push(t, top, k, u32::from(outgoing), handle);
}

// The channel is not tied from now on.
pub fn untie(t: &mut [u8], highest: u16, channel: u16)
    ensures { Changes (suc highest) channel None t.old t.new }
{
    if !is_place(t, highest, channel) {
        return;
    }
    unbind(t, u32::from(highest), u32::from(channel));
}

// No channel is tied through the outgoing one from now on.
pub fn drop_through(t: &mut [u8], highest: u16, outgoing: u16)
    ensures { Drops (suc highest) outgoing t.old t.new }
{
    if !is_place(t, highest, outgoing) {
        return;
    }
    let ch = u32::from(outgoing);
    let first = places::field(t, ch, FIRST);
    places::write(t, ch, FIRST, 0);
    drop_from(t, u32::from(highest), ch, first);
}

// Ends the ties of a list, from its first channel on. Each turn ends one that was made through the outgoing channel, so the walk ends in all tables.
// (A `while`: where a turn goes on stands in the tables, and no range or iterator of the library follows it.)
fn drop_from(t: &mut [u8], top: u32, outgoing: u32, first: u32)
    requires { Covers (suc top) t.old × (outgoing < 65536) }
    ensures { DropsFrom (suc top) outgoing first t.old t.new }
{
    let mut e = first;
    while 0 < e {
        let at = e - 1;
        if top < at {
            return;
        }
        if places::field(t, at, OUTGOING) != outgoing + 1 {
            return;
        }
        e = places::field(t, at, NEXT);
        places::write(t, at, OUTGOING, 0);
    }
}
