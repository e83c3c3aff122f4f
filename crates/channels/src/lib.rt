// The channels of a connection: the outgoing numbers from 0 to the agreed channel-max, taken and free, and in `ties` the incoming ones.
// A few counts go by value. What each number has stands in the lent tables, and only places of numbers that were handed out before are ever
// looked at, so new tables need no preparation here, and no call's cost depends on how many numbers there are.
#![tactic(auto)]

pub mod places;
pub mod ties;

ghost use Rattle.std.specs.Prelude.{◌≡◌, true, cond, None, suc, ◌-◌, leb, eqb, Err};
ghost use Rattle.channels.specs.Places.{Covers, field, write};
ghost use Rattle.channels.specs.Channels.{counts, counts_ok, agreed_says, unopened, resumed_as, opened_to, Allocates, Frees, Finds};

use octets::Refusal;

// The fields of an outgoing number: its link and its handle.
const LINK: usize = 0;

const HANDLE: usize = 1;

// The link of a number that is taken. That of a freed number is the one that was freed before it.
const TAKEN: u32 = 65536;

// The numbers below `used` were handed out at some time. `freed` of them, from `head` on by the links, are free again.
// `highest` is the agreed channel-max. `opened` says whether the peer's Open has come, before which there are no numbers.
#[derive(Clone, Copy)]
pub struct OutgoingChannels {
    opened: bool,
    highest: u16,
    used: u32,
    head: u32,
    freed: u32,
}

// What allocating answers: a number, or that the peer's Open has not come, or that every number is taken.
#[derive(Clone, Copy)]
pub struct Allocation {
    pub answer: Result<u16, Refusal>,
    pub channels: OutgoingChannels,
}

// What deallocating answers: the handle that the number had, or nothing where it was not taken.
#[derive(Clone, Copy)]
pub struct Deallocation {
    pub answer: Option<u32>,
    pub channels: OutgoingChannels,
}

// The number is taken by the handle.
fn take(t: &mut [u8], k: u32, handle: u32)
    requires { Covers (suc k) t.old }
    ensures { t.new ≡ write (write t.old k 0 65536) k 1 handle }
{
    places::write(t, k, LINK, TAKEN);
    places::write(t, k, HANDLE, handle);
}

impl OutgoingChannels {
    // Nothing is agreed, and nothing is taken.
    pub fn new() -> OutgoingChannels
        ensures { result ≡ unopened }
    {
        OutgoingChannels {
            opened: false,
            highest: 0,
            used: 0,
            head: 0,
            freed: 0,
        }
    }

    // Counts that were kept, if they are within their limits.
    pub fn resumed(
        opened: bool,
        highest: u16,
        used: u32,
        head: u32,
        freed: u32,
    ) -> Option<OutgoingChannels>
        ensures { result ≡ resumed_as (counts opened highest used head freed) }
    {
        let channels = OutgoingChannels {
            opened,
            highest,
            used,
            head,
            freed,
        };
        channels.is_within().then_some(channels)
    }

    // Whether the counts are within their limits: the head was handed out before, or is 0; and before the peer's Open all are 0.
    fn is_within(self) -> bool
        ensures { result ≡ counts_ok self }
    {
        let most = u32::from(self.highest);
        if self.opened {
            if self.used < self.freed {
                return false;
            }
            if most + 1 < self.used {
                return false;
            }
            if self.freed == 0 {
                return self.head == 0;
            }
            return self.head < self.used;
        }
        if 0 < most {
            return false;
        }
        if 0 < self.used {
            return false;
        }
        if 0 < self.head {
            return false;
        }
        self.freed == 0
    }

    // Whether the peer's Open has come.
    pub fn is_opened(self) -> bool
        ensures { result ≡ self.opened }
    {
        self.opened
    }

    // The agreed channel-max, and 0 where none is.
    pub fn highest(self) -> u16
        ensures { result ≡ self.highest }
    {
        self.highest
    }

    // How many of the lowest numbers were handed out at some time.
    pub fn used(self) -> u32
        ensures { result ≡ self.used }
    {
        self.used
    }

    // The number that was freed last, and 0 where none is free that was handed out before.
    pub fn head(self) -> u32
        ensures { result ≡ self.head }
    {
        self.head
    }

    // How many numbers are free that were handed out before.
    pub fn freed(self) -> u32
        ensures { result ≡ self.freed }
    {
        self.freed
    }

    // The peer's Open: the numbers from 0 to the agreed channel-max are free, in this order. Nothing changes where it has come before.
    pub fn open(self, highest: u16) -> OutgoingChannels
        ensures { result ≡ opened_to highest self }
    {
        if self.opened {
            return self;
        }
        OutgoingChannels {
            opened: true,
            highest,
            used: 0,
            head: 0,
            freed: 0,
        }
    }

    // Hands out the first free number to the handle: the number freed last, or else the lowest that was never handed out.
    pub fn allocate(self, t: &mut [u8], handle: u32) -> Allocation
        ensures { Allocates self t.old handle result t.new }
    {
        if !self.opened {
            return Allocation {
                answer: Err(Refusal::NotOpened),
                channels: self,
            };
        }
        if self.freed == 0 {
            return self.hand_out_new(t, handle);
        }
        self.hand_out_freed(t, handle)
    }

    fn full(self) -> Allocation
        ensures { result ≡ record { answer = Err Refusal.NoChannelLeft; channels = self } }
    {
        Allocation {
            answer: Err(Refusal::NoChannelLeft),
            channels: self,
        }
    }

    // The lowest number that was never handed out.
    fn hand_out_new(mut self, t: &mut [u8], handle: u32) -> Allocation
        requires { (self.opened ≡ true) × (self.freed ≡ 0) }
        ensures { Allocates self t.old handle result t.new }
    {
        let k = self.used;
        if u32::from(self.highest) < k {
            return self.full();
        }
        if !places::has(t, k) {
            return self.full();
        }
        take(t, k, handle);
        self.used = k + 1;
        Allocation {
            answer: Ok(k as u16),
            channels: self,
        }
    }

    // The number that was freed last. The one after it by the links is kept only if it was handed out before.
    fn hand_out_freed(mut self, t: &mut [u8], handle: u32) -> Allocation
        requires { (self.opened ≡ true) × (self.freed ≡ 0 → ⊥) }
        ensures { Allocates self t.old handle result t.new }
    {
        let k = self.head;
        if u32::from(self.highest) < k {
            return self.full();
        }
        if !places::has(t, k) {
            return self.full();
        }
        let next = self.after_head(t);
        if self.used <= next {
            return self.full();
        }
        take(t, k, handle);
        self.head = next;
        self.freed = self.freed - 1;
        Allocation {
            answer: Ok(k as u16),
            channels: self,
        }
    }

    // The freed number after the first one, by its link, and 0 where there is none.
    fn after_head(self, t: &[u8]) -> u32
        requires { Covers (suc self.head) t.now }
        ensures { result ≡ cond (leb self.freed 1) 0 (field t.now self.head 0) }
    {
        if self.freed <= 1 {
            return 0;
        }
        places::field(t, self.head, LINK)
    }

    // Frees a number. It is the next that is handed out.
    pub fn deallocate(mut self, t: &mut [u8], channel: u16) -> Deallocation
        ensures { Frees self t.old channel result t.new }
    {
        let Some(handle) = self.handle_at(t, channel) else {
            return self.kept();
        };
        let freed = self.freed;
        if self.used <= freed {
            return self.kept();
        }
        let k = u32::from(channel);
        if !places::has(t, k) {
            return self.kept();
        }
        places::write(t, k, LINK, self.next_free());
        self.head = k;
        self.freed = freed + 1;
        Deallocation {
            answer: Some(handle),
            channels: self,
        }
    }

    // The first of the freed numbers, and 0 where there is none: never the link of a taken number.
    fn next_free(self) -> u32
        ensures { result ≡ cond (eqb self.freed 0) 0 self.head }
    {
        if self.freed == 0 {
            return 0;
        }
        self.head
    }

    fn kept(self) -> Deallocation
        ensures { result ≡ record { answer = None; channels = self } }
    {
        Deallocation {
            answer: None,
            channels: self,
        }
    }

    // The handle that a number is taken by, if it is taken.
    pub fn handle_at(self, t: &[u8], channel: u16) -> Option<u32>
        ensures { Finds self t.now channel result }
    {
        let k = u32::from(channel);
        if self.used <= k {
            return None;
        }
        if !places::has(t, k) {
            return None;
        }
        if places::field(t, k, LINK) != TAKEN {
            return None;
        }
        Some(places::field(t, k, HANDLE))
    }

    // The agreed channel-max: there is none before the peer's Open.
    pub fn agreed_max(self) -> Option<u16>
        ensures { result ≡ agreed_says self }
    {
        self.opened.then_some(self.highest)
    }

    // How many numbers are taken.
    pub fn taken_count(self) -> u32
        ensures { result ≡ self.used - self.freed }
    {
        if self.used < self.freed {
            return 0;
        }
        self.used - self.freed
    }
}
