// What one end of a connection holds besides its state: its role, its settings, the limits of the frames that it reads and writes, and in the
// lent tables the sessions by outgoing and by incoming channel.
#![tactic(auto)]

mod outgoing;
mod routing;

ghost use Rattle.std.specs.Prelude.{◌≡◌, List, ℕ, suc, min};
ghost use Rattle.connection_state.specs.Answers.{state_says};
ghost use Rattle.connection_model.specs.Connection.{clamped, given, released};
ghost use Rattle.channels.specs.Places.{covers};
ghost use Rattle.channels.specs.Channels.{agreed_says, MayAllocate};
ghost use Rattle.channels.specs.Ties.{handle_of};
ghost use Rattle.channels.specs.Lists.{Clears};
ghost use Rattle.channels.specs.Numbers.{taken_below};
ghost use Rattle.local_open.specs.Settings.{open_says};
ghost use Rattle.endpoint.specs.Answers.{whole, places_of, hand_out_of, taken_of, ties_of, allocate_says, deallocate_says};
ghost use Rattle.endpoint.specs.Promises.{Sound, Steps, new_endpoint, agreed_with, endpoint_of, limits_ok, resumed_as};

use channels::{OutgoingChannels, places, ties};
use connection_state::ConnectionState;
use local_open::LocalOpen;
use octets::Refusal;

// Who opened the transport: a dialler starts sessions only of its own, a listener also takes those that its peer starts.
#[derive(Clone, Copy)]
pub enum Role {
    Dialler,
    Listener,
}

#[derive(Clone, Copy)]
pub struct Endpoint {
    role: Role,
    local_open: LocalOpen,
    reading_limit: u32,
    writing_limit: u32,
    outgoing: OutgoingChannels,
}

// A frame that came and has a performative: its channel, its length, and where its body starts.
#[derive(Clone, Copy)]
pub struct Incoming {
    pub channel: u16,
    pub size: usize,
    pub from: usize,
}

// What comes of a frame that is taken, each with the number of bytes that were consumed.
// A body that goes on to a session has the session's handle, its own place and its length.
#[derive(Clone, Copy)]
pub enum FrameAnswer {
    NothingToDo {
        consumed: usize,
    },
    Opened {
        consumed: usize,
        idle_time_out: u32,
    },
    Closed {
        consumed: usize,
        with_error: bool,
    },
    Forward {
        consumed: usize,
        code: u8,
        handle: u32,
        from: usize,
        len: usize,
    },
    Began {
        consumed: usize,
        channel: u16,
        handle: u32,
        from: usize,
        len: usize,
    },
}

#[derive(Clone, Copy)]
pub struct Routed {
    pub answer: Result<FrameAnswer, Refusal>,
    pub endpoint: Endpoint,
}

#[derive(Clone, Copy)]
pub struct SessionSent {
    pub answer: Result<usize, Refusal>,
    pub endpoint: Endpoint,
}

#[derive(Clone, Copy)]
pub struct SessionAllocated {
    pub answer: Result<u16, Refusal>,
    pub endpoint: Endpoint,
}

#[derive(Clone, Copy)]
pub struct SessionDeallocated {
    pub answer: Option<u32>,
    pub endpoint: Endpoint,
}

// The tie that a session's frame that goes out asks for.
#[derive(Clone, Copy)]
pub(crate) struct OutgoingTie {
    incoming: u16,
    outgoing: u16,
    handle: u32,
}

// The least and the most that a limit of frames may be.
const MIN_MAX_FRAME_SIZE: u32 = 512;

const MAX_FRAME_SIZE: u32 = 16384;

// A writing limit is at least 512 and at most 16,384.
fn clamped(max_frame_size: u32) -> u32
    ensures { result ≡ clamped max_frame_size }
{
    if max_frame_size < MIN_MAX_FRAME_SIZE {
        return MIN_MAX_FRAME_SIZE;
    }
    if MAX_FRAME_SIZE < max_frame_size {
        return MAX_FRAME_SIZE;
    }
    max_frame_size
}

// The smaller of the two channel-max.
fn smaller(local: u16, remote: u16) -> u16
    ensures { result ≡ min local remote }
{
    if remote < local {
        return remote;
    }
    local
}

impl Endpoint {
    // A new endpoint. Of the tables it believes nothing: no incoming channel is tied from now on.
    pub fn new(role: Role, local_open: LocalOpen, tables: &mut [u8]) -> Endpoint
        ensures { (result ≡ new_endpoint role local_open) × Clears (suc local_open.channel_max) tables.old tables.new }
    {
        ties::clear(tables, local_open.channel_max());
        Endpoint {
            role,
            local_open,
            reading_limit: MIN_MAX_FRAME_SIZE,
            writing_limit: MIN_MAX_FRAME_SIZE,
            outgoing: OutgoingChannels::new(),
        }
    }

    // An endpoint that was kept, if calls can lead to it in a connection in this state.
    pub fn resumed(
        role: Role,
        local_open: LocalOpen,
        reading_limit: u32,
        writing_limit: u32,
        outgoing: OutgoingChannels,
        state: ConnectionState,
    ) -> Option<Endpoint>
        ensures { result ≡ resumed_as (state_says state) (endpoint_of role local_open reading_limit writing_limit outgoing) }
    {
        let endpoint = Endpoint {
            role,
            local_open,
            reading_limit,
            writing_limit,
            outgoing,
        };
        endpoint.is_reached(state).then_some(endpoint)
    }

    // Whether calls can lead to the limits and the agreed channel-max in a connection in this state.
    fn is_reached(self, state: ConnectionState) -> bool
        ensures { (id : List ℕ) → result ≡ limits_ok (open_says id self.local_open) (state_says state) self.reading_limit self.writing_limit (agreed_says self.outgoing) }
    {
        match self.agreed_max() {
            None => {
                if state.is_after_open() {
                    return false;
                }
                if self.reading_limit != MIN_MAX_FRAME_SIZE {
                    return false;
                }
                self.writing_limit == MIN_MAX_FRAME_SIZE
            }
            Some(agreed) => {
                if state.is_before_open() {
                    return false;
                }
                if self.channel_max() < agreed {
                    return false;
                }
                let open = self.local_open;
                if self.reading_limit != open.max_frame_size() {
                    return false;
                }
                if self.writing_limit < MIN_MAX_FRAME_SIZE {
                    return false;
                }
                self.writing_limit <= MAX_FRAME_SIZE
            }
        }
    }

    pub fn role(self) -> Role
        ensures { result ≡ self.role }
    {
        self.role
    }

    pub fn local_open(self) -> LocalOpen
        ensures { result ≡ self.local_open }
    {
        self.local_open
    }

    pub fn reading_limit(self) -> u32
        ensures { result ≡ self.reading_limit }
    {
        self.reading_limit
    }

    pub fn writing_limit(self) -> u32
        ensures { result ≡ self.writing_limit }
    {
        self.writing_limit
    }

    // The counts of the outgoing channels
    pub fn outgoing(self) -> OutgoingChannels
        ensures { result ≡ self.outgoing }
    {
        self.outgoing
    }

    // The channel-max that the peer was told
    pub fn channel_max(self) -> u16
        ensures { result ≡ self.local_open.channel_max }
    {
        let open = self.local_open;
        open.channel_max()
    }

    // Whether tables have a place for each channel that the peer may use
    pub fn is_covered(self, tables: &[u8]) -> bool
        ensures { result ≡ covers (places_of self) tables.now }
    {
        places::covers(tables, self.channel_max())
    }

    pub fn agreed_max(self) -> Option<u16>
        ensures { result ≡ agreed_says self.outgoing }
    {
        let outgoing = self.outgoing;
        outgoing.agreed_max()
    }

    // The handle of the session on an outgoing channel
    pub fn handle_at(self, tables: &[u8], channel: u16) -> Option<u32>
        ensures { (id : List ℕ) → Sound (whole self tables.now id) → result ≡ taken_of (whole self tables.now id) channel }
    {
        let outgoing = self.outgoing;
        outgoing.handle_at(tables, channel)
    }

    // The handle that an incoming channel is tied to
    pub fn tied_handle(self, tables: &[u8], channel: u16) -> Option<u32>
        ensures { (id : List ℕ) → Sound (whole self tables.now id) → result ≡ handle_of (ties_of (whole self tables.now id) channel) }
    {
        ties::get(tables, self.channel_max(), channel)
    }

    pub fn taken_count(self) -> u32
        ensures { (t id : List ℕ) → Sound (whole self t id) → result ≡ taken_below (places_of self) (taken_of (whole self t id)) }
    {
        let outgoing = self.outgoing;
        outgoing.taken_count()
    }

    // The peer's Open: the limits and the channel-max are agreed.
    pub fn open(mut self, max_frame_size: u32, channel_max: u16) -> Endpoint
        ensures { result ≡ agreed_with max_frame_size channel_max self }
    {
        let local = self.local_open;
        let outgoing = self.outgoing;
        let opened = outgoing.open(smaller(local.channel_max(), channel_max));
        self.outgoing = opened;
        self.reading_limit = local.max_frame_size();
        self.writing_limit = clamped(max_frame_size);
        self
    }

    pub fn allocate(mut self, tables: &mut [u8], handle: u32) -> SessionAllocated
        ensures steps { Steps (λ w. given handle (hand_out_of w)) self tables.old (allocate_says result.answer) result.endpoint tables.new }
        ensures may { MayAllocate result.answer }
    {
        let outgoing = self.outgoing;
        let a = outgoing.allocate(tables, handle);
        let answer = a.answer;
        let channels = a.channels;
        self.outgoing = channels;
        SessionAllocated {
            answer,
            endpoint: self,
        }
    }

    // Frees a channel, with the ties that were made through it.
    pub fn deallocate(mut self, tables: &mut [u8], channel: u16) -> SessionDeallocated
        ensures { Steps (λ w. released channel (taken_of w channel)) self tables.old (deallocate_says result.answer) result.endpoint tables.new }
    {
        let outgoing = self.outgoing;
        let d = outgoing.deallocate(tables, channel);
        let answer = d.answer;
        let Some(handle) = answer else {
            return SessionDeallocated {
                answer: None,
                endpoint: self,
            };
        };
        let channels = d.channels;
        self.outgoing = channels;
        ties::drop_through(tables, self.channel_max(), channel);
        SessionDeallocated {
            answer: Some(handle),
            endpoint: self,
        }
    }
}
