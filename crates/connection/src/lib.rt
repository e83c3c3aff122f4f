// An AMQP connection: its calls, each of which takes the connection and gives it back with its answer. By value go its state, role, limits and
// numbers. Its tables and its container-id are lent to the calls that need them, and belong to it: who alters them in between loses the promises that
// speak of what calls led to, and no others.
#![tactic(auto)]

mod receiving;
mod sending;
mod sessions;

ghost use Rattle.std.specs.Prelude.{◌≡◌, List, ℕ};
ghost use Rattle.octets.specs.Refusal.{judged};
ghost use Rattle.frame_encoder.specs.Answers.{settings_say};
ghost use Rattle.connection_state.specs.Answers.{state_says};
ghost use Rattle.channels.specs.Ties.{handle_of};
ghost use Rattle.connection_model.specs.Connection as M;
ghost use Rattle.endpoint.specs.Answers.{role_says};
ghost use Rattle.endpoint.specs.Promises.{endpoint_of, resumed_as};
ghost use Rattle.connection.specs.View.{whole, view_of};
ghost use Rattle.connection.specs.Promises.{Makes, Counts, Looks, is_covered, resumed_in, moved_to, moved_if};

use channels::{OutgoingChannels, places};
use connection_state::ConnectionState;
use endpoint::{Endpoint, FrameAnswer, Role};
use frame_encoder::Settings;
use local_open::LocalOpen;
use octets::Refusal;
use protocol_header::ProtocolId;

#[derive(Clone, Copy)]
pub struct Connection {
    local_state: ConnectionState,
    endpoint: Endpoint,
}

#[derive(Clone, Copy)]
pub struct Sent {
    pub answer: Result<usize, Refusal>,
    pub connection: Connection,
}

// A header that came: that of AMQP 1.0.0, or that of another protocol, with the number of bytes consumed.
#[derive(Clone, Copy)]
pub enum HeaderAnswer {
    Amqp(usize),
    OtherProtocol(usize),
}

#[derive(Clone, Copy)]
pub struct ReceivedHeader {
    pub answer: Result<HeaderAnswer, Refusal>,
    pub connection: Connection,
}

#[derive(Clone, Copy)]
pub struct ReceivedFrame {
    pub answer: Result<FrameAnswer, Refusal>,
    pub connection: Connection,
}

// The channel that a session got.
#[derive(Clone, Copy)]
pub struct AllocatedSession {
    pub answer: Result<u16, Refusal>,
    pub connection: Connection,
}

// The freed handle, or the refusal: `NotTaken` where the channel was not taken.
#[derive(Clone, Copy)]
pub struct DeallocatedSession {
    pub answer: Result<u32, Refusal>,
    pub connection: Connection,
}

// How many bytes a tick wrote, or that the connection is at its end. Not an Option: the end is an
// answer, and not the want of one.
#[derive(Clone, Copy)]
pub enum TickAnswer {
    Wrote(usize),
    Stop,
}

#[derive(Clone, Copy)]
pub struct Ticked {
    pub answer: Result<TickAnswer, Refusal>,
    pub connection: Connection,
}

// The room that a call asks of its lent output before it writes.
pub(crate) const OUTPUT_ROOM: usize = Connection::MAX_FRAME_SIZE as usize;

// The refusal of tables that are too short for the channels that the peer may use.
pub(crate) const UNCOVERED: Refusal = Refusal::OutOfBounds;

// A connection that starts, with its settings checked.
fn make(role: Role, settings: &Settings<'_>, tables: &mut [u8]) -> Result<Connection, Refusal>
    ensures { Makes (role_says role) (settings_say settings.now) tables.old result tables.new }
{
    let open = LocalOpen::new(settings)?;
    if !places::covers(tables, settings.channel_max) {
        return Err(UNCOVERED);
    }
    let connection = Connection {
        local_state: ConnectionState::Start,
        endpoint: Endpoint::new(role, open, tables),
    };
    Ok(connection)
}

impl Connection {
    // The protocol's id and version
    pub const PROTOCOL_ID: ProtocolId = ProtocolId::Amqp;

    pub const MAJOR: u8 = 1;

    pub const MINOR: u8 = 0;

    pub const REVISION: u8 = 0;

    // The least and the most that a max-frame-size may be
    pub const MIN_MAX_FRAME_SIZE: u32 = 512;

    pub const MAX_FRAME_SIZE: u32 = 16384;

    // The connection of the one that dials
    pub fn dialler(settings: &Settings<'_>, tables: &mut [u8]) -> Result<Connection, Refusal>
        ensures { Makes M.dialler (settings_say settings.now) tables.old result tables.new }
    {
        make(Role::Dialler, settings, tables)
    }

    // The connection of the one that listens
    pub fn listener(settings: &Settings<'_>, tables: &mut [u8]) -> Result<Connection, Refusal>
        ensures { Makes M.listener (settings_say settings.now) tables.old result tables.new }
    {
        make(Role::Listener, settings, tables)
    }

    // A connection that was kept, if calls can lead to it: its state, and what its endpoint has.
    pub fn resumed(
        state: ConnectionState,
        role: Role,
        local_open: LocalOpen,
        reading_limit: u32,
        writing_limit: u32,
        outgoing: OutgoingChannels,
    ) -> Option<Connection>
        ensures { result ≡ resumed_in state (resumed_as (state_says state) (endpoint_of role local_open reading_limit writing_limit outgoing)) }
    {
        let endpoint = Endpoint::resumed(
            role,
            local_open,
            reading_limit,
            writing_limit,
            outgoing,
            state,
        )?;
        Some(Connection {
            local_state: state,
            endpoint,
        })
    }

    pub fn role(self) -> Role
        ensures { result ≡ self.endpoint.role }
    {
        let endpoint = self.endpoint;
        endpoint.role()
    }

    // Its settings, but for the container-id
    pub fn local_open(self) -> LocalOpen
        ensures { result ≡ self.endpoint.local_open }
    {
        let endpoint = self.endpoint;
        endpoint.local_open()
    }

    // The channel-max of its own settings
    pub fn channel_max(self) -> u16
        ensures { result ≡ self.endpoint.local_open.channel_max }
    {
        let endpoint = self.endpoint;
        endpoint.channel_max()
    }

    pub fn state(self) -> ConnectionState
        ensures { result ≡ self.local_state }
    {
        self.local_state
    }

    // The most bytes of a frame that is read
    pub fn reading_limit(self) -> u32
        ensures { result ≡ self.endpoint.reading_limit }
    {
        let endpoint = self.endpoint;
        endpoint.reading_limit()
    }

    // The most bytes of a frame that is written
    pub fn writing_limit(self) -> u32
        ensures { result ≡ self.endpoint.writing_limit }
    {
        let endpoint = self.endpoint;
        endpoint.writing_limit()
    }

    pub fn agreed_channel_max(self) -> Option<u16>
        ensures { (t id : List ℕ) → result ≡ (view_of (whole self t id)).agreed_max }
    {
        let endpoint = self.endpoint;
        endpoint.agreed_max()
    }

    // The counts of the outgoing channels
    pub fn outgoing(self) -> OutgoingChannels
        ensures { result ≡ self.endpoint.outgoing }
    {
        let endpoint = self.endpoint;
        endpoint.outgoing()
    }

    // Whether tables have a place for each channel that the peer may use
    pub fn is_covered(self, tables: &[u8]) -> bool
        ensures { (id : List ℕ) → result ≡ is_covered (whole self tables.now id) }
    {
        let endpoint = self.endpoint;
        endpoint.is_covered(tables)
    }

    // The handle of the session on an outgoing channel
    pub fn handle_at(self, tables: &[u8], channel: u16) -> Result<Option<u32>, Refusal>
        ensures { (id : List ℕ) → Looks (whole self tables.now id) ((view_of (whole self tables.now id)).taken channel) (judged result) }
    {
        let endpoint = self.endpoint;
        if !endpoint.is_covered(tables) {
            return Err(UNCOVERED);
        }
        Ok(endpoint.handle_at(tables, channel))
    }

    // The handle that an incoming channel is tied to
    pub fn tied_handle(self, tables: &[u8], channel: u16) -> Result<Option<u32>, Refusal>
        ensures { (id : List ℕ) → Looks (whole self tables.now id) (handle_of ((view_of (whole self tables.now id)).ties channel)) (judged result) }
    {
        let endpoint = self.endpoint;
        if !endpoint.is_covered(tables) {
            return Err(UNCOVERED);
        }
        Ok(endpoint.tied_handle(tables, channel))
    }

    // How many outgoing channels are taken
    pub fn taken_count(self) -> u32
        ensures { (t id : List ℕ) → Counts (whole self t id) result }
    {
        let endpoint = self.endpoint;
        endpoint.taken_count()
    }

    pub(crate) fn moved_to(self, reached: ConnectionState) -> Connection
        ensures { result ≡ moved_to self reached }
    {
        let endpoint = self.endpoint;
        Connection {
            local_state: reached,
            endpoint,
        }
    }

    // What was written decides whether the state moves.
    pub(crate) fn moved_if(
        self,
        answer: Result<usize, Refusal>,
        next: ConnectionState,
    ) -> Connection
        ensures { result ≡ moved_if answer self next }
    {
        match answer {
            Ok(_) => self.moved_to(next),
            Err(_) => self,
        }
    }
}
