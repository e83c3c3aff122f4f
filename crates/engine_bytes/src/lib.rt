// An engine from bytes and to bytes: what a C caller keeps between events. The fixed part of 300 bytes is judged whole, of the tables behind it only their length.
#![tactic(auto)]

pub mod numbers;

ghost use Rattle.std.specs.Prelude.{◌≡◌, [], ◌+◌, ◌≤◌, length};
ghost use Rattle.octets.specs.Octets.{put};
ghost use Rattle.layout.specs.Layout.{held};
ghost use Rattle.channels.specs.Numbers.{one};
ghost use Rattle.connection_state.specs.Answers.{state_says};
ghost use Rattle.local_open.specs.Settings.{new_says};
ghost use Rattle.endpoint.specs.Answers.{role_says};
ghost use Rattle.engine.specs.Answers.{phase_says};
ghost use Rattle.engine_bytes.specs.Bytes.{at, or_broken, id_at, settings_at, numbers_at, rest_at, fixed_at, number_bytes, moving_bytes, setting_bytes, fixed_bytes};
ghost use Rattle.engine_bytes.specs.Promises.{fixed_in, read_says};

use channels::OutgoingChannels;
use channels::places::covers;
use connection::Connection;
use connection_state::ConnectionState;
use endpoint::Role;
use engine::{ConnectionEngine, Phase};
use frame_encoder::Settings;
use local_open::LocalOpen;
use numbers::{put_phase, role_number};
use octets::{Refusal, copy, number, put_number};

// How many bytes the fixed part has: the tables stand behind it.
pub const FIXED_SIZE: usize = 300;

// The bytes "HSP2", which name the layout.
const VERSION: u32 = 0x48535032;

// Where the container-id stands, and how long it may be.
pub const ID: usize = 44;

const ID_MAX: usize = 255;

// The number in two bytes from a place on.
// Two functions and not one for any width: that would answer in a u64, which each call would narrow, with a proof that it fits.
fn two_at(s: &[u8], i: usize) -> u16
    requires { i + 2 ≤ length s.now }
    ensures { result ≡ at i 2 s.now }
{
    let end = i + 2;
    number(&s[i..end]) as u16
}

// The number in four bytes from a place on.
fn four_at(s: &[u8], i: usize) -> u32
    requires { i + 4 ≤ length s.now }
    ensures { result ≡ at i 4 s.now }
{
    let end = i + 4;
    number(&s[i..end]) as u32
}

// An idle-time-out that is there or not.
fn idle_of(there: bool, millis: u32) -> Option<u32>
    ensures { result ≡ held there millis }
{
    there.then_some(millis)
}

// The settings of a fixed part, if they are within their limits.
fn read_open(s: &[u8]) -> Result<LocalOpen, Refusal>
    requires { 300 ≤ length s.now }
    ensures { new_says (id_at s.now) result ≡ settings_at s.now }
{
    let there = s[5];
    if 1 < there {
        return Err(Refusal::OutOfBounds);
    }
    let n = two_at(s, 42) as usize;
    if ID_MAX < n {
        return Err(Refusal::OutOfBounds);
    }
    let end = ID + n;
    let settings = Settings {
        container_id: &s[ID..end],
        max_frame_size: four_at(s, 8),
        channel_max: two_at(s, 6),
        idle_time_out: idle_of(there == 1, four_at(s, 12)),
    };
    LocalOpen::new(&settings)
}

// The counts of a fixed part, if they are within their limits.
fn read_counts(s: &[u8]) -> Option<OutgoingChannels>
    requires { 300 ≤ length s.now }
    ensures { or_broken result ≡ numbers_at s.now }
{
    let agreed = s[19];
    if 1 < agreed {
        return None;
    }
    OutgoingChannels::resumed(
        agreed == 1,
        two_at(s, 40),
        four_at(s, 28),
        four_at(s, 32),
        four_at(s, 36),
    )
}

// The engine that bytes stand for, if they stand for one.
pub fn from_bytes(s: &[u8]) -> Option<ConnectionEngine>
    ensures { read_says (id_at s.now) result ≡ fixed_at s.now }
{
    if s.len() < FIXED_SIZE {
        return None;
    }
    if four_at(s, 0) != VERSION {
        return None;
    }
    let role = numbers::role_with(s[4])?;
    let phase = numbers::phase_with(s[16], s[17])?;
    let state = ConnectionState::with_number(s[18])?;
    read_rest(s, role, phase, state)
}

// The engine in a role, a phase and a state whose other numbers stand in the bytes, if there is one.
fn read_rest(s: &[u8], role: Role, phase: Phase, state: ConnectionState) -> Option<ConnectionEngine>
    requires { 300 ≤ length s.now }
    ensures { read_says (id_at s.now) result ≡ rest_at (role_says role) (phase_says phase) (state_says state) s.now }
{
    let Ok(open) = read_open(s) else {
        return None;
    };
    let outgoing = read_counts(s)?;
    if !covers(&s[FIXED_SIZE..], open.channel_max()) {
        return None;
    }
    let reading = four_at(s, 20);
    let connection = Connection::resumed(state, role, open, reading, four_at(s, 24), outgoing)?;
    ConnectionEngine::resumed(phase, connection)
}

// Lays the counts from 28 on, if they fit there.
fn put_counts(outgoing: OutgoingChannels, out: &mut [u8])
    ensures { out.new ≡ put out.old 28 (number_bytes outgoing) }
{
    if out.len() < 42 {
        return;
    }
    put_number(out, 28, 4, outgoing.used() as u64);
    put_number(out, 32, 4, outgoing.head() as u64);
    put_number(out, 36, 4, outgoing.freed() as u64);
    put_number(out, 40, 2, outgoing.highest() as u64);
}

fn flag(b: bool) -> u64
    ensures { result ≡ one b }
{
    u64::from(b)
}

// Lays what calls can change of an engine from 16 on, if it fits there.
pub fn write(engine: ConnectionEngine, out: &mut [u8])
    ensures { out.new ≡ put out.old 16 (moving_bytes (fixed_in engine [])) }
{
    if out.len() < 42 {
        return;
    }
    let connection = engine.connection();
    let state = connection.state();
    let outgoing = connection.outgoing();
    put_phase(engine.phase(), out, 16);
    put_number(out, 18, 1, state.number() as u64);
    put_number(out, 19, 1, flag(outgoing.is_opened()));
    put_number(out, 20, 4, connection.reading_limit() as u64);
    put_number(out, 24, 4, connection.writing_limit() as u64);
    put_counts(outgoing, out);
}

// Lays the layout's name, the role and the settings but for the container-id, if they fit there.
fn put_settings(engine: ConnectionEngine, out: &mut [u8])
    ensures { out.new ≡ put out.old 0 (setting_bytes (fixed_in engine [])) }
{
    if out.len() < 16 {
        return;
    }
    let connection = engine.connection();
    let open = connection.local_open();
    let idle = open.idle_time_out();
    put_number(out, 0, 4, VERSION as u64);
    put_number(out, 4, 1, role_number(connection.role()) as u64);
    put_number(out, 5, 1, flag(numbers::is_there(idle)));
    put_number(out, 6, 2, open.channel_max() as u64);
    put_number(out, 8, 4, open.max_frame_size() as u64);
    put_number(out, 12, 4, numbers::millis(idle) as u64);
}

// Lays all that is fixed of an engine with its container-id at the front, if it fits there.
pub fn write_new(engine: ConnectionEngine, container_id: &[u8], out: &mut [u8])
    ensures { out.new ≡ put out.old 0 (fixed_bytes (fixed_in engine container_id.now)) }
{
    if out.len() < ID {
        return;
    }
    if out.len() - ID < container_id.len() {
        return;
    }
    put_settings(engine, out);
    write(engine, out);
    put_number(out, 42, 2, container_id.len() as u64);
    copy(out, ID, container_id);
}
