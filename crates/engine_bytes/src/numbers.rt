// The numbers of roles, outcomes and phases.
ghost use Rattle.std.specs.Prelude.{◌≡◌};
ghost use Rattle.octets.specs.Octets.{put};
ghost use Rattle.channels.specs.Numbers.{one};
ghost use Rattle.endpoint.specs.Answers.{role_says};
ghost use Rattle.engine.specs.Answers.{outcome_says, phase_says};
ghost use Rattle.engine_bytes.specs.Bytes.{role_number, role_with, outcome_number, outcome_with, phase_bytes, phase_with, is_there, idle_number};
ghost use Rattle.engine_bytes.specs.Promises.{role_read, outcome_read, phase_read};

use endpoint::Role;
use engine::{Outcome, Phase};
use octets::copy;

pub fn role_number(role: Role) -> u8
    ensures { result ≡ role_number (role_says role) }
{
    role as u8
}

// The role that has the number.
pub(crate) fn role_with(k: u8) -> Option<Role>
    ensures { role_read result ≡ role_with k }
{
    match k {
        0 => Some(Role::Dialler),
        1 => Some(Role::Listener),
        _ => None,
    }
}

pub fn outcome_number(outcome: Outcome) -> u8
    ensures { result ≡ outcome_number (outcome_says outcome) }
{
    outcome as u8
}

// The outcome that has the number.
fn outcome_with(k: u8) -> Option<Outcome>
    ensures { outcome_read result ≡ outcome_with k }
{
    match k {
        0 => Some(Outcome::Fine),
        1 => Some(Outcome::TransportError),
        2 => Some(Outcome::IllegalState),
        3 => Some(Outcome::NotFound),
        4 => Some(Outcome::NotImplemented),
        5 => Some(Outcome::RemoteClosed),
        6 => Some(Outcome::RemoteClosedWithError),
        _ => None,
    }
}

// The phase that has the two bytes.
pub(crate) fn phase_with(p: u8, o: u8) -> Option<Phase>
    ensures { phase_read result ≡ phase_with p o }
{
    if p == 0 {
        if o == 0 {
            return Some(Phase::Running);
        }
        return None;
    }
    let outcome = outcome_with(o)?;
    if p == 1 {
        return Some(Phase::Awaiting(outcome));
    }
    if p == 2 {
        return Some(Phase::Stopped(outcome));
    }
    None
}

// Lays the two bytes of a phase into the buffer at a place, if they fit there.
pub fn put_phase(phase: Phase, out: &mut [u8], at: usize)
    ensures { out.new ≡ put out.old at (phase_bytes (phase_says phase)) }
{
    match phase {
        Phase::Running => copy(out, at, &[0, 0]),
        Phase::Awaiting(o) => copy(out, at, &[1, outcome_number(o)]),
        Phase::Stopped(o) => copy(out, at, &[2, outcome_number(o)]),
    }
}

// Whether there is an idle-time-out.
pub(crate) fn is_there(idle: Option<u32>) -> bool
    ensures { one result ≡ is_there idle }
{
    idle.is_some()
}

// An idle-time-out in milliseconds, 0 where there is none.
pub(crate) fn millis(idle: Option<u32>) -> u32
    ensures { result ≡ idle_number idle }
{
    idle.unwrap_or(0)
}
