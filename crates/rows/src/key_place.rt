// The row of a key: what stands at the place of the line that has it, 0 where there is no such line or no line may have the key;
// and the line of a key that has a row.
ghost use Rattle.std.specs.Prelude.{◌≡◌, ◌<◌, ◌+◌, ◌*◌, cond, ◌&&◌, get_or, ltb};
ghost use Rattle.rows.specs.KeyPlaces.{minor_row, keyed_minor, event_row, keyed_event, trap_row, keyed_trap, target_row, keyed_target, route_row, keyed_route};

use crate::place::{
    EVENT_KEYS, EVENTS, ROUTES, TARGET_KEYS, TARGETS, TRAP_KEYS, TRAPS, frames_place, minor_key,
    subject_key,
};
use crate::row::{event_at, frame_at, route_at, target_at, trap_at};
use crate::table::row_at;
use records::{EventLine, FrameLine, RouteLine, TargetLine, TrapLine};

// How many keys document 01 has: subjects, majors, CPUs, and of a major and CPU its minor frames.
pub const SUBJECT_KEYS: u8 = 16;

const MAJOR_KEYS: u8 = 4;

const CPU_KEYS: u8 = 4;

pub const MINOR_KEYS: u8 = 8;

// The row of a subject's key, in a part that has so many keys for each subject.
fn subject_row(rows: &[u64], start: usize, keys: u8, subject: u8, key: u8) -> u64
    requires { start < 65536 }
    ensures { result ≡ cond (ltb subject 16 && ltb key keys) (get_or rows.now (start + subject * keys + key) 0) 0 }
{
    if subject < SUBJECT_KEYS && key < keys {
        row_at(rows, start + subject_key(keys, subject, key))
    } else {
        0
    }
}

// A minor frame.
#[tactic(auto, unfolding(crate::specs::KeyPlaces::minor_row, crate::specs::Places::frames_place))]
pub fn minor_row(rows: &[u64], major: u8, cpu: u8, minor: u8) -> u64
    ensures { result ≡ minor_row rows.now major cpu minor }
{
    if major < MAJOR_KEYS && cpu < CPU_KEYS && minor < MINOR_KEYS {
        row_at(rows, frames_place(major, cpu) + minor as usize)
    } else {
        0
    }
}

pub fn keyed_minor(major: u8, cpu: u8, minor: u8, row: u64) -> FrameLine
    ensures { result ≡ keyed_minor major cpu minor row }
{
    frame_at(minor_key(major, cpu, minor), row)
}

// A source event.
#[tactic(auto, unfolding(crate::specs::KeyPlaces::event_row))]
pub fn event_row(rows: &[u64], subject: u8, event: u8) -> u64
    ensures { result ≡ event_row rows.now subject event }
{
    subject_row(rows, EVENTS, EVENT_KEYS, subject, event)
}

pub fn keyed_event(subject: u8, event: u8, row: u64) -> EventLine
    ensures { result ≡ keyed_event subject event row }
{
    event_at(subject_key(EVENT_KEYS, subject, event), row)
}

// A trap.
#[tactic(auto, unfolding(crate::specs::KeyPlaces::trap_row))]
pub fn trap_row(rows: &[u64], subject: u8, trap: u8) -> u64
    ensures { result ≡ trap_row rows.now subject trap }
{
    subject_row(rows, TRAPS, TRAP_KEYS, subject, trap)
}

pub fn keyed_trap(subject: u8, trap: u8, row: u64) -> TrapLine
    ensures { result ≡ keyed_trap subject trap row }
{
    trap_at(subject_key(TRAP_KEYS, subject, trap), row)
}

// A target event.
#[tactic(auto, unfolding(crate::specs::KeyPlaces::target_row))]
pub fn target_row(rows: &[u64], subject: u8, event: u8) -> u64
    ensures { result ≡ target_row rows.now subject event }
{
    subject_row(rows, TARGETS, TARGET_KEYS, subject, event)
}

pub fn keyed_target(subject: u8, event: u8, row: u64) -> TargetLine
    ensures { result ≡ keyed_target subject event row }
{
    target_at(subject_key(TARGET_KEYS, subject, event), row)
}

// A host vector.
#[tactic(auto, unfolding(crate::specs::KeyPlaces::route_row))]
pub fn route_row(rows: &[u64], host: u8) -> u64
    ensures { result ≡ route_row rows.now host }
{
    row_at(rows, ROUTES + host as usize)
}

pub fn keyed_route(host: u8, row: u64) -> RouteLine
    ensures { result ≡ keyed_route host row }
{
    route_at(host as usize, row)
}
