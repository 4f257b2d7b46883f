// What the table says of a host vector, a source event, a trap, a target event and a minor frame. A key that no line may have is
// unlisted.
#![tactic(auto, unfolding(crate::specs::Lookups::route_of, crate::specs::Lookups::source_event, crate::specs::Lookups::default_event, crate::specs::Lookups::trap_event, crate::specs::Lookups::target_event, crate::specs::Lookups::frame_at, crate::specs::Answers::no_event, crate::specs::Answers::no_frame))]

ghost use Rattle.std.specs.Prelude.{◌≡◌, cond, eqb, Some, None};
ghost use Rattle.meaning.specs.Lookups.{route_of, source_event, default_event, trap_event, target_event, frame_at, frame_count};

use crate::answer::{Frame, HostVector, NO_EVENT, Route, SourceEvent, TargetAction};
use crate::line::{frame_from, route_from, source_from, target_from};
use rows::{
    MINOR_KEYS, SUBJECT_KEYS, default_of, event_row, keyed_event, keyed_minor, keyed_route,
    keyed_target, keyed_trap, minor_row, route_row, target_row, trap_row,
};

// A key's row; none where no line has the key.
fn listed(row: u64) -> Option<u64>
    ensures { result ≡ cond (eqb row 0) None (Some row) }
{
    (row != 0).then_some(row)
}

// Where a host vector goes.
pub fn route_of(rows: &[u64], host: HostVector) -> Option<Route>
    ensures { result ≡ route_of rows.now host }
{
    listed(route_row(rows, host.0)).map(|row| route_from(keyed_route(host.0, row)))
}

// What a source event of a subject does.
pub fn source_event(rows: &[u64], subject: u8, event: u8) -> SourceEvent
    ensures { result ≡ source_event rows.now subject event }
{
    match listed(event_row(rows, subject, event)) {
        Some(row) => source_from(keyed_event(subject, event, row)),
        None => NO_EVENT,
    }
}

fn default_event(rows: &[u64], subject: u8) -> u8
    ensures { result ≡ default_event rows.now subject }
{
    if subject < SUBJECT_KEYS {
        default_of(rows, subject)
    } else {
        0
    }
}

// The source event of a trap: its line's, or the subject's default.
pub fn trap_event(rows: &[u64], subject: u8, trap: u8) -> u8
    ensures { result ≡ trap_event rows.now subject trap }
{
    match listed(trap_row(rows, subject, trap)) {
        Some(row) => keyed_trap(subject, trap, row).event,
        None => default_event(rows, subject),
    }
}

// What a target event does to its subject.
pub fn target_event(rows: &[u64], subject: u8, event: u8) -> TargetAction
    ensures { result ≡ target_event rows.now subject event }
{
    match listed(target_row(rows, subject, event)) {
        Some(row) => target_from(keyed_target(subject, event, row)),
        None => TargetAction::Nothing,
    }
}

// A minor frame of a major and CPU, by its number in plan order.
pub fn frame_at(rows: &[u64], major: u8, cpu: u8, minor: u8) -> Frame
    ensures { result ≡ frame_at rows.now major cpu minor }
{
    match listed(minor_row(rows, major, cpu, minor)) {
        Some(row) => frame_from(keyed_minor(major, cpu, minor, row)),
        None => Frame {
            partition: 0,
            length: 0,
        },
    }
}

// How many minor frames a major and CPU has.
pub fn frame_count(rows: &[u64], major: u8, cpu: u8) -> u8
    ensures { result ≡ frame_count rows.now major cpu }
{
    (0..MINOR_KEYS)
        .filter(|&minor| listed(minor_row(rows, major, cpu, minor)).is_some())
        .count() as u8
}
