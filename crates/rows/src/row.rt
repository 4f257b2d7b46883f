// What stands at a place: a 1, and behind it the bytes that the line has after its key.
ghost use Rattle.std.specs.Prelude.{◌≡◌};
ghost use Rattle.std.specs.Int.{w64, from_be_bytes};
ghost use Rattle.rows.specs.Rows.{counts_in, partition_at, group_at, subject_at, frame_at, event_at, trap_at, target_at, route_at, row_of, record_at};

use crate::place::{EVENTS, FRAMES, GROUPS, PARTITIONS, ROUTES, ROWS, SUBJECTS, TARGETS, TRAPS};
use records::{
    Counts, EventLine, FrameLine, GroupLine, PartitionLine, Record, RouteLine, SubjectLine,
    TargetLine, TrapLine,
};

// The row of a line. The last line of a text has none.
pub fn pack(rec: Record) -> u64
    ensures { result ≡ row_of rec }
{
    u64::from_be_bytes(bytes_of(rec))
}

// The bytes of that row, the highest first.
#[tactic(auto, unfolding(crate::specs::Rows::row_of))]
fn bytes_of(rec: Record) -> [u8; 8]
    ensures { from_be_bytes w64 result ≡ row_of rec }
{
    match rec {
        Record::Header(n) => [
            0,
            0,
            1,
            n.cpus,
            n.subjects,
            n.groups,
            n.partitions,
            n.majors,
        ],
        Record::Partition(p) => [0, 0, 0, 0, 0, 0, 1, p.cpu],
        Record::Group(g) => [0, 0, 0, 0, 0, 0, 1, g.partition],
        Record::Subject(s) => [0, 0, 0, 0, 0, 1, s.group, s.default_event],
        Record::Frame(f) => {
            let [high, low] = f.length.to_be_bytes();
            [0, 0, 0, 0, 1, f.partition, high, low]
        }
        Record::Event(e) => [0, 0, 1, e.action, e.irq, e.target, e.target_event, e.kick],
        Record::Trap(t) => [0, 0, 0, 0, 0, 0, 1, t.event],
        Record::Target(t) => [0, 0, 0, 0, 0, 1, t.action, t.vector],
        Record::Route(w) => [0, 0, 0, 0, 1, w.subject, w.vector, w.irq],
        Record::End { .. } => [0; 8],
    }
}

// The header's counts, from its row.
pub fn counts_in(row: u64) -> Counts
    ensures { result ≡ counts_in row }
{
    let [.., cpus, subjects, groups, partitions, majors] = row.to_be_bytes();
    Counts {
        cpus,
        subjects,
        groups,
        partitions,
        majors,
    }
}

fn partition_at(key: usize, row: u64) -> PartitionLine
    ensures { result ≡ partition_at key row }
{
    let [.., cpu] = row.to_be_bytes();
    PartitionLine {
        number: (key % 256) as u8,
        cpu,
    }
}

fn group_at(key: usize, row: u64) -> GroupLine
    ensures { result ≡ group_at key row }
{
    let [.., partition] = row.to_be_bytes();
    GroupLine {
        number: (key % 256) as u8,
        partition,
    }
}

fn subject_at(key: usize, row: u64) -> SubjectLine
    ensures { result ≡ subject_at key row }
{
    let [.., group, default_event] = row.to_be_bytes();
    SubjectLine {
        number: (key % 256) as u8,
        group,
        default_event,
    }
}

pub(crate) fn frame_at(key: usize, row: u64) -> FrameLine
    ensures { result ≡ frame_at key row }
{
    let [.., partition, high, low] = row.to_be_bytes();
    FrameLine {
        major: (key / 32 % 256) as u8,
        cpu: (key / 8 % 4) as u8,
        partition,
        length: u16::from_be_bytes([high, low]),
    }
}

pub(crate) fn event_at(key: usize, row: u64) -> EventLine
    ensures { result ≡ event_at key row }
{
    let [.., action, irq, target, target_event, kick] = row.to_be_bytes();
    EventLine {
        subject: (key / 16 % 256) as u8,
        event: (key % 16) as u8,
        action,
        irq,
        target,
        target_event,
        kick,
    }
}

pub(crate) fn trap_at(key: usize, row: u64) -> TrapLine
    ensures { result ≡ trap_at key row }
{
    let [.., event] = row.to_be_bytes();
    TrapLine {
        subject: (key / 60 % 256) as u8,
        trap: (key % 60) as u8,
        event,
    }
}

pub(crate) fn target_at(key: usize, row: u64) -> TargetLine
    ensures { result ≡ target_at key row }
{
    let [.., action, vector] = row.to_be_bytes();
    TargetLine {
        subject: (key / 32 % 256) as u8,
        event: (key % 32) as u8,
        action,
        vector,
    }
}

pub(crate) fn route_at(key: usize, row: u64) -> RouteLine
    ensures { result ≡ route_at key row }
{
    let [.., subject, vector, irq] = row.to_be_bytes();
    RouteLine {
        host: (key % 256) as u8,
        subject,
        vector,
        irq,
    }
}

// The line whose row stands at a place.
#[tactic(auto, unfolding(crate::specs::Rows::record_at))]
pub fn record_at(place: usize, row: u64) -> Record
    ensures { result ≡ record_at place row }
{
    match place {
        0..PARTITIONS => Record::Header(counts_in(row)),
        PARTITIONS..GROUPS => Record::Partition(partition_at(place - PARTITIONS, row)),
        GROUPS..SUBJECTS => Record::Group(group_at(place - GROUPS, row)),
        SUBJECTS..FRAMES => Record::Subject(subject_at(place - SUBJECTS, row)),
        FRAMES..EVENTS => Record::Frame(frame_at(place - FRAMES, row)),
        EVENTS..TRAPS => Record::Event(event_at(place - EVENTS, row)),
        TRAPS..TARGETS => Record::Trap(trap_at(place - TRAPS, row)),
        TARGETS..ROUTES => Record::Target(target_at(place - TARGETS, row)),
        ROUTES..ROWS => Record::Route(route_at(place - ROUTES, row)),
        _ => Record::End { count: 0 },
    }
}
