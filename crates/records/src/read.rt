// A record, read from the line that a text begins with.
#![tactic(auto, unfolding(crate::specs::Kinds::header_in, crate::specs::Kinds::partition_in, crate::specs::Kinds::group_in, crate::specs::Kinds::subject_in, crate::specs::Kinds::frame_in, crate::specs::Kinds::event_in, crate::specs::Kinds::trap_in, crate::specs::Kinds::target_in, crate::specs::Kinds::route_in, crate::specs::Kinds::record_as, crate::specs::Kinds::record_of, crate::specs::RecordLines::record_line, crate::specs::RecordLines::record_in, hexline::specs::Lines::byte_at, hexline::specs::Lines::number_at))]

ghost use Rattle.std.specs.Prelude.{◌≡◌};
ghost use Rattle.hexline.specs.Lines.{spelled};
ghost use Rattle.records.specs.Kinds.{header_in, partition_in, group_in, subject_in, frame_in, event_in, trap_in, target_in, route_in, record_as};
ghost use Rattle.records.specs.RecordLines.{record_line};

use crate::kind::{
    Counts, EVENT, EventLine, FRAME, FrameLine, GROUP, GroupLine, HEADER, PARTITION, PartitionLine,
    ROUTE, Record, RouteLine, SUBJECT, SubjectLine, TARGET, TRAP, TargetLine, TrapLine, size_of,
};
use hexline::{Line, byte_at, number_at, read_line};

// Why a line of the text is no record.
#[derive(Clone, Copy, Drop)]
pub enum NoRecord {
    // An empty line, odd digits, another byte, or no newline at the line's end.
    IllFormed,
    // Well formed, but of no known kind or of another byte count.
    WrongKind,
}

impl Counts {
    fn read(text: &[u8]) -> Counts
        ensures { result ≡ header_in (spelled text.now) }
    {
        Counts {
            cpus: byte_at(text, 1),
            subjects: byte_at(text, 2),
            groups: byte_at(text, 3),
            partitions: byte_at(text, 4),
            majors: byte_at(text, 5),
        }
    }
}

impl PartitionLine {
    fn read(text: &[u8]) -> PartitionLine
        ensures { result ≡ partition_in (spelled text.now) }
    {
        PartitionLine {
            number: byte_at(text, 1),
            cpu: byte_at(text, 2),
        }
    }
}

impl GroupLine {
    fn read(text: &[u8]) -> GroupLine
        ensures { result ≡ group_in (spelled text.now) }
    {
        GroupLine {
            number: byte_at(text, 1),
            partition: byte_at(text, 2),
        }
    }
}

impl SubjectLine {
    fn read(text: &[u8]) -> SubjectLine
        ensures { result ≡ subject_in (spelled text.now) }
    {
        SubjectLine {
            number: byte_at(text, 1),
            group: byte_at(text, 2),
            default_event: byte_at(text, 3),
        }
    }
}

impl FrameLine {
    fn read(text: &[u8]) -> FrameLine
        ensures { result ≡ frame_in (spelled text.now) }
    {
        FrameLine {
            major: byte_at(text, 1),
            cpu: byte_at(text, 2),
            partition: byte_at(text, 3),
            length: number_at(text, 4),
        }
    }
}

impl EventLine {
    fn read(text: &[u8]) -> EventLine
        ensures { result ≡ event_in (spelled text.now) }
    {
        EventLine {
            subject: byte_at(text, 1),
            event: byte_at(text, 2),
            action: byte_at(text, 3),
            irq: byte_at(text, 4),
            target: byte_at(text, 5),
            target_event: byte_at(text, 6),
            kick: byte_at(text, 7),
        }
    }
}

impl TrapLine {
    fn read(text: &[u8]) -> TrapLine
        ensures { result ≡ trap_in (spelled text.now) }
    {
        TrapLine {
            subject: byte_at(text, 1),
            trap: byte_at(text, 2),
            event: byte_at(text, 3),
        }
    }
}

impl TargetLine {
    fn read(text: &[u8]) -> TargetLine
        ensures { result ≡ target_in (spelled text.now) }
    {
        TargetLine {
            subject: byte_at(text, 1),
            event: byte_at(text, 2),
            action: byte_at(text, 3),
            vector: byte_at(text, 4),
        }
    }
}

impl RouteLine {
    fn read(text: &[u8]) -> RouteLine
        ensures { result ≡ route_in (spelled text.now) }
    {
        RouteLine {
            host: byte_at(text, 1),
            subject: byte_at(text, 2),
            vector: byte_at(text, 3),
            irq: byte_at(text, 4),
        }
    }
}

// The record of a line of this kind; a known one, or it is read as the last.
fn read_fields(text: &[u8], kind: u8) -> Record
    ensures { result ≡ record_as kind (spelled text.now) }
{
    match kind {
        HEADER => Record::Header(Counts::read(text)),
        PARTITION => Record::Partition(PartitionLine::read(text)),
        GROUP => Record::Group(GroupLine::read(text)),
        SUBJECT => Record::Subject(SubjectLine::read(text)),
        FRAME => Record::Frame(FrameLine::read(text)),
        EVENT => Record::Event(EventLine::read(text)),
        TRAP => Record::Trap(TrapLine::read(text)),
        TARGET => Record::Target(TargetLine::read(text)),
        ROUTE => Record::Route(RouteLine::read(text)),
        _ => Record::End {
            count: number_at(text, 1),
        },
    }
}

// The record of the line that the text begins with, and where the line ends, past its newline.
pub fn read_record(text: &[u8]) -> Result<(Record, usize), NoRecord>
    ensures { result ≡ record_line text.now }
{
    let Line::Whole { bytes, end } = read_line(text) else {
        return Err(NoRecord::IllFormed);
    };
    let kind = byte_at(text, 0);
    if bytes != size_of(kind) {
        return Err(NoRecord::WrongKind);
    }
    Ok((read_fields(text, kind), end))
}
