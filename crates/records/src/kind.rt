// The ten kinds of policy line. A field is the line's byte, or two of them, as they stand: any value.
#![tactic(auto, unfolding(crate::specs::Kinds::kind_of, crate::specs::Kinds::size_of))]

ghost use Rattle.std.specs.Prelude.{◌≡◌};
ghost use Rattle.records.specs.Kinds.{kind_of, size_of};

// The kinds, as byte 0 of a line has them.
pub const HEADER: u8 = 1;

pub(crate) const PARTITION: u8 = 2;

pub(crate) const GROUP: u8 = 3;

pub(crate) const SUBJECT: u8 = 4;

pub(crate) const FRAME: u8 = 5;

pub(crate) const EVENT: u8 = 6;

pub(crate) const TRAP: u8 = 7;

pub(crate) const TARGET: u8 = 8;

pub(crate) const ROUTE: u8 = 9;

pub const END: u8 = 10;

#[derive(Clone, Copy, Drop)]
pub struct Counts {
    pub cpus: u8,
    pub subjects: u8,
    pub groups: u8,
    pub partitions: u8,
    pub majors: u8,
}

#[derive(Clone, Copy, Drop)]
pub struct PartitionLine {
    pub number: u8,
    pub cpu: u8,
}

#[derive(Clone, Copy, Drop)]
pub struct GroupLine {
    pub number: u8,
    pub partition: u8,
}

#[derive(Clone, Copy, Drop)]
pub struct SubjectLine {
    pub number: u8,
    pub group: u8,
    pub default_event: u8,
}

#[derive(Clone, Copy, Drop)]
pub struct FrameLine {
    pub major: u8,
    pub cpu: u8,
    pub partition: u8,
    pub length: u16,
}

#[derive(Clone, Copy, Drop)]
pub struct EventLine {
    pub subject: u8,
    pub event: u8,
    pub action: u8,
    pub irq: u8,
    pub target: u8,
    pub target_event: u8,
    pub kick: u8,
}

#[derive(Clone, Copy, Drop)]
pub struct TrapLine {
    pub subject: u8,
    pub trap: u8,
    pub event: u8,
}

#[derive(Clone, Copy, Drop)]
pub struct TargetLine {
    pub subject: u8,
    pub event: u8,
    pub action: u8,
    pub vector: u8,
}

#[derive(Clone, Copy, Drop)]
pub struct RouteLine {
    pub host: u8,
    pub subject: u8,
    pub vector: u8,
    pub irq: u8,
}

#[derive(Clone, Copy, Drop)]
pub enum Record {
    Header(Counts),
    Partition(PartitionLine),
    Group(GroupLine),
    Subject(SubjectLine),
    Frame(FrameLine),
    Event(EventLine),
    Trap(TrapLine),
    Target(TargetLine),
    Route(RouteLine),
    // The count of lines before it.
    End { count: u16 },
}

// A record's kind: byte 0 of its line.
pub fn kind_of(rec: Record) -> u8
    ensures { result ≡ kind_of rec }
{
    match rec {
        Record::Header(_) => HEADER,
        Record::Partition(_) => PARTITION,
        Record::Group(_) => GROUP,
        Record::Subject(_) => SUBJECT,
        Record::Frame(_) => FRAME,
        Record::Event(_) => EVENT,
        Record::Trap(_) => TRAP,
        Record::Target(_) => TARGET,
        Record::Route(_) => ROUTE,
        Record::End { .. } => END,
    }
}

// How many bytes a line of a kind has, the kind's own among them; 0 where there is no such kind.
pub(crate) fn size_of(kind: u8) -> usize
    ensures { result ≡ size_of kind }
{
    match kind {
        HEADER => 6,
        PARTITION => 3,
        GROUP => 3,
        SUBJECT => 4,
        FRAME => 6,
        EVENT => 8,
        TRAP => 4,
        TARGET => 5,
        ROUTE => 5,
        END => 3,
        _ => 0,
    }
}
