// P3 and P4: the order of the kinds, and the ranges of the fields, the header's counts being the ranges for later lines.
ghost use Rattle.std.specs.Prelude.{◌≡◌, ◌&&◌, leb};
ghost use Rattle.rules.specs.Rules.{wrong_kind, counts_in_range, partition_in_range, group_in_range, subject_in_range, frame_in_range, event_in_range, trap_in_range, target_in_range, routable, route_in_range, in_range};

use crate::action::{INJECT, PANIC, RESET};
use records::kind::{END, HEADER};
use records::{
    Counts, EventLine, FrameLine, GroupLine, PartitionLine, Record, RouteLine, SubjectLine,
    TargetLine, TrapLine,
};

// FF, in the fields that may say so.
pub const NONE: u8 = 255;

const MOST_CPUS: u8 = 4;

const MOST_SUBJECTS: u8 = 16;

const MOST_GROUPS: u8 = 16;

const MOST_PARTITIONS: u8 = 8;

const MOST_MAJORS: u8 = 4;

const LAST_EVENT: u8 = 15;

const LAST_IRQ_LINE: u8 = 23;

const LAST_TARGET_EVENT: u8 = 31;

const LAST_TRAP: u8 = 59;

const FIRST_VECTOR: u8 = 32;

const LAST_VECTOR: u8 = 255;

const LONGEST_FRAME: u16 = 4000;

// A kind after the kind of the line before, 0 before the first line.
#[tactic(auto, unfolding(crate::specs::Rules::wrong_kind))]
pub(crate) fn wrong_kind(last: u8, kind: u8) -> bool
    ensures { result ≡ wrong_kind last kind }
{
    if last == 0 {
        kind != HEADER
    } else {
        kind == HEADER || last == END || kind < last
    }
}

// From 1 to so many.
fn is_count(count: u8, most: u8) -> bool
    ensures { result ≡ leb 1 count && leb count most }
{
    (1..=most).contains(&count)
}

#[tactic(auto, unfolding(crate::specs::Rules::counts_in_range))]
fn counts_in_range(n: Counts) -> bool
    ensures { result ≡ counts_in_range n }
{
    is_count(n.cpus, MOST_CPUS)
        && is_count(n.subjects, MOST_SUBJECTS)
        && is_count(n.groups, MOST_GROUPS)
        && is_count(n.partitions, MOST_PARTITIONS)
        && is_count(n.majors, MOST_MAJORS)
}

#[tactic(auto, unfolding(crate::specs::Rules::partition_in_range))]
fn partition_in_range(n: Counts, p: PartitionLine) -> bool
    ensures { result ≡ partition_in_range n p }
{
    p.number < n.partitions && p.cpu < n.cpus
}

#[tactic(auto, unfolding(crate::specs::Rules::group_in_range))]
fn group_in_range(n: Counts, g: GroupLine) -> bool
    ensures { result ≡ group_in_range n g }
{
    g.number < n.groups && g.partition < n.partitions
}

#[tactic(auto, unfolding(crate::specs::Rules::subject_in_range))]
fn subject_in_range(n: Counts, s: SubjectLine) -> bool
    ensures { result ≡ subject_in_range n s }
{
    s.number < n.subjects && s.group < n.groups && s.default_event <= LAST_EVENT
}

#[tactic(auto, unfolding(crate::specs::Rules::frame_in_range))]
fn frame_in_range(n: Counts, f: FrameLine) -> bool
    ensures { result ≡ frame_in_range n f }
{
    f.major < n.majors
        && f.cpu < n.cpus
        && f.partition < n.partitions
        && (1..=LONGEST_FRAME).contains(&f.length)
}

#[tactic(auto, unfolding(crate::specs::Rules::event_in_range))]
fn event_in_range(n: Counts, e: EventLine) -> bool
    ensures { result ≡ event_in_range n e }
{
    e.subject < n.subjects
        && e.event <= LAST_EVENT
        && e.action <= PANIC
        && (e.irq <= LAST_IRQ_LINE || e.irq == NONE)
        && (e.target < n.subjects || e.target == NONE)
        && (e.target_event <= LAST_TARGET_EVENT || e.target_event == NONE)
        && e.kick <= 1
}

#[tactic(auto, unfolding(crate::specs::Rules::trap_in_range))]
fn trap_in_range(n: Counts, t: TrapLine) -> bool
    ensures { result ≡ trap_in_range n t }
{
    t.subject < n.subjects && t.trap <= LAST_TRAP && t.event <= LAST_EVENT
}

#[tactic(auto, unfolding(crate::specs::Rules::target_in_range))]
fn target_in_range(n: Counts, t: TargetLine) -> bool
    ensures { result ≡ target_in_range n t }
{
    t.subject < n.subjects
        && t.event <= LAST_TARGET_EVENT
        && match t.action {
            INJECT => (FIRST_VECTOR..=LAST_VECTOR).contains(&t.vector),
            RESET => t.vector == 0,
            _ => false,
        }
}

// Vectors 253 and 254 are the host's own.
#[tactic(auto, unfolding(crate::specs::Rules::routable))]
fn is_routable(host: u8) -> bool
    ensures { result ≡ routable host }
{
    (FIRST_VECTOR..=LAST_VECTOR).contains(&host) && host != 253 && host != 254
}

#[tactic(auto, unfolding(crate::specs::Rules::route_in_range))]
fn route_in_range(n: Counts, w: RouteLine) -> bool
    ensures { result ≡ route_in_range n w }
{
    is_routable(w.host)
        && w.subject < n.subjects
        && (FIRST_VECTOR..=LAST_VECTOR).contains(&w.vector)
        && (w.irq <= LAST_IRQ_LINE || w.irq == NONE)
}

// Whether the fields of a line are in range.
#[tactic(auto, unfolding(crate::specs::Rules::in_range))]
pub(crate) fn in_range(n: Counts, rec: Record) -> bool
    ensures { result ≡ in_range n rec }
{
    match rec {
        Record::Header(h) => counts_in_range(h),
        Record::Partition(p) => partition_in_range(n, p),
        Record::Group(g) => group_in_range(n, g),
        Record::Subject(s) => subject_in_range(n, s),
        Record::Frame(f) => frame_in_range(n, f),
        Record::Event(e) => event_in_range(n, e),
        Record::Trap(t) => trap_in_range(n, t),
        Record::Target(t) => target_in_range(n, t),
        Record::Route(w) => route_in_range(n, w),
        Record::End { .. } => true,
    }
}
