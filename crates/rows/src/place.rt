// Where the row of a line stands: one part of the table for each kind, in it the keys from the lowest.
ghost use Rattle.std.specs.Prelude.{◌≡◌, ◌+◌, ◌*◌};
ghost use Rattle.rows.specs.Places.{frames_place, place_of};

use records::Record;

pub const PARTITIONS: usize = 1;

pub const GROUPS: usize = 9;

pub const SUBJECTS: usize = 25;

pub const FRAMES: usize = 41;

pub const EVENTS: usize = 169;

pub const TRAPS: usize = 425;

pub const TARGETS: usize = 1385;

pub const ROUTES: usize = 1897;

pub const ROWS: usize = 2153;

// How many keys document 01 has of each subject: its events, traps and target events.
pub(crate) const EVENT_KEYS: u8 = 16;

pub(crate) const TRAP_KEYS: u8 = 60;

pub(crate) const TARGET_KEYS: u8 = 32;

// Where a subject's key stands in a part that has so many keys of each subject.
pub(crate) fn subject_key(keys: u8, subject: u8, key: u8) -> usize
    ensures { result ≡ subject * keys + key }
{
    subject as usize * keys as usize + key as usize
}

// Where a minor frame's key stands: each major has four CPUs, and each of these eight minor frames.
pub(crate) fn minor_key(major: u8, cpu: u8, minor: u8) -> usize
    ensures { result ≡ (major * 4 + cpu) * 8 + minor }
{
    (major as usize * 4 + cpu as usize) * 8 + minor as usize
}

// Where the minor frames of a major and CPU begin: eight places.
#[tactic(auto, unfolding(crate::specs::Places::frames_place))]
pub fn frames_place(major: u8, cpu: u8) -> usize
    ensures { result ≡ frames_place major cpu }
{
    FRAMES + minor_key(major, cpu, 0)
}

// The place of a line's row, where the row before it stands right before `next`. Only a minor frame's place depends on
// that: it follows the last one of its major and CPU.
#[tactic(auto, unfolding(crate::specs::Places::place_of))]
pub fn place_of(next: usize, rec: Record) -> usize
    ensures { result ≡ place_of next rec }
{
    match rec {
        Record::Header(_) => 0,
        Record::Partition(p) => PARTITIONS + p.number as usize,
        Record::Group(g) => GROUPS + g.number as usize,
        Record::Subject(s) => SUBJECTS + s.number as usize,
        Record::Frame(f) => frames_place(f.major, f.cpu).max(next),
        Record::Event(e) => EVENTS + subject_key(EVENT_KEYS, e.subject, e.event),
        Record::Trap(t) => TRAPS + subject_key(TRAP_KEYS, t.subject, t.trap),
        Record::Target(t) => TARGETS + subject_key(TARGET_KEYS, t.subject, t.event),
        Record::Route(w) => ROUTES + w.host as usize,
        Record::End { .. } => ROWS,
    }
}
