// The ten kinds of policy line: a record read from a line, a record written as a line. Knows of no range and no order.
#![tactic(auto)]

ghost use Rattle.records.specs.Lawful.{Lawful};

// The records, their kinds and sizes.
pub mod kind;
// A record, read from the part of the text that begins there.
pub mod read;
// A record's bytes, and its line written into a lent buffer at a place.
pub mod write;

pub use kind::{
    Counts, EventLine, FrameLine, GroupLine, PartitionLine, Record, RouteLine, SubjectLine,
    TargetLine, TrapLine, kind_of,
};
pub use read::{NoRecord, read_record};
pub use write::{put_record, record_bytes, record_size};

// No code: that records are read back as they were written, and that a line read is its record's line, is this function's contract.
#[tactic(auto, using(crate::proofs::Laws::laws))]
pub fn lawful()
    ensures { Lawful }
{}
