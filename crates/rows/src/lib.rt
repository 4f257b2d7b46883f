// The policy's table. It has a place for every line that a policy may have, in the order of the text, so that places rise
// exactly as lines do; what stands there is the line's row, 0 where there is no such line.
#![tactic(auto)]

ghost use Rattle.rows.specs.Lawful.{Lawful};

pub mod key_place;
pub mod lookup;
pub mod place;
pub mod row;
pub mod table;

pub use key_place::{
    MINOR_KEYS, SUBJECT_KEYS, event_row, keyed_event, keyed_minor, keyed_route, keyed_target,
    keyed_trap, minor_row, route_row, target_row, trap_row,
};
pub use lookup::{
    counts_of, cpu_of, default_of, group_given, group_of, home_of, is_framed, length_at,
    partition_given, partition_of, row_given, subject_given,
};
pub use place::{GROUPS, PARTITIONS, ROWS, SUBJECTS, frames_place, place_of};
pub use row::{counts_in, pack, record_at};
pub use table::{item_or, row_at, set_row, store};

// No code: that a line is read off its place and its row is this function's contract.
#[tactic(auto, using(crate::proofs::Laws::laws))]
pub fn lawful()
    ensures { Lawful }
{}
