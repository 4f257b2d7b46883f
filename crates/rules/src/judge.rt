// A line's verdict, by the table that the lines so far have filled: in a line, the smallest number.
ghost use Rattle.std.specs.Prelude.{◌≡◌};
ghost use Rattle.rules.specs.Rules.{judged};
ghost use Rattle.rules.specs.Tables.{said_by, behind};

use crate::ends::{is_incomplete, is_uneven};
use crate::misplaced::is_misplaced;
use crate::ranges::{in_range, wrong_kind};
use crate::refusal::Refusal;
use records::{Record, kind_of};
use rows::{MINOR_KEYS, counts_of, frames_place, place_of};

// How far the reading has come: the kind of the last line, the place after it in the table, and how many lines were read.
#[derive(Clone, Copy, Drop)]
pub struct Progress {
    pub kind: u8,
    pub next: usize,
    pub lines: u16,
}

// Whether the line's key is out of order, by its place: not past the last line's. A ninth minor frame has no place.
#[tactic(auto, unfolding(crate::specs::Tables::behind, rows::specs::Places::frames_place))]
fn is_behind(next: usize, rec: Record) -> bool
    ensures { result ≡ behind next rec }
{
    match rec {
        Record::Header(_) | Record::End { .. } => false,
        Record::Frame(f) => frames_place(f.major, f.cpu) + MINOR_KEYS as usize <= next,
        _ => place_of(next, rec) < next,
    }
}

// What a line gets, that has a number, after so many lines.
#[tactic(auto, unfolding(crate::specs::Rules::judged, crate::specs::Tables::said_by))]
pub fn verdict_of(rows: &[u64], done: Progress, line: u16, rec: Record) -> Result<(), Refusal>
    ensures { result ≡ judged (said_by rows.now) done.kind done.lines line (behind done.next rec) rec }
{
    if wrong_kind(done.kind, kind_of(rec)) {
        return Err(Refusal::WrongKind(line));
    }
    if !in_range(counts_of(rows), rec) {
        return Err(Refusal::OutOfRange(line));
    }
    if is_behind(done.next, rec) {
        return Err(Refusal::OutOfOrder(line));
    }
    if is_incomplete(rows, done.lines, rec) {
        return Err(Refusal::Incomplete(line));
    }
    if is_misplaced(rows, rec) {
        return Err(Refusal::Misplaced(line));
    }
    if is_uneven(rows, rec) {
        return Err(Refusal::Uneven(line));
    }
    Ok(())
}
