// The line of a place of a table.
#![tactic(auto, unfolding(crate::specs::Writes::some_line, rows::specs::Lines::line_at))]

ghost use Rattle.std.specs.Prelude.{◌≡◌};
ghost use Rattle.rows.specs.Lines.{line_at};
ghost use Rattle.policy.specs.Writes.{some_line};

use records::Record;
use rows::{record_at, row_at};

// None where there is no row.
pub(crate) fn line_at(rows: &[u64], place: usize) -> Option<Record>
    ensures { some_line result ≡ line_at rows.now place }
{
    match row_at(rows, place) {
        0 => None,
        row => Some(record_at(place, row)),
    }
}
