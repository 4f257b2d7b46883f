// The table that accepted lines fill, one line after the other.
#![tactic(auto, unfolding(crate::specs::Steps::no_lines, crate::specs::Steps::progress_after, crate::specs::Steps::verdict_by, crate::specs::Steps::with_line))]

ghost use Rattle.std.specs.Prelude.{◌≡◌, ◌≤◌, ◌<◌, Ok};
ghost use Rattle.rows.specs.Places.{row_count, place_of};
ghost use Rattle.policy.specs.Steps.{no_lines, verdict_by, with_line};

use records::{Record, kind_of};
use rows::{ROWS, pack, place_of, set_row};
use rules::{Progress, Refusal, verdict_of};

#[derive(Drop)]
pub(crate) struct Table {
    pub(crate) rows: [u64; ROWS],
    // How far the lines have come.
    pub(crate) done: Progress,
}

impl Table {
    // Before the first line.
    pub(crate) fn empty() -> Table
        ensures { result ≡ no_lines }
    {
        Table {
            rows: [0; ROWS],
            done: Progress {
                kind: 0,
                next: 0,
                lines: 0,
            },
        }
    }

    // One line more, if it is accepted.
    pub(crate) fn add(&mut self, rec: Record) -> Result<(), Refusal>
        requires place { verdict_by self.old rec ≡ Ok tt → place_of self.old.done.next rec ≤ row_count }
        requires lines { self.old.done.lines < 65535 }
        ensures verdict { result ≡ verdict_by self.old rec }
        ensures table { self.new ≡ with_line self.old rec result }
    {
        let lines = self.done.lines + 1;
        verdict_of(&self.rows, self.done, lines, rec)?;
        let place = place_of(self.done.next, rec);
        set_row(&mut self.rows, place, pack(rec));
        self.done = Progress {
            kind: kind_of(rec),
            next: place + 1,
            lines,
        };
        Ok(())
    }
}
