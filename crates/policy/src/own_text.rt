// Whether some accepted text gives a policy: its lines, one after the other, are accepted and fill the same table.
ghost use Rattle.std.specs.Prelude.{◌≡◌};
ghost use Rattle.policy.specs.Writes.{known_rows, known};

use crate::line::line_at;
use crate::table::Table;
use crate::value::Policy;
use records::Record;
use rows::ROWS;

#[tactic(auto, unfolding(crate::specs::Writes::known_rows))]
pub fn known(p: Policy) -> bool
    ensures { result ≡ known p }
{
    known_rows(&p.rows)
}

// The same of its table.
pub fn known_rows(given: &[u64]) -> bool
    ensures { result ≡ known_rows given.now }
{
    let mut table = Table::empty();
    for rec in (0..ROWS).filter_map(move |place| line_at(given, place)) {
        let Ok(()) = table.add(rec) else {
            return false;
        };
    }
    let end = Record::End {
        count: table.done.lines,
    };
    table.add(end).is_ok() && &table.rows[..] == given
}
