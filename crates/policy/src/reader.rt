// A text, line by line: the first faulty line decides.
#![tactic(auto, unfolding(crate::specs::Reads::refusal, crate::specs::Reads::handed_up, crate::specs::Reads::no_record))]

ghost use Rattle.std.specs.Prelude.{◌≡◌};
ghost use Rattle.policy.specs.Reads.{refusal, no_record, handed_up, read_of};

use crate::table::Table;
use crate::value::Policy;
use records::{NoRecord, Record, read_record};
use rules::{END, Refusal};

const LONGEST_TEXT: usize = 32768;

// The verdict, and beside it the policy: all zeros where the text is refused.
#[derive(Clone, Copy, Drop)]
pub struct Reading {
    pub verdict: Result<(), Refusal>,
    pub policy: Policy,
}

// The refusal of a line, handed up.
fn handed_up(verdict: Result<(), Refusal>) -> Reading
    ensures { result ≡ handed_up verdict }
{
    Reading {
        verdict,
        policy: Policy::zero(),
    }
}

fn refused(why: Refusal) -> Reading
    ensures { result ≡ refusal why }
{
    handed_up(Err(why))
}

// The refusal of a line that is no record.
fn no_record(line: Result<(Record, usize), NoRecord>, number: u16) -> Reading
    ensures { result ≡ no_record line number }
{
    match line {
        Err(NoRecord::WrongKind) => refused(Refusal::WrongKind(number)),
        _ => refused(Refusal::IllFormed(number)),
    }
}

pub fn read(text: &[u8]) -> Reading
    ensures { result ≡ read_of text.now }
{
    if LONGEST_TEXT < text.len() {
        return refused(Refusal::TooLong);
    }
    let mut table = Table::empty();
    let mut at = 0;
    while at < text.len() {
        let line = read_record(&text[at..]);
        let Ok((rec, used)) = line else {
            return no_record(line, table.done.lines + 1);
        };
        let verdict = table.add(rec);
        let Ok(()) = verdict else {
            return handed_up(verdict);
        };
        at += used;
    }
    if table.done.kind != END {
        return refused(Refusal::WrongKind(table.done.lines + 1));
    }
    Reading {
        verdict: Ok(()),
        policy: Policy { rows: table.rows },
    }
}
