// The rules of document 01 for one line of a policy text: what it gets, by what the lines before it say.
#![tactic(auto)]

ghost use Rattle.rules.specs.Lawful.{Lawful};

pub mod action; // the actions of 06 and 08
pub mod ends; // the rules at 0A: complete, and even
pub mod judge; // a line's verdict
pub mod misplaced; // the rules on what a line names
pub mod plan; // the sum of a CPU's minor frames
pub mod ranges; // the kinds' order and the fields' ranges
pub mod refusal; // the refusals P0 to P9

pub use judge::{Progress, verdict_of};
pub use plan::plan_length;
pub use records::kind::END;
pub use refusal::Refusal;

// No code: that a line gets the smallest number, and the bounds that document 01 names, is this function's contract.
#[tactic(auto, using(crate::proofs::Laws::laws))]
pub fn lawful()
    ensures { Lawful }
{}
