// Sets of numbers, a bit for each, in words of 64 bits.
#![tactic(auto, using(crate::proofs::Sets::lawful))]

ghost use Rattle.bits.specs.Lawful.{Lawful};

mod set; // a set of numbers, of so many words
mod word; // one word: a bit tested, set, cleared

pub use set::{Bits, Bits64, Bits256};

// No code: that the definitions of specs/ satisfy their laws is this function's contract, so the crate is not proved without it.
pub fn lawful()
    ensures { Lawful }
{}
