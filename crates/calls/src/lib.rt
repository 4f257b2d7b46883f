// The calls that the scheduler hears and the answers that it gives: a call heard from a line, an answer written as a line. Knows of
// no policy and no state.
#![tactic(auto)]

ghost use Rattle.calls.specs.Lawful.{Lawful};

pub mod answer; // the answers, with the paper's numbers for reasons and refusals
pub mod call; // the seven calls
pub mod hearing; // a call, heard from the part of the text that begins there
pub mod write; // an answer's bytes, and its line

pub use answer::{Answer, Notes, Reason, Refusal};
pub use call::Call;
pub use hearing::{CallLine, call_line, hear};
pub use write::{answer_bytes, put_answer};

// No code: that calls and answers are told from their lines, and from nothing else, is this function's contract.
#[tactic(auto, using(crate::proofs::Laws::laws))]
pub fn lawful()
    ensures { Lawful }
{}
