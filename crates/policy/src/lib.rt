// The policy text of document 01: a text read, a policy written, and whether some accepted text gives a policy.
#![tactic(auto)]

ghost use Rattle.policy.specs.Lawful.{Lawful};

mod line; // the line of a place
pub mod own_text; // whether some accepted text gives a policy
pub mod reader; // a text, read
mod table; // the table that accepted lines fill
pub mod value; // the policy
pub mod writer; // a policy, written

pub use own_text::known;
pub use reader::{Reading, read};
pub use value::Policy;
pub use writer::write;

// No code: that reader and writer are each other's inverse, and that a refusal leaves nothing behind, is this function's contract.
#[tactic(auto, using(crate::proofs::Laws::laws))]
pub fn lawful()
    ensures { Lawful }
{}
