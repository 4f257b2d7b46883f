// The makers' programs: groups and subjects, what is pending for them, which are active, and the masked IRQ lines. What events, interrupts
// and entries do to them. Nothing of plan time, nor of who is entered.
#![tactic(auto)]

ghost use Rattle.programs.specs.Lawful.{Lawful};

pub mod entering; // what an entry takes of a subject
pub mod fresh; // at the start
pub mod group; // one group
pub mod range; // the part of refusal 80 that speaks of groups and subjects
pub mod round; // the search for the next awake group
pub mod signal; // what an interrupt and a target event mark
pub mod source; // a source event
pub mod subject; // one subject
pub mod whole; // all of them: parts read and stored

pub use entering::Entering;
pub use group::Group;
pub use subject::Subject;
pub use whole::Programs;

// No code: that interrupts, source events and entries change exactly what they should, and lose no wake, is this function's contract.
#[tactic(auto, using(crate::proofs::Conditions::laws))]
pub fn lawful()
    ensures { Lawful }
{}
