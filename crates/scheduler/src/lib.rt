// The scheduler: calls answered, one at a time, and who is entered.
#![tactic(auto)]

ghost use Rattle.scheduler.specs.Lawful.{Lawful};

pub mod call; // the seven calls
pub mod entry; // who is entered next
pub mod event; // a source event handled, in a hypercall or a trap
pub mod range; // the list of refusal 80
pub mod starting; // from the reader's answer
pub mod state; // the state, its parts stored
pub mod stepping; // refusals 80 to 85, and one call

pub use starting::{Started, start};
pub use state::{State, Stepped};
pub use stepping::{serve, step};

// No code: that a start and a step keep the laws is this function's contract.
pub fn lawful()
    ensures { Lawful }
{}
