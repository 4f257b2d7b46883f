// Plan time: majors, minor frames, ticks left, counts. Nothing of groups and subjects.
#![tactic(auto)]

ghost use Rattle.clock.specs.Lawful.{Lawful};

pub mod range; // the part of refusal 80 that speaks of plan time
pub mod tick; // what a tick and a choice do
pub mod time; // the clock, and what it says

pub use time::{Clock, CpuClock, Tick, Ticked};

// No code: that the clock keeps the plan is this function's contract.
pub fn lawful()
    ensures { Lawful }
{}
