// What a policy says, as the scheduler asks: typed lookups of its table. Each says exactly what a line of the text says.
#![tactic(auto)]

ghost use Rattle.meaning.specs.Means.{Lawful};

pub mod answer; // what a lookup yields: vectors, IRQ lines, routes, events, minor frames
pub mod line; // what one line says
pub mod lookup; // what the table says

pub use answer::{
    Action, Frame, HostVector, IrqLine, NO_EVENT, Route, Signal, SourceEvent, SubjectVector,
    TargetAction,
};
pub use lookup::{frame_at, frame_count, route_of, source_event, target_event, trap_event};

// No code: that a policy means its text is this function's contract.
#[tactic(auto, using(crate::proofs::Laws::laws))]
pub fn lawful()
    ensures { Lawful }
{}
