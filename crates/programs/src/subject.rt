// One subject: whether it is open to interrupts, its pending target events and its 256 pending vectors.
#![tactic(auto, unfolding(crate::specs::Records::fresh_subject, crate::specs::Records::opened_to, crate::specs::Records::event_marked, crate::specs::Records::event_cleared, crate::specs::Records::vector_marked, crate::specs::Records::vector_cleared, crate::specs::Records::resetted, crate::specs::Records::has_pending))]

ghost use Rattle.std.specs.Prelude.{◌≡◌};
ghost use Rattle.programs.specs.Records.{opened_to, event_marked, event_cleared, vector_marked, vector_cleared, resetted, has_pending, fresh_subject};

use bits::{Bits64, Bits256};
use meaning::SubjectVector;

#[derive(Clone, Copy, Drop)]
pub struct Subject {
    pub open: bool,
    pub events: Bits64,
    pub vectors: Bits256,
}

impl Subject {
    // Nothing pending, closed.
    pub fn fresh() -> Subject
        ensures { result ≡ fresh_subject }
    {
        Subject {
            open: false,
            events: Bits64::none(),
            vectors: Bits256::none(),
        }
    }

    // Open, or closed.
    pub fn set_open(self, flag: bool) -> Subject
        ensures { result ≡ opened_to self flag }
    {
        Subject { open: flag, ..self }
    }

    pub fn mark_event(self, event: u8) -> Subject
        ensures { result ≡ event_marked self event }
    {
        Subject {
            events: self.events.mark(event),
            ..self
        }
    }

    pub fn clear_event(self, event: u8) -> Subject
        ensures { result ≡ event_cleared self event }
    {
        Subject {
            events: self.events.clear(event),
            ..self
        }
    }

    pub fn mark_vector(self, vector: SubjectVector) -> Subject
        ensures { result ≡ vector_marked self vector }
    {
        Subject {
            vectors: self.vectors.mark(vector.0),
            ..self
        }
    }

    pub fn clear_vector(self, vector: SubjectVector) -> Subject
        ensures { result ≡ vector_cleared self vector }
    {
        Subject {
            vectors: self.vectors.clear(vector.0),
            ..self
        }
    }

    // No vector is pending, and it is closed; events stay.
    pub fn reset(mut self) -> Subject
        ensures { result ≡ resetted self }
    {
        self.vectors = Bits256::none();
        self.open = false;
        self
    }

    // Whether an event or vector is pending.
    pub fn has_pending(self) -> bool
        ensures { result ≡ has_pending self }
    {
        !self.events.is_empty() || !self.vectors.is_empty()
    }
}
