// What an entry takes of the subject that is entered: its highest pending event, then, if it is open, its highest pending vector.
#![tactic(auto, unfolding(crate::specs::Entering::reacted, crate::specs::Entering::event_taken_at, crate::specs::Entering::event_taken, crate::specs::Entering::vector_taken_at, crate::specs::Entering::vector_taken, crate::specs::Entering::entering))]

ghost use Rattle.std.specs.Prelude.{◌≡◌};
ghost use Rattle.programs.specs.Entering.{reacted, event_taken, vector_taken, entering};

use crate::subject::Subject;
use crate::whole::Programs;
use meaning::{SubjectVector, TargetAction, target_event};

// The subject after its event was taken, and whether that was a reset.
#[derive(Clone, Copy, Drop)]
pub struct Taken {
    pub subject: Subject,
    pub reset: bool,
}

// The subject after its vector was taken, and which that was.
#[derive(Clone, Copy, Drop)]
pub struct Injection {
    pub subject: Subject,
    pub vector: Option<u8>,
}

// The programs after an entry, whether the subject was reset, and the vector injected.
#[derive(Clone, Copy, Drop)]
pub struct Entering {
    pub programs: Programs,
    pub reset: bool,
    pub vector: Option<u8>,
}

impl Subject {
    // What a taken event does.
    fn reacted(self, action: TargetAction) -> Taken
        ensures { result ≡ reacted self action }
    {
        match action {
            TargetAction::Nothing => Taken {
                subject: self,
                reset: false,
            },
            TargetAction::Inject(vector) => Taken {
                subject: self.mark_vector(vector),
                reset: false,
            },
            TargetAction::Reset => Taken {
                subject: self.reset(),
                reset: true,
            },
        }
    }

    // The highest pending event of the subject of a number is taken.
    fn event_taken(self, rows: &[u64], number: u8) -> Taken
        ensures { result ≡ event_taken rows.now number self }
    {
        let Some(event) = self.events.highest() else {
            return Taken {
                subject: self,
                reset: false,
            };
        };
        self.clear_event(event)
            .reacted(target_event(rows, number, event))
    }

    // If open, its highest pending vector is taken.
    fn vector_taken(self) -> Injection
        ensures { result ≡ vector_taken self }
    {
        if !self.open {
            return Injection {
                subject: self,
                vector: None,
            };
        }
        match self.vectors.highest() {
            Some(vector) => Injection {
                subject: self.clear_vector(SubjectVector(vector)),
                vector: Some(vector),
            },
            None => Injection {
                subject: self,
                vector: None,
            },
        }
    }
}

impl Programs {
    // The subject of a number is entered.
    pub fn entering(self, rows: &[u64], number: u8) -> Entering
        ensures { result ≡ entering rows.now self number }
    {
        let taken = self.subject_at(number).event_taken(rows, number);
        let injection = taken.subject.vector_taken();
        Entering {
            programs: self.with_subject(number, injection.subject),
            reset: taken.reset,
            vector: injection.vector,
        }
    }
}
