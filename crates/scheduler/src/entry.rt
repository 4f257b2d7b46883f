// Who is entered next on a CPU.
#![tactic(auto, unfolding(crate::specs::Entry::injected_of, crate::specs::Entry::enters, crate::specs::Entry::admitted, crate::specs::Entry::entry_of, programs::specs::Parts::active_subject))]

ghost use Rattle.std.specs.Prelude.{◌≡◌};
ghost use Rattle.scheduler.specs.Entry.{enters, admitted, entry_of};

use crate::state::{NOBODY, State, Stepped};
use calls::{Answer, Notes};
use meaning::SubjectVector;

impl State {
    // A subject is entered on a CPU.
    fn enters(self, rows: &[u64], cpu: u8, subject: u8, notes: Notes) -> Stepped
        ensures { result ≡ enters rows.now self cpu subject notes }
    {
        let entering = self.programs.entering(rows, subject);
        Stepped {
            state: self
                .with_programs(entering.programs)
                .with_entered(cpu, subject),
            answer: Answer::Enter {
                subject,
                left: self.clock.ticks_left(cpu),
                injected: entering.vector.map(SubjectVector),
                reset: entering.reset,
                notes,
            },
        }
    }

    // The group that was found becomes active and its active subject is entered; with none awake, idle.
    fn admitted(
        self,
        rows: &[u64],
        cpu: u8,
        partition: u8,
        notes: Notes,
        found: Option<u8>,
    ) -> Stepped
        ensures { result ≡ admitted rows.now self cpu partition notes found }
    {
        match found {
            None => Stepped {
                state: self.with_entered(cpu, NOBODY),
                answer: Answer::Idle {
                    left: self.clock.ticks_left(cpu),
                    notes,
                },
            },
            Some(group) => {
                let subject = self.programs.group_at(group).active;
                self.with_programs(self.programs.with_active(partition, group))
                    .enters(rows, cpu, subject, notes)
            }
        }
    }

    pub(crate) fn entry(self, rows: &[u64], cpu: u8, notes: Notes) -> Stepped
        ensures { result ≡ entry_of rows.now self cpu notes }
    {
        if self.clock.waiting(cpu) {
            return Stepped {
                state: self.with_entered(cpu, NOBODY),
                answer: Answer::Wait,
            };
        }
        let partition = self.clock.current_partition(rows, cpu);
        let found = self.programs.chosen_group(rows, partition);
        self.admitted(rows, cpu, partition, notes, found)
    }
}
