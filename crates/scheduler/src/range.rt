// The list of refusal 80, of a state.
#![tactic(auto, unfolding(crate::specs::Range::active_on, crate::specs::Range::entered_in_range, crate::specs::Range::in_range, programs::specs::Parts::active_subject))]

ghost use Rattle.std.specs.Prelude.{◌≡◌};
ghost use Rattle.scheduler.specs.Range.{active_on, entered_in_range, in_range};

use crate::state::{NOBODY, State};
use rows::counts_of;

impl State {
    // The active subject of the active group of the partition current on a CPU.
    fn active_on(self, rows: &[u64], cpu: u8) -> u8
        ensures { result ≡ active_on rows.now self cpu }
    {
        let partition = self.clock.current_partition(rows, cpu);
        let group = self.programs.active_group(partition);
        self.programs.group_at(group).active
    }

    fn entered_in_range(self, rows: &[u64], cpu: u8) -> bool
        ensures { result ≡ entered_in_range rows.now self cpu }
    {
        let entered = self.entered_on(cpu);
        entered == NOBODY || (!self.clock.waiting(cpu) && entered == self.active_on(rows, cpu))
    }

    pub fn in_range(self, rows: &[u64]) -> bool
        ensures { result ≡ in_range rows.now self }
    {
        self.clock.in_range(rows)
            && self.programs.in_range(rows)
            && (0..counts_of(rows).cpus).all(|cpu| self.entered_in_range(rows, cpu))
    }
}
