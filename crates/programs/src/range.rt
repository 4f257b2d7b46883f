// The part of refusal 80 that speaks of groups and subjects.
#![tactic(auto, unfolding(crate::specs::Parts::active_subject, crate::specs::Range::group_in_range, crate::specs::Range::subject_in_range, crate::specs::Range::masks_in_range, crate::specs::Range::programs_in_range))]

ghost use Rattle.std.specs.Prelude.{◌≡◌};
ghost use Rattle.rules.specs.Rules.{all_below};
ghost use Rattle.programs.specs.Range.{group_in_range, subject_in_range, programs_in_range};

use crate::whole::Programs;
use rows::{counts_of, group_of, partition_of};

// One past the highest set of masked lines: 24 lines, a bit for each.
const MASKS: u64 = 1 << 24;

impl Programs {
    fn group_in_range(self, rows: &[u64], partition: u8) -> bool
        ensures { result ≡ group_in_range rows.now self partition }
    {
        let group = self.active_group(partition);
        group < counts_of(rows).groups && partition_of(rows, group) == partition
    }

    fn groups_in_range_below(self, rows: &[u64], count: u8) -> bool
        ensures { result ≡ all_below count (group_in_range rows.now self) }
    {
        (0..count).all(|partition| self.group_in_range(rows, partition))
    }

    fn subject_in_range(self, rows: &[u64], group: u8) -> bool
        ensures { result ≡ subject_in_range rows.now self group }
    {
        let subject = self.group_at(group).active;
        subject < counts_of(rows).subjects && group_of(rows, subject) == group
    }

    fn subjects_in_range_below(self, rows: &[u64], count: u8) -> bool
        ensures { result ≡ all_below count (subject_in_range rows.now self) }
    {
        (0..count).all(|group| self.subject_in_range(rows, group))
    }

    pub fn in_range(self, rows: &[u64]) -> bool
        ensures { result ≡ programs_in_range rows.now self }
    {
        let counts = counts_of(rows);
        self.groups_in_range_below(rows, counts.partitions)
            && self.subjects_in_range_below(rows, counts.groups)
            && self.masks.words[0] < MASKS
    }
}
