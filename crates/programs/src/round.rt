// The next awake group of a partition, round by number; and whether a group has something pending.
#![tactic(auto, unfolding(crate::specs::Round::after, crate::specs::Round::may_run, crate::specs::Round::next_of, crate::specs::Round::chosen_group, crate::specs::Round::pending_in, crate::specs::Round::group_pending))]

ghost use Rattle.std.specs.Prelude.{◌≡◌};
ghost use Rattle.programs.specs.Round.{after, may_run, next_awake, next_of, chosen_group, pending_in, group_pending};

use crate::whole::Programs;
use rows::{counts_of, group_of, partition_of};

// The group after a group, by number; after the last comes the first.
fn after(groups: u8, group: u8) -> u8
    ensures { result ≡ after groups group }
{
    match group.checked_add(1) {
        Some(next) if next < groups => next,
        _ => 0,
    }
}

impl Programs {
    // Whether a group is of the partition and awake.
    fn may_run(self, rows: &[u64], partition: u8, group: u8) -> bool
        ensures { result ≡ may_run rows.now self partition group }
    {
        partition_of(rows, group) == partition && self.group_at(group).awake
    }

    // The first of the groups after a group, so many of them, that is of the partition and awake.
    #[tactic(auto, using(crate::proofs::CodeLaws::next_left))]
    fn next_awake(self, rows: &[u64], partition: u8, left: u8, group: u8) -> Option<u8>
        ensures { result ≡ next_awake rows.now self partition left group }
    {
        if left == 0 {
            return None;
        }
        let next = after(counts_of(rows).groups, group);
        if self.may_run(rows, partition, next) {
            return Some(next);
        }
        self.next_awake(rows, partition, left - 1, next)
    }

    // The next awake group after the active one of a partition, ending at itself.
    pub(crate) fn next_of(self, rows: &[u64], partition: u8) -> Option<u8>
        ensures { result ≡ next_of rows.now self partition }
    {
        self.next_awake(
            rows,
            partition,
            counts_of(rows).groups,
            self.active_group(partition),
        )
    }

    // The active group of a partition if awake, or the next awake.
    pub fn chosen_group(self, rows: &[u64], partition: u8) -> Option<u8>
        ensures { result ≡ chosen_group rows.now self partition }
    {
        let active = self.active_group(partition);
        if self.group_at(active).awake {
            return Some(active);
        }
        self.next_of(rows, partition)
    }

    // Whether a subject is of the group and has something pending.
    fn pending_in(self, rows: &[u64], group: u8, subject: u8) -> bool
        ensures { result ≡ pending_in rows.now self group subject }
    {
        group_of(rows, subject) == group && self.subject_at(subject).has_pending()
    }

    // Whether any subject of a group has an event or vector pending.
    pub(crate) fn group_pending(self, rows: &[u64], group: u8) -> bool
        ensures { result ≡ group_pending rows.now self group }
    {
        (0..counts_of(rows).subjects).any(|subject| self.pending_in(rows, group, subject))
    }
}
