// What a source event does: its action first, then its target event.
#![tactic(auto, unfolding(crate::specs::Source::moved_to, crate::specs::Source::yielded, crate::specs::Source::slept, crate::specs::Source::handed_over, crate::specs::Source::unmasked, crate::specs::Source::acted, crate::specs::Source::handled))]

ghost use Rattle.std.specs.Prelude.{◌≡◌};
ghost use Rattle.programs.specs.Source.{moved_to, yielded, slept, handed_over, unmasked, acted, handled};

use crate::whole::Programs;
use meaning::{Action, IrqLine, SourceEvent};
use rows::{group_of, partition_of};

impl Programs {
    // The group that was found becomes active.
    fn moved_to(self, partition: u8, found: Option<u8>) -> Programs
        ensures { result ≡ moved_to self partition found }
    {
        found.map_or(self, |group| self.with_active(partition, group))
    }

    // The next awake group of the partition becomes active.
    fn yielded(self, rows: &[u64], partition: u8) -> Programs
        ensures { result ≡ yielded rows.now self partition }
    {
        self.moved_to(partition, self.next_of(rows, partition))
    }

    // The group falls asleep, unless something is pending in it.
    fn slept(self, rows: &[u64], group: u8) -> Programs
        ensures { result ≡ slept rows.now self group }
    {
        if self.group_pending(rows, group) {
            return self.yielded(rows, partition_of(rows, group));
        }
        self.with_group(group, self.group_at(group).sleep())
    }

    // The target becomes the group's active subject.
    fn handed_over(self, group: u8, subject: u8) -> Programs
        ensures { result ≡ handed_over self group subject }
    {
        self.with_group(group, self.group_at(group).hand_over(subject))
    }

    // The line is masked no longer.
    fn unmasked(self, line: IrqLine) -> Programs
        ensures { result ≡ unmasked self line }
    {
        self.with_masks(self.masks.clear(line.0))
    }

    fn acted(self, rows: &[u64], subject: u8, action: Action) -> Programs
        ensures { result ≡ acted rows.now self subject action }
    {
        let group = group_of(rows, subject);
        match action {
            Action::Sleep => self.slept(rows, group),
            Action::Yield => self.yielded(rows, partition_of(rows, group)),
            Action::Handover(target) => self.handed_over(group, target),
            Action::Unmask(line) => self.unmasked(line),
            Action::Nothing | Action::Reboot | Action::PowerOff | Action::Panic => self,
        }
    }

    // A source event of a subject.
    pub fn handled(self, rows: &[u64], subject: u8, event: SourceEvent) -> Programs
        ensures { result ≡ handled rows.now self subject event }
    {
        self.acted(rows, subject, event.action)
            .signalled(rows, event.signal)
    }
}
