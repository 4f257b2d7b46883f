// All programs: their parts read and stored. What is said of a partition, group or subject that no policy has is group 0, asleep,
// nothing pending; to store there changes nothing.
#![tactic(auto, unfolding(crate::specs::Parts::group_at, crate::specs::Parts::subject_at, crate::specs::Parts::active_group, crate::specs::Parts::with_group, crate::specs::Parts::with_subject, crate::specs::Parts::with_active, crate::specs::Parts::with_masks))]

ghost use Rattle.std.specs.Prelude.{◌≡◌};
ghost use Rattle.programs.specs.Parts.{group_at, subject_at, active_group, with_group, with_subject, with_active, with_masks};

use crate::group::{Group, NO_GROUP};
use crate::subject::Subject;
use bits::Bits64;
use rows::{item_or, store};

pub const PARTITIONS: usize = 8;

pub const GROUPS: usize = 16;

pub const SUBJECTS: usize = 16;

#[derive(Clone, Copy, Drop)]
pub struct Programs {
    // The active group of each partition.
    pub actives: [u8; PARTITIONS],
    pub groups: [Group; GROUPS],
    pub subjects: [Subject; SUBJECTS],
    // The masked IRQ lines.
    pub masks: Bits64,
}

impl Programs {
    pub fn group_at(self, group: u8) -> Group
        ensures { result ≡ group_at self group }
    {
        item_or(&self.groups, group as usize, NO_GROUP)
    }

    pub fn subject_at(self, subject: u8) -> Subject
        ensures { result ≡ subject_at self subject }
    {
        item_or(&self.subjects, subject as usize, Subject::fresh())
    }

    // The active group of a partition.
    pub fn active_group(self, partition: u8) -> u8
        ensures { result ≡ active_group self partition }
    {
        item_or(&self.actives, partition as usize, 0)
    }

    pub fn with_group(mut self, group: u8, kept: Group) -> Programs
        ensures { result ≡ with_group self group kept }
    {
        store(&mut self.groups, group as usize, kept);
        self
    }

    pub fn with_subject(mut self, subject: u8, kept: Subject) -> Programs
        ensures { result ≡ with_subject self subject kept }
    {
        store(&mut self.subjects, subject as usize, kept);
        self
    }

    pub fn with_active(mut self, partition: u8, group: u8) -> Programs
        ensures { result ≡ with_active self partition group }
    {
        store(&mut self.actives, partition as usize, group);
        self
    }

    pub fn with_masks(self, masks: Bits64) -> Programs
        ensures { result ≡ with_masks self masks }
    {
        Programs { masks, ..self }
    }
}
