// The programs at the start, and all zeros beside a refused start.
#![tactic(auto, unfolding(crate::specs::Fresh::lowest_group, crate::specs::Fresh::lowest_subject, crate::specs::Fresh::fresh_actives, crate::specs::Fresh::fresh_group, crate::specs::Fresh::fresh_groups, crate::specs::Fresh::fresh_programs, crate::specs::Fresh::zero_programs))]

ghost use Rattle.std.specs.Prelude.{◌≡◌};
ghost use Rattle.programs.specs.Fresh.{lowest_group, fresh_actives, fresh_group, lowest_subject, fresh_groups, fresh_programs, zero_programs};

use crate::group::{Group, NO_GROUP};
use crate::subject::Subject;
use crate::whole::{GROUPS, PARTITIONS, Programs, SUBJECTS};
use bits::Bits64;
use rows::{counts_of, group_of, partition_of};
use std::array::from_fn;

// The lowest group of a partition; 0 where there is none.
fn lowest_group(rows: &[u64], partition: u8) -> u8
    ensures { result ≡ lowest_group rows.now partition }
{
    (0..counts_of(rows).groups)
        .find(|&group| partition_of(rows, group) == partition)
        .unwrap_or(0)
}

// The lowest subject of a group; 0 where there is none.
fn lowest_subject(rows: &[u64], group: u8) -> u8
    ensures { result ≡ lowest_subject rows.now group }
{
    (0..counts_of(rows).subjects)
        .find(|&subject| group_of(rows, subject) == group)
        .unwrap_or(0)
}

// The lowest group of each partition.
fn fresh_actives(rows: &[u64]) -> [u8; PARTITIONS]
    ensures { result ≡ fresh_actives rows.now }
{
    from_fn(|partition| lowest_group(rows, partition as u8))
}

// A group at the start: awake, its lowest subject active.
fn fresh_group(rows: &[u64], group: u8) -> Group
    ensures { result ≡ fresh_group rows.now group }
{
    Group {
        awake: true,
        active: lowest_subject(rows, group),
    }
}

// All of them.
fn fresh_groups(rows: &[u64]) -> [Group; GROUPS]
    ensures { result ≡ fresh_groups rows.now }
{
    from_fn(|group| fresh_group(rows, group as u8))
}

impl Programs {
    pub fn fresh(rows: &[u64]) -> Programs
        ensures { result ≡ fresh_programs rows.now }
    {
        Programs {
            actives: fresh_actives(rows),
            groups: fresh_groups(rows),
            subjects: [Subject::fresh(); SUBJECTS],
            masks: Bits64::none(),
        }
    }

    // All zeros: beside a refused start.
    pub fn zero() -> Programs
        ensures { result ≡ zero_programs }
    {
        Programs {
            actives: [0; PARTITIONS],
            groups: [NO_GROUP; GROUPS],
            subjects: [Subject::fresh(); SUBJECTS],
            masks: Bits64::none(),
        }
    }
}
