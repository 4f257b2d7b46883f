// P6 and P8, at 0A: everything given and used, and the CPUs of a major with one sum.
ghost use Rattle.std.specs.Prelude.{◌≡◌, eqb};
ghost use Rattle.rows.specs.Lookups.{framed, partition_of, group_of};
ghost use Rattle.rules.specs.Rules.{all_below, any_below, all_given, all_used, all_framed, complete, even, incomplete, uneven};
ghost use Rattle.rules.specs.Plan.{period_by};
ghost use Rattle.rules.specs.Tables.{said_by};

use crate::plan::period;
use records::Record;
use rows::{
    counts_of, group_given, group_of, is_framed, partition_given, partition_of, subject_given,
};

// Whether some group is in the partition.
fn has_group(rows: &[u64], groups: u8, partition: u8) -> bool
    ensures { result ≡ any_below groups (λ g. eqb (partition_of rows.now g) partition) }
{
    (0..groups).any(|g| partition_of(rows, g) == partition)
}

// Whether some subject is in the group.
fn has_subject(rows: &[u64], subjects: u8, group: u8) -> bool
    ensures { result ≡ any_below subjects (λ s. eqb (group_of rows.now s) group) }
{
    (0..subjects).any(|s| group_of(rows, s) == group)
}

// Whether each CPU has a minor frame in the major.
fn cpus_framed(rows: &[u64], major: u8, cpus: u8) -> bool
    ensures { result ≡ all_below cpus (λ c. framed rows.now major c) }
{
    (0..cpus).all(|c| is_framed(rows, major, c))
}

// Whether each CPU has the sum of CPU 0 in the major: the major's period.
fn cpus_even(rows: &[u64], major: u8, cpus: u8) -> bool
    ensures { result ≡ all_below cpus (λ c. eqb (period_by rows.now major c) (period_by rows.now major 0)) }
{
    let common = period(rows, major, 0);
    (0..cpus).all(|c| period(rows, major, c) == common)
}

// Whether each partition, group and subject has a line.
fn all_given(rows: &[u64]) -> bool
    ensures { result ≡ all_given (said_by rows.now) }
{
    let n = counts_of(rows);
    (0..n.partitions).all(|q| partition_given(rows, q))
        && (0..n.groups).all(|g| group_given(rows, g))
        && (0..n.subjects).all(|s| subject_given(rows, s))
}

// Whether each partition has a group, and each group a subject.
fn all_used(rows: &[u64]) -> bool
    ensures { result ≡ all_used (said_by rows.now) }
{
    let n = counts_of(rows);
    (0..n.partitions).all(|q| has_group(rows, n.groups, q))
        && (0..n.groups).all(|g| has_subject(rows, n.subjects, g))
}

// Whether each CPU has a minor frame in each major.
fn all_framed(rows: &[u64]) -> bool
    ensures { result ≡ all_framed (said_by rows.now) }
{
    let n = counts_of(rows);
    (0..n.majors).all(|m| cpus_framed(rows, m, n.cpus))
}

// The count of lines is right, and everything is given and used.
#[tactic(auto, unfolding(crate::specs::Rules::complete))]
fn is_complete(rows: &[u64], lines: u16, count: u16) -> bool
    ensures { result ≡ complete (said_by rows.now) lines count }
{
    count == lines && all_given(rows) && all_used(rows) && all_framed(rows)
}

// Whether in each major each CPU has one sum.
fn all_even(rows: &[u64]) -> bool
    ensures { result ≡ even (said_by rows.now) }
{
    let n = counts_of(rows);
    (0..n.majors).all(|m| cpus_even(rows, m, n.cpus))
}

#[tactic(auto, unfolding(crate::specs::Rules::incomplete))]
pub(crate) fn is_incomplete(rows: &[u64], lines: u16, rec: Record) -> bool
    ensures { result ≡ incomplete (said_by rows.now) lines rec }
{
    matches!(rec, Record::End { count } if !is_complete(rows, lines, count))
}

#[tactic(auto, unfolding(crate::specs::Rules::uneven))]
pub(crate) fn is_uneven(rows: &[u64], rec: Record) -> bool
    ensures { result ≡ uneven (said_by rows.now) rec }
{
    matches!(rec, Record::End { .. }) && !all_even(rows)
}
