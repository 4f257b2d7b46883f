// What the lines of a table say of partitions, groups, subjects and plans. Past a part's keys a lookup says nothing that counts.
ghost use Rattle.std.specs.Prelude.{◌≡◌, ◌%◌, get_or};
ghost use Rattle.rows.specs.Lookups.{counts_of, given, partition_given, cpu_of, group_given, partition_of, subject_given, group_of, default_of, framed, length_at};

use crate::place::{GROUPS, PARTITIONS, SUBJECTS, frames_place};
use crate::row::counts_in;
use crate::table::row_at;
use records::Counts;

// The header's counts.
#[tactic(auto, unfolding(crate::specs::Lookups::counts_of))]
pub fn counts_of(rows: &[u64]) -> Counts
    ensures { result ≡ counts_of rows.now }
{
    counts_in(row_at(rows, 0))
}

// Whether a line has its row at a place.
#[tactic(auto, unfolding(crate::specs::Lookups::given))]
pub fn row_given(rows: &[u64], place: usize) -> bool
    ensures { result ≡ given rows.now place }
{
    row_at(rows, place) != 0
}

// The last byte of the row at a place.
fn last_byte(rows: &[u64], place: usize) -> u8
    ensures { result ≡ get_or rows.now place 0 % 256 }
{
    let [.., last] = row_at(rows, place).to_be_bytes();
    last
}

// Whether a line gives the partition.
#[tactic(auto, unfolding(crate::specs::Lookups::partition_given))]
pub fn partition_given(rows: &[u64], partition: u8) -> bool
    ensures { result ≡ partition_given rows.now partition }
{
    row_given(rows, PARTITIONS + partition as usize)
}

// The CPU of a partition.
#[tactic(auto, unfolding(crate::specs::Lookups::cpu_of))]
pub fn cpu_of(rows: &[u64], partition: u8) -> u8
    ensures { result ≡ cpu_of rows.now partition }
{
    last_byte(rows, PARTITIONS + partition as usize)
}

// Whether a line gives the group.
#[tactic(auto, unfolding(crate::specs::Lookups::group_given))]
pub fn group_given(rows: &[u64], group: u8) -> bool
    ensures { result ≡ group_given rows.now group }
{
    row_given(rows, GROUPS + group as usize)
}

// The partition of a group.
#[tactic(auto, unfolding(crate::specs::Lookups::partition_of))]
pub fn partition_of(rows: &[u64], group: u8) -> u8
    ensures { result ≡ partition_of rows.now group }
{
    last_byte(rows, GROUPS + group as usize)
}

// Whether a line gives the subject.
#[tactic(auto, unfolding(crate::specs::Lookups::subject_given))]
pub fn subject_given(rows: &[u64], subject: u8) -> bool
    ensures { result ≡ subject_given rows.now subject }
{
    row_given(rows, SUBJECTS + subject as usize)
}

// The group of a subject.
#[tactic(auto, unfolding(crate::specs::Lookups::group_of))]
pub fn group_of(rows: &[u64], subject: u8) -> u8
    ensures { result ≡ group_of rows.now subject }
{
    let [.., group, _] = row_at(rows, SUBJECTS + subject as usize).to_be_bytes();
    group
}

// The CPU of a subject, by its group and partition.
pub fn home_of(rows: &[u64], subject: u8) -> u8
    ensures { result ≡ cpu_of rows.now (partition_of rows.now (group_of rows.now subject)) }
{
    cpu_of(rows, partition_of(rows, group_of(rows, subject)))
}

// The default trap event of a subject.
#[tactic(auto, unfolding(crate::specs::Lookups::default_of))]
pub fn default_of(rows: &[u64], subject: u8) -> u8
    ensures { result ≡ default_of rows.now subject }
{
    last_byte(rows, SUBJECTS + subject as usize)
}

// Whether a major and CPU has a minor frame.
#[tactic(auto, unfolding(crate::specs::Lookups::framed))]
pub fn is_framed(rows: &[u64], major: u8, cpu: u8) -> bool
    ensures { result ≡ framed rows.now major cpu }
{
    row_given(rows, frames_place(major, cpu))
}

// The length of a minor frame of a major and CPU; 0 where there is none.
#[tactic(auto, unfolding(crate::specs::Lookups::length_at, crate::specs::Places::frames_place))]
pub fn length_at(rows: &[u64], major: u8, cpu: u8, minor: u8) -> u16
    ensures { result ≡ length_at rows.now major cpu minor }
{
    let [.., high, low] = row_at(rows, frames_place(major, cpu) + minor as usize).to_be_bytes();
    u16::from_be_bytes([high, low])
}
