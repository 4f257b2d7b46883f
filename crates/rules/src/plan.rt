// The plan check: the lengths of the minor frames of one CPU, added.
ghost use Rattle.std.specs.Prelude.{◌≡◌};
ghost use Rattle.rules.specs.Plan.{plan_length, lengths_at, period_by};

use rows::length_at;

// At most so many minor frames each.
const MOST_FRAMES: usize = 8;

// The sum of the lengths, of the first eight where more are lent.
pub fn plan_length(lengths: &[u16]) -> u32
    ensures { result ≡ plan_length lengths.now }
{
    lengths
        .iter()
        .take(MOST_FRAMES)
        .map(|&length| u32::from(length))
        .sum()
}

// The lengths of the minor frames of a major and CPU, in plan order, and 0 where there are fewer.
#[tactic(auto, unfolding(crate::specs::Plan::lengths_at))]
fn lengths_of(rows: &[u64], major: u8, cpu: u8) -> [u16; 8]
    ensures { result ≡ lengths_at rows.now major cpu }
{
    [0, 1, 2, 3, 4, 5, 6, 7].map(|minor| length_at(rows, major, cpu, minor))
}

// The sum of the minor frames of a major and CPU.
#[tactic(auto, unfolding(crate::specs::Plan::period_by))]
pub(crate) fn period(rows: &[u64], major: u8, cpu: u8) -> u32
    ensures { result ≡ period_by rows.now major cpu }
{
    plan_length(&lengths_of(rows, major, cpu))
}
