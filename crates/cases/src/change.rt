// A policy with a row changed.
ghost use Rattle.std.specs.Prelude.{◌≡◌, set};
ghost use Rattle.cases.specs.Changes.{row_of};

use hexline::byte_at;
use policy::Policy;
use rows::store;

// The row that sixteen digits spell.
#[tactic(auto, unfolding(crate::specs::Changes::row_of))]
pub fn row_of(digits: &[u8]) -> u64
    ensures { result ≡ row_of digits.now }
{
    u64::from_be_bytes(std::array::from_fn(|k| byte_at(digits, k)))
}

// The policy with one row changed; past the table's end there is none.
pub fn with_row(policy: Policy, place: usize, row: u64) -> Policy
    ensures { result.rows ≡ set policy.rows place row }
{
    let mut rows = policy.rows;
    store(&mut rows, place, row);
    Policy { rows }
}
