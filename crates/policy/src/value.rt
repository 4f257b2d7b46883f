// The policy: one table, with a row for each line of its text (crate rows).
#![tactic(auto, unfolding(crate::specs::Reads::zero_policy))]

ghost use Rattle.std.specs.Prelude.{◌≡◌};
ghost use Rattle.policy.specs.Reads.{zero_policy};

use rows::ROWS;

#[derive(Clone, Copy, Drop)]
pub struct Policy {
    pub rows: [u64; ROWS],
}

impl Policy {
    // All zeros: beside a refusal.
    pub fn zero() -> Policy
        ensures { result ≡ zero_policy }
    {
        Policy { rows: [0; ROWS] }
    }
}
