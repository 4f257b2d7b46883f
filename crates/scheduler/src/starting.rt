// From the reader's answer: a start, or the refusal with its line.
#![tactic(auto, unfolding(crate::specs::Start::not_started, crate::specs::Start::started_with, crate::specs::Start::started_by, crate::specs::Start::start_of, policy::specs::Writes::known_rows))]

ghost use Rattle.std.specs.Prelude.{◌≡◌};
ghost use Rattle.scheduler.specs.Start.{not_started, started_with, start_of};

use crate::state::State;
use policy::own_text::known_rows;
use policy::{Policy, Reading};
use rules::Refusal;

// The verdict, and beside it the state: fresh, or all zeros where nothing is started.
#[derive(Clone, Copy, Drop)]
pub struct Started {
    pub verdict: Result<(), Refusal>,
    pub state: State,
}

// Nothing is started; the refusal is handed up with its line.
fn not_started(verdict: Result<(), Refusal>) -> Started
    ensures { result ≡ not_started verdict }
{
    Started {
        verdict,
        state: State::zero(),
    }
}

// From a policy handed in.
pub fn start_with(policy: Policy) -> Started
    ensures { result ≡ started_with policy }
{
    if !known_rows(&policy.rows) {
        return not_started(Err(Refusal::NotAPolicy));
    }
    Started {
        verdict: Ok(()),
        state: State::fresh(&policy.rows),
    }
}

pub fn start(reading: Reading) -> Started
    ensures { result ≡ start_of reading }
{
    let Ok(()) = reading.verdict else {
        return not_started(reading.verdict);
    };
    start_with(reading.policy)
}
