// What calls are played on: the policy and the state that are handed in.
use policy::Policy;
use scheduler::State;

#[derive(Clone, Copy, Drop)]
pub(crate) struct Bench {
    pub policy: Policy,
    pub state: State,
}
