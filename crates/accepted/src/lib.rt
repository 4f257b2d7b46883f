// Laws alone: what the policy of an accepted text says, and what it has.
#![tactic(auto)]

ghost use Rattle.accepted.specs.Lawful.{Lawful};

// No code: that a policy means its text, and has what the scheduler needs, is this function's contract.
#[tactic(auto, using(crate::proofs::Laws::laws))]
pub fn lawful()
    ensures { Lawful }
{}
