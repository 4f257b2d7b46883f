// One call: refusals 80 to 85, first that applies, then the call.
#![tactic(auto, unfolding(crate::specs::Steps::no_such, crate::specs::Steps::bad_flag, crate::specs::Steps::minds, crate::specs::Steps::after_stop, crate::specs::Steps::nobody_there, crate::specs::Steps::answered, crate::specs::Steps::served, crate::specs::Steps::step_of, policy::specs::Writes::known_rows))]

ghost use Rattle.std.specs.Prelude.{◌≡◌};
ghost use Rattle.scheduler.specs.Steps.{no_such, bad_flag, minds, after_stop, nobody_there, answered, served, step_of};

use crate::state::{NOBODY, State, Stepped};
use calls::{Call, Refusal};
use policy::Policy;
use policy::own_text::known_rows;
use rows::counts_of;

// A flag goes to so much.
const HIGHEST_FLAG: u8 = 1;

// 82: no such CPU, major or partition.
fn no_such(rows: &[u64], call: Call) -> bool
    ensures { result ≡ no_such rows.now call }
{
    let counts = counts_of(rows);
    match call {
        Call::Tick { cpu, .. }
        | Call::Hypercall { cpu, .. }
        | Call::Trap { cpu, .. }
        | Call::Interrupt { cpu, .. } => counts.cpus <= cpu,
        Call::Choose { major } => counts.majors <= major,
        Call::Report { partition } => counts.partitions <= partition,
        Call::Masks => false,
    }
}

// 83: flag not 00 or 01.
fn bad_flag(call: Call) -> bool
    ensures { result ≡ bad_flag call }
{
    match call {
        Call::Tick { flag, .. }
        | Call::Hypercall { flag, .. }
        | Call::Trap { flag, .. }
        | Call::Interrupt { flag, .. } => HIGHEST_FLAG < flag,
        Call::Choose { .. } | Call::Report { .. } | Call::Masks => false,
    }
}

// Whether a stop matters to a call.
fn minds(call: Call) -> bool
    ensures { result ≡ minds call }
{
    !matches!(call, Call::Report { .. } | Call::Masks)
}

impl State {
    // 84: stopped, but not for 15 and 16.
    fn after_stop(self, call: Call) -> bool
        ensures { result ≡ after_stop self call }
    {
        self.stopped && minds(call)
    }

    // 85: hypercall or trap with nobody entered.
    fn nobody_there(self, call: Call) -> bool
        ensures { result ≡ nobody_there self call }
    {
        match call {
            Call::Hypercall { cpu, .. } | Call::Trap { cpu, .. } => self.entered_on(cpu) == NOBODY,
            _ => false,
        }
    }

    // 82 to 85, then the call.
    fn answered(self, rows: &[u64], call: Call) -> Stepped
        ensures { result ≡ answered rows.now self call }
    {
        if no_such(rows, call) {
            return self.refused(Refusal::NoSuch);
        }
        if bad_flag(call) {
            return self.refused(Refusal::BadFlag);
        }
        if self.after_stop(call) {
            return self.refused(Refusal::Stopped);
        }
        if self.nobody_there(call) {
            return self.refused(Refusal::NobodyEntered);
        }
        self.called(rows, call)
    }
}

// A call of a state that is in range, under a policy that is known.
pub fn serve(rows: &[u64], state: State, heard: Option<Call>) -> Stepped
    ensures { result ≡ served rows.now state heard }
{
    let Some(call) = heard else {
        return state.refused(Refusal::IllFormed);
    };
    state.answered(rows, call)
}

// A call of any policy and state whatever.
pub fn step(policy: Policy, state: State, heard: Option<Call>) -> Stepped
    ensures { result ≡ step_of policy state heard }
{
    if !known_rows(&policy.rows) || !state.in_range(&policy.rows) {
        return state.refused(Refusal::OutOfRange);
    }
    serve(&policy.rows, state, heard)
}
