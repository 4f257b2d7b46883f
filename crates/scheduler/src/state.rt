// The state: plan time, the programs, who is entered on each CPU, whether the core has stopped.
#![tactic(auto, unfolding(crate::specs::States::entered_on, crate::specs::States::with_clock, crate::specs::States::with_programs, crate::specs::States::with_entered, crate::specs::States::fresh_state, crate::specs::States::zero_clock, crate::specs::States::zero_state, crate::specs::States::flag_stored, crate::specs::States::alone_on, crate::specs::States::halted))]

ghost use Rattle.std.specs.Prelude.{◌≡◌};
ghost use Rattle.scheduler.specs.States.{entered_on, with_clock, with_programs, with_entered, fresh_state, zero_state, flag_stored, alone_on, halted};

use calls::Answer;
use clock::time::{CPUS, PARTITIONS};
use clock::{Clock, CpuClock};
use programs::Programs;
use rows::{item_or, store};

// Who is entered where nobody is.
pub const NOBODY: u8 = 255;

// The flag of a subject that is open.
const OPEN: u8 = 1;

#[derive(Clone, Copy, Drop)]
pub struct State {
    pub clock: Clock,
    pub programs: Programs,
    // The subject entered on each CPU, or nobody: numbers, since a state that is handed in may hold any.
    pub entered: [u8; CPUS],
    pub stopped: bool,
}

// The state after a call, and the call's answer.
#[derive(Clone, Copy, Drop)]
pub struct Stepped {
    pub state: State,
    pub answer: Answer,
}

impl State {
    // Who is entered on a CPU.
    pub fn entered_on(self, cpu: u8) -> u8
        ensures { result ≡ entered_on self cpu }
    {
        item_or(&self.entered, cpu as usize, NOBODY)
    }

    pub(crate) fn with_clock(self, clock: Clock) -> State
        ensures { result ≡ with_clock self clock }
    {
        State { clock, ..self }
    }

    pub(crate) fn with_programs(self, programs: Programs) -> State
        ensures { result ≡ with_programs self programs }
    {
        State { programs, ..self }
    }

    pub(crate) fn with_entered(mut self, cpu: u8, subject: u8) -> State
        ensures { result ≡ with_entered self cpu subject }
    {
        store(&mut self.entered, cpu as usize, subject);
        self
    }

    // The state at the start.
    pub fn fresh(rows: &[u64]) -> State
        ensures { result ≡ fresh_state rows.now }
    {
        State {
            clock: Clock::fresh(rows),
            programs: Programs::fresh(rows),
            entered: [NOBODY; CPUS],
            stopped: false,
        }
    }

    // All zeros, beside a refused start: as a number, entered is subject 0 on each CPU. No call is answered from it but by 80.
    pub fn zero() -> State
        ensures { result ≡ zero_state }
    {
        State {
            clock: Clock {
                major: 0,
                next: 0,
                cpus: [CpuClock { minor: 0, left: 0 }; CPUS],
                now: [0; PARTITIONS],
                last: [0; PARTITIONS],
            },
            programs: Programs::zero(),
            entered: [0; CPUS],
            stopped: false,
        }
    }

    // The flag of the exiting subject is stored, if somebody is entered.
    pub(crate) fn flag_stored(self, cpu: u8, flag: u8) -> State
        ensures { result ≡ flag_stored self cpu flag }
    {
        let subject = self.entered_on(cpu);
        if subject == NOBODY {
            return self;
        }
        let stored = self.programs.subject_at(subject).set_open(flag == OPEN);
        self.with_programs(self.programs.with_subject(subject, stored))
    }

    // Nobody is entered on the other CPUs.
    pub(crate) fn alone_on(self, cpu: u8) -> State
        ensures { result ≡ alone_on self cpu }
    {
        let mut entered = [NOBODY; CPUS];
        store(&mut entered, cpu as usize, self.entered_on(cpu));
        State { entered, ..self }
    }

    // Nobody is entered on any CPU, and no call goes on.
    pub(crate) fn halted(mut self) -> State
        ensures { result ≡ halted self }
    {
        self.entered = [NOBODY; CPUS];
        self.stopped = true;
        self
    }
}
