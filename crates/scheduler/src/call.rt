// The seven calls, of which none is refused here.
#![tactic(auto, unfolding(crate::specs::Calls::refused, crate::specs::Calls::ticked_as, crate::specs::Calls::tick_call, crate::specs::Calls::hypercall, crate::specs::Calls::trap_call, crate::specs::Calls::interrupt_call, crate::specs::Calls::choose_call, crate::specs::Calls::report_call, crate::specs::Calls::masks_call, crate::specs::Calls::called))]

ghost use Rattle.std.specs.Prelude.{◌≡◌};
ghost use Rattle.scheduler.specs.Calls.{refused, tick_call, hypercall, trap_call, interrupt_call, choose_call, report_call, masks_call, called};

use crate::event::{advances, hypercall_event, trap_source};
use crate::state::{State, Stepped};
use calls::{Answer, Call, Notes, Reason, Refusal};
use clock::Tick;
use meaning::HostVector;

// Traps above it stop.
const HIGHEST_TRAP: u8 = 59;

// Neither advance nor new frame, and no kick.
const PLAIN: Notes = Notes {
    advance: false,
    new_frame: false,
    kick: None,
};

// This tick opened a major frame.
const NEW_FRAME: Notes = Notes {
    advance: false,
    new_frame: true,
    kick: None,
};

impl State {
    // The very same state.
    pub(crate) fn refused(self, why: Refusal) -> Stepped
        ensures { result ≡ refused self why }
    {
        Stepped {
            state: self,
            answer: Answer::Refused(why),
        }
    }

    fn tick_call(self, rows: &[u64], cpu: u8, flag: u8) -> Stepped
        ensures { result ≡ tick_call rows.now self cpu flag }
    {
        let ticked = self.clock.tick(rows, cpu);
        match ticked.what {
            Tick::Wait => Stepped {
                state: self,
                answer: Answer::Wait,
            },
            Tick::GoOn => Stepped {
                state: self.with_clock(ticked.clock),
                answer: Answer::GoOn {
                    subject: self.entered_on(cpu),
                    left: ticked.clock.ticks_left(cpu),
                },
            },
            Tick::Moved => self
                .with_clock(ticked.clock)
                .flag_stored(cpu, flag)
                .entry(rows, cpu, PLAIN),
            Tick::Opened => self
                .with_clock(ticked.clock)
                .flag_stored(cpu, flag)
                .alone_on(cpu)
                .entry(rows, cpu, NEW_FRAME),
            Tick::Refused => self.refused(Refusal::OutOfRange),
        }
    }

    fn hypercall(self, rows: &[u64], cpu: u8, event: u8, flag: u8) -> Stepped
        ensures { result ≡ hypercall rows.now self cpu event flag }
    {
        let subject = self.entered_on(cpu);
        let source = hypercall_event(rows, subject, event);
        self.flag_stored(cpu, flag)
            .event_handled(rows, cpu, subject, source, true)
    }

    fn trap_call(self, rows: &[u64], cpu: u8, trap: u8, flag: u8) -> Stepped
        ensures { result ≡ trap_call rows.now self cpu trap flag }
    {
        let subject = self.entered_on(cpu);
        let stored = self.flag_stored(cpu, flag);
        if HIGHEST_TRAP < trap {
            return stored.stop(subject, Reason::HighTrap);
        }
        let source = trap_source(rows, subject, trap);
        stored.event_handled(rows, cpu, subject, source, advances(source.action))
    }

    fn interrupt_call(self, rows: &[u64], cpu: u8, vector: u8, flag: u8) -> Stepped
        ensures { result ≡ interrupt_call rows.now self cpu vector flag }
    {
        let stored = self.flag_stored(cpu, flag);
        let after = stored.programs.interrupted(rows, HostVector(vector));
        stored.with_programs(after).entry(rows, cpu, PLAIN)
    }

    fn choose_call(self, major: u8) -> Stepped
        ensures { result ≡ choose_call self major }
    {
        Stepped {
            state: self.with_clock(self.clock.choose(major)),
            answer: Answer::Chosen,
        }
    }

    fn report_call(self, partition: u8) -> Stepped
        ensures { result ≡ report_call self partition }
    {
        Stepped {
            state: self,
            answer: Answer::Report {
                partition,
                now: self.clock.count_now(partition),
                last: self.clock.count_last(partition),
            },
        }
    }

    fn masks_call(self) -> Stepped
        ensures { result ≡ masks_call self }
    {
        Stepped {
            state: self,
            answer: Answer::Masks {
                lines: self.programs.masks,
            },
        }
    }

    pub(crate) fn called(self, rows: &[u64], call: Call) -> Stepped
        ensures { result ≡ called rows.now self call }
    {
        match call {
            Call::Tick { cpu, flag } => self.tick_call(rows, cpu, flag),
            Call::Hypercall { cpu, event, flag } => self.hypercall(rows, cpu, event, flag),
            Call::Trap { cpu, trap, flag } => self.trap_call(rows, cpu, trap, flag),
            Call::Interrupt { cpu, vector, flag } => self.interrupt_call(rows, cpu, vector, flag),
            Call::Choose { major } => self.choose_call(major),
            Call::Report { partition } => self.report_call(partition),
            Call::Masks => self.masks_call(),
        }
    }
}
