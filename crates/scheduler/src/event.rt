// A source event handled, in a hypercall or a trap: it stops, or its action and its target event are done and entry follows.
#![tactic(auto, unfolding(crate::specs::Calls::stopping_of, crate::specs::Calls::kicked_by, crate::specs::Calls::stop, crate::specs::Calls::event_then, crate::specs::Calls::event_handled, crate::specs::Calls::hypercall_event, crate::specs::Calls::advances, crate::specs::Calls::trap_source, meaning::specs::Answers::no_event))]

ghost use Rattle.std.specs.Prelude.{◌≡◌};
ghost use Rattle.scheduler.specs.Calls.{stopping_of, kicked_by, stop, event_handled, hypercall_event, advances, trap_source};

use crate::state::{State, Stepped};
use calls::{Answer, Notes, Reason};
use meaning::{Action, NO_EVENT, Signal, SourceEvent, source_event, trap_event};
use rows::home_of;

// Source events go to so many.
const EVENTS: u8 = 16;

// Why an action stops the core, if it does.
fn stopping_of(action: Action) -> Option<Reason>
    ensures { result ≡ stopping_of action }
{
    match action {
        Action::Reboot => Some(Reason::Reboot),
        Action::PowerOff => Some(Reason::PowerOff),
        Action::Panic => Some(Reason::Panic),
        _ => None,
    }
}

// Whether a trap with this action advances.
pub(crate) fn advances(action: Action) -> bool
    ensures { result ≡ advances action }
{
    matches!(action, Action::Sleep | Action::Yield)
}

// The CPU that a handled event kicks, if it says so.
fn kicked_by(rows: &[u64], signal: Option<Signal>) -> Option<u8>
    ensures { result ≡ kicked_by rows.now signal }
{
    match signal {
        Some(signal) if signal.kick => Some(home_of(rows, signal.subject)),
        _ => None,
    }
}

// The source event of a hypercall; one above 15 does nothing.
pub(crate) fn hypercall_event(rows: &[u64], subject: u8, event: u8) -> SourceEvent
    ensures { result ≡ hypercall_event rows.now subject event }
{
    if event < EVENTS {
        source_event(rows, subject, event)
    } else {
        NO_EVENT
    }
}

// The source event of a trap.
pub(crate) fn trap_source(rows: &[u64], subject: u8, trap: u8) -> SourceEvent
    ensures { result ≡ trap_source rows.now subject trap }
{
    source_event(rows, subject, trap_event(rows, subject, trap))
}

impl State {
    pub(crate) fn stop(self, subject: u8, reason: Reason) -> Stepped
        ensures { result ≡ stop self subject reason }
    {
        Stepped {
            state: self.halted(),
            answer: Answer::Stopped { subject, reason },
        }
    }

    pub(crate) fn event_handled(
        self,
        rows: &[u64],
        cpu: u8,
        subject: u8,
        event: SourceEvent,
        advance: bool,
    ) -> Stepped
        ensures { result ≡ event_handled rows.now self cpu subject event advance }
    {
        if let Some(reason) = stopping_of(event.action) {
            return self.stop(subject, reason);
        }
        let after = self.programs.handled(rows, subject, event);
        let notes = Notes {
            advance,
            new_frame: false,
            kick: kicked_by(rows, event.signal),
        };
        self.with_programs(after).entry(rows, cpu, notes)
    }
}
