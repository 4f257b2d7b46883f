// What an interrupt and a target event mark, and who wakes.
#![tactic(auto, unfolding(crate::specs::Signals::woke, crate::specs::Signals::vector_pending, crate::specs::Signals::event_pending, crate::specs::Signals::masked, crate::specs::Signals::routed, crate::specs::Signals::interrupted, crate::specs::Signals::signalled))]

ghost use Rattle.std.specs.Prelude.{◌≡◌};
ghost use Rattle.programs.specs.Signals.{woke, vector_pending, masked, routed, interrupted, event_pending, signalled};

use crate::whole::Programs;
use meaning::{HostVector, IrqLine, Route, Signal, SubjectVector, route_of};
use rows::group_of;

impl Programs {
    // The group of a subject wakes.
    fn woke(self, rows: &[u64], subject: u8) -> Programs
        ensures { result ≡ woke rows.now self subject }
    {
        let group = group_of(rows, subject);
        self.with_group(group, self.group_at(group).wake())
    }

    fn vector_pending(self, subject: u8, vector: SubjectVector) -> Programs
        ensures { result ≡ vector_pending self subject vector }
    {
        self.with_subject(subject, self.subject_at(subject).mark_vector(vector))
    }

    fn event_pending(self, subject: u8, event: u8) -> Programs
        ensures { result ≡ event_pending self subject event }
    {
        self.with_subject(subject, self.subject_at(subject).mark_event(event))
    }

    // The IRQ line, if there is one, is masked.
    fn masked(self, line: Option<IrqLine>) -> Programs
        ensures { result ≡ masked self line }
    {
        line.map_or(self, |line| self.with_masks(self.masks.mark(line.0)))
    }

    fn routed(self, rows: &[u64], route: Option<Route>) -> Programs
        ensures { result ≡ routed rows.now self route }
    {
        let Some(route) = route else {
            return self;
        };
        self.vector_pending(route.subject, route.vector)
            .woke(rows, route.subject)
            .masked(route.line)
    }

    // An interrupt: a routed vector becomes pending for its subject, others do nothing.
    pub fn interrupted(self, rows: &[u64], host: HostVector) -> Programs
        ensures { result ≡ interrupted rows.now self host }
    {
        self.routed(rows, route_of(rows, host))
    }

    // The target event, if there is one, is marked pending and its group wakes.
    pub fn signalled(self, rows: &[u64], signal: Option<Signal>) -> Programs
        ensures { result ≡ signalled rows.now self signal }
    {
        let Some(signal) = signal else {
            return self;
        };
        self.event_pending(signal.subject, signal.event)
            .woke(rows, signal.subject)
    }
}
