// What one line says.
#![tactic(auto, unfolding(crate::specs::Answers::masking_from, crate::specs::Answers::route_from, crate::specs::Answers::action_from, crate::specs::Answers::signal_from, crate::specs::Answers::source_from, crate::specs::Answers::target_from, crate::specs::Answers::frame_from))]

ghost use Rattle.std.specs.Prelude.{◌≡◌};
ghost use Rattle.meaning.specs.Answers.{masking_from, route_from, action_from, signal_from, source_from, target_from, frame_from};

use crate::answer::{
    Action, Frame, IrqLine, Route, Signal, SourceEvent, SubjectVector, TargetAction,
};
use records::{EventLine, FrameLine, RouteLine, TargetLine};
use rules::action::{HANDOVER, INJECT, PANIC, POWER_OFF, REBOOT, RESET, SLEEP, UNMASK, YIELD};
use rules::ranges::NONE;

fn masking_from(irq: u8) -> Option<IrqLine>
    ensures { result ≡ masking_from irq }
{
    (irq != NONE).then_some(IrqLine(irq))
}

// A 09 line.
pub(crate) fn route_from(w: RouteLine) -> Route
    ensures { result ≡ route_from w }
{
    Route {
        subject: w.subject,
        vector: SubjectVector(w.vector),
        line: masking_from(w.irq),
    }
}

fn action_from(action: u8, irq: u8, target: u8) -> Action
    ensures { result ≡ action_from action irq target }
{
    match action {
        SLEEP => Action::Sleep,
        YIELD => Action::Yield,
        HANDOVER => Action::Handover(target),
        UNMASK => Action::Unmask(IrqLine(irq)),
        REBOOT => Action::Reboot,
        POWER_OFF => Action::PowerOff,
        PANIC => Action::Panic,
        _ => Action::Nothing,
    }
}

fn signal_from(target: u8, event: u8, kick: u8) -> Option<Signal>
    ensures { result ≡ signal_from target event kick }
{
    (event != NONE).then_some(Signal {
        subject: target,
        event,
        kick: kick == 1,
    })
}

// A 06 line.
pub(crate) fn source_from(e: EventLine) -> SourceEvent
    ensures { result ≡ source_from e }
{
    SourceEvent {
        action: action_from(e.action, e.irq, e.target),
        signal: signal_from(e.target, e.target_event, e.kick),
    }
}

// A 08 line.
pub(crate) fn target_from(t: TargetLine) -> TargetAction
    ensures { result ≡ target_from t }
{
    match t.action {
        INJECT => TargetAction::Inject(SubjectVector(t.vector)),
        RESET => TargetAction::Reset,
        _ => TargetAction::Nothing,
    }
}

// A 05 line.
pub(crate) fn frame_from(f: FrameLine) -> Frame
    ensures { result ≡ frame_from f }
{
    Frame {
        partition: f.partition,
        length: f.length,
    }
}
