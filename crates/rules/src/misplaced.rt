// P7: what a line names, and what an event's fields may be together.
ghost use Rattle.std.specs.Prelude.{◌≡◌};
ghost use Rattle.rules.specs.Rules.{has_target, unknown_subject, wrong_irq_line, wrong_handover, half_target, wrong_target, wrong_kick, event_misplaced, frame_misplaced, trap_misplaced, misplaced};
ghost use Rattle.rules.specs.Tables.{said_by};

use crate::action::{HANDOVER, NOTHING, REBOOT, UNMASK};
use crate::ranges::NONE;
use records::{EventLine, FrameLine, Record, TrapLine};
use rows::{cpu_of, default_of, group_given, group_of, home_of, partition_given, subject_given};

#[tactic(auto, unfolding(crate::specs::Rules::has_target))]
fn has_target(e: EventLine) -> bool
    ensures { result ≡ has_target e }
{
    e.target != NONE
}

// The event's subject, or its target, is given by no line.
#[tactic(auto, unfolding(crate::specs::Rules::unknown_subject, crate::specs::Tables::said_by))]
fn unknown_subject(rows: &[u64], e: EventLine) -> bool
    ensures { result ≡ unknown_subject (said_by rows.now) e }
{
    !subject_given(rows, e.subject) || (has_target(e) && !subject_given(rows, e.target))
}

// Unmask without IRQ line, or another action with one.
#[tactic(auto, unfolding(crate::specs::Rules::wrong_irq_line))]
fn wrong_irq_line(e: EventLine) -> bool
    ensures { result ≡ wrong_irq_line e }
{
    if e.action == UNMASK {
        e.irq == NONE
    } else {
        e.irq != NONE
    }
}

// Handover to no target, to itself or outside its group.
#[tactic(auto, unfolding(crate::specs::Rules::wrong_handover, crate::specs::Tables::said_by))]
fn wrong_handover(rows: &[u64], e: EventLine) -> bool
    ensures { result ≡ wrong_handover (said_by rows.now) e }
{
    e.action == HANDOVER
        && (!has_target(e)
            || e.target == e.subject
            || group_of(rows, e.target) != group_of(rows, e.subject))
}

// For actions but handover, one of target subject and target event without the other.
#[tactic(auto, unfolding(crate::specs::Rules::half_target))]
fn half_target(e: EventLine) -> bool
    ensures { result ≡ half_target e }
{
    e.action != HANDOVER && has_target(e) != (e.target_event != NONE)
}

// A stop with a target, or no action without one.
#[tactic(auto, unfolding(crate::specs::Rules::wrong_target))]
fn wrong_target(e: EventLine) -> bool
    ensures { result ≡ wrong_target e }
{
    (REBOOT <= e.action && has_target(e)) || (e.action == NOTHING && !has_target(e))
}

// A kick without a target on another CPU.
#[tactic(auto, unfolding(crate::specs::Rules::wrong_kick, crate::specs::Rules::cpu_of_subject, crate::specs::Tables::said_by))]
fn wrong_kick(rows: &[u64], e: EventLine) -> bool
    ensures { result ≡ wrong_kick (said_by rows.now) e }
{
    e.kick == 1 && (!has_target(e) || home_of(rows, e.target) == home_of(rows, e.subject))
}

#[tactic(auto, unfolding(crate::specs::Rules::event_misplaced))]
fn event_misplaced(rows: &[u64], e: EventLine) -> bool
    ensures { result ≡ event_misplaced (said_by rows.now) e }
{
    unknown_subject(rows, e)
        || wrong_irq_line(e)
        || wrong_handover(rows, e)
        || half_target(e)
        || wrong_target(e)
        || wrong_kick(rows, e)
}

#[tactic(auto, unfolding(crate::specs::Rules::frame_misplaced, crate::specs::Tables::said_by))]
fn frame_misplaced(rows: &[u64], f: FrameLine) -> bool
    ensures { result ≡ frame_misplaced (said_by rows.now) f }
{
    !partition_given(rows, f.partition) || cpu_of(rows, f.partition) != f.cpu
}

// A trap line whose subject no line gives, or that is equal to the default.
#[tactic(auto, unfolding(crate::specs::Rules::trap_misplaced, crate::specs::Tables::said_by))]
fn trap_misplaced(rows: &[u64], t: TrapLine) -> bool
    ensures { result ≡ trap_misplaced (said_by rows.now) t }
{
    !subject_given(rows, t.subject) || default_of(rows, t.subject) == t.event
}

// Whether a line is misplaced, by what the lines so far say.
#[tactic(auto, unfolding(crate::specs::Rules::misplaced, crate::specs::Tables::said_by))]
pub(crate) fn is_misplaced(rows: &[u64], rec: Record) -> bool
    ensures { result ≡ misplaced (said_by rows.now) rec }
{
    match rec {
        Record::Header(_) | Record::Partition(_) | Record::End { .. } => false,
        Record::Group(g) => !partition_given(rows, g.partition),
        Record::Subject(s) => !group_given(rows, s.group),
        Record::Frame(f) => frame_misplaced(rows, f),
        Record::Event(e) => event_misplaced(rows, e),
        Record::Trap(t) => trap_misplaced(rows, t),
        Record::Target(t) => !subject_given(rows, t.subject),
        Record::Route(w) => !subject_given(rows, w.subject),
    }
}
