// A call, heard from the line that a text begins with.
#![tactic(auto, unfolding(crate::specs::Calls::heard_in, crate::specs::Calls::call_in, crate::specs::Calls::call_line, crate::specs::Calls::heard_from, crate::specs::Calls::heard_of))]

ghost use Rattle.std.specs.Prelude.{◌≡◌, ◌≤◌, length, take};
ghost use Rattle.hexline.specs.Lines.{spelled};
ghost use Rattle.calls.specs.Calls.{heard_in, call_line, heard_of};

use crate::call::Call;
use hexline::{Line, byte_at, read_line};

// The kinds of call, as byte 0 of a line has them.
const TICK: u8 = 0x10;

const HYPERCALL: u8 = 0x11;

const TRAP: u8 = 0x12;

const INTERRUPT: u8 = 0x13;

const CHOOSE: u8 = 0x14;

const REPORT: u8 = 0x15;

const MASKS: u8 = 0x16;

// A line of the text of calls, with its newline.
#[derive(Clone, Copy, Drop)]
pub struct CallLine {
    // None where it is ill formed, of an unknown kind or of the wrong length.
    pub heard: Option<Call>,
    // Where it ends, past its newline.
    pub end: usize,
}

// The call that has these bytes, the kind first.
fn heard_in(bytes: &[u8]) -> Option<Call>
    ensures { result ≡ heard_in bytes.now }
{
    match *bytes {
        [MASKS] => Some(Call::Masks),
        [CHOOSE, major] => Some(Call::Choose { major }),
        [REPORT, partition] => Some(Call::Report { partition }),
        [TICK, cpu, flag] => Some(Call::Tick { cpu, flag }),
        [HYPERCALL, cpu, event, flag] => Some(Call::Hypercall { cpu, event, flag }),
        [TRAP, cpu, trap, flag] => Some(Call::Trap { cpu, trap, flag }),
        [INTERRUPT, cpu, vector, flag] => Some(Call::Interrupt { cpu, vector, flag }),
        _ => None,
    }
}

// By the count of bytes of the line that the text begins with; no call has more than four.
#[tactic(auto, using(crate::proofs::HearLaws::front, crate::proofs::HearLaws::no_call), unfolding(hexline::specs::Lines::byte_at))]
fn heard_bytes(text: &[u8], count: usize) -> Option<Call>
    requires { count ≤ length (spelled text.now) }
    ensures { result ≡ heard_in (take count (spelled text.now)) }
{
    let bytes = [
        byte_at(text, 0),
        byte_at(text, 1),
        byte_at(text, 2),
        byte_at(text, 3),
    ];
    heard_in(bytes.get(..count)?)
}

// The line that the text begins with, if there is a newline in what is there.
#[tactic(auto, using(crate::proofs::LineBytes::whole_long), unfolding(crate::specs::Calls::call_line, crate::specs::Calls::call_in))]
pub fn call_line(text: &[u8]) -> Option<CallLine>
    ensures { result ≡ call_line text.now }
{
    match read_line(text) {
        Line::Whole { bytes, end } => Some(CallLine {
            heard: heard_bytes(text, bytes),
            end,
        }),
        Line::IllFormed { end } => Some(CallLine { heard: None, end }),
        Line::Unended => None,
    }
}

// A line heard by itself: without a newline it is ill formed.
pub fn hear(line: &[u8]) -> Option<Call>
    ensures { result ≡ heard_of line.now }
{
    call_line(line)?.heard
}
