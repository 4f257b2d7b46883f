// An answer's seven bytes, and its line into a lent buffer at a place. Where there is no room the buffer stays as it was.
#![tactic(auto, using(hexline::proofs::ByteLaws::high_low), unfolding(crate::specs::Answers::vector_of, crate::specs::Answers::kick_of, crate::specs::Answers::bits_of, crate::specs::Answers::bytes_of))]

ghost use Rattle.std.specs.Prelude.{◌≡◌};
ghost use Rattle.hexline.specs.Writes.{line_text, put};
ghost use Rattle.calls.specs.Answers.{bits_of, bytes_of};

use crate::answer::Answer;
use hexline::put_line;

// The codes of the answers that are no refusals.
const ENTER: u8 = 0;

const IDLE: u8 = 1;

const WAIT: u8 = 2;

const GO_ON: u8 = 3;

const STOPPED: u8 = 4;

const CHOSEN: u8 = 5;

const REPORT: u8 = 6;

const MASKS: u8 = 7;

// FF: no subject, no CPU.
const NONE: u8 = 255;

// Bits 1 advance, 2 reset, 4 new frame.
fn bits_of(advance: bool, reset: bool, opens: bool) -> u8
    ensures { result ≡ bits_of advance reset opens }
{
    u8::from(advance) + 2 * u8::from(reset) + 4 * u8::from(opens)
}

// The bytes of an answer, its code first.
pub fn answer_bytes(answer: Answer) -> [u8; 7]
    ensures { result ≡ bytes_of answer }
{
    match answer {
        Answer::Enter {
            subject,
            left,
            injected,
            reset,
            notes,
        } => {
            let [high, low] = left.to_be_bytes();
            let vector = injected.map_or(0, |vector| vector.0);
            let bits = bits_of(notes.advance, reset, notes.new_frame);
            let kick = notes.kick.unwrap_or(NONE);
            [ENTER, subject, high, low, vector, bits, kick]
        }
        Answer::Idle { left, notes } => {
            let [high, low] = left.to_be_bytes();
            let bits = bits_of(notes.advance, false, notes.new_frame);
            let kick = notes.kick.unwrap_or(NONE);
            [IDLE, NONE, high, low, 0, bits, kick]
        }
        Answer::Wait => [WAIT, NONE, 0, 0, 0, 0, NONE],
        Answer::GoOn { subject, left } => {
            let [high, low] = left.to_be_bytes();
            [GO_ON, subject, high, low, 0, 0, NONE]
        }
        Answer::Stopped { subject, reason } => {
            [STOPPED, subject, 0, reason.number(), 0, 0, NONE]
        }
        Answer::Chosen => [CHOSEN, NONE, 0, 0, 0, 0, NONE],
        Answer::Report {
            partition,
            now,
            last,
        } => {
            let [now_high, now_low] = now.to_be_bytes();
            let [last_high, last_low] = last.to_be_bytes();
            [REPORT, partition, now_high, now_low, last_high, last_low, 0]
        }
        Answer::Masks { lines } => {
            let [.., high, middle, low] = lines.words[0].to_be_bytes();
            [MASKS, high, middle, low, 0, 0, 0]
        }
        Answer::Refused(refusal) => [refusal.code(), NONE, 0, 0, 0, 0, NONE],
    }
}

// An answer's line, all of it or nothing; the place after it.
pub fn put_answer(out: &mut [u8], at: usize, answer: Answer) -> usize
    ensures { (result, out.new) ≡ put out.old at (line_text (bytes_of answer)) }
{
    put_line(out, at, &answer_bytes(answer))
}
