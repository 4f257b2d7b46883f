// The input, read as far as there is room, and its cases run.
ghost use Rattle.std.specs.Prelude.{ℕ, List, ◌≡◌, ◌+◌, ◌-◌, ◌<◌, ◌≤◌, length, get_or, take, drop, All, IfOk, OnOk, IfSome};
ghost use Rattle.std.specs.Io.KnownBytes.{Consumes, IsAtEnd};
ghost use Rattle.cases.specs.Cases.{cases_of, first_line, text_in};

use crate::part::{split_at_line, split_line};
use std::io::{self, Read};

// How many bytes of the input there is room for. A case must fit in.
const ROOM: usize = 131072;

// More than there will be: a loop that is proved has to end, and nothing says that the input does.
const MOST_CASES: u32 = 1000000;

// Reads until the room is full or the input ends; how many bytes.
fn fill<R: Read>(reader: &mut R, room: &mut [u8]) -> io::Result<usize>
    ensures within { IfOk result (λ n. n ≤ length room.new) }
    ensures bytes { IfOk result (λ n. Consumes (R.remaining reader.old) (R.remaining reader.new) (take n room.new)) }
    ensures end { IfOk result (λ n. n < length room.new → IsAtEnd (R.remaining reader.new)) }
{
    let mut at = 0;
    while at < room.len() {
        let count = reader.read(&mut room[at..])?;
        if count == 0 {
            return Ok(at);
        }
        at += count;
    }
    Ok(at)
}

// Drops the first bytes: the others stand from the front on.
fn shift(bytes: &mut [u8], used: usize)
    requires { used ≤ length bytes.old }
    ensures rest { take (length bytes.old - used) bytes.new ≡ drop used bytes.old }
    ensures each { (k : ℕ) → k + used < length bytes.old → get_or bytes.new k 0 ≡ get_or bytes.old (k + used) 0 }
{
    bytes.copy_within(used.., 0);
}

// What a program does with each case.
pub trait Cases {
    ghost mark: { List ℕ };

    // What holds once a case was run, of its first line and the text that follows.
    ghost was_run: { List ℕ → List ℕ → Type 0 } = { λ _ _. Unit {0} };

    // What a line begins with at which a case begins.
    fn mark() -> &'static [u8]
        ensures { result.now ≡ mark };

    // One case: its first line with the newline, and the text that follows.
    fn run(rt: &impl Print, first: &[u8], text: &[u8]) -> io::Result<()>
        ensures { OnOk result (was_run first.now text.now) };

    // All cases of the input; how many were run. The room holds the input from the next case on, as far as it goes.
    final fn run_all<R: Read>(rt: &impl Print, reader: &mut R) -> io::Result<u32>
        ensures count { IfOk result (λ n. IfSome (R.remaining reader.old)
            (λ text. n ≡ length (cases_of ROOM MOST_CASES mark text))) }
        ensures each { OnOk result (IfSome (R.remaining reader.old)
            (λ text. All (λ case. was_run (first_line case) (text_in case)) (cases_of ROOM MOST_CASES mark text))) }
        ensures end { IfOk result (λ n. n < MOST_CASES → IsAtEnd (R.remaining reader.new)) }
    {
        let mut room = [0; ROOM];
        let mut have = 0;
        for ran in 0..MOST_CASES {
            have += fill(reader, &mut room[have..])?;
            if have == 0 {
                return Ok(ran);
            }
            let (case, _) = split_at_line(&room[..have], 1, Self::mark());
            let (first, text) = split_line(case);
            Self::run(rt, first, text)?;
            let used = case.len();
            shift(&mut room[..have], used);
            have -= used;
        }
        Ok(MOST_CASES)
    }
}
