// Writings that are refused: P0 of a changed table, P9 of a short buffer. Not a byte of the buffer may change.
use crate::buffer::{SIZE, changed, is_kept, is_whole, written};
use crate::reading::is_unknown;
use cases::{Refused, row_of, with_row};
use hexline::number_at;
use policy::{Policy, read};
use rules::Refusal;
use std::io;

// No line's row has this bit.
const HIGH_BIT: u64 = 1 << 63;

// A row that no line has: each has at least a 1 with a byte behind it.
const LOW_ROW: u64 = 1;

// What is done with the policy of an accepted text; the refusal of another is printed.
fn with_accepted<F: FnOnce(Policy) -> io::Result<()>>(
    rt: &impl Print,
    text: &[u8],
    then: F,
) -> io::Result<()>
    requires { F.IsAlwaysCallable then }
{
    let reading = read(text);
    match reading.verdict {
        Ok(()) => then(reading.policy),
        Err(why) => rt.print(Refused(why)),
    }
}

// What the writer answers, and how many bytes of the buffer it changes past those that it says it wrote.
fn print_written(rt: &impl Print, policy: Policy, length: usize) -> io::Result<()> {
    written(policy, length, |answer, out| match answer {
        Ok(n) => {
            let past = changed(out, n);
            print!(rt; "FE, {n} bytes written and past them {past} changed")
        }
        Err(why) => {
            let (why, all) = (Refused(why), changed(out, 0));
            print!(rt; "{why}, {all} bytes changed")
        }
    })
}

// Written with room for every text, and with none: P0 comes before P9. The name begins with place and row,
// as `0019 0000000000010000 ..`.
pub(crate) fn changed_row(rt: &impl Print, name: &[u8], text: &[u8]) -> io::Result<()> {
    with_accepted(rt, text, |policy| {
        let row = row_of(name.get(5..).unwrap_or(&[]));
        let other = with_row(policy, number_at(name, 0) as usize, row);
        print_written(rt, other, SIZE)?;
        print!(rt; "; with no room ")?;
        print_written(rt, other, 0)
    })
}

// For how many places writing the policy with the row there changed is P0.
fn unknown<F: Fn(u64) -> u64>(policy: Policy, change: F) -> usize
    requires { (f : _) (x : _) → F.pre f x }
{
    policy
        .rows
        .iter()
        .enumerate()
        .filter(|(place, row)| is_unknown(with_row(policy, *place, change(**row))))
        .count()
}

pub(crate) fn each_row(rt: &impl Print, text: &[u8]) -> io::Result<()> {
    with_accepted(rt, text, |policy| {
        let rows = policy.rows.len();
        let high = unknown(policy, |row| row | HIGH_BIT);
        print!(rt; "FF000000 and no byte changed with bit 63 set in {high} rows of {rows}")?;
        let low = unknown(policy, |_| LOW_ROW);
        print!(rt; ", with 1 in place of {low}")
    })
}

// Whether writing into a buffer of a length is P9 and changes no byte.
fn is_too_short(policy: Policy, length: usize) -> bool {
    written(policy, length, |answer, out| {
        matches!(answer, Err(Refusal::NoRoom)) && is_kept(out)
    })
}

// Whether writing into a buffer of a length gives the text.
fn is_written(policy: Policy, length: usize, text: &[u8]) -> bool {
    written(policy, length, |answer, out| is_whole(answer, text, out))
}

fn print_from(rt: &impl Print, policy: Policy, length: usize, text: &[u8]) -> io::Result<()> {
    let what = if is_written(policy, length, text) {
        "same"
    } else {
        "other"
    };
    print!(rt; "; for {length} {what}")
}

pub(crate) fn each_length(rt: &impl Print, text: &[u8]) -> io::Result<()> {
    with_accepted(rt, text, |policy| {
        let needed = text.len();
        if SIZE <= needed {
            return Ok(());
        }
        let short = (0..needed).filter(|n| is_too_short(policy, *n)).count();
        print!(rt;
            "FF090000 and no byte changed for {short} of the {needed} lengths below {needed}"
        )?;
        print_from(rt, policy, needed, text)?;
        print_from(rt, policy, needed + 1, text)
    })
}
