// A text read, and where it is accepted written back.
use crate::buffer::{SIZE, is_kept, is_whole, written};
use cases::Refused;
use policy::{Policy, read};
use rules::Refusal;
use std::io;

// What the writer answers, and what it leaves in the buffer: the text's own bytes, and past them what was there.
fn accepted(rt: &impl Print, policy: Policy, text: &[u8]) -> io::Result<()> {
    written(policy, SIZE, |answer, out| match answer {
        Err(why) => {
            let why = Refused(why);
            print!(rt; "FE, and writing it gives {why}")
        }
        answer if is_whole(answer, text, out) => print!(rt; "FE same"),
        _ => print!(rt; "FE, and written otherwise"),
    })
}

// Whether writing the policy is P0 and changes no byte.
pub(crate) fn is_unknown(policy: Policy) -> bool {
    written(policy, SIZE, |answer, out| {
        matches!(answer, Err(Refusal::NotAPolicy)) && is_kept(out)
    })
}

// The refusal. The policy beside it is all zeros, which no accepted text gives.
fn refused(rt: &impl Print, why: Refusal, policy: Policy) -> io::Result<()> {
    rt.print(Refused(why))?;
    if !policy.rows.iter().all(|row| *row == 0) {
        print!(rt; ", and the policy is not zero")?;
    }
    if !is_unknown(policy) {
        print!(rt; ", and the policy can be written")?;
    }
    Ok(())
}

pub(crate) fn whole(rt: &impl Print, text: &[u8]) -> io::Result<()> {
    let reading = read(text);
    match reading.verdict {
        Ok(()) => accepted(rt, reading.policy, text),
        Err(why) => refused(rt, why, reading.policy),
    }
}
