// A buffer to write into, longer than every accepted text, and what of it was changed.
use policy::{Policy, write};
use rules::Refusal;

pub(crate) const SIZE: usize = 40000;

// What stands in it before a writing: no byte that a text may have.
const FILLER: u8 = b'z';

// What is done with the writer's answer, and with the buffer, of which so many bytes were lent to it.
pub(crate) fn written<T, F: FnOnce(Result<usize, Refusal>, &[u8]) -> T>(
    policy: Policy,
    length: usize,
    then: F,
) -> T
    requires { F.IsAlwaysCallable then }
{
    let mut out = [FILLER; SIZE];
    let answer = match out.get_mut(..length) {
        Some(room) => write(policy, room),
        None => Err(Refusal::TooLong),
    };
    then(answer, &out)
}

// What stands from a place on.
fn past(out: &[u8], from: usize) -> &[u8] {
    out.get(from..).unwrap_or(&[])
}

// How many bytes from a place on are no longer the filler.
pub(crate) fn changed(out: &[u8], from: usize) -> usize {
    past(out, from).iter().filter(|b| **b != FILLER).count()
}

// Whether the buffer, or a part of it, is as it was.
pub(crate) fn is_kept(out: &[u8]) -> bool {
    [FILLER; SIZE].starts_with(out)
}

// Whether the answer is the text's length, the buffer begins with the text, and past it all is as it was.
pub(crate) fn is_whole(answer: Result<usize, Refusal>, text: &[u8], out: &[u8]) -> bool {
    answer.is_ok_and(|n| n == text.len() && out.starts_with(text) && is_kept(past(out, n)))
}
