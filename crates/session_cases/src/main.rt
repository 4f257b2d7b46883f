// Plays the calls of each case of its input, and prints the case's first line, the policy's verdict and the answers.
//
// A case begins with a line `# name`. The policy's text follows, then a line `#calls`, then the calls, up to the next case:
// each is answered by `step`, with the full check of the policy and the state. Behind `#calls-` the calls are without their
// last byte: a last line with no newline. A line among the calls that begins with `!` is none. It changes the state or the policy
// for what follows (`change` says how), and nothing is printed for it.
//
// A case may be added to stdin and stdout by hand; those that stand there are built by tools/make-session-cases from the lists in
// cases/, which have what is expected and why. The proofs say that the program is safe and ends. That it prints what it should
// is seen by its output.
#![tactic(auto)]

ghost use Rattle.std.specs.Prelude.{codes};

use cases::{Cases, split_at_line, split_line, without_last};
use std::io;

mod bench; // what calls are played on
mod change; // changes between calls
mod session; // one case

// What the line before the calls begins with.
const CALLS: &[u8] = b"#c";

// At this place of it a `-` may stand.
const OPEN_AT: usize = 6;

struct Sessions;

impl Cases for Sessions {
    ghost mark = { codes "# " };

    fn mark() -> &'static [u8] {
        b"# "
    }

    fn run(rt: &impl Print, first: &[u8], text: &[u8]) -> io::Result<()> {
        rt.write_all(first)?;
        let (policy, rest) = split_at_line(text, 0, CALLS);
        let (line, calls) = split_line(rest);
        match line.get(OPEN_AT) {
            Some(b'-') => session::run(rt, policy, without_last(calls)),
            _ => session::run(rt, policy, calls),
        }
    }
}

fn main(rt: HostRuntime) -> io::Result<()> {
    Sessions::run_all(&rt, &mut rt.reader())?;
    Ok(())
}
