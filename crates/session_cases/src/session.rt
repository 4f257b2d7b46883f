// A policy read and started, and its calls played one after the other.
use crate::bench::Bench;
use crate::change::change_bench;
use calls::{Answer, hear, put_answer};
use cases::Refused;
use policy::read;
use scheduler::{start, step};
use std::io;

// An answer's line: its seven bytes.
fn print_answer(rt: &impl Print, answer: Answer) -> io::Result<()> {
    let mut out = [0; 15];
    put_answer(&mut out, 0, answer);
    rt.write_all(&out)
}

// A line among the calls: a call, which is answered, or a change.
fn tell(rt: &impl Print, bench: &mut Bench, line: &[u8]) -> io::Result<()> {
    if let [b'!', bytes @ ..] = line {
        change_bench(bench, bytes);
        return Ok(());
    }
    let stepped = step(bench.policy, bench.state, hear(line));
    bench.state = stepped.state;
    print_answer(rt, stepped.answer)
}

// Each line of the calls in turn.
fn play(rt: &impl Print, mut bench: Bench, calls: &[u8]) -> io::Result<()> {
    for line in calls.split_inclusive(|b| *b == b'\n') {
        tell(rt, &mut bench, line)?;
    }
    Ok(())
}

// One case: the policy's verdict, and where it is accepted the answers.
pub(crate) fn run(rt: &impl Print, text: &[u8], calls: &[u8]) -> io::Result<()> {
    let reading = read(text);
    let started = start(reading);
    match started.verdict {
        Err(why) => rt.println(Refused(why)),
        Ok(()) => {
            rt.write_all(b"FE\n")?;
            let bench = Bench {
                policy: reading.policy,
                state: started.state,
            };
            play(rt, bench, calls)
        }
    }
}
