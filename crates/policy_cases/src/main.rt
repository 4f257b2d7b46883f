// Runs the cases of its input, one after the other, and prints a line for each: the case's name and what came of it.
//
// A case begins with a line that starts with `#`; the text follows, up to the next such line. The byte after the `#` says what
// is done with the text, and the rest of the line is the name:
//
//     # name            read; where accepted, written and compared
//     #- name           the same, of the text without its last byte: a last line with no newline
//     #= 0019 0000000000010000 name
//                       read, the row at a place of the table changed (both in digits), and written
//     #* name           read, and each row of the table in turn made one that no line has
//     #9 name           read, and written into buffers of every length up to one more than is needed
//
// A case may be added to stdin and stdout by hand; those that stand there are built by tools/make-policy-cases from the lists in
// cases/, which have what is expected and why. The proofs say that the program is safe and ends. That it prints what it should
// is seen by its output.
#![tactic(auto)]

ghost use Rattle.std.specs.Prelude.{codes};

use cases::{Cases, without_last};
use std::io;

mod buffer; // a buffer to write into, and what of it was changed
mod reading; // a text read and written back
mod refused; // writings that are refused

struct Texts;

// The name in a case's first line: behind `# `, or behind `#-` and a blank.
fn name_in(first: &[u8]) -> &[u8] {
    match first {
        [_, b' ', name @ ..] | [_, _, _, name @ ..] => name,
        _ => &[],
    }
}

impl Cases for Texts {
    ghost mark = { codes "#" };

    fn mark() -> &'static [u8] {
        b"#"
    }

    fn run(rt: &impl Print, line: &[u8], text: &[u8]) -> io::Result<()> {
        let first = line.strip_suffix(b"\n").unwrap_or(line);
        let name = name_in(first);
        rt.write_all(name)?;
        rt.write_all(b": ")?;
        match first.get(1) {
            Some(b'-') => reading::whole(rt, without_last(text))?,
            Some(b'=') => refused::changed_row(rt, name, text)?,
            Some(b'*') => refused::each_row(rt, text)?,
            Some(b'9') => refused::each_length(rt, text)?,
            _ => reading::whole(rt, text)?,
        }
        rt.write_all(b"\n")
    }
}

fn main(rt: HostRuntime) -> io::Result<()> {
    Texts::run_all(&rt, &mut rt.reader())?;
    Ok(())
}
