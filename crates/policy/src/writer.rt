// A policy's text, into a lent buffer: known first, then the room, then the lines.
ghost use Rattle.std.specs.Prelude.{◌≡◌, ◌≤◌, length};
ghost use Rattle.hexline.specs.Writes.{line_text, lay};
ghost use Rattle.records.specs.Kinds.{bytes_of};
ghost use Rattle.rows.specs.Lines.{lines_in};
ghost use Rattle.policy.specs.Writes.{texts_of, size_of, write_of, written_of};

use crate::line::line_at;
use crate::own_text::known_rows;
use crate::value::Policy;
use records::{Record, put_record, record_size};
use rows::ROWS;
use rules::Refusal;

// How many lines a table has, and how many bytes they take.
#[derive(Clone, Copy, Drop)]
pub struct Size {
    pub lines: u16,
    pub bytes: usize,
}

// A line's bytes: two digits a byte, and a newline.
#[tactic(auto, using(hexline::proofs::ByteLaws::text_length, records::proofs::KindLaws::eight))]
fn line_size(rec: Record) -> usize
    ensures { result ≡ length (line_text (bytes_of rec)) }
{
    2 * record_size(rec) + 1
}

// How many lines and bytes the table's text has, the last line too.
fn text_size(rows: &[u64]) -> Size
    ensures { result ≡ size_of rows.now }
{
    let mut lines = 0;
    let mut bytes = 0;
    for rec in (0..ROWS).filter_map(|place| line_at(rows, place)) {
        lines += 1;
        bytes += line_size(rec);
    }
    let end = Record::End { count: lines };
    Size {
        lines,
        bytes: bytes + line_size(end),
    }
}

// All lines but the last, from the buffer's start on; the place after them.
fn put_lines(out: &mut [u8], rows: &[u64]) -> usize
    requires { length (texts_of (lines_in rows.now)) ≤ length out.old }
    ensures { (result ≡ length (texts_of (lines_in rows.now))) × (out.new ≡ lay out.old 0 (texts_of (lines_in rows.now))) }
{
    let mut at = 0;
    for rec in (0..ROWS).filter_map(|place| line_at(rows, place)) {
        at = put_record(out, at, rec);
    }
    at
}

// The length of the text.
pub fn write(p: Policy, out: &mut [u8]) -> Result<usize, Refusal>
    ensures { (result ≡ write_of p out.old) × (out.new ≡ written_of p out.old) }
{
    if !known_rows(&p.rows) {
        return Err(Refusal::NotAPolicy);
    }
    let size = text_size(&p.rows);
    if out.len() < size.bytes {
        return Err(Refusal::NoRoom);
    }
    let at = put_lines(out, &p.rows);
    let end = Record::End { count: size.lines };
    Ok(put_record(out, at, end))
}
