// A record's bytes, and its line into a lent buffer at a place. Where there is no room the buffer stays as it was.
#![tactic(auto, unfolding(crate::specs::Kinds::bytes_of, crate::specs::Kinds::padded))]

ghost use Rattle.std.specs.Prelude.{◌≡◌, length};
ghost use Rattle.hexline.specs.Writes.{line_text, put};
ghost use Rattle.records.specs.Kinds.{bytes_of, padded};

use crate::kind::{
    END, EVENT, FRAME, GROUP, HEADER, PARTITION, ROUTE, Record, SUBJECT, TARGET, TRAP, kind_of,
    size_of,
};
use hexline::put_line;

// A record's bytes, the kind first, and zeros behind them.
pub fn record_bytes(rec: Record) -> [u8; 8]
    ensures { result ≡ padded (bytes_of rec) }
{
    match rec {
        Record::Header(h) => [
            HEADER,
            h.cpus,
            h.subjects,
            h.groups,
            h.partitions,
            h.majors,
            0,
            0,
        ],
        Record::Partition(p) => [PARTITION, p.number, p.cpu, 0, 0, 0, 0, 0],
        Record::Group(g) => [GROUP, g.number, g.partition, 0, 0, 0, 0, 0],
        Record::Subject(s) => [SUBJECT, s.number, s.group, s.default_event, 0, 0, 0, 0],
        Record::Frame(f) => {
            let [high, low] = f.length.to_be_bytes();
            [FRAME, f.major, f.cpu, f.partition, high, low, 0, 0]
        }
        Record::Event(e) => [
            EVENT,
            e.subject,
            e.event,
            e.action,
            e.irq,
            e.target,
            e.target_event,
            e.kick,
        ],
        Record::Trap(t) => [TRAP, t.subject, t.trap, t.event, 0, 0, 0, 0],
        Record::Target(t) => [TARGET, t.subject, t.event, t.action, t.vector, 0, 0, 0],
        Record::Route(t) => [ROUTE, t.host, t.subject, t.vector, t.irq, 0, 0, 0],
        Record::End { count } => {
            let [high, low] = count.to_be_bytes();
            [END, high, low, 0, 0, 0, 0, 0]
        }
    }
}

// How many bytes a record has.
#[tactic(auto, using(crate::proofs::KindLaws::size))]
pub fn record_size(rec: Record) -> usize
    ensures { result ≡ length (bytes_of rec) }
{
    size_of(kind_of(rec))
}

// A record's line, all of it or nothing; the place after it.
#[tactic(auto, using(crate::proofs::KindLaws::padded_front, crate::proofs::KindLaws::eight))]
pub fn put_record(out: &mut [u8], at: usize, rec: Record) -> usize
    ensures { (result, out.new) ≡ put out.old at (line_text (bytes_of rec)) }
{
    let bytes = record_bytes(rec);
    put_line(out, at, &bytes[..record_size(rec)])
}
