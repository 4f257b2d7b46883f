// Digits and newlines into a lent buffer at a place. Where there is no room the buffer stays as it was and the place is handed back.
ghost use Rattle.std.specs.Prelude.{◌≡◌, ◌∷◌, [], ◌+◌, leb};
ghost use Rattle.hexline.specs.Digits.{newline};
ghost use Rattle.hexline.specs.Writes.{pair_of, number_text, line_text, put};

use crate::digit::hex;

// Whether so many bytes have room from a place on.
fn room(size: usize, at: usize, needed: usize) -> bool
    ensures { result ≡ leb (at + needed) size }
{
    size.checked_sub(at).is_some_and(|left| needed <= left)
}

// The two digits of a byte; the place after them.
#[tactic(auto, using(crate::proofs::LayLaws::stores), unfolding(crate::specs::Writes::pair_of))]
pub fn put_byte(out: &mut [u8], at: usize, byte: u8) -> usize
    ensures { (result, out.new) ≡ put out.old at (pair_of byte) }
{
    if !room(out.len(), at, 2) {
        return at;
    }
    out[at] = hex(byte / 16);
    out[at + 1] = hex(byte % 16);
    at + 2
}

// The four digits of a two-byte number, high byte first; the place after them.
pub fn put_number(out: &mut [u8], at: usize, number: u16) -> usize
    ensures { (result, out.new) ≡ put out.old at (number_text number) }
{
    if !room(out.len(), at, 4) {
        return at;
    }
    let [high, low] = number.to_be_bytes();
    let middle = put_byte(out, at, high);
    put_byte(out, middle, low)
}

// A newline; the place after it.
#[tactic(auto, using(crate::proofs::LayLaws::stores))]
pub fn put_newline(out: &mut [u8], at: usize) -> usize
    ensures { (result, out.new) ≡ put out.old at (newline ∷ []) }
{
    if !room(out.len(), at, 1) {
        return at;
    }
    out[at] = b'\n';
    at + 1
}

// A line of bytes and its newline, all of it or nothing; the place after it.
pub fn put_line(out: &mut [u8], at: usize, bytes: &[u8]) -> usize
    ensures { (result, out.new) ≡ put out.old at (line_text bytes.now) }
{
    if !room(out.len(), at, 2 * bytes.len() + 1) {
        return at;
    }
    let mut place = at;
    for &byte in bytes {
        place = put_byte(out, place, byte);
    }
    put_newline(out, place)
}
