// Parts of a text.
ghost use Rattle.std.specs.Prelude.{◌≡◌, ◌+◌, ◌-◌, eqb, length, take, drop};
ghost use Rattle.std.specs.List.{position, range_with_len};
ghost use Rattle.hexline.specs.Digits.{newline};
ghost use Rattle.cases.specs.Parts.{begins_line, marked_from, line_end};

use rows::item_or;

// Whether a line that begins with the mark begins at this place.
#[tactic(auto, unfolding(crate::specs::Parts::begins_line))]
fn begins_line(text: &[u8], at: usize, mark: &[u8]) -> bool
    ensures { result ≡ begins_line text.now mark.now at }
{
    (at == 0 || item_or(text, at - 1, 0) == b'\n')
        && text.get(at..).unwrap_or(&[]).starts_with(mark)
}

// How far ahead of a place the first such line begins, if there is one.
fn to_line(text: &[u8], from: usize, mark: &[u8]) -> Option<usize>
    ensures { result ≡ position (begins_line text.now mark.now) (range_with_len from (length text.now - from)) }
{
    (from..text.len()).position(|at| begins_line(text, at, mark))
}

// What stands before the first line from a place on that begins with the mark, and the text from there.
#[tactic(auto, using(crate::proofs::PartLaws::range_length, std::proofs::lemmas::Bool::Decides::nat_tests), unfolding(crate::specs::Parts::marked_from))]
pub fn split_at_line<'a>(text: &'a [u8], from: usize, mark: &[u8]) -> (&'a [u8], &'a [u8])
    ensures before { result.0.now ≡ take (marked_from text.now mark.now from) text.now }
    ensures after { result.1.now ≡ drop (marked_from text.now mark.now from) text.now }
{
    match to_line(text, from, mark) {
        Some(ahead) => text.split_at(from + ahead),
        None => (text, &[]),
    }
}

// How many bytes stand before the first newline, if there is one.
fn to_newline(text: &[u8]) -> Option<usize>
    ensures { result ≡ position (λ b. eqb b newline) text.now }
{
    text.iter().position(|b| *b == b'\n')
}

// The first line with its newline, and what follows it.
#[tactic(auto, unfolding(crate::specs::Parts::line_end))]
pub fn split_line(text: &[u8]) -> (&[u8], &[u8])
    ensures line { result.0.now ≡ take (line_end text.now) text.now }
    ensures rest { result.1.now ≡ drop (line_end text.now) text.now }
{
    match to_newline(text) {
        Some(at) => text.split_at(at + 1),
        None => (text, &[]),
    }
}

// The text without its last byte.
pub fn without_last(text: &[u8]) -> &[u8]
    ensures { result.now ≡ take (length text.now - 1) text.now }
{
    match text {
        [rest @ .., _] => rest,
        [] => text,
    }
}
