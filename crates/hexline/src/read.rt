// A line of text: read from the part that begins there.
ghost use Rattle.std.specs.Prelude.{◌≡◌, ◌+◌, ◌≤◌, eqb, length, drop};
ghost use Rattle.std.specs.List.{position};
ghost use Rattle.hexline.specs.Digits.{newline};
ghost use Rattle.hexline.specs.Lines.{byte_of, byte_at, number_at, line_length, line_of, ended_at};
ghost use Rattle.hexline.specs.Run.{run_of};

use crate::digit::digit;

#[derive(Clone, Copy, Drop)]
pub enum Line {
    // A well-formed line: how many bytes it has, and where it ends, past its newline.
    Whole { bytes: usize, end: usize },
    // An empty line, odd digits, or another byte: where it ends, past its newline.
    IllFormed { end: usize },
    // No newline in what is there.
    Unended,
}

// How many digits the text begins with.
fn run(text: &[u8]) -> usize
    ensures { result ≡ run_of text.now }
{
    text.iter().take_while(|b| digit(**b).is_some()).count()
}

// How many bytes stand before the first newline, if there is one.
fn to_newline(text: &[u8]) -> Option<usize>
    ensures { result ≡ position (λ b. eqb b newline) text.now }
{
    text.iter().position(|b| *b == b'\n')
}

// Where the line ends, of which the bytes before `from` are no newline: an ill-formed line, or one that has no end.
fn ill_formed(text: &[u8], from: usize) -> Line
    requires { from ≤ length text.now }
    ensures { result ≡ ended_at text.now (from + line_length (drop from text.now)) }
{
    match to_newline(&text[from..]) {
        Some(ahead) => Line::IllFormed {
            end: from + ahead + 1,
        },
        None => Line::Unended,
    }
}

// The line that the text begins with.
#[tactic(auto, using(crate::proofs::LineLaws::three_ways))]
pub fn read_line(text: &[u8]) -> Line
    ensures { result ≡ line_of text.now }
{
    let digits = run(text);
    match text.get(digits) {
        None => Line::Unended,
        Some(b'\n') if digits == 0 || digits % 2 != 0 => Line::IllFormed { end: digits + 1 },
        Some(b'\n') => Line::Whole {
            bytes: digits / 2,
            end: digits + 1,
        },
        Some(_) => ill_formed(text, digits),
    }
}

// The byte that two digits spell; 0 where one of them is no digit.
#[tactic(auto, using(crate::proofs::DigitLaws::value_in), unfolding(crate::specs::Lines::byte_of, crate::specs::Digits::digit_in))]
fn byte_of(high: u8, low: u8) -> u8
    ensures { result ≡ byte_of high low }
{
    match (digit(high), digit(low)) {
        (Some(high), Some(low)) => high * 16 + low,
        _ => 0,
    }
}

// Byte k of the line that the text begins with; past the line's bytes it says nothing of the line.
#[tactic(auto, using(crate::proofs::ByteLaws::byte_past, crate::proofs::ByteLaws::byte_spelled))]
pub fn byte_at(text: &[u8], k: usize) -> u8
    ensures { result ≡ byte_at text.now k }
{
    if text.len() / 2 <= k {
        return 0;
    }
    byte_of(text[2 * k], text[2 * k + 1])
}

// The two-byte number whose high byte is byte k.
#[tactic(auto, using(crate::proofs::ByteLaws::byte_past, crate::proofs::ByteLaws::from_high_low), unfolding(crate::specs::Lines::number_at))]
pub fn number_at(text: &[u8], k: usize) -> u16
    ensures { result ≡ number_at text.now k }
{
    if text.len() / 2 <= k {
        return 0;
    }
    u16::from_be_bytes([byte_at(text, k), byte_at(text, k + 1)])
}
