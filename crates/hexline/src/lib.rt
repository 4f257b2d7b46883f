// Lines of upper-case hexadecimal, two digits a byte, each ended by one newline. Knows of no policy and no call.
#![tactic(auto)]

ghost use Rattle.hexline.specs.Lawful.{Lawful};

// A digit's value, and a value's digit.
mod digit;
// A line, read from the part of the text that begins there.
pub mod read;
// Bytes, numbers and lines, written into a lent buffer at a place.
pub mod write;

pub use read::{Line, byte_at, number_at, read_line};
pub use write::{put_byte, put_line, put_newline, put_number};

// No code: that lines are read back as they were written, and end where document 01 says, is this function's contract.
pub fn lawful()
    ensures { Lawful }
{}
