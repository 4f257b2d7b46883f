// Cases of a text, run one after the other: what the programs that run them have in common.
//
// A case begins with a line that begins with a mark, and goes up to the next such line.
#![tactic(auto)]

pub mod change; // a policy with a row changed
pub mod part; // parts of a text
pub mod refused; // a refusal, printed
pub mod run; // the input, read as far as there is room, and its cases run

pub use change::{row_of, with_row};
pub use part::{split_at_line, split_line, without_last};
pub use refused::Refused;
pub use run::Cases;
