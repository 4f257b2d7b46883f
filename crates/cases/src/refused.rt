// A refusal, printed.
ghost use Rattle.std.specs.Prelude.{Some};
ghost use Rattle.cases.specs.Refusals.{refusal_text};

use rules::Refusal;
use std::fmt;

// As FF, its number, its line in two bytes.
#[derive(Drop)]
pub struct Refused(pub Refusal);

impl fmt::Display for Refused {
    ghost output = { λ r. Some (refusal_text r.0) };

    fn fmt<W: fmt::Write>(&self, f: &mut fmt::Formatter<W>) -> fmt::Result {
        let number = self.0.number();
        let [high, low] = self.0.line().to_be_bytes();
        write!(f, "FF{number:02X}{high:02X}{low:02X}")
    }
}
