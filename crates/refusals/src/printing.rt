// A refusal as words.
ghost use Rattle.std.specs.Prelude.{Some};
ghost use Rattle.refusals.specs.Printed.{refusal_text};

use crate::refusal::Refusal;
use std::fmt;

impl fmt::Display for Refusal {
    ghost output = { λ refusal. Some (refusal_text refusal) };

    fn fmt<W: fmt::Write>(&self, f: &mut fmt::Formatter<W>) -> fmt::Result {
        let number = self.number();
        let place = self.place();
        write!(f, "refused {number} place {place}")
    }
}
