// A fault with its place.
ghost use Rattle.std.specs.Prelude.{Some};
ghost use Rattle.refusals.specs.Text.{refusal_text};

use crate::numbered::Numbered;
use std::fmt;

/// A fault with its place: the offset in the source of the first byte of what is at fault.
#[derive(Clone, Copy, PartialEq, Eq, Debug)]
pub struct Refusal<F> {
    pub fault: F,
    pub place: usize,
}

/// A refusal as a report has it: `refused`, the number of the fault, and the place.
impl<F: Numbered + Copy> fmt::Display for Refusal<F> {
    ghost output = { λ r. Some (refusal_text (F.number_of r.fault) r.place) };

    fn fmt<W: fmt::Write>(&self, f: &mut fmt::Formatter<W>) -> fmt::Result {
        let number = self.fault.number();
        let place = self.place;
        write!(f, "refused {number} {place}")
    }
}
