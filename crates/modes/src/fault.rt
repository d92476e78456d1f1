// What can be wrong with the declarations and the modes of a sheet.
ghost use Rattle.modes.specs.Faults.{number_of};

use refusals::Numbered;

/// A fault of a sheet, by its number.
#[derive(Clone, Copy, PartialEq, Eq, Debug)]
pub enum Fault {
    DeclaredBefore = 9,
    TooManyNames = 10,
    NotDeclared = 11,
    Unsuited = 12,
    OtherPrimitive = 13,
    TooFewReferences = 14,
}

// The cast is of this enum alone, so each phase's faults have these lines.
impl Numbered for Fault {
    ghost number_of = { number_of };

    fn number(self) -> u8 {
        self as u8
    }
}
