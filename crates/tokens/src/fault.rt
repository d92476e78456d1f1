// What can be wrong with a source's bytes and tokens.
ghost use Rattle.tokens.specs.Faults.{number_of};

use refusals::Numbered;

/// A fault of a source, in the order of their numbers.
#[derive(Clone, Copy, PartialEq, Eq, Debug)]
pub enum Fault {
    SourceTooLong = 1,
    NoToken = 2,
    UnknownWord = 3,
    NameTooLong = 4,
    ConstantTooLarge = 5,
    TooManyTokens = 6,
}

// The cast is of this enum alone, so each phase's faults have these lines.
impl Numbered for Fault {
    ghost number_of = { number_of };

    fn number(self) -> u8 {
        self as u8
    }
}
