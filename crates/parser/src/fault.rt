// What can be wrong with the order and the nesting of tokens.
ghost use Rattle.parser.specs.Faults.{number_of};

use refusals::Numbered;

/// A token that is not allowed where it stands (or a source that ends early), one that nests too deep, or too little
/// memory lent for the open parts.
#[derive(Clone, Copy, PartialEq, Eq, Debug)]
pub enum Fault {
    NotAllowed = 7,
    TooDeep = 8,
    MemoryShort = 23,
}

// The cast is of this enum alone, so each phase's faults have these lines.
impl Numbered for Fault {
    ghost number_of = { number_of };

    fn number(self) -> u8 {
        self as u8
    }
}
