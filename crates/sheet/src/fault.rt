// Why a source is not passed as a sheet.
ghost use Rattle.std.specs.Prelude.{◌≡◌};
ghost use Rattle.sheet.specs.Faults.{number_of};
ghost use Rattle.sheet.specs.declared.fault.Fault.TheVariants as fault;

use refusals::Numbered;

/// The fault of the phase that met it: of the bytes and tokens, of grammar and nesting, of declarations and modes.
#[derive(Clone, Copy, PartialEq, Eq, Debug)]
pub enum Fault {
    Text(tokens::fault::Fault),
    Grammar(parser::fault::Fault),
    Modes(modes::fault::Fault),
}

impl Numbered for Fault {
    ghost number_of = { number_of };

    fn number(self) -> u8 {
        match self {
            Fault::Text(fault) => fault.number(),
            Fault::Grammar(fault) => fault.number(),
            Fault::Modes(fault) => fault.number(),
        }
    }
}

// Three, and none for any phase: each puts the fault into a case of its own.
impl From<tokens::fault::Fault> for Fault {
    ghost from_gives = { λ f r. r ≡ fault.Text f };

    fn from(text: tokens::fault::Fault) -> Fault {
        Fault::Text(text)
    }
}

impl From<parser::fault::Fault> for Fault {
    ghost from_gives = { λ f r. r ≡ fault.Grammar f };

    fn from(grammar: parser::fault::Fault) -> Fault {
        Fault::Grammar(grammar)
    }
}

impl From<modes::fault::Fault> for Fault {
    ghost from_gives = { λ f r. r ≡ fault.Modes f };

    fn from(modes: modes::fault::Fault) -> Fault {
        Fault::Modes(modes)
    }
}
