// Why the memory that a caller lends makes no host.
ghost use Rattle.hosts.specs.Faults.{number_of};

use refusals::Numbered;

/// What can be wrong with what a host is made of.
#[derive(Clone, Copy, PartialEq, Eq, Debug)]
pub enum Fault {
    MemoryShort = 23,
    InputTooLong = 24,
}

impl Numbered for Fault {
    ghost number_of = { number_of };

    fn number(self) -> u8 {
        self as u8
    }
}
