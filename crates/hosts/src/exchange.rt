// What passes between a run and its host.
ghost use Rattle.std.specs.Prelude.{◌≡◌};
ghost use Rattle.hosts.specs.declared.exchange.Cause.TheVariants as cause;

/// What a host is given to write, and what it reads where that can be read.
#[derive(Clone, Copy, PartialEq, Eq, Debug)]
pub enum Value {
    Truth(bool),
    Number(u32),
}

/// What cannot be read: neither a truth nor a number up to 4,294,967,294.
#[derive(Clone, Copy, PartialEq, Eq, Debug)]
pub struct Unreadable;

/// What a host reads: a number up to 4,294,967,294, a truth, or something that is neither.
pub type Item = Result<Value, Unreadable>;

/// A host's own reason why it gives or takes nothing: there is no item left, or the first cannot be read; there is no room for a
/// value, or a number is too large to be written.
#[derive(Clone, Copy, PartialEq, Eq, Debug)]
pub enum Cause {
    Empty,
    Unreadable,
    Full,
    Large,
}

impl From<Unreadable> for Cause {
    ghost from_gives = { λ _ r. r ≡ cause.Unreadable };

    fn from(_unreadable: Unreadable) -> Cause {
        Cause::Unreadable
    }
}
