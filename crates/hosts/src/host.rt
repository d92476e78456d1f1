// What a host is.
ghost use Rattle.std.specs.Prelude.{◌≡◌, ℕ, List};
ghost use Rattle.hosts.specs.Meaning.{Item, Readable, behind, first, put_answer, put_room, put_said};
ghost use Rattle.hosts.specs.declared.exchange.Value.{Value};

use crate::exchange::{Cause, Item, Value};

/// A host: what supplies readings and takes verdicts. It is known by three members alone: the items still to be read, the values
/// written, the oldest first, and how many more it takes. Two hosts are alike if these three are equal.
// Three members, and no record of them: each clause speaks of one, and a host's own type shows each by itself.
pub trait Host {
    ghost left: { Self → List Item };

    ghost said: { Self → List Value };

    ghost room: { Self → ℕ };

    /// The first item still to be read, which stays.
    fn front(&self) -> Option<Item>
        ensures { result ≡ first (left self.now) };

    /// Removes the first item still to be read, if there is one.
    fn take(&mut self)
        ensures rest { left self.new ≡ behind (left self.old) }
        ensures same_said { said self.new ≡ said self.old }
        ensures same_room { room self.new ≡ room self.old };

    /// Writes a value, or refuses it and alters nothing: `Full` without room, or else `Large` for a number above 2,147,483,647.
    fn put(&mut self, value: Value) -> Result<(), Cause>
        ensures answer { result ≡ put_answer (room self.old) value }
        ensures same_left { left self.new ≡ left self.old }
        ensures more_said { said self.new ≡ put_said result value (said self.old) }
        ensures less_room { room self.new ≡ put_room result (room self.old) };

    ghost readable: { (h : Self) → Readable (left h) };
}
