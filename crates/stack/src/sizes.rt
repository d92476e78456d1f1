// How much a stack holds, and how much it has room for.
ghost use Rattle.std.specs.Prelude.{◌≡◌, ◌≤◌, length};
ghost use Rattle.stack.specs.Held.{held, room};

use super::Stack;

impl<'a, T: Copy> Stack<'a, T> {
    /// How many items the stack holds, which is never more than it has room for.
    pub fn len(&self) -> usize
        ensures counted { result ≡ length (held self.now) }
        ensures within { result ≤ room self.now }
    {
        self.height
    }

    /// How many items the stack has room for in all.
    pub fn capacity(&self) -> usize
        ensures { result ≡ room self.now }
    {
        self.cells.len()
    }
}
