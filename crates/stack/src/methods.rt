// How a stack is made and altered, and its top. Each contract speaks of the list that the stack holds and of the room that it has.
ghost use Rattle.std.specs.Prelude.{◌≡◌, [], length};
ghost use Rattle.stack.specs.Held.{held, room, Pushed, Popped, Topped};

use super::{Full, Stack};

impl<'a, T: Copy> Stack<'a, T> {
    /// An empty stack over all of `cells`.
    pub fn over(cells: &'a mut [T]) -> Stack<'a, T>
        ensures empty { held result ≡ [] }
        ensures whole { room result ≡ length cells.old }
    {
        Stack { cells, height: 0 }
    }

    /// Puts `item` on top; or, where the stack is full, alters nothing.
    pub fn push(&mut self, item: T) -> Result<(), Full>
        ensures pushed { Pushed self.old item result self.new }
        ensures kept { room self.new ≡ room self.old }
    {
        if self.height == self.cells.len() {
            return Err(Full);
        }
        self.cells[self.height] = item;
        self.height += 1;
        Ok(())
    }

    /// Takes the top item off; or, where the stack is empty, answers `None` and alters nothing.
    pub fn pop(&mut self) -> Option<T>
        ensures popped { Popped self.old result self.new }
        ensures kept { room self.new ≡ room self.old }
    {
        if self.height > 0 {
            self.height -= 1;
            Some(self.cells[self.height])
        } else {
            None
        }
    }

    /// The top item, which stays, or `None` where the stack is empty.
    pub fn top(&self) -> Option<T>
        ensures { Topped self.now result }
    {
        if self.height > 0 {
            // Lent as a slice first: of that the size in bytes is known to fit.
            let cells: &[T] = self.cells;
            Some(cells[self.height - 1])
        } else {
            None
        }
    }
}
