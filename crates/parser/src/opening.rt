// How parts are opened and closed.
ghost use Rattle.std.specs.Prelude.{◌≡◌, ◌<◌, [], ◌∷◌, length};
ghost use Rattle.parser.specs.Parts.{Over, but_innermost, innermost_of, opened, turned};

use crate::parts::OpenParts;
use crate::train::{MOST_PARTS, Part};
use stack::Stack;

impl<'m> OpenParts<'m> {
    /// No part is open yet; where too little memory is lent, `None`.
    pub(crate) fn over(memory: &'m mut [Part]) -> Option<OpenParts<'m>>
        ensures { Over (length memory.old) result }
    {
        if memory.len() < MOST_PARTS {
            return None;
        }
        Some(OpenParts {
            stack: Stack::over(memory),
        })
    }

    /// How many parts are open.
    pub(crate) fn count(&self) -> usize
        ensures { result ≡ length (opened self.now) }
    {
        self.stack.len()
    }

    pub(crate) fn innermost(&self) -> Option<Part>
        ensures { result ≡ innermost_of (opened self.now) }
    {
        self.stack.top()
    }

    pub(crate) fn open(&mut self, part: Part)
        requires { length (opened self.old) < 16 }
        ensures { opened self.new ≡ part ∷ opened self.old }
    {
        self.stack.push(part).unwrap();
    }

    /// Closes the innermost part, if there is one.
    pub(crate) fn close(&mut self)
        ensures { opened self.new ≡ but_innermost (opened self.old) }
    {
        let _ = self.stack.pop();
    }

    /// The innermost part, if there is one, is from now on behind `else`.
    pub(crate) fn turn(&mut self)
        ensures { opened self.new ≡ turned (opened self.old) }
    {
        if self.stack.pop().is_some() {
            self.stack.push(Part::Else).unwrap();
        }
    }
}
