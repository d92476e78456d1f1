// The type of the open parts. It stands apart from its methods, since their contracts cite definitions that name the type.
ghost use Rattle.std.specs.Prelude.{◌≤◌};
ghost use Rattle.stack.specs.Held.{room};

use crate::train::Part;
use stack::Stack;

/// The parts that are open, on a stack that has room for as many as may be.
#[derive(Drop)]
pub(crate) struct OpenParts<'m> {
    pub(crate) stack: Stack<'m, Part>,
    ghost space: { 16 ≤ room stack },
}
