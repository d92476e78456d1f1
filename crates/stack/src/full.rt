// Why an item is not taken.

/// The stack has no room left.
#[derive(Clone, Copy, PartialEq, Eq, Debug)]
pub struct Full;
