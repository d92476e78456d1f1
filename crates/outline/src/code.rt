// The flat form of a sheet's statements.

#[derive(Clone, Copy, PartialEq, Eq, Debug)]
pub enum Operator {
    Plus,
    Times,
    Equal,
    Differ,
}

/// One step of the flat form. A number that comes first is the place in the source.
// No pair of a place and a name: operators and constants have places too, and a name of its own would stand in four of these alone.
#[derive(Clone, Copy)]
pub enum Instruction<'a> {
    /// The value of a name.
    Load(usize, &'a str),
    Number(usize, u32),
    Truth(usize, bool),
    /// An operator on the two values before it.
    Apply(usize, Operator),
    /// The target of an assignment, before its right side.
    Target(usize, &'a str),
    /// A lone name on the right side of an assignment, as it stands.
    Refer(usize, &'a str),
    /// The end of an assignment.
    Store,
    /// An `if` whose condition is worked out.
    Test(usize),
    /// `else`.
    Otherwise,
    /// `fi`.
    Join,
    /// A `while`, before its condition.
    Head(usize),
    /// A `while` whose condition is worked out.
    Enter(usize),
    /// The `end` of a loop.
    Repeat,
    /// `input`, and its name with its place.
    Read(usize, usize, &'a str),
    /// `output` of the value before it.
    Write(usize),
}
