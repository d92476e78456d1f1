// Declared names.

/// The primitive mode of a name: what it comes to when all references are followed.
#[derive(Clone, Copy, PartialEq, Eq, Debug)]
pub enum Primitive {
    Int,
    Bool,
}

/// A declared name: its place, its letters, how many `ref` its mode has, and the primitive mode.
#[derive(Clone, Copy)]
pub struct Declared<'a> {
    pub place: usize,
    pub name: &'a str,
    pub refs: usize,
    pub primitive: Primitive,
}
