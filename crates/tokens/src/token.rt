// Tokens, as the source has them.
use crate::sign::Sign;
use crate::word::Word;

/// A token: what it is, and its place, the offset of its first byte in the source.
#[derive(Clone, Copy, PartialEq, Eq)]
pub struct Token<'a> {
    pub place: usize,
    pub kind: TokenKind<'a>,
}

/// What a token is. A name borrows its letters from the source; a constant is known by its value.
#[derive(Clone, Copy, PartialEq, Eq)]
pub enum TokenKind<'a> {
    Word(Word),
    Sign(Sign),
    Name(&'a str),
    Constant(u32),
}
