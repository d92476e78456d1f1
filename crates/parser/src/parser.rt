// A parser: where it stands, and what it has made so far.
use tokens::token::Token;

/// The tokens still to be read, the length of the source, at which an early end is told, and what has been made of the
/// tokens before: declared names, or code.
// The end stays, and each clause says so: an early end without a place would be one type of errors more, for one conversion.
#[derive(Drop)]
pub(crate) struct Parser<'t, 'a, T> {
    pub(crate) rest: &'t [Token<'a>],
    pub(crate) end: usize,
    pub(crate) out: Vec<T>,
}
