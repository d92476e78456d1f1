// Taking the next token, of any kind or of a kind that is wanted.
ghost use Rattle.std.specs.Prelude.{◌≡◌};
ghost use Rattle.grammar.specs.Machine.{is_sign, is_word};
ghost use Rattle.parser.specs.Looks.{Expects, Nexts, TakesSign, is};
ghost use Rattle.tokens.specs.Tokens.{kind_of};

use crate::fault::Fault;
use crate::parser::Parser;
use refusals::Failure;
use tokens::sign::Sign;
use tokens::token::{Token, TokenKind};
use tokens::word::Word;

// The rest is taken by index, and not by `split_first`: the check does not cover a field that is given a part of such a pair.
impl<'t, 'a, T> Parser<'t, 'a, T> {
    /// Takes the next token; where there is none, the source ends early.
    pub(crate) fn next(&mut self) -> Result<Token<'a>, Failure<Fault>>
        ensures { Nexts self.old result self.new }
    {
        let all = self.rest;
        let Some(token) = all.first() else {
            return Err(Failure::refused(Fault::NotAllowed, self.end));
        };
        self.rest = &all[1..];
        Ok(*token)
    }

    /// Takes the next token, which must be of this kind.
    #[inline(always)]
    pub(crate) fn expect(&mut self, wanted: TokenKind<'_>) -> Result<(), Failure<Fault>>
        ensures { Expects (kind_of wanted.entry) self.old result self.new }
    {
        let token = self.next()?;
        if is_kind(token.kind, wanted) {
            Ok(())
        } else {
            Err(Failure::refused(Fault::NotAllowed, token.place))
        }
    }

    /// Takes the next token if it is this sign, and tells its place.
    pub(crate) fn take_sign(&mut self, sign: Sign) -> Option<usize>
        ensures { TakesSign sign self.old result self.new }
    {
        let all = self.rest;
        let Some(token) = all.first() else {
            return None;
        };
        if !is_sign(token.kind, sign) {
            return None;
        }
        self.rest = &all[1..];
        Some(token.place)
    }
}

/// Whether a kind of token is the one that is wanted.
// Each call writes out what it wants. So this is inlined, and what is left of it compares one sign or one word.
#[inline(always)]
fn is_kind(kind: TokenKind<'_>, wanted: TokenKind<'_>) -> bool
    ensures { result ≡ is (kind_of wanted.entry) (kind_of kind.entry) }
{
    match wanted {
        TokenKind::Sign(sign) => is_sign(kind, sign),
        TokenKind::Word(word) => is_word(kind, word),
        TokenKind::Name(_) | TokenKind::Constant(_) => kind == wanted,
    }
}

/// Whether a kind of token is this sign.
// A sign is compared with a sign, and a word with a word: that costs less than `==` on kinds, which tells names and constants apart too.
#[inline(always)]
fn is_sign(kind: TokenKind<'_>, sign: Sign) -> bool
    ensures { result ≡ is_sign sign (kind_of kind.entry) }
{
    matches!(kind, TokenKind::Sign(other) if sign == other)
}

/// Whether a kind of token is this word.
#[inline(always)]
fn is_word(kind: TokenKind<'_>, word: Word) -> bool
    ensures { result ≡ is_word word (kind_of kind.entry) }
{
    matches!(kind, TokenKind::Word(other) if word == other)
}
