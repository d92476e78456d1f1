// Telling tokens, one after the other.
ghost use Rattle.std.specs.List.{between};
ghost use Rattle.tokens.specs.Progress.{Pending, Takes, ended_meaning, found_meaning};
ghost use Rattle.tokens.specs.Reading.{token as as-token};
ghost use Rattle.tokens.specs.Tokens.{kind_of, placed};

use crate::fault::Fault;
use crate::kind::run_kind;
use crate::reader::Run;
use crate::sign::Sign;
use crate::token::{Token, TokenKind};
use refusals::{Failure, Refusal};

const MOST_TOKENS: usize = 512;

/// The tokens that have been told of a source so far.
#[derive(Drop)]
pub(crate) struct Told<'a> {
    pub(crate) tokens: Vec<Token<'a>>,
}

impl<'a> Told<'a> {
    /// Tells the run that has ended before the byte at `at`, if one has; it began at `place`.
    pub(crate) fn end_run(
        &mut self,
        ended: Option<Run>,
        source: &'a [u8],
        place: usize,
        at: usize,
    ) -> Result<(), Failure<Fault>>
        requires { Pending ended source.now place at }
        ensures { Takes (placed self.old.tokens) (ended_meaning ended (between place at source.now)) place result (placed self.new.tokens) }
    {
        let Some(run) = ended else {
            return Ok(());
        };
        let kind = run_kind(run, &source[place..at]).map_err(|fault| Refusal { fault, place })?;
        self.add(place, kind)
    }

    /// Tells what a byte has completed.
    pub(crate) fn settle(
        &mut self,
        found: Result<Option<Sign>, Fault>,
        place: usize,
    ) -> Result<(), Failure<Fault>>
        ensures { Takes (placed self.old.tokens) (found_meaning found) place result (placed self.new.tokens) }
    {
        match found.map_err(|fault| Refusal { fault, place })? {
            Some(sign) => self.add(place, TokenKind::Sign(sign)),
            None => Ok(()),
        }
    }

    /// One token more, unless there are too many.
    fn add(&mut self, place: usize, kind: TokenKind<'a>) -> Result<(), Failure<Fault>>
        ensures { Takes (placed self.old.tokens) (as-token (kind_of kind.entry)) place result (placed self.new.tokens) }
    {
        if self.tokens.len() >= MOST_TOKENS {
            return Err(Failure::refused(Fault::TooManyTokens, place));
        }
        self.tokens.push(Token { place, kind })?;
        Ok(())
    }
}
