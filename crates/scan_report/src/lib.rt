// The report on the tokens of a source, as text.
#![tactic(auto)]

ghost use Rattle.std.specs.Prelude.{◌≡◌, map, IfOk, string_bytes, Some};
ghost use Rattle.scan_report.specs.Report.{entry, report_of};
ghost use Rattle.tokens.specs.Reading.{read, reading};
ghost use Rattle.tokens.specs.Tokens.{token_of};

use refusals::Failure;
use std::alloc::{AllocError, Global};
use std::fmt;
use tokens::read_tokens;
use tokens::token::{Token, TokenKind};

/// The report on a source. Only want of heap memory is an `Err`.
pub fn report(heap: Global, source: &[u8]) -> Result<String, AllocError>
    ensures { IfOk result (λ s. string_bytes s ≡ report_of (reading source.now)) }
{
    match read_tokens(heap, source) {
        Ok(tokens) => accepted(heap, tokens.as_slice()),
        Err(Failure::Refused(refusal)) => format!(in heap; "{refusal}\n"),
        Err(Failure::Memory(error)) => Err(error),
    }
}

fn accepted(heap: Global, tokens: &[Token<'_>]) -> Result<String, AllocError>
    ensures { IfOk result (λ s. string_bytes s ≡ report_of (read (map token_of tokens.now))) }
{
    let mut out = String::new(heap);
    for token in tokens {
        writeln!(out, "{}", Entry(token))?;
    }
    let count = tokens.len();
    writeln!(out, "accepted {count} tokens")?;
    Ok(out)
}

/// A token as the report has it: `PLACE KIND TEXT`.
#[derive(Drop)]
struct Entry<'t, 'a>(&'t Token<'a>);

impl fmt::Display for Entry<'_, '_> {
    ghost output = { λ e. Some (entry (token_of e.0.now)) };

    fn fmt<W: fmt::Write>(&self, f: &mut fmt::Formatter<W>) -> fmt::Result {
        let place = self.0.place;
        match self.0.kind {
            TokenKind::Word(word) => write!(f, "{place} word {word}"),
            TokenKind::Sign(sign) => write!(f, "{place} sign {sign}"),
            TokenKind::Name(name) => write!(f, "{place} name {name}"),
            TokenKind::Constant(value) => write!(f, "{place} constant {value}"),
        }
    }
}
