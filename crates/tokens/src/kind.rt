// From a run of bytes to the token that it is, or to its fault.
ghost use Rattle.std.specs.Prelude.{◌≡◌};
ghost use Rattle.tokens.specs.Law.{Forms};
ghost use Rattle.tokens.specs.Pieces.{piece, run as run-sort};
ghost use Rattle.tokens.specs.Progress.{kind_meaning};
ghost use Rattle.tokens.specs.Reading.{meaning};
ghost use Rattle.tokens.specs.declared.reader.Run.TheVariants.{Name, Word as AsWord, Number};

use crate::fault::Fault;
use crate::reader::Run;
use crate::token::TokenKind;
use crate::word::Word;
use std::str;

const MOST_LETTERS: usize = 16;

const MOST_DIGITS: usize = 10;

const GREATEST: u32 = 2_147_483_647;

/// The token that a whole run is, or the run's fault.
pub(crate) fn run_kind(run: Run, bytes: &[u8]) -> Result<TokenKind<'_>, Fault>
    requires { Forms (run-sort run) bytes.now }
    ensures { kind_meaning result ≡ meaning (piece (run-sort run) bytes.now) }
{
    match run {
        Run::Name => name_kind(bytes),
        Run::Word => word_kind(bytes),
        Run::Number => constant_kind(bytes),
    }
}

fn name_kind(bytes: &[u8]) -> Result<TokenKind<'_>, Fault>
    requires { Forms (run-sort Name) bytes.now }
    ensures { kind_meaning result ≡ meaning (piece (run-sort Name) bytes.now) }
{
    if bytes.len() > MOST_LETTERS {
        return Err(Fault::NameTooLong);
    }
    Ok(TokenKind::Name(run_text(Run::Name, bytes)))
}

fn word_kind(bytes: &[u8]) -> Result<TokenKind<'_>, Fault>
    ensures { kind_meaning result ≡ meaning (piece (run-sort AsWord) bytes.now) }
{
    let word = Word::of_run(bytes).ok_or(Fault::UnknownWord)?;
    Ok(TokenKind::Word(word))
}

fn constant_kind(bytes: &[u8]) -> Result<TokenKind<'_>, Fault>
    requires { Forms (run-sort Number) bytes.now }
    ensures { kind_meaning result ≡ meaning (piece (run-sort Number) bytes.now) }
{
    if bytes.len() > MOST_DIGITS {
        return Err(Fault::ConstantTooLarge);
    }
    match run_text(Run::Number, bytes).parse() {
        Ok(value) if value <= GREATEST => Ok(TokenKind::Constant(value)),
        _ => Err(Fault::ConstantTooLarge),
    }
}

/// A run as text, which letters and digits are.
fn run_text(run: Run, bytes: &[u8]) -> &str
    requires { Forms (run-sort run) bytes.now }
    ensures { result.now ≡ bytes.now }
{
    str::from_utf8(bytes).unwrap()
}
