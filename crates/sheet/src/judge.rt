// From the bytes of a source to a sheet, or to the first refusal.
ghost use Rattle.std.specs.Prelude.{length};
ghost use Rattle.outline.specs.Code.{ops};
ghost use Rattle.outline.specs.Names.{names};
ghost use Rattle.sheet.specs.Answer.{Answers, Checks};
ghost use Rattle.sheet.specs.Judging.{judging};
ghost use Rattle.sheet.specs.Law.{Lawful};

use crate::Sheet;
use crate::fault::Fault;
use modes::{check_declared, check_statements};
use outline::Outline;
use parser::parse_tokens;
use parser::train::{MOST_PARTS, Part};
use refusals::Failure;
use std::alloc::Global;
use tokens::read_tokens;

/// Passes a source as a sheet, or refuses it. `memory` is lent for the open parts: what it holds afterwards is free, and
/// decides nothing.
pub fn judge_source<'a>(
    heap: Global,
    source: &'a [u8],
    memory: &mut [Part],
) -> Result<Sheet<'a>, Failure<Fault>>
    ensures defined { Answers (judging (length memory.old) source.now) result }
    ensures lawful { Lawful (length memory.old) source.now result }
{
    judge_phases(heap, source, memory)
}

/// The same, without the law: phase after phase.
fn judge_phases<'a>(
    heap: Global,
    source: &'a [u8],
    memory: &mut [Part],
) -> Result<Sheet<'a>, Failure<Fault>>
    ensures { Answers (judging (length memory.old) source.now) result }
{
    if memory.len() < MOST_PARTS {
        return Err(Failure::refused(Fault::Grammar(parser::fault::Fault::MemoryShort), 0));
    }
    let tokens = read_tokens(heap, source).map_err(Failure::widen)?;
    let outline = parse_tokens(heap, tokens.as_slice(), source.len(), memory).map_err(
        Failure::widen,
    )?;
    check_outline(heap, &outline)?;
    Ok(Sheet { tokens, outline })
}

/// Declarations, then statements.
fn check_outline(heap: Global, outline: &Outline<'_>) -> Result<(), Failure<Fault>>
    ensures { Checks (names outline.now.declared) (ops outline.now.code) result }
{
    let declared = outline.declared.as_slice();
    check_declared(declared)?;
    check_statements(heap, declared, outline.code.as_slice()).map_err(Failure::widen)
}
