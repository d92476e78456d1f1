// Whole programs.
ghost use Rattle.std.specs.Prelude.{◌≡◌, map, length};
ghost use Rattle.parser.specs.Answer.{Answers};
ghost use Rattle.parser.specs.Parsing.{parsing};
ghost use Rattle.tokens.specs.Tokens.{token_of};

use crate::fault::Fault;
use crate::parser::Parser;
use crate::parts::OpenParts;
use crate::train::Part;
use outline::Outline;
use refusals::Failure;
use std::alloc::Global;
use tokens::token::{Token, TokenKind};
use tokens::word::Word;

/// The outline of the program that the tokens of a source are, or why they are none. `end` is the length of the source
/// in bytes, and `memory` is lent for the open parts: what it holds afterwards is free, and decides nothing.
pub fn parse_tokens<'a>(
    heap: Global,
    tokens: &[Token<'a>],
    end: usize,
    memory: &mut [Part],
) -> Result<Outline<'a>, Failure<Fault>>
    ensures { Answers (parsing (length memory.old) end (map token_of tokens.now)) result }
{
    let Some(mut parts) = OpenParts::over(memory) else {
        return Err(Failure::refused(Fault::MemoryShort, 0));
    };
    let mut names = Parser {
        rest: tokens,
        end,
        out: Vec::new(heap),
    };
    names.expect(TokenKind::Word(Word::Begin))?;
    names.declarations()?;
    let mut body = Parser {
        rest: names.rest,
        end,
        out: Vec::new(heap),
    };
    body.statements(&mut parts)?;
    Ok(Outline {
        declared: names.out,
        code: body.out,
    })
}
