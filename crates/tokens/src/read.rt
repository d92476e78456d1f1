// Reading a source: one pass over its bytes.
ghost use Rattle.std.specs.Prelude.{◌≡◌, ◌≤◌, length, drop, []};
ghost use Rattle.tokens.specs.Answer.{Answers};
ghost use Rattle.tokens.specs.Law.{Lawful};
ghost use Rattle.tokens.specs.Pieces.{next_class};
ghost use Rattle.tokens.specs.Progress.{Moves, Stands};
ghost use Rattle.tokens.specs.Reading.{reading};
ghost use Rattle.tokens.specs.Tokens.{placed};
ghost use Rattle.tokens.specs.declared.reader.State.TheVariants.{Between};

use crate::class::{Class, class_of};
use crate::fault::Fault;
use crate::reader::{Reader, State};
use crate::token::Token;
use crate::told::Told;
use refusals::Failure;
use std::alloc::Global;

const MOST_BYTES: usize = 8192;

/// The tokens of a source, or why it is refused.
pub fn read_tokens<'a>(heap: Global, source: &'a [u8]) -> Result<Vec<Token<'a>>, Failure<Fault>>
    ensures defined { Answers (reading source.now) result }
    ensures lawful { Lawful source.now result }
{
    read_bytes(heap, source)
}

/// The same, without the law: one step for each byte, and one for the end.
fn read_bytes<'a>(heap: Global, source: &'a [u8]) -> Result<Vec<Token<'a>>, Failure<Fault>>
    ensures { Answers (reading source.now) result }
{
    if source.len() > MOST_BYTES {
        return Err(Failure::refused(Fault::SourceTooLong, 0));
    }
    let mut scanner = Scanner::new(heap, source);
    for (at, byte) in source.iter().enumerate() {
        scanner.take(at, class_of(*byte))?;
    }
    // The end parts tokens as a blank does.
    scanner.take(source.len(), Class::Blank)?;
    Ok(scanner.told.tokens)
}

/// A source, the tokens that are told of it so far, and the reader that goes over it.
// That they stand together is a `requires`, and no ghost field: inside of `take` the reader is ahead of the tokens.
#[derive(Drop)]
struct Scanner<'a> {
    source: &'a [u8],
    told: Told<'a>,
    reader: Reader,
}

impl<'a> Scanner<'a> {
    fn new(heap: Global, source: &'a [u8]) -> Scanner<'a>
        ensures source { result.source ≡ source.entry }
        ensures told { placed result.told.tokens ≡ [] }
        ensures reader { result.reader ≡ record { state = Between; start = 0 } }
    {
        Scanner {
            source,
            told: Told {
                tokens: Vec::new(heap),
            },
            reader: Reader {
                state: State::Between,
                start: 0,
            },
        }
    }

    /// Takes one byte, known by its class.
    fn take(&mut self, at: usize, class: Class) -> Result<(), Failure<Fault>>
        requires stands { Stands self.old.source.now (placed self.old.told.tokens) self.old.reader at }
        requires within { at ≤ length self.old.source.now }
        requires next { class ≡ next_class (drop at self.old.source.now) }
        ensures moves { Moves self.old.source.now at result (placed self.new.told.tokens) self.new.reader }
        ensures source { self.new.source ≡ self.old.source }
    {
        let start = self.reader.start;
        let step = self.reader.advance(at, class);
        self.told.end_run(step.ended, self.source, start, at)?;
        self.told.settle(step.found, self.reader.start)
    }
}
