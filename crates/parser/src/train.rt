// Trains of statements. The open parts lie on a stack, so that no recursion follows their nesting.
ghost use Rattle.std.specs.Prelude.{◌≡◌, List};
ghost use Rattle.grammar.specs.Machine as machine;
ghost use Rattle.grammar.specs.Machine.{end_statement};
ghost use Rattle.grammar.specs.Tree.{Declared, Stmt};
ghost use Rattle.parser.specs.Trains.{Ends, Further, Leads, Whole, closed_by, decide};
ghost use Rattle.parser.specs.declared.train.Progress.TheVariants.{Complete, Wanted};
ghost use Rattle.tokens.specs.Tokens.{kind_of};

use crate::fault::Fault;
use crate::parser::Parser;
use crate::parts::OpenParts;
use outline::code::Instruction;
use refusals::Failure;
use tokens::sign::Sign;
use tokens::token::TokenKind;
use tokens::word::Word;

/// How many parts may be open at a time.
pub const MOST_PARTS: usize = 16;

/// An open part: behind `then`, behind `else`, or in a loop.
#[derive(Clone, Copy)]
pub enum Part {
    Then,
    Else,
    Loop,
}

/// Where the parser stands: a statement is wanted, one is complete, or the program is.
// A state, and no closure for the next step: the loop is the machine of the grammar, and its proof speaks of these states.
#[derive(Clone, Copy)]
pub(crate) enum Progress {
    Wanted,
    Complete,
    Finished,
}

/// What the token behind a statement may close.
#[derive(Clone, Copy)]
enum Closer {
    Semicolon,
    Else,
    Fi,
    End,
}

fn closes(kind: TokenKind<'_>) -> Option<Closer>
    ensures { (ds : List Declared) (parts : List machine.Part) (before : List Stmt) (s : Stmt) → end_statement ds parts before s (kind_of kind.entry) ≡ closed_by ds parts before s result }
{
    match kind {
        TokenKind::Sign(Sign::Semicolon) => Some(Closer::Semicolon),
        TokenKind::Word(Word::Else) => Some(Closer::Else),
        TokenKind::Word(Word::Fi) => Some(Closer::Fi),
        TokenKind::Word(Word::End) => Some(Closer::End),
        TokenKind::Sign(_) => None,
        TokenKind::Word(_) => None,
        TokenKind::Name(_) => None,
        TokenKind::Constant(_) => None,
    }
}

/// What is done behind a statement: another follows, `else` turns its part, a part is closed, or the program is.
#[derive(Clone, Copy)]
enum Ending {
    Next,
    Turn,
    Join,
    Repeat,
    Finish,
}

fn end_of(closer: Option<Closer>, innermost: Option<Part>) -> Option<Ending>
    ensures { result ≡ decide closer innermost }
{
    match (closer, innermost) {
        (Some(Closer::Semicolon), _) => Some(Ending::Next),
        (Some(Closer::Else), Some(Part::Then)) => Some(Ending::Turn),
        (Some(Closer::Fi), Some(Part::Then | Part::Else)) => Some(Ending::Join),
        (Some(Closer::End), Some(Part::Loop)) => Some(Ending::Repeat),
        (Some(Closer::End), None) => Some(Ending::Finish),
        _ => None,
    }
}

impl<'t, 'a> Parser<'t, 'a, Instruction<'a>> {
    /// All statements, up to the program's `end`, behind which nothing may follow.
    pub(crate) fn statements(&mut self, parts: &mut OpenParts<'_>) -> Result<(), Failure<Fault>>
        ensures { Whole self.old parts.old result self.new }
    {
        let mut progress = Progress::Wanted;
        loop {
            progress = match progress {
                Progress::Wanted => self.begin_one(parts)?,
                Progress::Complete => self.end_one(parts)?,
                Progress::Finished => return self.nothing_more(),
            };
        }
    }

    /// Takes the first tokens of a statement.
    fn begin_one(&mut self, parts: &mut OpenParts<'_>) -> Result<Progress, Failure<Fault>>
        ensures leads { Leads Wanted self.old parts.old result self.new parts.new }
        ensures further { Further self.old result self.new }
    {
        let Some(part) = self.begin(parts.count())? else {
            return Ok(Progress::Complete);
        };
        parts.open(part);
        Ok(Progress::Wanted)
    }

    /// Takes the token behind a statement.
    fn end_one(&mut self, parts: &mut OpenParts<'_>) -> Result<Progress, Failure<Fault>>
        ensures leads { Leads Complete self.old parts.old result self.new parts.new }
        ensures further { Further self.old result self.new }
    {
        let token = self.next()?;
        match end_of(closes(token.kind), parts.innermost()) {
            Some(Ending::Next) => Ok(Progress::Wanted),
            Some(Ending::Turn) => {
                self.out.push(Instruction::Otherwise)?;
                parts.turn();
                Ok(Progress::Wanted)
            }
            Some(Ending::Join) => {
                self.out.push(Instruction::Join)?;
                parts.close();
                Ok(Progress::Complete)
            }
            Some(Ending::Repeat) => {
                self.out.push(Instruction::Repeat)?;
                parts.close();
                Ok(Progress::Complete)
            }
            Some(Ending::Finish) => Ok(Progress::Finished),
            None => Err(Failure::refused(Fault::NotAllowed, token.place)),
        }
    }

    /// Behind the program nothing may follow.
    fn nothing_more(&self) -> Result<(), Failure<Fault>>
        ensures { Ends self.now result }
    {
        match self.rest.first() {
            Some(token) => Err(Failure::refused(Fault::NotAllowed, token.place)),
            None => Ok(()),
        }
    }
}
