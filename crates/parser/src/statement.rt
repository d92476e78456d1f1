// Statements, up to the end of a simple one or the beginning of a part.
ghost use Rattle.std.specs.Prelude.{◌≡◌, ℕ, List, []};
ghost use Rattle.grammar.specs.Machine.{Part as machine-part, begin_statement, for_choose, for_loop, for_output, fresh, input_name, inside, loop_part, operand, target, then_part};
ghost use Rattle.grammar.specs.Tree.{Declared, Stmt};
ghost use Rattle.parser.specs.Statements.{Begins, EndsAs, Enters, Heads, NoOperator, Sources, TakesLone, choice_lead, loop_lead, opened};
ghost use Rattle.tokens.specs.Tokens.{kind_of};

use crate::fault::Fault;
use crate::parser::Parser;
use crate::train::{MOST_PARTS, Part};
use outline::code::Instruction;
use refusals::Failure;
use tokens::sign::Sign;
use tokens::token::{Token, TokenKind};
use tokens::word::Word;

/// What the first token of a statement opens.
#[derive(Clone, Copy)]
pub(crate) enum Opener<'a> {
    Name(&'a str),
    If,
    While,
    Input,
    Output,
}

fn opens<'a>(kind: TokenKind<'a>) -> Option<Opener<'a>>
    ensures { (ds : List Declared) (parts : List machine-part) (before : List Stmt) (p : ℕ) → begin_statement ds parts before p (kind_of kind.entry) ≡ opened ds parts before p result }
{
    match kind {
        TokenKind::Name(name) => Some(Opener::Name(name)),
        TokenKind::Word(Word::If) => Some(Opener::If),
        TokenKind::Word(Word::While) => Some(Opener::While),
        TokenKind::Word(Word::Input) => Some(Opener::Input),
        TokenKind::Word(Word::Output) => Some(Opener::Output),
        TokenKind::Word(_) => None,
        TokenKind::Sign(_) => None,
        TokenKind::Constant(_) => None,
    }
}

/// Whether an operator stands first, so that a name before it is not alone.
fn operator_first(tokens: &[Token<'_>]) -> bool
    ensures { NoOperator tokens.now result }
{
    tokens.first().is_some_and(|token| matches!(
        token.kind,
        TokenKind::Sign(Sign::Star | Sign::Plus)
    ))
}

impl<'t, 'a> Parser<'t, 'a, Instruction<'a>> {
    /// The first tokens of a statement, with `open` parts open: all of it, or the beginning of a part.
    pub(crate) fn begin(&mut self, open: usize) -> Result<Option<Part>, Failure<Fault>>
        ensures { Begins «open» self.old result self.new }
    {
        let token = self.next()?;
        let place = token.place;
        match opens(token.kind) {
            Some(Opener::Name(name)) => self.assignment(place, name)?,
            Some(Opener::Input) => self.input(place)?,
            Some(Opener::Output) => self.output(place)?,
            Some(Opener::If) if open < MOST_PARTS => {
                self.choice(place)?;
                return Ok(Some(Part::Then));
            }
            Some(Opener::While) if open < MOST_PARTS => {
                self.repetition(place)?;
                return Ok(Some(Part::Loop));
            }
            Some(Opener::If | Opener::While) => return Err(Failure::refused(Fault::TooDeep, place)),
            None => return Err(Failure::refused(Fault::NotAllowed, place)),
        }
        Ok(None)
    }

    /// An assignment, from its `:=` on.
    fn assignment(&mut self, place: usize, name: &'a str) -> Result<(), Failure<Fault>>
        ensures { EndsAs (λ ds parts before. inside ds parts before (target place name.now)) self.old result self.new }
    {
        self.expect(TokenKind::Sign(Sign::Becomes))?;
        self.out.push(Instruction::Target(place, name))?;
        self.source()?;
        self.out.push(Instruction::Store)?;
        Ok(())
    }

    /// The right side of an assignment.
    fn source(&mut self) -> Result<(), Failure<Fault>>
        ensures { Sources self.old result self.new }
    {
        let Some((place, name)) = self.take_lone_name() else {
            return self.expression();
        };
        self.out.push(Instruction::Refer(place, name))?;
        Ok(())
    }

    /// Takes a name that no operator follows.
    fn take_lone_name(&mut self) -> Option<(usize, &'a str)>
        ensures { TakesLone self.old result self.new }
    {
        let all = self.rest;
        let Some(token) = all.first() else {
            return None;
        };
        let TokenKind::Name(name) = token.kind else {
            return None;
        };
        let behind = &all[1..];
        if operator_first(behind) {
            return None;
        }
        self.rest = behind;
        Some((token.place, name))
    }

    /// An input, from its name on.
    fn input(&mut self, place: usize) -> Result<(), Failure<Fault>>
        ensures { EndsAs (λ ds parts before. inside ds parts before (input_name place)) self.old result self.new }
    {
        let token = self.next()?;
        let TokenKind::Name(name) = token.kind else {
            return Err(Failure::refused(Fault::NotAllowed, token.place));
        };
        self.out.push(Instruction::Read(place, token.place, name))?;
        Ok(())
    }

    /// An output, from its expression on.
    fn output(&mut self, place: usize) -> Result<(), Failure<Fault>>
        ensures { EndsAs (λ ds parts before. inside ds parts before (operand (for_output place) fresh [])) self.old result self.new }
    {
        self.expression()?;
        self.out.push(Instruction::Write(place))?;
        Ok(())
    }

    /// An `if`, from its condition up to its `then`.
    fn choice(&mut self, place: usize) -> Result<(), Failure<Fault>>
        ensures { Heads (for_choose place) then_part choice_lead place self.old result self.new }
    {
        self.condition(Word::Then)?;
        self.out.push(Instruction::Test(place))?;
        Ok(())
    }

    /// A `while`, from its condition up to its `do`.
    fn repetition(&mut self, place: usize) -> Result<(), Failure<Fault>>
        ensures { Heads (for_loop place) loop_part loop_lead place self.old result self.new }
    {
        self.out.push(Instruction::Head(place))?;
        self.condition(Word::Do)?;
        self.out.push(Instruction::Enter(place))?;
        Ok(())
    }

    /// A condition and the word behind it.
    fn condition(&mut self, word: Word) -> Result<(), Failure<Fault>>
        ensures { Enters word self.old result self.new }
    {
        self.expression()?;
        self.expect(TokenKind::Word(word))
    }
}
