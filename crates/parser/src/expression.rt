// Expressions: one function for operands with an operator between them, whether they are added or multiplied, and one
// for each other level of the grammar. They call each other.
ghost use Rattle.parser.specs.Progress.{AnyLevel, AnyRest, Encloses, Level_of, Level_under, NoPlus, NoSum, Parses, Rest_of, Rest_under, TakesComparison, joins, leaf_code, leaf_postfix, sign_of};
ghost use Rattle.grammar.specs.Machine.{leaf};
ghost use Rattle.outline.specs.Code.{operator_of};
ghost use Rattle.std.specs.Prelude.{◌≡◌};
ghost use Rattle.tokens.specs.Tokens.{kind_of};

use crate::fault::Fault;
use crate::parser::Parser;
use outline::code::{Instruction, Operator};
use refusals::Failure;
use tokens::sign::Sign;
use tokens::token::{Token, TokenKind};
use tokens::word::Word;

const MOST_PARENTHESES: usize = 16;

/// What operands are joined to: a sum of products, or a product of primaries.
#[derive(Clone, Copy)]
pub(crate) enum Rank {
    Sum,
    Product,
}

impl Rank {
    fn sign(self) -> Sign
        ensures { result ≡ sign_of self }
    {
        match self {
            Rank::Sum => Sign::Plus,
            Rank::Product => Sign::Star,
        }
    }

    fn operator(self) -> Operator
        ensures { operator_of result ≡ joins self }
    {
        match self {
            Rank::Sum => Operator::Plus,
            Rank::Product => Operator::Times,
        }
    }
}

/// A name or a constant as the step that gives its value.
fn leaf_of<'a>(token: Token<'a>) -> Option<Instruction<'a>>
    ensures { leaf_code result ≡ leaf_postfix (leaf (kind_of token.entry.kind) token.entry.place) }
{
    let place = token.place;
    match token.kind {
        TokenKind::Name(name) => Some(Instruction::Load(place, name)),
        TokenKind::Constant(value) => Some(Instruction::Number(place, value)),
        TokenKind::Word(Word::True) => Some(Instruction::Truth(place, true)),
        TokenKind::Word(Word::False) => Some(Instruction::Truth(place, false)),
        TokenKind::Word(_) => None,
        TokenKind::Sign(_) => None,
    }
}

impl<'t, 'a> Parser<'t, 'a, Instruction<'a>> {
    /// Parses an expression, and adds its code.
    pub(crate) fn expression(&mut self) -> Result<(), Failure<Fault>>
        ensures { Parses 16 NoSum NoPlus self.old result self.new }
    {
        self.joined(Rank::Sum, MOST_PARENTHESES)
    }

    /// Operands with the rank's operator between them, in which `spare` more parentheses may be opened.
    #[cycle(comparison_joined_operand_primary)]
    fn joined(&mut self, rank: Rank, spare: usize) -> Result<(), Failure<Fault>>
        ensures { Parses spare (Level_of rank) (Rest_of rank) self.old result self.new }
    {
        self.operand(rank, spare)?;
        while let Some(place) = self.take_sign(rank.sign()) {
            self.operand(rank, spare)?;
            self.out.push(Instruction::Apply(place, rank.operator()))?;
        }
        Ok(())
    }

    // A `match`, and no function handed on: that the calls end is told by the rank.
    #[cycle(comparison_joined_operand_primary)]
    fn operand(&mut self, rank: Rank, spare: usize) -> Result<(), Failure<Fault>>
        ensures { Parses spare (Level_under rank) (Rest_under rank) self.old result self.new }
    {
        match rank {
            Rank::Sum => self.joined(Rank::Product, spare),
            Rank::Product => self.primary(spare),
        }
    }

    #[cycle(comparison_joined_operand_primary)]
    fn primary(&mut self, spare: usize) -> Result<(), Failure<Fault>>
        ensures { Parses spare AnyLevel AnyRest self.old result self.new }
    {
        let token = self.next()?;
        if let Some(instruction) = leaf_of(token) {
            self.out.push(instruction)?;
            return Ok(());
        }
        if !matches!(token.kind, TokenKind::Sign(Sign::Open)) {
            return Err(Failure::refused(Fault::NotAllowed, token.place));
        }
        if spare == 0 {
            return Err(Failure::refused(Fault::TooDeep, token.place));
        }
        self.comparison(spare - 1)
    }

    /// What stands between parentheses, an expression or a comparison, and the `)`.
    #[cycle(comparison_joined_operand_primary)]
    fn comparison(&mut self, spare: usize) -> Result<(), Failure<Fault>>
        ensures { Encloses spare self.old result self.new }
    {
        self.joined(Rank::Sum, spare)?;
        let Some((place, operator)) = self.take_comparison() else {
            return self.expect(TokenKind::Sign(Sign::Close));
        };
        self.joined(Rank::Sum, spare)?;
        self.out.push(Instruction::Apply(place, operator))?;
        self.expect(TokenKind::Sign(Sign::Close))
    }

    /// Takes the next token if it compares, and tells its place.
    fn take_comparison(&mut self) -> Option<(usize, Operator)>
        ensures { TakesComparison self.old result self.new }
    {
        if let Some(place) = self.take_sign(Sign::Equals) {
            return Some((place, Operator::Equal));
        }
        let place = self.take_sign(Sign::Differs)?;
        Some((place, Operator::Differ))
    }
}
