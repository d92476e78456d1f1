// The judge, and the sheets that it passes.
#![tactic(auto)]

ghost use Rattle.outline.specs.Code.{ops};
ghost use Rattle.outline.specs.Names.{names};
ghost use Rattle.sheet.specs.Correct.{Correct};
ghost use Rattle.tokens.specs.Tokens.{placed};

mod ask;
pub mod fault;
mod judge;

pub use judge::judge_source;
use outline::Outline;
use tokens::token::Token;

/// A passed sheet: its tokens and its outline. There is no other way to make one than `judge_source`, and none to alter one,
/// so it is correct for as long as it exists. Names borrow their letters from the source.
#[derive(Drop)]
pub struct Sheet<'a> {
    tokens: Vec<Token<'a>>,
    outline: Outline<'a>,
    ghost correct: { ∥ Correct (placed tokens) (names outline.declared) (ops outline.code) ∥₁ },
}
