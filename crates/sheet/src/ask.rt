// What a sheet can be asked.
ghost use Rattle.std.specs.List.{count_by};
ghost use Rattle.std.specs.Prelude.{◌≡◌};
ghost use Rattle.grammar.specs.Tree.{Train};
ghost use Rattle.outline.specs.Code.{flats, op_of};
ghost use Rattle.sheet.specs.Sizes.{code_in, declared_in, size, stands_for_one};

use crate::Sheet;
use outline::code::Instruction;
use outline::declared::Declared;
use tokens::token::Token;

impl<'a> Sheet<'a> {
    /// The declared names in the order of the text, each with its place and its mode.
    pub fn declared(&self) -> &[Declared<'a>]
        ensures { result.now ≡ declared_in self.now }
    {
        self.outline.declared.as_slice()
    }

    /// The tokens of the source.
    pub fn tokens(&self) -> &[Token<'a>]
        ensures { result.now ≡ self.now.tokens.items }
    {
        self.tokens.as_slice()
    }

    /// How many statements there are, those inside the parts of others included.
    pub fn statements(&self) -> usize
        ensures { (body : Train) → code_in self.now ≡ flats body → result ≡ size body }
    {
        count_statements(self.outline.code.as_slice())
    }
}

fn count_statements(code: &[Instruction<'_>]) -> usize
    ensures { result ≡ count_by (λ step. stands_for_one (op_of step)) code.now }
{
    code.iter().filter(|step| stands_for_one(step)).count()
}

/// Whether this is the step that each statement has once.
fn stands_for_one(step: &Instruction<'_>) -> bool
    ensures { result ≡ stands_for_one (op_of step.now) }
{
    matches!(
        step,
        Instruction::Store
            | Instruction::Test(_)
            | Instruction::Head(_)
            | Instruction::Read(_, _, _)
            | Instruction::Write(_)
    )
}
