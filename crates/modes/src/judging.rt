// The modes of statements, in one pass over their flat form.
ghost use Rattle.std.specs.Prelude.{◌≡◌, [], ◌∷◌, map};
ghost use Rattle.modes.specs.Answer.{Answers};
ghost use Rattle.modes.specs.Declaring.{lookup};
ghost use Rattle.modes.specs.Flatly.{applying, flatly, gone, known, onto, step, storing, testing, worked_out};
ghost use Rattle.modes.specs.Judging.{named, result_of};
ghost use Rattle.modes.specs.Progress.{Finds, Steps, Takes, TakesTwo, entries, entry_of, primitive_in};
ghost use Rattle.outline.specs.Code.{op_of, operator_of};
ghost use Rattle.outline.specs.Names.{declared_of, primitive_of};

use crate::fault::Fault;
use outline::code::{Instruction, Operator};
use outline::declared::{Declared, Primitive};
use refusals::{Failure, Refusal};
use std::alloc::Global;

/// Whether the modes of some code stand under the declared names, or the first fault.
pub fn check_statements(
    heap: Global,
    declared: &[Declared<'_>],
    code: &[Instruction<'_>],
) -> Result<(), Failure<Fault>>
    ensures { Answers (flatly (map declared_of declared.now) [] (map op_of code.now)) result }
{
    let mut stack = Stack {
        values: Vec::new(heap),
    };
    for instruction in code {
        stack.advance(declared, *instruction)?;
    }
    Ok(())
}

/// A value or a target on the stack: the place of its step, how many references it has, and its primitive mode.
#[derive(Clone, Copy)]
struct Value {
    place: usize,
    // one more than the `ref` of a declared name, so wider than those
    refs: u128,
    primitive: Primitive,
}

impl Value {
    /// A value with no reference.
    fn plain(place: usize, primitive: Primitive) -> Value
        ensures { result ≡ record { place = place; refs = 0; primitive = primitive } }
    {
        Value {
            place,
            refs: 0,
            primitive,
        }
    }
}

/// The values and targets that the code has left so far.
#[derive(Drop)]
struct Stack {
    values: Vec<Value>,
}

// A stack with too few values for a step is no fault of the sheet: the flat form of a tree leads to none.
impl Stack {
    /// Takes one step of the code, under the declared names.
    fn advance(
        &mut self,
        declared: &[Declared<'_>],
        instruction: Instruction<'_>,
    ) -> Result<(), Failure<Fault>>
        ensures { Steps (step (map declared_of declared.now) (entries self.old) (op_of instruction.entry)) result (entries self.new) }
    {
        match instruction {
            Instruction::Load(place, name) => self.load(declared, place, name),
            Instruction::Number(place, _) => self.push(Value::plain(place, Primitive::Int)),
            Instruction::Truth(place, _) => self.push(Value::plain(place, Primitive::Bool)),
            Instruction::Apply(place, operator) => self.apply(place, operator),
            Instruction::Target(place, name) | Instruction::Refer(place, name) => {
                self.refer(declared, place, name)
            }
            Instruction::Store => self.store(),
            Instruction::Test(place) | Instruction::Enter(place) => self.test(place),
            Instruction::Read(_, place, name) => self.read(declared, place, name),
            Instruction::Write(_) => {
                self.pop();
                Ok(())
            }
            Instruction::Otherwise
            | Instruction::Join
            | Instruction::Head(_)
            | Instruction::Repeat => Ok(()),
        }
    }

    /// The value of a name.
    // `load`, `refer` and `read` are functions of their own: the memory for what `find` answers is cleared where a function
    // begins, so only a step that looks up a name pays for it.
    fn load(
        &mut self,
        declared: &[Declared<'_>],
        place: usize,
        name: &str,
    ) -> Result<(), Failure<Fault>>
        ensures { Steps (worked_out (entries self.old) place (named place (lookup (map declared_of declared.now) name.now))) result (entries self.new) }
    {
        self.push(Value::plain(place, find(declared, place, name)?.primitive))
    }

    /// A name as it stands, with its references.
    fn refer(
        &mut self,
        declared: &[Declared<'_>],
        place: usize,
        name: &str,
    ) -> Result<(), Failure<Fault>>
        ensures { Steps (onto (entries self.old) place (named place (lookup (map declared_of declared.now) name.now))) result (entries self.new) }
    {
        self.push(find(declared, place, name)?)
    }

    /// The name of an input, which leaves the stack as it is.
    fn read(
        &mut self,
        declared: &[Declared<'_>],
        place: usize,
        name: &str,
    ) -> Result<(), Failure<Fault>>
        ensures { Steps (known (entries self.old) (named place (lookup (map declared_of declared.now) name.now))) result (entries self.new) }
    {
        find(declared, place, name)?;
        Ok(())
    }

    /// One value more on the stack.
    fn push(&mut self, top: Value) -> Result<(), Failure<Fault>>
        ensures { Steps (gone (entry_of top ∷ entries self.old)) result (entries self.new) }
    {
        self.values.push(top)?;
        Ok(())
    }

    /// The value on top of the stack.
    fn pop(&mut self) -> Option<Value>
        ensures { Takes (entries self.old) result (entries self.new) }
    {
        self.values.pop()
    }

    /// The two values on top of the stack, the upper one last.
    fn operands(&mut self) -> Option<(Value, Value)>
        ensures { TakesTwo (entries self.old) result (entries self.new) }
    {
        let right = self.pop()?;
        let left = self.pop()?;
        Some((left, right))
    }

    /// An operator on the two values on top of the stack.
    fn apply(&mut self, place: usize, operator: Operator) -> Result<(), Failure<Fault>>
        ensures { Steps (applying place (operator_of operator) (entries self.old)) result (entries self.new) }
    {
        let Some((left, right)) = self.operands() else {
            return Ok(());
        };
        let Some(primitive) = result_mode(operator, left.primitive, right.primitive) else {
            return Err(Failure::refused(Fault::Unsuited, place));
        };
        self.push(Value::plain(place, primitive))
    }

    /// The end of an assignment.
    fn store(&mut self) -> Result<(), Failure<Fault>>
        ensures { Steps (storing (entries self.old)) result (entries self.new) }
    {
        let Some((target, value)) = self.operands() else {
            return Ok(());
        };
        if target.primitive != value.primitive {
            return Err(Failure::refused(Fault::OtherPrimitive, target.place));
        }
        // one of the target's references is the name itself
        if target.refs.saturating_sub(1) <= value.refs {
            Ok(())
        } else {
            Err(Failure::refused(Fault::TooFewReferences, target.place))
        }
    }

    /// The condition of an `if` or a `while`.
    fn test(&mut self, place: usize) -> Result<(), Failure<Fault>>
        ensures { Steps (testing place (entries self.old)) result (entries self.new) }
    {
        if let Some(value) = self.pop()
            && value.primitive != Primitive::Bool
        {
            return Err(Failure::refused(Fault::Unsuited, place));
        }
        Ok(())
    }
}

/// A name as it stands, with its references.
fn find(declared: &[Declared<'_>], place: usize, name: &str) -> Result<Value, Refusal<Fault>>
    ensures { Finds (named place (lookup (map declared_of declared.now) name.now)) place result }
{
    let Some(one) = declared.iter().find(|one| one.name == name) else {
        return Err(Refusal {
            fault: Fault::NotDeclared,
            place,
        });
    };
    Ok(Value {
        place,
        refs: one.refs as u128 + 1,
        primitive: one.primitive,
    })
}

/// The primitive mode of an operator's result, where the operands suit it.
fn result_mode(operator: Operator, left: Primitive, right: Primitive) -> Option<Primitive>
    ensures { primitive_in result ≡ result_of (operator_of operator) (primitive_of left) (primitive_of right) }
{
    match operator {
        Operator::Plus | Operator::Times => (left == right).then_some(left),
        Operator::Equal | Operator::Differ => {
            (left == Primitive::Int && right == Primitive::Int).then_some(Primitive::Bool)
        }
    }
}
