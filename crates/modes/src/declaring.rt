// Declared names: none twice, and not too many.
ghost use Rattle.std.specs.Prelude.{map};
ghost use Rattle.modes.specs.Answer.{Tells};
ghost use Rattle.modes.specs.Declaring.{declaring, wrong_at};
ghost use Rattle.outline.specs.Names.{declared_of};

use crate::fault::Fault;
use outline::declared::Declared;
use refusals::Refusal;

const MOST_NAMES: usize = 64;

/// Whether the declared names are well, or the first fault.
pub fn check_declared(declared: &[Declared<'_>]) -> Result<(), Refusal<Fault>>
    ensures { Tells (declaring (map declared_of declared.now)) result }
{
    for (at, name) in declared.iter().enumerate() {
        check_name(&declared[..at], *name)?;
    }
    Ok(())
}

/// Whether a name is well after those before it.
fn check_name(before: &[Declared<'_>], name: Declared<'_>) -> Result<(), Refusal<Fault>>
    ensures { Tells (wrong_at (map declared_of before.now) (declared_of name.entry)) result }
{
    if before.iter().any(|one| one.name == name.name) {
        return Err(Refusal {
            fault: Fault::DeclaredBefore,
            place: name.place,
        });
    }
    if before.len() >= MOST_NAMES {
        return Err(Refusal {
            fault: Fault::TooManyNames,
            place: name.place,
        });
    }
    Ok(())
}
