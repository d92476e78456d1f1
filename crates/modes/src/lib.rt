// Whether the modes of a sheet stand: its declared names, and its statements in flat form.
#![tactic(auto)]

ghost use Rattle.modes.specs.Law.{Modal};

mod declaring;
pub mod fault;
mod judging;

pub use declaring::check_declared;
pub use judging::check_statements;

/// The rules of modes, the judgement of a tree and that of its flat form agree.
pub fn modes_stand() -> bool
    ensures { Modal }
{
    true
}
