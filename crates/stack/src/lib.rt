// A bounded stack over memory that the caller lends, for every type that can be copied.
// Its type stands here, apart from the methods, since their contracts cite definitions that name the type.
#![tactic(auto, using(crate::proofs::Counts::count_is, crate::proofs::Tops::top_read, crate::proofs::Tops::top_apart, crate::proofs::Tops::none_held, std::proofs::lemmas::List::take_more_set), unfolding(crate::specs::Held::held, crate::specs::Held::room))]

ghost use Rattle.std.specs.Prelude.{◌≤◌, length};

mod full;
mod methods;
mod sizes;

pub use full::Full;

/// The first `height` cells are the items, the oldest first. What the other cells hold decides nothing,
/// and what the lent memory holds once the stack is gone is free.
// A height beside the cells, and no `Vec`: the caller lends the memory, and a stack asks the heap for none.
#[derive(Drop)]
pub struct Stack<'a, T> {
    cells: &'a mut [T],
    height: usize,
    ghost fits: { height ≤ length cells.now },
}
