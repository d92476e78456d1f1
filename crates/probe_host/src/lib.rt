// The probe host: readings are numbers in lent memory, and verdicts go as numbers into lent memory. Nothing is allocated.
// Its type stands here, apart from the methods, since their contracts cite definitions that name the type.
#![tactic(auto)]

ghost use Rattle.std.specs.Prelude.{◌+◌, ◌≤◌, length};

mod codes;
mod host;
mod making;
mod written;

/// A host over lent numbers of 32 bits. In `input`, the numbers still to be read, 4,294,967,295 cannot be read, and every other
/// number is itself. The first `count` cells of `output` are what was written, the oldest first: 0 for false, 1 for true and
/// n + 2 for the number n. The other cells are as they were lent.
#[derive(Drop)]
pub struct ProbeHost<'i, 'o> {
    input: &'i [u32],
    output: &'o mut [u32],
    count: usize,
    room: usize,
    ghost short_input: { length input.now ≤ 4096 },
    ghost little_room: { room ≤ 4096 },
    ghost memory_for_room: { count + room ≤ length output.now },
}
