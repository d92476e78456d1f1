// A host over text: its items are read from one text, and each value is written as a line of another, in memory that the caller lends.
// Its type stands here, apart from the methods, since their contracts cite definitions that name the type.
#![tactic(auto)]

ghost use Rattle.std.specs.Prelude.{◌≡◌, ◌+◌, ◌*◌, ◌≤◌, ℕ, Some, Ok, length, take};
ghost use Rattle.hosts.specs.Meaning.{most_read};
ghost use Rattle.hosts.specs.declared.exchange.Value.TheVariants.{Number};
ghost use Rattle.text_host.specs.Lines.{decoded, encoded, line_bytes};

mod hosting;
mod item;
mod line;
mod opening;

use hosts::exchange::Item;

/// A host that reads the runs of bytes between blanks, which are the space and the line feed: `true`, `false`, and numbers of up
/// to ten decimal digits. It writes a value as one of these, and a line feed.
// The first item that is left is understood already, and the others are in `rest`. The first `written` bytes of `output` are
// lines; what its other bytes hold decides nothing.
#[derive(Drop)]
pub struct TextHost<'i, 'o> {
    first: Option<Item>,
    rest: &'i [u8],
    output: &'o mut [u8],
    written: usize,
    room: usize,
    ghost readable: { (n : ℕ) → first ≡ Some (Ok (Number n)) → n ≤ most_read },
    ghost space: { written + line_bytes * room ≤ length output.now },
    ghost lines: { encoded (decoded (take written output.now)) ≡ take written output.now },
}
