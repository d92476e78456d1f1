// A text host is a host.
ghost use Rattle.std.specs.Prelude.{◌≡◌, ◌++◌};
ghost use Rattle.hosts.specs.Meaning.{behind, judged, put_answer, put_room, put_said};
ghost use Rattle.text_host.specs.Held.{added, left, memory, overlaid, room, said, written};
ghost use Rattle.text_host.specs.Readable.{readable};

use super::TextHost;
use crate::item::next_item;
use crate::line::write_line;
use hosts::Host;
use hosts::exchange::{Cause, Item, Value};

const MOST_WRITTEN: u32 = 2_147_483_647;

impl<'i, 'o> Host for TextHost<'i, 'o> {
    ghost left = { left };

    ghost said = { said };

    ghost room = { room };

    ghost readable = { readable };

    fn front(&self) -> Option<Item> {
        self.first
    }

    /// The memory is as it was.
    fn take(&mut self)
        ensures rest { left self.new ≡ behind (left self.old) }
        ensures same_said { said self.new ≡ said self.old }
        ensures same_room { room self.new ≡ room self.old }
        ensures same_memory { memory self.new ≡ memory self.old }
        ensures same_text { written self.new ≡ written self.old }
    {
        if self.first.is_some() {
            (self.first, self.rest) = next_item(self.rest);
        }
    }

    /// The line is added to the text, and the memory behind it is as it was.
    #[tactic(auto, using(crate::proofs::Memory::overlaid_by))]
    fn put(&mut self, value: Value) -> Result<(), Cause>
        ensures answer { result ≡ put_answer (room self.old) value }
        ensures same_left { left self.new ≡ left self.old }
        ensures more_said { said self.new ≡ put_said result value (said self.old) }
        ensures less_room { room self.new ≡ put_room result (room self.old) }
        ensures more_text { written self.new ≡ written self.old ++ added result value }
        ensures same_behind { memory self.new ≡ overlaid (written self.new) (memory self.old) }
    {
        if self.room == 0 {
            return Err(Cause::Full);
        }
        judge(value)?;
        self.written = write_line(value, self.output, self.written);
        self.room -= 1;
        Ok(())
    }
}

/// The answer to a value where there is room.
fn judge(value: Value) -> Result<(), Cause>
    ensures { result ≡ judged value }
{
    match value {
        Value::Number(number) if number > MOST_WRITTEN => Err(Cause::Large),
        _ => Ok(()),
    }
}
