// What the probe host does as a host.
ghost use Rattle.std.specs.Prelude.{◌≡◌, length};
ghost use Rattle.hosts.specs.Meaning.{behind, first, put_answer, put_room, put_said};
ghost use Rattle.probe_host.specs.Readings.{readable_items};
ghost use Rattle.probe_host.specs.Cells.{items_left, memory, numbers_written, put_memory, put_numbers, room_of, values_said};

use super::ProbeHost;
use crate::codes::{code, item};
use hosts::Host;
use hosts::exchange::{Cause, Item, Value};

impl Host for ProbeHost<'_, '_> {
    ghost left = { items_left };

    ghost said = { values_said };

    ghost room = { room_of };

    fn front(&self) -> Option<Item> {
        self.input.first().map(|number| item(*number))
    }

    fn take(&mut self)
        ensures rest { items_left self.new ≡ behind (items_left self.old) }
        ensures same_numbers { numbers_written self.new ≡ numbers_written self.old }
        ensures same_said { values_said self.new ≡ values_said self.old }
        ensures same_room { room_of self.new ≡ room_of self.old }
        ensures same_memory { memory self.new ≡ memory self.old }
    {
        if let Some((_, rest)) = self.input.split_first() {
            self.input = rest;
        }
    }

    fn put(&mut self, value: Value) -> Result<(), Cause>
        ensures answer { result ≡ put_answer (room_of self.old) value }
        ensures same_left { items_left self.new ≡ items_left self.old }
        ensures more_numbers { numbers_written self.new ≡ put_numbers result value (numbers_written self.old) }
        ensures more_said { values_said self.new ≡ put_said result value (values_said self.old) }
        ensures less_room { room_of self.new ≡ put_room result (room_of self.old) }
        ensures one_cell { memory self.new ≡ put_memory result value (length (numbers_written self.old)) (memory self.old) }
    {
        if self.room == 0 {
            return Err(Cause::Full);
        }
        self.output[self.count] = code(value)?;
        self.room -= 1;
        self.count += 1;
        Ok(())
    }

    ghost readable = { λ h. readable_items h.input.now };
}
