// How a probe host is made.
ghost use Rattle.std.specs.Prelude.{◌≡◌};
ghost use Rattle.probe_host.specs.Cells.{Made, fault_of};

use super::ProbeHost;
use hosts::fault::Fault;
use refusals::Refusal;

/// The most numbers that are read, and the most values that are written.
const MOST: usize = 4_096;

impl<'i, 'o> ProbeHost<'i, 'o> {
    /// A host that reads `input`, and writes up to `room` values into `output`, each as one number. Refused, at place 0: an input of
    /// more than 4,096 numbers; then room for more than 4,096 values, or less memory than that room.
    pub fn over(
        input: &'i [u32],
        output: &'o mut [u32],
        room: usize,
    ) -> Result<ProbeHost<'i, 'o>, Refusal<Fault>>
        ensures { Made input.now output.old room result }
    {
        if let Some(fault) = fault(input.len(), output.len(), room) {
            return Err(Refusal { fault, place: 0 });
        }
        Ok(ProbeHost {
            input,
            output,
            count: 0,
            room,
        })
    }
}

fn fault(numbers: usize, cells: usize, room: usize) -> Option<Fault>
    ensures { result ≡ fault_of numbers cells room }
{
    if numbers > MOST {
        Some(Fault::InputTooLong)
    } else if room > MOST || cells < room {
        Some(Fault::MemoryShort)
    } else {
        None
    }
}
