// How a text host is made, and the text that it has written.
ghost use Rattle.std.specs.Prelude.{◌≡◌};
ghost use Rattle.text_host.specs.Held.{Opens, said, written};
ghost use Rattle.text_host.specs.Law.{Lawful};
ghost use Rattle.text_host.specs.Lines.{encoded};

use super::TextHost;
use crate::item::next_item;
use hosts::fault::Fault;
use refusals::Refusal;

const MOST_BYTES: usize = 16_384;

const MOST_VALUES: usize = 4096;

const LINE_BYTES: usize = 11;

impl<'i, 'o> TextHost<'i, 'o> {
    /// A host that reads the items of `input`, and has room for so many values in `output`.
    #[tactic(auto, using(crate::proofs::Lawful::reads))]
    pub fn over(
        input: &'i [u8],
        output: &'o mut [u8],
        room: usize,
    ) -> Result<TextHost<'i, 'o>, Refusal<Fault>>
        ensures defined { Opens input.now output.old room result }
        ensures lawful { Lawful input.now result }
    {
        if input.len() > MOST_BYTES {
            return Err(Refusal {
                fault: Fault::InputTooLong,
                place: 0,
            });
        }
        if room > MOST_VALUES || output.len() < LINE_BYTES * room {
            return Err(Refusal {
                fault: Fault::MemoryShort,
                place: 0,
            });
        }
        let (first, rest) = next_item(input);
        Ok(TextHost {
            first,
            rest,
            output,
            written: 0,
            room,
        })
    }

    /// The text written so far: each value as a line.
    pub fn written(&self) -> &[u8]
        ensures text { result.now ≡ written self.now }
        ensures lines { result.now ≡ encoded (said self.now) }
    {
        &self.output[..self.written]
    }
}
