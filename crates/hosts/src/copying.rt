// Code over any host: readings are copied to the output.
ghost use Rattle.std.specs.Prelude.{◌≡◌};
ghost use Rattle.hosts.specs.Copying.{Copies, copy_after, copy_answer, copying as copying_up_to};
ghost use Rattle.hosts.specs.Meaning.{holding};

use crate::exchange::Cause;
use crate::host::Host;

/// How many readings were copied, and why no more were; without a cause, all that were asked for.
#[derive(Clone, Copy, PartialEq, Eq, Debug)]
pub struct Copied {
    pub count: usize,
    pub stop: Option<Cause>,
}

/// Reads up to `most` items and writes each as it was read. What is answered and what the host then holds depend on nothing
/// but `most` and what it held.
#[tactic(auto, using(crate::proofs::Copies::copied_all, crate::proofs::Copies::copied_none, crate::proofs::Copies::copied_one, crate::proofs::Copies::lawful))]
pub fn copy_readings<H: Host>(host: &mut H, most: usize) -> Copied
    ensures defined { (result, holding H.left H.said H.room host.new) ≡ copying_up_to most (holding H.left H.said H.room host.old) }
    ensures lawful { Copies most (holding H.left H.said H.room host.old) result (holding H.left H.said H.room host.new) }
{
    for count in 0..most {
        if let Err(cause) = copy_one(host) {
            return Copied {
                count,
                stop: Some(cause),
            };
        }
    }
    Copied {
        count: most,
        stop: None,
    }
}

fn copy_one<H: Host>(host: &mut H) -> Result<(), Cause>
    ensures answer { result ≡ copy_answer (holding H.left H.said H.room host.old) }
    ensures after { holding H.left H.said H.room host.new ≡ copy_after result (holding H.left H.said H.room host.old) }
{
    let value = host.front().ok_or(Cause::Empty)??;
    host.put(value)?;
    host.take();
    Ok(())
}
