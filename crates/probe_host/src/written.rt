// What a probe host has written.
ghost use Rattle.std.specs.Prelude.{◌≡◌, map};
ghost use Rattle.probe_host.specs.Codes.{code_of};
ghost use Rattle.probe_host.specs.Cells.{numbers_written, values_said};

use super::ProbeHost;

impl ProbeHost<'_, '_> {
    /// The numbers written so far, the oldest first.
    #[tactic(auto, using(crate::proofs::Decoding::coded_all))]
    pub fn written(&self) -> &[u32]
        ensures numbers { result.now ≡ numbers_written self.now }
        ensures said { result.now ≡ map code_of (values_said self.now) }
    {
        let output: &[u32] = self.output;
        &output[..self.count]
    }
}
