// Hosts: what supplies a run's readings and takes its verdicts.
#![tactic(auto)]

pub mod copying;
pub mod exchange;
pub mod fault;
mod host;

pub use host::Host;
