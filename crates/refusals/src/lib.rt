// Refusals: a fault that has a number, with its place; and why a phase of judging gave nothing.
#![tactic(auto)]

pub mod failure;
mod numbered;
mod refusal;

pub use failure::Failure;
pub use numbered::Numbered;
pub use refusal::Refusal;
