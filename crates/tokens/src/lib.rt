// From the bytes of a check sheet to its tokens, or to the first refusal.
#![tactic(auto)]

pub mod class;
pub mod fault;
mod kind;
mod read;
pub mod reader;
pub mod sign;
pub mod token;
mod told;
pub mod word;

pub use read::read_tokens;
