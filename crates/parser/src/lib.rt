// From tokens to the flat form of a sheet, or to the first refusal.
#![tactic(auto)]

mod declaration;
mod expression;
pub mod fault;
mod look;
mod opening;
mod parser;
mod parts;
mod program;
mod statement;
pub mod train;

pub use program::parse_tokens;
