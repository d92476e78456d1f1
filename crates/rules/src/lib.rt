// Number rules: how a sheet's numbers are added and multiplied, and how large they may be.
#![tactic(auto)]

pub mod cause;
mod delivered;
mod exact;
mod rule;

pub use delivered::{Capped, NarrowStrict, Turning, WideStrict};
pub use exact::{ExactRule, exact_product, exact_total};
pub use rule::NumberRule;
