// A step of the static-chain engine.
#![tactic(auto)]

pub use stepped::step;

mod acted;
mod stepped;
mod summed;
mod tabled;
pub mod turn;
