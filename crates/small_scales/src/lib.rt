//! Names and raw scales for tests, made from their parts.
#![tactic(auto)]

mod names;
mod scales;
mod sizes;

pub use names::short_name;
pub use scales::raw_scale;
