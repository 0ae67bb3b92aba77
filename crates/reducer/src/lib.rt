//! The chunks of the next, coarser scale, reduced from the source.
#![tactic(auto)]

mod ahead;
mod reading;
mod reducer;
mod sources;

pub use reducer::Reducer;
