//! The reduction of a scale into the next, coarser one, and the command `downsample` over it.
#![tactic(auto)]

mod command;
mod downsampling;
mod judge;

pub use command::run_downsample;
pub use downsampling::downsample;
