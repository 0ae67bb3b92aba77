//! The driver of all that write a scale: jobs are written, and what stands is said once.
#![tactic(auto)]

mod told;

pub use told::write_told;
