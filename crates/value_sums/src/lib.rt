//! Sums of values of 1 to 8 bytes each, modulo 2^64, and an outlet that keeps nothing else of what is written.
#![tactic(auto)]

mod outlet;
mod sums;

pub use outlet::SumOutlet;
