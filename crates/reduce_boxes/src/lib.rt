//! The values of a box, reduced to half the resolution.
#![tactic(auto)]

mod blocks;
mod boxes;
mod methods;
mod rows;
mod volumes;
mod widths;

pub use boxes::reduce_box;
