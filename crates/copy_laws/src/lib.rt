//! What a copy of a scale is, and what its writer relies on: for every form of scale.
#![tactic(auto)]

mod copies;

pub use copies::tell_copy;
