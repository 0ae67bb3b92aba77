//! The hashes of shifted chunk ids.
#![tactic(auto)]

mod lanes;

pub use lanes::{hash8, identity};
