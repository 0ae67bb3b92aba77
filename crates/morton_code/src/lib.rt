//! Compressed Morton codes, which are the ids of chunks in shards.
#![tactic(auto)]

mod codes;

pub use codes::{cell, code};
