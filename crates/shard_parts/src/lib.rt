//! The parts of a shard that is being written (precomputed volume format, sharded format): its
//! entries, the index of each minishard, its end. All is appended in pieces of a buffer, so that a
//! shard takes no memory of its own.
#![tactic(auto)]

mod index;
mod shard;

pub use shard::{begin_if, end_if, finish_if};
