//! The cells of shards that are kept where these are written anew, and all cells that an update stores.
#![tactic(auto)]

mod cells;
mod fault;
mod gathering;
mod met;
mod one_index;
mod shard;
mod sharded_plan;
mod touched;

pub use cells::gather_cells;
pub use fault::{KeepRefusal, ShardRefusal};
