//! Where a chunk stands: its shard, the name of that shard's object, its minishard, and the entry of
//! the minishard in front of the shard (precomputed volume format, sharded format).
#![tactic(auto)]

mod entries;
mod names;
mod places;

pub use entries::{base_len, judge_entry, read_entry, write_entry};
pub use names::shard_name;
pub use places::place;
pub use vol_spec::{Entry, ShardPlace};
