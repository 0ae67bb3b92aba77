//! Minishard indexes: the rows that say where a shard's chunks stand (precomputed volume format,
//! sharded format, minishard index format). An index of n rows has 24·n bytes: n ids, then n
//! starts, then n sizes, each a 64-bit number with the lowest byte first.
#![tactic(auto)]

mod columns;
mod index;
mod walk;

pub use columns::write_rows;
pub use index::{find, read_number};
pub use vol_spec::Row;
pub use walk::Walk;
