//! A minishard's index, by its numbers.

/// The index of a minishard, by the number of its shard and its own.
#[derive(Clone, Copy, Debug, Drop, PartialEq, Eq, Hash)]
pub(crate) struct IndexKey {
    pub(crate) shard: u64,
    pub(crate) minishard: u64,
}
