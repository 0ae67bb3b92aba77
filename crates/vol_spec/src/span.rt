//! Where a chunk stands in a shard.

/// Where the bytes of a chunk stand in its shard's object: the place of the first one, counted from
/// the object's begin, and their number.
#[derive(Clone, Copy, Debug, PartialEq, Eq)]
pub struct ChunkSpan {
    pub start: u64,
    pub len: u64,
}
