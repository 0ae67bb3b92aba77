//! An entry in front of a shard.

/// Where the index of a minishard starts and ends (sharded format, shard index format), in bytes
/// from the end of the shard's entries.
#[derive(Clone, Copy, Debug, PartialEq, Eq)]
pub struct Entry {
    pub start: u64,
    pub end: u64,
}
