//! A row of a minishard index.

/// A chunk of a minishard (sharded format, minishard index format): its id, where it starts, counted
/// in bytes from the end of the shard's entries, and its length in bytes.
#[derive(Clone, Copy, Debug, PartialEq, Eq)]
pub struct Row {
    pub id: u64,
    pub start: u64,
    pub size: u64,
}
