//! Where the index of a minishard stands.
use crate::span::IndexSpan;

/// The length of a shard's object, and the place of a minishard's index in it.
#[derive(Clone, Copy, Debug, PartialEq, Eq)]
pub struct OpenedIndex {
    pub len: u64,
    pub index: IndexSpan,
}
