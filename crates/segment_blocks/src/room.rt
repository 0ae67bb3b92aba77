//! The lists that writing a chunk needs.

/// The values of a block with its padding, and its table; an index of the written tables, with one place for each hash
/// and one for each block (neither is used for blocks of one voxel); of each block where its table is, in bytes, how many
/// entries that has, and the two words of the header.
#[derive(Drop)]
pub(crate) struct Room {
    pub voxels: Vec<u64>,
    pub table: Vec<u64>,
    pub heads: Vec<u32>,
    pub next: Vec<u32>,
    pub at: Vec<u32>,
    pub lens: Vec<u32>,
    pub headers: Vec<u32>,
}
