//! The frame of a job.

/// A chunk that is kept as it is stored: the cell that it is of, and how many bytes in front of a frame it has.
#[derive(Clone, Copy, Debug, PartialEq, Eq)]
pub struct OwnChunk {
    pub cell: [u64; 3],
    pub len: usize,
}

/// The bytes of a job in front of others: its values, or its chunk as it is stored.
#[derive(Drop)]
pub struct JobFrame {
    pub bytes: Vec<u8>,
    pub own: Option<OwnChunk>,
}
