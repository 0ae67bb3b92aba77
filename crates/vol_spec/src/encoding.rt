//! How the bytes of a chunk are spelled.

/// A chunk's encoding: the values themselves, or blocks with tables (`compressed_segmentation`),
/// whose block sizes are counted in voxels, x first.
#[derive(Clone, Copy, Debug, PartialEq, Eq)]
pub enum Encoding {
    Raw,
    Seg { block: [u64; 3] },
}
