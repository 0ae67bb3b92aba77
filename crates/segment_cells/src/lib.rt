//! Segmentation chunks of a scale's cells: their shapes and lengths, and their values out of their bytes and back
//! (precomputed volume format, compressed_segmentation encoding).
#![tactic(auto)]

mod chunks;
mod shapes;

pub use chunks::{decode_cell, encode_cell, reserve_scratch, test_own};
pub use shapes::{chunk_limit, shape_of, values_len};
