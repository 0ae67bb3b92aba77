//! Segmentation chunks: blocks of packed indices into tables of values (precomputed volume format,
//! compressed_segmentation encoding).
#![tactic(auto)]

mod append;
mod block;
mod hashes;
mod header;
mod known;
mod locate;
mod one;
mod own;
mod pack;
mod reading;
mod room;
mod row;
mod scratch;
mod single;
mod table;
mod voxels;
mod word;
mod writing;

pub use own::{is_own_spelling, own_again};
pub use reading::decode;
pub use scratch::Scratch;
pub use vol_spec::SegShape;
pub use writing::encode;
