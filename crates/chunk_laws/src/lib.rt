//! What objects say of a scale's cells and voxels, once chunks are stored: for every form of scale.
#![tactic(auto)]

mod stored;

pub use stored::tell_chunks;
