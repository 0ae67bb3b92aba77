//! Boxes of voxels and places of chunks, read from the objects of a scale.
#![tactic(auto)]

mod boxed;
mod cells;
mod channels;
mod chunk;
mod cutting;
mod fault;
mod found;
mod keeping;
mod layers;
mod reader;
mod speller;
mod stream;
mod taking;
mod values;

pub use cells::CellReader;
pub use fault::{CutFault, StreamFault};
pub use found::Found;
pub use keeping::KeepingReader;
pub use layers::tell_below;
pub use reader::Reader;
