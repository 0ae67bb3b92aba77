//! Boxes of voxels, names of objects, faults, and the outside as traits, with stand-ins in memory.
#![tactic(auto)]

mod boxes;
mod calls;
mod door;
mod faults;
mod feed;
mod grid;
mod link;
mod memory;
mod name;
mod object;
mod outlet;
mod outside;
mod whole;

pub use boxes::{Box3, BoxFault};
pub use door::MemoryDoor;
pub use faults::{ChunkFault, Fault, IndexFault, ShardFault};
pub use feed::MemoryFeed;
pub use grid::Grid;
pub use link::MemoryLink;
pub use memory::MemoryStore;
pub use name::Name;
pub use outlet::MemoryOutlet;
pub use outside::{
    Door, Failed, Feed, FreeGate, Gate, Got, Link, Moment, OutOfMemory, Outlet, Source, Store,
    StoreRefusal,
};
pub use whole::{tell_bytes, write_all};
