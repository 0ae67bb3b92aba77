//! A peer in memory, as a dial that tells its objects: what a store over HTTP is tried against.
#![tactic(auto)]

mod entry;
mod peer;
mod serving;
mod shelf;

pub use entry::{Address, Entry};
pub use peer::PeerDial;
