//! Frames: pieces of memory of a fixed length, reserved once, then lent and given back. After that
//! nothing takes memory.
#![tactic(auto)]

mod frame;
mod pool;

pub use frame::Frame;
pub use pool::Pool;
