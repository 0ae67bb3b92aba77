//! The standard streams as a feed and outlets, over any pipe whose calls do what those of the system do.
#![tactic(auto)]

mod ahead;
mod counts;
mod feed;
mod host;
mod memory;
mod outlet;
mod pieces;
mod pipe;

pub use feed::PipeFeed;
pub use host::HostPipe;
pub use memory::MemoryPipe;
pub use outlet::PipeOutlet;
pub use pipe::{PipeIn, PipeOut};
