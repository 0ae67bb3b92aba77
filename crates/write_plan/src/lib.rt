//! The stream of box writes and what it asks to be stored.
#![tactic(auto)]

mod bytes;
mod chunks;
mod fault;
mod fills;
mod jobs;
mod pairs;
mod plan;
mod stream;
mod writes;

pub use chunks::{Chunks, PrepareFault};
pub use fault::PlanFault;
pub use jobs::{Job, JobList, window};
pub use plan::{Plan, PlanRefusal};
pub use stream::read_writes;
pub use writes::Writes;
