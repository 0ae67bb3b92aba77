//! Gates for tests, which hold a worker until another one has done something.
#![tactic(auto)]

mod holding;
mod meeting;

pub use holding::HoldingGate;
pub use meeting::Meeting;
