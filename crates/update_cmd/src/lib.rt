//! Writes over what a scale holds, and the command `update`.
#![tactic(auto)]

mod command;
mod fault;
mod lines;
mod putting;
mod refusal;
mod report;
mod updating;

pub use command::run_update;
pub use fault::UpdateFault;
pub use refusal::UpdateRefusal;
pub use updating::update;
