//! Whether the stored chunks of a part of a scale are sound, with the indexes on the way to them; and the command `verify`,
//! which tells that of a part of a stored scale.
#![tactic(auto)]

mod cell;
mod command;
mod fault;
mod lines;
mod parts;
mod refusal;
mod report;
mod telling;

pub use command::run_verify;
pub use fault::VerifyFault;
pub use parts::{tell_sound, verify};
pub use refusal::VerifyRefusal;
pub use report::Report;
