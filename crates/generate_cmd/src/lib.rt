//! The command `generate`: a list of writes that a number makes is put into a scale whose folder is empty, and the
//! values of the scale are summed.
#![tactic(auto)]

mod generate;
mod lines;
mod refusal;
mod report;

pub use generate::{Summary, run_generate};
pub use refusal::GenerateRefusal;
