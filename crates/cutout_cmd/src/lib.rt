//! The command `cutout`.
#![tactic(auto)]

mod cut_out;
mod refusal;
mod report;

pub use cut_out::{judge_part, run_cutout, stream_part};
pub use refusal::CutoutRefusal;
