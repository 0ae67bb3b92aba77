//! The command `serve`.
#![tactic(auto)]

mod lines;
mod refusal;
mod serving;

pub use refusal::ServeRefusal;
pub use serving::run_serve;
