//! The command `write`: a list of writes, read from a stream, is put into a scale whose folder is empty.
#![tactic(auto)]

mod lines;
mod refusal;
mod report;
mod write;

pub use lines::write_stream_line;
pub use refusal::WriteRefusal;
pub use write::{judge_limit, run_write, write_list};
