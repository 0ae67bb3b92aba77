//! Whole minishard indexes, judged row by row over a source, each once as long as it is remembered.
#![tactic(auto)]

mod cache;
mod entry;
mod fault;
mod judge;
mod key;
mod row;
mod rows;

pub use entry::open_index;
pub use fault::JudgeFault;
pub use judge::IndexJudge;
pub use row::is_at_home;
pub use rows::{COLUMN_LEN, count_next, read_rows};
pub use shard_reader::IndexSpan;
