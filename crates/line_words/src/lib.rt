//! What the words of a line spell: names, boxes and numbers.
#![tactic(auto)]

mod numbers;
mod words;

pub use numbers::{read_connection_count, read_number, read_port, read_worker_count};
pub use words::{is_plain_word, read_box, read_name, value_after};
