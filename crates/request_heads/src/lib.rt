//! Heads of requests, as their bytes come, and the words of their fields.
#![tactic(auto)]

mod asks;
mod fields;
mod judge;
mod kinds;
mod wait;
mod words;

pub use asks::{asks_close, find_range, has_body};
pub use fields::read_fields;
pub use judge::judge_front;
pub use kinds::{Front, Next};
pub use wait::read_head;
pub use words::{has_close, read_count, trim};
