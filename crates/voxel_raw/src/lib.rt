//! Raw chunks: their lengths, and copies of boxes between their values.
#![tactic(auto)]

mod axes;
mod boxes;
mod common;
mod length;
mod source;

pub use boxes::{copy_box, fill_box};
pub use common::common_part;
pub use length::check_len;
