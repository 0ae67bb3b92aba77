//! Objects served by byte ranges over HTTP/1.1.
#![tactic(auto)]

mod answer;
mod conn;
mod digits;
mod ends;
mod fault;
mod plan;
mod range;
mod reply;
mod room;
mod send;
mod serve;
mod text;
mod write;

pub use ends::serve_ends;
pub use fault::{DoorRefusal, ServeFault};
pub use plan::plan_reply;
pub use range::{RangeAnswer, range_of};
pub use reply::{Ending, Reply};
pub use room::Desk;
pub use serve::{Service, serve_conn, serve_to_end, tell_replies};
