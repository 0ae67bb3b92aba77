//! What the tool shows of itself: the lines that are always the same, and the outside as the host has it but for its files: the
//! standard streams as a feed and outlets, connections over TCP as links behind a door, and what stands for a door where
//! none is wanted.
#![tactic(auto)]

mod accepts;
mod counts;
mod door;
mod lines;
mod link;
mod output;
mod streams;

pub use door::TcpDoor;
pub use lines::{
    DOOR_LINE, FEED_LINE, FOLDER_LINE, MEMORY_LINE, OUTPUT_LINE, STORE_LINE, USAGE_LINE, tell_lines,
};
pub use link::{Limits, TcpLink};
pub use output::say;
pub use streams::{NoDoor, NoLink, StdFeed, StdOutlet};
