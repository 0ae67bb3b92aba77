//! The words of the command line: which command they spell, and its arguments.
#![tactic(auto)]

mod commands;
mod downsampling;
mod parsers;
mod resharding;
mod serving;
mod updating;
mod verifying;
mod words;

pub use commands::Command;
pub use words::read_words;
