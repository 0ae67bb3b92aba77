//! A store over HTTP: the objects of a range server.
#![tactic(auto)]

mod aimed;
mod begin;
mod body;
mod calls;
mod counts;
mod dial;
mod fields;
mod hosts;
mod judge;
mod keys;
mod law;
mod numbers;
mod part;
mod remote;
mod room;
mod script;
mod start;
mod talk;
mod text;
mod wait;
mod wanted;

pub use aimed::{Aim, AimedStore};
pub use dial::Dial;
pub use hosts::is_host;
pub use law::tell_reply;
pub use numbers::{read_length, read_place};
pub use remote::Remote;
pub use script::ScriptDial;
pub use wait::{Front, judge_front};
pub use wanted::{Begun, Kind, Promise, Wanted};
