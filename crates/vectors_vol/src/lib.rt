//! Known documents and bytes, and a feed that makes a large stream of writes from a number.
#![tactic(auto)]

mod draws;
mod generator;
mod place;
mod plain;
mod values;
mod vectors;

pub use generator::Generator;
pub use plain::plain_stream;
pub use vectors::{I1, I2, I3, V1, V2, V3, V4};
