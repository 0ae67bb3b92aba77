//! The judgement of a volume's info document.
#![tactic(auto)]

mod coding;
mod fault;
mod info;
mod json;
mod limit;
mod member;
mod shape;
mod shards;
mod volume;

pub use fault::{InfoFault, Item, What};
pub use info::scale_of;
pub use vol_spec::{Encoding, HashKind, Scale, Sharding};
