//! What a scale of a volume is, and the definitions that the crates above speak of.
#![tactic(auto)]

mod encoding;
mod entry;
mod row;
mod scale;
mod seg_shape;
mod sharding;
mod sizes;
mod span;
mod stored_scale;

pub use encoding::Encoding;
pub use entry::Entry;
pub use row::Row;
pub use scale::Scale;
pub use seg_shape::SegShape;
pub use sharding::{HashKind, ShardPlace, Sharding};
pub use sizes::ChunkSizes;
pub use span::ChunkSpan;
pub use stored_scale::StoredScale;
