//! A shard over a source: where the chunk of an id stands, found by byte ranges alone.
#![tactic(auto)]

mod bytes;
mod chunk;
mod entry;
mod found;
mod kept;
mod opened;
mod reader;
mod scan;
mod span;
mod window;

pub use bytes::LookupFault;
pub use entry::open_index;
pub use opened::OpenedIndex;
pub use reader::ShardReader;
pub use span::IndexSpan;
pub use window::{WINDOW_LEN, read_numbers};
