//! What can be wrong with a stored chunk, an index of a shard, or a shard. The texts that these three derive have no
//! clause; the text of `Fault`, which a command prints, is written out and has a definition.

use std::fmt;
use thiserror::Error;

/// A fault of one chunk's bytes. `c` is a channel, `b` a block and `n` a voxel's number in its block.
#[derive(Clone, Copy, Debug, PartialEq, Eq, Error)]
pub enum ChunkFault {
    /// A chunk of another length, in bytes, than its values have.
    #[error("chunk length {found} wanted {wanted}")]
    ChunkLength { found: u64, wanted: u64 },
    /// A segmentation chunk whose length, in bytes, is no number of words or too short for the channels.
    #[error("seg length {found}")]
    SegLength { found: u64 },
    /// The headers of a channel pass the end.
    #[error("seg channel {c}")]
    SegChannel { c: u32 },
    /// A header asks for a number of bits that isn't allowed.
    #[error("seg bits {c} {b} {bits}")]
    SegBits { c: u32, b: u64, bits: u32 },
    /// The packed indices of a block pass the end.
    #[error("seg values {c} {b}")]
    SegValues { c: u32, b: u64 },
    /// The table entry of a voxel passes the end.
    #[error("seg table {c} {b} {n}")]
    SegTable { c: u32, b: u64, n: u64 },
}

/// A fault of one row of a minishard index.
#[derive(Clone, Copy, Debug, PartialEq, Eq, Error)]
pub enum IndexFault {
    /// The chunk id passes 64 bits, or doesn't ascend.
    #[error("index id {row}")]
    BadId { row: u64 },
    /// The start or the end of the chunk passes 64 bits.
    #[error("index start {row}")]
    BadStart { row: u64 },
}

/// A fault on the way to a chunk in a shard.
#[derive(Clone, Copy, Debug, PartialEq, Eq, Error)]
pub enum ShardFault {
    /// The object ends before the minishard's entry does.
    #[error("shard short index")]
    ShortIndex,
    /// An entry whose start is above its end.
    #[error("shard bad range")]
    BadRange,
    /// A minishard index whose length, in bytes, is no number of rows.
    #[error("shard bad length {bytes}")]
    BadLength { bytes: u64 },
    /// A minishard index of more rows than are read.
    #[error("shard too many rows {rows}")]
    TooManyRows { rows: u64 },
    /// The object ends before the minishard index does.
    #[error("shard short minishard")]
    ShortMinishard,
    /// A chunk that is longer, in bytes, than its cell's limit.
    #[error("chunk too long {found} limit {limit}")]
    ChunkTooLong { found: u64, limit: u64 },
    /// The object ends before the chunk does.
    #[error("shard short chunk")]
    ShortChunk,
}

/// A fault of a stored cell.
#[derive(Clone, Copy, Debug, PartialEq, Eq)]
pub enum Fault {
    Chunk(ChunkFault),
    Index(IndexFault),
    Shard(ShardFault),
}

impl fmt::Display for Fault {
    ghost use Rattle.std.specs.Prelude.{Some};
    ghost use Rattle.vol_base.specs.FaultTexts.{fault_text};

    ghost output = { λ fault. Some (fault_text fault) };

    fn fmt<W: fmt::Write>(&self, f: &mut fmt::Formatter<W>) -> fmt::Result {
        match self {
            Fault::Chunk(ChunkFault::ChunkLength { found, wanted }) => {
                write!(f, "chunk length {found} wanted {wanted}")
            }
            Fault::Chunk(ChunkFault::SegLength { found }) => write!(f, "seg length {found}"),
            Fault::Chunk(ChunkFault::SegChannel { c }) => write!(f, "seg channel {c}"),
            Fault::Chunk(ChunkFault::SegBits { c, b, bits }) => {
                write!(f, "seg bits {c} {b} {bits}")
            }
            Fault::Chunk(ChunkFault::SegValues { c, b }) => write!(f, "seg values {c} {b}"),
            Fault::Chunk(ChunkFault::SegTable { c, b, n }) => write!(f, "seg table {c} {b} {n}"),
            Fault::Index(IndexFault::BadId { row }) => write!(f, "index id {row}"),
            Fault::Index(IndexFault::BadStart { row }) => write!(f, "index start {row}"),
            Fault::Shard(ShardFault::ShortIndex) => f.write_str("shard short index"),
            Fault::Shard(ShardFault::BadRange) => f.write_str("shard bad range"),
            Fault::Shard(ShardFault::BadLength { bytes }) => write!(f, "shard bad length {bytes}"),
            Fault::Shard(ShardFault::TooManyRows { rows }) => {
                write!(f, "shard too many rows {rows}")
            }
            Fault::Shard(ShardFault::ShortMinishard) => f.write_str("shard short minishard"),
            Fault::Shard(ShardFault::ChunkTooLong { found, limit }) => {
                write!(f, "chunk too long {found} limit {limit}")
            }
            Fault::Shard(ShardFault::ShortChunk) => f.write_str("shard short chunk"),
        }
    }
}

impl std::error::Error for Fault {}
