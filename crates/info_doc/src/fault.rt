//! What can be wrong with an info document.

use std::fmt;

/// A part of the info document, or a limit of the scale that it describes.
#[derive(Clone, Copy, Debug, PartialEq, Eq)]
pub enum Item {
    /// The document itself.
    Root,
    AtType,
    VolumeType,
    DataType,
    NumChannels,
    Scales,
    Size,
    VoxelOffset,
    ChunkSizes,
    Resolution,
    Encoding,
    BlockSize,
    Sharding,
    ShardingType,
    PreshiftBits,
    Hash,
    MinishardBits,
    ShardBits,
    MinishardIndexEncoding,
    DataEncoding,
    /// The raw bytes of the first cell.
    ChunkBytes,
    /// The bits of a cell's compressed Morton code.
    MortonBits,
    /// The voxels of the first cell, padded to whole blocks, times the channels.
    Padded,
}

/// What is wrong with a member.
#[derive(Clone, Copy, Debug, PartialEq, Eq)]
pub enum What {
    Missing,
    WrongKind,
    BadValue,
}

/// Why an info document gives no scale.
#[derive(Clone, Copy, Debug, PartialEq, Eq)]
pub enum InfoFault {
    /// More than 2^20 bytes.
    TooLong,
    NotJson,
    Member { item: Item, what: What },
    /// No scale has the wanted key.
    ScaleAbsent,
    /// A value of the format that this project doesn't read.
    Unsupported { item: Item },
    /// A value past this project's limit.
    Limit { item: Item },
    OutOfMemory,
}

impl InfoFault {
    ghost use Rattle.std.specs.Prelude.{◌≡◌};

    /// The member is absent.
    pub(crate) fn missing(item: Item) -> InfoFault
        ensures { result ≡ InfoFault.Member item What.Missing }
    {
        InfoFault::Member {
            item,
            what: What::Missing,
        }
    }

    /// The member is of another kind of JSON value than it has to be.
    pub(crate) fn wrong_kind(item: Item) -> InfoFault
        ensures { result ≡ InfoFault.Member item What.WrongKind }
    {
        InfoFault::Member {
            item,
            what: What::WrongKind,
        }
    }

    /// The member has a value that the format or a limit forbids.
    pub(crate) fn bad_value(item: Item) -> InfoFault
        ensures { result ≡ InfoFault.Member item What.BadValue }
    {
        InfoFault::Member {
            item,
            what: What::BadValue,
        }
    }
}

impl fmt::Display for Item {
    ghost use Rattle.std.specs.Prelude.{Some};
    ghost use Rattle.info_doc.specs.Texts.{item_text};

    ghost output = { λ item. Some (item_text item) };

    fn fmt<W: fmt::Write>(&self, f: &mut fmt::Formatter<W>) -> fmt::Result {
        f.write_str(match self {
            Item::Root => "root",
            Item::AtType => "@type",
            Item::VolumeType => "type",
            Item::DataType => "data_type",
            Item::NumChannels => "num_channels",
            Item::Scales => "scales",
            Item::Size => "size",
            Item::VoxelOffset => "voxel_offset",
            Item::ChunkSizes => "chunk_sizes",
            Item::Resolution => "resolution",
            Item::Encoding => "encoding",
            Item::BlockSize => "compressed_segmentation_block_size",
            Item::Sharding => "sharding",
            Item::ShardingType => "sharding @type",
            Item::PreshiftBits => "preshift_bits",
            Item::Hash => "hash",
            Item::MinishardBits => "minishard_bits",
            Item::ShardBits => "shard_bits",
            Item::MinishardIndexEncoding => "minishard_index_encoding",
            Item::DataEncoding => "data_encoding",
            Item::ChunkBytes => "chunk_bytes",
            Item::MortonBits => "morton_bits",
            Item::Padded => "padded",
        })
    }
}

impl fmt::Display for What {
    ghost use Rattle.std.specs.Prelude.{Some};
    ghost use Rattle.info_doc.specs.Texts.{what_text};

    ghost output = { λ what. Some (what_text what) };

    fn fmt<W: fmt::Write>(&self, f: &mut fmt::Formatter<W>) -> fmt::Result {
        f.write_str(match self {
            What::Missing => "missing",
            What::WrongKind => "wrong kind",
            What::BadValue => "bad value",
        })
    }
}

impl fmt::Display for InfoFault {
    ghost use Rattle.std.specs.Prelude.{Some};
    ghost use Rattle.info_doc.specs.Texts.{fault_text};

    ghost output = { λ fault. Some (fault_text fault) };

    fn fmt<W: fmt::Write>(&self, f: &mut fmt::Formatter<W>) -> fmt::Result {
        match self {
            InfoFault::TooLong => f.write_str("too long"),
            InfoFault::NotJson => f.write_str("not json"),
            InfoFault::Member { item, what } => write!(f, "{item} {what}"),
            InfoFault::ScaleAbsent => f.write_str("scale absent"),
            InfoFault::Unsupported { item } => write!(f, "unsupported {item}"),
            InfoFault::Limit { item } => write!(f, "limit {item}"),
            InfoFault::OutOfMemory => f.write_str("out of memory"),
        }
    }
}
