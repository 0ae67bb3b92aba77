//! Each fault's text, written out and derived, and a box's.

use std::alloc::{AllocError, Global};
use std::test::Fail;
use vol_base::{Box3, ChunkFault, Fault, IndexFault, ShardFault};

// Faults and their texts.
const FAULTS: &[(Fault, &str)] = &[
    (
        Fault::Chunk(ChunkFault::ChunkLength {
            found: 7,
            wanted: 8,
        }),
        "chunk length 7 wanted 8",
    ),
    (
        Fault::Chunk(ChunkFault::SegLength { found: 3 }),
        "seg length 3",
    ),
    (
        Fault::Chunk(ChunkFault::SegChannel { c: 1 }),
        "seg channel 1",
    ),
    (
        Fault::Chunk(ChunkFault::SegBits {
            c: 1,
            b: 2,
            bits: 3,
        }),
        "seg bits 1 2 3",
    ),
    (
        Fault::Chunk(ChunkFault::SegValues { c: 1, b: 2 }),
        "seg values 1 2",
    ),
    (
        Fault::Chunk(ChunkFault::SegTable { c: 1, b: 2, n: 3 }),
        "seg table 1 2 3",
    ),
    (Fault::Index(IndexFault::BadId { row: 4 }), "index id 4"),
    (
        Fault::Index(IndexFault::BadStart { row: 5 }),
        "index start 5",
    ),
    (Fault::Shard(ShardFault::ShortIndex), "shard short index"),
    (Fault::Shard(ShardFault::BadRange), "shard bad range"),
    (
        Fault::Shard(ShardFault::BadLength { bytes: 25 }),
        "shard bad length 25",
    ),
    (
        Fault::Shard(ShardFault::TooManyRows { rows: 6 }),
        "shard too many rows 6",
    ),
    (
        Fault::Shard(ShardFault::ShortMinishard),
        "shard short minishard",
    ),
    (
        Fault::Shard(ShardFault::ChunkTooLong { found: 9, limit: 8 }),
        "chunk too long 9 limit 8",
    ),
    (Fault::Shard(ShardFault::ShortChunk), "shard short chunk"),
];

// The text of a fault, by its variant's own.
fn print_derived(alloc: Global, fault: &Fault) -> Result<String, AllocError> {
    match fault {
        Fault::Chunk(fault) => format!(in alloc; "{fault}"),
        Fault::Index(fault) => format!(in alloc; "{fault}"),
        Fault::Shard(fault) => format!(in alloc; "{fault}"),
    }
}

#[test]
fn prints_faults(rt: HostRuntime) -> Result<(), Fail> {
    for (fault, wanted) in FAULTS {
        let text = format!(in rt.alloc(); "{fault}")?;
        assert_eq!(rt; text.as_str(), *wanted);
        let derived = print_derived(rt.alloc(), fault)?;
        assert_eq!(rt; derived.as_str(), *wanted);
    }
    Ok(())
}

// Texts of boxes, and the box's text or its fault.
const BOXES: &[(&str, &str)] = &[
    ("[0:5,-3:4,0:1]", "[0:5,-3:4,0:1]"),
    ("[0:99999999999999999999,0:1,0:1]", "Range"),
    ("[5:5,0:1,0:1]", "Empty"),
    ("[0:5,-0:4,0:1]", "Syntax"),
];

#[test]
fn reads_and_prints_boxes(rt: HostRuntime) -> Result<(), Fail> {
    for (text, wanted) in BOXES {
        let found = match Box3::parse(text) {
            Ok(b) => format!(in rt.alloc(); "{b}")?,
            Err(fault) => format!(in rt.alloc(); "{fault:?}")?,
        };
        assert_eq!(rt; found.as_str(), *wanted);
    }
    Ok(())
}
