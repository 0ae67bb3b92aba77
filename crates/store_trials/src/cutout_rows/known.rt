//! Values of known objects, sound ones and damaged ones, each of one voxel.
ghost use Rattle.std.specs.Prelude.{◌≤◌, length};

use super::{Cut, NONE_FAILS, SHARD, check_cuts, one_minishard};
use cutout::CutFault;
use small_scales::{raw_scale, short_name};
use std::alloc::Global;
use std::process::Abort;
use std::test::Fail;
use vol_base::{Box3, ChunkFault, Fault, IndexFault, Name};
use vol_spec::{ChunkSizes, Encoding, HashKind, Scale, Sharding};

// One shard of two minishards.
fn two_minishards() -> Sharding {
    Sharding {
        preshift: 0,
        hash: HashKind::Identity,
        minishard_bits: 1,
        shard_bits: 0,
    }
}

// Two cells of a voxel of one byte each, in shards.
fn two_bytes(key: Name, sharding: Sharding) -> Scale
    requires { length key ≤ 200 }
{
    Scale {
        key,
        width: 1,
        channels: 1,
        size: [2, 1, 1],
        offset: [0; 3],
        chunk: [1; 3],
        encoding: Encoding::Raw,
        sharding: Some(sharding),
        more: ChunkSizes::none(),
    }
}

// Two cells of a label of four bytes each, in one shard.
fn two_labels(key: Name) -> Scale
    requires { length key ≤ 200 }
{
    Scale {
        key,
        width: 4,
        channels: 1,
        size: [2, 1, 1],
        offset: [0; 3],
        chunk: [1; 3],
        encoding: Encoding::Seg { block: [1; 3] },
        sharding: Some(one_minishard()),
        more: ChunkSizes::none(),
    }
}

fn key(rt: &impl Abort) -> Name
    ensures { length result ≤ 200 }
{
    short_name(b"s").expect(rt, "a key")
}

// The voxel at an x: its value or the fault of its chunk, and how many bytes are asked for.
type Row = (u8, Result<&'static [u8], Fault>, u64);

fn cut_of(row: &Row) -> Cut<'static> {
    let (x, value, asked) = row;
    let part = Box3 {
        begin: [i64::from(*x), 0, 0],
        size: [1; 3],
    };
    let (answer, values) = match value {
        Ok(values) => (Ok(()), *values),
        Err(fault) => {
            let cell = [u64::from(*x), 0, 0];
            let fault = *fault;
            (Err(CutFault::Damaged { cell, fault }), [].as_slice())
        }
    };
    Cut {
        part,
        answer,
        values,
        asked: *asked,
    }
}

// The voxels of a scale where the store has one object.
fn check_rows(
    rt: &impl Abort,
    alloc: Global,
    scale: &Scale,
    name: &[u8],
    object: &[u8],
    rows: &[Row],
) -> Result<(), Fail> {
    for row in rows {
        let cuts = [cut_of(row)];
        check_cuts(rt, alloc, scale, &[(name, object)], NONE_FAILS, &cuts)?;
    }
    Ok(())
}

const OWN_NAME: &[u8] = b"d/s/0-1_0-1_0-1";

const OWN_BYTE: [u8; 1] = [10];

const LONG_BYTES: [u8; 3] = [10, 11, 12];

// Of an object no more is read than one byte over the longest chunk.
const OWN: &[Row] = &[(0, Ok(&[10]), 2), (1, Ok(&[0]), 2)];

const LONG: Fault = Fault::Chunk(ChunkFault::ChunkLength {
    found: 2,
    wanted: 1,
});

const LONG_OWN: &[Row] = &[(0, Err(LONG), 2)];

#[test]
fn reads_known_objects(rt: HostRuntime) -> Result<(), Fail> {
    let alloc = rt.alloc();
    let scale = raw_scale(key(&rt), 1, 1, [2, 1, 1], [0; 3], [1; 3]).expect(&rt, "a scale");
    check_rows(&rt, alloc, &scale, OWN_NAME, &OWN_BYTE, OWN)?;
    check_rows(&rt, alloc, &scale, OWN_NAME, &LONG_BYTES, LONG_OWN)
}

// Two chunks of a byte each, and the index of a row that is sound and one of an id that doesn't ascend.
const TWICE: [u8; 66] = [
    2, 0, 0, 0, 0, 0, 0, 0, 50, 0, 0, 0, 0, 0, 0, 0, // the entry
    10, 11, // the chunks
    0, 0, 0, 0, 0, 0, 0, 0, 0, 0, 0, 0, 0, 0, 0, 0, // ids
    0, 0, 0, 0, 0, 0, 0, 0, 0, 0, 0, 0, 0, 0, 0, 0, // starts
    1, 0, 0, 0, 0, 0, 0, 0, 1, 0, 0, 0, 0, 0, 0, 0, // sizes
];

const BAD_ID: Fault = Fault::Index(IndexFault::BadId { row: 1 });

const SINGLE: &[Row] = &[(0, Ok(&[10]), 16 + 48 + 1), (1, Err(BAD_ID), 16 + 48)];

// An empty minishard, and one with the chunk of the second cell.
const SECOND: [u8; 57] = [
    0, 0, 0, 0, 0, 0, 0, 0, 0, 0, 0, 0, 0, 0, 0, 0, // the first entry
    1, 0, 0, 0, 0, 0, 0, 0, 25, 0, 0, 0, 0, 0, 0, 0, // the second entry
    11, // the chunk, and its row
    1, 0, 0, 0, 0, 0, 0, 0, 0, 0, 0, 0, 0, 0, 0, 0, 1, 0, 0, 0, 0, 0, 0, 0,
];

const HALVED: &[Row] = &[(0, Ok(&[0]), 16), (1, Ok(&[11]), 16 + 24 + 1)];

#[test]
fn reads_known_shards(rt: HostRuntime) -> Result<(), Fail> {
    let alloc = rt.alloc();
    let halved = two_bytes(key(&rt), two_minishards());
    check_rows(&rt, alloc, &halved, SHARD, &SECOND, HALVED)?;
    let single = two_bytes(key(&rt), one_minishard());
    check_rows(&rt, alloc, &single, SHARD, &TWICE, SINGLE)
}

// The label 7 in a shard, with a header of a block that is sound.
const SOUND: [u8; 56] = [
    16, 0, 0, 0, 0, 0, 0, 0, 40, 0, 0, 0, 0, 0, 0, 0, // the entry
    1, 0, 0, 0, 2, 0, 0, 0, 2, 0, 0, 0, 7, 0, 0, 0, // the chunk
    0, 0, 0, 0, 0, 0, 0, 0, 0, 0, 0, 0, 0, 0, 0, 0, 16, 0, 0, 0, 0, 0, 0, 0, // its row
];

const LABELS: &[Row] = &[
    (0, Ok(&[7, 0, 0, 0]), 16 + 24 + 16),
    (1, Ok(&[0, 0, 0, 0]), 16 + 24),
];

// And with one whose table begins behind the chunk.
const BEHIND: [u8; 56] = [
    16, 0, 0, 0, 0, 0, 0, 0, 40, 0, 0, 0, 0, 0, 0, 0, // the entry
    1, 0, 0, 0, 3, 0, 0, 0, 2, 0, 0, 0, 7, 0, 0, 0, // the chunk
    0, 0, 0, 0, 0, 0, 0, 0, 0, 0, 0, 0, 0, 0, 0, 0, 16, 0, 0, 0, 0, 0, 0, 0, // its row
];

const TABLE: Fault = Fault::Chunk(ChunkFault::SegTable { c: 0, b: 0, n: 0 });

const NO_LABEL: &[Row] = &[(0, Err(TABLE), 16 + 24 + 16)];

#[test]
fn reads_known_labels(rt: HostRuntime) -> Result<(), Fail> {
    let alloc = rt.alloc();
    let scale = two_labels(key(&rt));
    check_rows(&rt, alloc, &scale, SHARD, &SOUND, LABELS)?;
    check_rows(&rt, alloc, &scale, SHARD, &BEHIND, NO_LABEL)
}
