//! Judgements of small stores, worked out by hand.
ghost use Rattle.std.specs.Prelude.{◌≤◌, length};

mod calls;

use crate::shards::{Numbers, ONE_INDEX, TWO_INDEXES, changed};
use memory_rows::{name_of, store_of};
use small_scales::raw_scale;
use std::alloc::Global;
use std::process::Abort;
use std::test::Fail;
use verify_cmd::{Report, VerifyFault, verify};
use vol_base::{Box3, ChunkFault, Fault, IndexFault, MemoryStore, Name, ShardFault};
use vol_spec::{ChunkSizes, Encoding, HashKind, Scale, Sharding};

// One shard, of one minishard or of two.
fn one_shard(minishard_bits: u32) -> Sharding
    requires { minishard_bits ≤ 1 }
{
    Sharding {
        preshift: 0,
        hash: HashKind::Identity,
        minishard_bits,
        shard_bits: 0,
    }
}

// Two voxels of a byte each in two cells of a row, in shards.
fn sharded_scale(key: Name, sharding: Sharding) -> Scale
    requires { length key ≤ 200 }
{
    Scale {
        key,
        width: 1,
        channels: 1,
        size: [2, 1, 1],
        offset: [0; 3],
        chunk: [1; 3],
        encoding: Encoding::Raw,
        sharding: Some(sharding),
        more: ChunkSizes::none(),
    }
}

// One voxel of four bytes, segmented.
fn segmented_scale(key: Name) -> Scale
    requires { length key ≤ 200 }
{
    Scale {
        key,
        width: 4,
        channels: 1,
        size: [1; 3],
        offset: [0; 3],
        chunk: [1; 3],
        encoding: Encoding::Seg { block: [1; 3] },
        sharding: None,
        more: ChunkSizes::none(),
    }
}

// So many voxels of a byte each in a row, a cell for each.
fn row_scale(count: u64) -> Result<Scale, Fail> {
    let key = name_of("s")?;
    let scale = raw_scale(key, 1, 1, [count, 1, 1], [0; 3], [1; 3]).ok_or("no scale")?;
    Ok(scale)
}

// One cell of a row, two, and more than are judged.
const FIRST: Box3 = Box3 {
    begin: [0; 3],
    size: [1; 3],
};

const BOTH: Box3 = Box3 {
    begin: [0; 3],
    size: [2, 1, 1],
};

const MANY: Box3 = Box3 {
    begin: [0; 3],
    size: [4194305, 1, 1],
};

// How a part is judged.
type Judged = Result<Report, VerifyFault>;

const BOTH_STORED: Judged = Ok(Report {
    cells: 2,
    stored: 2,
    absent: 0,
});

const ONE_STORED: Judged = Ok(Report {
    cells: 2,
    stored: 1,
    absent: 1,
});

const NONE_STORED: Judged = Ok(Report {
    cells: 2,
    stored: 0,
    absent: 2,
});

const FIRST_ABSENT: Judged = Ok(Report {
    cells: 1,
    stored: 0,
    absent: 1,
});

// What is answered of a part of the data set `d`.
fn judge(
    alloc: Global,
    store: &mut MemoryStore,
    scale: &Scale,
    part: &Box3,
) -> Result<Judged, Fail> {
    let dataset = name_of("d")?;
    Ok(verify(alloc, store, &dataset, scale, part))
}

fn check(
    rt: &impl Abort,
    alloc: Global,
    store: &mut MemoryStore,
    scale: &Scale,
    part: &Box3,
    wanted: Judged,
) -> Result<(), Fail> {
    let judged = judge(alloc, store, scale, part)?;
    assert_eq!(rt; judged, wanted);
    Ok(())
}

// A part, and how it is judged.
type Part = (Box3, Judged);

// Parts that are judged one after the other.
fn check_parts(
    rt: &impl Abort,
    alloc: Global,
    store: &mut MemoryStore,
    scale: &Scale,
    parts: &[Part],
) -> Result<(), Fail> {
    for (part, wanted) in parts {
        check(rt, alloc, store, scale, part, *wanted)?;
    }
    Ok(())
}

// The same over a store of one object.
fn check_object(
    rt: &impl Abort,
    alloc: Global,
    scale: &Scale,
    name: &str,
    bytes: &[u8],
    parts: &[Part],
) -> Result<(), Fail> {
    let mut store = store_of(alloc, &[(name, bytes)], &[])?;
    check_parts(rt, alloc, &mut store, scale, parts)
}

// Both cells of a shard that has these numbers and is cut off there.
fn check_shard(
    rt: &impl Abort,
    alloc: Global,
    scale: &Scale,
    shard: &[u8],
    numbers: &[(u8, u64)],
    len: usize,
    wanted: Judged,
) -> Result<(), Fail> {
    let mut bytes = changed(alloc, shard, numbers)?;
    bytes.truncate(len);
    check_object(rt, alloc, scale, "d/s/0.shard", &bytes, &[(BOTH, wanted)])
}

// Numbers that are put at places of a shard, how many bytes of it are left, and how both cells are judged then.
type Change = (Numbers, usize, Judged);

fn check_changes(
    rt: &impl Abort,
    alloc: Global,
    scale: &Scale,
    shard: &[u8],
    rows: &[Change],
) -> Result<(), Fail> {
    for (numbers, len, wanted) in rows {
        check_shard(rt, alloc, scale, shard, numbers, *len, *wanted)?;
    }
    Ok(())
}

// The same where a cell is damaged.
type Damage = (Numbers, usize, [u64; 3], Fault);

fn check_damages(
    rt: &impl Abort,
    alloc: Global,
    scale: &Scale,
    shard: &[u8],
    rows: &[Damage],
) -> Result<(), Fail> {
    for (numbers, len, cell, fault) in rows {
        let wanted = Err(VerifyFault::Damaged {
            cell: *cell,
            fault: *fault,
        });
        check_shard(rt, alloc, scale, shard, numbers, *len, wanted)?;
    }
    Ok(())
}

// The id of the second cell stands in the minishard of the first.
const MISPLACED: Judged = Err(VerifyFault::Misplaced {
    shard: 0,
    minishard: 0,
    id: 1,
});

const TOO_LONG: Fault = Fault::Shard(ShardFault::ChunkTooLong { found: 2, limit: 1 });

const TOO_MANY: Fault = Fault::Shard(ShardFault::TooManyRows { rows: 4194305 });

const BAD_LENGTH: Fault = Fault::Shard(ShardFault::BadLength { bytes: 23 });

const SHORT_MINISHARD: Fault = Fault::Shard(ShardFault::ShortMinishard);

const SHORT_CHUNK: Fault = Fault::Shard(ShardFault::ShortChunk);

const BAD_ID: Fault = Fault::Index(IndexFault::BadId { row: 1 });

const BAD_START: Fault = Fault::Index(IndexFault::BadStart { row: 1 });

const OF_TWO: &[Change] = &[
    (&[(0, 1)], 82, BOTH_STORED),
    (&[(0, 25), (8, 25)], 82, ONE_STORED),
    (&[(33, 1)], 82, MISPLACED),
];

const DAMAGED_TWO: &[Damage] = &[
    (&[(0, 2), (8, 25)], 82, [0; 3], BAD_LENGTH),
    (
        &[(0, 25), (8, 1)],
        82,
        [0; 3],
        Fault::Shard(ShardFault::BadRange),
    ),
    (
        &[(0, u64::MAX - 24), (8, u64::MAX)],
        82,
        [0; 3],
        SHORT_MINISHARD,
    ),
    (&[(49, 2)], 82, [0; 3], TOO_LONG),
    (&[(66, 1000)], 82, [1, 0, 0], SHORT_CHUNK),
    (&[], 8, [0; 3], Fault::Shard(ShardFault::ShortIndex)),
    (&[], 33, [0; 3], SHORT_MINISHARD),
];

#[test]
fn judges_two_minishards(rt: HostRuntime) -> Result<(), Fail> {
    let scale = sharded_scale(name_of("s")?, one_shard(1));
    check_changes(&rt, rt.alloc(), &scale, TWO_INDEXES, OF_TWO)?;
    check_damages(&rt, rt.alloc(), &scale, TWO_INDEXES, DAMAGED_TWO)
}

const OF_ONE: &[Change] = &[(&[(0, 2)], 66, BOTH_STORED)];

const DAMAGED_ONE: &[Damage] = &[
    (&[(8, 100663322)], 66, [0; 3], TOO_MANY),
    (&[(18, u64::MAX)], 66, [0; 3], BAD_ID),
    (&[(26, 0)], 66, [0; 3], BAD_ID),
    (&[(34, 1000)], 66, [0; 3], SHORT_CHUNK),
    (&[(50, 2)], 66, [0; 3], TOO_LONG),
    (&[(50, u64::MAX)], 66, [0; 3], BAD_START),
];

#[test]
fn judges_whole_indexes(rt: HostRuntime) -> Result<(), Fail> {
    let scale = sharded_scale(name_of("s")?, one_shard(0));
    check_changes(&rt, rt.alloc(), &scale, ONE_INDEX, OF_ONE)?;
    check_damages(&rt, rt.alloc(), &scale, ONE_INDEX, DAMAGED_ONE)
}

#[test]
fn judges_other_shards(rt: HostRuntime) -> Result<(), Fail> {
    let scale = sharded_scale(name_of("s")?, one_shard(1));
    let absent = &[(BOTH, NONE_STORED)];
    check_object(&rt, rt.alloc(), &scale, "d/s/1.shard", TWO_INDEXES, absent)
}

const LONG_SECOND: Judged = Err(VerifyFault::Damaged {
    cell: [1, 0, 0],
    fault: Fault::Chunk(ChunkFault::ChunkLength {
        found: 2,
        wanted: 1,
    }),
});

// What the object of the second cell has, and how parts are judged then, one after the other.
const SECOND: &[(&[u8], &[Part])] = &[
    (&[0], &[(BOTH, ONE_STORED), (FIRST, FIRST_ABSENT)]),
    (&[0; 9], &[(FIRST, FIRST_ABSENT), (BOTH, LONG_SECOND)]),
];

#[test]
fn judges_objects(rt: HostRuntime) -> Result<(), Fail> {
    let scale = row_scale(2)?;
    for (bytes, parts) in SECOND {
        check_object(&rt, rt.alloc(), &scale, "d/s/1-2_0-1_0-1", bytes, parts)?;
    }
    Ok(())
}

const BAD_CHANNEL: Judged = Err(VerifyFault::Damaged {
    cell: [0; 3],
    fault: Fault::Chunk(ChunkFault::SegChannel { c: 0 }),
});

#[test]
fn judges_segmentations(rt: HostRuntime) -> Result<(), Fail> {
    let scale = segmented_scale(name_of("s")?);
    let name = "d/s/0-1_0-1_0-1";
    check_object(
        &rt,
        rt.alloc(),
        &scale,
        name,
        &[255; 4],
        &[(FIRST, BAD_CHANNEL)],
    )
}

// A row of so many voxels, of which a part is judged. The first call of the store, which fails, is the third row's.
const ROWS: &[(u64, Part)] = &[
    (1, (BOTH, Err(VerifyFault::OutsideScale))),
    (
        4194305,
        (MANY, Err(VerifyFault::TooManyCells { cells: 4194305 })),
    ),
    (2, (BOTH, Err(VerifyFault::StoreFault))),
    (2, (BOTH, NONE_STORED)),
];

#[test]
fn refuses_parts(rt: HostRuntime) -> Result<(), Fail> {
    let mut store = store_of(rt.alloc(), &[("d/s/x", &[0])], &[0])?;
    for (count, (part, wanted)) in ROWS {
        let scale = row_scale(*count)?;
        check(&rt, rt.alloc(), &mut store, &scale, part, *wanted)?;
    }
    Ok(())
}
