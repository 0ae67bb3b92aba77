//! Objects worked out by hand, from the format's names and its order of values.

ghost use Rattle.std.specs.Prelude.{◌≡◌, ◌≤◌, IfOk, length};

use chunk_grid::grid;
use holding_gate::HoldingGate;
use shard_writer::{WriteFault, Written, write_scale};
use small_scales::{raw_scale, short_name};
use std::alloc::{AllocError, Global};
use std::process::Abort;
use std::sync::Wait;
use std::test::Fail;
use std::thread::Threads;
use vol_base::{Box3, FreeGate, Gate, MemoryFeed, MemoryStore, Name};
use vol_spec::{ChunkSizes, Encoding, HashKind, Scale, Sharding};
use write_plan::{Chunks, Plan, read_writes};

// The stream of some writes.
fn print_stream(alloc: Global, writes: &[(Box3, &[u8])]) -> Result<Vec<u8>, AllocError> {
    let mut bytes = Vec::from_slice(alloc, b"PVW1")?;
    bytes.extend_from_slice(&writes.len().to_le_bytes()[..4])?;
    for (part, values) in writes {
        for begin in part.begin {
            bytes.extend_from_slice(&begin.to_le_bytes())?;
        }
        for size in part.size {
            bytes.extend_from_slice(&size.to_le_bytes())?;
        }
        bytes.extend_from_slice(values)?;
    }
    Ok(bytes)
}

// The plan of some writes.
fn plan_of(alloc: Global, scale: &Scale, writes: &[(Box3, &[u8])]) -> Result<Plan, Fail>
    ensures { IfOk result (λ plan. plan.scale ≡ scale.now) }
{
    let stream = print_stream(alloc, writes)?;
    let mut feed = MemoryFeed::new(stream, 64, Vec::new(alloc));
    let Ok(writes) = read_writes(alloc, &mut feed, scale) else {
        return Err("the stream has no fault".into());
    };
    let Ok(plan) = Plan::of(alloc, scale, writes) else {
        return Err("the plan has no refusal".into());
    };
    Ok(plan)
}

// Some writes, the number of the store's call that fails, how many objects, cells and bytes are counted or the fault, and
// objects of which so many stand then: those in front.
#[derive(Clone, Copy)]
struct Row<'a> {
    writes: &'a [(Box3, &'a [u8])],
    failing: u64,
    wanted: Result<[u64; 3], WriteFault>,
    objects: &'a [(&'a [u8], &'a [u8])],
    stand: u64,
}

const WORKERS: &[u32] = &[1, 2, 3, 16];

// A row is so for any number of workers.
fn check_row<R: Threads + Wait + Abort + Sync>(
    rt: &R,
    alloc: Global,
    scale: &Scale,
    row: &Row,
) -> Result<(), Fail> {
    for workers in WORKERS {
        check_workers(rt, alloc, *workers, scale, row)?;
    }
    Ok(())
}

fn check_rows<R: Threads + Wait + Abort + Sync>(
    rt: &R,
    alloc: Global,
    scale: &Scale,
    rows: &[Row],
) -> Result<(), Fail> {
    for row in rows {
        check_row(rt, alloc, scale, row)?;
    }
    Ok(())
}

// What writing some writes by so many workers answers.
fn write_by<R: Threads + Wait + Abort + Sync, G: Gate + Sync>(
    rt: &R,
    alloc: Global,
    store: &mut MemoryStore,
    scale: &Scale,
    writes: &[(Box3, &[u8])],
    workers: u32,
    gate: &G,
) -> Result<Result<Written, WriteFault>, Fail> {
    let mut plan = plan_of(alloc, scale, writes)?;
    let dataset = short_name(b"d").expect(rt, "a data set");
    assert!(rt; plan.jobs().len() <= 1 << 22);
    assert!(rt; scale.can_encode());
    Ok(write_scale(rt, alloc, store, &dataset, scale, &mut plan, workers, gate))
}

// Of some objects a store has so many in front, and none of the others.
fn check_objects(rt: &impl Abort, store: &MemoryStore, objects: &[(&[u8], &[u8])], stand: u64) {
    for (number, (text, bytes)) in objects.iter().enumerate() {
        let left = if (number as u64) < stand {
            Some(*bytes)
        } else {
            None
        };
        let name = short_name(text).expect(rt, "a name");
        assert!(rt; store.get(&name) == left);
    }
}

// The answer of these counts.
fn written(counts: Result<[u64; 3], WriteFault>) -> Result<Written, WriteFault> {
    let [objects, cells, bytes] = counts?;
    Ok(Written {
        objects,
        cells,
        bytes,
    })
}

fn check_workers<R: Threads + Wait + Abort + Sync>(
    rt: &R,
    alloc: Global,
    workers: u32,
    scale: &Scale,
    row: &Row,
) -> Result<(), Fail> {
    let mut store = MemoryStore::new(alloc, Vec::from_slice(alloc, &[row.failing])?);
    let answer = write_by(rt, alloc, &mut store, scale, row.writes, workers, &FreeGate)?;
    assert_eq!(rt; answer, written(row.wanted));
    check_objects(rt, &store, row.objects, row.stand);
    Ok(())
}

// A raw scale of a channel of a byte.
fn plain_scale(rt: &impl Abort, size: [u64; 3], chunk: [u64; 3]) -> Scale {
    let key = short_name(b"s").expect(rt, "a key");
    raw_scale(key, 1, 1, size, [0; 3], chunk).expect(rt, "a scale")
}

const FAULT: Result<[u64; 3], WriteFault> = Err(WriteFault::StoreFault);

fn part(begin: [i64; 3], size: [u64; 3]) -> Box3 {
    Box3 { begin, size }
}

// Three cells in a row, the last one narrower.
const SIZE: [u64; 3] = [5, 2, 1];

const CHUNK: [u64; 3] = [2, 2, 1];

// The names of their objects.
const LEFT: &[u8] = b"d/s/0-2_0-2_0-1";

const MIDDLE: &[u8] = b"d/s/2-4_0-2_0-1";

const RIGHT: &[u8] = b"d/s/4-5_0-2_0-1";

const ALL: (Box3, &[u8]) = (
    Box3 {
        begin: [0; 3],
        size: SIZE,
    },
    &[1, 2, 3, 4, 5, 6, 7, 8, 9, 10],
);

const LAST_VOXEL: (Box3, &[u8]) = (
    Box3 {
        begin: [4, 1, 0],
        size: [1; 3],
    },
    &[13],
);

const OVERWRITTEN: &[(&[u8], &[u8])] = &[
    (LEFT, &[1, 2, 6, 7]),
    (MIDDLE, &[3, 4, 8, 9]),
    (RIGHT, &[5, 13]),
];

const CELLS: &[Row<'static>] = &[
    Row {
        writes: &[],
        failing: 0,
        wanted: Ok([0, 0, 0]),
        objects: OVERWRITTEN,
        stand: 0,
    },
    Row {
        writes: &[LAST_VOXEL],
        failing: 3,
        wanted: Ok([1, 1, 2]),
        objects: &[(RIGHT, &[0, 13]), (LEFT, &[]), (MIDDLE, &[])],
        stand: 1,
    },
    Row {
        writes: &[ALL, LAST_VOXEL],
        failing: 9,
        wanted: Ok([3, 3, 10]),
        objects: OVERWRITTEN,
        stand: 3,
    },
];

#[test]
fn writes_each_cell(rt: HostRuntime) -> Result<(), Fail> {
    let scale = plain_scale(&rt, SIZE, CHUNK);
    check_rows(&rt, rt.alloc(), &scale, CELLS)
}

const EACH: &[(&[u8], &[u8])] = &[
    (LEFT, &[1, 2, 6, 7]),
    (MIDDLE, &[3, 4, 8, 9]),
    (RIGHT, &[5, 10]),
];

#[test]
fn leaves_a_front_at_each_failing_call(rt: HostRuntime) -> Result<(), Fail> {
    let scale = plain_scale(&rt, SIZE, CHUNK);
    for call in 0..9 {
        let row = Row {
            writes: &[ALL],
            failing: call,
            wanted: FAULT,
            objects: EACH,
            stand: call / 3,
        };
        check_row(&rt, rt.alloc(), &scale, &row)?;
    }
    Ok(())
}

// The number of the call that fails, the counts or the fault, and how many objects stand.
type Failing = (u64, Result<[u64; 3], WriteFault>, u64);

// The same writes and objects where one call or another fails.
fn check_failing<'a, R: Threads + Wait + Abort + Sync>(
    rt: &R,
    alloc: Global,
    scale: &Scale,
    writes: &'a [(Box3, &'a [u8])],
    objects: &'a [(&'a [u8], &'a [u8])],
    calls: &[Failing],
) -> Result<(), Fail> {
    for (failing, wanted, stand) in calls {
        let row = Row {
            writes,
            failing: *failing,
            wanted: *wanted,
            objects,
            stand: *stand,
        };
        check_row(rt, alloc, scale, &row)?;
    }
    Ok(())
}

const SOME_OF_300: &[(&[u8], &[u8])] = &[
    (b"d/s/0-1_0-1_0-1", &[1]),
    (b"d/s/256-257_0-1_0-1", &[2]),
    (b"d/s/299-300_0-1_0-1", &[3]),
];

const CALLS_OF_300: &[Failing] = &[
    (900, Ok([300, 300, 300]), 3),
    (899, FAULT, 2),
    (771, FAULT, 2),
    (770, FAULT, 1),
];

#[test]
fn writes_a_second_window(rt: HostRuntime) -> Result<(), Fail> {
    let alloc = rt.alloc();
    // One voxel a cell, and more cells than are prepared at once.
    let scale = plain_scale(&rt, [300, 1, 1], [1; 3]);
    let mut values = vec![in alloc; 1; 300]?;
    values[256] = 2;
    values[299] = 3;
    let all = (part([0; 3], [300, 1, 1]), values.as_slice());
    check_failing(&rt, alloc, &scale, &[all], SOME_OF_300, CALLS_OF_300)
}

// The scale with its chunks in shards, by the plain bits of their ids.
fn in_shards(rt: &impl Abort, scale: &Scale, minishard_bits: u32, shard_bits: u32) -> Scale
    requires minishards { minishard_bits ≤ 24 }
    requires shards { shard_bits ≤ 40 }
{
    assert!(rt; grid(scale).bits() <= 64);
    Scale {
        key: scale.key.duplicate(),
        width: scale.width,
        channels: scale.channels,
        size: scale.size,
        offset: scale.offset,
        chunk: scale.chunk,
        encoding: scale.encoding,
        sharding: Some(Sharding {
            preshift: 0,
            hash: HashKind::Identity,
            minishard_bits,
            shard_bits,
        }),
        more: ChunkSizes::none(),
    }
}

// Four cells of a voxel each.
const ROW: [u64; 3] = [4, 1, 1];

const ZERO: &[u8] = b"d/s/0.shard";

const ONE: &[u8] = b"d/s/1.shard";

// Two minishards with one chunk each: entries, and each chunk before its index.
const LOW: [u8; 82] = [
    1, 0, 0, 0, 0, 0, 0, 0, 25, 0, 0, 0, 0, 0, 0, 0, // entries
    26, 0, 0, 0, 0, 0, 0, 0, 50, 0, 0, 0, 0, 0, 0, 0, //
    10, 0, 0, 0, 0, 0, 0, 0, 0, 0, 0, 0, 0, 0, 0, 0, 0, 1, 0, 0, 0, 0, 0, 0, 0, // chunk 0
    11, 1, 0, 0, 0, 0, 0, 0, 0, 25, 0, 0, 0, 0, 0, 0, 0, 1, 0, 0, 0, 0, 0, 0, 0, // chunk 1
];

const HIGH: [u8; 82] = [
    1, 0, 0, 0, 0, 0, 0, 0, 25, 0, 0, 0, 0, 0, 0, 0, // entries
    26, 0, 0, 0, 0, 0, 0, 0, 50, 0, 0, 0, 0, 0, 0, 0, //
    12, 2, 0, 0, 0, 0, 0, 0, 0, 0, 0, 0, 0, 0, 0, 0, 0, 1, 0, 0, 0, 0, 0, 0, 0, // chunk 2
    13, 3, 0, 0, 0, 0, 0, 0, 0, 25, 0, 0, 0, 0, 0, 0, 0, 1, 0, 0, 0, 0, 0, 0, 0, // chunk 3
];

// The first minishard is empty.
const LAST: [u8; 57] = [
    0, 0, 0, 0, 0, 0, 0, 0, 0, 0, 0, 0, 0, 0, 0, 0, // entries
    1, 0, 0, 0, 0, 0, 0, 0, 25, 0, 0, 0, 0, 0, 0, 0, //
    13, 3, 0, 0, 0, 0, 0, 0, 0, 0, 0, 0, 0, 0, 0, 0, 0, 1, 0, 0, 0, 0, 0, 0, 0, // chunk 3
];

// Two minishards with two chunks each.
const BOTH: [u8; 132] = [
    2, 0, 0, 0, 0, 0, 0, 0, 50, 0, 0, 0, 0, 0, 0, 0, // entries
    52, 0, 0, 0, 0, 0, 0, 0, 100, 0, 0, 0, 0, 0, 0, 0, //
    10, 12, // chunks 0 and 2
    0, 0, 0, 0, 0, 0, 0, 0, 2, 0, 0, 0, 0, 0, 0, 0, // ids
    0, 0, 0, 0, 0, 0, 0, 0, 0, 0, 0, 0, 0, 0, 0, 0, // starts
    1, 0, 0, 0, 0, 0, 0, 0, 1, 0, 0, 0, 0, 0, 0, 0, // sizes
    11, 13, // chunks 1 and 3
    1, 0, 0, 0, 0, 0, 0, 0, 2, 0, 0, 0, 0, 0, 0, 0, // ids
    50, 0, 0, 0, 0, 0, 0, 0, 0, 0, 0, 0, 0, 0, 0, 0, // starts
    1, 0, 0, 0, 0, 0, 0, 0, 1, 0, 0, 0, 0, 0, 0, 0, // sizes
];

const ALL_FOUR: (Box3, &[u8]) = (
    Box3 {
        begin: [0; 3],
        size: ROW,
    },
    &[10, 11, 12, 13],
);

const LAST_OF_FOUR: (Box3, &[u8]) = (
    Box3 {
        begin: [3, 0, 0],
        size: [1; 3],
    },
    &[13],
);

const TWO_SHARDS: &[(&[u8], &[u8])] = &[(ZERO, &LOW), (ONE, &HIGH)];

const ROWS_OF_TWO: &[Row<'static>] = &[
    Row {
        writes: &[LAST_OF_FOUR, ALL_FOUR],
        failing: 26,
        wanted: Ok([2, 4, 164]),
        objects: TWO_SHARDS,
        stand: 2,
    },
    Row {
        writes: &[LAST_OF_FOUR],
        failing: 8,
        wanted: Ok([1, 1, 57]),
        objects: &[(ONE, &LAST), (ZERO, &[])],
        stand: 1,
    },
    Row {
        writes: &[],
        failing: 0,
        wanted: Ok([0, 0, 0]),
        objects: TWO_SHARDS,
        stand: 0,
    },
];

const ROW_OF_ONE: Row<'static> = Row {
    writes: &[ALL_FOUR],
    failing: 15,
    wanted: Ok([1, 4, 132]),
    objects: &[(ZERO, &BOTH)],
    stand: 1,
};

#[test]
fn writes_each_shard(rt: HostRuntime) -> Result<(), Fail> {
    let plain = plain_scale(&rt, ROW, [1; 3]);
    let two = in_shards(&rt, &plain, 1, 1);
    check_rows(&rt, rt.alloc(), &two, ROWS_OF_TWO)?;
    let single = in_shards(&rt, &plain, 1, 0);
    check_row(&rt, rt.alloc(), &single, &ROW_OF_ONE)
}

// Two rows of five voxels in cells of two by two; the last cell has one voxel of each row.
const CLIPPED: [u8; 114] = [
    6, 0, 0, 0, 0, 0, 0, 0, 54, 0, 0, 0, 0, 0, 0, 0, // entries
    58, 0, 0, 0, 0, 0, 0, 0, 82, 0, 0, 0, 0, 0, 0, 0, //
    1, 2, 6, 7, 5, 10, // chunks 0 and 2
    0, 0, 0, 0, 0, 0, 0, 0, 2, 0, 0, 0, 0, 0, 0, 0, // ids
    0, 0, 0, 0, 0, 0, 0, 0, 0, 0, 0, 0, 0, 0, 0, 0, // starts
    4, 0, 0, 0, 0, 0, 0, 0, 2, 0, 0, 0, 0, 0, 0, 0, // sizes
    3, 4, 8, 9, // chunk 1
    1, 0, 0, 0, 0, 0, 0, 0, 54, 0, 0, 0, 0, 0, 0, 0, 4, 0, 0, 0, 0, 0, 0, 0, // its row
];

const CLIPPED_ROW: Row<'static> = Row {
    writes: &[ALL],
    failing: 14,
    wanted: Ok([1, 3, 114]),
    objects: &[(ZERO, &CLIPPED)],
    stand: 1,
};

#[test]
fn writes_chunks_of_unequal_lengths(rt: HostRuntime) -> Result<(), Fail> {
    let plain = plain_scale(&rt, SIZE, CHUNK);
    let single = in_shards(&rt, &plain, 1, 0);
    check_row(&rt, rt.alloc(), &single, &CLIPPED_ROW)
}

#[test]
fn leaves_whole_shards_at_each_failing_call(rt: HostRuntime) -> Result<(), Fail> {
    let plain = plain_scale(&rt, ROW, [1; 3]);
    let two = in_shards(&rt, &plain, 1, 1);
    for call in 0..26 {
        let row = Row {
            writes: &[ALL_FOUR],
            failing: call,
            wanted: FAULT,
            objects: TWO_SHARDS,
            stand: call / 13,
        };
        check_row(&rt, rt.alloc(), &two, &row)?;
    }
    Ok(())
}

// A shard of one minishard, whose so many chunks of one size have the ids 0, 1, 2, ..
fn print_shard(
    alloc: Global,
    chunks: &[u8],
    count: usize,
    size: u64,
) -> Result<Vec<u8>, AllocError> {
    let mut bytes = Vec::new(alloc);
    let end = chunks.len().wrapping_add(count.wrapping_mul(24));
    bytes.extend_from_slice(&chunks.len().to_le_bytes())?;
    bytes.extend_from_slice(&end.to_le_bytes())?;
    bytes.extend_from_slice(chunks)?;
    for (number, others) in [(0, 1), (0, 0), (size, size)] {
        for row in 0..count {
            let stored = if row == 0 { number } else { others };
            bytes.extend_from_slice(&stored.to_le_bytes())?;
        }
    }
    Ok(bytes)
}

const CALLS_OF_600: &[Failing] = &[
    (607, Ok([1, 600, 15_016]), 1),
    (606, FAULT, 0),
    (258, FAULT, 0),
];

#[test]
fn writes_a_minishard_over_windows(rt: HostRuntime) -> Result<(), Fail> {
    let alloc = rt.alloc();
    // More cells in one minishard than are prepared at once.
    let plain = plain_scale(&rt, [600, 1, 1], [1; 3]);
    let single = in_shards(&rt, &plain, 0, 0);
    let mut values = vec![in alloc; 1; 600]?;
    values[255] = 2;
    values[256] = 3;
    values[599] = 4;
    let shard = print_shard(alloc, &values, 600, 1)?;
    let all = (part([0; 3], [600, 1, 1]), values.as_slice());
    let one = [(ZERO, shard.as_slice())];
    check_failing(&rt, alloc, &single, &[all], &one, CALLS_OF_600)
}

// A segmentation of 3 by 2 voxels in cells of 2 by 2, each in one block; the second cell is narrower.
fn in_blocks(key: Name) -> Scale
    requires { length key ≤ 200 }
{
    Scale {
        key,
        width: 4,
        channels: 1,
        size: [3, 2, 1],
        offset: [0, 0, 0],
        chunk: [2, 2, 1],
        encoding: Encoding::Seg { block: [2, 2, 1] },
        sharding: None,
        more: ChunkSizes::none(),
    }
}

// Its values: 7 9 5 and 7 300 5.
const LABELS: [u8; 24] = [
    7, 0, 0, 0, 9, 0, 0, 0, 5, 0, 0, 0, //
    7, 0, 0, 0, 44, 1, 0, 0, 5, 0, 0, 0,
];

// Three labels: the channel's start, the header (two bits, table at 3, indices at 2), the indices 0 1 0 2,
// and the table.
const THREE_LABELS: [u8; 28] = [
    1, 0, 0, 0, 3, 0, 0, 2, 2, 0, 0, 0, 132, 0, 0, 0, 7, 0, 0, 0, 9, 0, 0, 0, 44, 1, 0, 0,
];

// One label, whose indices take no bits.
const ONE_LABEL: [u8; 16] = [1, 0, 0, 0, 2, 0, 0, 0, 2, 0, 0, 0, 5, 0, 0, 0];

// Both in one shard.
const LABELLED: [u8; 108] = [
    44, 0, 0, 0, 0, 0, 0, 0, 92, 0, 0, 0, 0, 0, 0, 0, // the entry
    1, 0, 0, 0, 3, 0, 0, 2, 2, 0, 0, 0, 132, 0, 0, 0, // chunk 0
    7, 0, 0, 0, 9, 0, 0, 0, 44, 1, 0, 0, //
    1, 0, 0, 0, 2, 0, 0, 0, 2, 0, 0, 0, 5, 0, 0, 0, // chunk 1
    0, 0, 0, 0, 0, 0, 0, 0, 1, 0, 0, 0, 0, 0, 0, 0, // ids
    0, 0, 0, 0, 0, 0, 0, 0, 0, 0, 0, 0, 0, 0, 0, 0, // starts
    28, 0, 0, 0, 0, 0, 0, 0, 16, 0, 0, 0, 0, 0, 0, 0, // sizes
];

const ALL_LABELS: (Box3, &[u8]) = (
    Box3 {
        begin: [0; 3],
        size: [3, 2, 1],
    },
    &LABELS,
);

const OWN_BLOCKS: &[(&[u8], &[u8])] = &[(LEFT, &THREE_LABELS), (b"d/s/2-3_0-2_0-1", &ONE_LABEL)];

const CALLS_OF_OWN: &[Failing] = &[(6, Ok([2, 2, 44]), 2), (5, FAULT, 1)];

const CALLS_OF_SHARD: &[Failing] = &[(9, Ok([1, 2, 108]), 1), (8, FAULT, 0)];

#[test]
fn writes_segmentations(rt: HostRuntime) -> Result<(), Fail> {
    let alloc = rt.alloc();
    let scale = in_blocks(short_name(b"s").expect(&rt, "a key"));
    check_failing(&rt, alloc, &scale, &[ALL_LABELS], OWN_BLOCKS, CALLS_OF_OWN)?;
    let single = in_shards(&rt, &scale, 0, 0);
    check_failing(
        &rt,
        alloc,
        &single,
        &[ALL_LABELS],
        &[(ZERO, &LABELLED)],
        CALLS_OF_SHARD,
    )
}

// A segmentation of 300 voxels in cells of one voxel each.
fn in_single_blocks(key: Name) -> Scale
    requires { length key ≤ 200 }
{
    Scale {
        key,
        width: 4,
        channels: 1,
        size: [300, 1, 1],
        offset: [0, 0, 0],
        chunk: [1, 1, 1],
        encoding: Encoding::Seg { block: [1, 1, 1] },
        sharding: None,
        more: ChunkSizes::none(),
    }
}

// The chunk of one label.
fn one_label(label: u32) -> [u8; 16] {
    let mut bytes = ONE_LABEL;
    bytes[12..].copy_from_slice(&label.to_le_bytes());
    bytes
}

// The labels from 0 to 299.
fn print_labels(alloc: Global) -> Result<Vec<u8>, AllocError> {
    let mut values = Vec::new(alloc);
    for label in 0..300u32 {
        values.extend_from_slice(&label.to_le_bytes())?;
    }
    Ok(values)
}

// Their chunks in one shard.
fn print_labelled_shard(alloc: Global) -> Result<Vec<u8>, AllocError> {
    let mut chunks = Vec::new(alloc);
    for label in 0..300u32 {
        chunks.extend_from_slice(&one_label(label))?;
    }
    print_shard(alloc, &chunks, 300, 16)
}

const OWN_LABELS: &[Failing] = &[(900, Ok([300, 300, 4_800]), 3)];

const SHARD_OF_LABELS: &[Failing] = &[(900, Ok([1, 300, 12_016]), 1)];

// Writes the labels into a scale of more cells than are prepared at once, and into one shard.
fn check_labels<R: Threads + Wait + Abort + Sync>(
    rt: &R,
    alloc: Global,
    values: &[u8],
    shard: &[u8],
) -> Result<(), Fail> {
    let plain = in_single_blocks(short_name(b"s").expect(rt, "a key"));
    let all = (part([0; 3], [300, 1, 1]), &*values);
    let (first, middle, last) = (one_label(0), one_label(256), one_label(299));
    let some = [
        (b"d/s/0-1_0-1_0-1".as_slice(), first.as_slice()),
        (b"d/s/256-257_0-1_0-1".as_slice(), middle.as_slice()),
        (b"d/s/299-300_0-1_0-1".as_slice(), last.as_slice()),
    ];
    check_failing(rt, alloc, &plain, &[all], &some, OWN_LABELS)?;
    let single = in_shards(rt, &plain, 0, 0);
    check_failing(
        rt,
        alloc,
        &single,
        &[all],
        &[(ZERO, &*shard)],
        SHARD_OF_LABELS,
    )
}

#[test]
fn writes_segmentations_over_windows(rt: HostRuntime) -> Result<(), Fail> {
    let alloc = rt.alloc();
    let values = print_labels(alloc)?;
    let shard = print_labelled_shard(alloc)?;
    check_labels(&rt, alloc, &values, &shard)
}

// Both moments of a job were told with one seat, and its object has this value.
fn check_job(
    rt: &impl Abort,
    gate: &HoldingGate,
    store: &MemoryStore,
    job: u64,
    text: &[u8],
    value: u8,
) {
    let seat = gate.claimed(job).expect(rt, "a claim");
    assert!(rt; gate.deposited(job) == Some(seat));
    let name = short_name(text).expect(rt, "a name");
    assert!(rt; store.get(&name) == Some([value].as_slice()));
}

// One seat was held while another deposited job 1; and the objects are those of one worker.
fn check_jobs(rt: &impl Abort, gate: &HoldingGate, store: &MemoryStore) {
    assert!(rt; gate.was_passed());
    assert!(rt; gate.claimed(0) != gate.claimed(1));
    check_job(rt, gate, store, 0, b"d/s/0-1_0-1_0-1", 1);
    check_job(rt, gate, store, 1, b"d/s/1-2_0-1_0-1", 2);
    check_job(rt, gate, store, 2, b"d/s/2-3_0-1_0-1", 3);
}

// While one seat is held with job 0, another deposits job 1.
#[test]
fn two_workers(rt: HostRuntime) -> Result<(), Fail> {
    let alloc = rt.alloc();
    let scale = plain_scale(&rt, [3, 1, 1], [1; 3]);
    let all = (part([0; 3], [3, 1, 1]), [1, 2, 3].as_slice());
    let mut store = MemoryStore::new(alloc, Vec::new(alloc));
    let gate = HoldingGate::new();
    let answer = write_by(&rt, alloc, &mut store, &scale, &[all], 2, &gate)?;
    assert_eq!(rt; answer, written(Ok([3, 3, 3])));
    check_jobs(&rt, &gate, &store);
    Ok(())
}
