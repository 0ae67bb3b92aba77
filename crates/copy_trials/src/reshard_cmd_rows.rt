//! A small copy, worked out by hand.
ghost use Rattle.std.specs.Prelude.{◌≤◌, length};

mod commands;
mod failing;

use command_base::Crew;
use memory_rows::{name_of, store_of};
use reshard_cmd::{ReshardFault, reshard};
use shard_writer::Written;
use small_scales::raw_scale;
use std::alloc::Global;
use std::process::Abort;
use std::sync::Wait;
use std::test::Fail;
use std::thread::Threads;
use vol_base::{FreeGate, MemoryStore, Name};
use vol_spec::{ChunkSizes, Encoding, HashKind, Scale, Sharding};

// Two voxels of four bytes in a row, each in a cell of its own.
fn row_scale() -> Result<Scale, Fail> {
    let key = name_of("s")?;
    let scale = raw_scale(key, 4, 1, [2, 1, 1], [0; 3], [1; 3]).ok_or("no scale")?;
    Ok(scale)
}

// One shard of one minishard.
fn one_shard() -> Sharding {
    Sharding {
        preshift: 0,
        hash: HashKind::Identity,
        minishard_bits: 0,
        shard_bits: 0,
    }
}

// The same as a segmentation, in shards.
fn sharded_scale(key: Name, sharding: Sharding) -> Scale
    requires { length key ≤ 200 }
{
    Scale {
        key,
        width: 4,
        channels: 1,
        size: [2, 1, 1],
        offset: [0; 3],
        chunk: [1; 3],
        encoding: Encoding::Seg { block: [1; 3] },
        sharding: Some(sharding),
        more: ChunkSizes::none(),
    }
}

const FIRST: (&str, &[u8]) = ("d/s/0-1_0-1_0-1", &[7, 0, 0, 0]);

// The entry, the chunk of the first voxel, and the index.
const SHARD: &[u8] = &[
    16, 0, 0, 0, 0, 0, 0, 0, 40, 0, 0, 0, 0, 0, 0, 0, 1, 0, 0, 0, 2, 0, 0, 0, 2, 0, 0, 0, 7, 0, 0,
    0, 0, 0, 0, 0, 0, 0, 0, 0, 0, 0, 0, 0, 0, 0, 0, 0, 16, 0, 0, 0, 0, 0, 0, 0,
];

// What a copy answers.
type Copied = Result<Written, ReshardFault>;

const WRITTEN: Written = Written {
    objects: 1,
    cells: 1,
    bytes: 56,
};

// What a copy from the data set `d` into the data set `e` answers.
fn copy<R: Threads + Wait + Abort + Sync>(
    rt: &R,
    alloc: Global,
    store: &mut MemoryStore,
    from: &Scale,
    to: &Scale,
) -> Result<Copied, Fail> {
    let source = name_of("d")?;
    let target = name_of("e")?;
    assert!(rt; to.can_encode() && to.more.len() == 0);
    let crew = Crew::of(rt, alloc, 2, &FreeGate);
    Ok(reshard(&crew, store, &source, from, &target, to))
}

// A copy while calls of the store with some numbers fail answers this, and leaves this shard.
fn check<R: Threads + Wait + Abort + Sync>(
    rt: &R,
    alloc: Global,
    failing: &[u64],
    wanted: Copied,
    shard: Option<&[u8]>,
) -> Result<(), Fail> {
    let from = row_scale()?;
    let to = sharded_scale(name_of("s")?, one_shard());
    let mut store = store_of(alloc, &[FIRST], failing)?;
    let copied = copy(rt, alloc, &mut store, &from, &to)?;
    assert_eq!(rt; copied, wanted);
    let name = name_of("e/s/0.shard")?;
    assert_eq!(rt; store.get(&name), shard);
    Ok(())
}

#[test]
fn copies_into_a_shard(rt: HostRuntime) -> Result<(), Fail> {
    check(&rt, rt.alloc(), &[], Ok(WRITTEN), Some(SHARD))
}

// Each call that fails is told, and leaves no shard: the folder, two sizes and a read; and begin, the zeros, the chunk, three
// columns, the entry, and finish. No other comes.
#[test]
fn leaves_none_at_each_failing_call(rt: HostRuntime) -> Result<(), Fail> {
    let fault = ReshardFault::StoreFault;
    for call in 0..12 {
        check(&rt, rt.alloc(), &[call], Err(fault), None)?;
    }
    check(&rt, rt.alloc(), &[12], Ok(WRITTEN), Some(SHARD))
}
