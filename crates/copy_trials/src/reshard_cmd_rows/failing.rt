//! A copy into two shards, of which one call of the store fails, each in turn.

use crate::answers::outlets_of;
use command_base::{Crew, Status};
use memory_rows::{has_all, has_none, name_of, store_of};
use reshard_cmd::run_reshard;
use std::alloc::Global;
use std::process::Abort;
use std::sync::Wait;
use std::test::Fail;
use std::thread::Threads;
use vol_base::{FreeGate, MemoryStore};

// Two voxels, each a chunk; and the same in two shards.
const SOURCE: &[u8] =
    b"{\"type\":\"image\",\"data_type\":\"uint32\",\"num_channels\":1,\"scales\":[{\"key\":\"s\",\"size\":[2,1,1],\"chunk_sizes\":[[1,1,1]],\"resolution\":[8,8,40],\"encoding\":\"raw\"}]}";

const TARGET: &[u8] =
    b"{\"type\":\"image\",\"data_type\":\"uint32\",\"num_channels\":1,\"scales\":[{\"key\":\"s\",\"size\":[2,1,1],\"chunk_sizes\":[[1,1,1]],\"resolution\":[8,8,40],\"encoding\":\"raw\",\"sharding\":{\"@type\":\"neuroglancer_uint64_sharded_v1\",\"preshift_bits\":0,\"hash\":\"identity\",\"minishard_bits\":0,\"shard_bits\":1}}]}";

const OBJECTS: &[(&str, &[u8])] = &[
    ("d/info", SOURCE),
    ("e/info", TARGET),
    ("d/s/0-1_0-1_0-1", &[7, 0, 0, 0]),
    ("d/s/1-2_0-1_0-1", &[9, 0, 0, 0]),
];

// Each has an entry, a chunk and an index of one row.
const SHARDS: &[(&str, &[u8])] = &[
    (
        "e/s/0.shard",
        &[
            4, 0, 0, 0, 0, 0, 0, 0, 28, 0, 0, 0, 0, 0, 0, 0, 7, 0, 0, 0, 0, 0, 0, 0, 0, 0, 0, 0, 0,
            0, 0, 0, 0, 0, 0, 0, 4, 0, 0, 0, 0, 0, 0, 0,
        ],
    ),
    (
        "e/s/1.shard",
        &[
            4, 0, 0, 0, 0, 0, 0, 0, 28, 0, 0, 0, 0, 0, 0, 0, 9, 0, 0, 0, 1, 0, 0, 0, 0, 0, 0, 0, 0,
            0, 0, 0, 0, 0, 0, 0, 4, 0, 0, 0, 0, 0, 0, 0,
        ],
    ),
];

// A copy by so many workers.
fn copy<R: Threads + Wait + Sync>(
    rt: &R,
    alloc: Global,
    store: &mut MemoryStore,
    workers: u32,
) -> Result<Status, Fail> {
    let dataset = name_of("d")?;
    let key = name_of("s")?;
    let to_dataset = name_of("e")?;
    let mut outlets = outlets_of(alloc, &[])?;
    let crew = Crew::of(rt, alloc, workers, &FreeGate);
    Ok(run_reshard(
        &crew,
        store,
        &mut outlets.out,
        &mut outlets.err,
        &dataset,
        &key,
        &to_dataset,
        &key,
    ))
}

// So many of the shards stand behind a failing call, and all that stood before.
fn check_shards(rt: &impl Abort, store: &MemoryStore, count: usize, call: u64) {
    let (there, absent) = SHARDS.split_at(count.min(SHARDS.len()));
    let is_front = has_all(store, there) && has_none(store, absent);
    assert!(rt; is_front && has_all(store, OBJECTS), "call {call}");
}

// A copy while a call of the store fails.
fn check<R: Threads + Wait + Abort + Sync>(
    rt: &R,
    alloc: Global,
    workers: u32,
    call: u64,
    status: u8,
    count: usize,
) -> Result<(), Fail> {
    let mut store = store_of(alloc, OBJECTS, &[call])?;
    let found = copy(rt, alloc, &mut store, workers)?;
    assert_eq!(rt; found.number(), status, "call {call}");
    check_shards(rt, &store, count, call);
    Ok(())
}

// Each of some calls fails in turn.
fn check_calls<R: Threads + Wait + Abort + Sync>(
    rt: &R,
    alloc: Global,
    workers: u32,
    first: u64,
    end: u64,
    count: usize,
) -> Result<(), Fail> {
    for call in first..end {
        check(rt, alloc, workers, call, 5, count)?;
    }
    Ok(())
}

// The calls before a shard stands: the two documents, the folder, two sizes and two reads; and of each shard begin, the
// zeros, the chunk, three columns, the entry, and finish.
fn check_each<R: Threads + Wait + Abort + Sync>(
    rt: &R,
    alloc: Global,
    workers: u32,
) -> Result<(), Fail> {
    check_calls(rt, alloc, workers, 0, 15, 0)?;
    check_calls(rt, alloc, workers, 15, 23, 1)?;
    check(rt, alloc, workers, 23, 0, 2)
}

#[test]
fn leaves_the_first_shards(rt: HostRuntime) -> Result<(), Fail> {
    check_each(&rt, rt.alloc(), 1)?;
    check_each(&rt, rt.alloc(), 2)
}

// The fronts of two documents, and of each chunk of the source its bytes and one more.
#[test]
fn asks_for_each_chunk_once(rt: HostRuntime) -> Result<(), Fail> {
    let alloc = rt.alloc();
    let mut store = store_of(alloc, OBJECTS, &[])?;
    let found = copy(&rt, alloc, &mut store, 1)?;
    assert_eq!(rt; found.number(), 0);
    assert!(rt; has_all(&store, SHARDS));
    assert_eq!(rt; store.asked(), 2 * 65_536 + 2 * 5);
    Ok(())
}
