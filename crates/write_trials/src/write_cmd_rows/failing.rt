//! Writes of which one call fails, each in turn, by one worker and by two.

use super::{
    Answer, Case, FEED_FAULT, Faults, IN_CELLS, IN_PLANE, IN_VIEWS, Info, NO_FAULTS, PAIR,
    check_case, well,
};
use command_base::Status;
use std::alloc::Global;
use std::process::Abort;
use std::sync::Wait;
use std::test::Fail;
use std::thread::Threads;

// What a row answers whose store fails where so many objects stand.
fn store_fault(count: usize) -> Answer<'static> {
    Answer {
        status: Status::StoreFault,
        line: "store fault\n",
        count,
    }
}

// A call of the store fails; the feed and the outlets move so many bytes at a time.
fn check_store<R: Threads + Wait + Abort + Sync>(
    rt: &R,
    alloc: Global,
    case: &Case,
    workers: u32,
    piece: u8,
    call: u64,
    answer: &Answer,
) -> Result<(), Fail> {
    let faults = Faults {
        store: &[call],
        piece,
        ..NO_FAULTS
    };
    check_case(rt, alloc, case, workers, &faults, answer)
}

// Call k of the store fails for each k, where so many objects stand, and then one that comes no more.
fn check_stores<R: Threads + Wait + Abort + Sync>(
    rt: &R,
    alloc: Global,
    case: &Case,
    workers: u32,
    piece: u8,
    counts: &[usize],
) -> Result<(), Fail> {
    let mut call = 0u64;
    for count in counts {
        let answer = store_fault(*count);
        check_store(rt, alloc, case, workers, piece, call, &answer)?;
        call = call.saturating_add(1);
    }
    check_store(rt, alloc, case, workers, piece, call, &well(case))
}

/// Each call of the store fails in turn, by one worker and by two: how many objects stand at each.
pub(super) fn check_both_crews<R: Threads + Wait + Abort + Sync>(
    rt: &R,
    alloc: Global,
    case: &Case,
    piece: u8,
    counts: &[usize],
) -> Result<(), Fail> {
    check_stores(rt, alloc, case, 1, piece, counts)?;
    check_stores(rt, alloc, case, 2, piece, counts)
}

// The document is read, the folder is looked at, and each object is begun, appended to and finished.
const STORE_FAULTS: &[usize] = &[0, 0, 0, 0, 0, 1, 1, 1, 2, 2, 2];

#[test]
fn leaves_the_first_objects(rt: HostRuntime) -> Result<(), Fail> {
    check_both_crews(&rt, rt.alloc(), &IN_CELLS, 255, STORE_FAULTS)?;
    check_both_crews(&rt, rt.alloc(), &IN_VIEWS, 255, STORE_FAULTS)
}

// A call of the feed fails, which gives at most seven bytes.
fn check_feed<R: Threads + Wait + Abort + Sync>(
    rt: &R,
    alloc: Global,
    case: &Case,
    workers: u32,
    call: u64,
    answer: &Answer,
) -> Result<(), Fail> {
    let faults = Faults {
        feed: &[call],
        piece: 7,
        ..NO_FAULTS
    };
    check_case(rt, alloc, case, workers, &faults, answer)
}

// The stream's head takes two calls, that of the write seven, the values one, and the end one.
fn check_feeds<R: Threads + Wait + Abort + Sync>(
    rt: &R,
    alloc: Global,
    case: &Case,
    workers: u32,
) -> Result<(), Fail> {
    for call in 0..11 {
        check_feed(rt, alloc, case, workers, call, &FEED_FAULT)?;
    }
    check_feed(rt, alloc, case, workers, 11, &well(case))
}

#[test]
fn stores_nothing_of_a_stream_that_fails(rt: HostRuntime) -> Result<(), Fail> {
    check_feeds(&rt, rt.alloc(), &IN_CELLS, 1)?;
    check_feeds(&rt, rt.alloc(), &IN_CELLS, 2)
}

// As many calls as where three cells are written.
#[test]
fn stores_no_plane_of_a_stream_that_fails(rt: HostRuntime) -> Result<(), Fail> {
    check_feeds(&rt, rt.alloc(), &IN_PLANE, 1)?;
    check_feeds(&rt, rt.alloc(), &IN_PLANE, 2)
}

// Two voxels, each a cell, in two minishards of one shard.
const TWO_MINISHARDS: &str =
    "{\"type\":\"image\",\"data_type\":\"uint8\",\"num_channels\":1,\"scales\":[{\"key\":\"s\",\"size\":[2,1,1],\"chunk_sizes\":[[1,1,1]],\"resolution\":[8,8,40],\"encoding\":\"raw\",\"sharding\":{\"@type\":\"neuroglancer_uint64_sharded_v1\",\"preshift_bits\":0,\"hash\":\"identity\",\"minishard_bits\":1,\"shard_bits\":0}}]}";

// The entries, the first chunk and its index, and the second ones.
const TWO_INDEXES: &[u8] = &[
    1, 0, 0, 0, 0, 0, 0, 0, 25, 0, 0, 0, 0, 0, 0, 0, 26, 0, 0, 0, 0, 0, 0, 0, 50, 0, 0, 0, 0, 0, 0,
    0, 10, 0, 0, 0, 0, 0, 0, 0, 0, 0, 0, 0, 0, 0, 0, 0, 0, 1, 0, 0, 0, 0, 0, 0, 0, 11, 1, 0, 0, 0,
    0, 0, 0, 0, 25, 0, 0, 0, 0, 0, 0, 0, 1, 0, 0, 0, 0, 0, 0, 0,
];

const IN_MINISHARDS: Case = Case {
    info: Info::Whole(TWO_MINISHARDS),
    writes: &[PAIR],
    line: "objects 1 cells 2\n",
    objects: &[("d/s/0.shard", TWO_INDEXES)],
};

// The calls are the document, the folder, begin, the zeros, of each minishard its chunk, three columns and the entry,
// and finish.
const SHARD_FAULTS: &[usize] = &[0; 15];

#[test]
fn puts_no_half_shard(rt: HostRuntime) -> Result<(), Fail> {
    check_both_crews(&rt, rt.alloc(), &IN_MINISHARDS, 255, SHARD_FAULTS)
}
