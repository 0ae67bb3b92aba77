//! The command over small stores. What each copy answers was worked out by hand.

use super::SHARD;
use crate::answers::{Outlets, check_answer, outlets_of};
use command_base::{Crew, Status};
use memory_rows::{has_all, has_none, name_of, store_of};
use reshard_cmd::run_reshard;
use std::alloc::Global;
use std::process::Abort;
use std::sync::Wait;
use std::test::Fail;
use std::thread::Threads;
use vol_base::{FreeGate, MemoryStore};

// Two voxels, each a chunk.
const SOURCE: &[u8] =
    b"{\"type\":\"image\",\"data_type\":\"uint32\",\"num_channels\":1,\"scales\":[{\"key\":\"s\",\"size\":[2,1,1],\"chunk_sizes\":[[1,1,1]],\"resolution\":[8,8,40],\"encoding\":\"raw\"}]}";

// The same as a segmentation in a shard.
const TARGET: &[u8] =
    b"{\"type\":\"segmentation\",\"data_type\":\"uint32\",\"num_channels\":1,\"scales\":[{\"key\":\"s\",\"size\":[2,1,1],\"chunk_sizes\":[[1,1,1]],\"resolution\":[8,8,40],\"encoding\":\"compressed_segmentation\",\"compressed_segmentation_block_size\":[1,1,1],\"sharding\":{\"@type\":\"neuroglancer_uint64_sharded_v1\",\"preshift_bits\":0,\"hash\":\"identity\",\"minishard_bits\":0,\"shard_bits\":0}}]}";

// A voxel more; and as many cells as no grid may have.
const LONGER: &[u8] =
    b"{\"type\":\"image\",\"data_type\":\"uint32\",\"num_channels\":1,\"scales\":[{\"key\":\"s\",\"size\":[3,1,1],\"chunk_sizes\":[[1,1,1]],\"resolution\":[8,8,40],\"encoding\":\"raw\"}]}";

const MANY: &[u8] =
    b"{\"type\":\"image\",\"data_type\":\"uint32\",\"num_channels\":1,\"scales\":[{\"key\":\"s\",\"size\":[4194305,1,1],\"chunk_sizes\":[[1,1,1]],\"resolution\":[8,8,40],\"encoding\":\"raw\"}]}";

// Several chunk sizes: the second passes the writing limit; three voxels; and two, as in the source.
const WIDE: &[u8] =
    b"{\"type\":\"segmentation\",\"data_type\":\"uint32\",\"num_channels\":1,\"scales\":[{\"key\":\"s\",\"size\":[4194305,1,1],\"chunk_sizes\":[[64,1,1],[4194305,1,1]],\"resolution\":[8,8,40],\"encoding\":\"compressed_segmentation\",\"compressed_segmentation_block_size\":[1,1,1]}]}";

const SIZES: &[u8] =
    b"{\"type\":\"image\",\"data_type\":\"uint32\",\"num_channels\":1,\"scales\":[{\"key\":\"s\",\"size\":[3,1,1],\"chunk_sizes\":[[1,1,1],[3,1,1]],\"resolution\":[8,8,40],\"encoding\":\"raw\"}]}";

const TWICE: &[u8] =
    b"{\"type\":\"image\",\"data_type\":\"uint32\",\"num_channels\":1,\"scales\":[{\"key\":\"s\",\"size\":[2,1,1],\"chunk_sizes\":[[1,1,1],[2,1,1]],\"resolution\":[8,8,40],\"encoding\":\"raw\"}]}";

// The data sets with their documents, and what is stored: the first voxel is 7, and the second isn't there. The second
// chunk size of a source says otherwise, and isn't read.
const OBJECTS: &[(&str, &[u8])] = &[
    ("d/info", SOURCE),
    ("e/info", TARGET),
    ("f/info", LONGER),
    ("g/info", MANY),
    ("h/info", WIDE),
    ("k/info", SOURCE),
    ("l/info", SIZES),
    ("m/info", TWICE),
    ("d/s/0-1_0-1_0-1", &[7, 0, 0, 0]),
    ("k/s/1-2_0-1_0-1", &[7, 0, 0]),
    ("m/s/0-1_0-1_0-1", &[7, 0, 0, 0]),
    ("m/s/0-2_0-1_0-1", &[9, 0, 0, 0, 9, 0, 0, 0]),
];

// The only object that a copy puts: a shard with an entry, a chunk and an index of one row.
const PUT: &[(&str, &[u8])] = &[("e/s/0.shard", SHARD)];

// A copy from a key of a data set into another; the numbers of the calls of the store and the output that fail; then the
// status, and what is printed and told.
#[derive(Clone, Copy)]
struct Row<'a> {
    from: (&'a str, &'a str),
    to: (&'a str, &'a str),
    store: &'a [u64],
    out: &'a [u64],
    status: u8,
    line: &'a str,
    told: &'a str,
}

const MADE: Row = Row {
    from: ("d", "s"),
    to: ("e", "s"),
    store: &[],
    out: &[],
    status: 0,
    line: "objects 1 cells 1\n",
    told: "",
};

const REFUSED: Row = Row {
    status: 3,
    line: "",
    ..MADE
};

const WITHOUT_SCALE: &[Row] = &[
    Row {
        from: ("x", "s"),
        status: 2,
        told: "info of x: absent\n",
        ..REFUSED
    },
    Row {
        to: ("x", "s"),
        status: 2,
        told: "info of x: absent\n",
        ..REFUSED
    },
    Row {
        to: ("e", "t"),
        status: 2,
        told: "info of e: scale absent\n",
        ..REFUSED
    },
];

const REQUESTS: &[Row] = &[
    Row {
        to: ("h", "s"),
        told: "padded voxels 4194305 over 4194304\n",
        ..REFUSED
    },
    Row {
        to: ("l", "s"),
        told: "several chunk sizes\n",
        ..REFUSED
    },
    Row {
        to: ("f", "s"),
        told: "differs size\n",
        ..REFUSED
    },
    Row {
        from: ("g", "s"),
        to: ("g", "s"),
        told: "too many cells 4194305\n",
        ..REFUSED
    },
    Row {
        to: ("k", "s"),
        told: "folder not empty\n",
        ..REFUSED
    },
];

const DAMAGED: &[Row] = &[Row {
    from: ("k", "s"),
    status: 4,
    told: "damaged 1,0,0: chunk length 3 wanted 4\n",
    ..REFUSED
}];

const STORED: &[Row] = &[
    MADE,
    Row {
        from: ("m", "s"),
        ..MADE
    },
    Row {
        out: &[0],
        status: 7,
        line: "",
        told: "output fault\n",
        ..MADE
    },
];

// The status of a copy by two workers.
fn copy<R: Threads + Wait + Sync>(
    rt: &R,
    alloc: Global,
    store: &mut MemoryStore,
    outlets: &mut Outlets,
    row: &Row,
) -> Result<Status, Fail> {
    let dataset = name_of(row.from.0)?;
    let key = name_of(row.from.1)?;
    let to_dataset = name_of(row.to.0)?;
    let to_key = name_of(row.to.1)?;
    let crew = Crew::of(rt, alloc, 2, &FreeGate);
    Ok(run_reshard(
        &crew,
        store,
        &mut outlets.out,
        &mut outlets.err,
        &dataset,
        &key,
        &to_dataset,
        &to_key,
    ))
}

// Copying answers what the row says, and all else stays; the store that the copy leaves.
fn check<R: Threads + Wait + Abort + Sync>(
    rt: &R,
    alloc: Global,
    row: &Row,
) -> Result<MemoryStore, Fail> {
    let mut store = store_of(alloc, OBJECTS, row.store)?;
    let mut outlets = outlets_of(alloc, row.out)?;
    let status = copy(rt, alloc, &mut store, &mut outlets, row)?;
    check_answer(rt, status, &outlets, row.status, [row.line, row.told]);
    assert!(rt; has_all(&store, OBJECTS));
    Ok(store)
}

// None of these copies puts an object.
fn check_refused<R: Threads + Wait + Abort + Sync>(
    rt: &R,
    alloc: Global,
    rows: &[Row],
) -> Result<(), Fail> {
    for row in rows {
        let store = check(rt, alloc, row)?;
        assert!(rt;
            has_none(&store, PUT),
            "stored, where is told: {}",
            row.told
        );
    }
    Ok(())
}

// Each of these copies stands.
fn check_stored<R: Threads + Wait + Abort + Sync>(
    rt: &R,
    alloc: Global,
    rows: &[Row],
) -> Result<(), Fail> {
    for row in rows {
        let store = check(rt, alloc, row)?;
        assert!(rt;
            has_all(&store, PUT),
            "not stored, where is told: {}",
            row.told
        );
    }
    Ok(())
}

#[test]
fn refuses_copies(rt: HostRuntime) -> Result<(), Fail> {
    check_refused(&rt, rt.alloc(), WITHOUT_SCALE)?;
    check_refused(&rt, rt.alloc(), REQUESTS)?;
    check_refused(&rt, rt.alloc(), DAMAGED)
}

#[test]
fn copies_scales(rt: HostRuntime) -> Result<(), Fail> {
    check_stored(&rt, rt.alloc(), STORED)
}

// A copy while a call of the store fails.
fn check_failing<R: Threads + Wait + Abort + Sync>(
    rt: &R,
    alloc: Global,
    call: u64,
) -> Result<(), Fail> {
    let row = Row {
        store: &[call],
        status: 5,
        told: "store fault\n",
        ..REFUSED
    };
    check_refused(rt, alloc, &[row])
}

const NO_FIFTEENTH: &[Row] = &[Row {
    store: &[14],
    ..MADE
}];

// Each call of the store that fails is told, and leaves no shard: the two documents, and those of the copy. No other comes.
#[test]
fn tells_each_failing_call(rt: HostRuntime) -> Result<(), Fail> {
    for call in 0..14 {
        check_failing(&rt, rt.alloc(), call)?;
    }
    check_stored(&rt, rt.alloc(), NO_FIFTEENTH)
}
