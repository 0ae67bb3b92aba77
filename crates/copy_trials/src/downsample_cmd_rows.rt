//! The command over small stores. What each reduction answers was worked out by hand.

mod crew;

use crate::answers::{Outlets, check_answer, outlets_of};
use command_base::{Crew, Status};
use downsample_cmd::run_downsample;
use memory_rows::{has_all, has_none, name_of, store_of};
use reduce_laws::Method;
use std::alloc::Global;
use std::process::Abort;
use std::sync::Wait;
use std::test::Fail;
use std::thread::Threads;
use vol_base::{FreeGate, MemoryStore};

// A square of four voxels, and the next scale.
const SQUARE: &[u8] =
    b"{\"type\":\"image\",\"data_type\":\"uint8\",\"num_channels\":1,\"scales\":[{\"key\":\"s\",\"size\":[2,2,1],\"chunk_sizes\":[[2,2,1]],\"resolution\":[8,8,40],\"encoding\":\"raw\"},{\"key\":\"t\",\"size\":[1,1,1],\"chunk_sizes\":[[1,1,1]],\"resolution\":[16,16,80],\"encoding\":\"raw\"},{\"key\":\"u\",\"size\":[2,1,1],\"chunk_sizes\":[[2,1,1]],\"resolution\":[16,16,80],\"encoding\":\"raw\"},{\"key\":\"v\",\"size\":[1,1,1],\"voxel_offset\":[1,0,0],\"chunk_sizes\":[[1,1,1]],\"resolution\":[16,16,80],\"encoding\":\"raw\"}]}";

// A row of three voxels, and one of two.
const ROW_OF_THREE: &[u8] =
    b"{\"type\":\"image\",\"data_type\":\"uint8\",\"num_channels\":1,\"scales\":[{\"key\":\"s\",\"size\":[3,1,1],\"chunk_sizes\":[[3,1,1]],\"resolution\":[8,8,40],\"encoding\":\"raw\"},{\"key\":\"t\",\"size\":[2,1,1],\"chunk_sizes\":[[2,1,1]],\"resolution\":[16,16,80],\"encoding\":\"raw\"}]}";

// A row of two voxels of eight bytes, and one voxel.
const WIDE: &[u8] =
    b"{\"type\":\"image\",\"data_type\":\"uint64\",\"num_channels\":1,\"scales\":[{\"key\":\"s\",\"size\":[2,1,1],\"chunk_sizes\":[[2,1,1]],\"resolution\":[8,8,40],\"encoding\":\"raw\"},{\"key\":\"t\",\"size\":[1,1,1],\"chunk_sizes\":[[1,1,1]],\"resolution\":[16,16,80],\"encoding\":\"raw\"}]}";

// A row of four voxels of two channels, each a chunk, with an offset below 0; and one of two.
const CHANNELS: &[u8] =
    b"{\"type\":\"image\",\"data_type\":\"uint8\",\"num_channels\":2,\"scales\":[{\"key\":\"s\",\"size\":[4,1,1],\"voxel_offset\":[-6,0,0],\"chunk_sizes\":[[1,1,1]],\"resolution\":[8,8,40],\"encoding\":\"raw\"},{\"key\":\"t\",\"size\":[2,1,1],\"voxel_offset\":[-3,0,0],\"chunk_sizes\":[[1,1,1]],\"resolution\":[16,16,80],\"encoding\":\"raw\"}]}";

// Two scales of as many cells as no grid may have.
const MANY: &[u8] =
    b"{\"type\":\"image\",\"data_type\":\"uint8\",\"num_channels\":1,\"scales\":[{\"key\":\"s\",\"size\":[8388610,1,1],\"chunk_sizes\":[[2,1,1]],\"resolution\":[8,8,40],\"encoding\":\"raw\"},{\"key\":\"t\",\"size\":[4194305,1,1],\"chunk_sizes\":[[1,1,1]],\"resolution\":[16,16,80],\"encoding\":\"raw\"},{\"key\":\"u\",\"size\":[16777220,1,1],\"chunk_sizes\":[[16777220,1,1]],\"resolution\":[4,4,20],\"encoding\":\"raw\"}]}";

// A square of two chunk sizes, the next scale, and a scale of two voxels and two chunk sizes; and labels with a scale
// whose second chunk size passes the writing limit.
const SIZES: &[u8] =
    b"{\"type\":\"image\",\"data_type\":\"uint8\",\"num_channels\":1,\"scales\":[{\"key\":\"s\",\"size\":[2,2,1],\"chunk_sizes\":[[2,2,1],[1,1,1]],\"resolution\":[8,8,40],\"encoding\":\"raw\"},{\"key\":\"t\",\"size\":[1,1,1],\"chunk_sizes\":[[1,1,1]],\"resolution\":[16,16,80],\"encoding\":\"raw\"},{\"key\":\"u\",\"size\":[2,1,1],\"chunk_sizes\":[[1,1,1],[2,1,1]],\"resolution\":[16,16,80],\"encoding\":\"raw\"}]}";

const LABELS: &[u8] =
    b"{\"type\":\"segmentation\",\"data_type\":\"uint32\",\"num_channels\":1,\"scales\":[{\"key\":\"s\",\"size\":[2,1,1],\"chunk_sizes\":[[2,1,1]],\"resolution\":[8,8,40],\"encoding\":\"raw\"},{\"key\":\"t\",\"size\":[4194305,1,1],\"chunk_sizes\":[[64,1,1],[4194305,1,1]],\"resolution\":[16,16,80],\"encoding\":\"compressed_segmentation\",\"compressed_segmentation_block_size\":[1,1,1]}]}";

// The data sets with their documents, and what is stored. The second chunk size of a source says otherwise, and isn't
// read.
const OBJECTS: &[(&str, &[u8])] = &[
    ("d/info", SQUARE),
    ("d/s/0-2_0-2_0-1", &[1, 2, 2, 7]),
    ("e/info", ROW_OF_THREE),
    ("e/s/0-3_0-1_0-1", &[1, 2, 2]),
    ("f/info", WIDE),
    ("f/s/0-2_0-1_0-1", &[255; 16]),
    ("g/info", SQUARE),
    ("h/info", CHANNELS),
    ("h/s/-6--5_0-1_0-1", &[3, 9]),
    ("k/info", SQUARE),
    ("k/s/0-2_0-2_0-1", &[1, 2, 2]),
    ("l/info", MANY),
    ("m/info", SQUARE),
    ("m/t/0-1_0-1_0-1", &[0]),
    ("n/info", SIZES),
    ("n/s/0-2_0-2_0-1", &[1, 2, 2, 7]),
    ("n/s/0-1_0-1_0-1", &[9]),
    ("o/info", LABELS),
];

// A reduction from a key of a data set into another; the numbers of the calls of the store and the output that fail; then
// the status, what is printed and told, and the object that is put.
#[derive(Clone, Copy)]
struct Row<'a> {
    dataset: &'a str,
    keys: (&'a str, &'a str),
    method: Method,
    store: &'a [u64],
    out: &'a [u64],
    status: u8,
    line: &'a str,
    told: &'a str,
    put: &'a [(&'a str, &'a [u8])],
}

const MOST: Row = Row {
    dataset: "d",
    keys: ("s", "t"),
    method: Method::Mode,
    store: &[],
    out: &[],
    status: 0,
    line: "objects 1 cells 1\n",
    told: "",
    put: &[("d/t/0-1_0-1_0-1", &[2])],
};

const MADE: &[Row] = &[
    MOST,
    Row {
        method: Method::Mean,
        put: &[("d/t/0-1_0-1_0-1", &[3])],
        ..MOST
    },
    Row {
        dataset: "e",
        put: &[("e/t/0-2_0-1_0-1", &[1, 2])],
        ..MOST
    },
    Row {
        dataset: "f",
        method: Method::Mean,
        put: &[("f/t/0-1_0-1_0-1", &[255; 8])],
        ..MOST
    },
    Row {
        dataset: "g",
        method: Method::Mean,
        line: "objects 0 cells 0\n",
        put: &[],
        ..MOST
    },
];

// A source of two chunk sizes. In the next one the first voxel alone is there: in its pair the other one counts as 0,
// and the second pair isn't stored.
const EDGES: &[Row] = &[
    Row {
        dataset: "n",
        put: &[("n/t/0-1_0-1_0-1", &[2])],
        ..MOST
    },
    Row {
        dataset: "h",
        method: Method::Mean,
        put: &[("h/t/-3--2_0-1_0-1", &[1, 4])],
        ..MOST
    },
    Row {
        out: &[0],
        status: 7,
        line: "",
        told: "output fault\n",
        ..MOST
    },
];

const REFUSED: Row = Row {
    status: 3,
    line: "",
    ..MOST
};

const REFUSALS: &[Row] = &[
    Row {
        dataset: "x",
        status: 2,
        told: "info of x: absent\n",
        ..REFUSED
    },
    Row {
        keys: ("y", "z"),
        status: 2,
        told: "info of d: scale absent\n",
        ..REFUSED
    },
    Row {
        keys: ("s", "z"),
        status: 2,
        told: "info of d: scale absent\n",
        ..REFUSED
    },
    Row {
        dataset: "o",
        told: "padded voxels 4194305 over 4194304\n",
        ..REFUSED
    },
    Row {
        dataset: "n",
        keys: ("s", "u"),
        told: "several chunk sizes\n",
        ..REFUSED
    },
    Row {
        keys: ("s", "u"),
        told: "differs size\n",
        ..REFUSED
    },
    Row {
        keys: ("s", "v"),
        told: "differs voxel_offset\n",
        ..REFUSED
    },
    Row {
        dataset: "l",
        told: "too many cells 4194305\n",
        ..REFUSED
    },
    Row {
        dataset: "m",
        told: "folder not empty\n",
        ..REFUSED
    },
    Row {
        dataset: "k",
        status: 4,
        told: "damaged 0,0,0: chunk length 3 wanted 4\n",
        put: &[("k/t/0-1_0-1_0-1", &[])],
        ..REFUSED
    },
];

// The status of a reduction by two workers.
fn reduce<R: Threads + Wait + Sync>(
    rt: &R,
    alloc: Global,
    store: &mut MemoryStore,
    outlets: &mut Outlets,
    row: &Row,
) -> Result<Status, Fail> {
    let dataset = name_of(row.dataset)?;
    let key = name_of(row.keys.0)?;
    let to_key = name_of(row.keys.1)?;
    let crew = Crew::of(rt, alloc, 2, &FreeGate);
    Ok(run_downsample(
        &crew,
        store,
        &mut outlets.out,
        &mut outlets.err,
        &dataset,
        &key,
        &to_key,
        row.method,
    ))
}

// Reducing answers what the row says, and all else stays; the store that is left.
fn check<R: Threads + Wait + Abort + Sync>(
    rt: &R,
    alloc: Global,
    row: &Row,
) -> Result<MemoryStore, Fail> {
    let mut store = store_of(alloc, OBJECTS, row.store)?;
    let mut outlets = outlets_of(alloc, row.out)?;
    let status = reduce(rt, alloc, &mut store, &mut outlets, row)?;
    check_answer(rt, status, &outlets, row.status, [row.line, row.told]);
    assert!(rt; has_all(&store, OBJECTS));
    Ok(store)
}

// What each of these reductions puts.
fn check_made<R: Threads + Wait + Abort + Sync>(
    rt: &R,
    alloc: Global,
    rows: &[Row],
) -> Result<(), Fail> {
    for row in rows {
        let store = check(rt, alloc, row)?;
        assert!(rt; has_all(&store, row.put), "of {}", row.dataset);
    }
    Ok(())
}

// None of these puts its object.
fn check_refused<R: Threads + Wait + Abort + Sync>(
    rt: &R,
    alloc: Global,
    rows: &[Row],
) -> Result<(), Fail> {
    for row in rows {
        let store = check(rt, alloc, row)?;
        assert!(rt; has_none(&store, row.put), "of {}", row.dataset);
    }
    Ok(())
}

#[test]
fn reduces_scales(rt: HostRuntime) -> Result<(), Fail> {
    check_made(&rt, rt.alloc(), MADE)?;
    check_made(&rt, rt.alloc(), EDGES)
}

#[test]
fn refuses_reductions(rt: HostRuntime) -> Result<(), Fail> {
    check_refused(&rt, rt.alloc(), REFUSALS)
}

// The reduction while a call of the store fails.
fn check_failing<R: Threads + Wait + Abort + Sync>(
    rt: &R,
    alloc: Global,
    call: u64,
) -> Result<(), Fail> {
    let row = Row {
        store: &[call],
        status: 5,
        told: "store fault\n",
        ..REFUSED
    };
    check_refused(rt, alloc, &[row])
}

const NO_NINTH: &[Row] = &[Row {
    store: &[8],
    ..MOST
}];

// Each call of the store that fails is told, and no object stands; there are eight.
#[test]
fn tells_each_failing_call(rt: HostRuntime) -> Result<(), Fail> {
    for call in 0..8 {
        check_failing(&rt, rt.alloc(), call)?;
    }
    check_made(&rt, rt.alloc(), NO_NINTH)
}
