//! Calls of the command `verify` over stand-ins in memory. What each answers was worked out by hand, of damaged shards also
//! by the plain reader in `tests/model/shards.py`.

use crate::shards::{TWO_INDEXES, TWO_MINISHARDS};
use command_base::Status;
use memory_rows::{name_of, outlet_of, store_of};
use std::alloc::Global;
use std::process::Abort;
use std::test::Fail;
use verify_cmd::run_verify;
use vol_base::{Box3, MemoryOutlet, MemoryStore};

// Scales of one byte a voxel: one cell, two, and more than are judged.
const CUBE: &[u8] =
    b"{\"type\":\"image\",\"data_type\":\"uint8\",\"num_channels\":1,\"scales\":[{\"key\":\"s\",\"size\":[4,4,4],\"chunk_sizes\":[[4,4,4]],\"resolution\":[8,8,40],\"encoding\":\"raw\"}]}";

const TWO_PLANES: &[u8] =
    b"{\"type\":\"image\",\"data_type\":\"uint8\",\"num_channels\":1,\"scales\":[{\"key\":\"s\",\"size\":[8,4,1],\"chunk_sizes\":[[4,4,1]],\"resolution\":[8,8,40],\"encoding\":\"raw\"}]}";

const MANY: &[u8] =
    b"{\"type\":\"image\",\"data_type\":\"uint8\",\"num_channels\":1,\"scales\":[{\"key\":\"s\",\"size\":[4194305,1,1],\"chunk_sizes\":[[1,1,1]],\"resolution\":[8,8,40],\"encoding\":\"raw\"}]}";

// The values 10 and 11 in two minishards, the second with the id of the first.
const ID_TWICE: &[u8] = &[
    1, 0, 0, 0, 0, 0, 0, 0, 25, 0, 0, 0, 0, 0, 0, 0, 26, 0, 0, 0, 0, 0, 0, 0, 50, 0, 0, 0, 0, 0, 0,
    0, 10, 0, 0, 0, 0, 0, 0, 0, 0, 0, 0, 0, 0, 0, 0, 0, 0, 1, 0, 0, 0, 0, 0, 0, 0, 11, 0, 0, 0, 0,
    0, 0, 0, 0, 25, 0, 0, 0, 0, 0, 0, 0, 1, 0, 0, 0, 0, 0, 0, 0,
];

// An object and its bytes.
type Object = (&'static str, &'static [u8]);

const IN_SHARDS: &[Object] = &[("d/info", TWO_MINISHARDS), ("d/s/0.shard", TWO_INDEXES)];

const MISPLACED: &[Object] = &[("d/info", TWO_MINISHARDS), ("d/s/0.shard", ID_TWICE)];

// The second chunk is too short.
const PLANES: &[Object] = &[
    ("d/info", TWO_PLANES),
    (
        "d/s/0-4_0-4_0-1",
        &[0, 1, 2, 3, 4, 5, 6, 7, 8, 9, 10, 11, 12, 13, 14, 15],
    ),
    ("d/s/4-8_0-4_0-1", &[0, 0, 0]),
];

// Rows of four voxels, stored whole and in halves, and whole, in halves and one by one; and more cells than are judged, of
// two sizes together.
const TWO_SIZES: &[u8] =
    b"{\"type\":\"image\",\"data_type\":\"uint8\",\"num_channels\":1,\"scales\":[{\"key\":\"s\",\"size\":[4,1,1],\"chunk_sizes\":[[4,1,1],[2,1,1]],\"resolution\":[8,8,40],\"encoding\":\"raw\"}]}";

const THREE_SIZES: &[u8] =
    b"{\"type\":\"image\",\"data_type\":\"uint8\",\"num_channels\":1,\"scales\":[{\"key\":\"s\",\"size\":[4,1,1],\"voxel_offset\":[-2,0,0],\"chunk_sizes\":[[4,1,1],[2,1,1],[1,1,1]],\"resolution\":[8,8,40],\"encoding\":\"raw\"}]}";

const MANY_IN_ALL: &[u8] =
    b"{\"type\":\"image\",\"data_type\":\"uint8\",\"num_channels\":1,\"scales\":[{\"key\":\"s\",\"size\":[4194304,1,1],\"chunk_sizes\":[[4194304,1,1],[1,1,1]],\"resolution\":[8,8,40],\"encoding\":\"raw\"}]}";

const INFO: Object = ("d/info", TWO_SIZES);

const WHOLE: Object = ("d/s/0-4_0-1_0-1", &[1, 2, 3, 4]);

const FIRST_HALF: Object = ("d/s/0-2_0-1_0-1", &[1, 2]);

const AGREEING: &[Object] = &[INFO, WHOLE, FIRST_HALF, ("d/s/2-4_0-1_0-1", &[3, 4])];

const DIFFERING: &[Object] = &[INFO, WHOLE, FIRST_HALF, ("d/s/2-4_0-1_0-1", &[3, 5])];

const SHORT_HALF: &[Object] = &[INFO, WHOLE, FIRST_HALF, ("d/s/2-4_0-1_0-1", &[3])];

const NO_HALVES: &[Object] = &[INFO, WHOLE];

// The whole is too short, and a half differs.
const SHORT_WHOLE: &[Object] = &[
    INFO,
    ("d/s/0-4_0-1_0-1", &[1, 2, 3]),
    ("d/s/0-2_0-1_0-1", &[1, 9]),
];

// Where there is no object, the values are 0.
const IN_THREE: &[Object] = &[
    ("d/info", THREE_SIZES),
    ("d/s/-2-2_0-1_0-1", &[0, 0, 3, 4]),
    ("d/s/0-2_0-1_0-1", &[3, 4]),
    ("d/s/-1-0_0-1_0-1", &[0]),
    ("d/s/0-1_0-1_0-1", &[3]),
    ("d/s/1-2_0-1_0-1", &[4]),
];

const OTHER_IN_THIRD: &[Object] = &[
    ("d/info", THREE_SIZES),
    ("d/s/-2-2_0-1_0-1", &[0, 0, 3, 4]),
    ("d/s/0-2_0-1_0-1", &[3, 4]),
    ("d/s/-1-0_0-1_0-1", &[9]),
];

// Objects; a box, or all of the scale where it is empty; the status, and what is printed or told.
type Row = (&'static [Object], &'static str, u8, &'static str);

const ROWS: &[Row] = &[
    (&[("d/info", CUBE)], "", 0, "cells 1 stored 0 absent 1\n"),
    (IN_SHARDS, "", 0, "cells 2 stored 2 absent 0\n"),
    (PLANES, "[0:4,0:4,0:1]", 0, "cells 1 stored 1 absent 0\n"),
    (MISPLACED, "[0:1,0:1,0:1]", 0, "cells 1 stored 1 absent 0\n"),
    (&[], "", 2, "info of d: absent\n"),
    (
        IN_SHARDS,
        "[0:3,0:1,0:1]",
        3,
        "box [0:3,0:1,0:1] outside [0:2,0:1,0:1]\n",
    ),
    (&[("d/info", MANY)], "", 3, "too many cells 4194305\n"),
    (PLANES, "", 4, "damaged 1,0,0: chunk length 3 wanted 16\n"),
    (MISPLACED, "", 4, "misplaced 0 1 0\n"),
];

// The same of scales of several chunk sizes.
const IN_VIEWS: &[Row] = &[
    (AGREEING, "", 0, "cells 3 stored 3 absent 0\n"),
    (DIFFERING, "", 4, "conflict 1 3,0,0 0 5 4\n"),
    (DIFFERING, "[0:3,0:1,0:1]", 0, "cells 3 stored 3 absent 0\n"),
    (
        SHORT_HALF,
        "",
        4,
        "damaged in 1 1,0,0: chunk length 1 wanted 2\n",
    ),
    (
        SHORT_HALF,
        "[0:2,0:1,0:1]",
        0,
        "cells 2 stored 2 absent 0\n",
    ),
    (NO_HALVES, "", 4, "conflict 1 0,0,0 0 0 1\n"),
    (
        SHORT_WHOLE,
        "",
        4,
        "damaged 0,0,0: chunk length 3 wanted 4\n",
    ),
    (IN_THREE, "", 0, "cells 7 stored 5 absent 2\n"),
    (IN_THREE, "[-2:0,0:1,0:1]", 0, "cells 4 stored 2 absent 2\n"),
    (OTHER_IN_THIRD, "", 4, "conflict 2 -1,0,0 0 9 0\n"),
    (
        &[("d/info", MANY_IN_ALL)],
        "",
        3,
        "too many cells 4194305\n",
    ),
];

// The status of a call over a box, or over all of the scale where there is none.
fn call(
    alloc: Global,
    store: &mut MemoryStore,
    out: &mut MemoryOutlet,
    err: &mut MemoryOutlet,
    part: &str,
) -> Result<Status, Fail> {
    let dataset = name_of("d")?;
    let key = name_of("s")?;
    let part = Box3::parse(part).ok();
    Ok(run_verify(alloc, store, out, err, &dataset, &key, &part))
}

// How a call ended: its status, what it printed, and what it told.
#[derive(Drop)]
struct Ended {
    status: u8,
    out: MemoryOutlet,
    err: MemoryOutlet,
}

// A call over some objects, of which the calls of these numbers fail, of the store, the output and the error output.
fn end(alloc: Global, objects: &[Object], part: &str, failing: [&[u64]; 3]) -> Result<Ended, Fail> {
    let mut store = store_of(alloc, objects, failing[0])?;
    let mut out = outlet_of(alloc, 64, failing[1])?;
    let mut err = outlet_of(alloc, 64, failing[2])?;
    let status = call(alloc, &mut store, &mut out, &mut err, part)?.number();
    Ok(Ended { status, out, err })
}

// It has this status, and printed and told these texts.
fn compare(rt: &impl Abort, ended: &Ended, status: u8, texts: [&str; 2]) {
    let [printed, told] = texts;
    assert_eq!(rt; ended.status, status, "at {printed}{told}");
    let is_printed = ended.out.written() == printed.as_bytes();
    let is_told = ended.err.written() == told.as_bytes();
    assert!(rt; is_printed && is_told, "at {printed}{told}");
}

fn check(
    rt: &impl Abort,
    alloc: Global,
    objects: &[Object],
    part: &str,
    failing: [&[u64]; 3],
    status: u8,
    texts: [&str; 2],
) -> Result<(), Fail> {
    let ended = end(alloc, objects, part, failing)?;
    compare(rt, &ended, status, texts);
    Ok(())
}

fn check_rows(rt: &impl Abort, alloc: Global, rows: &[Row]) -> Result<(), Fail> {
    for (objects, part, status, line) in rows {
        let texts = if *status == 0 {
            [*line, ""]
        } else {
            ["", *line]
        };
        check(rt, alloc, objects, part, [&[], &[], &[]], *status, texts)?;
    }
    Ok(())
}

#[test]
fn judges_stored_chunks(rt: HostRuntime) -> Result<(), Fail> {
    check_rows(&rt, rt.alloc(), ROWS)
}

#[test]
fn judges_views(rt: HostRuntime) -> Result<(), Fail> {
    check_rows(&rt, rt.alloc(), IN_VIEWS)
}

// Whether the k-th call of the store fails, which is told.
fn is_failing(rt: &impl Abort, alloc: Global, objects: &[Object], k: u64) -> Result<bool, Fail> {
    let ended = end(alloc, objects, "", [&[k], &[], &[]])?;
    if ended.status == 0 {
        return Ok(false);
    }
    compare(rt, &ended, 5, ["", "store fault\n"]);
    Ok(true)
}

// Each call of the store fails in turn, until none does.
fn check_each_call(rt: &impl Abort, alloc: Global, objects: &[Object]) -> Result<(), Fail> {
    for k in 0..99 {
        if !is_failing(rt, alloc, objects, k)? {
            assert!(rt; k > 3, "{k} calls");
            return Ok(());
        }
    }
    Err(Fail::from("a call too many"))
}

#[test]
fn tells_each_failing_call(rt: HostRuntime) -> Result<(), Fail> {
    check_each_call(&rt, rt.alloc(), AGREEING)?;
    check_each_call(&rt, rt.alloc(), IN_SHARDS)
}

// Which calls of the store, the output and the error output fail, the status, and what is told.
type Failing = ([&'static [u64]; 3], u8, &'static str);

const FAILING: &[Failing] = &[
    ([&[0], &[], &[]], 5, "store fault\n"),
    ([&[1], &[], &[]], 5, "store fault\n"),
    ([&[], &[0], &[]], 7, "output fault\n"),
    ([&[0], &[], &[0]], 5, ""),
    ([&[], &[0], &[0]], 7, ""),
];

fn check_failing(rt: &impl Abort, alloc: Global, rows: &[Failing]) -> Result<(), Fail> {
    for (failing, status, told) in rows {
        check(rt, alloc, IN_SHARDS, "", *failing, *status, ["", *told])?;
    }
    Ok(())
}

#[test]
fn tells_failing_calls(rt: HostRuntime) -> Result<(), Fail> {
    check_failing(&rt, rt.alloc(), FAILING)
}
