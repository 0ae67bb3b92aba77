//! Cutouts over stand-ins in memory. What each answers was worked out by hand.

mod damages;
mod each_call;
mod extremes;
mod lines;
mod many_rows;

use command_base::Status;
use cutout_cmd::run_cutout;
use memory_rows::{name_of, outlet_of, put, raw_info, store_of};
use std::alloc::Global;
use std::process::Abort;
use std::test::Fail;
use vol_base::{Box3, MemoryOutlet, MemoryStore};

// A cutout, and what it answers.
#[derive(Clone, Copy)]
struct Cut<'a> {
    key: &'a str,
    part: &'a str,
    status: Status,
    out: &'a [u8],
    err: &'a str,
}

// The numbers of the calls that fail, of the store, the output and the error output, and the most bytes that one
// call of the outlets takes.
#[derive(Clone, Copy)]
struct Faults<'a> {
    store: &'a [u64],
    out: &'a [u64],
    err: &'a [u64],
    piece: usize,
}

const NO_FAULTS: Faults = Faults {
    store: &[],
    out: &[],
    err: &[],
    piece: 256,
};

// The size and the chunk size of a scale; where they are empty, there is no info document but among the objects.
const UNTOLD: [&str; 2] = ["", ""];

const PLANE: [&str; 2] = ["[2,2,1]", "[2,2,1]"];

const TWO_ROWS: [&str; 2] = ["[5,1,1]", "[4,1,1]"];

const TWO_PLANES: [&str; 2] = ["[8,4,1]", "[4,4,1]"];

const LARGE: [&str; 2] = ["[2048,1024,1024]", "[64,64,64]"];

const PLANE_CHUNK: &[(&str, &[u8])] = &[("d/s/0-2_0-2_0-1", &[1, 2, 3, 4])];

const ROW_CHUNKS: &[(&str, &[u8])] = &[
    ("d/s/0-4_0-1_0-1", &[1, 2, 3, 4]),
    ("d/s/4-5_0-1_0-1", &[5]),
];

// The second chunk is too short.
const PLANE_CHUNKS: &[(&str, &[u8])] = &[
    (
        "d/s/0-4_0-4_0-1",
        &[0, 1, 2, 3, 4, 5, 6, 7, 8, 9, 10, 11, 12, 13, 14, 15],
    ),
    ("d/s/4-8_0-4_0-1", &[0, 0, 0]),
];

// Three layers of unequal height, of two channels; the middle one is too short.
const LAYERS: &[(&str, &[u8])] = &[
    (
        "d/info",
        b"{\"type\":\"image\",\"data_type\":\"uint8\",\"num_channels\":2,\"scales\":[{\"key\":\"s\",\"size\":[2,1,5],\"chunk_sizes\":[[2,1,2]],\"resolution\":[8,8,40],\"encoding\":\"raw\"}]}",
    ),
    ("d/s/0-2_0-1_0-2", &[1, 2, 3, 4, 11, 12, 13, 14]),
    ("d/s/0-2_0-1_2-4", &[5, 6, 7, 8, 15, 16, 17]),
    ("d/s/0-2_0-1_4-5", &[9, 10, 19, 20]),
];

// A scale, objects, a box, and the values that are printed.
type Answer<'a> = ([&'a str; 2], &'a [(&'a str, &'a [u8])], &'a str, &'a [u8]);

const ANSWERS: &[Answer] = &[
    (PLANE, &[], "[0:2,0:2,0:1]", &[0; 4]),
    (PLANE, PLANE_CHUNK, "[0:2,0:2,0:1]", &[1, 2, 3, 4]),
    (PLANE, PLANE_CHUNK, "[1:2,0:2,0:1]", &[2, 4]),
    (TWO_ROWS, ROW_CHUNKS, "[3:5,0:1,0:1]", &[4, 5]),
    (TWO_ROWS, ROW_CHUNKS, "[0:5,0:1,0:1]", &[1, 2, 3, 4, 5]),
    (TWO_PLANES, PLANE_CHUNKS, "[2:4,1:3,0:1]", &[6, 7, 10, 11]),
    (UNTOLD, LAYERS, "[0:2,0:1,1:2]", &[3, 4, 13, 14]),
    (UNTOLD, LAYERS, "[0:2,0:1,4:5]", &[9, 10, 19, 20]),
];

// A scale, objects, a key and a box, and the status and the line of the refusal, before which nothing is printed.
type Refusal<'a> = (
    [&'a str; 2],
    &'a [(&'a str, &'a [u8])],
    &'a str,
    &'a str,
    Status,
    &'a str,
);

const REFUSALS: &[Refusal] = &[
    (
        UNTOLD,
        PLANE_CHUNK,
        "s",
        "[0:1,0:1,0:1]",
        Status::InfoRefused,
        "info of d: absent\n",
    ),
    (
        UNTOLD,
        &[("d/info", b"{\"type\":\"segmentation\"}")],
        "s",
        "[0:1,0:1,0:1]",
        Status::InfoRefused,
        "info of d: data_type missing\n",
    ),
    (
        UNTOLD,
        &[("d/info", b"{")],
        "s",
        "[0:1,0:1,0:1]",
        Status::InfoRefused,
        "info of d: not json\n",
    ),
    (
        PLANE,
        &[],
        "t",
        "[0:1,0:1,0:1]",
        Status::InfoRefused,
        "info of d: scale absent\n",
    ),
    (
        PLANE,
        PLANE_CHUNK,
        "s",
        "[0:3,0:2,0:1]",
        Status::RequestRefused,
        "box [0:3,0:2,0:1] outside [0:2,0:2,0:1]\n",
    ),
    (
        LARGE,
        &[],
        "s",
        "[0:2048,0:1024,0:1024]",
        Status::RequestRefused,
        "box too large 2147483648\n",
    ),
    (
        PLANE,
        &[("d/s/0-2_0-2_0-1", &[1; 9])],
        "s",
        "[0:2,0:2,0:1]",
        Status::Damaged,
        "damaged 0,0,0: chunk length 5 wanted 4\n",
    ),
    (
        PLANE,
        &[("d/s/0-2_0-2_0-1", &[])],
        "s",
        "[1:2,1:2,0:1]",
        Status::Damaged,
        "damaged 0,0,0: chunk length 0 wanted 4\n",
    ),
    (
        TWO_PLANES,
        PLANE_CHUNKS,
        "s",
        "[2:6,1:3,0:1]",
        Status::Damaged,
        "damaged 1,0,0: chunk length 3 wanted 16\n",
    ),
    (
        UNTOLD,
        LAYERS,
        "s",
        "[0:2,0:1,2:5]",
        Status::Damaged,
        "damaged 0,0,1: chunk length 7 wanted 8\n",
    ),
];

// A box of the layers, and what is printed of channel 0 below the middle one.
const BROKEN: &[(&str, &[u8])] = &[("[0:2,0:1,0:5]", &[1, 2, 3, 4]), ("[1:2,0:1,1:5]", &[4])];

// All of two rows: call 0 of the store reads the document, calls 1 and 2 read the chunks.
const WHOLE: Cut = Cut {
    key: "s",
    part: "[0:5,0:1,0:1]",
    status: Status::Ok,
    out: &[1, 2, 3, 4, 5],
    err: "",
};

const NOT_READ: Cut = Cut {
    status: Status::StoreFault,
    out: &[],
    err: "store fault\n",
    ..WHOLE
};

// The calls that fail over two rows, and a cutout with the front of its refusal's line.
const ERR_FAULTS: &[(Faults, Cut)] = &[
    (
        Faults {
            err: &[0],
            ..NO_FAULTS
        },
        Cut {
            key: "t",
            status: Status::InfoRefused,
            out: &[],
            ..WHOLE
        },
    ),
    (
        Faults {
            err: &[0],
            ..NO_FAULTS
        },
        Cut {
            part: "[0:6,0:1,0:1]",
            status: Status::RequestRefused,
            out: &[],
            ..WHOLE
        },
    ),
    (
        Faults {
            store: &[0],
            err: &[3],
            piece: 1,
            ..NO_FAULTS
        },
        Cut {
            err: "sto",
            ..NOT_READ
        },
    ),
    (
        Faults {
            out: &[0],
            err: &[0],
            ..NO_FAULTS
        },
        Cut {
            status: Status::OutFault,
            out: &[],
            ..WHOLE
        },
    ),
];

fn call(
    alloc: Global,
    store: &mut MemoryStore,
    out: &mut MemoryOutlet,
    err: &mut MemoryOutlet,
    key: &str,
    part: &str,
) -> Result<Status, Fail> {
    let dataset = name_of("d")?;
    let key = name_of(key)?;
    let part = Box3::parse(part)?;
    Ok(run_cutout(alloc, store, out, err, &dataset, &key, &part))
}

// The status, what is printed and what is told are those of the cutout.
fn compare(rt: &impl Abort, status: Status, out: &MemoryOutlet, err: &MemoryOutlet, cut: &Cut) {
    assert_eq!(rt; status, cut.status, "at {}", cut.part);
    let same = out.written() == cut.out && err.written() == cut.err.as_bytes();
    assert!(rt; same, "at {}", cut.part);
}

fn check_cut(
    rt: &impl Abort,
    alloc: Global,
    store: &mut MemoryStore,
    faults: &Faults,
    cut: &Cut,
) -> Result<(), Fail> {
    let mut out = outlet_of(alloc, faults.piece, faults.out)?;
    let mut err = outlet_of(alloc, faults.piece, faults.err)?;
    let status = call(alloc, store, &mut out, &mut err, cut.key, cut.part)?;
    compare(rt, status, &out, &err, cut);
    Ok(())
}

// Puts the document of one scale into a store.
fn put_info(alloc: Global, store: &mut MemoryStore, size: &str, chunk: &str) -> Result<(), Fail> {
    let info = raw_info(alloc, size, chunk)?;
    put(alloc, store, "d/info", info.as_bytes())
}

// A store of a scale and objects, some calls failing.
fn row_store(
    alloc: Global,
    sizes: &[&str; 2],
    objects: &[(&str, &[u8])],
    failing: &[u64],
) -> Result<MemoryStore, Fail> {
    let mut store = store_of(alloc, objects, failing)?;
    let [size, chunk] = sizes;
    if !size.is_empty() {
        put_info(alloc, &mut store, size, chunk)?;
    }
    Ok(store)
}

// A cutout over a scale and objects, some calls failing.
fn check_row(
    rt: &impl Abort,
    alloc: Global,
    sizes: &[&str; 2],
    objects: &[(&str, &[u8])],
    faults: &Faults,
    cut: &Cut,
) -> Result<(), Fail> {
    let mut store = row_store(alloc, sizes, objects, faults.store)?;
    check_cut(rt, alloc, &mut store, faults, cut)
}

fn check_answers(rt: &impl Abort, alloc: Global, rows: &[Answer]) -> Result<(), Fail> {
    for (sizes, objects, part, out) in rows {
        let cut = Cut { part, out, ..WHOLE };
        check_row(rt, alloc, sizes, objects, &NO_FAULTS, &cut)?;
    }
    Ok(())
}

#[test]
fn cuts_boxes_out(rt: HostRuntime) -> Result<(), Fail> {
    check_answers(&rt, rt.alloc(), ANSWERS)
}

fn check_refusals(rt: &impl Abort, alloc: Global, rows: &[Refusal]) -> Result<(), Fail> {
    for (sizes, objects, key, part, status, err) in rows {
        let cut = Cut {
            key,
            part,
            status: *status,
            out: &[],
            err,
        };
        check_row(rt, alloc, sizes, objects, &NO_FAULTS, &cut)?;
    }
    Ok(())
}

#[test]
fn tells_refusals(rt: HostRuntime) -> Result<(), Fail> {
    check_refusals(&rt, rt.alloc(), REFUSALS)
}

// A cutout of the layers through the damaged one.
fn check_broken<'a>(
    rt: &impl Abort,
    alloc: Global,
    part: &'a str,
    out: &'a [u8],
) -> Result<(), Fail> {
    let cut = Cut {
        part,
        out,
        status: Status::Damaged,
        err: "damaged 0,0,1: chunk length 7 wanted 8\n",
        ..WHOLE
    };
    check_row(rt, alloc, &UNTOLD, LAYERS, &NO_FAULTS, &cut)
}

#[test]
fn prints_what_is_below_damage(rt: HostRuntime) -> Result<(), Fail> {
    for (part, out) in BROKEN {
        check_broken(&rt, rt.alloc(), part, out)?;
    }
    Ok(())
}

// A cutout over two rows.
fn check_rows(rt: &impl Abort, alloc: Global, faults: &Faults, cut: &Cut) -> Result<(), Fail> {
    check_row(rt, alloc, &TWO_ROWS, ROW_CHUNKS, faults, cut)
}

// All of two rows, a call of the store failing.
fn check_read(rt: &impl Abort, alloc: Global, call: u64) -> Result<(), Fail> {
    let faults = Faults {
        store: &[call],
        ..NO_FAULTS
    };
    check_rows(rt, alloc, &faults, &NOT_READ)
}

// All of a plane by pieces of one byte, a call of the output failing.
fn check_written(rt: &impl Abort, alloc: Global, call: usize, cut: &Cut) -> Result<(), Fail> {
    let faults = Faults {
        out: &[call as u64],
        piece: 1,
        ..NO_FAULTS
    };
    check_row(rt, alloc, &PLANE, PLANE_CHUNK, &faults, cut)
}

const PLANE_CUT: Cut = Cut {
    part: "[0:2,0:2,0:1]",
    out: &[1, 2, 3, 4],
    ..WHOLE
};

// A cutout of which these bytes are written before the output fails.
fn cut_after<'a>(whole: &Cut<'a>, written: &'a [u8]) -> Cut<'a> {
    Cut {
        status: Status::OutFault,
        out: written,
        err: "output fault\n",
        ..*whole
    }
}

// Each call of the output in turn, and then one that comes no more.
fn check_outputs(rt: &impl Abort, alloc: Global, whole: &Cut) -> Result<(), Fail> {
    for call in 0..whole.out.len() {
        check_written(rt, alloc, call, &cut_after(whole, &whole.out[..call]))?;
    }
    check_written(rt, alloc, whole.out.len(), whole)
}

fn check_err_faults(rt: &impl Abort, alloc: Global, rows: &[(Faults, Cut)]) -> Result<(), Fail> {
    for (faults, cut) in rows {
        check_rows(rt, alloc, faults, cut)?;
    }
    Ok(())
}

#[test]
fn tells_failing_calls(rt: HostRuntime) -> Result<(), Fail> {
    for call in 0..3 {
        check_read(&rt, rt.alloc(), call)?;
    }
    check_outputs(&rt, rt.alloc(), &PLANE_CUT)?;
    check_err_faults(&rt, rt.alloc(), ERR_FAULTS)
}
