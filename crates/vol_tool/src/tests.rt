//! Calls of the tool over stand-ins in memory: what each command is handed, and what one command leaves for the next. What
//! each answers was worked out by hand; what a command says of more than that is tried in its crate.

mod files;
mod levels;
mod peers;
mod seats;
mod sizes;
mod streams;

use crate::top::run;
use command_base::Status;
use holding_gate::HoldingGate;
use memory_rows::{has_all, no_feed, outlet_of, store_of};
use std::alloc::{AllocError, Global};
use std::process::Abort;
use std::sync::Wait;
use std::test::Fail;
use std::thread::Threads;
use vol_base::{FreeGate, MemoryFeed, MemoryOutlet, MemoryStore};
use vol_shell::NoDoor;

// A square of four voxels in one chunk, and the next scale; the same square in two chunks; and a row of four.
const SQUARE: &[u8] =
    b"{\"type\":\"image\",\"data_type\":\"uint8\",\"num_channels\":1,\"scales\":[{\"key\":\"s\",\"size\":[2,2,1],\"chunk_sizes\":[[2,2,1]],\"resolution\":[8,8,40],\"encoding\":\"raw\"},{\"key\":\"t\",\"size\":[1,1,1],\"chunk_sizes\":[[1,1,1]],\"resolution\":[16,16,80],\"encoding\":\"raw\"}]}";

const COLUMNS: &[u8] =
    b"{\"type\":\"image\",\"data_type\":\"uint8\",\"num_channels\":1,\"scales\":[{\"key\":\"s\",\"size\":[2,2,1],\"chunk_sizes\":[[1,2,1]],\"resolution\":[8,8,40],\"encoding\":\"raw\"}]}";

const ROW: &[u8] =
    b"{\"type\":\"image\",\"data_type\":\"uint8\",\"num_channels\":1,\"scales\":[{\"key\":\"s\",\"size\":[4,1,1],\"chunk_sizes\":[[4,1,1]],\"resolution\":[8,8,40],\"encoding\":\"raw\"}]}";

// The square as a whole and in columns; and its next scale in two sizes that come to one.
const COPIES: &[u8] =
    b"{\"type\":\"image\",\"data_type\":\"uint8\",\"num_channels\":1,\"scales\":[{\"key\":\"s\",\"size\":[2,2,1],\"chunk_sizes\":[[2,2,1],[1,2,1]],\"resolution\":[8,8,40],\"encoding\":\"raw\"},{\"key\":\"t\",\"size\":[1,1,1],\"chunk_sizes\":[[1,1,1],[2,2,1]],\"resolution\":[16,16,80],\"encoding\":\"raw\"}]}";

const DOCUMENTS: [(&str, &[u8]); 4] = [
    ("d/info", SQUARE),
    ("e/info", COLUMNS),
    ("f/info", ROW),
    ("h/info", COPIES),
];

// One write: the whole square, of the values 1 to 4.
const STREAM: &[u8] =
    b"PVW1\x01\0\0\0\0\0\0\0\0\0\0\0\0\0\0\0\0\0\0\0\0\0\0\0\0\0\0\0\x02\0\0\0\0\0\0\0\x02\0\0\0\0\0\0\0\x01\0\0\0\0\0\0\0\x01\x02\x03\x04";

// Words, the status, and what is printed and told: one line after the other over the same store.
const LINES: &[(&str, u8, &[u8], &str)] = &[
    ("", 1, &[], "usage\n"),
    ("cut d s [0:1,0:1,0:1]", 1, &[], "usage\n"),
    ("cutout d ../s [0:1,0:1,0:1]", 1, &[], "usage\n"),
    ("verify d s [0:1,0:1,0:1] s", 1, &[], "usage\n"),
    ("serve d --port=80", 1, &[], "usage\n"),
    ("cutout x s [0:1,0:1,0:1]", 2, &[], "info of x: absent\n"),
    ("write d u", 2, &[], "info of d: scale absent\n"),
    (
        "verify d s [0:3,0:1,0:1]",
        3,
        &[],
        "box [0:3,0:1,0:1] outside [0:2,0:2,0:1]\n",
    ),
    ("verify d s", 0, b"cells 1 stored 0 absent 1\n", ""),
    ("write d s --workers=2", 0, b"objects 1 cells 1\n", ""),
    ("cutout d s [0:2,0:2,0:1]", 0, &[1, 2, 3, 4], ""),
    ("cutout d s [1:2,0:2,0:1]", 0, &[2, 4], ""),
    ("write d s", 3, &[], "folder not empty\n"),
    ("update d u", 2, &[], "info of d: scale absent\n"),
    ("update d s --workers=2", 0, b"objects 1 cells 1\n", ""),
    ("generate d s 5 2", 3, &[], "folder not empty\n"),
    (
        "downsample d s t --method=mean",
        0,
        b"objects 1 cells 1\n",
        "",
    ),
    ("cutout d t [0:1,0:1,0:1]", 0, &[2], ""),
    ("downsample d t s --method=mode", 3, &[], "differs size\n"),
    ("reshard d s e s", 0, b"objects 2 cells 2\n", ""),
    ("verify e s", 0, b"cells 2 stored 2 absent 0\n", ""),
    ("cutout e s [0:2,0:2,0:1]", 0, &[1, 2, 3, 4], ""),
    ("reshard d s e s", 3, &[], "folder not empty\n"),
    ("update e s", 0, b"objects 2 cells 2\n", ""),
    (
        "generate f s 1 1",
        0,
        b"writes 1 objects 1 bytes 4 sum 1\n",
        "",
    ),
    ("update f s", 3, &[], "write 0: outside scale\n"),
    ("cutout f s [0:4,0:1,0:1]", 0, &[0, 0, 1, 0], ""),
    ("write h s", 0, b"objects 3 cells 3\n", ""),
    ("verify h s", 0, b"cells 3 stored 3 absent 0\n", ""),
    ("cutout h s [0:2,0:2,0:1]", 0, &[1, 2, 3, 4], ""),
    ("update h s", 3, &[], "several chunk sizes\n"),
    ("reshard d s h s", 3, &[], "several chunk sizes\n"),
    (
        "downsample h s t --method=mean",
        3,
        &[],
        "several chunk sizes\n",
    ),
    ("reshard h s f s", 3, &[], "differs size\n"),
    ("serve d --port=80 --connections=1", 9, &[], "door fault\n"),
];

// The words of a text, none of which is empty.
fn words_of(alloc: Global, text: &str) -> Result<Vec<String>, AllocError> {
    let mut words = Vec::new(alloc);
    for word in text.split(' ') {
        if !word.is_empty() {
            words.push(String::from_str(alloc, word)?)?;
        }
    }
    Ok(words)
}

// A call where no peer can come.
fn call<R: Threads + Wait + Sync>(
    rt: &R,
    alloc: Global,
    text: &str,
    stream: &[u8],
    store: &mut MemoryStore,
    out: &mut MemoryOutlet,
    err: &mut MemoryOutlet,
) -> Result<Status, Fail> {
    let words = words_of(alloc, text)?;
    let mut feed = MemoryFeed::new(stream.to_vec(alloc)?, 7, Vec::new(alloc));
    let mut door = NoDoor::new();
    let status = run(
        rt, alloc, &words, store, &mut feed, out, err, &mut door, &FreeGate,
    );
    Ok(status)
}

fn check<R: Threads + Wait + Abort + Sync>(
    rt: &R,
    alloc: Global,
    store: &mut MemoryStore,
    line: &(&str, u8, &[u8], &str),
) -> Result<(), Fail> {
    let (words, status, printed, told) = *line;
    let mut out = outlet_of(alloc, 7, &[])?;
    let mut err = outlet_of(alloc, 7, &[])?;
    let found = call(rt, alloc, words, STREAM, store, &mut out, &mut err)?;
    assert_eq!(rt; found.number(), status, "at {words}");
    assert!(rt; out.written() == printed, "out at {words}");
    assert!(rt; err.written() == told.as_bytes(), "err at {words}");
    Ok(())
}

#[test]
fn answers_calls(rt: HostRuntime) -> Result<(), Fail> {
    let alloc = rt.alloc();
    let mut store = store_of(alloc, &DOCUMENTS, &[])?;
    for line in LINES {
        check(&rt, alloc, &mut store, line)?;
    }
    Ok(())
}

// A call whose line can't be told has its status all the same.
#[test]
fn keeps_the_status_without_its_line(rt: HostRuntime) -> Result<(), Fail> {
    let alloc = rt.alloc();
    let mut store = store_of(alloc, &DOCUMENTS, &[])?;
    let mut out = outlet_of(alloc, 7, &[])?;
    let mut err = outlet_of(alloc, 7, &[0])?;
    let status = call(&rt, alloc, "cutout", STREAM, &mut store, &mut out, &mut err)?;
    assert_eq!(rt; status.number(), 1);
    assert!(rt; err.written().is_empty());
    Ok(())
}

// Three voxels, each a chunk, and one write of all of them.
const POINTS: &[u8] =
    b"{\"type\":\"image\",\"data_type\":\"uint8\",\"num_channels\":1,\"scales\":[{\"key\":\"s\",\"size\":[3,1,1],\"chunk_sizes\":[[1,1,1]],\"resolution\":[8,8,40],\"encoding\":\"raw\"}]}";

const THREE: &[u8] =
    b"PVW1\x01\0\0\0\0\0\0\0\0\0\0\0\0\0\0\0\0\0\0\0\0\0\0\0\0\0\0\0\x03\0\0\0\0\0\0\0\x01\0\0\0\0\0\0\0\x01\0\0\0\0\0\0\0\x01\x02\x03";

const POINT_CHUNKS: [(&str, &[u8]); 3] = [
    ("g/s/0-1_0-1_0-1", &[1]),
    ("g/s/1-2_0-1_0-1", &[2]),
    ("g/s/2-3_0-1_0-1", &[3]),
];

// The status of a write of three voxels by two workers.
fn write_points<R: Threads + Wait + Sync>(
    rt: &R,
    alloc: Global,
    store: &mut MemoryStore,
    gate: &HoldingGate,
) -> Result<Status, Fail> {
    let words = words_of(alloc, "write g s --workers=2")?;
    let mut feed = MemoryFeed::new(THREE.to_vec(alloc)?, 7, Vec::new(alloc));
    let mut out = outlet_of(alloc, 7, &[])?;
    let mut err = outlet_of(alloc, 7, &[])?;
    let mut door = NoDoor::new();
    let status = run(
        rt, alloc, &words, store, &mut feed, &mut out, &mut err, &mut door, gate,
    );
    Ok(status)
}

// While one worker is held with the first chunk, another one encodes the second.
#[test]
fn two_workers(rt: HostRuntime) -> Result<(), Fail> {
    let alloc = rt.alloc();
    let mut store = store_of(alloc, &[("g/info", POINTS)], &[])?;
    let gate = HoldingGate::new();
    let status = write_points(&rt, alloc, &mut store, &gate)?;
    assert_eq!(rt; status.number(), 0);
    assert!(rt; gate.was_passed());
    assert!(rt; gate.claimed(0) != gate.claimed(1));
    for job in 0..3 {
        assert!(rt; gate.claimed(job).is_some(), "job {job}");
        assert!(rt; gate.claimed(job) == gate.deposited(job), "job {job}");
    }
    assert!(rt; has_all(&store, &POINT_CHUNKS));
    Ok(())
}
