//! Updates over stand-ins in memory. What each stores and answers was worked out by hand.

mod crew;
mod failing;
mod reads;
mod rows;
mod shards;

use command_base::{Crew, Status};
use memory_rows::{has_all, name_of, outlet_of, put, store_of};
use std::alloc::{AllocError, Global};
use std::process::Abort;
use std::sync::Wait;
use std::test::Fail;
use std::thread::Threads;
use update_cmd::run_update;
use vol_base::{FreeGate, Gate, MemoryFeed, MemoryOutlet, MemoryStore};

// The begin and the size of a box on the three axes, and the bytes of its values.
type Write<'a> = ([i64; 3], [u64; 3], &'a [u8]);

// An object and its bytes.
type Object<'a> = (&'a str, &'a [u8]);

// The document of a scale, the objects before an update, its writes, and bytes behind them; the status, the line that is printed
// or told, and objects that stand afterwards.
#[derive(Clone, Copy)]
struct Row<'a> {
    info: &'a str,
    before: &'a [Object<'a>],
    writes: &'a [Write<'a>],
    behind: &'a [u8],
    status: Status,
    line: &'a str,
    after: &'a [Object<'a>],
}

// The numbers of the calls that fail, of the store, the feed and the output, and the most bytes that one call moves.
#[derive(Clone, Copy)]
struct Faults<'a> {
    store: &'a [u64],
    feed: &'a [u64],
    out: &'a [u64],
    piece: u8,
}

const NO_FAULTS: Faults = Faults {
    store: &[],
    feed: &[],
    out: &[],
    piece: 255,
};

// Three voxels, each a chunk, and what they are before and after an update of all of them.
const POINTS: &str =
    "{\"type\":\"image\",\"data_type\":\"uint8\",\"num_channels\":1,\"scales\":[{\"key\":\"s\",\"size\":[3,1,1],\"chunk_sizes\":[[1,1,1]],\"resolution\":[8,8,40],\"encoding\":\"raw\"}]}";

const OLD_POINTS: &[Object] = &[
    ("d/s/0-1_0-1_0-1", &[7]),
    ("d/s/1-2_0-1_0-1", &[8]),
    ("d/s/2-3_0-1_0-1", &[9]),
];

const NEW_POINTS: &[Object] = &[
    ("d/s/0-1_0-1_0-1", &[1]),
    ("d/s/1-2_0-1_0-1", &[2]),
    ("d/s/2-3_0-1_0-1", &[3]),
];

const THREE: Row = Row {
    info: POINTS,
    before: OLD_POINTS,
    writes: &[([0, 0, 0], [3, 1, 1], &[1, 2, 3])],
    behind: &[],
    status: Status::Ok,
    line: "objects 3 cells 3\n",
    after: NEW_POINTS,
};

fn put_begin(bytes: &mut Vec<u8>, begin: &[i64]) -> Result<(), AllocError> {
    for axis in begin {
        bytes.extend_from_slice(&axis.to_le_bytes())?;
    }
    Ok(())
}

fn put_size(bytes: &mut Vec<u8>, size: &[u64]) -> Result<(), AllocError> {
    for axis in size {
        bytes.extend_from_slice(&axis.to_le_bytes())?;
    }
    Ok(())
}

fn put_write(bytes: &mut Vec<u8>, write: &Write) -> Result<(), AllocError> {
    let (begin, size, values) = write;
    put_begin(bytes, begin)?;
    put_size(bytes, size)?;
    bytes.extend_from_slice(values)
}

// The stream of a row.
fn stream_of(alloc: Global, row: &Row) -> Result<Vec<u8>, AllocError> {
    let mut bytes = Vec::from_slice(alloc, b"PVW1")?;
    let count = u32::try_from(row.writes.len()).unwrap_or(0);
    bytes.extend_from_slice(&count.to_le_bytes())?;
    for write in row.writes {
        put_write(&mut bytes, write)?;
    }
    bytes.extend_from_slice(row.behind)?;
    Ok(bytes)
}

// The status of an update by a crew.
fn call_crew<R: Threads + Wait + Sync, G: Gate + Sync>(
    crew: &Crew<R, G>,
    store: &mut MemoryStore,
    feed: &mut MemoryFeed,
    out: &mut MemoryOutlet,
    err: &mut MemoryOutlet,
) -> Result<Status, Fail> {
    let dataset = name_of("d")?;
    let key = name_of("s")?;
    Ok(run_update(crew, store, feed, out, err, &dataset, &key))
}

// The status of an update.
fn call<R: Threads + Wait + Sync>(
    rt: &R,
    alloc: Global,
    store: &mut MemoryStore,
    feed: &mut MemoryFeed,
    out: &mut MemoryOutlet,
    err: &mut MemoryOutlet,
    workers: u32,
) -> Result<Status, Fail> {
    let crew = Crew::of(rt, alloc, workers, &FreeGate);
    call_crew(&crew, store, feed, out, err)
}

// The status of an update is the row's, and so is the line that is printed or told.
fn check_told(rt: &impl Abort, status: Status, out: &MemoryOutlet, err: &MemoryOutlet, row: &Row) {
    assert_eq!(rt; status, row.status, "at {}", row.line);
    let told = if status == Status::Ok { out } else { err };
    assert!(rt; told.written() == row.line.as_bytes(), "at {}", row.line);
}

// The writes of a row into a store, by so many workers, while calls of the feed and the output fail.
fn check_store<R: Threads + Wait + Abort + Sync>(
    rt: &R,
    alloc: Global,
    store: &mut MemoryStore,
    row: &Row,
    workers: u32,
    faults: &Faults,
) -> Result<(), Fail> {
    let piece = usize::from(faults.piece.max(1));
    let mut feed = MemoryFeed::new(stream_of(alloc, row)?, piece, faults.feed.to_vec(alloc)?);
    let mut out = outlet_of(alloc, piece, faults.out)?;
    let mut err = outlet_of(alloc, piece, &[])?;
    let status = call(rt, alloc, store, &mut feed, &mut out, &mut err, workers)?;
    check_told(rt, status, &out, &err, row);
    Ok(())
}

// The store of a row, of whose calls those with some numbers fail.
fn row_store(alloc: Global, row: &Row, failing: &[u64]) -> Result<MemoryStore, Fail> {
    let mut store = store_of(alloc, row.before, failing)?;
    put(alloc, &mut store, "d/info", row.info.as_bytes())?;
    Ok(store)
}

// A row, by so many workers, while calls fail.
fn check<R: Threads + Wait + Abort + Sync>(
    rt: &R,
    alloc: Global,
    row: &Row,
    workers: u32,
    faults: &Faults,
) -> Result<(), Fail> {
    let mut store = row_store(alloc, row, faults.store)?;
    check_store(rt, alloc, &mut store, row, workers, faults)?;
    assert!(rt; has_all(&store, row.after), "at {}", row.line);
    Ok(())
}

// The rows of a table, by so many workers, in pieces of so many bytes.
fn check_rows<R: Threads + Wait + Abort + Sync>(
    rt: &R,
    alloc: Global,
    rows: &[Row],
    workers: u32,
    piece: u8,
) -> Result<(), Fail> {
    let faults = Faults { piece, ..NO_FAULTS };
    for row in rows {
        check(rt, alloc, row, workers, &faults)?;
    }
    Ok(())
}
