//! Commands over files in memory, as calls of the system see and change them, each of which fails in turn: nothing wrong ends well,
//! and each voxel is as it was or as it is to be.

use crate::tests::words_of;
use crate::top::run_in;
use folder_store::{DirStore, MemoryFolder, put_one};
use memory_rows::{name_of, outlet_of};
use std::alloc::Global;
use std::process::Abort;
use std::sync::Wait;
use std::test::Fail;
use std::thread::Threads;
use vol_base::{FreeGate, MemoryFeed, MemoryOutlet};
use vol_shell::NoDoor;

// Three voxels in a row, each a chunk: in files, and in two shards.
const FILES: &[u8] =
    b"{\"type\":\"image\",\"data_type\":\"uint8\",\"num_channels\":1,\"scales\":[{\"key\":\"s\",\"size\":[3,1,1],\"chunk_sizes\":[[1,1,1]],\"resolution\":[8,8,40],\"encoding\":\"raw\"}]}";

const SHARDS: &[u8] =
    b"{\"type\":\"image\",\"data_type\":\"uint8\",\"num_channels\":1,\"scales\":[{\"key\":\"s\",\"size\":[3,1,1],\"chunk_sizes\":[[1,1,1]],\"resolution\":[8,8,40],\"encoding\":\"raw\",\"sharding\":{\"@type\":\"neuroglancer_uint64_sharded_v1\",\"preshift_bits\":0,\"hash\":\"identity\",\"minishard_bits\":0,\"shard_bits\":1}}]}";

// One write of all three voxels, and one of the last two.
const THREE: &[u8] =
    b"PVW1\x01\0\0\0\0\0\0\0\0\0\0\0\0\0\0\0\0\0\0\0\0\0\0\0\0\0\0\0\x03\0\0\0\0\0\0\0\x01\0\0\0\0\0\0\0\x01\0\0\0\0\0\0\0\x01\x02\x03";

const TWO: &[u8] =
    b"PVW1\x01\0\0\0\x01\0\0\0\0\0\0\0\0\0\0\0\0\0\0\0\0\0\0\0\0\0\0\0\x02\0\0\0\0\0\0\0\x01\0\0\0\0\0\0\0\x01\0\0\0\0\0\0\0\x08\x09";

// A document, the stream that was written before, if any; the words of a command and its stream; the voxels before and after
// it, and what it prints.
struct Row {
    info: &'static [u8],
    earlier: &'static [u8],
    words: &'static str,
    stream: &'static [u8],
    before: [u8; 3],
    after: [u8; 3],
    printed: &'static [u8],
}

const CUTOUT: &str = "cutout d s [0:3,0:1,0:1]";

const ROWS: [Row; 6] = [
    Row {
        info: FILES,
        earlier: &[],
        words: "write d s",
        stream: THREE,
        before: [0, 0, 0],
        after: [1, 2, 3],
        printed: b"objects 3 cells 3\n",
    },
    Row {
        info: FILES,
        earlier: THREE,
        words: "update d s",
        stream: TWO,
        before: [1, 2, 3],
        after: [1, 8, 9],
        printed: b"objects 2 cells 2\n",
    },
    Row {
        info: FILES,
        earlier: THREE,
        words: CUTOUT,
        stream: &[],
        before: [1, 2, 3],
        after: [1, 2, 3],
        printed: &[1, 2, 3],
    },
    Row {
        info: SHARDS,
        earlier: &[],
        words: "write d s",
        stream: THREE,
        before: [0, 0, 0],
        after: [1, 2, 3],
        printed: b"objects 2 cells 3\n",
    },
    Row {
        info: SHARDS,
        earlier: THREE,
        words: "update d s",
        stream: TWO,
        before: [1, 2, 3],
        after: [1, 8, 9],
        printed: b"objects 2 cells 3\n",
    },
    Row {
        info: SHARDS,
        earlier: THREE,
        words: CUTOUT,
        stream: &[],
        before: [1, 2, 3],
        after: [1, 2, 3],
        printed: &[1, 2, 3],
    },
];

// How a call fails: by an error, or since a signal broke it off, if it reads or writes: that is tried again.
#[derive(Clone, Copy)]
enum Failure {
    Error,
    Signal,
}

// The status of a command, with what it prints, and the files after it.
fn call_over<R: Threads + Wait + Sync>(
    rt: &R,
    alloc: Global,
    words: &str,
    stream: &[u8],
    folder: MemoryFolder,
    out: &mut MemoryOutlet,
) -> Result<(u8, MemoryFolder), Fail> {
    let words = words_of(alloc, words)?;
    let mut feed = MemoryFeed::new(stream.to_vec(alloc)?, 64, Vec::new(alloc));
    let mut err = outlet_of(alloc, 64, &[])?;
    let mut door = NoDoor::new();
    let (status, folder) = run_in(
        rt, alloc, &words, folder, &mut feed, out, &mut err, &mut door, &FreeGate,
    );
    Ok((status.number(), folder))
}

// The files before a command.
fn prepare<R: Threads + Wait + Sync>(
    rt: &R,
    alloc: Global,
    row: &Row,
) -> Result<MemoryFolder, Fail> {
    let mut store = DirStore::new(MemoryFolder::new(alloc, 48), alloc);
    if put_one(&mut store, &name_of("d/info")?, row.info).is_err() {
        return Err(Fail::from("no document"));
    }
    let folder = store.into_folder();
    if row.earlier.is_empty() {
        return Ok(folder);
    }
    let mut out = outlet_of(alloc, 64, &[])?;
    let (_, folder) = call_over(rt, alloc, "write d s", row.earlier, folder, &mut out)?;
    Ok(folder)
}

// Whether each voxel is as it was or as it is to be.
fn is_between(found: &[u8], row: &Row) -> bool {
    found.len() == 3
        && found
            .iter()
            .zip(row.before.iter().zip(row.after.iter()))
            .all(|(found, (before, after))| found == before || found == after)
}

// The voxels that a cutout gives of files whose calls don't fail any more.
fn cut_anew<R: Threads + Wait + Abort + Sync>(
    rt: &R,
    alloc: Global,
    mut folder: MemoryFolder,
) -> Result<MemoryOutlet, Fail> {
    folder.failing.clear();
    folder.broken_off.clear();
    let mut out = outlet_of(alloc, 64, &[])?;
    let (status, _) = call_over(rt, alloc, CUTOUT, &[], folder, &mut out)?;
    assert_eq!(rt; status, 0);
    Ok(out)
}

// A command of which the call of a number fails. Whether there was such a call.
fn check_failing<R: Threads + Wait + Abort + Sync>(
    rt: &R,
    alloc: Global,
    row: &Row,
    failure: Failure,
    number: u64,
) -> Result<bool, Fail> {
    let words = row.words;
    let mut folder = prepare(rt, alloc, row)?;
    let at = folder.calls.saturating_add(number);
    match failure {
        Failure::Error => folder.failing.push(at)?,
        Failure::Signal => folder.broken_off.push(at)?,
    }
    let mut out = outlet_of(alloc, 64, &[])?;
    let (status, folder) = call_over(rt, alloc, words, row.stream, folder, &mut out)?;
    let was_made = folder.calls > at;
    let found = cut_anew(rt, alloc, folder)?;
    assert!(rt; is_between(found.written(), row), "{words}, call {number}");
    assert!(rt;
        row.printed.starts_with(out.written()),
        "{words}, call {number}"
    );
    if status == 0 || matches!(failure, Failure::Signal) {
        assert_eq!(rt; status, 0, "{words}, call {number}");
        assert!(rt;
            found.written() == row.after.as_slice(),
            "{words}, call {number}"
        );
        assert!(rt; out.written() == row.printed, "{words}, call {number}");
    } else {
        assert_eq!(rt; status, 5, "{words}, call {number}");
        assert!(rt; was_made, "{words}, call {number}");
    }
    Ok(was_made)
}

fn check_each<R: Threads + Wait + Abort + Sync>(
    rt: &R,
    alloc: Global,
    row: &Row,
    failure: Failure,
) -> Result<(), Fail> {
    for number in 0..200u64 {
        if !check_failing(rt, alloc, row, failure, number)? {
            assert!(rt; number > 10, "only {number} calls");
            return Ok(());
        }
    }
    Err(Fail::from("too many calls"))
}

#[test]
fn each_call_fails(rt: HostRuntime) -> Result<(), Fail> {
    for row in &ROWS {
        check_each(&rt, rt.alloc(), row, Failure::Error)?;
    }
    Ok(())
}

#[test]
fn each_call_is_broken_off(rt: HostRuntime) -> Result<(), Fail> {
    for row in &ROWS {
        check_each(&rt, rt.alloc(), row, Failure::Signal)?;
    }
    Ok(())
}
