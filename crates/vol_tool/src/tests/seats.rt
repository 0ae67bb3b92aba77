//! That as many workers are at work at once as there are to be, on each chunk size.

use super::words_of;
use crate::top::run;
use holding_gate::Meeting;
use memory_rows::{outlet_of, store_of};
use std::alloc::Global;
use std::process::Abort;
use std::sync::Wait;
use std::test::Fail;
use std::thread::Threads;
use vol_base::MemoryFeed;
use vol_shell::NoDoor;

// Eight voxels in a row, each a chunk, and two of them a chunk of the second size.
const LABELS: &[u8] =
    b"{\"type\":\"segmentation\",\"data_type\":\"uint32\",\"num_channels\":1,\"scales\":[{\"key\":\"s\",\"size\":[8,1,1],\"chunk_sizes\":[[1,1,1],[2,1,1]],\"resolution\":[8,8,40],\"encoding\":\"compressed_segmentation\",\"compressed_segmentation_block_size\":[8,8,8]}]}";

// One write of all of them.
const EIGHT: &[u8] =
    b"PVW1\x01\0\0\0\0\0\0\0\0\0\0\0\0\0\0\0\0\0\0\0\0\0\0\0\0\0\0\0\x08\0\0\0\0\0\0\0\x01\0\0\0\0\0\0\0\x01\0\0\0\0\0\0\0\x01\0\0\0\x02\0\0\0\x03\0\0\0\x04\0\0\0\x05\0\0\0\x06\0\0\0\x07\0\0\0\x08\0\0\0";

// Of a write by so many workers as many seats as these are at work at once, on each of both sizes.
fn check_seats<R: Threads + Wait + Abort + Sync>(
    rt: &R,
    alloc: Global,
    line: &str,
    seats: usize,
) -> Result<(), Fail> {
    let words = words_of(alloc, line)?;
    let mut store = store_of(alloc, &[("g/info", LABELS)], &[])?;
    let mut feed = MemoryFeed::new(EIGHT.to_vec(alloc)?, 7, Vec::new(alloc));
    let mut out = outlet_of(alloc, 7, &[])?;
    let mut err = outlet_of(alloc, 7, &[])?;
    let mut door = NoDoor::new();
    let meeting = Meeting::of(seats);
    let status = run(
        rt, alloc, &words, &mut store, &mut feed, &mut out, &mut err, &mut door, &meeting,
    );
    assert_eq!(rt; status.number(), 0);
    assert_eq!(rt; meeting.met(), (seats as u64).saturating_mul(2), "{line}");
    Ok(())
}

#[test]
fn four_workers(rt: HostRuntime) -> Result<(), Fail> {
    check_seats(&rt, rt.alloc(), "write g s --workers=2", 2)?;
    check_seats(&rt, rt.alloc(), "write g s --workers=4", 4)?;
    check_seats(&rt, rt.alloc(), "write g s --workers=16", 4)
}
