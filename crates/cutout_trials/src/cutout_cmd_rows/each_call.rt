//! Cutouts of shards of which one call fails, each in turn, until none does.

use super::damages::{FOUR, FOUR_CHUNKS, FOUR_LAYERS, SIX, SIX_CELLS, SIX_CHUNKS};
use super::{Cut, call};
use command_base::Status;
use memory_rows::{outlet_of, store_of};
use std::alloc::Global;
use std::process::Abort;
use std::test::Fail;

// Where a call failed, a front of the values was written, and its fault is told. Answers whether one did.
fn has_failed(
    rt: &impl Abort,
    cut: &Cut,
    fault: (Status, &str),
    status: Status,
    out: &[u8],
    err: &[u8],
) -> bool {
    if status == Status::Ok {
        assert!(rt; out == cut.out && err.is_empty());
        return false;
    }
    let (wanted, line) = fault;
    assert_eq!(rt; status, wanted);
    assert!(rt; err == line.as_bytes() && cut.out.starts_with(out));
    true
}

// A cutout out of a shard while these calls of the store and of the output fail. Answers whether one did.
fn fails(
    rt: &impl Abort,
    alloc: Global,
    objects: &[(&str, &[u8])],
    cut: &Cut,
    failing: [&[u64]; 2],
    fault: (Status, &str),
) -> Result<bool, Fail> {
    let mut store = store_of(alloc, objects, failing[0])?;
    let mut out = outlet_of(alloc, 1, failing[1])?;
    let mut err = outlet_of(alloc, 64, &[])?;
    let status = call(alloc, &mut store, &mut out, &mut err, cut.key, cut.part)?;
    let (out, err) = (out.written(), err.written());
    Ok(has_failed(rt, cut, fault, status, out, err))
}

const STORE_FAULT: (Status, &str) = (Status::StoreFault, "store fault\n");

const OUT_FAULT: (Status, &str) = (Status::OutFault, "output fault\n");

// How many calls of the store there are.
fn count_reads(
    rt: &impl Abort,
    alloc: Global,
    objects: &[(&str, &[u8])],
    cut: &Cut,
) -> Result<u64, Fail> {
    for k in 0..99 {
        if !fails(rt, alloc, objects, cut, [&[k], &[]], STORE_FAULT)? {
            return Ok(k);
        }
    }
    Err(Fail::from("a call too many"))
}

// And of the output.
fn count_writes(
    rt: &impl Abort,
    alloc: Global,
    objects: &[(&str, &[u8])],
    cut: &Cut,
) -> Result<u64, Fail> {
    for k in 0..99 {
        if !fails(rt, alloc, objects, cut, [&[], &[k]], OUT_FAULT)? {
            return Ok(k);
        }
    }
    Err(Fail::from("a call too many"))
}

fn check_calls(
    rt: &impl Abort,
    alloc: Global,
    info: &[u8],
    shard: &[u8],
    cut: &Cut,
    reads: u64,
    writes: u64,
) -> Result<(), Fail> {
    let objects = [("d/info", info), ("d/s/0.shard", shard)];
    assert_eq!(rt; count_reads(rt, alloc, &objects, cut)?, reads);
    assert_eq!(rt; count_writes(rt, alloc, &objects, cut)?, writes);
    Ok(())
}

// The document; and each time that an index is opened the length and the entry, for each window of it three columns, and the
// chunks: each cell of the row in the other minishard than the last, and of the layers one index for all.
#[test]
fn tells_each_failing_call_of_shards(rt: HostRuntime) -> Result<(), Fail> {
    check_calls(&rt, rt.alloc(), SIX_CELLS, SIX_CHUNKS, &SIX, 37, 11)?;
    check_calls(&rt, rt.alloc(), FOUR_LAYERS, FOUR_CHUNKS, &FOUR, 14, 8)
}
