//! Calls of the store, the feed and the output that fail.

use super::shards::{OLD_PAIR, SECOND};
use super::{Faults, NEW_POINTS, NO_FAULTS, OLD_POINTS, Object, Row, THREE, check};
use command_base::Status;
use std::alloc::Global;
use std::process::Abort;
use std::sync::Wait;
use std::test::Fail;
use std::thread::Threads;

const STORE_FAULT: Row = Row {
    status: Status::StoreFault,
    line: "store fault\n",
    ..THREE
};

// An update by one worker while a call of the store fails.
fn check_call<R: Threads + Wait + Abort + Sync>(
    rt: &R,
    alloc: Global,
    row: &Row,
    call: u64,
) -> Result<(), Fail> {
    let faults = Faults {
        store: &[call],
        ..NO_FAULTS
    };
    check(rt, alloc, row, 1, &faults)
}

// Three cells are updated while a call of the store fails: these objects stand then.
fn check_after<R: Threads + Wait + Abort + Sync>(
    rt: &R,
    alloc: Global,
    call: u64,
    after: &[Object],
) -> Result<(), Fail> {
    let row = Row {
        after,
        ..STORE_FAULT
    };
    check_call(rt, alloc, &row, call)
}

// The first objects are new then, the others as before.
fn check_points<R: Threads + Wait + Abort + Sync>(
    rt: &R,
    alloc: Global,
    call: u64,
    count: usize,
) -> Result<(), Fail> {
    let there = NEW_POINTS.get(..count).unwrap_or(NEW_POINTS);
    check_after(rt, alloc, call, there)?;
    let others = OLD_POINTS.get(count..).unwrap_or(OLD_POINTS);
    check_after(rt, alloc, call, others)
}

// How many new objects stand where call k of the store fails: the document is read, and the three old chunks, and each new one
// is begun, appended to and finished.
const NEW_ONES: &[usize] = &[0, 0, 0, 0, 0, 0, 0, 1, 1, 1, 2, 2, 2];

// Each call of the store in turn.
fn check_new_ones<R: Threads + Wait + Abort + Sync>(
    rt: &R,
    alloc: Global,
    counts: &[usize],
) -> Result<(), Fail> {
    for (call, count) in counts.iter().enumerate() {
        check_points(rt, alloc, call as u64, *count)?;
    }
    Ok(())
}

// A chunk in a shard that isn't written anew.
const OLD_SECOND: Row = Row {
    status: Status::StoreFault,
    line: "store fault\n",
    after: OLD_PAIR,
    ..SECOND
};

// Each call of the store by which it is.
const SHARD_CALLS: u64 = 36;

#[test]
fn tells_failing_stores(rt: HostRuntime) -> Result<(), Fail> {
    check_new_ones(&rt, rt.alloc(), NEW_ONES)?;
    for call in 0..SHARD_CALLS {
        check_call(&rt, rt.alloc(), &OLD_SECOND, call)?;
    }
    check_call(&rt, rt.alloc(), &SECOND, SHARD_CALLS)
}

const FEED_FAULT: Row = Row {
    status: Status::FeedFault,
    line: "feed fault\n",
    after: OLD_POINTS,
    ..THREE
};

fn check_feed<R: Threads + Wait + Abort + Sync>(
    rt: &R,
    alloc: Global,
    call: u64,
) -> Result<(), Fail> {
    let faults = Faults {
        feed: &[call],
        ..NO_FAULTS
    };
    check(rt, alloc, &FEED_FAULT, 1, &faults)
}

const OUT_FAULT: Row = Row {
    status: Status::OutFault,
    line: "output fault\n",
    ..THREE
};

fn check_out<R: Threads + Wait + Abort + Sync>(
    rt: &R,
    alloc: Global,
    call: u64,
) -> Result<(), Fail> {
    let faults = Faults {
        out: &[call],
        piece: 1,
        ..NO_FAULTS
    };
    check(rt, alloc, &OUT_FAULT, 1, &faults)
}

#[test]
fn tells_failing_feeds(rt: HostRuntime) -> Result<(), Fail> {
    for call in 0..5 {
        check_feed(&rt, rt.alloc(), call)?;
    }
    Ok(())
}

#[test]
fn tells_failing_outputs(rt: HostRuntime) -> Result<(), Fail> {
    for call in 0..18 {
        check_out(&rt, rt.alloc(), call)?;
    }
    Ok(())
}
