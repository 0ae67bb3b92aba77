//! That an update has as many workers as it is told.

use super::{NEW_POINTS, THREE, call_crew, stream_of};
use command_base::{Crew, Status};
use holding_gate::HoldingGate;
use memory_rows::{has_all, outlet_of, put, store_of};
use std::alloc::Global;
use std::sync::Wait;
use std::test::Fail;
use std::thread::Threads;
use vol_base::{MemoryFeed, MemoryStore};

// Three cells are updated by two workers, who call a gate.
fn update_points<R: Threads + Wait + Sync>(
    rt: &R,
    alloc: Global,
    store: &mut MemoryStore,
    gate: &HoldingGate,
) -> Result<Status, Fail> {
    put(alloc, store, "d/info", THREE.info.as_bytes())?;
    let mut feed = MemoryFeed::new(stream_of(alloc, &THREE)?, 7, Vec::new(alloc));
    let mut out = outlet_of(alloc, 7, &[])?;
    let mut err = outlet_of(alloc, 7, &[])?;
    let crew = Crew::of(rt, alloc, 2, gate);
    call_crew(&crew, store, &mut feed, &mut out, &mut err)
}

// While one worker is held with the first chunk, another one encodes the second.
#[test]
fn two_workers(rt: HostRuntime) -> Result<(), Fail> {
    let alloc = rt.alloc();
    let mut store = store_of(alloc, THREE.before, &[])?;
    let gate = HoldingGate::new();
    let status = update_points(&rt, alloc, &mut store, &gate)?;
    assert_eq!(rt; status, Status::Ok);
    assert!(rt; gate.was_passed());
    assert!(rt; gate.claimed(0) != gate.claimed(1));
    assert!(rt; has_all(&store, NEW_POINTS));
    Ok(())
}
