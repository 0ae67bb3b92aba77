//! That a reduction has as many workers as it is told.

use crate::answers::outlets_of;
use command_base::{Crew, Status};
use downsample_cmd::run_downsample;
use holding_gate::HoldingGate;
use memory_rows::{has_all, name_of, store_of};
use reduce_laws::Method;
use std::alloc::Global;
use std::sync::Wait;
use std::test::Fail;
use std::thread::Threads;
use vol_base::MemoryStore;

// A row of six voxels, in chunks of two; and one of three, each a chunk.
const SIX: &[u8] =
    b"{\"type\":\"image\",\"data_type\":\"uint8\",\"num_channels\":1,\"scales\":[{\"key\":\"s\",\"size\":[6,1,1],\"chunk_sizes\":[[2,1,1]],\"resolution\":[8,8,40],\"encoding\":\"raw\"},{\"key\":\"t\",\"size\":[3,1,1],\"chunk_sizes\":[[1,1,1]],\"resolution\":[16,16,80],\"encoding\":\"raw\"}]}";

const OBJECTS: &[(&str, &[u8])] = &[
    ("d/info", SIX),
    ("d/s/0-2_0-1_0-1", &[1, 3]),
    ("d/s/2-4_0-1_0-1", &[5, 8]),
    ("d/s/4-6_0-1_0-1", &[9, 9]),
];

const REDUCED: &[(&str, &[u8])] = &[
    ("d/t/0-1_0-1_0-1", &[2]),
    ("d/t/1-2_0-1_0-1", &[6]),
    ("d/t/2-3_0-1_0-1", &[9]),
];

// The three cells are made by two workers, who call a gate.
fn reduce_row<R: Threads + Wait + Sync>(
    rt: &R,
    alloc: Global,
    store: &mut MemoryStore,
    gate: &HoldingGate,
) -> Result<Status, Fail> {
    let dataset = name_of("d")?;
    let key = name_of("s")?;
    let to_key = name_of("t")?;
    let mut outlets = outlets_of(alloc, &[])?;
    let crew = Crew::of(rt, alloc, 2, gate);
    Ok(run_downsample(
        &crew,
        store,
        &mut outlets.out,
        &mut outlets.err,
        &dataset,
        &key,
        &to_key,
        Method::Mean,
    ))
}

// While one worker is held with the first chunk, another one makes the second.
#[test]
fn two_workers(rt: HostRuntime) -> Result<(), Fail> {
    let alloc = rt.alloc();
    let mut store = store_of(alloc, OBJECTS, &[])?;
    let gate = HoldingGate::new();
    let status = reduce_row(&rt, alloc, &mut store, &gate)?;
    assert_eq!(rt; status, Status::Ok);
    assert!(rt; gate.was_passed());
    assert!(rt; gate.claimed(0) != gate.claimed(1));
    assert!(rt; has_all(&store, REDUCED));
    Ok(())
}
