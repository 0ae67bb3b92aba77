//! A round by two workers, one of which is held.
ghost use Rattle.std.specs.Prelude.{◌≡◌, ◌≤◌, ◌<◌, IfOk, length};
ghost use Rattle.encode_round.specs.Serving.{ServesBench, size_in};
ghost use Rattle.vol_spec.specs.Writable.{IsWritable};
ghost use Rattle.write_plan.specs.Jobs.{FitsWindow};

use encode_round::{Bench, run_round, run_within};
use holding_gate::HoldingGate;
use job_log::Event;
use small_scales::{raw_scale, short_name};
use std::alloc::Global;
use std::process::Abort;
use std::sync::Wait;
use std::test::Fail;
use std::thread::Threads;
use vol_base::{FreeGate, MemoryFeed, MemoryStore};
use vol_spec::Scale;
use write_plan::{Chunks, Plan, read_writes, window};

// Three voxels in a row, with the values 1, 2 and 3.
const STREAM: [u8; 59] = [
    80, 86, 87, 49, 1, 0, 0, 0, // PVW1, one write
    0, 0, 0, 0, 0, 0, 0, 0, 0, 0, 0, 0, 0, 0, 0, 0, 0, 0, 0, 0, 0, 0, 0, 0, // from 0, 0, 0
    3, 0, 0, 0, 0, 0, 0, 0, 1, 0, 0, 0, 0, 0, 0, 0, 1, 0, 0, 0, 0, 0, 0, 0, // 3 by 1 by 1
    1, 2, 3,
];

// The plan of these writes.
fn plan_of(alloc: Global, scale: &Scale) -> Result<Plan, Fail>
    ensures { IfOk result (λ plan. plan.scale ≡ scale.now) }
{
    let stream = Vec::from_slice(alloc, &STREAM)?;
    let mut feed = MemoryFeed::new(stream, 64, Vec::new(alloc));
    let Ok(writes) = read_writes(alloc, &mut feed, scale) else {
        return Err("the stream has no fault".into());
    };
    let Ok(plan) = Plan::of(alloc, scale, writes) else {
        return Err("the plan has no refusal".into());
    };
    Ok(plan)
}

// One round of the first three jobs.
fn run_three<R: Threads + Wait + Sync, C: Chunks + Sync>(
    rt: &R,
    chunks: &mut C,
    store: &mut MemoryStore,
    scale: &Scale,
    bench: &mut Bench,
    gate: &HoldingGate,
) -> Result<(), Fail>
    requires scale { (C.work chunks.old).scale ≡ scale.now }
    requires count { 3 ≤ length (C.work chunks.old).cells }
    requires bench { ServesBench scale.now bench.old }
    requires size { 3 ≤ size_in bench.old }
    requires window { FitsWindow C.holding (C.work chunks.old).scale 3 }
    requires writable { IsWritable scale.now }
{
    chunks.forget();
    let Ok(()) = chunks.prepare(store, 0, 3) else {
        return Err("preparing doesn't fail".into());
    };
    run_round(rt, chunks, scale, bench, 0, 3, gate);
    Ok(())
}

// Where the log has an event.
fn find(rt: &impl Abort, log: &[Event], event: Event) -> usize {
    log.iter().position(|e| *e == event).expect(rt, "the event")
}

// A job's moments were told with one seat, which the log has too; answers it, and where the deposit stands.
fn check_job(rt: &impl Abort, gate: &HoldingGate, log: &[Event], job: u64) -> (u32, usize) {
    let seat = gate.claimed(job).expect(rt, "a claim");
    assert!(rt; gate.deposited(job) == Some(seat));
    find(rt, log, Event::Claim { seat, job });
    (seat, find(rt, log, Event::Deposit { seat, job }))
}

// Job 1 was deposited by one seat while another was held with job 0, and the log has no more than each job's moments.
fn check_log(rt: &impl Abort, gate: &HoldingGate, log: &[Event]) {
    assert!(rt; gate.was_passed());
    let (first, late) = check_job(rt, gate, log, 0);
    let (second, early) = check_job(rt, gate, log, 1);
    check_job(rt, gate, log, 2);
    assert!(rt; first != second);
    assert!(rt; early < late);
    assert!(rt; log.len() == 6);
}

fn check_done(rt: &impl Abort, bench: &Bench) {
    assert!(rt; bench.done(0) == [1].as_slice());
    assert!(rt; bench.done(1) == [2].as_slice());
    assert!(rt; bench.done(2) == [3].as_slice());
}

// Encodes three jobs by two workers.
fn check_round<R: Threads + Wait + Abort + Sync>(
    rt: &R,
    alloc: Global,
    scale: &Scale,
    plan: &mut Plan,
    gate: &HoldingGate,
) -> Result<(), Fail>
    requires { plan.old.scale ≡ scale.now }
{
    assert!(rt; scale.can_encode());
    assert!(rt; plan.jobs().len() == 3 && window(scale) >= 3);
    let mut store = MemoryStore::new(alloc, Vec::new(alloc));
    let mut bench = Bench::reserve(alloc, scale, 2, 3)?;
    run_three(rt, plan, &mut store, scale, &mut bench, gate)?;
    check_log(rt, gate, bench.log());
    check_done(rt, &bench);
    Ok(())
}

#[test]
fn two_workers(rt: HostRuntime) -> Result<(), Fail> {
    let alloc = rt.alloc();
    let key = short_name(b"s").expect(&rt, "a key");
    let scale = raw_scale(key, 1, 1, [3, 1, 1], [0; 3], [1; 3]).expect(&rt, "a scale");
    let mut plan = plan_of(alloc, &scale)?;
    check_round(&rt, alloc, &scale, &mut plan, &HoldingGate::new())
}

// How many of the first three jobs, of a byte each, one worker does in a round that ends once it has so many bytes.
fn count_done<R: Threads + Wait + Sync, C: Chunks + Sync>(
    rt: &R,
    chunks: &mut C,
    store: &mut MemoryStore,
    scale: &Scale,
    bench: &mut Bench,
    limit: Option<u64>,
) -> Result<u64, Fail>
    requires scale { (C.work chunks.old).scale ≡ scale.now }
    requires count { 3 ≤ length (C.work chunks.old).cells }
    requires bench { ServesBench scale.now bench.old }
    requires size { 3 ≤ size_in bench.old }
    requires window { FitsWindow C.holding (C.work chunks.old).scale 3 }
    requires writable { IsWritable scale.now }
{
    chunks.forget();
    let Ok(()) = chunks.prepare(store, 0, 3) else {
        return Err("preparing doesn't fail".into());
    };
    Ok(run_within(rt, chunks, scale, bench, 0, 3, limit, &FreeGate))
}

// A round ends behind the job that brings it to its bytes, and not before the first one.
fn check_ends<R: Threads + Wait + Abort + Sync>(
    rt: &R,
    alloc: Global,
    scale: &Scale,
    plan: &mut Plan,
    limit: Option<u64>,
    jobs: u64,
) -> Result<(), Fail>
    requires { plan.old.scale ≡ scale.now }
{
    assert!(rt; scale.can_encode());
    assert!(rt; plan.jobs().len() == 3 && window(scale) >= 3);
    let mut store = MemoryStore::new(alloc, Vec::new(alloc));
    let mut bench = Bench::reserve(alloc, scale, 1, 3)?;
    let done = count_done(rt, plan, &mut store, scale, &mut bench, limit)?;
    assert_eq!(rt; done, jobs);
    assert_eq!(rt; bench.log().len() as u64, jobs.saturating_mul(2));
    Ok(())
}

#[test]
fn ends_once_it_has_enough(rt: HostRuntime) -> Result<(), Fail> {
    let alloc = rt.alloc();
    let key = short_name(b"s").expect(&rt, "a key");
    let scale = raw_scale(key, 1, 1, [3, 1, 1], [0; 3], [1; 3]).expect(&rt, "a scale");
    for (limit, jobs) in [
        (None, 3),
        (Some(4), 3),
        (Some(2), 2),
        (Some(1), 1),
        (Some(0), 1),
    ] {
        let mut plan = plan_of(alloc, &scale)?;
        check_ends(&rt, alloc, &scale, &mut plan, limit, jobs)?;
    }
    Ok(())
}
