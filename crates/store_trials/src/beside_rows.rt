//! That chunks are filled in and encoded side by side, by as many workers as there are to be.
ghost use Rattle.std.specs.Prelude.{All, IfOk, ◌≡◌};
ghost use Rattle.write_plan.specs.WriteLists.{IsWriteOf};

use holding_gate::Meeting;
use info_doc::scale_of;
use memory_rows::name_of;
use shard_writer::{Written, write_scale};
use std::alloc::Global;
use std::process::Abort;
use std::sync::Wait;
use std::test::Fail;
use std::thread::Threads;
use view_writer::write_views;
use vol_base::{FreeGate, MemoryFeed, MemoryStore, Store};
use vol_spec::Scale;
use write_plan::{Chunks, JobList, Plan, PrepareFault, Writes, read_writes};

// The chunks of a plan, of which the first ones meet while they are filled in.
#[derive(Drop)]
struct MetChunks<'a> {
    plan: &'a Plan,
    meeting: &'a Meeting,
}

impl<'a> Chunks for MetChunks<'a> {
    ghost use Rattle.std.specs.Prelude.{◌≡◌, ◌-◌, ◌≤◌, ◌<◌, ℕ, IsOk, IsSome, OnOk, IfSome, false, length};
    ghost use Rattle.vol_base.specs.Causes.{HasCauseOf};
    ghost use Rattle.write_plan.specs.Jobs.{AreReady, Prepares, jobs_fault};
    ghost use Rattle.write_plan.specs.Plans.{planned_cells, ready_of, work_of};
    ghost use Rattle.write_plan.specs.PlanLaws.{met_jobs, plan_fits, plan_keeps, ready_fits};

    ghost work = { λ c. work_of c.plan.now };

    ghost apart = { λ c dataset s. Unit {0} };

    ghost sure = { λ c. Unit {0} };

    ghost ready = { λ c. ready_of c.plan.now };

    ghost keeps = { λ c objects. Unit {0} };

    ghost holding = { false };

    ghost ordered = { λ c. met_jobs c.plan.now.scale c.plan.now.writes };

    ghost fits = { λ c. ready_fits c.plan.now };

    ghost lens = { λ c m job low. plan_fits c.plan.now job };

    ghost kept = { λ c dataset s apart. plan_keeps c.plan.now dataset s };

    fn jobs(&self) -> &JobList {
        self.plan.jobs()
    }

    fn forget(&mut self) {}

    fn holds_values(&self) -> bool {
        false
    }

    fn prepare<S: Store>(
        &mut self,
        _store: &mut S,
        _from: u64,
        _to: u64,
    ) -> Result<(), PrepareFault>
        requires within { _to ≤ length (planned_cells self.old.plan.now) }
        ensures done { IsOk result }
        ensures prepared { OnOk result ((job : ℕ) → _from ≤ job → job < _to →
            IsSome (ready_of self.new.plan.now job)) }
        ensures ready { OnOk result (IfSome (S.objects _store.old) (λ m.
            AreReady (ready_of self.new.plan.now) ((work_of self.old.plan.now).raw m) _from _to)) }
        ensures answer { IfSome (S.objects _store.old) (λ m.
            Prepares result (jobs_fault (work_of self.old.plan.now) m _from (_to - _from))) }
        ensures sure { Unit {0} → IsOk result × Unit {0} }
        ensures work { work_of self.new.plan.now ≡ work_of self.old.plan.now }
        ensures objects { S.objects _store.new ≡ S.objects _store.old }
        ensures draft { S.draft _store.new ≡ S.draft _store.old }
        ensures history { S.history _store.new ≡ S.history _store.old }
        ensures cause { HasCauseOf PrepareFault.StoreFault (S.faults _store.old) (S.faults _store.new) result }
    {
        Ok(())
    }

    fn fill(&self, job: u64, raw: &mut [u8]) {
        self.meeting.come(job);
        self.plan.fill(job, raw);
    }
}

// Four voxels in a row, each a chunk, and two of them a chunk of the second size.
const RAW: &str =
    "{\"type\":\"image\",\"data_type\":\"uint8\",\"num_channels\":1,\"scales\":[{\"key\":\"s\",\"size\":[8,1,1],\"chunk_sizes\":[[1,1,1],[2,1,1]],\"resolution\":[8,8,40],\"encoding\":\"raw\"}]}";

const LABELS: &str =
    "{\"type\":\"segmentation\",\"data_type\":\"uint32\",\"num_channels\":1,\"scales\":[{\"key\":\"s\",\"size\":[8,1,1],\"chunk_sizes\":[[1,1,1],[2,1,1]],\"resolution\":[8,8,40],\"encoding\":\"compressed_segmentation\",\"compressed_segmentation_block_size\":[8,8,8]}]}";

// The scale of a document.
fn read_scale(alloc: Global, info: &str) -> Result<Scale, Fail> {
    let key = name_of("s")?;
    match scale_of(alloc, info.as_bytes(), &key) {
        Ok(scale) => Ok(scale),
        Err(_) => Err("the document has no fault".into()),
    }
}

// A write of eight values, each of as many bytes as the scale's have.
fn read_eight(alloc: Global, scale: &Scale) -> Result<Writes, Fail>
    ensures { IfOk result (λ writes. All (IsWriteOf scale.now) writes) }
{
    let mut stream = Vec::from_slice(alloc, b"PVW1\x01\0\0\0")?;
    stream.extend_from_slice(&[0; 24])?;
    for size in [8u64, 1, 1] {
        stream.extend_from_slice(&size.to_le_bytes())?;
    }
    for value in 1..9u64 {
        let bytes = value.to_le_bytes();
        stream.extend_from_slice(&bytes[..scale.width.min(8) as usize])?;
    }
    let mut feed = MemoryFeed::new(stream, 64, Vec::new(alloc));
    match read_writes(alloc, &mut feed, scale) {
        Ok(writes) => Ok(writes),
        Err(_) => Err("the stream has no fault".into()),
    }
}

// The plan of them.
fn plan_eight(alloc: Global, scale: &Scale) -> Result<Plan, Fail>
    ensures { IfOk result (λ plan. plan.scale ≡ scale.now) }
{
    let writes = read_eight(alloc, scale)?;
    match Plan::of(alloc, scale, writes) {
        Ok(plan) => Ok(plan),
        Err(_) => Err("the plan has no refusal".into()),
    }
}

// So many of the first jobs are filled in at once where as many workers write a scale.
fn check_fills<R: Threads + Wait + Abort + Sync>(
    rt: &R,
    alloc: Global,
    scale: &Scale,
    seats: usize,
    workers: u32,
) -> Result<(), Fail> {
    let plan = plan_eight(alloc, scale)?;
    let meeting = Meeting::of(seats);
    let mut chunks = MetChunks {
        plan: &plan,
        meeting: &meeting,
    };
    let dataset = name_of("d")?;
    assert!(rt; plan.jobs().len() <= 1 << 22);
    assert!(rt; scale.can_encode());
    let mut store = MemoryStore::new(alloc, Vec::new(alloc));
    let answer = write_scale(
        rt,
        alloc,
        &mut store,
        &dataset,
        scale,
        &mut chunks,
        workers,
        &FreeGate,
    );
    assert!(rt; answer.is_ok());
    assert_eq!(rt; meeting.met(), seats as u64);
    Ok(())
}

#[test]
fn fills_raw_chunks_side_by_side(rt: HostRuntime) -> Result<(), Fail> {
    let scale = read_scale(rt.alloc(), RAW)?;
    check_fills(&rt, rt.alloc(), &scale, 2, 2)
}

#[test]
fn fills_labels_side_by_side(rt: HostRuntime) -> Result<(), Fail> {
    let scale = read_scale(rt.alloc(), LABELS)?;
    check_fills(&rt, rt.alloc(), &scale, 2, 2)?;
    check_fills(&rt, rt.alloc(), &scale, 4, 4)?;
    check_fills(&rt, rt.alloc(), &scale, 4, 16)
}

#[test]
fn fills_a_second_size_side_by_side(rt: HostRuntime) -> Result<(), Fail> {
    let scale = read_scale(rt.alloc(), LABELS)?;
    if scale.more.len() < 1 {
        return Err("it has two chunk sizes".into());
    }
    check_fills(&rt, rt.alloc(), &scale.view(1), 4, 4)
}

// So many seats are at work at once on each of two chunk sizes.
fn check_views<R: Threads + Wait + Abort + Sync>(
    rt: &R,
    alloc: Global,
    info: &str,
    seats: usize,
    workers: u32,
) -> Result<(), Fail> {
    let scale = read_scale(alloc, info)?;
    let writes = read_eight(alloc, &scale)?;
    let dataset = name_of("d")?;
    assert!(rt; view_writer::find_wide(&scale).is_none());
    let meeting = Meeting::of(seats);
    let mut store = MemoryStore::new(alloc, Vec::new(alloc));
    let answer = write_views(
        rt, alloc, &mut store, &dataset, &scale, writes, workers, &meeting,
    );
    let Ok(Written { objects, .. }) = answer else {
        return Err("the store doesn't fail".into());
    };
    assert_eq!(rt; objects, 12);
    assert_eq!(rt; meeting.met(), (seats as u64).saturating_mul(2));
    Ok(())
}

#[test]
fn seats_work_at_each_size(rt: HostRuntime) -> Result<(), Fail> {
    check_views(&rt, rt.alloc(), RAW, 2, 2)?;
    check_views(&rt, rt.alloc(), LABELS, 2, 2)?;
    check_views(&rt, rt.alloc(), LABELS, 4, 4)
}
