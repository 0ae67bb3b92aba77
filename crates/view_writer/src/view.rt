//! The objects of one view.
ghost use Rattle.std.specs.Prelude.{◌≡◌, ◌≢◌, ◌≤◌, ◌^◌, ℕ, All, Err, IfOk, OnErr, length};
ghost use Rattle.vol_base.specs.Causes.{HasCauseOf};
ghost use Rattle.vol_spec.specs.StoredCells.{met_cells};
ghost use Rattle.vol_spec.specs.Writable.{IsWritable};
ghost use Rattle.write_plan.specs.Plans.{pairs};
ghost use Rattle.write_plan.specs.WriteLists.{IsWriteOf};
ghost use Rattle.shard_writer.specs.Writing.{Drops};
ghost use Rattle.shard_writer.specs.Works.{PassesFronts};
ghost use Rattle.view_writer.specs.Views.{IsFront, IsPut, of_view};

use crate::chunks::PlanChunks;
use crate::done::{ViewDone, ViewsRefusal};
use shard_writer::{WriteFault, Written, write_scale};
use std::alloc::Global;
use std::sync::Wait;
use std::thread::Threads;
use vol_base::{Gate, Name, Store};
use vol_spec::Scale;
use write_plan::{Plan, PlanRefusal, Writes};

// Puts the objects of a plan.
fn put_plan<R, S: Store, G: Gate + Sync>(
    rt: &R,
    alloc: Global,
    store: &mut S,
    dataset: &Name,
    view: &Scale,
    plan: &Plan,
    workers: u32,
    gate: &G,
) -> Result<Written, ViewsRefusal>
where
    R: Threads + Wait + Sync,
    requires dataset { length dataset.now ≤ 200 }
    requires writable { IsWritable view.now }
    requires scale { plan.now.scale ≡ view.now }
    requires few { pairs view.now plan.now.writes ≤ 2 ^ 22 }
    ensures put { IfOk result (IsPut (S.objects store.old) (S.objects store.new)
        (of_view dataset.now view.now plan.now.writes) (length (met_cells view.now plan.now.writes))) }
    ensures front { OnErr result (IsFront (S.objects store.old) (S.objects store.new)
        (of_view dataset.now view.now plan.now.writes)) }
    ensures killed { PassesFronts (λ _. of_view dataset.now view.now plan.now.writes) (S.objects store.old)
        (S.history store.old) (S.history store.new) }
    ensures few { (cells : ℕ) → result ≢ Err (ViewsRefusal.TooManyCells cells) }
    ensures draft { Drops (S.draft store.old) (S.draft store.new) }
    ensures cause { HasCauseOf ViewsRefusal.StoreFault (S.faults store.old) (S.faults store.new) result }
{
    let mut chunks = PlanChunks { plan };
    match write_scale(rt, alloc, store, dataset, view, &mut chunks, workers, gate) {
        Ok(written) => Ok(written),
        Err(WriteFault::StoreFault) => Err(ViewsRefusal::StoreFault),
        Err(WriteFault::Damaged { .. }) => unreachable!(),
        Err(WriteFault::OutOfMemory) => Err(ViewsRefusal::OutOfMemory),
    }
}

/// Writes the objects of one view, and hands the writes back.
pub(crate) fn write_view<R, S: Store, G: Gate + Sync>(
    rt: &R,
    alloc: Global,
    store: &mut S,
    dataset: &Name,
    view: &Scale,
    writes: Writes,
    workers: u32,
    gate: &G,
) -> Result<ViewDone, ViewsRefusal>
where
    R: Threads + Wait + Sync,
    requires dataset { length dataset.now ≤ 200 }
    requires writable { IsWritable view.now }
    requires fits { All (IsWriteOf view.now) writes }
    requires few { pairs view.now writes ≤ 2 ^ 22 }
    ensures put { IfOk result (λ done. IsPut (S.objects store.old) (S.objects store.new)
        (of_view dataset.now view.now writes) (length (met_cells view.now writes)) done.written) }
    ensures front { OnErr result (IsFront (S.objects store.old) (S.objects store.new)
        (of_view dataset.now view.now writes)) }
    ensures killed { PassesFronts (λ _. of_view dataset.now view.now writes) (S.objects store.old)
        (S.history store.old) (S.history store.new) }
    ensures same { IfOk result (λ done. done.writes ≡ writes) }
    ensures few { (cells : ℕ) → result ≢ Err (ViewsRefusal.TooManyCells cells) }
    ensures draft { Drops (S.draft store.old) (S.draft store.new) }
    ensures cause { HasCauseOf ViewsRefusal.StoreFault (S.faults store.old) (S.faults store.new) result }
{
    let plan = match Plan::of(alloc, view, writes) {
        Ok(plan) => plan,
        Err(PlanRefusal::TooManyCells { .. }) => unreachable!(),
        Err(PlanRefusal::OutOfMemory) => return Err(ViewsRefusal::OutOfMemory),
    };
    let written = put_plan(rt, alloc, store, dataset, view, &plan, workers, gate)?;
    Ok(ViewDone {
        written,
        writes: plan.into_writes(),
    })
}
