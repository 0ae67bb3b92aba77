//! The objects of all views, one view after the other.
ghost use Rattle.std.specs.Prelude.{◌≡◌, ◌≢◌, ◌↔◌, ◌≤◌, ◌+◌, ◌-◌, ◌^◌, ℕ, All, Err, IfOk, None, OnErr, Some, length, min};
ghost use Rattle.vol_base.specs.Causes.{HasCauseOf};
ghost use Rattle.vol_base.specs.Outside.{OnlyReads};
ghost use Rattle.vol_spec.specs.Writable.{IsWritable};
ghost use Rattle.write_plan.specs.WriteLists.{IsWriteOf};
ghost use Rattle.shard_writer.specs.Writing.{Drops};
ghost use Rattle.shard_writer.specs.Works.{PassesFronts};
ghost use Rattle.size_laws.specs.Further.{all_views};
ghost use Rattle.size_laws.specs.Sizes.{stored_all};
ghost use Rattle.view_writer.specs.Views.{IsFront, IsPut, PassesViews, cells_all, first_many};

use crate::done::ViewsRefusal;
use crate::pairs::find_many;
use crate::view::write_view;
use shard_writer::Written;
use std::alloc::Global;
use std::sync::Wait;
use std::thread::Threads;
use vol_base::{Gate, Name, Store};
use vol_spec::Scale;
use write_plan::Writes;

// The counts of objects, and those of more. No sum comes near 2^64.
fn add(written: &Written, more: &Written) -> Written
    ensures objects { result.objects ≡ min (written.now.objects + more.now.objects) (2 ^ 64 - 1) }
    ensures cells { result.cells ≡ min (written.now.cells + more.now.cells) (2 ^ 64 - 1) }
    ensures bytes { result.bytes ≡ min (written.now.bytes + more.now.bytes) (2 ^ 64 - 1) }
{
    Written {
        objects: written.objects.saturating_add(more.objects),
        cells: written.cells.saturating_add(more.cells),
        bytes: written.bytes.saturating_add(more.bytes),
    }
}

// Puts the objects of all views, which make few enough pairs.
fn put_views<R, S: Store, G: Gate + Sync>(
    rt: &R,
    alloc: Global,
    store: &mut S,
    dataset: &Name,
    scale: &Scale,
    writes: Writes,
    workers: u32,
    gate: &G,
) -> Result<Written, ViewsRefusal>
where
    R: Threads + Wait + Sync,
    requires dataset { length dataset.now ≤ 200 }
    requires writable { All IsWritable (all_views scale.now) }
    requires fits { All (IsWriteOf scale.now) writes }
    requires few { first_many (all_views scale.now) writes ≡ None }
    ensures put { IfOk result (IsPut (S.objects store.old) (S.objects store.new)
        (stored_all dataset.now (all_views scale.now) writes) (cells_all (all_views scale.now) writes)) }
    ensures front { OnErr result (IsFront (S.objects store.old) (S.objects store.new)
        (stored_all dataset.now (all_views scale.now) writes)) }
    ensures killed { PassesFronts (λ _. stored_all dataset.now (all_views scale.now) writes) (S.objects store.old)
        (S.history store.old) (S.history store.new) }
    ensures few { (cells : ℕ) → result ≢ Err (ViewsRefusal.TooManyCells cells) }
    ensures draft { Drops (S.draft store.old) (S.draft store.new) }
    ensures cause { HasCauseOf ViewsRefusal.StoreFault (S.faults store.old) (S.faults store.new) result }
{
    let first = write_view(rt, alloc, store, dataset, scale, writes, workers, gate)?;
    let mut written = first.written;
    let mut left = first.writes;
    let mut k = 0;
    while k < scale.more.len() {
        k += 1;
        let view = scale.view(k);
        let done = write_view(rt, alloc, store, dataset, &view, left, workers, gate)?;
        written = add(&written, &done.written);
        left = done.writes;
    }
    Ok(written)
}

/// Writes the objects of all views of a scale, one view after the other, as `write_scale` does each of them. The pairs
/// of each view are judged before the first object is put.
///
/// # Errors
/// `TooManyCells` exactly where there are more than 2^22 pairs of a write and a cell that it meets in some view, with
/// their number in the first such view; else `StoreFault` only where the store failed, and `OutOfMemory`: then a front
/// of all these objects was put.
pub fn write_views<R, S: Store, G: Gate + Sync>(
    rt: &R,
    alloc: Global,
    store: &mut S,
    dataset: &Name,
    scale: &Scale,
    writes: Writes,
    workers: u32,
    gate: &G,
) -> Result<Written, ViewsRefusal>
where
    R: Threads + Wait + Sync,
    requires dataset { length dataset.now ≤ 200 }
    requires writable { All IsWritable (all_views scale.now) }
    requires fits { All (IsWriteOf scale.now) writes }
    ensures put { IfOk result (IsPut (S.objects store.old) (S.objects store.new)
        (stored_all dataset.now (all_views scale.now) writes) (cells_all (all_views scale.now) writes)) }
    ensures front { OnErr result (IsFront (S.objects store.old) (S.objects store.new)
        (stored_all dataset.now (all_views scale.now) writes)) }
    ensures killed { PassesViews dataset.now scale.now writes (S.objects store.old) (S.history store.old)
        (S.history store.new) }
    ensures too_many { (cells : ℕ) → (result ≡ Err (ViewsRefusal.TooManyCells cells)) ↔
        (first_many (all_views scale.now) writes ≡ Some cells) }
    ensures kept { (cells : ℕ) → result ≡ Err (ViewsRefusal.TooManyCells cells) →
        OnlyReads (S.objects store.old) (S.objects store.new) (S.draft store.old) (S.draft store.new) }
    ensures draft { Drops (S.draft store.old) (S.draft store.new) }
    ensures cause { HasCauseOf ViewsRefusal.StoreFault (S.faults store.old) (S.faults store.new) result }
{
    if let Some(cells) = find_many(scale, &writes) {
        return Err(ViewsRefusal::TooManyCells { cells });
    }
    put_views(rt, alloc, store, dataset, scale, writes, workers, gate)
}
