//! Writes over what a scale holds.
ghost use Rattle.std.specs.Prelude.{◌≡◌, ◌≤◌, ◌^◌, All, Err, length, IfErr, IfSome, None, OnOk, Some};
ghost use Rattle.vol_base.specs.Bytes.{AreBytes};
ghost use Rattle.vol_base.specs.Causes.{HasCauseOf};
ghost use Rattle.vol_spec.specs.Writable.{IsWritable};
ghost use Rattle.command_base.specs.Scales.{HasOneSize};
ghost use Rattle.cell_lists.specs.Lists.{AreDistinct, Lists};
ghost use Rattle.shard_writer.specs.Writing.{Drops};
ghost use Rattle.shard_writer.specs.Works.{PassesFronts};
ghost use Rattle.update_laws.specs.Overlaid.{is_after};
ghost use Rattle.write_plan.specs.Plans.{pairs};
ghost use Rattle.write_plan.specs.WriteLists.{IsWriteOf};
ghost use Rattle.update_cmd.specs.Putting.{DropsOrUpdates, IsLate, KeepsStore, Updates, UpdatesPlanned, UpdatesScale, not_planned, refused};
ghost use Rattle.update_cmd.specs.Updating.{update_list};

use crate::UpdateFault;
use crate::putting::put_updates;
use command_base::Crew;
use kept_cells::{KeepRefusal, gather_cells};
use shard_writer::Written;
use std::sync::Wait;
use std::thread::Threads;
use updater::Updater;
use vol_base::{Gate, Name, Store};
use vol_spec::{Scale, StoredScale};
use write_plan::{Plan, PlanRefusal, Writes};

// Puts a plan over what a scale holds, where the cells that are stored are known.
fn put_cells<R: Threads + Wait + Sync, S: Store, G: Gate + Sync>(
    crew: &Crew<R, G>,
    store: &mut S,
    stored: &StoredScale,
    plan: Plan,
    cells: Vec<[u64; 3]>,
) -> Result<Written, UpdateFault>
    requires writable { IsWritable stored.now.scale }
    requires plan { plan.scale ≡ stored.now.scale }
    requires distinct { AreDistinct stored.now.scale cells.items }
    requires few { length cells.items ≤ 2 ^ 22 }
    requires written { All (λ write. AreBytes write.1) plan.writes }
    requires listed { IfSome (S.objects store.old) (λ m.
        Lists stored.now.scale (is_after m stored.now.dataset stored.now.scale plan.writes) cells.items) }
    ensures updates { IfSome (S.objects store.old) (λ m.
        Updates result m (S.objects store.new) stored.now.dataset stored.now.scale plan.writes) }
    ensures late { IfErr result IsLate }
    ensures killed { PassesFronts (λ m. update_list m stored.now.dataset stored.now.scale plan.writes)
        (S.objects store.old) (S.history store.old) (S.history store.new) }
    ensures draft { OnOk result (Drops (S.draft store.old) (S.draft store.new)) }
    ensures begun { DropsOrUpdates (S.objects store.old) (S.objects store.new) stored.now.dataset
        stored.now.scale plan.writes (S.draft store.old) (S.draft store.new) }
    ensures unsharded { stored.now.scale.sharding ≡ None → Drops (S.draft store.old) (S.draft store.new) }
    ensures cause { HasCauseOf UpdateFault.StoreFault (S.faults store.old) (S.faults store.new) result }
{
    match Updater::of(crew.alloc, stored, plan, cells) {
        Ok(mut updater) => put_updates(crew, store, stored, &mut updater),
        Err(_) => Err(UpdateFault::OutOfMemory),
    }
}

// A refusal of the shards that are written anew.
fn refuse(refusal: KeepRefusal) -> UpdateFault
    ensures { result ≡ refused refusal }
{
    match refusal {
        KeepRefusal::NotRead => UpdateFault::StoreFault,
        KeepRefusal::OutOfMemory => UpdateFault::OutOfMemory,
        KeepRefusal::BadShard {
            shard,
            minishard,
            fault,
        } => UpdateFault::BadShard {
            shard,
            minishard,
            fault,
        },
        KeepRefusal::TooManyCells { cells } => UpdateFault::TooManyCells { cells },
    }
}

// Puts a plan over what a scale holds.
fn update_planned<R: Threads + Wait + Sync, S: Store, G: Gate + Sync>(
    crew: &Crew<R, G>,
    store: &mut S,
    stored: &StoredScale,
    plan: Plan,
) -> Result<Written, UpdateFault>
    requires writable { IsWritable stored.now.scale }
    requires plan { plan.scale ≡ stored.now.scale }
    requires few { pairs stored.now.scale plan.writes ≤ 2 ^ 22 }
    requires written { All (λ write. AreBytes write.1) plan.writes }
    ensures updates { IfSome (S.objects store.old) (λ m.
        UpdatesPlanned result m (S.objects store.new) stored.now.dataset stored.now.scale plan.writes) }
    ensures kept { IfErr result (λ fault. KeepsStore fault (S.objects store.old) (S.objects store.new)
        (S.draft store.old) (S.draft store.new)) }
    ensures killed { PassesFronts (λ m. update_list m stored.now.dataset stored.now.scale plan.writes)
        (S.objects store.old) (S.history store.old) (S.history store.new) }
    ensures draft { OnOk result (Drops (S.draft store.old) (S.draft store.new)) }
    ensures begun { DropsOrUpdates (S.objects store.old) (S.objects store.new) stored.now.dataset
        stored.now.scale plan.writes (S.draft store.old) (S.draft store.new) }
    ensures unsharded { stored.now.scale.sharding ≡ None → Drops (S.draft store.old) (S.draft store.new) }
    ensures cause { HasCauseOf UpdateFault.StoreFault (S.faults store.old) (S.faults store.new) result }
{
    match gather_cells(crew.alloc, store, stored, &plan) {
        Ok(cells) => put_cells(crew, store, stored, plan, cells),
        Err(refusal) => Err(refuse(refusal)),
    }
}

// A refusal of the writes as a whole.
fn refuse_plan(refusal: PlanRefusal) -> UpdateFault
    ensures { result ≡ not_planned refusal }
{
    match refusal {
        PlanRefusal::TooManyCells { cells } => UpdateFault::TooManyCells { cells },
        PlanRefusal::OutOfMemory => UpdateFault::OutOfMemory,
    }
}

/// Puts the objects of writes over what a scale of one chunk size holds. Each cell that some write meets is stored, and, in a sharded
/// scale, each one that is kept of a shard with such a cell; with the last write at each voxel and channel, else what
/// was there, none missing. Every other object is as before.
///
/// # Errors
/// In this order: `TooManyCells` exactly where more than 2^22 pairs of a write and a cell that it meets are there; then,
/// shard by shard, `BadShard` with the first fault of a shard that is written anew, and `TooManyCells` where more than
/// 2^22 cells are met or were kept so far; and after these the store's objects are as before. `StoreFault` comes only
/// where the store failed, and `OutOfMemory`; else `Damaged` exactly where a cell that is stored has a fault, with the
/// first one in the order of the jobs. After one of these a front of the objects was put, none of them with a cell that
/// has a fault, and every other object is as before. A shard that was being written is then not among the objects, and
/// the store drops it at its next `begin`.
pub fn update<R: Threads + Wait + Sync, S: Store, G: Gate + Sync>(
    crew: &Crew<R, G>,
    store: &mut S,
    dataset: &Name,
    scale: &Scale,
    writes: Writes,
) -> Result<Written, UpdateFault>
    requires dataset { length dataset.now ≤ 200 }
    requires writable { IsWritable scale.now }
    requires one { HasOneSize scale.now }
    requires fits { All (IsWriteOf scale.now) writes }
    ensures updates { IfSome (S.objects store.old) (λ m.
        UpdatesScale result m (S.objects store.new) dataset.now scale.now writes) }
    ensures kept { IfErr result (λ fault. KeepsStore fault (S.objects store.old) (S.objects store.new)
        (S.draft store.old) (S.draft store.new)) }
    ensures killed { PassesFronts (λ m. update_list m dataset.now scale.now writes) (S.objects store.old)
        (S.history store.old) (S.history store.new) }
    ensures draft { OnOk result (Drops (S.draft store.old) (S.draft store.new)) }
    ensures begun { DropsOrUpdates (S.objects store.old) (S.objects store.new) dataset.now scale.now
        writes (S.draft store.old) (S.draft store.new) }
    ensures unsharded { scale.now.sharding ≡ None → Drops (S.draft store.old) (S.draft store.new) }
    ensures cause { HasCauseOf UpdateFault.StoreFault (S.faults store.old) (S.faults store.new) result }
{
    let stored = StoredScale::of(dataset, scale);
    match Plan::of(crew.alloc, scale, writes) {
        Ok(plan) => update_planned(crew, store, &stored, plan),
        Err(refusal) => Err(refuse_plan(refusal)),
    }
}
