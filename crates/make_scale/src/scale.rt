//! A scale that is made of another one.
ghost use Rattle.std.specs.Prelude.{◌≡◌, ◌⊎◌, ◌≤◌, ◌^◌, false, IfErr, IfSome, None, OnOk};
ghost use Rattle.vol_base.specs.Causes.{HasCauseOf};
ghost use Rattle.vol_base.specs.Outside.{any_under};
ghost use Rattle.vol_spec.specs.CellNames.{folder_of};
ghost use Rattle.vol_spec.specs.Writable.{IsWritable};
ghost use Rattle.shard_writer.specs.Writing.{BeginsNext, Drops};
ghost use Rattle.shard_writer.specs.Works.{PassesFronts};
ghost use Rattle.write_plan.specs.Pairs.{cell_count};
ghost use Rattle.make_scale.specs.Judging.{JudgesAs};
ghost use Rattle.make_scale.specs.Making.{KeepsStore, Makes, Puts};

use crate::MakeFault;
use crate::judge::{judge_folder, judge_scales};
use crate::making::Making;
use command_base::Crew;
use shard_writer::{WriteFault, Written, write_scale};
use std::sync::Wait;
use std::thread::Threads;
use vol_base::{Gate, Store};
use vol_spec::StoredScale;

// Writes a target that fits into its empty folder.
fn write_made<R: Threads + Wait + Sync, S: Store, G: Gate + Sync, M: Making>(
    crew: &Crew<R, G>,
    store: &mut S,
    making: &M,
    from: &StoredScale,
    to: &StoredScale,
) -> Result<Written, WriteFault>
    requires suits { M.suits making.now from.now.dataset to.now.dataset }
    requires fits { M.fits making.now from.now.scale to.now.scale }
    requires writable { IsWritable to.now.scale }
    requires few { cell_count to.now.scale ≤ 2 ^ 22 }
    requires empty { IfSome (S.objects store.old) (λ m.
        any_under m (folder_of to.now.dataset to.now.scale) ≡ false) }
    ensures puts { IfSome (S.objects store.old) (λ m.
        Puts (M.says making.now m (S.objects store.new)
        from.now.dataset from.now.scale to.now.dataset to.now.scale) result) }
    ensures killed { PassesFronts
        (λ m. M.due making.now m from.now.dataset from.now.scale to.now.dataset to.now.scale) (S.objects store.old)
        (S.history store.old) (S.history store.new) }
    ensures draft { OnOk result (Drops (S.draft store.old) (S.draft store.new)) }
    ensures begun { Drops (S.draft store.old) (S.draft store.new) ⊎ IfSome (S.objects store.old) (λ m.
        BeginsNext (M.due making.now m from.now.dataset from.now.scale to.now.dataset to.now.scale) m
        (S.objects store.new) (S.draft store.new)) }
    ensures unsharded { to.now.scale.sharding ≡ None → Drops (S.draft store.old) (S.draft store.new) }
    ensures cause { HasCauseOf WriteFault.StoreFault (S.faults store.old) (S.faults store.new) result }
{
    let mut maker = making.begin(crew.alloc, store, from, to)?;
    write_scale(
        crew.rt,
        crew.alloc,
        store,
        &to.dataset,
        &to.scale,
        &mut maker,
        crew.workers,
        crew.gate,
    )
}

/// Makes a scale in a way of making: judges it, and where it fits writes it into its empty folder.
///
/// # Errors
/// In this order: `Differs` exactly where the target isn't as it is to be, `TooManyCells` exactly where the
/// source's grid or else the target's has more than 2^22 cells, `NotEmpty` where an object is under the
/// target's folder, unless the store fails as it is asked; and after these the store's objects are as before.
/// Then `StoreFault` only where the store failed, and `OutOfMemory`; else `Damaged` with the first fault of what is
/// read. After one of these a front of the objects was put, and every other object is as before. A shard that was being
/// written is then not among the objects, and the store drops it at its next `begin`.
pub fn make_scale<R: Threads + Wait + Sync, S: Store, G: Gate + Sync, M: Making>(
    crew: &Crew<R, G>,
    store: &mut S,
    making: &M,
    from: &StoredScale,
    to: &StoredScale,
) -> Result<Written, MakeFault>
    requires suits { M.suits making.now from.now.dataset to.now.dataset }
    requires writable { IsWritable to.now.scale }
    ensures judges { JudgesAs (M.differs making.now from.now.scale to.now.scale)
        (M.fits making.now from.now.scale to.now.scale) result from.now.scale to.now.scale }
    ensures makes { IfSome (S.objects store.old) (λ m. Makes
        (M.says making.now m (S.objects store.new)
        from.now.dataset from.now.scale to.now.dataset to.now.scale)
        result m (S.objects store.new) to.now.dataset to.now.scale) }
    ensures kept { IfErr result (λ fault. KeepsStore fault (S.objects store.old) (S.objects store.new)
        (S.draft store.old) (S.draft store.new)) }
    ensures killed { PassesFronts
        (λ m. M.due making.now m from.now.dataset from.now.scale to.now.dataset to.now.scale) (S.objects store.old)
        (S.history store.old) (S.history store.new) }
    ensures draft { OnOk result (Drops (S.draft store.old) (S.draft store.new)) }
    ensures begun { Drops (S.draft store.old) (S.draft store.new) ⊎ IfSome (S.objects store.old) (λ m.
        BeginsNext (M.due making.now m from.now.dataset from.now.scale to.now.dataset to.now.scale) m
        (S.objects store.new) (S.draft store.new)) }
    ensures unsharded { to.now.scale.sharding ≡ None → Drops (S.draft store.old) (S.draft store.new) }
    ensures cause { HasCauseOf MakeFault.StoreFault (S.faults store.old) (S.faults store.new) result }
{
    match judge_scales(making, &from.scale, &to.scale) {
        Ok(()) => {}
        Err(fault) => return Err(fault),
    }
    match judge_folder(store, to) {
        Ok(()) => {}
        Err(refusal) => return Err(refusal),
    }
    let written = write_made(crew, store, making, from, to)?;
    Ok(written)
}
