//! The copy of a scale.
ghost use Rattle.std.specs.Prelude.{◌≡◌, ◌≤◌, ◌^◌, false, List, ℕ, length, IfErr, IfOk, IfSome, None, OnOk, Option, Result};
ghost use Rattle.vol_base.specs.Causes.{HasCauseOf};
ghost use Rattle.vol_base.specs.Outside.{HaveBytes, Objects, OnlyReads, any_under};
ghost use Rattle.vol_spec.specs.CellNames.{folder_of};
ghost use Rattle.vol_spec.specs.Copies.{AreOfOneVolume};
ghost use Rattle.vol_spec.specs.Writable.{IsWritable};
ghost use Rattle.shard_writer.specs.Writing.{Drops};
ghost use Rattle.shard_writer.specs.Works.{PassesFronts, job_objects};
ghost use Rattle.shard_writer.specs.declared.written.WriteFault.{WriteFault};
ghost use Rattle.shard_writer.specs.declared.written.Written.{Written};
ghost use Rattle.write_plan.specs.Pairs.{cell_count};
ghost use Rattle.command_base.specs.Scales.{HasOneSize};
ghost use Rattle.copier.specs.Held.{IsApart, cells_of, work_of};
ghost use Rattle.make_scale.specs.Making.{KeepsStore, Puts, Wrote};
ghost use Rattle.reshard_cmd.specs.Judging.{JudgesCopy};
ghost use Rattle.reshard_cmd.specs.Resharding.{copy_list};
ghost use Rattle.reshard_cmd.specs.Copies.{DropsOrCopies, Reshards, said_copy};

use crate::ReshardFault;
use crate::judge::find_difference;
use command_base::Crew;
use copier::Copier;
use info_doc::Item;
use make_scale::{Making, make_scale};
use shard_writer::Written;
use std::alloc::Global;
use std::sync::Wait;
use std::thread::Threads;
use vol_base::{Gate, Name, Store, StoreRefusal};
use vol_spec::{Scale, StoredScale};

/// Making a copy.
pub(crate) struct Copying;

impl Making for Copying {
    ghost use Rattle.reshard_cmd.specs.Judging.{DiffersFirst};
    ghost use Rattle.reshard_cmd.specs.CopyLaws.{copy_untouched};

    type Maker = Copier;

    ghost suits = { λ x from_dataset to_dataset. Unit {0} };

    ghost fits = { λ x from to. AreOfOneVolume from to };

    ghost differs = { λ x from to item. DiffersFirst from to item };

    ghost due = { λ x. copy_list };

    ghost says = { λ x. said_copy };

    ghost untouched = { λ x. copy_untouched };

    fn find_difference(&self, from: &Scale, to: &Scale) -> Option<Item> {
        find_difference(from, to)
    }

    fn begin<S: Store>(
        &self,
        alloc: Global,
        store: &mut S,
        from: &StoredScale,
        to: &StoredScale,
    ) -> Result<Copier, StoreRefusal> {
        Copier::of(alloc, store, from, &to.scale)
    }
}

/// Copies a scale of a data set, read by its first chunk size, into another scale of the same volume, which has one
/// chunk size, maybe of another data set, with other chunks, in another encoding or otherwise sharded. A cell of the
/// target is stored exactly where its box meets that of a cell of the source that isn't absent, with the source's values.
///
/// # Errors
/// In this order: `Differs` exactly where the scales aren't of one volume, `TooManyCells` exactly where the
/// source's grid or else the target's has more than 2^22 cells, `NotEmpty` where an object is under the
/// target's folder, unless the store fails as it is asked; and after these the store's objects are as before.
/// Then `StoreFault` only where the store failed, and `OutOfMemory`; else `Damaged` exactly where a cell of
/// the source has a fault, with the first one as the target's cells are made. After one of these a front of
/// the copy's objects was put, and every other object is as before. A shard that was being written is then not
/// among the objects, and the store drops it at its next `begin`.
pub fn reshard<R: Threads + Wait + Sync, S: Store, G: Gate + Sync>(
    crew: &Crew<R, G>,
    store: &mut S,
    from_dataset: &Name,
    from: &Scale,
    to_dataset: &Name,
    to: &Scale,
) -> Result<Written, ReshardFault>
    requires from_dataset { length from_dataset.now ≤ 200 }
    requires to_dataset { length to_dataset.now ≤ 200 }
    requires writable { IsWritable to.now }
    requires one { HasOneSize to.now }
    ensures judges { JudgesCopy result from.now to.now }
    ensures reshards { IfSome (S.objects store.old) (λ m.
        Reshards result m (S.objects store.new) from_dataset.now from.now to_dataset.now to.now) }
    ensures kept { IfErr result (λ fault. KeepsStore fault (S.objects store.old) (S.objects store.new)
        (S.draft store.old) (S.draft store.new)) }
    ensures killed { PassesFronts (λ m. copy_list m from_dataset.now from.now to_dataset.now to.now)
        (S.objects store.old) (S.history store.old) (S.history store.new) }
    ensures draft { OnOk result (Drops (S.draft store.old) (S.draft store.new)) }
    ensures begun { DropsOrCopies (S.objects store.old) (S.objects store.new) from_dataset.now from.now
        to_dataset.now to.now (S.draft store.old) (S.draft store.new) }
    ensures unsharded { to.now.sharding ≡ None → Drops (S.draft store.old) (S.draft store.new) }
    ensures cause { HasCauseOf ReshardFault.StoreFault (S.faults store.old) (S.faults store.new) result }
{
    let from = StoredScale::of(from_dataset, from);
    let to = StoredScale::of(to_dataset, to);
    make_scale(crew, store, &Copying, &from, &to)
}
