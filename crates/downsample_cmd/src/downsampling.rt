//! The reduction of a scale.
ghost use Rattle.std.specs.Prelude.{◌≡◌, ◌≤◌, ◌^◌, false, List, ℕ, length, IfErr, IfOk, IfSome, None, OnOk, Option, Result};
ghost use Rattle.vol_base.specs.Causes.{HasCauseOf};
ghost use Rattle.vol_base.specs.Outside.{HaveBytes, Objects, OnlyReads, any_under};
ghost use Rattle.vol_spec.specs.CellNames.{folder_of};
ghost use Rattle.vol_spec.specs.Writable.{IsWritable};
ghost use Rattle.copier.specs.Held.{cells_of};
ghost use Rattle.reduce_laws.specs.Reduced.{IsNext};
ghost use Rattle.reducer.specs.Works.{IsApart, work_of};
ghost use Rattle.shard_writer.specs.Writing.{Drops};
ghost use Rattle.shard_writer.specs.Works.{PassesFronts, job_objects};
ghost use Rattle.shard_writer.specs.declared.written.WriteFault.{WriteFault};
ghost use Rattle.shard_writer.specs.declared.written.Written.{Written};
ghost use Rattle.write_plan.specs.Pairs.{cell_count};
ghost use Rattle.command_base.specs.Scales.{HasOneSize};
ghost use Rattle.make_scale.specs.Making.{KeepsStore, Puts, Wrote};
ghost use Rattle.downsample_cmd.specs.Downsampling.{reduced_list};
ghost use Rattle.downsample_cmd.specs.Reductions.{Downsamples, DropsOrReduces, said_reduction};
ghost use Rattle.downsample_cmd.specs.Judging.{JudgesNext};

use crate::judge::find_difference;
use command_base::Crew;
use info_doc::Item;
use make_scale::{MakeFault as ReshardFault, Making, make_scale};
use reduce_laws::Method;
use reducer::Reducer;
use shard_writer::Written;
use std::alloc::Global;
use std::sync::Wait;
use std::thread::Threads;
use vol_base::{Gate, Name, Store, StoreRefusal};
use vol_spec::{Scale, StoredScale};

/// Making a reduced scale, in the source's data set.
#[derive(Drop)]
pub(crate) struct Reducing<'a, R> {
    rt: &'a R,
    workers: u32,
    method: Method,
}

impl<'a, R> Reducing<'a, R> {
    /// Reducing by a crew.
    pub(crate) fn of<G>(crew: &Crew<'a, R, G>, method: Method) -> Reducing<'a, R>
        ensures { result.method ≡ method }
    {
        Reducing {
            rt: crew.rt,
            workers: crew.workers,
            method,
        }
    }
}

impl<'a, R: Threads + Sync> Making for Reducing<'a, R> {
    ghost use Rattle.downsample_cmd.specs.Judging.{DiffersNext};
    ghost use Rattle.downsample_cmd.specs.ReductionLaws.{reduction_untouched};

    type Maker = Reducer<'a, R>;

    ghost suits = { λ x from_dataset to_dataset. from_dataset ≡ to_dataset };

    ghost fits = { λ x from to. IsNext from to };

    ghost differs = { λ x from to item. DiffersNext from to item };

    ghost due = { λ x m from_dataset from to_dataset to. reduced_list x.method m to_dataset from to };

    ghost says = { λ x m now from_dataset from to_dataset to. said_reduction x.method m now to_dataset from to };

    ghost untouched = { λ x m from_dataset from to_dataset to. reduction_untouched x.method m to_dataset from to };

    fn find_difference(&self, from: &Scale, to: &Scale) -> Option<Item> {
        find_difference(from, to)
    }

    fn begin<S: Store>(
        &self,
        alloc: Global,
        store: &mut S,
        from: &StoredScale,
        to: &StoredScale,
    ) -> Result<Reducer<'a, R>, StoreRefusal> {
        Reducer::of(
            self.rt,
            alloc,
            store,
            self.method,
            from,
            &to.scale,
            self.workers,
        )
    }
}

/// Reduces a scale of a data set, read by its first chunk size, into the next, coarser one, which has one chunk size and
/// half the size on each axis, rounded up. A cell of the target is stored exactly where one of its positions lies over
/// one in a cell of the source that isn't absent, with the reduced values: the value that occurs most often under a
/// position, the least of these on a tie; or the mean, rounded down.
///
/// # Errors
/// In this order: `Differs` exactly where the target isn't the next scale, by the size, else the offset (data type
/// and number of channels never differ in one document), `TooManyCells` exactly where the source's grid or else the
/// target's has more than 2^22 cells, `NotEmpty` where an object is under the target's folder, unless the store fails
/// as it is asked; and after these the store's objects are as before. Then `StoreFault` only where the store failed,
/// and `OutOfMemory`; else `Damaged` exactly where a cell of the source has a fault, with the first one as the
/// target's cells are made. After one of these a front of the reduced scale's objects was put, and every other object
/// is as before. A shard that was being written is then not among the objects, and the store drops it at its next
/// `begin`.
pub fn downsample<R: Threads + Wait + Sync, S: Store, G: Gate + Sync>(
    crew: &Crew<R, G>,
    store: &mut S,
    dataset: &Name,
    from: &Scale,
    to: &Scale,
    method: Method,
) -> Result<Written, ReshardFault>
    requires dataset { length dataset.now ≤ 200 }
    requires writable { IsWritable to.now }
    requires one { HasOneSize to.now }
    ensures judges { JudgesNext result from.now to.now }
    ensures downsamples { IfSome (S.objects store.old) (λ m.
        Downsamples result method m (S.objects store.new) dataset.now from.now to.now) }
    ensures kept { IfErr result (λ fault. KeepsStore fault (S.objects store.old) (S.objects store.new)
        (S.draft store.old) (S.draft store.new)) }
    ensures killed { PassesFronts (λ m. reduced_list method m dataset.now from.now to.now) (S.objects store.old)
        (S.history store.old) (S.history store.new) }
    ensures draft { OnOk result (Drops (S.draft store.old) (S.draft store.new)) }
    ensures begun { DropsOrReduces method (S.objects store.old) (S.objects store.new) dataset.now from.now
        to.now (S.draft store.old) (S.draft store.new) }
    ensures unsharded { to.now.sharding ≡ None → Drops (S.draft store.old) (S.draft store.new) }
    ensures cause { HasCauseOf ReshardFault.StoreFault (S.faults store.old) (S.faults store.new) result }
{
    let reducing = Reducing::of(crew, method);
    let from = StoredScale::of(dataset, from);
    let to = StoredScale::of(dataset, to);
    make_scale(crew, store, &reducing, &from, &to)
}
