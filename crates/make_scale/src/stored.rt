//! A stored scale that is made of another one.
ghost use Rattle.std.specs.Prelude.{◌≡◌, ◌≤◌, length, Some, IfOk, IfSome, Ok};
ghost use Rattle.vol_base.specs.Calls.{ReadsFrom};
ghost use Rattle.vol_spec.specs.Writable.{IsWritable};
ghost use Rattle.command_base.specs.Scales.{HasOneSize, stored_scale};
ghost use Rattle.make_scale.specs.Stored.{MakeLeaves, MakesScale, MakesStored, OfBoth, ReadsTarget, told_making};

use crate::making::Making;
use crate::scale::make_scale;
use crate::{MakeFault, MakeRefusal};
use command_base::{Crew, ScaleRefusal, read_scale};
use shard_writer::Written;
use std::alloc::Global;
use std::sync::Wait;
use std::thread::Threads;
use view_writer::find_wide;
use vol_base::{Gate, Name, Source, Store};
use vol_spec::{Scale, StoredScale};

// The scale that is written into, where it is there, keeps the writing limit and has one chunk size.
//
// # Errors
// In this order: `NoTarget` where it isn't there, `TooManyVoxels` where a view of it has more padded voxels than are
// written, and `SeveralSizes` where it has several chunk sizes; `StoreFault` only where the store failed, and
// `NoMemory`.
fn read_target<S: Source>(
    alloc: Global,
    store: &mut S,
    dataset: &Name,
    key: &Name,
) -> Result<Scale, MakeRefusal>
    requires dataset { length dataset.now ≤ 200 }
    requires key { length key.now ≤ 200 }
    ensures read { IfSome (S.objects store.old) (λ m.
        ReadsTarget result (stored_scale m dataset.now key.now)) }
    ensures writable { IfOk result IsWritable }
    ensures one { IfOk result HasOneSize }
    ensures reads { ReadsFrom S.Source (MakeRefusal.Unmade MakeFault.StoreFault) store.old store.new result }
{
    let scale = match read_scale(alloc, store, dataset, key) {
        Ok(scale) => scale,
        Err(ScaleRefusal::NoScale(why)) => return Err(MakeRefusal::NoTarget(why)),
        Err(ScaleRefusal::StoreFault) => return Err(MakeRefusal::Unmade(MakeFault::StoreFault)),
        Err(ScaleRefusal::NoMemory) => return Err(MakeRefusal::Unmade(MakeFault::OutOfMemory)),
    };
    match find_wide(&scale) {
        Some(voxels) => Err(MakeRefusal::TooManyVoxels(voxels)),
        None if scale.more.len() > 0 => Err(MakeRefusal::SeveralSizes),
        None => Ok(scale),
    }
}

// Makes a scale that keeps the writing limit and has one chunk size.
fn make_told<R: Threads + Wait + Sync, S: Store, G: Gate + Sync, M: Making>(
    crew: &Crew<R, G>,
    store: &mut S,
    making: &M,
    from: &StoredScale,
    to: &StoredScale,
) -> Result<Written, MakeRefusal>
    requires suits { M.suits making.now from.now.dataset to.now.dataset }
    requires writable { IsWritable to.now.scale }
    requires one { HasOneSize to.now.scale }
    ensures makes { IfSome (S.objects store.old) (λ m. MakesScale (told_making
        (M.differs making.now from.now.scale to.now.scale) (M.fits making.now from.now.scale to.now.scale)
        (M.says making.now m (S.objects store.new)
        from.now.dataset from.now.scale to.now.dataset to.now.scale)
        m from.now.scale to.now.dataset to.now.scale)
        result m (S.objects store.new) to.now.dataset from.now.scale to.now.scale) }
    ensures leaves { MakeLeaves S.Source (λ _. Ok from.now.scale) (λ _. Ok to.now.scale)
        (λ m source target. M.due making.now m from.now.dataset source to.now.dataset target)
        store.old store.new result }
{
    let written = make_scale(crew, store, making, from, to)?;
    Ok(written)
}

// Makes the scale of a key.
fn make_into<R: Threads + Wait + Sync, S: Store, G: Gate + Sync, M: Making>(
    crew: &Crew<R, G>,
    store: &mut S,
    making: &M,
    from: &StoredScale,
    to_dataset: &Name,
    to_key: &Name,
) -> Result<Written, MakeRefusal>
    requires to_dataset { length to_dataset.now ≤ 200 }
    requires to_key { length to_key.now ≤ 200 }
    requires suits { M.suits making.now from.now.dataset to_dataset.now }
    ensures makes { IfSome (S.objects store.old) (λ m. MakesStored (λ source target. told_making
        (M.differs making.now source target) (M.fits making.now source target)
        (M.says making.now m (S.objects store.new) from.now.dataset source to_dataset.now target)
        m source to_dataset.now target)
        result (Ok from.now.scale) (stored_scale m to_dataset.now to_key.now) m (S.objects store.new)
        to_dataset.now) }
    ensures leaves { MakeLeaves S.Source (λ _. Ok from.now.scale)
        (λ m. stored_scale m to_dataset.now to_key.now)
        (λ m source target. M.due making.now m from.now.dataset source to_dataset.now target)
        store.old store.new result }
{
    let scale = read_target(crew.alloc, store, to_dataset, to_key)?;
    let to = StoredScale::of(to_dataset, &scale);
    make_told(crew, store, making, from, &to)
}

/// Makes the scale of a key of a data set of that of another key, or data set, in a way of making: the target keeps the
/// writing limit, has one chunk size and fits, and its folder is empty.
pub fn make_stored<R: Threads + Wait + Sync, S: Store, G: Gate + Sync, M: Making>(
    crew: &Crew<R, G>,
    store: &mut S,
    making: &M,
    from_dataset: &Name,
    from_key: &Name,
    to_dataset: &Name,
    to_key: &Name,
) -> Result<Written, MakeRefusal>
    requires from_dataset { length from_dataset.now ≤ 200 }
    requires from_key { length from_key.now ≤ 200 }
    requires to_dataset { length to_dataset.now ≤ 200 }
    requires to_key { length to_key.now ≤ 200 }
    requires suits { M.suits making.now from_dataset.now to_dataset.now }
    ensures makes { IfSome (S.objects store.old) (λ m. MakesStored (λ from to. told_making
        (M.differs making.now from to) (M.fits making.now from to)
        (M.says making.now m (S.objects store.new) from_dataset.now from to_dataset.now to)
        m from to_dataset.now to)
        result (stored_scale m from_dataset.now from_key.now) (stored_scale m to_dataset.now to_key.now) m
        (S.objects store.new) to_dataset.now) }
    ensures leaves { MakeLeaves S.Source (λ m. stored_scale m from_dataset.now from_key.now)
        (λ m. stored_scale m to_dataset.now to_key.now)
        (λ m from to. M.due making.now m from_dataset.now from to_dataset.now to) store.old store.new result }
{
    let scale = read_scale(crew.alloc, store, from_dataset, from_key)?;
    let from = StoredScale::of(from_dataset, &scale);
    make_into(crew, store, making, &from, to_dataset, to_key)
}
