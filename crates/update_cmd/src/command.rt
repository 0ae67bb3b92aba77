//! The command `update`.
ghost use Rattle.std.specs.Prelude.{◌≡◌, ◌≢◌, ◌⊎◌, ◌+◌, ◌≤◌, ◌^◌, ℕ, List, Err, Ok, None, Some, [], false, length, IfErr, IfOk, IfSome, OnOk};
ghost use Rattle.std.specs.Option.{option_map};
ghost use Rattle.vol_base.specs.Calls.{ReadsFrom};
ghost use Rattle.vol_base.specs.Causes.{HasCauseOf, Rose};
ghost use Rattle.vol_base.specs.Outside.{Objects, OnlyReads};
ghost use Rattle.vol_spec.specs.Writable.{IsWritable};
ghost use Rattle.write_plan.specs.Stream.{writes_of};
ghost use Rattle.shard_writer.specs.Writing.{Drops};
ghost use Rattle.command_base.specs.Ending.{EndsWell, IsCaused};
ghost use Rattle.command_base.specs.Outlets.{outlets_of};
ghost use Rattle.command_base.specs.Scales.{HasOneSize, stored_scale};
ghost use Rattle.command_base.specs.Statuses.{prints, puts};
ghost use Rattle.update_cmd.specs.Answering.{AnswersAll, AnswersScale, AsksForDocument, BeginsUpdate, CanBeUpdated, DropsOrPuts, DropsUnsharded, JudgesUpdate, KeepsFeed, LeavesStore, PassesOver, PassesUpdate, ReadsWritable, Updated, UpdatedBack};
ghost use Rattle.update_cmd.specs.Refusals.{not_updated};
ghost use Rattle.write_cmd.specs.Storing.{TakesStream};

use crate::UpdateFault;
use crate::refusal::UpdateRefusal;
use crate::updating::update;
use command_base::{Crew, Status, finish, read_scale, report, write_written_line};
use shard_writer::Written;
use std::alloc::Global;
use std::sync::Wait;
use std::thread::Threads;
use view_writer::find_wide;
use vol_base::{Feed, Gate, Name, Outlet, Source, Store};
use vol_spec::{Scale, StoredScale};
use write_plan::read_writes;

// The scale of a key, where it is there, keeps the writing limit and has one chunk size. The limit is judged first, for
// each view.
fn read_writable<S: Source>(
    alloc: Global,
    store: &mut S,
    dataset: &Name,
    key: &Name,
) -> Result<Scale, UpdateRefusal>
    requires dataset { length dataset.now ≤ 200 }
    requires key { length key.now ≤ 200 }
    ensures read { IfSome (S.objects store.old) (λ m.
        ReadsWritable result (stored_scale m dataset.now key.now)) }
    ensures writable { IfOk result IsWritable }
    ensures one { IfOk result HasOneSize }
    ensures unfed { result ≢ Err UpdateRefusal.FeedFault }
    ensures asked { S.asked store.new ≤ S.asked store.old + (2 ^ 20 + 1) }
    ensures reads { ReadsFrom S.Source UpdateRefusal.StoreFault store.old store.new result }
{
    let scale = read_scale(alloc, store, dataset, key)?;
    match find_wide(&scale) {
        Some(voxels) => Err(UpdateRefusal::TooManyVoxels(voxels)),
        None if scale.more.len() > 0 => Err(UpdateRefusal::SeveralSizes),
        None => Ok(scale),
    }
}

// A fault of an update.
fn refuse(fault: UpdateFault) -> UpdateRefusal
    ensures { result ≡ not_updated fault }
{
    match fault {
        UpdateFault::TooManyCells { cells } => UpdateRefusal::TooManyCells(cells),
        UpdateFault::BadShard {
            shard,
            minishard,
            fault,
        } => UpdateRefusal::BadShard {
            shard,
            minishard,
            fault,
        },
        UpdateFault::Damaged { cell, fault } => UpdateRefusal::Damaged { cell, fault },
        UpdateFault::StoreFault => UpdateRefusal::StoreFault,
        UpdateFault::OutOfMemory => UpdateRefusal::NoMemory,
    }
}

// Puts the list of writes that a stream has over a scale that keeps the writing limit and has one chunk size.
fn update_scale<R: Threads + Wait + Sync, S: Store, F: Feed, G: Gate + Sync>(
    crew: &Crew<R, G>,
    store: &mut S,
    feed: &mut F,
    stored: &StoredScale,
) -> Result<Written, UpdateRefusal>
    requires writable { IsWritable stored.now.scale }
    requires one { HasOneSize stored.now.scale }
    ensures judges { JudgesUpdate result (Ok stored.now.scale) }
    ensures answers { (key : List ℕ) → IfSome (S.objects store.old) (λ m.
        IfSome (F.left feed.old) (λ bytes. AnswersScale result m (S.objects store.new)
        (writes_of bytes stored.now.scale) stored.now.dataset key stored.now.scale)) }
    ensures document { (before after : ℕ) → AsksForDocument result before after }
    ensures feed { KeepsFeed result (F.left feed.old) (F.left feed.new) }
    ensures took { TakesStream (F.left feed.old) (F.left feed.new) }
    ensures store { IfErr result (λ refusal. LeavesStore refusal (S.objects store.old) (S.objects store.new)
        (S.draft store.old) (S.draft store.new)) }
    ensures killed { IfSome (F.left feed.old) (λ bytes. PassesOver (writes_of bytes stored.now.scale)
        stored.now.dataset stored.now.scale (S.objects store.old) (S.history store.old) (S.history store.new)) }
    ensures draft { OnOk result (Drops (S.draft store.old) (S.draft store.new)) }
    ensures begun { Drops (S.draft store.old) (S.draft store.new) ⊎ IfSome (S.objects store.old) (λ m.
        IfSome (F.left feed.old) (λ bytes. BeginsUpdate m (S.objects store.new) (writes_of bytes stored.now.scale)
        stored.now.dataset stored.now.scale (S.draft store.new))) }
    ensures unsharded { stored.now.scale.sharding ≡ None → Drops (S.draft store.old) (S.draft store.new) }
    ensures cause { HasCauseOf UpdateRefusal.StoreFault (S.faults store.old) (S.faults store.new) result }
    ensures feed_cause { HasCauseOf UpdateRefusal.FeedFault (F.faults feed.old) (F.faults feed.new) result }
{
    let writes = read_writes(crew.alloc, feed, &stored.scale)?;
    match update(crew, store, &stored.dataset, &stored.scale, writes) {
        Ok(written) => Ok(written),
        Err(fault) => Err(refuse(fault)),
    }
}

// Puts the list of writes that a stream has over the scale of a key.
fn update_stored<R: Threads + Wait + Sync, S: Store, F: Feed, G: Gate + Sync>(
    crew: &Crew<R, G>,
    store: &mut S,
    feed: &mut F,
    dataset: &Name,
    key: &Name,
) -> Result<Written, UpdateRefusal>
    requires dataset { length dataset.now ≤ 200 }
    requires key { length key.now ≤ 200 }
    ensures judges { IfSome (S.objects store.old) (λ m.
        JudgesUpdate result (stored_scale m dataset.now key.now)) }
    ensures answers { IfSome (S.objects store.old) (λ m.
        IfSome (F.left feed.old) (λ bytes. AnswersAll result (stored_scale m dataset.now key.now) m
        (S.objects store.new) (writes_of bytes) dataset.now key.now)) }
    ensures document { AsksForDocument result (S.asked store.old) (S.asked store.new) }
    ensures feed { KeepsFeed result (F.left feed.old) (F.left feed.new) }
    ensures took { TakesStream (F.left feed.old) (F.left feed.new) }
    ensures store { IfErr result (λ refusal. LeavesStore refusal (S.objects store.old) (S.objects store.new)
        (S.draft store.old) (S.draft store.new)) }
    ensures killed { IfSome (F.left feed.old) (λ bytes. PassesUpdate (writes_of bytes) dataset.now key.now
        (S.objects store.old) (S.history store.old) (S.history store.new)) }
    ensures draft { OnOk result (Drops (S.draft store.old) (S.draft store.new)) }
    ensures begun { DropsOrPuts (S.objects store.old) (S.objects store.new) (F.left feed.old) dataset.now
        key.now (S.draft store.old) (S.draft store.new) }
    ensures unsharded { IfSome (S.objects store.old) (λ m.
        DropsUnsharded (stored_scale m dataset.now key.now) (S.draft store.old) (S.draft store.new)) }
    ensures cause { HasCauseOf UpdateRefusal.StoreFault (S.faults store.old) (S.faults store.new) result }
    ensures feed_cause { HasCauseOf UpdateRefusal.FeedFault (F.faults feed.old) (F.faults feed.new) result }
{
    match read_writable(crew.alloc, store, dataset, key) {
        Ok(scale) => {
            let stored = StoredScale::of(dataset, &scale);
            update_scale(crew, store, feed, &stored)
        }
        Err(refusal) => Err(refusal),
    }
}

/// The command `update`: puts the list of writes that a stream has over what the scale of a key holds, which has one
/// chunk size, and prints how many objects were put and how many cells they hold. The crew encodes. A refusal is told.
pub fn run_update<R, S: Store, F: Feed, O: Outlet, E: Outlet, G: Gate + Sync>(
    crew: &Crew<R, G>,
    store: &mut S,
    feed: &mut F,
    out: &mut O,
    err: &mut E,
    dataset: &Name,
    key: &Name,
) -> Status
where
    R: Threads + Wait + Sync,
    requires dataset { length dataset.now ≤ 200 }
    requires key { length key.now ≤ 200 }
    ensures updated { Updated result (S.objects store.old) (S.objects store.new) (S.draft store.old)
        (S.draft store.new) (F.left feed.old) (F.left feed.new) dataset.now key.now
        (outlets_of O.written O.faults E.written E.faults out.old out.new err.old err.new) }
    ensures complete { (m : Objects) (bytes : List ℕ) → S.objects store.old ≡ Some m →
        F.left feed.old ≡ Some bytes → CanBeUpdated m (writes_of bytes) dataset.now key.now
        → (Rose (S.faults store.old) (S.faults store.new) → ⊥)
        → (Rose (F.faults feed.old) (F.faults feed.new) → ⊥)
        → (Rose (O.faults out.old) (O.faults out.new) → ⊥)
        → EndsWell result }
    ensures back { result ≡ Status.Ok → IfSome (S.objects store.old) (λ m. IfSome (F.left feed.old) (λ bytes.
        UpdatedBack m (S.objects store.new) (writes_of bytes) dataset.now key.now)) }
    ensures end { result ≡ Status.Ok → F.left feed.new ≡ option_map (λ _. []) (F.left feed.old) }
    ensures unread { result ≡ Status.InfoRefused → F.left feed.new ≡ F.left feed.old }
    ensures document { result ≡ Status.InfoRefused → S.asked store.new ≤ S.asked store.old + (2 ^ 20 + 1) }
    ensures took { TakesStream (F.left feed.old) (F.left feed.new) }
    ensures unprinted { prints result ≡ false → out.new ≡ out.old }
    ensures killed { IfSome (F.left feed.old) (λ bytes. PassesUpdate (writes_of bytes) dataset.now key.now
        (S.objects store.old) (S.history store.old) (S.history store.new)) }
    ensures draft { result ≡ Status.Ok → Drops (S.draft store.old) (S.draft store.new) }
    ensures draft_unprinted { result ≡ Status.OutFault → Drops (S.draft store.old) (S.draft store.new) }
    ensures begun { DropsOrPuts (S.objects store.old) (S.objects store.new) (F.left feed.old) dataset.now
        key.now (S.draft store.old) (S.draft store.new) }
    ensures unsharded { IfSome (S.objects store.old) (λ m.
        DropsUnsharded (stored_scale m dataset.now key.now) (S.draft store.old) (S.draft store.new)) }
    ensures kept { puts result ≡ false → OnlyReads (S.objects store.old) (S.objects store.new)
        (S.draft store.old) (S.draft store.new) }
    ensures causes { IsCaused result (S.faults store.old) (S.faults store.new) (O.faults out.old)
        (O.faults out.new) (E.faults err.old) (E.faults err.new) }
    ensures feed_later { F.faults feed.old ≤ F.faults feed.new }
    ensures feed_fault { result ≡ Status.FeedFault → Rose (F.faults feed.old) (F.faults feed.new) }
    ensures feed_stands { result ≡ Status.Ok → F.faults feed.new ≡ F.faults feed.old }
{
    let written = match update_stored(crew, store, feed, dataset, key) {
        Ok(written) => written,
        Err(refusal) => return report(crew.alloc, err, dataset, &refusal),
    };
    let line = write_written_line(crew.alloc, written.objects, written.cells);
    finish(out, err, line)
}
