//! Writing a list of writes, and the command `write`.
ghost use Rattle.std.specs.Prelude.{◌≡◌, ◌≤◌, ◌^◌, ℕ, List, All, Some, [], false, length, IfErr, IfSome};
ghost use Rattle.std.specs.Option.{option_map};
ghost use Rattle.vol_base.specs.Causes.{HasCauseOf, Rose};
ghost use Rattle.vol_base.specs.Outside.{any_under, Objects, OnlyReads};
ghost use Rattle.vol_spec.specs.CellNames.{folder_of};
ghost use Rattle.vol_spec.specs.Writable.{IsWritable};
ghost use Rattle.write_plan.specs.Stream.{writes_of};
ghost use Rattle.write_plan.specs.WriteLists.{IsWriteOf};
ghost use Rattle.shard_writer.specs.Writing.{Drops};
ghost use Rattle.size_laws.specs.Further.{all_views};
ghost use Rattle.view_writer.specs.Views.{PassesViews};
ghost use Rattle.command_base.specs.Ending.{EndsWell, IsCaused};
ghost use Rattle.command_base.specs.Outlets.{outlets_of};
ghost use Rattle.command_base.specs.Scales.{stored_scale};
ghost use Rattle.command_base.specs.Statuses.{prints, puts};
ghost use Rattle.write_cmd.specs.Storing.{CanWrite, JudgesWrite, JudgesLimit, KeepsFeed, KeepsPlan, PassesList, PassesPut, PutsWrites, TakesStream, WriteLeaves, WritesAll, WritesScale, WrittenBack, Wrote};

use crate::refusal::WriteRefusal;
use chunk_grid::find_folder;
use command_base::{Crew, Status, finish, read_scale, report, write_written_line};
use info_doc::Scale;
use shard_writer::Written;
use size_laws::tell_stored_views;
use std::sync::Wait;
use std::thread::Threads;
use view_writer::{ViewsRefusal, find_wide, write_views};
use vol_base::{Feed, Gate, Name, Outlet, Store};
use write_plan::{Writes, read_writes};

/// Refuses a scale of which a view passes the writing limit, by the number of the first such view's padded voxels times
/// channels.
pub fn judge_limit(scale: &Scale) -> Result<(), WriteRefusal>
    ensures { JudgesLimit result scale.now }
{
    match find_wide(scale) {
        None => Ok(()),
        Some(voxels) => Err(WriteRefusal::TooManyVoxels(voxels)),
    }
}

// Writes the objects of writes, once for each view.
fn write_all<R: Threads + Wait + Sync, S: Store, G: Gate + Sync>(
    crew: &Crew<R, G>,
    store: &mut S,
    dataset: &Name,
    scale: &Scale,
    writes: Writes,
) -> Result<Written, WriteRefusal>
    requires dataset { length dataset.now ≤ 200 }
    requires writable { All IsWritable (all_views scale.now) }
    requires fits { All (IsWriteOf scale.now) writes }
    ensures put { IfSome (S.objects store.old) (λ m.
        PutsWrites result m (S.objects store.new) dataset.now scale.now writes) }
    ensures killed { PassesViews dataset.now scale.now writes (S.objects store.old) (S.history store.old)
        (S.history store.new) }
    ensures draft { Drops (S.draft store.old) (S.draft store.new) }
    ensures kept { IfErr result (λ refusal. KeepsPlan refusal (S.objects store.old) (S.objects store.new)
        (S.draft store.old) (S.draft store.new)) }
    ensures cause { HasCauseOf WriteRefusal.StoreFault (S.faults store.old) (S.faults store.new) result }
{
    match write_views(
        crew.rt,
        crew.alloc,
        store,
        dataset,
        scale,
        writes,
        crew.workers,
        crew.gate,
    ) {
        Ok(written) => Ok(written),
        Err(ViewsRefusal::TooManyCells { cells }) => Err(WriteRefusal::TooManyCells(cells)),
        Err(ViewsRefusal::StoreFault) => Err(WriteRefusal::StoreFault),
        Err(ViewsRefusal::OutOfMemory) => Err(WriteRefusal::NoMemory),
    }
}

/// Writes the list that a stream has into a scale that is ready: each view keeps the writing limit, and its folder is
/// empty.
pub fn write_list<R: Threads + Wait + Sync, S: Store, F: Feed, G: Gate + Sync>(
    crew: &Crew<R, G>,
    store: &mut S,
    feed: &mut F,
    dataset: &Name,
    scale: &Scale,
) -> Result<Written, WriteRefusal>
    requires dataset { length dataset.now ≤ 200 }
    requires writable { All IsWritable (all_views scale.now) }
    requires empty { IfSome (S.objects store.old) (λ m.
        any_under m (folder_of dataset.now scale.now) ≡ false) }
    ensures judges { IfSome (S.objects store.old) (λ m. JudgesWrite result (Ok scale.now) m dataset.now) }
    ensures writes { (key : List ℕ) → IfSome (S.objects store.old) (λ m.
        IfSome (F.left feed.old) (λ bytes. WritesScale result m (S.objects store.new)
        (writes_of bytes scale.now) dataset.now key scale.now)) }
    ensures killed { IfSome (F.left feed.old) (λ bytes. PassesPut (writes_of bytes scale.now) dataset.now scale.now
        (S.objects store.old) (S.history store.old) (S.history store.new)) }
    ensures feed { KeepsFeed result (F.left feed.old) (F.left feed.new) }
    ensures took { TakesStream (F.left feed.old) (F.left feed.new) }
    ensures leaves { WriteLeaves S.Source store.old store.new result }
    ensures feed_cause { HasCauseOf WriteRefusal.FeedFault (F.faults feed.old) (F.faults feed.new) result }
{
    let writes = read_writes(crew.alloc, feed, scale)?;
    tell_stored_views(dataset, scale);
    write_all(crew, store, dataset, scale, writes)
}

// Writes a stream into the scale of a key, which keeps the writing limit and whose folder is empty.
fn write_objects<R: Threads + Wait + Sync, S: Store, F: Feed, G: Gate + Sync>(
    crew: &Crew<R, G>,
    store: &mut S,
    feed: &mut F,
    dataset: &Name,
    key: &Name,
) -> Result<Written, WriteRefusal>
    requires dataset { length dataset.now ≤ 200 }
    requires key { length key.now ≤ 200 }
    ensures judges { IfSome (S.objects store.old) (λ m.
        JudgesWrite result (stored_scale m dataset.now key.now) m dataset.now) }
    ensures writes { IfSome (S.objects store.old) (λ m.
        IfSome (F.left feed.old) (λ bytes. WritesAll result (stored_scale m dataset.now key.now) m
        (S.objects store.new) (writes_of bytes) dataset.now key.now)) }
    ensures killed { IfSome (F.left feed.old) (λ bytes. PassesList (writes_of bytes) dataset.now key.now
        (S.objects store.old) (S.history store.old) (S.history store.new)) }
    ensures feed { KeepsFeed result (F.left feed.old) (F.left feed.new) }
    ensures took { TakesStream (F.left feed.old) (F.left feed.new) }
    ensures leaves { WriteLeaves S.Source store.old store.new result }
    ensures feed_cause { HasCauseOf WriteRefusal.FeedFault (F.faults feed.old) (F.faults feed.new) result }
{
    let scale = read_scale(crew.alloc, store, dataset, key)?;
    judge_limit(&scale)?;
    match store.any_under(&find_folder(dataset, &scale)) {
        Ok(false) => {}
        Ok(true) => return Err(WriteRefusal::NotEmpty),
        Err(_) => return Err(WriteRefusal::StoreFault),
    }
    write_list(crew, store, feed, dataset, &scale)
}

/// The command `write`: puts the list of writes that a stream has into the scale of a key, and prints how many objects
/// were put and how many cells they hold. The crew encodes.
pub fn run_write<R: Threads + Wait + Sync, S: Store, F: Feed, O: Outlet, E: Outlet, G: Gate + Sync>(
    crew: &Crew<R, G>,
    store: &mut S,
    feed: &mut F,
    out: &mut O,
    err: &mut E,
    dataset: &Name,
    key: &Name,
) -> Status
    requires dataset { length dataset.now ≤ 200 }
    requires key { length key.now ≤ 200 }
    ensures wrote { Wrote result (S.objects store.old) (S.objects store.new) (F.left feed.old)
        (F.left feed.new) dataset.now key.now
        (outlets_of O.written O.faults E.written E.faults out.old out.new err.old err.new) }
    ensures complete { (m : Objects) (bytes : List ℕ) → S.objects store.old ≡ Some m →
        F.left feed.old ≡ Some bytes → CanWrite m (writes_of bytes) dataset.now key.now
        → (Rose (S.faults store.old) (S.faults store.new) → ⊥)
        → (Rose (F.faults feed.old) (F.faults feed.new) → ⊥)
        → (Rose (O.faults out.old) (O.faults out.new) → ⊥)
        → EndsWell result }
    ensures back { result ≡ Status.Ok → IfSome (S.objects store.old) (λ m. IfSome (F.left feed.old) (λ bytes.
        WrittenBack m (S.objects store.new) (writes_of bytes) dataset.now key.now)) }
    ensures killed { IfSome (F.left feed.old) (λ bytes. PassesList (writes_of bytes) dataset.now key.now
        (S.objects store.old) (S.history store.old) (S.history store.new)) }
    ensures end { result ≡ Status.Ok → F.left feed.new ≡ option_map (λ _. []) (F.left feed.old) }
    ensures unread { result ≡ Status.InfoRefused → F.left feed.new ≡ F.left feed.old }
    ensures took { TakesStream (F.left feed.old) (F.left feed.new) }
    ensures unprinted { prints result ≡ false → out.new ≡ out.old }
    ensures draft { Drops (S.draft store.old) (S.draft store.new) }
    ensures kept { puts result ≡ false → OnlyReads (S.objects store.old) (S.objects store.new)
        (S.draft store.old) (S.draft store.new) }
    ensures causes { IsCaused result (S.faults store.old) (S.faults store.new) (O.faults out.old)
        (O.faults out.new) (E.faults err.old) (E.faults err.new) }
    ensures feed_later { F.faults feed.old ≤ F.faults feed.new }
    ensures feed_fault { result ≡ Status.FeedFault → Rose (F.faults feed.old) (F.faults feed.new) }
    ensures feed_stands { result ≡ Status.Ok → F.faults feed.new ≡ F.faults feed.old }
{
    let written = match write_objects(crew, store, feed, dataset, key) {
        Ok(written) => written,
        Err(refusal) => return report(crew.alloc, err, dataset, &refusal),
    };
    let line = write_written_line(crew.alloc, written.objects, written.cells);
    finish(out, err, line)
}
