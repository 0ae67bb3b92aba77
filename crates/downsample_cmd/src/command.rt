//! The command `downsample`.
ghost use Rattle.std.specs.Prelude.{◌≡◌, ◌≤◌, length, false, Some, IfSome};
ghost use Rattle.vol_base.specs.Causes.{Rose};
ghost use Rattle.vol_base.specs.Outside.{Objects, OnlyReads};
ghost use Rattle.shard_writer.specs.Writing.{Drops};
ghost use Rattle.command_base.specs.Ending.{EndsWell, IsCaused};
ghost use Rattle.command_base.specs.Outlets.{outlets_of};
ghost use Rattle.command_base.specs.Scales.{stored_scale};
ghost use Rattle.command_base.specs.Statuses.{prints, puts};
ghost use Rattle.make_scale.specs.Stored.{DropsUnsharded, MakeLeaves};
ghost use Rattle.downsample_cmd.specs.Answering.{CanDownsample, Downsampled, DropsOrDownsamples, PassesDownsample, ReducedBack, ReducesStored};
ghost use Rattle.downsample_cmd.specs.Downsampling.{reduced_list};

use crate::downsampling::Reducing;
use command_base::{Crew, Status, finish, report, write_written_line};
use make_scale::{MakeRefusal, make_stored};
use reduce_laws::Method;
use shard_writer::Written;
use std::sync::Wait;
use std::thread::Threads;
use vol_base::{Gate, Name, Outlet, Store};

// Reduces the scale of a key of a data set into that of another key, which is empty.
fn reduce_stored<R: Threads + Wait + Sync, S: Store, G: Gate + Sync>(
    crew: &Crew<R, G>,
    store: &mut S,
    dataset: &Name,
    key: &Name,
    to_key: &Name,
    method: Method,
) -> Result<Written, MakeRefusal>
    requires dataset { length dataset.now ≤ 200 }
    requires key { length key.now ≤ 200 }
    requires to_key { length to_key.now ≤ 200 }
    ensures reduces { IfSome (S.objects store.old) (λ m. ReducesStored result
        (stored_scale m dataset.now key.now) (stored_scale m dataset.now to_key.now) method m
        (S.objects store.new) dataset.now) }
    ensures leaves { MakeLeaves S.Source (λ m. stored_scale m dataset.now key.now)
        (λ m. stored_scale m dataset.now to_key.now) (λ m from to. reduced_list method m dataset.now from to)
        store.old store.new result }
{
    let reducing = Reducing::of(crew, method);
    make_stored(crew, store, &reducing, dataset, key, dataset, to_key)
}

/// The command `downsample`: reduces the scale of a key of a data set, read by its first chunk size, into that of another
/// key, the next, coarser scale, which has one chunk size and an empty folder; and prints how many objects were put, and
/// how many cells they hold. A refusal is told.
pub fn run_downsample<R: Threads + Wait + Sync, S: Store, O: Outlet, E: Outlet, G: Gate + Sync>(
    crew: &Crew<R, G>,
    store: &mut S,
    out: &mut O,
    err: &mut E,
    dataset: &Name,
    key: &Name,
    to_key: &Name,
    method: Method,
) -> Status
    requires dataset { length dataset.now ≤ 200 }
    requires key { length key.now ≤ 200 }
    requires to_key { length to_key.now ≤ 200 }
    ensures downsampled { Downsampled result method (S.objects store.old) (S.objects store.new) dataset.now
        key.now to_key.now
        (outlets_of O.written O.faults E.written E.faults out.old out.new err.old err.new) }
    ensures complete { (m : Objects) → S.objects store.old ≡ Some m →
        CanDownsample m dataset.now key.now to_key.now
        → (Rose (S.faults store.old) (S.faults store.new) → ⊥)
        → (Rose (O.faults out.old) (O.faults out.new) → ⊥) → EndsWell result }
    ensures back { result ≡ Status.Ok → IfSome (S.objects store.old) (λ m.
        ReducedBack method m (S.objects store.new) dataset.now key.now to_key.now) }
    ensures killed { PassesDownsample method dataset.now key.now to_key.now (S.objects store.old)
        (S.history store.old) (S.history store.new) }
    ensures draft { result ≡ Status.Ok → Drops (S.draft store.old) (S.draft store.new) }
    ensures draft_unprinted { result ≡ Status.OutFault → Drops (S.draft store.old) (S.draft store.new) }
    ensures begun { DropsOrDownsamples method (S.objects store.old) (S.objects store.new) dataset.now key.now
        to_key.now (S.draft store.old) (S.draft store.new) }
    ensures unsharded { IfSome (S.objects store.old) (λ m.
        DropsUnsharded (stored_scale m dataset.now to_key.now) (S.draft store.old) (S.draft store.new)) }
    ensures kept { puts result ≡ false → OnlyReads (S.objects store.old) (S.objects store.new)
        (S.draft store.old) (S.draft store.new) }
    ensures unprinted { prints result ≡ false → out.new ≡ out.old }
    ensures causes { IsCaused result (S.faults store.old) (S.faults store.new) (O.faults out.old)
        (O.faults out.new) (E.faults err.old) (E.faults err.new) }
{
    let written = match reduce_stored(crew, store, dataset, key, to_key, method) {
        Ok(written) => written,
        Err(refusal) => return report(crew.alloc, err, dataset, &refusal),
    };
    let line = write_written_line(crew.alloc, written.objects, written.cells);
    finish(out, err, line)
}
