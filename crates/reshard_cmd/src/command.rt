//! The command `reshard`.
ghost use Rattle.std.specs.Prelude.{◌≡◌, ◌≤◌, length, false, Some, IfSome};
ghost use Rattle.vol_base.specs.Causes.{Rose};
ghost use Rattle.vol_base.specs.Outside.{Objects, OnlyReads};
ghost use Rattle.shard_writer.specs.Writing.{Drops};
ghost use Rattle.command_base.specs.Ending.{EndsWell, IsCaused};
ghost use Rattle.command_base.specs.Outlets.{outlets_of};
ghost use Rattle.command_base.specs.Scales.{stored_scale};
ghost use Rattle.command_base.specs.Statuses.{prints, puts};
ghost use Rattle.make_scale.specs.Stored.{DropsUnsharded, MakeLeaves};
ghost use Rattle.reshard_cmd.specs.Copying.{CanReshard, CopiedBack, CopiesStored, DropsOrReshards, named_in, PassesReshard, Resharded};
ghost use Rattle.reshard_cmd.specs.Resharding.{copy_list};

use crate::copying::Copying;
use command_base::{Crew, Status, finish, report, write_written_line};
use make_scale::{MakeRefusal, make_stored};
use shard_writer::Written;
use std::sync::Wait;
use std::thread::Threads;
use vol_base::{Gate, Name, Outlet, Store};

// The name of the data set that a refusal tells.
fn find_named<'a>(refusal: &MakeRefusal, from_dataset: &'a Name, to_dataset: &'a Name) -> &'a Name
    ensures { result.now ≡ named_in refusal.now from_dataset.now to_dataset.now }
{
    match refusal {
        MakeRefusal::NoTarget(_) => to_dataset,
        _ => from_dataset,
    }
}

// Copies the scale of a key of a data set into that of another key, or data set, which is empty.
fn copy_stored<R: Threads + Wait + Sync, S: Store, G: Gate + Sync>(
    crew: &Crew<R, G>,
    store: &mut S,
    from_dataset: &Name,
    from_key: &Name,
    to_dataset: &Name,
    to_key: &Name,
) -> Result<Written, MakeRefusal>
    requires from_dataset { length from_dataset.now ≤ 200 }
    requires from_key { length from_key.now ≤ 200 }
    requires to_dataset { length to_dataset.now ≤ 200 }
    requires to_key { length to_key.now ≤ 200 }
    ensures copies { IfSome (S.objects store.old) (λ m.
        CopiesStored result (stored_scale m from_dataset.now from_key.now)
        (stored_scale m to_dataset.now to_key.now) m (S.objects store.new) from_dataset.now to_dataset.now) }
    ensures leaves { MakeLeaves S.Source (λ m. stored_scale m from_dataset.now from_key.now)
        (λ m. stored_scale m to_dataset.now to_key.now)
        (λ m from to. copy_list m from_dataset.now from to_dataset.now to) store.old store.new result }
{
    make_stored(
        crew,
        store,
        &Copying,
        from_dataset,
        from_key,
        to_dataset,
        to_key,
    )
}

/// The command `reshard`: copies the scale of a key of a data set, read by its first chunk size, into that of another
/// key, or data set, which has one chunk size and an empty folder, with other chunks, in another encoding or otherwise
/// sharded; and prints how many objects were put, and how many cells they hold. A refusal is told.
pub fn run_reshard<R: Threads + Wait + Sync, S: Store, O: Outlet, E: Outlet, G: Gate + Sync>(
    crew: &Crew<R, G>,
    store: &mut S,
    out: &mut O,
    err: &mut E,
    dataset: &Name,
    key: &Name,
    to_dataset: &Name,
    to_key: &Name,
) -> Status
    requires dataset { length dataset.now ≤ 200 }
    requires key { length key.now ≤ 200 }
    requires to_dataset { length to_dataset.now ≤ 200 }
    requires to_key { length to_key.now ≤ 200 }
    ensures resharded { Resharded result (S.objects store.old) (S.objects store.new) dataset.now key.now
        to_dataset.now to_key.now
        (outlets_of O.written O.faults E.written E.faults out.old out.new err.old err.new) }
    ensures complete { (m : Objects) → S.objects store.old ≡ Some m →
        CanReshard m dataset.now key.now to_dataset.now to_key.now
        → (Rose (S.faults store.old) (S.faults store.new) → ⊥)
        → (Rose (O.faults out.old) (O.faults out.new) → ⊥) → EndsWell result }
    ensures back { result ≡ Status.Ok → IfSome (S.objects store.old) (λ m.
        CopiedBack m (S.objects store.new) dataset.now key.now to_dataset.now to_key.now) }
    ensures killed { PassesReshard dataset.now key.now to_dataset.now to_key.now (S.objects store.old)
        (S.history store.old) (S.history store.new) }
    ensures draft { result ≡ Status.Ok → Drops (S.draft store.old) (S.draft store.new) }
    ensures draft_unprinted { result ≡ Status.OutFault → Drops (S.draft store.old) (S.draft store.new) }
    ensures begun { DropsOrReshards (S.objects store.old) (S.objects store.new) dataset.now key.now
        to_dataset.now to_key.now (S.draft store.old) (S.draft store.new) }
    ensures unsharded { IfSome (S.objects store.old) (λ m.
        DropsUnsharded (stored_scale m to_dataset.now to_key.now) (S.draft store.old) (S.draft store.new)) }
    ensures kept { puts result ≡ false → OnlyReads (S.objects store.old) (S.objects store.new)
        (S.draft store.old) (S.draft store.new) }
    ensures unprinted { prints result ≡ false → out.new ≡ out.old }
    ensures causes { IsCaused result (S.faults store.old) (S.faults store.new) (O.faults out.old)
        (O.faults out.new) (E.faults err.old) (E.faults err.new) }
{
    let written = match copy_stored(crew, store, dataset, key, to_dataset, to_key) {
        Ok(written) => written,
        Err(refusal) => {
            let named = find_named(&refusal, dataset, to_dataset);
            return report(crew.alloc, err, named, &refusal);
        }
    };
    let line = write_written_line(crew.alloc, written.objects, written.cells);
    finish(out, err, line)
}
