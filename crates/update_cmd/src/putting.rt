//! Writes over a scale.
ghost use Rattle.std.specs.Prelude.{◌≡◌, ◌≤◌, ◌^◌, All, Err, length, IfErr, IfSome, None, OnOk};
ghost use Rattle.vol_base.specs.Bytes.{AreBytes};
ghost use Rattle.vol_base.specs.Causes.{HasCauseOf};
ghost use Rattle.vol_spec.specs.Writable.{IsWritable};
ghost use Rattle.shard_writer.specs.Writing.{Drops};
ghost use Rattle.shard_writer.specs.Works.{PassesFronts};
ghost use Rattle.copier.specs.Held.{cells_of};
ghost use Rattle.update_cmd.specs.Putting.{DropsOrUpdates, HasUpdateJobs, IsLate, Updates};
ghost use Rattle.update_cmd.specs.Updating.{update_list};

use crate::UpdateFault;
use command_base::Crew;
use shard_writer::Written;
use std::sync::Wait;
use std::thread::Threads;
use told_writer::write_told;
use updater::Updater;
use vol_base::{Gate, Store};
use vol_spec::StoredScale;

/// Puts the objects of writes over what a scale holds, whose chunks an updater makes.
pub(crate) fn put_updates<R: Threads + Wait + Sync, S: Store, G: Gate + Sync>(
    crew: &Crew<R, G>,
    store: &mut S,
    stored: &StoredScale,
    updater: &mut Updater,
) -> Result<Written, UpdateFault>
    requires writable { IsWritable stored.now.scale }
    requires few { length (cells_of updater.old.held) ≤ 2 ^ 22 }
    requires own { updater.old.held.dataset ≡ stored.now.dataset }
    requires from { updater.old.held.from ≡ stored.now.scale }
    requires to { updater.old.held.to ≡ stored.now.scale }
    requires written { All (λ write. AreBytes write.1) updater.old.writes }
    requires jobs { IfSome (S.objects store.old) (λ m.
        HasUpdateJobs m updater.old stored.now.dataset stored.now.scale) }
    ensures updates { IfSome (S.objects store.old) (λ m.
        Updates result m (S.objects store.new) stored.now.dataset stored.now.scale updater.old.writes) }
    ensures late { IfErr result IsLate }
    ensures killed { PassesFronts
        (λ m. update_list m stored.now.dataset stored.now.scale updater.old.writes) (S.objects store.old)
        (S.history store.old) (S.history store.new) }
    ensures draft { OnOk result (Drops (S.draft store.old) (S.draft store.new)) }
    ensures begun { DropsOrUpdates (S.objects store.old) (S.objects store.new) stored.now.dataset
        stored.now.scale updater.old.writes (S.draft store.old) (S.draft store.new) }
    ensures unsharded { stored.now.scale.sharding ≡ None → Drops (S.draft store.old) (S.draft store.new) }
    ensures cause { HasCauseOf UpdateFault.StoreFault (S.faults store.old) (S.faults store.new) result }
{
    let written = write_told(crew, store, &stored.dataset, &stored.scale, updater)?;
    Ok(written)
}
