//! Jobs that are written.
ghost use Rattle.std.specs.Prelude.{◌≡◌, ◌≤◌, ◌^◌, None, IfSome, OnOk, length};
ghost use Rattle.vol_base.specs.Causes.{HasCauseOf};
ghost use Rattle.shard_writer.specs.Writing.{Drops};
ghost use Rattle.shard_writer.specs.Works.{DropsOrBegins, NeverDamaged, PassesFronts, job_objects};
ghost use Rattle.told_writer.specs.Told.{Wrote};
ghost use Rattle.vol_spec.specs.Writable.{IsWritable};

use command_base::Crew;
use shard_writer::{WriteFault, Written, write_scale};
use std::sync::Wait;
use std::thread::Threads;
use vol_base::{Gate, Name, Store};
use vol_spec::Scale;
use write_plan::Chunks;

/// Writes the objects of all jobs, by a crew.
pub fn write_told<R: Threads + Wait + Sync, S: Store, C: Chunks + Sync, G: Gate + Sync>(
    crew: &Crew<R, G>,
    store: &mut S,
    dataset: &Name,
    scale: &Scale,
    chunks: &mut C,
) -> Result<Written, WriteFault>
    requires dataset { length dataset.now ≤ 200 }
    requires writable { IsWritable scale.now }
    requires scale { (C.work chunks.old).scale ≡ scale.now }
    requires few { length (C.work chunks.old).cells ≤ 2 ^ 22 }
    requires apart { IfSome (S.objects store.old) (λ _. C.apart chunks.old dataset.now scale.now) }
    ensures wrote { IfSome (S.objects store.old) (λ m.
        Wrote dataset.now (C.work chunks.old) m (S.objects store.new) result) }
    ensures killed { PassesFronts (job_objects dataset.now (C.work chunks.old)) (S.objects store.old)
        (S.history store.old) (S.history store.new) }
    ensures sound { C.sure chunks.old → NeverDamaged result }
    ensures draft { OnOk result (Drops (S.draft store.old) (S.draft store.new)) }
    ensures dropped { C.sure chunks.old → Drops (S.draft store.old) (S.draft store.new) }
    ensures begun { DropsOrBegins dataset.now (C.work chunks.old) (S.objects store.old) (S.objects store.new)
        (S.draft store.old) (S.draft store.new) }
    ensures unsharded { scale.now.sharding ≡ None → Drops (S.draft store.old) (S.draft store.new) }
    ensures cause { HasCauseOf WriteFault.StoreFault (S.faults store.old) (S.faults store.new) result }
{
    write_scale(
        crew.rt,
        crew.alloc,
        store,
        dataset,
        scale,
        chunks,
        crew.workers,
        crew.gate,
    )
}
