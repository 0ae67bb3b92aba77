//! The updater.
ghost use Rattle.std.specs.Prelude.{◌≡◌, ◌≢◌, ◌-◌, ◌<◌, ◌≤◌, ◌+◌, All, AllPairs, List, ℕ, length, IfOk, IfSome, IsOk, IsSome, OnOk};
ghost use Rattle.vol_base.specs.Causes.{HasCauseOf};
ghost use Rattle.vol_spec.specs.Grid.{IsCell};
ghost use Rattle.vol_spec.specs.StoredLists.{in_key_order};
ghost use Rattle.vol_spec.specs.declared.scale.Scale.{Scale};
ghost use Rattle.write_plan.specs.Jobs.{AreReady, Prepares, jobs_fault, window_of};
ghost use Rattle.copier.specs.Held.{cells_of};
ghost use Rattle.copier.specs.Sources.{HasPrepared, window_cost};

use copier::Copier;
use std::alloc::Global;
use std::marker::Model;
use vol_base::{OutOfMemory, Store};
use vol_spec::StoredScale;
use write_plan::{Chunks, JobList, Plan, PrepareFault};

/// What makes the chunks of an update: the values that a scale holds in the boxes of some of its cells, with
/// writes over them. It is seen as what is read, and the writes.
#[derive(Drop)]
pub struct Updater {
    copier: Copier,
    plan: Plan,
}

impl Model for Updater {
    ghost use Rattle.updater.specs.Updates.{IsUpdating, Updates, updating};

    ghost Value = { Updates };

    ghost view = { λ u. updating u.copier u.plan };

    ghost invariant = { λ u. IsUpdating u.copier u.plan };
}

impl Updater {
    /// An updater of a scale of a data set, with a job for each of some distinct cells. All the memory that
    /// it needs is taken here.
    ///
    /// # Errors
    /// `OutOfMemory`.
    pub fn of(
        alloc: Global,
        stored: &StoredScale,
        plan: Plan,
        cells: Vec<[u64; 3]>,
    ) -> Result<Updater, OutOfMemory>
        requires plan { plan.scale ≡ stored.now.scale }
        requires each { All (IsCell stored.now.scale) cells.items }
        requires distinct { AllPairs (λ a b. a ≢ b) cells.items }
        ensures dataset { IfOk result (λ updater. updater.held.dataset ≡ stored.now.dataset) }
        ensures from { IfOk result (λ updater. updater.held.from ≡ stored.now.scale) }
        ensures to { IfOk result (λ updater. updater.held.to ≡ stored.now.scale) }
        ensures writes { IfOk result (λ updater. updater.writes ≡ plan.writes) }
        ensures jobs { IfOk result (λ updater. cells_of updater.held ≡ in_key_order stored.now.scale cells.items) }
    {
        match Copier::of_cells(alloc, stored, &stored.scale, cells) {
            Ok(copier) => Ok(Updater { copier, plan }),
            Err(OutOfMemory) => Err(OutOfMemory),
        }
    }
}

impl Chunks for Updater {
    ghost use Rattle.updater.specs.Updates.{IsApart, keeps_of, ready_of, work_of};
    ghost use Rattle.updater.specs.UpdateLaws.{ready_fits, updates_jobs, updates_keep, raw_fits};

    ghost work = { work_of };

    ghost apart = { IsApart };

    ghost sure = { λ u. ⊥ };

    ghost ready = { ready_of };

    ghost keeps = { keeps_of };

    ghost ordered = { updates_jobs };

    ghost fits = { ready_fits };

    ghost lens = { λ u m job low. raw_fits u m job };

    ghost kept = { updates_keep };

    fn jobs(&self) -> &JobList {
        self.copier.jobs()
    }

    /// Forgets the index that is kept.
    fn forget(&mut self) {
        self.copier.forget();
    }

    /// Reads what the scale holds in the boxes of the jobs. It takes no memory.
    fn prepare<S: Store>(&mut self, store: &mut S, from: u64, to: u64) -> Result<(), PrepareFault>
        requires order { from ≤ to }
        requires within { to ≤ length (work_of self.old).cells }
        requires window { to - from ≤ window_of (work_of self.old).scale }
        requires keeps { keeps_of self.old (S.objects store.old) }
        ensures prepared { OnOk result ((job : ℕ) → from ≤ job → job < to →
            IsSome (ready_of self.new job)) }
        ensures ready { OnOk result (IfSome (S.objects store.old) (λ m.
            AreReady (ready_of self.new) ((work_of self.old).raw m) from to)) }
        ensures answer { IfSome (S.objects store.old) (λ m.
            Prepares result (jobs_fault (work_of self.old) m from (to - from))) }
        ensures keeps { keeps_of self.new (S.objects store.new) }
        ensures sure { ⊥ → IsOk result × ⊥ }
        ensures work { work_of self.new ≡ work_of self.old }
        ensures apart { (dataset : List ℕ) (s : Scale) → IsApart self.old dataset s →
            IsApart self.new dataset s }
        ensures objects { S.objects store.new ≡ S.objects store.old }
        ensures draft { S.draft store.new ≡ S.draft store.old }
        ensures history { S.history store.new ≡ S.history store.old }
        ensures cause { HasCauseOf PrepareFault.StoreFault (S.faults store.old) (S.faults store.new) result }

        // In this call it asks for the rows of an index once, as long as each cell stands behind the one before it.
        ensures asked { IfSome (S.objects store.old) (λ m.
            S.asked store.new ≤ S.asked store.old + window_cost self.old.held m from (to - from)) }

        // Call after call, while the objects stay the same, all of them together ask for no more than one would.
        ensures more { IfSome (S.objects store.old) (λ m. (first count begin : ℕ) → first + count ≡ from →
            HasPrepared self.old.held m first count begin (S.asked store.old) →
            (S.asked store.new ≤ begin + window_cost self.old.held m first (count + (to - from))) ×
            OnOk result (HasPrepared self.new.held m first (count + (to - from)) begin (S.asked store.new))) }
    {
        self.copier.prepare(store, from, to)
    }

    /// Puts what was read, and the writes over it. It takes no memory.
    fn fill(&self, job: u64, raw: &mut [u8]) {
        self.copier.fill(job, raw);
        let cell = self.copier.jobs().get(job).cell;
        self.plan.overlay(cell, raw);
    }

    /// Hands out the chunk of a cell that no write meets, where it was taken as it is stored.
    fn chunk(&self, job: u64, out: &mut [u8]) -> Option<usize> {
        if self.plan.meets(self.copier.jobs().get(job).cell) {
            return None;
        }
        self.copier.chunk(job, out)
    }
}
