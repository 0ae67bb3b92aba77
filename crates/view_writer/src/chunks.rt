//! A plan that is read alone, as the chunks of a writer.
ghost use Rattle.std.specs.Prelude.{◌≡◌, ◌-◌, ◌≤◌, ◌<◌, ℕ, IsOk, IsSome, OnOk, IfSome, false, length};
ghost use Rattle.vol_base.specs.Causes.{HasCauseOf};
ghost use Rattle.write_plan.specs.Jobs.{AreReady, Prepares, jobs_fault};
ghost use Rattle.write_plan.specs.Plans.{planned_cells, ready_of, work_of};
ghost use Rattle.write_plan.specs.PlanLaws.{met_jobs, plan_fits, plan_keeps, ready_fits};

use vol_base::Store;
use write_plan::{Chunks, JobList, Plan, PrepareFault};

/// The chunks of a plan that is lent: its writes are the same afterwards.
#[derive(Drop)]
pub(crate) struct PlanChunks<'a> {
    pub plan: &'a Plan,
}

impl<'a> Chunks for PlanChunks<'a> {
    ghost work = { λ c. work_of c.plan.now };

    ghost apart = { λ c dataset s. Unit {0} };

    ghost sure = { λ c. Unit {0} };

    ghost ready = { λ c. ready_of c.plan.now };

    ghost keeps = { λ c objects. Unit {0} };

    ghost holding = { false };

    ghost ordered = { λ c. met_jobs c.plan.now.scale c.plan.now.writes };

    ghost fits = { λ c. ready_fits c.plan.now };

    ghost lens = { λ c m job low. plan_fits c.plan.now job };

    ghost kept = { λ c dataset s apart. plan_keeps c.plan.now dataset s };

    fn jobs(&self) -> &JobList {
        self.plan.jobs()
    }

    fn forget(&mut self) {}

    /// Jobs hold no values: these are put together as a job is filled in.
    fn holds_values(&self) -> bool {
        false
    }

    /// Does nothing: each job is prepared from the start.
    fn prepare<S: Store>(
        &mut self,
        _store: &mut S,
        _from: u64,
        _to: u64,
    ) -> Result<(), PrepareFault>
        requires within { _to ≤ length (planned_cells self.old.plan.now) }
        ensures done { IsOk result }
        ensures prepared { OnOk result ((job : ℕ) → _from ≤ job → job < _to →
            IsSome (ready_of self.new.plan.now job)) }
        ensures ready { OnOk result (IfSome (S.objects _store.old) (λ m.
            AreReady (ready_of self.new.plan.now) ((work_of self.old.plan.now).raw m) _from _to)) }
        ensures answer { IfSome (S.objects _store.old) (λ m.
            Prepares result (jobs_fault (work_of self.old.plan.now) m _from (_to - _from))) }
        ensures sure { Unit {0} → IsOk result × Unit {0} }
        ensures work { work_of self.new.plan.now ≡ work_of self.old.plan.now }
        ensures objects { S.objects _store.new ≡ S.objects _store.old }
        ensures draft { S.draft _store.new ≡ S.draft _store.old }
        ensures history { S.history _store.new ≡ S.history _store.old }
        ensures cause { HasCauseOf PrepareFault.StoreFault (S.faults _store.old) (S.faults _store.new) result }
    {
        Ok(())
    }

    fn fill(&self, job: u64, raw: &mut [u8]) {
        self.plan.fill(job, raw);
    }
}
