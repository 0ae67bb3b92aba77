//! Plans of overlapping writes.
ghost use Rattle.std.specs.Prelude.{◌≡◌, ◌<◌, ◌^◌, ◌↔◌, ℕ, Err, All, IfOk, length};
ghost use Rattle.vol_base.specs.Bytes.{AreBytes};
ghost use Rattle.vol_spec.specs.Encodings.{raw_size};
ghost use Rattle.vol_spec.specs.Grid.{IsCell, cell_box};
ghost use Rattle.vol_spec.specs.Raw.{raw_at};
ghost use Rattle.vol_spec.specs.StoredCells.{met, written_raw};
ghost use Rattle.vol_spec.specs.declared.scale.Scale.{Scale};
ghost use Rattle.write_plan.specs.Plans.{pairs as count_of};
ghost use Rattle.write_plan.specs.WriteLists.{IsWriteOf};

use crate::chunks::{Chunks, PrepareFault};
use crate::fills::{apply_run, clear};
use crate::jobs::JobList;
use crate::pairs::{Pair, count_pairs, find_cells, find_number, find_pairs, find_run};
use crate::writes::Writes;
use chunk_grid::cell_box;
use std::alloc::{AllocError, Global};
use std::marker::Model;
use vol_base::{OutOfMemory, Store};
use vol_spec::Scale;

// The most pairs of a write and a cell that it meets.
const MOST_PAIRS: u64 = 1 << 22;

/// Why writes weren't planned: there are more than 2^22 pairs of a write and a cell that it meets,
/// or memory ran out.
#[derive(Clone, Copy, Debug, PartialEq, Eq)]
pub enum PlanRefusal {
    TooManyCells { cells: u64 },
    OutOfMemory,
}

/// The writes into a scale, with a job for each cell that some write meets. It is seen as the scale
/// and the writes.
#[derive(Drop)]
pub struct Plan {
    scale: Scale,
    writes: Writes,
    jobs: JobList,
    pairs: Vec<Pair>,
}

impl Model for Plan {
    ghost use Rattle.write_plan.specs.Pairs.{IsPlan};
    ghost use Rattle.write_plan.specs.Plans.{Planned};

    ghost Value = { Planned };

    ghost view = { λ plan. record { scale = plan.scale; writes = plan.writes } };

    ghost invariant = { λ plan. IsPlan plan.scale plan.writes plan.jobs plan.pairs.items };
}

impl Plan {
    /// A plan of writes of a scale.
    ///
    /// # Errors
    /// `TooManyCells` exactly where there are more than 2^22 pairs of a write and a cell that it
    /// meets, with their number; and `OutOfMemory`.
    pub fn of(alloc: Global, scale: &Scale, writes: Writes) -> Result<Plan, PlanRefusal>
        requires { All (IsWriteOf scale.now) writes }
        ensures plan { IfOk result (λ plan. plan ≡ record { scale = scale.now; writes = writes }) }
        ensures bytes { IfOk result (λ plan. All (λ w. AreBytes w.1) plan.writes) }
        ensures too_many { (cells : ℕ) → (result ≡ Err (PlanRefusal.TooManyCells cells)) ↔
            ((2 ^ 22 < count_of scale.now writes) × (cells ≡ count_of scale.now writes)) }
    {
        let cells = count_pairs(scale, writes.list());
        if cells > MOST_PAIRS {
            return Err(PlanRefusal::TooManyCells { cells });
        }
        let pairs = find_pairs(alloc, scale, writes.list(), cells)?;
        let jobs = JobList::of(alloc, scale, find_cells(alloc, scale, &pairs)?)?;
        let scale = scale.duplicate();
        Ok(Plan {
            scale,
            writes,
            jobs,
            pairs,
        })
    }

    /// Puts the writes over the bytes of a cell's values: each voxel and channel that a write covers gets the
    /// value of the last one, and the others stay. It takes no memory.
    pub fn overlay(&self, cell: [u64; 3], raw: &mut [u8])
        requires cell { IsCell self.now.scale cell }
        requires len { length raw.old ≡ raw_size self.now.scale cell }
        ensures { raw.new ≡ written_raw self.now.scale
            (raw_at (cell_box self.now.scale cell) self.now.scale.width raw.old) self.now.writes cell }
    {
        let scale = &self.scale;
        let run = find_run(&self.pairs, find_number(scale, cell));
        let part = cell_box(scale, cell);
        apply_run(
            self.writes.list(),
            run,
            &part,
            raw,
            scale.channels,
            scale.width,
        );
    }

    /// The writes, handed back.
    pub fn into_writes(self) -> Writes
        ensures { result ≡ self.writes }
    {
        self.writes
    }

    /// Whether some write meets a cell.
    pub fn meets(&self, cell: [u64; 3]) -> bool
        requires { IsCell self.now.scale cell }
        ensures { result ≡ met self.now.scale self.now.writes cell }
    {
        !find_run(&self.pairs, find_number(&self.scale, cell)).is_empty()
    }
}

impl From<AllocError> for PlanRefusal {
    ghost use Rattle.write_plan.specs.declared.plan.PlanRefusal.TheVariants as refusals;

    ghost from_gives = { λ _ e. e ≡ refusals.OutOfMemory };

    fn from(_e: AllocError) -> PlanRefusal {
        PlanRefusal::OutOfMemory
    }
}

impl From<OutOfMemory> for PlanRefusal {
    ghost use Rattle.write_plan.specs.declared.plan.PlanRefusal.TheVariants as refusals;

    ghost from_gives = { λ _ e. e ≡ refusals.OutOfMemory };

    fn from(_e: OutOfMemory) -> PlanRefusal {
        PlanRefusal::OutOfMemory
    }
}

impl Chunks for Plan {
    ghost use Rattle.std.specs.Prelude.{◌≡◌, ◌-◌, ◌≤◌, IsOk, IfSome, false, length};
    ghost use Rattle.write_plan.specs.Jobs.{Prepares, jobs_fault};
    ghost use Rattle.write_plan.specs.Plans.{planned_cells, ready_of, work_of};
    ghost use Rattle.write_plan.specs.PlanLaws.{met_jobs, plan_fits, plan_keeps, ready_fits};

    ghost work = { work_of };

    ghost apart = { λ plan dataset s. Unit {0} };

    ghost sure = { λ plan. Unit {0} };

    ghost ready = { ready_of };

    ghost keeps = { λ plan objects. Unit {0} };

    ghost holding = { false };

    ghost ordered = { λ plan. met_jobs plan.scale plan.writes };

    ghost fits = { ready_fits };

    ghost lens = { λ plan m job low. plan_fits plan job };

    ghost kept = { λ plan dataset s apart. plan_keeps plan dataset s };

    fn jobs(&self) -> &JobList {
        &self.jobs
    }

    /// Does nothing: nothing is kept.
    fn forget(&mut self) {}

    /// Jobs hold no values: these are put together as a job is filled in.
    fn holds_values(&self) -> bool {
        false
    }

    /// Does nothing: each job is prepared from the start.
    fn prepare<S: Store>(
        &mut self,
        _store: &mut S,
        _from: u64,
        _to: u64,
    ) -> Result<(), PrepareFault>
        requires within { _to ≤ length (planned_cells self.old) }
        ensures done { IsOk result }
        ensures plan { self.new ≡ self.old }
        ensures store { _store.new ≡ _store.old }
        ensures answer { IfSome (S.objects _store.old) (λ m.
            Prepares result (jobs_fault (work_of self.old) m _from (_to - _from))) }
    {
        Ok(())
    }

    /// Puts the raw bytes of a job's cell. It takes no memory.
    fn fill(&self, job: u64, raw: &mut [u8]) {
        let cell = self.jobs.get(job).cell;
        clear(raw);
        self.overlay(cell, raw);
    }
}
