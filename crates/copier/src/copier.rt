//! The copier.
ghost use Rattle.std.specs.Prelude.{◌≡◌, ◌≢◌, ◌-◌, ◌<◌, ◌≤◌, ◌^◌, ◌+◌, [], All, AllPairs, List, ℕ, length, map, slice_index_or, take, unwrap_or, IfOk, IfSome, IsOk, IsSome, OnOk};
ghost use Rattle.vol_base.specs.Bytes.{AreBytes};
ghost use Rattle.vol_base.specs.Calls.{ReadsFrom};
ghost use Rattle.vol_base.specs.Causes.{HasCauseOf};
ghost use Rattle.vol_spec.specs.Copies.{AreOfOneVolume, copied_cells};
ghost use Rattle.vol_spec.specs.Encodings.{encoded};
ghost use Rattle.vol_spec.specs.Grid.{IsCell};
ghost use Rattle.vol_spec.specs.Limits.{limit_of};
ghost use Rattle.vol_spec.specs.StoredCells.{cell_of};
ghost use Rattle.vol_spec.specs.StoredLists.{in_key_order};
ghost use Rattle.vol_spec.specs.declared.scale.Scale.{Scale};
ghost use Rattle.write_plan.specs.Jobs.{AreReady, Prepares, jobs_fault, window_of};
ghost use Rattle.write_plan.specs.Pairs.{cell_count};
ghost use Rattle.copier.specs.Frames.{HasRoom};
ghost use Rattle.copier.specs.Held.{HasFront, Holds, cells_of};
ghost use Rattle.copier.specs.Sources.{HasPrepared, window_cost};

use crate::filling::{find_frame, hand_chunk, put_values};
use crate::found::find_placed;
use crate::frame::JobFrame;
use crate::placing::Copies;
use crate::reading::read_jobs;
use crate::twins::{are_twins, keep_reader};
use cutout::{KeepingReader, Reader};
use std::alloc::{AllocError, Global};
use std::marker::Model;
use vol_base::{OutOfMemory, Store, StoreRefusal};
use vol_spec::{Scale, StoredScale};
use write_plan::{Chunks, JobList, PrepareFault, window};

/// So many frames, each with room for the values of each cell of a scale, and with no bytes yet. So a frame's
/// memory isn't touched before it is filled.
pub fn reserve_frames(alloc: Global, scale: &Scale, count: u64) -> Result<Vec<Vec<u8>>, AllocError>
    ensures count { IfOk result (λ frames. length frames.items ≡ count) }
    ensures each { IfOk result (λ frames. All (Holds scale.now) frames.items) }
{
    let len = scale.raw_limit() as usize;
    let mut frames = Vec::with_capacity(alloc, count as usize)?;
    for _ in 0..count {
        let frame = Vec::with_capacity(alloc, len)?;
        frames.push(frame)?;
    }
    Ok(frames)
}

// So many frames, each with room for the values of each cell of a scale, and with neither values nor a chunk yet.
fn reserve_jobs(alloc: Global, scale: &Scale, count: u64) -> Result<Vec<JobFrame>, AllocError>
    ensures count { IfOk result (λ frames. length frames.items ≡ count) }
    ensures each { IfOk result (λ frames. All (HasRoom scale.now) frames.items) }
{
    let len = scale.raw_limit() as usize;
    let mut frames = Vec::with_capacity(alloc, count as usize)?;
    for _ in 0..count {
        let bytes = Vec::with_capacity(alloc, len)?;
        frames.push(JobFrame { bytes, own: None })?;
    }
    Ok(frames)
}

/// Puts the front of a job's frame, of frames for the jobs from a number on.
pub fn put_front(frames: &[Vec<u8>], first: u64, job: u64, raw: &mut [u8])
    requires { HasFront first job (length raw.old) (map (λ f. f.items) frames.now) }
    ensures { raw.new ≡ take (length raw.old)
        (slice_index_or (map (λ f. f.items) frames.now) (job - first) []) }
{
    let frame = &frames[(job - first) as usize];
    raw.copy_from_slice(&frame[..raw.len()]);
}

/// What makes the chunks of a copy: the source's values in the boxes of the target's cells. It is seen
/// as what it holds.
#[derive(Drop)]
pub struct Copier {
    reader: KeepingReader,
    to: Scale,
    jobs: JobList,
    first: u64,
    count: u64,
    twins: bool,
    frames: Vec<JobFrame>,
}

impl Model for Copier {
    ghost use Rattle.copier.specs.Frames.{IsHeldIn, holding_frames};
    ghost use Rattle.copier.specs.Held.{Held, keeping};

    ghost Value = { Held };

    ghost view = { λ c. keeping (holding_frames c.reader.opened.dataset c.reader.opened.scale c.to c.jobs
        c.first c.count c.frames.items) c.reader.shards };

    ghost invariant = { λ c. IsHeldIn (holding_frames c.reader.opened.dataset c.reader.opened.scale c.to
        c.jobs c.first c.count c.frames.items) c.jobs c.twins c.frames.items };
}

impl Copier {
    /// A copier of a scale of a data set into another scale of the same volume, whose grid has at most 2^22
    /// cells. It has a job for each cell that meets the box of a cell of the source, of which there is a chunk
    /// or a fault. All the memory that it needs is taken here: a frame for each cell that may be prepared at
    /// once, whose bytes are first touched where it is used.
    ///
    /// # Errors
    /// `Failed` only where the store failed, and `OutOfMemory`.
    pub fn of<S: Store>(
        alloc: Global,
        store: &mut S,
        from: &StoredScale,
        to: &Scale,
    ) -> Result<Copier, StoreRefusal>
        requires volume { AreOfOneVolume from.now.scale to.now }
        requires few { cell_count to.now ≤ 2 ^ 22 }
        ensures dataset { IfOk result (λ copier. copier.dataset ≡ from.now.dataset) }
        ensures from { IfOk result (λ copier. copier.from ≡ from.now.scale) }
        ensures to { IfOk result (λ copier. copier.to ≡ to.now) }
        ensures few { IfOk result (λ copier. length (cells_of copier) ≤ 2 ^ 22) }
        ensures jobs { IfOk result (λ copier. IfSome (S.objects store.old) (λ m.
            cells_of copier ≡ in_key_order to.now (copied_cells m from.now.dataset from.now.scale to.now))) }
        ensures reads { ReadsFrom S.Source StoreRefusal.Failed store.old store.new result }
    {
        let Ok(reader) = Reader::open(alloc, &from.dataset, &from.scale) else {
            return Err(StoreRefusal::OutOfMemory);
        };
        let mut reader = reader.keeping();
        let cells = match find_placed::<Copies, S>(alloc, &mut reader, store, &from.scale, to) {
            Ok(cells) => cells,
            Err(refusal) => return Err(refusal),
        };
        let Ok(jobs) = JobList::of(alloc, to, cells) else {
            return Err(StoreRefusal::OutOfMemory);
        };
        let Ok(frames) = reserve_jobs(alloc, to, window(to).min(jobs.len())) else {
            return Err(StoreRefusal::OutOfMemory);
        };
        let twins = are_twins(&from.scale, to);
        let Ok(reader) = keep_reader(alloc, reader, twins) else {
            return Err(StoreRefusal::OutOfMemory);
        };
        Ok(Copier {
            reader,
            to: to.duplicate(),
            jobs,
            first: 0,
            count: 0,
            twins,
            frames,
        })
    }

    /// A copier of a scale of a data set into another scale of the same volume, with a job for each of some
    /// distinct cells of it. All the memory that it needs is taken here, as by `of`.
    ///
    /// # Errors
    /// `OutOfMemory`.
    pub fn of_cells(
        alloc: Global,
        from: &StoredScale,
        to: &Scale,
        cells: Vec<[u64; 3]>,
    ) -> Result<Copier, OutOfMemory>
        requires volume { AreOfOneVolume from.now.scale to.now }
        requires each { All (IsCell to.now) cells.items }
        requires distinct { AllPairs (λ a b. a ≢ b) cells.items }
        ensures dataset { IfOk result (λ copier. copier.dataset ≡ from.now.dataset) }
        ensures from { IfOk result (λ copier. copier.from ≡ from.now.scale) }
        ensures to { IfOk result (λ copier. copier.to ≡ to.now) }
        ensures jobs { IfOk result (λ copier. cells_of copier ≡ in_key_order to.now cells.items) }
    {
        let Ok(reader) = Reader::open(alloc, &from.dataset, &from.scale) else {
            return Err(OutOfMemory);
        };
        let Ok(jobs) = JobList::of(alloc, to, cells) else {
            return Err(OutOfMemory);
        };
        let Ok(frames) = reserve_jobs(alloc, to, jobs.len().min(window(to))) else {
            return Err(OutOfMemory);
        };
        let twins = are_twins(&from.scale, to);
        let Ok(reader) = keep_reader(alloc, reader.keeping(), twins) else {
            return Err(OutOfMemory);
        };
        Ok(Copier {
            reader,
            to: to.duplicate(),
            jobs,
            first: 0,
            count: 0,
            twins,
            frames,
        })
    }
}

impl Chunks for Copier {
    ghost use Rattle.copier.specs.Held.{IsApart, Keeps, ready_of, work_of};
    ghost use Rattle.copier.specs.HeldLaws.{held_jobs, held_keeps, raw_fits, ready_fits};

    ghost work = { work_of };

    ghost apart = { IsApart };

    ghost sure = { λ c. ⊥ };

    ghost ready = { ready_of };

    ghost keeps = { Keeps };

    ghost ordered = { held_jobs };

    ghost fits = { ready_fits };

    ghost lens = { λ c m job low. raw_fits c m job };

    ghost kept = { held_keeps };

    fn jobs(&self) -> &JobList {
        &self.jobs
    }

    /// Forgets the index that is kept.
    fn forget(&mut self) {
        self.reader.forget();
    }

    /// Cuts the boxes of the jobs out of the source, or takes their chunks as they are stored. It takes no memory.
    fn prepare<S: Store>(&mut self, store: &mut S, from: u64, to: u64) -> Result<(), PrepareFault>
        requires order { from ≤ to }
        requires within { to ≤ length (work_of self.old).cells }
        requires window { to - from ≤ window_of (work_of self.old).scale }
        requires keeps { Keeps self.old (S.objects store.old) }
        ensures prepared { OnOk result ((job : ℕ) → from ≤ job → job < to →
            IsSome (ready_of self.new job)) }
        ensures ready { OnOk result (IfSome (S.objects store.old) (λ m.
            AreReady (ready_of self.new) ((work_of self.old).raw m) from to)) }
        ensures answer { IfSome (S.objects store.old) (λ m.
            Prepares result (jobs_fault (work_of self.old) m from (to - from))) }
        ensures keeps { Keeps self.new (S.objects store.new) }
        ensures sure { ⊥ → IsOk result × ⊥ }
        ensures work { work_of self.new ≡ work_of self.old }
        ensures apart { (dataset : List ℕ) (s : Scale) → IsApart self.old dataset s →
            IsApart self.new dataset s }
        ensures objects { S.objects store.new ≡ S.objects store.old }
        ensures draft { S.draft store.new ≡ S.draft store.old }
        ensures history { S.history store.new ≡ S.history store.old }
        ensures cause { HasCauseOf PrepareFault.StoreFault (S.faults store.old) (S.faults store.new) result }

        // In this call it asks for the rows of an index once, as long as each cell stands behind the one before it.
        ensures asked { IfSome (S.objects store.old) (λ m.
            S.asked store.new ≤ S.asked store.old + window_cost self.old m from (to - from)) }

        // Call after call, while the objects stay the same, all of them together ask for no more than one would.
        ensures more { IfSome (S.objects store.old) (λ m. (first count begin : ℕ) → first + count ≡ from →
            HasPrepared self.old m first count begin (S.asked store.old) →
            (S.asked store.new ≤ begin + window_cost self.old m first (count + (to - from))) ×
            OnOk result (HasPrepared self.new m first (count + (to - from)) begin (S.asked store.new))) }
    {
        self.count = 0;
        let count = to - from;
        match read_jobs(
            &mut self.reader,
            store,
            &self.to,
            &self.jobs,
            self.twins,
            &mut self.frames,
            from,
            count as usize,
        ) {
            Ok(()) => {
                self.first = from;
                self.count = count;
                Ok(())
            }
            Err(fault) => Err(fault),
        }
    }

    /// Puts the values of a job's frame. It takes no memory.
    fn fill(&self, job: u64, raw: &mut [u8]) {
        put_values(&self.to, find_frame(&self.frames, self.first, job), raw);
    }

    /// Puts the chunk of a job's frame, where that was taken as it is stored.
    fn chunk(&self, job: u64, out: &mut [u8]) -> Option<usize>
        requires job { job < length (work_of self.now).cells }
        requires ready { IsSome (ready_of self.now job) }
        requires room { limit_of (work_of self.now).scale.encoding (work_of self.now).scale.width
            (work_of self.now).scale.channels (work_of self.now).scale.size (work_of self.now).scale.chunk
            ≤ length out.old }
        ensures within { IfSome result (λ n. n ≤ length out.new) }
        ensures chunk { IfSome result (λ n. take n out.new ≡ encoded (work_of self.now).scale
            (cell_of (work_of self.now).cells job) (unwrap_or (ready_of self.now job) [])) }
        ensures bytes { IfSome result (λ n. AreBytes (unwrap_or (ready_of self.now job) [])) }
    {
        hand_chunk(&self.to, find_frame(&self.frames, self.first, job), out)
    }
}
