//! The reducer.
ghost use Rattle.std.specs.Prelude.{◌≡◌, ◌-◌, ◌<◌, ◌≤◌, ◌^◌, List, ℕ, length, IfOk, IfSome, IsOk, IsSome, OnOk};
ghost use Rattle.vol_base.specs.Calls.{ReadsFrom};
ghost use Rattle.vol_spec.specs.StoredLists.{in_key_order};
ghost use Rattle.vol_spec.specs.declared.scale.Scale.{Scale};
ghost use Rattle.write_plan.specs.Jobs.{AreReady, Prepares, jobs_fault, window_of};
ghost use Rattle.write_plan.specs.Pairs.{cell_count};
ghost use Rattle.copier.specs.Held.{cells_of};
ghost use Rattle.reduce_laws.specs.Reduced.{IsNext, reduced_cells};
ghost use Rattle.reducer.specs.Reading.{HasRoom};

use crate::ahead::reduce_jobs;
use crate::sources::{Reductions, source_box};
use chunk_grid::byte_len;
use copier::{find_placed, put_front, reserve_frames};
use cutout::{KeepingReader, Reader};
use reduce_laws::Method;
use std::alloc::{AllocError, Global};
use std::marker::Model;
use std::thread::Threads;
use vol_base::{Store, StoreRefusal};
use vol_spec::{Scale, StoredScale};
use write_plan::{Chunks, JobList, PrepareFault, window};

// Room for the values of each source box: the first cell's is the largest. It has no bytes yet, so its memory isn't
// touched before it is used.
fn reserve_buffer(alloc: Global, from: &Scale, to: &Scale) -> Result<Vec<u8>, AllocError>
    requires next { IsNext from.now to.now }
    ensures room { IfOk result (HasRoom from.now to.now) }
{
    let part = source_box(from, to, [0; 3]);
    let len = byte_len(&part, from.channels, from.width) as usize;
    Vec::with_capacity(alloc, len)
}

// Chunks whose values have fewer bytes are reduced in turn: to begin a thread takes longer.
const SMALL: u64 = 1 << 13;

// Another such buffer, where a job is reduced beside the reading of the next one: with more than one worker, but for
// small chunks.
fn reserve_ahead(
    alloc: Global,
    from: &Scale,
    to: &Scale,
    workers: u32,
) -> Result<Option<Vec<u8>>, AllocError>
    requires next { IsNext from.now to.now }
    ensures room { IfOk result (λ ahead. IfSome ahead (HasRoom from.now to.now)) }
{
    if workers < 2 || to.raw_limit() < SMALL {
        return Ok(None);
    }
    match reserve_buffer(alloc, from, to) {
        Ok(buffer) => Ok(Some(buffer)),
        Err(refusal) => Err(refusal),
    }
}

/// What makes the chunks of the next, coarser scale: the values in the boxes of its cells, reduced from the
/// source's. It is seen as the method, and what it holds.
#[derive(Drop)]
pub struct Reducer<'a, R> {
    rt: &'a R,
    reader: KeepingReader,
    method: Method,
    from: Scale,
    to: Scale,
    jobs: JobList,
    first: u64,
    count: u64,
    frames: Vec<Vec<u8>>,
    buffer: Vec<u8>,
    ahead: Option<Vec<u8>>,
}

impl<'a, R> Model for Reducer<'a, R> {
    ghost use Rattle.std.specs.Prelude.{◌≡◌};
    ghost use Rattle.copier.specs.Held.{holding};
    ghost use Rattle.reducer.specs.Works.{IsReduction, Reduction};

    ghost Value = { Reduction };

    ghost view = { λ r. record {
      method = r.method;
      held = holding r.reader.opened.dataset r.from r.to r.jobs r.first r.count r.frames.items;
    } };

    ghost invariant = { λ r. (r.reader.opened.scale ≡ r.from) × IsReduction
        (holding r.reader.opened.dataset r.from r.to r.jobs r.first r.count r.frames.items)
        r.jobs r.frames.items r.buffer r.ahead };
}

impl<'a, R: Threads> Reducer<'a, R> {
    /// A reducer of a scale of a data set into the next one, whose grid has at most 2^22 cells. It has a job for
    /// each cell with a position over that of a cell of the source, of which there is a chunk or a fault. All the
    /// memory that it needs is taken here: a frame for each cell that may be prepared at once, and room for one
    /// job's values in the source, at most 2^30 bytes, or with more than one worker for two jobs'. Their bytes are
    /// first touched where they are used.
    ///
    /// # Errors
    /// `Failed` only where the store failed, and `OutOfMemory`.
    pub fn of<S: Store>(
        rt: &'a R,
        alloc: Global,
        store: &mut S,
        method: Method,
        from: &StoredScale,
        to: &Scale,
        workers: u32,
    ) -> Result<Reducer<'a, R>, StoreRefusal>
        requires next { IsNext from.now.scale to.now }
        requires few { cell_count to.now ≤ 2 ^ 22 }
        ensures method { IfOk result (λ reducer. reducer.method ≡ method) }
        ensures dataset { IfOk result (λ reducer. reducer.held.dataset ≡ from.now.dataset) }
        ensures from { IfOk result (λ reducer. reducer.held.from ≡ from.now.scale) }
        ensures to { IfOk result (λ reducer. reducer.held.to ≡ to.now) }
        ensures few { IfOk result (λ reducer. length (cells_of reducer.held) ≤ 2 ^ 22) }
        ensures jobs { IfOk result (λ reducer. IfSome (S.objects store.old) (λ m.
            cells_of reducer.held
            ≡ in_key_order to.now (reduced_cells m from.now.dataset from.now.scale to.now))) }
        ensures reads { ReadsFrom S.Source StoreRefusal.Failed store.old store.new result }
    {
        let Ok(reader) = Reader::open(alloc, &from.dataset, &from.scale) else {
            return Err(StoreRefusal::OutOfMemory);
        };
        let mut reader = reader.keeping();
        let cells = match find_placed::<Reductions, S>(alloc, &mut reader, store, &from.scale, to) {
            Ok(cells) => cells,
            Err(refusal) => return Err(refusal),
        };
        let Ok(jobs) = JobList::of(alloc, to, cells) else {
            return Err(StoreRefusal::OutOfMemory);
        };
        let Ok(frames) = reserve_frames(alloc, to, window(to).min(jobs.len())) else {
            return Err(StoreRefusal::OutOfMemory);
        };
        let Ok(buffer) = reserve_buffer(alloc, &from.scale, to) else {
            return Err(StoreRefusal::OutOfMemory);
        };
        let Ok(ahead) = reserve_ahead(alloc, &from.scale, to, workers) else {
            return Err(StoreRefusal::OutOfMemory);
        };
        Ok(Reducer {
            rt,
            reader,
            method,
            from: from.scale.duplicate(),
            to: to.duplicate(),
            jobs,
            first: 0,
            count: 0,
            frames,
            buffer,
            ahead,
        })
    }
}

impl<'a, R: Threads> Chunks for Reducer<'a, R> {
    ghost use Rattle.reducer.specs.Works.{IsApart, ready_of, work_of};
    ghost use Rattle.reducer.specs.WorkLaws.{raw_fits, ready_fits, work_jobs, work_keeps};

    ghost work = { work_of };

    ghost apart = { IsApart };

    ghost sure = { λ r. ⊥ };

    ghost ready = { ready_of };

    ghost keeps = { λ r objects. Unit {0} };

    ghost ordered = { work_jobs };

    ghost fits = { ready_fits };

    ghost lens = { λ r m job low. raw_fits r m job };

    ghost kept = { work_keeps };

    fn jobs(&self) -> &JobList {
        &self.jobs
    }

    /// Does nothing: nothing is kept from call to call.
    fn forget(&mut self) {}

    /// Reduces the source's values under the jobs. It takes no memory.
    fn prepare<S: Store>(&mut self, store: &mut S, from: u64, to: u64) -> Result<(), PrepareFault> {
        self.count = 0;
        let count = to - from;
        match reduce_jobs(
            self.rt,
            &mut self.reader,
            store,
            self.method,
            &self.from,
            &self.to,
            &self.jobs,
            &mut self.buffer,
            &mut self.ahead,
            &mut self.frames,
            from,
            count as usize,
        ) {
            Ok(()) => {
                self.first = from;
                self.count = count;
                Ok(())
            }
            Err(fault) => Err(fault),
        }
    }

    /// Puts the bytes of a job's frame. It takes no memory.
    fn fill(&self, job: u64, raw: &mut [u8]) {
        put_front(&self.frames, self.first, job, raw);
    }
}
