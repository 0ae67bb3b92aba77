//! A bench: all memory that rounds take.
ghost use Rattle.std.specs.Prelude.{◌≡◌, ◌<◌, ◌≤◌, ◌+◌, ◌-◌, ℕ, All, IfOk, Some, None, [], length, vec_capacity};
ghost use Rattle.vol_spec.specs.declared.scale.Scale.{Scale};
ghost use Rattle.vol_spec.specs.Writable.{IsWritable};
ghost use Rattle.job_log.specs.Replay.{IsFinished, claims_in};
ghost use Rattle.encode_round.specs.Begun.{AreBegun, MayEnd};
ghost use Rattle.encode_round.specs.Held.{HasLen};
ghost use Rattle.encode_round.specs.Ready.{chunk_ready, chunks_from};
ghost use Rattle.encode_round.specs.Serving.{AllLent, ArePrepared, HasChunks, ServesBench, ServesDesk, ServesKit, done_in, log_in, most, seats_in, size_in};

use crate::desk::Desk;
use crate::encoder::reserve_desk;
use crate::kit::Kit;
use crate::places::put_desk;
use crate::run::{pack, run_named};
use chunk_pool::{Frame, Pool};
use job_log::Event;
use std::alloc::Global;
use std::marker::Brand;
use std::mem;
use std::sync::Wait;
use std::sync::ledger::Blank;
use std::thread::Threads;
use vol_base::{Gate, OutOfMemory};
use vol_spec::Scale;
use write_plan::Chunks;

/// What rounds of a scale's jobs take, reserved once: lists with room for their events, a frame for each of so many jobs, and a
/// desk for each worker. The frames are those of a pool, each of them lent.
#[derive(Drop)]
pub struct Bench {
    alloc: Global,
    pool: Pool,
    kit: Kit,
    size: u64,
}

// A list with room for so many entries.
fn with_room<T>(alloc: Global, count: usize) -> Result<Vec<T>, OutOfMemory>
    ensures items { IfOk result (λ v. v.items ≡ []) }
    ensures room { IfOk result (λ v. count ≤ vec_capacity v) }
{
    match Vec::with_capacity(alloc, count) {
        Ok(list) => Ok(list),
        Err(_) => Err(OutOfMemory),
    }
}

// All frames of a pool that has so many of a length, and has lent none, the last one first.
fn take_frames(
    alloc: Global,
    pool: &mut Pool,
    count: u32,
    len: u64,
) -> Result<Vec<Option<Frame>>, OutOfMemory>
    requires all { pool.old.reserved ≡ count }
    requires none { pool.old.lent ≡ 0 }
    requires long { pool.old.len ≡ len }
    ensures count { IfOk result (λ v. length v.items ≡ count) }
    ensures frames { IfOk result (λ v. All (HasLen len) v.items) }
    ensures lent { IfOk result (λ _. AllLent count len pool.new) }
{
    let mut frames = with_room(alloc, count as usize)?;
    for _i in 0..count {
        let Some(frame) = pool.take() else {
            unreachable!()
        };
        match frames.push(Some(frame)) {
            Ok(()) => {}
            Err(_) => return Err(OutOfMemory),
        }
    }
    Ok(frames)
}

// A desk for each worker.
fn reserve_desks(alloc: Global, scale: &Scale, workers: u32) -> Result<Vec<Desk>, OutOfMemory>
    ensures count { IfOk result (λ v. length v.items ≡ workers) }
    ensures desks { IfOk result (λ v. All (ServesDesk scale.now) v.items) }
{
    let mut desks = with_room(alloc, workers as usize)?;
    for _i in 0..workers {
        let desk = reserve_desk(alloc, scale)?;
        put_desk(scale, &mut desks, desk);
    }
    Ok(desks)
}

// A kit without anything; it takes no memory.
fn empty_kit(alloc: Global) -> Kit {
    Kit {
        stages: Vec::new(alloc),
        log: Vec::new(alloc),
        frames: Vec::new(alloc),
        desks: Vec::new(alloc),
        spare: Vec::new(alloc),
    }
}

impl Bench {
    /// A bench for rounds of at most so many of a scale's jobs, and for so many workers. Only this call takes memory. That of a frame
    /// isn't touched before a chunk is put there.
    pub fn reserve(
        alloc: Global,
        scale: &Scale,
        workers: u32,
        size: u64,
    ) -> Result<Bench, OutOfMemory>
        requires some { 0 < workers }
        requires few { workers ≤ 16 }
        requires some_jobs { 0 < size }
        requires few_jobs { size ≤ 256 }
        ensures serves { IfOk result (ServesBench scale.now) }
        ensures size { IfOk result (λ bench. size_in bench ≡ size) }
        ensures seats { IfOk result (λ bench. seats_in bench ≡ workers) }
        ensures log { IfOk result (λ bench. log_in bench ≡ []) }
    {
        let len = scale.chunk_limit();
        let mut pool = Pool::reserve(alloc, size as u32, len)?;
        let frames = take_frames(alloc, &mut pool, size as u32, len)?;
        let desks = reserve_desks(alloc, scale, workers)?;
        let stages = with_room(alloc, (size + size) as usize)?;
        let log = with_room(alloc, (size + size) as usize)?;
        let spare = with_room(alloc, 16)?;
        let kit = pack(scale, size, stages, log, frames, desks, spare);
        Ok(Bench {
            alloc,
            pool,
            kit,
            size,
        })
    }

    /// How many jobs a round has at most.
    pub fn size(&self) -> u64
        ensures { result ≡ size_in self.now }
    {
        self.size
    }

    /// The log of the last round.
    pub fn log(&self) -> &[Event]
        ensures { result.now ≡ log_in self.now }
    {
        &self.kit.log
    }

    /// The chunk of a job of the last round, whose first job has the number 0; behind the frames it is empty.
    pub fn done(&self, k: u64) -> &[u8]
        ensures { result.now ≡ done_in self.now k }
    {
        match self.kit.frames.get(k as usize) {
            Some(Some(frame)) => frame.used(),
            _ => &[],
        }
    }
}

/// Encodes the chunks of the jobs from one number up to, not with, another, which are prepared, by the workers of a bench, each
/// in a thread of its own where one can be made. No job is begun once the chunks that are done have as many bytes as the limit
/// says, but for the first one; and each other one is begun. Answers how many jobs are done: those at the front. It takes no memory.
pub fn run_within<R, C: Chunks + Sync, G: Gate + Sync>(
    rt: &R,
    chunks: &C,
    scale: &Scale,
    bench: &mut Bench,
    from: u64,
    to: u64,
    limit: Option<u64>,
    gate: &G,
) -> u64
where
    R: Threads + Wait + Sync,
    requires bench { ServesBench scale.now bench.old }
    requires jobs { ArePrepared scale.now (C.work chunks.now) (C.ready chunks.now) from to }
    requires size { to - from ≤ size_in bench.old }
    ensures bench { ServesBench scale.now bench.new }
    ensures size { size_in bench.new ≡ size_in bench.old }
    ensures seats { seats_in bench.new ≡ seats_in bench.old }
    ensures few { result ≤ to - from }
    ensures count { result ≡ claims_in (log_in bench.new) }
    ensures begun { let wanted = chunks_from (C.work chunks.now) (C.ready chunks.now) from (to - from) in
        AreBegun (seats_in bench.old) limit wanted (log_in bench.new) }
    ensures end { let wanted = chunks_from (C.work chunks.now) (C.ready chunks.now) from (to - from) in
        MayEnd limit wanted (log_in bench.new) }
    ensures done { (k : ℕ) → k < result →
        done_in bench.new k ≡ chunk_ready (C.work chunks.now) (C.ready chunks.now) (from + k) }
    ensures log { IsFinished (to - from) result (log_in bench.new) }
{
    let size = bench.size;
    let parts = bench.kit.desks.len() as u64 + 1;
    let kit = mem::replace(&mut bench.kit, empty_kit(bench.alloc));
    let (kit, done) = run_named::<Brand, C, G, R>(
        rt,
        Blank::new(parts),
        Blank::new(parts),
        kit,
        chunks,
        scale,
        from,
        to,
        limit,
        size,
        gate,
    );
    bench.kit = kit;
    done
}

/// The same of all these jobs.
pub fn run_round<R, C: Chunks + Sync, G: Gate + Sync>(
    rt: &R,
    chunks: &C,
    scale: &Scale,
    bench: &mut Bench,
    from: u64,
    to: u64,
    gate: &G,
)
where
    R: Threads + Wait + Sync,
    requires bench { ServesBench scale.now bench.old }
    requires jobs { ArePrepared scale.now (C.work chunks.now) (C.ready chunks.now) from to }
    requires size { to - from ≤ size_in bench.old }
    ensures bench { ServesBench scale.now bench.new }
    ensures size { size_in bench.new ≡ size_in bench.old }
    ensures seats { seats_in bench.new ≡ seats_in bench.old }
    ensures done { (k : ℕ) → k < to - from →
        done_in bench.new k ≡ chunk_ready (C.work chunks.now) (C.ready chunks.now) (from + k) }
    ensures begun { let wanted = chunks_from (C.work chunks.now) (C.ready chunks.now) from (to - from) in
        AreBegun (seats_in bench.old) None wanted (log_in bench.new) }
    ensures log { IsFinished (to - from) (to - from) (log_in bench.new) }
{
    run_within(rt, chunks, scale, bench, from, to, None, gate);
}
