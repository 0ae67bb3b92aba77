//! Rounds of a scale's jobs: their chunks are encoded by workers, and stored afterwards in the jobs' order.
ghost use Rattle.std.specs.Prelude.{◌≡◌, ◌≢◌, ◌-◌, ◌/◌, ◌≤◌, ◌<◌, ◌^◌, ℕ, IfOk, Some, length, min};
ghost use Rattle.encode_round.specs.Begun.{AreBegun, MayEnd};
ghost use Rattle.encode_round.specs.Ready.{chunks_from};
ghost use Rattle.encode_round.specs.Serving.{ArePrepared, ServesBench, done_in, log_in, seats_in};
ghost use Rattle.shard_writer.specs.Serving.{HoldsJobs, ServesRounds, chunk_at, first_longest, fitting, held_bytes, most_after, next_size, prepared_bytes, prepared_size, round_bytes, round_size, several_frames};
ghost use Rattle.vol_spec.specs.Limits.{first_bytes};
ghost use Rattle.vol_spec.specs.Writable.{IsWritable};
ghost use Rattle.write_plan.specs.Jobs.{FitsWindow, frame_len};

use encode_round::{Bench, run_within};
use std::alloc::Global;
use std::sync::Wait;
use std::thread::Threads;
use vol_base::{Gate, OutOfMemory};
use vol_spec::{Encoding, Scale};
use write_plan::{Chunks, window};

/// Who encodes: so many workers of a handle, and who is told of it.
#[derive(Drop)]
pub(crate) struct Crew<'a, R, G> {
    pub rt: &'a R,
    pub alloc: Global,
    pub workers: u32,
    pub gate: &'a G,
}

/// A bench, and the first job of the last round. Of a round how many jobs it has at least, where there are as many, and at most;
/// for how many bytes it has room, how many a job has of them for its values, and how many the longest chunk of the last round
/// has: before the first round none, or as many as a chunk may have where jobs hold their values.
#[derive(Drop)]
pub(crate) struct Rounds {
    pub bench: Bench,
    pub first: u64,
    pub least: u64,
    pub most: u64,
    pub room: u64,
    pub held: u64,
    pub longest: u32,
}

// The longest raw chunks that more than one worker fills.
const SMALL: u64 = 1 << 12;

/// How many of some workers are of use for a scale's chunks. Of raw chunks it is one, but for small ones, of which two
/// may be: storing them is what takes time, and not filling them.
pub(crate) fn count_workers(scale: &Scale, workers: u32) -> u32
    ensures large { scale.now.encoding ≡ Encoding.Raw → 2 ^ 12 < first_bytes scale.now.width scale.now.channels
        scale.now.size scale.now.chunk → result ≡ 1 }
    ensures small { scale.now.encoding ≡ Encoding.Raw → first_bytes scale.now.width scale.now.channels
        scale.now.size scale.now.chunk ≤ 2 ^ 12 → result ≡ min workers 2 }
    ensures coded { scale.now.encoding ≢ Encoding.Raw → result ≡ workers }
{
    match scale.encoding {
        Encoding::Raw => {
            if scale.raw_limit() > SMALL {
                1
            } else {
                workers.min(2)
            }
        }
        Encoding::Seg { .. } => workers,
    }
}

// The bytes of the values and the chunks of a round, where two jobs for each worker do not have more.
const ROOM: u64 = 1 << 27;

// The same where jobs hold no values: the bytes of the chunks alone.
const CHUNK_ROOM: u64 = 1 << 26;

// The bytes of the frames of a round whose jobs hold no values. Most of them are never touched.
const FRAME_ROOM: u64 = 1 << 30;

// The bytes of the frames of jobs that are prepared at once, of raw chunks and of others, where a round does not have more.
const RAW_PREPARED: u64 = 1 << 20;

const CODED_PREPARED: u64 = 1 << 26;

// How many chunks of a scale have room in so many bytes.
fn count_in_room(scale: &Scale, bytes: u64) -> u64
    ensures { result ≡ bytes / frame_len scale.now }
{
    bytes / scale.raw_limit().max(scale.chunk_limit())
}

// For how many jobs there are frames where several workers encode them: a window where jobs hold their values; else as many as
// have 1 GiB of frames, of which a round touches what its chunks take, and no more than 256.
fn count_several(scale: &Scale, holds: bool) -> u64
    ensures { result ≡ several_frames holds scale.now }
{
    let fit = window(scale);
    if holds {
        fit
    } else {
        count_in_room(scale, FRAME_ROOM).min(256).max(fit)
    }
}

// For how many jobs of a scale there are frames: for one where one worker encodes them, so that all chunks are made in the
// same memory.
fn count_frames(scale: &Scale, workers: u32, holds: bool) -> u64
    ensures several { 1 < workers → result ≡ several_frames holds scale.now }
    ensures one { workers ≤ 1 → result ≡ 1 }
    ensures some { 0 < result }
    ensures most { result ≤ 256 }
{
    if workers > 1 {
        count_several(scale, holds)
    } else {
        1
    }
}

// How many bytes a job has for its values.
fn count_held(scale: &Scale, holds: bool) -> u64
    ensures { result ≡ held_bytes holds scale.now }
{
    if holds { scale.raw_limit() } else { 0 }
}

// For how many bytes a round has room.
fn pick_room(holds: bool) -> u64
    ensures { result ≡ round_bytes holds }
{
    if holds { ROOM } else { CHUNK_ROOM }
}

// How many bytes the longest chunk counts for before the first round. Where jobs hold no values it is none: no job is begun once
// the chunks of a round have as many bytes as it has room for, however long they are.
fn count_longest(scale: &Scale, holds: bool) -> u32
    ensures { result ≡ first_longest holds scale.now }
{
    if holds { scale.chunk_limit() as u32 } else { 0 }
}

/// Takes all memory that the rounds of so many jobs take, which hold their values or don't: for as many as a round has, and
/// for a worker each, but no more than a round has jobs, and no more than 16.
pub(crate) fn reserve_rounds<R, G>(
    crew: &Crew<R, G>,
    scale: &Scale,
    count: u64,
    holds: bool,
) -> Result<Rounds, OutOfMemory>
    ensures serves { IfOk result (ServesRounds scale.now) }
    ensures first { IfOk result (λ rounds. rounds.first ≡ 0) }
    ensures room { IfOk result (λ rounds. rounds.room ≡ round_bytes holds) }
    ensures held { IfOk result (λ rounds. rounds.held ≡ held_bytes holds scale.now) }
    ensures longest { IfOk result (λ rounds. rounds.longest ≡ first_longest holds scale.now) }
{
    let workers = crew.workers.min(16);
    let size = count_frames(scale, workers, holds).min(count.max(1));
    let seats = (workers as u64).min(size).max(1);
    let bench = Bench::reserve(crew.alloc, scale, seats as u32, size)?;
    Ok(Rounds {
        bench,
        first: 0,
        least: 2 * seats,
        most: size,
        room: pick_room(holds),
        held: count_held(scale, holds),
        longest: count_longest(scale, holds),
    })
}

/// How many jobs the next round has at most: as many as have room, if their chunks are as long as the longest of the last
/// round, or two for each worker if that is more, but no more than it may have.
pub(crate) fn count_next(scale: &Scale, rounds: &Rounds) -> u64
    requires { ServesRounds scale.now rounds.now }
    ensures value { result ≡ next_size rounds.now }
    ensures some { 0 < result }
    ensures most { result ≤ round_size rounds.now }
{
    let _frame = scale.chunk_limit();
    let many = count_fitting(rounds).max(rounds.least);
    rounds.bench.size().min(many.min(rounds.most).max(1))
}

// How many jobs have room, if their chunks are as long as the longest of the last round.
fn count_fitting(rounds: &Rounds) -> u64
    ensures { result ≡ fitting rounds.now }
{
    rounds.room / rounds.held.saturating_add(u64::from(rounds.longest)).max(1)
}

// The bytes of the frames of jobs that are prepared at once: of raw chunks as few as lie close to the processor until they
// are stored, and more of those whose encoding takes longer than reading them.
fn find_room(scale: &Scale) -> u64
    ensures { result ≡ prepared_bytes scale.now.encoding }
{
    match scale.encoding {
        Encoding::Raw => RAW_PREPARED,
        Encoding::Seg { .. } => CODED_PREPARED,
    }
}

// How many jobs are prepared at once: as many as have 1 MiB of frames, or 64 MiB where they are encoded, but no more than a
// window; or as the next round has if that is more.
fn count_ahead(scale: &Scale, rounds: &Rounds) -> u64
    requires { ServesRounds scale.now rounds.now }
    ensures value { result ≡ prepared_size scale.now rounds.now }
    ensures some { 0 < result }
{
    window(scale)
        .min(count_in_room(scale, find_room(scale)))
        .max(count_next(scale, rounds))
}

/// The same, but no more than a window where jobs hold their values. So what a source looks up for many chunks, as an index
/// of a minishard, it need not look up for each of them.
pub(crate) fn count_prepared<C: Chunks>(chunks: &C, scale: &Scale, rounds: &Rounds) -> u64
    requires { ServesRounds scale.now rounds.now }
    ensures some { 0 < result }
    ensures few { result ≤ prepared_size scale.now rounds.now }
    ensures fits { FitsWindow C.holding scale.now result }
{
    let many = count_ahead(scale, rounds);
    if chunks.holds_values() {
        many.min(window(scale))
    } else {
        many
    }
}

// How many jobs a round has at most behind one: no more than a window, once so long a chunk was met that not all frames have
// room for one.
fn count_most(scale: &Scale, rounds: &Rounds) -> u64
    ensures { result ≡ most_after scale.now rounds.now }
{
    if count_fitting(rounds) < rounds.bench.size() {
        rounds.most.min(window(scale))
    } else {
        rounds.most
    }
}

// The most bytes that one of the first so many chunks of the last round has.
fn find_longest(scale: &Scale, bench: &Bench, count: u64) -> u32
    requires bench { ServesBench scale.now bench.now }
    requires writable { IsWritable scale.now }
    ensures { (k : ℕ) → k < count → length (done_in bench.now k) ≤ result }
{
    let mut longest: u32 = 0;
    for k in 0..count {
        longest = longest.max(bench.done(k).len() as u32);
    }
    longest
}

/// Encodes the chunks of jobs from one number on, up to, not with, another at most, which are prepared, in one round. No job but
/// the first one is begun once the chunks have as many bytes as a round has room for, and each other one is. Answers which job is
/// next.
pub(crate) fn encode_jobs<R: Threads + Wait + Sync, C: Chunks + Sync, G: Gate + Sync>(
    crew: &Crew<R, G>,
    scale: &Scale,
    chunks: &C,
    from: u64,
    to: u64,
    rounds: &mut Rounds,
) -> u64
    requires rounds { ServesRounds scale.now rounds.old }
    requires jobs { ArePrepared scale.now (C.work chunks.now) (C.ready chunks.now) from to }
    requires size { to - from ≤ round_size rounds.old }
    ensures more { from < to → from < result }
    ensures low { from ≤ result }
    ensures within { result ≤ to }
    ensures rounds { ServesRounds scale.now rounds.new }
    ensures longest { (k : ℕ) → k < result - from → length (done_in rounds.new.bench k) ≤ rounds.new.longest }
    ensures room { rounds.new.room ≡ rounds.old.room }
    ensures values { rounds.new.held ≡ rounds.old.held }
    ensures begun { let wanted = chunks_from (C.work chunks.now) (C.ready chunks.now) from (to - from) in
        AreBegun (seats_in rounds.old.bench) (Some rounds.old.room) wanted (log_in rounds.new.bench) }
    ensures end { let wanted = chunks_from (C.work chunks.now) (C.ready chunks.now) from (to - from) in
        MayEnd (Some rounds.old.room) wanted (log_in rounds.new.bench) }
    ensures most { rounds.new.most ≡ most_after scale.now (record rounds.new { most = rounds.old.most }) }
    ensures held { HoldsJobs (C.work chunks.now) (C.ready chunks.now) from result rounds.new }
{
    let done = run_within(
        crew.rt,
        chunks,
        scale,
        &mut rounds.bench,
        from,
        to,
        Some(rounds.room),
        crew.gate,
    );
    rounds.first = from;
    rounds.longest = find_longest(scale, &rounds.bench, done);
    rounds.most = count_most(scale, rounds);
    from + done
}

/// The chunk of a job of the last round.
pub(crate) fn find_chunk(rounds: &Rounds, job: u64) -> &[u8]
    requires { rounds.now.first ≤ job }
    ensures { result.now ≡ chunk_at rounds.now job }
{
    rounds.bench.done(job - rounds.first)
}
