//! A round from its first claim to its last deposit.
ghost use Rattle.std.specs.Prelude.{◌≡◌, ◌<◌, ◌≤◌, ◌+◌, ◌-◌, ◌^◌, ℕ, List, All, length, Some, None, IfSome, slice_get, slice_index_or, vec_capacity, vec_len};
ghost use Rattle.job_log.specs.Claims.{IsFree};
ghost use Rattle.job_log.specs.Replay.{IsFinished, claims_in};
ghost use Rattle.encode_round.specs.Begun.{AreBegun, MayEnd};
ghost use Rattle.encode_round.specs.Held.{HasLen, used_of};
ghost use Rattle.encode_round.specs.Serving.{AreNamed, ServesDesk, ServesKit, HasChunks, most};

use crate::desk::Desk;
use crate::encoder::encode_job;
use crate::kit::Kit;
use crate::names::Wanted;
use crate::places::{put_desk, run_seats, take_desk};
use crate::round::{Round, Work};
use chunk_pool::Frame;
use job_log::{Event, Host, JobLog, Seat, Stage};
use std::marker::PhantomData;
use std::sync::ledger::Blank;
use std::sync::{Mutex, Wait};
use std::thread::Threads;
use vol_base::{Gate, Moment};
use vol_spec::Scale;
use write_plan::Chunks;

// Encodes a job that is out, in the frame of a work that came back, and deposits it under the seat that has it out.
fn deposit_left<N: Wanted, C: Chunks, G: Gate>(
    round: &mut Round<N>,
    host: &mut Host<N>,
    frame: Frame,
    chunks: &C,
    scale: &Scale,
    from: u64,
    gate: &G,
    desk: &mut Desk,
)
    requires whole { host.old.parts ≡ N.parts }
    requires some { 0 < host.old.parts }
    requires outs { 0 < host.old.outs }
    requires long { length frame.bytes ≡ N.frame_len }
    requires desk { ServesDesk scale.now desk.old }
    requires named { AreNamed scale.now (C.work chunks.now) (C.ready chunks.now) from N.wanted N.frame_len }
    ensures parts { host.new.parts ≡ host.old.parts }
    ensures outs { host.new.outs + 1 ≡ host.old.outs }
    ensures desk { ServesDesk scale.now desk.new }
{
    let mut frame = frame;
    let Some((job, seat)) = round.find_out(host) else {
        unreachable!()
    };
    encode_job(chunks, scale, from + job, desk, &mut frame);
    round.deposit_for(host, job, seat, frame);
    gate.at(seat, from + job, Moment::Deposited);
}

// The same of each job that is out, in as many frames.
fn deposit_rest<N: Wanted, C: Chunks, G: Gate>(
    round: &mut Round<N>,
    host: &mut Host<N>,
    spare: &mut Vec<Frame>,
    chunks: &C,
    scale: &Scale,
    from: u64,
    gate: &G,
    desk: &mut Desk,
)
    requires whole { host.old.parts ≡ N.parts }
    requires some { 0 < host.old.parts }
    requires outs { host.old.outs ≡ length spare.old.items }
    requires spare { All (λ f. length f.bytes ≡ N.frame_len) spare.old.items }
    requires desk { ServesDesk scale.now desk.old }
    requires named { AreNamed scale.now (C.work chunks.now) (C.ready chunks.now) from N.wanted N.frame_len }
    ensures parts { host.new.parts ≡ host.old.parts }
    ensures outs { host.new.outs ≡ 0 }
    ensures spare { length spare.new.items ≡ 0 }
    ensures room { vec_capacity spare.old ≤ vec_capacity spare.new }
    ensures desk { ServesDesk scale.now desk.new }
{
    while let Some(kept) = spare.pop() {
        deposit_left(round, host, kept, chunks, scale, from, gate, desk);
    }
}

// Claims, encodes and deposits what is left, with no other seat about, as far as the round goes.
fn finish_alone<N: Wanted, C: Chunks, G: Gate>(
    round: &mut Round<N>,
    seat: &mut Seat<N>,
    chunks: &C,
    scale: &Scale,
    from: u64,
    gate: &G,
    desk: &mut Desk,
)
    requires idle { seat.old.job ≡ None }
    requires seated { seat.old.number < N.seats }
    requires free { (s : ℕ) → IsFree (length N.wanted) round.old s }
    requires desk { ServesDesk scale.now desk.old }
    requires named { AreNamed scale.now (C.work chunks.now) (C.ready chunks.now) from N.wanted N.frame_len }
    ensures idle { seat.new.job ≡ None }
    ensures end { MayEnd N.enough N.wanted round.new }
    ensures desk { ServesDesk scale.now desk.new }
{
    while let Some(work) = round.claim(seat) {
        let Work {
            job,
            mut frame,
            of: _,
        } = work;
        gate.at(seat.number, from + job, Moment::Claimed);
        encode_job(chunks, scale, from + job, desk, &mut frame);
        let work = Work {
            job,
            frame,
            of: PhantomData,
        };
        match round.deposit(seat, work) {
            None => {}
            Some(_) => unreachable!(),
        }
        gate.at(seat.number, from + job, Moment::Deposited);
    }
}

/// A kit of its parts.
pub(crate) fn pack(
    scale: &Scale,
    size: u64,
    stages: Vec<Stage>,
    log: Vec<Event>,
    frames: Vec<Option<Frame>>,
    desks: Vec<Desk>,
    spare: Vec<Frame>,
) -> Kit
    requires stages { size + size ≤ vec_capacity stages }
    requires log { size + size ≤ vec_capacity log }
    requires count { length frames.items ≡ size }
    requires frames { All (HasLen (most scale.now)) frames.items }
    requires desks { All (ServesDesk scale.now) desks.items }
    requires some { 0 < length desks.items }
    requires few { length desks.items ≤ 16 }
    requires spare { length spare.items ≡ 0 }
    requires spare_room { 16 ≤ vec_capacity spare }
    ensures kit { ServesKit scale.now size result }
    ensures desks { result.desks.items ≡ desks.items }
    ensures frames { result.frames.items ≡ frames.items }
    ensures log { result.log.items ≡ log.items }
{
    Kit {
        stages,
        log,
        frames,
        desks,
        spare,
    }
}

/// Runs the jobs of a round by so many seats, each in a thread of its own where one can be made, until their chunks have as many
/// bytes as a round is to have. Gives back the kit with the chunks of the jobs that are done in its first frames, and the log; and
/// how many they are.
pub(crate) fn run_named<
    N: Wanted + Send + Sync,
    C: Chunks + Sync,
    G: Gate + Sync,
    R: Threads + Wait + Sync,
>(
    rt: &R,
    claims: Blank,
    deposits: Blank,
    kit: Kit,
    chunks: &C,
    scale: &Scale,
    from: u64,
    to: u64,
    limit: Option<u64>,
    size: u64,
    gate: &G,
) -> (Kit, u64)
    requires claims { (claims.name ≡ N.name) × (claims.parts ≡ N.parts) }
    requires deposits { (deposits.name ≡ N.deposits_name) × (deposits.parts ≡ N.parts) }
    requires parts { length kit.desks.items + 1 ≡ N.parts }
    requires order { from ≤ to }
    requires count { to - from ≡ N.jobs }
    requires wanted { N.jobs ≡ length N.wanted }
    requires room { N.room ≡ size + size }
    requires size { to - from ≤ size }
    requires enough { limit ≡ N.enough }
    requires seats { length kit.desks.items ≡ N.seats }
    requires named { AreNamed scale.now (C.work chunks.now) (C.ready chunks.now) from N.wanted N.frame_len }
    requires kit { ServesKit scale.now size kit }
    ensures kit { ServesKit scale.now size result.0 }
    ensures desks { length result.0.desks.items ≡ length kit.desks.items }
    ensures end { MayEnd limit N.wanted result.0.log.items }
    ensures count { result.1 ≡ claims_in result.0.log.items }
    ensures begun { AreBegun N.seats limit N.wanted result.0.log.items }
    ensures few { result.1 ≤ N.jobs }
    ensures chunks { HasChunks (most scale.now) N.wanted result.1 result.0 }
    ensures log { IsFinished N.jobs result.1 result.0.log.items }
{
    let Kit {
        stages,
        log,
        frames,
        mut desks,
        mut spare,
    } = kit;
    let (jobs, mut host) = JobLog::<N>::open(stages, log, to - from, claims, deposits);
    let round = Mutex::new(Round::open(jobs, frames, limit));
    let seats = desks.len();
    let mut places = [
        None, None, None, None, None, None, None, None, None, None, None, None, None, None, None,
        None,
    ];
    run_seats(
        rt,
        &round,
        chunks,
        scale,
        from,
        gate,
        &mut host,
        &mut desks,
        &mut spare,
        &mut places[..seats],
    );
    let mut round = round.into_inner();
    let mut desk = take_desk(scale, &mut desks);
    deposit_rest(
        &mut round, &mut host, &mut spare, chunks, scale, from, gate, &mut desk,
    );
    round.settle(&mut host);
    let mut seat = host.seat(0);
    finish_alone(&mut round, &mut seat, chunks, scale, from, gate, &mut desk);
    host.take_in(seat);
    put_desk(scale, &mut desks, desk);
    let done = round.claimed();
    let (stages, log, frames) = round.close(host);
    let kit = pack(scale, size, stages, log, frames, desks, spare);
    (kit, done)
}
