//! Seats in places of fixed number, each with a desk.
ghost use Rattle.std.specs.Prelude.{◌≡◌, ◌<◌, ◌≤◌, ◌+◌, ◌-◌, ℕ, List, All, length, Some, IfSome, is_some, true, slice_index_or, vec_capacity, vec_len};
ghost use Rattle.encode_round.specs.Held.{IsRested, frame_count};
ghost use Rattle.encode_round.specs.Serving.{AreNamed, IsSeated, ServesDesk, most};
ghost use Rattle.vol_spec.specs.declared.scale.Scale.{Scale};

use crate::desk::Desk;
use crate::encoder::encode_job;
use crate::names::Wanted;
use crate::round::{Round, Work};
use chunk_pool::Frame;
use job_log::{Host, Seat};
use std::marker::PhantomData;
use std::sync::{Mutex, Wait};
use std::thread;
use std::thread::Threads;
use vol_base::{Gate, Moment};
use vol_spec::Scale;
use write_plan::Chunks;

/// A seat, its desk, and the frame of a work that came back to it.
#[derive(Drop)]
pub(crate) struct Place<N: Wanted> {
    pub seat: Seat<N>,
    pub desk: Desk,
    pub kept: Option<Frame>,
}

// Claims jobs, encodes their chunks outside the lock and deposits them, until none is left, the chunks have as many bytes as a
// round is to have, or a work comes back, whose frame stays in the place.
fn run_seat<N: Wanted, C: Chunks, G: Gate, R: Wait>(
    rt: &R,
    round: &Mutex<Round<N>>,
    chunks: &C,
    scale: &Scale,
    from: u64,
    gate: &G,
    place: &mut Place<N>,
)
    requires seated { IsSeated scale.now N.seats place.old.seat.number place.old.seat.job place.old.kept place.old.desk }
    requires named { AreNamed scale.now (C.work chunks.now) (C.ready chunks.now) from N.wanted N.frame_len }
    ensures rested { IsRested N.frame_len place.new.seat.job place.new.kept }
    ensures desk { ServesDesk scale.now place.new.desk }
{
    for _ in 0..u64::MAX {
        let claimed = round.lock(rt).claim(&mut place.seat);
        let Some(work) = claimed else {
            return;
        };
        let Work {
            job,
            mut frame,
            of: _,
        } = work;
        gate.at(place.seat.number, from + job, Moment::Claimed);
        encode_job(chunks, scale, from + job, &mut place.desk, &mut frame);
        let work = Work {
            job,
            frame,
            of: PhantomData,
        };
        let back = round.lock(rt).deposit(&mut place.seat, work);
        if let Some(work) = back {
            place.kept = Some(work.frame);
            return;
        }
        gate.at(place.seat.number, from + job, Moment::Deposited);
    }
}

// The same of a place that may be empty.
fn run_place<N: Wanted, C: Chunks, G: Gate, R: Wait>(
    rt: &R,
    round: &Mutex<Round<N>>,
    chunks: &C,
    scale: &Scale,
    from: u64,
    gate: &G,
    place: &mut Option<Place<N>>,
)
    requires seated { IfSome place.old (λ p. IsSeated scale.now N.seats p.seat.number p.seat.job p.kept p.desk) }
    requires named { AreNamed scale.now (C.work chunks.now) (C.ready chunks.now) from N.wanted N.frame_len }
    ensures there { is_some place.new ≡ is_some place.old }
    ensures rested { IfSome place.new (λ p. IsRested N.frame_len p.seat.job p.kept × ServesDesk scale.now p.desk) }
{
    if let Some(place) = place {
        run_seat(rt, round, chunks, scale, from, gate, place);
    }
}

// All places at once, each in a thread of its own where one can be made.
fn run_places<N: Wanted + Send + Sync, C: Chunks + Sync, G: Gate + Sync, R: Threads + Wait + Sync>(
    rt: &R,
    round: &Mutex<Round<N>>,
    chunks: &C,
    scale: &Scale,
    from: u64,
    gate: &G,
    places: &mut [Option<Place<N>>],
)
    requires some { 0 < length places.old }
    requires seated { (i : ℕ) (d : _) → i < length places.old → (is_some (slice_index_or places.old i d) ≡ true)
        × IfSome (slice_index_or places.old i d) (λ p. IsSeated scale.now N.seats p.seat.number p.seat.job p.kept p.desk) }
    requires named { AreNamed scale.now (C.work chunks.now) (C.ready chunks.now) from N.wanted N.frame_len }
    ensures rested { (i : ℕ) (d : _) → i < length places.old → (is_some (slice_index_or places.new i d) ≡ true)
        × IfSome (slice_index_or places.new i d) (λ p. IsRested N.frame_len p.seat.job p.kept × ServesDesk scale.now p.desk) }
{
    let threads = places.len();
    thread::for_each_mut(
        rt,
        places,
        threads,
        &|_, place| run_place(rt, round, chunks, scale, from, gate, place),
    );
}

/// Takes a desk off a list that has one.
pub(crate) fn take_desk(scale: &Scale, desks: &mut Vec<Desk>) -> Desk
    requires desks { All (ServesDesk scale.now) desks.old.items }
    requires some { 0 < length desks.old.items }
    ensures desk { ServesDesk scale.now result }
    ensures desks { All (ServesDesk scale.now) desks.new.items }
    ensures left { length desks.new.items + 1 ≡ length desks.old.items }
    ensures room { vec_capacity desks.old ≤ vec_capacity desks.new }
{
    match desks.pop() {
        Some(desk) => desk,
        None => unreachable!(),
    }
}

// Puts an idle seat with a desk into a place.
fn seat_place<N: Wanted>(
    scale: &Scale,
    host: &mut Host<N>,
    desks: &mut Vec<Desk>,
    place: &mut Option<Place<N>>,
    number: u32,
)
    requires parts { 1 < host.old.parts }
    requires desks { All (ServesDesk scale.now) desks.old.items }
    requires enough { 0 < length desks.old.items }
    requires seats { number < N.seats }
    ensures there { is_some place.new ≡ true }
    ensures seated { IfSome place.new (λ p. IsSeated scale.now N.seats p.seat.number p.seat.job p.kept p.desk) }
    ensures parts { host.new.parts + 1 ≡ host.old.parts }
    ensures outs { host.new.outs ≡ host.old.outs }
    ensures desks { All (ServesDesk scale.now) desks.new.items }
    ensures left { length desks.new.items + 1 ≡ length desks.old.items }
    ensures room { vec_capacity desks.old ≤ vec_capacity desks.new }
{
    let desk = take_desk(scale, desks);
    let seat = host.seat(number);
    *place = Some(Place {
        seat,
        desk,
        kept: None,
    });
}

// Puts an idle seat with a desk into each place.
fn seat_all<N: Wanted>(
    scale: &Scale,
    host: &mut Host<N>,
    desks: &mut Vec<Desk>,
    places: &mut [Option<Place<N>>],
)
    requires few { length places.old ≤ 16 }
    requires parts { host.old.parts ≡ length places.old + 1 }
    requires desks { All (ServesDesk scale.now) desks.old.items }
    requires enough { length places.old ≤ length desks.old.items }
    requires seats { length places.old ≤ N.seats }
    ensures seated { (i : ℕ) (d : _) → i < length places.old → (is_some (slice_index_or places.new i d) ≡ true)
        × IfSome (slice_index_or places.new i d) (λ p. IsSeated scale.now N.seats p.seat.number p.seat.job p.kept p.desk) }
    ensures parts { host.new.parts ≡ 1 }
    ensures outs { host.new.outs ≡ host.old.outs }
    ensures desks { All (ServesDesk scale.now) desks.new.items }
    ensures left { length desks.new.items + length places.old ≡ length desks.old.items }
    ensures room { vec_capacity desks.old ≤ vec_capacity desks.new }
{
    for i in 0..places.len() {
        seat_place(scale, host, desks, &mut places[i], i as u32);
    }
}

/// Puts a desk back, in room that is there.
pub(crate) fn put_desk(scale: &Scale, desks: &mut Vec<Desk>, desk: Desk)
    requires desk { ServesDesk scale.now desk }
    requires desks { All (ServesDesk scale.now) desks.old.items }
    requires room { length desks.old.items < vec_capacity desks.old }
    ensures desks { All (ServesDesk scale.now) desks.new.items }
    ensures count { length desks.new.items ≡ length desks.old.items + 1 }
    ensures room { vec_capacity desks.old ≤ vec_capacity desks.new }
{
    match desks.push(desk) {
        Ok(()) => {}
        Err(_) => unreachable!(),
    }
}

// Puts a frame that was kept where it is found, in room that is there.
fn put_kept<N: Wanted>(_host: &Host<N>, spare: &mut Vec<Frame>, kept: Option<Frame>)
    requires long { IfSome kept (λ f. length f.bytes ≡ N.frame_len) }
    requires spare { All (λ f. length f.bytes ≡ N.frame_len) spare.old.items }
    requires room { length spare.old.items < vec_capacity spare.old }
    ensures spare { All (λ f. length f.bytes ≡ N.frame_len) spare.new.items }
    ensures count { length spare.new.items ≡ length spare.old.items + frame_count kept }
    ensures room { vec_capacity spare.old ≤ vec_capacity spare.new }
{
    if let Some(frame) = kept {
        match spare.push(frame) {
            Ok(()) => {}
            Err(_) => unreachable!(),
        }
    }
}

// Takes a place in: its seat's shares, its desk, and the frame that it kept.
fn take_place<N: Wanted>(
    scale: &Scale,
    host: &mut Host<N>,
    desks: &mut Vec<Desk>,
    spare: &mut Vec<Frame>,
    place: Place<N>,
)
    requires place { IsRested N.frame_len place.seat.job place.kept × ServesDesk scale.now place.desk }
    requires desks { All (ServesDesk scale.now) desks.old.items }
    requires room { length desks.old.items < vec_capacity desks.old }
    requires spare { All (λ f. length f.bytes ≡ N.frame_len) spare.old.items }
    requires spare_room { length spare.old.items < vec_capacity spare.old }
    requires outs { host.old.outs ≡ length spare.old.items }
    ensures parts { host.new.parts ≡ host.old.parts + 1 }
    ensures outs { host.new.outs ≡ length spare.new.items }
    ensures desks { All (ServesDesk scale.now) desks.new.items }
    ensures count { length desks.new.items ≡ length desks.old.items + 1 }
    ensures room { vec_capacity desks.old ≤ vec_capacity desks.new }
    ensures spare { All (λ f. length f.bytes ≡ N.frame_len) spare.new.items }
    ensures spare_more { length spare.new.items ≤ length spare.old.items + 1 }
    ensures spare_room { vec_capacity spare.old ≤ vec_capacity spare.new }
{
    let Place { seat, desk, kept } = place;
    host.take_in(seat);
    put_desk(scale, desks, desk);
    put_kept(host, spare, kept);
}

// Takes all places in.
fn take_all<N: Wanted>(
    scale: &Scale,
    host: &mut Host<N>,
    desks: &mut Vec<Desk>,
    spare: &mut Vec<Frame>,
    places: &mut [Option<Place<N>>],
)
    requires rested { (i : ℕ) (d : _) → i < length places.old → (is_some (slice_index_or places.old i d) ≡ true)
        × IfSome (slice_index_or places.old i d) (λ p. IsRested N.frame_len p.seat.job p.kept × ServesDesk scale.now p.desk) }
    requires desks { All (ServesDesk scale.now) desks.old.items }
    requires room { length desks.old.items + length places.old ≤ vec_capacity desks.old }
    requires spare { length spare.old.items ≡ 0 }
    requires spare_room { length places.old ≤ vec_capacity spare.old }
    requires outs { host.old.outs ≡ 0 }
    ensures parts { host.new.parts ≡ host.old.parts + length places.old }
    ensures outs { host.new.outs ≡ length spare.new.items }
    ensures desks { All (ServesDesk scale.now) desks.new.items }
    ensures count { length desks.new.items ≡ length desks.old.items + length places.old }
    ensures room { vec_capacity desks.old ≤ vec_capacity desks.new }
    ensures spare { All (λ f. length f.bytes ≡ N.frame_len) spare.new.items }
    ensures spare_room { vec_capacity spare.old ≤ vec_capacity spare.new }
{
    for i in 0..places.len() {
        let Some(place) = places[i].take() else {
            unreachable!()
        };
        take_place(scale, host, desks, spare, place);
    }
}

/// Runs the jobs of a round by as many seats as there are places and desks, each in a thread of its own where one can be made.
/// Afterwards as many frames lie in `spare` as jobs are out.
pub(crate) fn run_seats<
    N: Wanted + Send + Sync,
    C: Chunks + Sync,
    G: Gate + Sync,
    R: Threads + Wait + Sync,
>(
    rt: &R,
    round: &Mutex<Round<N>>,
    chunks: &C,
    scale: &Scale,
    from: u64,
    gate: &G,
    host: &mut Host<N>,
    desks: &mut Vec<Desk>,
    spare: &mut Vec<Frame>,
    places: &mut [Option<Place<N>>],
)
    requires some { 0 < length places.old }
    requires few { length places.old ≤ 16 }
    requires parts { host.old.parts ≡ length places.old + 1 }
    requires outs { host.old.outs ≡ 0 }
    requires named { AreNamed scale.now (C.work chunks.now) (C.ready chunks.now) from N.wanted N.frame_len }
    requires desks { All (ServesDesk scale.now) desks.old.items }
    requires enough { length places.old ≤ length desks.old.items }
    requires seats { length places.old ≤ N.seats }
    requires spare { length spare.old.items ≡ 0 }
    requires spare_room { length places.old ≤ vec_capacity spare.old }
    ensures parts { host.new.parts ≡ host.old.parts }
    ensures outs { host.new.outs ≡ length spare.new.items }
    ensures desks { All (ServesDesk scale.now) desks.new.items }
    ensures count { length desks.new.items ≡ length desks.old.items }
    ensures spare { All (λ f. length f.bytes ≡ N.frame_len) spare.new.items }
    ensures spare_room { vec_capacity spare.old ≤ vec_capacity spare.new }
{
    seat_all(scale, host, desks, places);
    run_places(rt, round, chunks, scale, from, gate, places);
    take_all(scale, host, desks, spare, places);
}
