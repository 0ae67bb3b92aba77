//! Seats in places of fixed number, each with a store.
ghost use Rattle.std.specs.Prelude.{◌≡◌, ◌<◌, ◌≤◌, ◌+◌, ◌++◌, ◌∷◌, [], ℕ, List, All, length, map, Some, None, IfSome, IsSome, option_map, slice_index_or, vec_capacity};
ghost use Rattle.hall.specs.Halls.{Fits, IsIdle, IsRested, NoneFell, PaidBy, TellsAs, kept_count, kept_weight, owed};

use crate::middle::Middle;
use crate::names::{Cuts, Hall, Order};
use crate::outside::{Entrance, Exit};
use crate::porch::Porch;
use crate::rest::Left;
use crate::seats::{Place, run_seat};
use job_log::Host;
use std::alloc::Global;
use std::sync::ledger::Share;
use std::sync::{Mutex, Wait};
use std::thread;
use std::thread::Threads;
use vol_base::{Gate, Link, Source};

// The loop of a seat in a place that may be empty.
fn run_place<
    N: Hall,
    D: Entrance + Drop,
    X: Exit<D::End> + Drop,
    S: Source + Drop,
    G: Gate,
    R: Wait,
>(
    rt: &R,
    porch: &Mutex<Porch<N, D>>,
    middle: &Mutex<Middle<N, D::End, X>>,
    alloc: Global,
    order: &Order<N>,
    gate: &G,
    place: &mut Option<Place<N, D::End, S>>,
)
    requires idle { IfSome place.old (λ p. IsIdle N.told N.drafts N.counts p.seat.number p.seat.number
        p.seat.job (option_map (λ k. k.outcome) p.kept) (S.objects p.store) (S.draft p.store) (S.faults p.store)
        p.cuts.parts p.cuts.amount) }
    ensures numbers { option_map (λ p. p.seat.number) place.new ≡ option_map (λ p. p.seat.number) place.old }
    ensures rested { IfSome place.new (λ p. IsRested N.told N.drafts N.counts p.seat.number p.seat.job
        (option_map (λ k. k.outcome) p.kept) (S.objects p.store) (S.draft p.store) (S.faults p.store)
        p.cuts.parts p.cuts.amount) }
    ensures fits { IfSome place.new (λ p. IfSome p.kept (λ k. Fits N.told N.dataset k.outcome (D.End.stream k.end)
        (D.End.sent k.end) (D.End.faults k.end))) }
{
    if let Some(place) = place {
        run_seat(rt, porch, middle, alloc, order, gate, place);
    }
}

// All places at once, each in a thread of its own where one can be made.
fn run_places<
    N: Hall + Send + Sync,
    D: Entrance + Drop + Send,
    X: Exit<D::End> + Drop + Send,
    S: Source + Drop + Send,
    G: Gate + Sync,
    R: Threads + Wait + Sync,
>(
    rt: &R,
    porch: &Mutex<Porch<N, D>>,
    middle: &Mutex<Middle<N, D::End, X>>,
    alloc: Global,
    order: &Order<N>,
    gate: &G,
    places: &mut [Option<Place<N, D::End, S>>],
)
where
    D::End: Send,
    requires some { 0 < length places.old }
    requires idle { (i : ℕ) (d : _) → i < length places.old →
        IfSome (slice_index_or places.old i d) (λ p. IsIdle N.told N.drafts N.counts p.seat.number p.seat.number
        p.seat.job (option_map (λ k. k.outcome) p.kept) (S.objects p.store) (S.draft p.store) (S.faults p.store)
        p.cuts.parts p.cuts.amount) }
    ensures numbers { (i : ℕ) (d : _) → i < length places.old →
        option_map (λ p. p.seat.number) (slice_index_or places.new i d)
        ≡ option_map (λ p. p.seat.number) (slice_index_or places.old i d) }
    ensures rested { (i : ℕ) (d : _) → i < length places.old →
        IfSome (slice_index_or places.new i d) (λ p. IsRested N.told N.drafts N.counts p.seat.number p.seat.job
        (option_map (λ k. k.outcome) p.kept) (S.objects p.store) (S.draft p.store) (S.faults p.store)
        p.cuts.parts p.cuts.amount) }
    ensures fits { (i : ℕ) (d : _) → i < length places.old →
        IfSome (slice_index_or places.new i d) (λ p. IfSome p.kept (λ k. Fits N.told N.dataset k.outcome
        (D.End.stream k.end) (D.End.sent k.end) (D.End.faults k.end))) }
{
    let threads = places.len();
    thread::for_each_mut(
        rt,
        places,
        threads,
        &|_, place| run_place(rt, porch, middle, alloc, order, gate, place),
    );
}

// Puts an idle seat with a store into a place.
fn seat_place<N: Hall, E: Link + Drop, S: Source + Drop>(
    host: &mut Host<N>,
    all: &mut Share<Cuts<N>>,
    store: S,
    place: &mut Option<Place<N, E, S>>,
    i: usize,
)
    requires few { i < 16 }
    requires parts { 1 < host.old.parts }
    requires cuts { (1 < all.old.parts) × (all.old.amount ≡ 0) }
    requires tells { TellsAs N.told (S.objects store) }
    requires store { S.objects store ≡ slice_index_or N.told i None }
    requires draft { S.draft store ≡ slice_index_or N.drafts i None }
    requires stands { S.faults store ≡ slice_index_or N.counts i 0 }
    ensures there { IsSome place.new }
    ensures idle { IfSome place.new (λ p. IsIdle N.told N.drafts N.counts i p.seat.number p.seat.job
        (option_map (λ k. k.outcome) p.kept) (S.objects p.store) (S.draft p.store) (S.faults p.store)
        p.cuts.parts p.cuts.amount) }
    ensures parts { host.new.parts + 1 ≡ host.old.parts }
    ensures outs { host.new.outs ≡ host.old.outs }
    ensures cuts { (all.new.parts + 1 ≡ all.old.parts) × (all.new.amount ≡ 0) }
{
    let seat = host.seat(i as u32);
    let cuts = all.split_off(1, 0);
    *place = Some(Place {
        seat,
        store,
        cuts,
        kept: None,
    });
}

// Puts an idle seat with a store into each place.
fn seat_all<N: Hall, E: Link + Drop, S: Source + Drop>(
    host: &mut Host<N>,
    all: &mut Share<Cuts<N>>,
    stores: &mut Vec<S>,
    places: &mut [Option<Place<N, E, S>>],
)
    requires few { length places.old ≤ 16 }
    requires each { length stores.old.items ≡ length places.old }
    requires parts { host.old.parts ≡ length places.old + 1 }
    requires cuts { (all.old.parts ≡ length places.old + 1) × (all.old.amount ≡ 0) }
    requires told { N.told ≡ map S.objects stores.old.items }
    requires drafts { N.drafts ≡ map S.draft stores.old.items }
    requires counts { N.counts ≡ map S.faults stores.old.items }
    ensures idle { (i : ℕ) (d : _) → i < length places.old → IsSome (slice_index_or places.new i d)
        × IfSome (slice_index_or places.new i d) (λ p. IsIdle N.told N.drafts N.counts i p.seat.number
        p.seat.job (option_map (λ k. k.outcome) p.kept) (S.objects p.store) (S.draft p.store) (S.faults p.store)
        p.cuts.parts p.cuts.amount) }
    ensures parts { host.new.parts ≡ 1 }
    ensures outs { host.new.outs ≡ host.old.outs }
    ensures cuts { (all.new.parts ≡ 1) × (all.new.amount ≡ 0) }
    ensures none { stores.new.items ≡ [] }
    ensures room { vec_capacity stores.old ≤ vec_capacity stores.new }
{
    while let Some(store) = stores.pop() {
        let i = stores.len();
        seat_place(host, all, store, &mut places[i], i);
    }
}

/// Puts a store back, in room that is there.
pub(crate) fn put_store<S: Source + Drop>(stores: &mut Vec<S>, store: S)
    requires room { length stores.old.items < vec_capacity stores.old }
    ensures stores { stores.new.items ≡ stores.old.items ++ store ∷ [] }
    ensures room { vec_capacity stores.old ≤ vec_capacity stores.new }
{
    match stores.push(store) {
        Ok(()) => {}
        Err(_) => unreachable!(),
    }
}

// Puts an end that came back where it is found, in room that is there.
fn put_kept<N: Hall, E: Link + Drop>(
    _host: &Host<N>,
    left: &mut Vec<Left<E>>,
    kept: Option<Left<E>>,
)
    requires fits { IfSome kept (λ k. Fits N.told N.dataset k.outcome (E.stream k.end) (E.sent k.end) (E.faults k.end)) }
    requires left { All (λ k. Fits N.told N.dataset k.outcome (E.stream k.end) (E.sent k.end) (E.faults k.end))
        left.old.items }
    requires room { length left.old.items < vec_capacity left.old }
    ensures left { All (λ k. Fits N.told N.dataset k.outcome (E.stream k.end) (E.sent k.end) (E.faults k.end))
        left.new.items }
    ensures count { length left.new.items ≡ length left.old.items + kept_count (option_map (λ k. k.outcome) kept) }
    ensures owed { owed (map (λ k. k.outcome) left.new.items)
        ≡ owed (map (λ k. k.outcome) left.old.items) + kept_weight (option_map (λ k. k.outcome) kept) }
    ensures room { vec_capacity left.old ≤ vec_capacity left.new }
{
    if let Some(kept) = kept {
        match left.push(kept) {
            Ok(()) => {}
            Err(_) => unreachable!(),
        }
    }
}

// Takes a place in: its seat's shares, its store, and the end that came back to it.
fn take_place<N: Hall, E: Link + Drop, S: Source + Drop>(
    host: &mut Host<N>,
    all: &mut Share<Cuts<N>>,
    stores: &mut Vec<S>,
    left: &mut Vec<Left<E>>,
    place: Place<N, E, S>,
    i: usize,
)
    requires rested { IsRested N.told N.drafts N.counts i place.seat.job (option_map (λ k. k.outcome) place.kept)
        (S.objects place.store) (S.draft place.store) (S.faults place.store) place.cuts.parts place.cuts.amount }
    requires fits { IfSome place.kept (λ k. Fits N.told N.dataset k.outcome (E.stream k.end) (E.sent k.end)
        (E.faults k.end)) }
    requires room { length stores.old.items < vec_capacity stores.old }
    requires left { All (λ k. Fits N.told N.dataset k.outcome (E.stream k.end) (E.sent k.end) (E.faults k.end))
        left.old.items }
    requires left_room { length left.old.items < vec_capacity left.old }
    requires outs { host.old.outs ≡ length left.old.items }
    ensures parts { host.new.parts ≡ host.old.parts + 1 }
    ensures outs { host.new.outs ≡ length left.new.items }
    ensures more { length left.new.items ≤ length left.old.items + 1 }
    ensures cuts { all.new.parts ≡ all.old.parts + 1 }
    ensures stores { stores.new.items ≡ stores.old.items ++ place.store ∷ [] }
    ensures room { vec_capacity stores.old ≤ vec_capacity stores.new }
    ensures left { All (λ k. Fits N.told N.dataset k.outcome (E.stream k.end) (E.sent k.end) (E.faults k.end))
        left.new.items }
    ensures owed { all.new.amount + owed (map (λ k. k.outcome) left.new.items)
        ≡ all.old.amount + owed (map (λ k. k.outcome) left.old.items)
        + (place.cuts.amount + kept_weight (option_map (λ k. k.outcome) place.kept)) }
    ensures left_room { vec_capacity left.old ≤ vec_capacity left.new }
{
    let Place {
        seat,
        store,
        cuts,
        kept,
    } = place;
    host.take_in(seat);
    all.merge(cuts);
    put_store(stores, store);
    put_kept(host, left, kept);
}

// Takes all places in. Each store comes back to its place in the list, with a count that didn't fall, and together they rose by
// as many as the shares and the ends that came back stand for.
fn take_all<N: Hall, E: Link + Drop, S: Source + Drop>(
    host: &mut Host<N>,
    all: &mut Share<Cuts<N>>,
    stores: &mut Vec<S>,
    left: &mut Vec<Left<E>>,
    places: &mut [Option<Place<N, E, S>>],
)
    requires told { length N.told ≡ length places.old }
    requires drafts { length N.drafts ≡ length places.old }
    requires counts { length N.counts ≡ length places.old }
    requires rested { (i : ℕ) (d : _) → i < length places.old → IsSome (slice_index_or places.old i d)
        × IfSome (slice_index_or places.old i d) (λ p. IsRested N.told N.drafts N.counts i p.seat.job
        (option_map (λ k. k.outcome) p.kept) (S.objects p.store) (S.draft p.store) (S.faults p.store)
        p.cuts.parts p.cuts.amount) }
    requires fits { (i : ℕ) (d : _) → i < length places.old →
        IfSome (slice_index_or places.old i d) (λ p. IfSome p.kept (λ k. Fits N.told N.dataset k.outcome
        (E.stream k.end) (E.sent k.end) (E.faults k.end))) }
    requires stores { stores.old.items ≡ [] }
    requires room { length places.old ≤ vec_capacity stores.old }
    requires left { left.old.items ≡ [] }
    requires left_room { length places.old ≤ vec_capacity left.old }
    requires outs { host.old.outs ≡ 0 }
    requires none { all.old.amount ≡ 0 }
    ensures parts { host.new.parts ≡ host.old.parts + length places.old }
    ensures outs { host.new.outs ≡ length left.new.items }
    ensures cuts { all.new.parts ≡ all.old.parts + length places.old }
    ensures told { map S.objects stores.new.items ≡ N.told }
    ensures drafts { map S.draft stores.new.items ≡ N.drafts }
    ensures paid { PaidBy N.counts (map S.faults stores.new.items)
        (all.new.amount + owed (map (λ k. k.outcome) left.new.items)) }
    ensures later { NoneFell N.counts (map S.faults stores.new.items) }
    ensures room { vec_capacity stores.old ≤ vec_capacity stores.new }
    ensures left { All (λ k. Fits N.told N.dataset k.outcome (E.stream k.end) (E.sent k.end) (E.faults k.end))
        left.new.items }
{
    for i in 0..places.len() {
        let Some(place) = places[i].take() else {
            unreachable!()
        };
        take_place(host, all, stores, left, place, i);
    }
}

// The loops of the first seats, so many at once, each in a thread of its own where one can be made. The other seats do
// nothing.
fn run_first<
    N: Hall + Send + Sync,
    D: Entrance + Drop + Send,
    X: Exit<D::End> + Drop + Send,
    S: Source + Drop + Send,
    G: Gate + Sync,
    R: Threads + Wait + Sync,
>(
    rt: &R,
    porch: &Mutex<Porch<N, D>>,
    middle: &Mutex<Middle<N, D::End, X>>,
    alloc: Global,
    order: &Order<N>,
    gate: &G,
    workers: usize,
    places: &mut [Option<Place<N, D::End, S>>],
)
where
    D::End: Send,
    requires some { 0 < workers }
    requires few { workers ≤ length places.old }
    requires idle { (i : ℕ) (d : _) → i < length places.old → IsSome (slice_index_or places.old i d)
        × IfSome (slice_index_or places.old i d) (λ p. IsIdle N.told N.drafts N.counts i p.seat.number
        p.seat.job (option_map (λ k. k.outcome) p.kept) (S.objects p.store) (S.draft p.store) (S.faults p.store)
        p.cuts.parts p.cuts.amount) }
    ensures rested { (i : ℕ) (d : _) → i < length places.old → IsSome (slice_index_or places.new i d)
        × IfSome (slice_index_or places.new i d) (λ p. IsRested N.told N.drafts N.counts i p.seat.job
        (option_map (λ k. k.outcome) p.kept) (S.objects p.store) (S.draft p.store) (S.faults p.store)
        p.cuts.parts p.cuts.amount) }
    ensures fits { (i : ℕ) (d : _) → i < length places.old →
        IfSome (slice_index_or places.new i d) (λ p. IfSome p.kept (λ k. Fits N.told N.dataset k.outcome
        (D.End.stream k.end) (D.End.sent k.end) (D.End.faults k.end))) }
{
    run_places(
        rt,
        porch,
        middle,
        alloc,
        order,
        gate,
        &mut places[..workers],
    );
}

/// Serves by so many seats at once, each with a store in a place of its own, and takes them all in.
pub(crate) fn run_seats<
    N: Hall + Send + Sync,
    D: Entrance + Drop + Send,
    X: Exit<D::End> + Drop + Send,
    S: Source + Drop + Send,
    G: Gate + Sync,
    R: Threads + Wait + Sync,
>(
    rt: &R,
    porch: &Mutex<Porch<N, D>>,
    middle: &Mutex<Middle<N, D::End, X>>,
    alloc: Global,
    order: &Order<N>,
    gate: &G,
    workers: u32,
    host: &mut Host<N>,
    all: &mut Share<Cuts<N>>,
    stores: &mut Vec<S>,
    left: &mut Vec<Left<D::End>>,
    places: &mut [Option<Place<N, D::End, S>>],
)
where
    D::End: Send,
    requires some { 0 < workers }
    requires few { workers ≤ 16 }
    requires places { length places.old ≡ 16 }
    requires each { length stores.old.items ≡ 16 }
    requires parts { host.old.parts ≡ 17 }
    requires outs { host.old.outs ≡ 0 }
    requires cuts { (all.old.parts ≡ 17) × (all.old.amount ≡ 0) }
    requires told { N.told ≡ map S.objects stores.old.items }
    requires drafts { N.drafts ≡ map S.draft stores.old.items }
    requires counts { N.counts ≡ map S.faults stores.old.items }
    requires left { left.old.items ≡ [] }
    requires left_room { 16 ≤ vec_capacity left.old }
    ensures room { 16 ≤ vec_capacity stores.new }
    ensures parts { host.new.parts ≡ 17 }
    ensures outs { host.new.outs ≡ length left.new.items }
    ensures cuts { all.new.parts ≡ 17 }
    ensures each { length stores.new.items ≡ 16 }
    ensures told { map S.objects stores.new.items ≡ N.told }
    ensures drafts { map S.draft stores.new.items ≡ N.drafts }
    ensures paid { PaidBy N.counts (map S.faults stores.new.items)
        (all.new.amount + owed (map (λ k. k.outcome) left.new.items)) }
    ensures later { NoneFell N.counts (map S.faults stores.new.items) }
    ensures left { All (λ k. Fits N.told N.dataset k.outcome (D.End.stream k.end) (D.End.sent k.end)
        (D.End.faults k.end)) left.new.items }
{
    seat_all(host, all, stores, places);
    run_first(
        rt,
        porch,
        middle,
        alloc,
        order,
        gate,
        workers as usize,
        places,
    );
    take_all(host, all, stores, left, places);
}
