//! A hall from its first accept to its last close.
ghost use Rattle.std.specs.Prelude.{◌≡◌, ◌<◌, ◌≤◌, ◌+◌, ◌-◌, [], ℕ, List, All, IfOk, IfSome, IsSome, Some, None, false, true, length, map, sum, vec_capacity};
ghost use Rattle.vol_base.specs.Causes.{Rose};
ghost use Rattle.hall.specs.Finishing.{Finishes, told_as};
ghost use Rattle.hall.specs.Halls.{Accepts, EachServed, HasExactly, NoneFell, PaidBy, end_by, is_short, numbers_of};

use crate::middle::Middle;
use crate::names::{Cuts, Hall, Nexts, Order};
use crate::outcome::HallEnd;
use crate::outside::{Entrance, Exit};
use crate::places::{put_store, run_seats};
use crate::porch::Porch;
use crate::rest::{Left, deposit_rest};
use crate::seats::{Place, finish_alone};
use job_log::{Event, Host, JobLog, Stage};
use std::alloc::Global;
use std::marker::{Brand, PhantomData};
use std::sync::ledger::{Blank, Share};
use std::sync::{Mutex, Wait};
use std::thread::Threads;
use vol_base::{Gate, Link, Name, OutOfMemory, Source};

/// How serving ended, and the entrance, the exit and the stores that it used.
#[derive(Drop)]
pub struct Finish<D: Drop, X: Drop, S: Drop> {
    pub end: HallEnd,
    pub entrance: D,
    pub exit: X,
    pub stores: Vec<S>,
}

// What a hall takes, reserved once: lists with room for its events and for the ends that come back, and 16 places.
#[derive(Drop)]
struct Lists<N: Hall, E: Link + Drop, S: Source + Drop> {
    stages: Vec<Stage>,
    log: Vec<Event>,
    left: Vec<Left<E>>,
    places: Vec<Option<Place<N, E, S>>>,
}

// A list with room for so many entries.
fn with_room<T>(alloc: Global, count: usize) -> Result<Vec<T>, OutOfMemory>
    ensures items { IfOk result (λ v. v.items ≡ []) }
    ensures room { IfOk result (λ v. count ≤ vec_capacity v) }
{
    match Vec::with_capacity(alloc, count) {
        Ok(list) => Ok(list),
        Err(_) => Err(OutOfMemory),
    }
}

// 16 empty places.
fn empty_places<N: Hall, E: Link + Drop, S: Source + Drop>(
    alloc: Global,
) -> Result<Vec<Option<Place<N, E, S>>>, OutOfMemory>
    ensures { IfOk result (λ places. length places.items ≡ 16) }
{
    let mut places = with_room(alloc, 16)?;
    for _i in 0..16u32 {
        match places.push(None) {
            Ok(()) => {}
            Err(_) => return Err(OutOfMemory),
        }
    }
    Ok(places)
}

fn reserve_lists<N: Hall, E: Link + Drop, S: Source + Drop>(
    alloc: Global,
    total: u32,
) -> Result<Lists<N, E, S>, OutOfMemory>
    ensures stages { IfOk result (λ lists. total + total ≤ vec_capacity lists.stages) }
    ensures log { IfOk result (λ lists. total + total ≤ vec_capacity lists.log) }
    ensures none { IfOk result (λ lists. lists.left.items ≡ []) }
    ensures left { IfOk result (λ lists. 16 ≤ vec_capacity lists.left) }
    ensures places { IfOk result (λ lists. length lists.places.items ≡ 16) }
{
    let twice = total as usize + total as usize;
    let stages = with_room(alloc, twice)?;
    let log = with_room(alloc, twice)?;
    let left = with_room(alloc, 16)?;
    let places = empty_places(alloc)?;
    Ok(Lists {
        stages,
        log,
        left,
        places,
    })
}

// How serving ended. Want of memory comes first.
fn end_of(ran_out: bool, failed: bool) -> HallEnd
    ensures { result ≡ end_by ran_out failed }
{
    if ran_out {
        HallEnd::OutOfMemory
    } else if failed {
        HallEnd::DoorFault
    } else {
        HallEnd::All
    }
}

// Serves by a seat of the caller's, with no other about, until nothing is left to serve.
fn run_alone<N: Hall, D: Entrance + Drop, X: Exit<D::End> + Drop, S: Source + Drop, G: Gate>(
    porch: &mut Porch<N, D>,
    middle: &mut Middle<N, D::End, X>,
    alloc: Global,
    order: &Order<N>,
    gate: &G,
    host: &mut Host<N>,
    all: &mut Share<Cuts<N>>,
    stores: &mut Vec<S>,
)
    requires each { length stores.old.items ≡ 16 }
    requires parts { host.old.parts ≡ 17 }
    requires outs { host.old.outs ≡ 0 }
    requires cuts { all.old.parts ≡ 17 }
    requires told { map S.objects stores.old.items ≡ N.told }
    requires drafts { map S.draft stores.old.items ≡ N.drafts }
    requires paid { PaidBy N.counts (map S.faults stores.old.items) all.old.amount }
    requires later { NoneFell N.counts (map S.faults stores.old.items) }
    ensures parts { host.new.parts ≡ 17 }
    ensures outs { host.new.outs ≡ 0 }
    ensures cuts { all.new.parts ≡ 17 }
    ensures told { map S.objects stores.new.items ≡ N.told }
    ensures drafts { map S.draft stores.new.items ≡ N.drafts }
    ensures paid { PaidBy N.counts (map S.faults stores.new.items) all.new.amount }
    ensures later { NoneFell N.counts (map S.faults stores.new.items) }
    ensures over { porch.new.failed ≡ false → porch.new.given ≡ N.jobs }
{
    let Some(mut store) = stores.pop() else {
        unreachable!()
    };
    let mut seat = host.seat(0);
    let mut cuts = all.split_off(1, 0);
    finish_alone(
        porch, middle, &mut seat, &mut cuts, alloc, &mut store, order, gate,
    );
    host.take_in(seat);
    all.merge(cuts);
    put_store(stores, store);
}

// Ends a hall whose host has taken all seats in, with nothing out.
fn close_hall<N: Hall, D: Entrance + Drop, X: Exit<D::End> + Drop, S: Source + Drop>(
    porch: Porch<N, D>,
    middle: Middle<N, D::End, X>,
    host: &mut Host<N>,
    all: &mut Share<Cuts<N>>,
    stores: Vec<S>,
) -> Finish<D, X, S>
    requires whole { host.old.parts ≡ N.parts }
    requires none { host.old.outs ≡ 0 }
    requires cuts { all.old.parts ≡ N.parts }
    requires told { map S.objects stores.items ≡ N.told }
    requires drafts { map S.draft stores.items ≡ N.drafts }
    requires paid { PaidBy N.counts (map S.faults stores.items) all.old.amount }
    requires later { NoneFell N.counts (map S.faults stores.items) }
    requires over { porch.failed ≡ false → porch.given ≡ N.jobs }
    ensures { Finishes N.jobs N.dataset N.told N.drafts N.counts (told_as N.bound N.accepted N.count) result.end
        (told_as (D.bound result.entrance) (D.accepted result.entrance) (D.faults result.entrance))
        (X.served result.exit) (map S.objects result.stores.items)
        (map S.draft result.stores.items) (map S.faults result.stores.items) }
{
    let (entrance, mut given, failed) = porch.close();
    let (exit, ran_out) = middle.close(host, all, &mut given);
    Finish {
        end: end_of(ran_out, failed),
        entrance,
        exit,
        stores,
    }
}

// Serves by so many seats at once, then closes what came back, and serves what is left.
fn run_open<
    N: Hall + Send + Sync,
    D: Entrance + Drop + Send,
    X: Exit<D::End> + Drop + Send,
    S: Source + Drop + Send,
    G: Gate + Sync,
    R: Threads + Wait + Sync,
>(
    rt: &R,
    porch: Porch<N, D>,
    middle: Middle<N, D::End, X>,
    alloc: Global,
    order: &Order<N>,
    gate: &G,
    workers: u32,
    host: &mut Host<N>,
    all: &mut Share<Cuts<N>>,
    stores: Vec<S>,
    left: Vec<Left<D::End>>,
    places: &mut [Option<Place<N, D::End, S>>],
) -> Finish<D, X, S>
where
    D::End: Send,
    requires parts { (N.parts ≡ 17) × (host.old.parts ≡ 17) × (all.old.parts ≡ 17) }
    requires outs { host.old.outs ≡ 0 }
    requires none { all.old.amount ≡ 0 }
    requires left { left.items ≡ [] }
    requires left_room { 16 ≤ vec_capacity left }
    requires places { length places.old ≡ 16 }
    requires each { length stores.items ≡ 16 }
    requires told { N.told ≡ map S.objects stores.items }
    requires drafts { N.drafts ≡ map S.draft stores.items }
    requires counts { N.counts ≡ map S.faults stores.items }
    requires some { 0 < workers }
    requires few { workers ≤ 16 }
    ensures { Finishes N.jobs N.dataset N.told N.drafts N.counts (told_as N.bound N.accepted N.count) result.end
        (told_as (D.bound result.entrance) (D.accepted result.entrance) (D.faults result.entrance))
        (X.served result.exit) (map S.objects result.stores.items)
        (map S.draft result.stores.items) (map S.faults result.stores.items) }
{
    let mut stores = stores;
    let mut left = left;
    let middle = Mutex::new(middle);
    let porch = Mutex::new(porch);
    run_seats(
        rt,
        &porch,
        &middle,
        alloc,
        order,
        gate,
        workers,
        host,
        all,
        &mut stores,
        &mut left,
        places,
    );
    let mut middle = middle.into_inner();
    let mut porch = porch.into_inner();
    deposit_rest(&mut middle, host, all, left);
    run_alone(
        &mut porch,
        &mut middle,
        alloc,
        order,
        gate,
        host,
        all,
        &mut stores,
    );
    close_hall(porch, middle, host, all, stores)
}

// Serves ends by so many seats at once, each in a thread of its own where one can be made, until so many were accepted, or an
// accept fails.
fn run_named<
    N: Hall + Send + Sync,
    D: Entrance + Drop + Send,
    X: Exit<D::End> + Drop + Send,
    S: Source + Drop + Send,
    G: Gate + Sync,
    R: Threads + Wait + Sync,
>(
    rt: &R,
    claims: Blank,
    deposits: Blank,
    cuts: Blank,
    nexts: Blank,
    entrance: D,
    exit: X,
    stores: Vec<S>,
    alloc: Global,
    dataset: &Name,
    total: u32,
    gate: &G,
    workers: u32,
) -> Finish<D, X, S>
where
    D::End: Send,
    requires claims { (claims.name ≡ N.name) × (claims.parts ≡ N.parts) }
    requires deposits { (deposits.name ≡ N.deposits_name) × (deposits.parts ≡ N.parts) }
    requires cuts { (cuts.name ≡ N.cuts_name) × (cuts.parts ≡ N.parts) }
    requires nexts { (nexts.name ≡ N.nexts_name) × (nexts.parts ≡ 1) }
    requires parts { N.parts ≡ 17 }
    requires jobs { (N.jobs ≡ total) × (N.room ≡ total + total) }
    requires bound { D.bound entrance ≡ N.bound }
    requires listens { IsSome (D.bound entrance) }
    requires accepted { D.accepted entrance ≡ N.accepted }
    requires count { D.faults entrance ≡ N.count }
    requires noted { IfSome (X.served exit) (λ list. list ≡ []) }
    requires each { length stores.items ≡ 16 }
    requires told { N.told ≡ map S.objects stores.items }
    requires drafts { N.drafts ≡ map S.draft stores.items }
    requires counts { N.counts ≡ map S.faults stores.items }
    requires dataset { dataset.now ≡ N.dataset }
    requires some { 0 < workers }
    requires few { workers ≤ 16 }
    ensures { Finishes N.jobs N.dataset N.told N.drafts N.counts (told_as N.bound N.accepted N.count) result.end
        (told_as (D.bound result.entrance) (D.accepted result.entrance) (D.faults result.entrance))
        (X.served result.exit) (map S.objects result.stores.items)
        (map S.draft result.stores.items) (map S.faults result.stores.items) }
{
    let Ok(lists) = reserve_lists(alloc, total) else {
        return Finish {
            end: HallEnd::OutOfMemory,
            entrance,
            exit,
            stores,
        };
    };
    let Lists {
        stages,
        log,
        left,
        mut places,
    } = lists;
    let order = Order {
        dataset: dataset.duplicate(),
        total: u64::from(total),
        of: PhantomData,
    };
    let (jobs, mut host) = JobLog::<N>::open(stages, log, order.total, claims, deposits);
    let (cuts, mut all) = cuts.open::<Cuts<N>>();
    let (nexts, given) = nexts.open::<Nexts<N>>();
    let middle = Middle::open(jobs, exit, cuts, nexts);
    let porch = Porch::open(entrance, given);
    run_open(
        rt,
        porch,
        middle,
        alloc,
        &order,
        gate,
        workers,
        &mut host,
        &mut all,
        stores,
        left,
        &mut places,
    )
}

/// Serves the objects of a data set to so many ends of an entrance that listens, from 16 stores, by so many seats at once, each in
/// a thread of its own where one can be made. Each end that was accepted goes to the exit, with its number. Where one didn't get
/// all its replies, its own link failed, or its store, whose count then rose for it alone, or memory ran out amid it.
pub fn run_hall<
    R,
    D: Entrance + Drop + Send,
    X: Exit<D::End> + Drop + Send,
    S: Source + Drop + Send,
    G: Gate + Sync,
>(
    rt: &R,
    alloc: Global,
    entrance: D,
    exit: X,
    stores: Vec<S>,
    dataset: &Name,
    total: u32,
    workers: u32,
    gate: &G,
) -> Finish<D, X, S>
where
    D::End: Send,
    R: Threads + Wait + Sync,
    requires listens { IsSome (D.bound entrance) }
    requires noted { IfSome (X.served exit) (λ list. list ≡ []) }
    requires stores { length stores.items ≡ 16 }
    requires some { 0 < workers }
    requires few { workers ≤ 16 }
    ensures bound { D.bound result.entrance ≡ D.bound entrance }
    ensures exact { IfSome (X.served result.exit) (λ list.
        HasExactly (D.accepted result.entrance - D.accepted entrance) (numbers_of list)) }
    ensures given { Accepts result.end total (D.faults entrance) (D.faults result.entrance)
        (D.accepted result.entrance - D.accepted entrance) }
    ensures more { D.accepted entrance ≤ D.accepted result.entrance }
    ensures each { EachServed (map S.objects stores.items) dataset.now (is_short result.end)
        (X.served result.exit) (map S.faults stores.items) (map S.faults result.stores.items) }
    ensures stores_later { NoneFell (map S.faults stores.items) (map S.faults result.stores.items) }
    ensures kept { map S.objects result.stores.items ≡ map S.objects stores.items }
    ensures draft { map S.draft result.stores.items ≡ map S.draft stores.items }
    ensures later { D.faults entrance ≤ D.faults result.entrance }
    ensures rose { result.end ≡ HallEnd.DoorFault → Rose (D.faults entrance) (D.faults result.entrance) }
    ensures stands { result.end ≡ HallEnd.All → D.faults result.entrance ≡ D.faults entrance }
{
    run_named::<Brand, D, X, S, G, R>(
        rt,
        Blank::new(17),
        Blank::new(17),
        Blank::new(17),
        Blank::new(1),
        entrance,
        exit,
        stores,
        alloc,
        dataset,
        total,
        gate,
        workers,
    )
}
