//! Who serves connections.
ghost use Rattle.std.specs.Prelude.{◌≡◌, ◌<◌, ◌≤◌, ◌+◌, ◌∷◌, ℕ, List, [], Some, None, false, IfSome, option_map, slice_index_or};
ghost use Rattle.job_log.specs.Replay.{some_count};
ghost use Rattle.hall.specs.Halls.{Fits, IsIdle, IsRested, Paid, TellsAs, Turned, cut_weight};

use crate::middle::Middle;
use crate::names::{Cuts, Hall, Order};
use crate::outcome::Outcome;
use crate::outside::{Entrance, Exit, Parting};
use crate::porch::{Guest, Porch};
use crate::rest::Left;
use crate::turn::serve_turn;
use job_log::Seat;
use range_server::Desk;
use std::alloc::Global;
use std::sync::ledger::Share;
use std::sync::{Mutex, Wait};
use vol_base::{Gate, Link, Moment, Source};

/// A seat with its store, its share of the cuts, and an end that came back to it.
#[derive(Drop)]
pub(crate) struct Place<N: Hall, E: Link + Drop, S: Source + Drop> {
    pub seat: Seat<N>,
    pub store: S,
    pub cuts: Share<Cuts<N>>,
    pub kept: Option<Left<E>>,
}

// Serves one end from a store, and parts from it.
fn serve_end<N: Hall, L: Parting, S: Source>(
    alloc: Global,
    link: &mut L,
    store: &mut S,
    order: &Order<N>,
    kept: &mut Option<Desk>,
) -> Outcome
    requires fresh { (L.left link.old ≡ L.stream link.old)
        × (L.sent link.old ≡ option_map (λ _. []) (L.stream link.old)) × (L.faults link.old ≡ 0) }
    requires tells { TellsAs N.told (S.objects store.old) }
    ensures turned { Turned N.told N.dataset result (L.stream link.new) (L.sent link.new)
        (L.faults link.new) (S.faults store.old) (S.faults store.new) }
    ensures objects { S.objects store.new ≡ S.objects store.old }
    ensures draft { S.draft store.new ≡ S.draft store.old }
{
    let outcome = serve_turn(alloc, link, store, &order.dataset, kept);
    link.part();
    outcome
}

/// Serves ends until there are no more, or one comes back.
pub(crate) fn run_seat<
    N: Hall,
    D: Entrance + Drop,
    X: Exit<D::End> + Drop,
    S: Source + Drop,
    G: Gate,
    R: Wait,
>(
    rt: &R,
    porch: &Mutex<Porch<N, D>>,
    middle: &Mutex<Middle<N, D::End, X>>,
    alloc: Global,
    order: &Order<N>,
    gate: &G,
    place: &mut Place<N, D::End, S>,
)
    requires idle { IsIdle N.told N.drafts N.counts place.old.seat.number place.old.seat.number place.old.seat.job
        (option_map (λ k. k.outcome) place.old.kept) (S.objects place.old.store) (S.draft place.old.store)
        (S.faults place.old.store) place.old.cuts.parts place.old.cuts.amount }
    ensures number { place.new.seat.number ≡ place.old.seat.number }
    ensures rested { IsRested N.told N.drafts N.counts place.new.seat.number place.new.seat.job
        (option_map (λ k. k.outcome) place.new.kept) (S.objects place.new.store) (S.draft place.new.store)
        (S.faults place.new.store) place.new.cuts.parts place.new.cuts.amount }
    ensures fits { IfSome place.new.kept (λ k. Fits N.told N.dataset k.outcome (D.End.stream k.end)
        (D.End.sent k.end) (D.End.faults k.end)) }
{
    let mut desk = None;
    for _ in 0..u64::MAX {
        let entered = porch
            .lock(rt)
            .enter(rt, middle, &mut place.seat, order.total);
        let Some(guest) = entered else {
            return;
        };
        let Guest { number, mut end } = guest;
        gate.at(place.seat.number, number, Moment::Claimed);
        let outcome = serve_end(alloc, &mut end, &mut place.store, order, &mut desk);
        let back = middle
            .lock(rt)
            .deposit(&mut place.seat, &mut place.cuts, number, end, outcome);
        if let Some(end) = back {
            place.kept = Some(Left { end, outcome });
            return;
        }
        gate.at(place.seat.number, number, Moment::Deposited);
    }
}

/// Serves the ends that are left, with no other seat about.
pub(crate) fn finish_alone<N: Hall, D: Entrance + Drop, X: Exit<D::End> + Drop, S: Source, G: Gate>(
    porch: &mut Porch<N, D>,
    middle: &mut Middle<N, D::End, X>,
    seat: &mut Seat<N>,
    cuts: &mut Share<Cuts<N>>,
    alloc: Global,
    store: &mut S,
    order: &Order<N>,
    gate: &G,
)
    requires idle { seat.old.job ≡ None }
    requires part { cuts.old.parts ≡ 1 }
    requires none { cuts.old.amount ≡ 0 }
    requires tells { TellsAs N.told (S.objects store.old) }
    ensures idle { seat.new.job ≡ None }
    ensures part { cuts.new.parts ≡ 1 }
    ensures over { porch.new.failed ≡ false → porch.new.given ≡ N.jobs }
    ensures paid { Paid (S.faults store.old) (S.faults store.new) cuts.new.amount }
    ensures later { S.faults store.old ≤ S.faults store.new }
    ensures objects { S.objects store.new ≡ S.objects store.old }
    ensures draft { S.draft store.new ≡ S.draft store.old }
{
    let mut desk = None;
    while let Some(guest) = porch.enter_alone(middle, seat, order.total) {
        let Guest { number, mut end } = guest;
        gate.at(seat.number, number, Moment::Claimed);
        let outcome = serve_end(alloc, &mut end, store, order, &mut desk);
        match middle.deposit(seat, cuts, number, end, outcome) {
            None => {}
            Some(_) => unreachable!(),
        }
        gate.at(seat.number, number, Moment::Deposited);
    }
}
