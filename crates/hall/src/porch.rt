//! The entrance behind a lock of its own.
ghost use Rattle.std.specs.Prelude.{◌≡◌, ◌<◌, ◌≤◌, ◌+◌, [], ℕ, List, Some, None, true, false, OnSome, IfSome, IfNone, IsSome, option_map};
ghost use Rattle.vol_base.specs.Causes.{Rose};
ghost use Rattle.job_log.specs.Replay.{out_at, stage_in};

use crate::middle::Middle;
use crate::names::{Hall, Nexts};
use crate::outside::{Entrance, Exit};
use job_log::Seat;
use std::marker::Model;
use std::sync::ledger::Share;
use std::sync::{Mutex, Wait};
use vol_base::Failed;

/// An entrance with the whole share of the numbers that were given.
#[derive(Drop)]
pub struct Porch<N: Hall, D: Entrance + Drop> {
    entrance: D,
    nexts: Share<Nexts<N>>,
    given: u64,
    failed: bool,
}

impl<N: Hall, D: Entrance + Drop> Model for Porch<N, D> {
    ghost use Rattle.hall.specs.Halls.{Gone, IsEntered};

    ghost Value = { Gone };

    ghost view = { λ p. record { given = p.given; failed = p.failed; faults = D.faults p.entrance } };

    ghost invariant = { λ p. IsEntered N.bound N.accepted N.count N.jobs (D.bound p.entrance) (D.accepted p.entrance)
        (D.faults p.entrance) p.given p.failed p.nexts.parts p.nexts.amount };
}

/// An end that was accepted, with its number.
#[derive(Drop)]
pub struct Guest<E: Drop> {
    pub number: u64,
    pub end: E,
}

// Accepts the next end, where fewer were given than so many and no accept failed; notes where this one fails.
fn accept_next<D: Entrance + Drop>(
    entrance: &mut D,
    given: u64,
    failed: &mut bool,
    total: u64,
) -> Option<D::End>
    requires { IsSome (D.bound entrance.old) }
    ensures bound { D.bound entrance.new ≡ D.bound entrance.old }
    ensures some { OnSome result (D.accepted entrance.new ≡ D.accepted entrance.old + 1) }
    ensures open { OnSome result ((failed.old ≡ false) × (failed.new ≡ false) × (given < total)) }
    ensures fresh { IfSome result (λ end. (D.End.left end ≡ D.End.stream end)
        × (D.End.sent end ≡ option_map (λ _. []) (D.End.stream end)) × (D.End.faults end ≡ 0)) }
    ensures stands { OnSome result (D.faults entrance.new ≡ D.faults entrance.old) }
    ensures none { IfNone result (D.accepted entrance.new ≡ D.accepted entrance.old) }
    ensures all { IfNone result (failed.new ≡ false →
        (total ≤ given) × (failed.old ≡ false) × (D.faults entrance.new ≡ D.faults entrance.old)) }
    ensures rose { IfNone result (failed.new ≡ true → failed.old ≡ false →
        Rose (D.faults entrance.old) (D.faults entrance.new) × (given < total)) }
    ensures later { D.faults entrance.old ≤ D.faults entrance.new }
    ensures shut { failed.old ≡ true → (entrance.new ≡ entrance.old) × (failed.new ≡ true) }
{
    if *failed || given >= total {
        return None;
    }
    match entrance.accept() {
        Ok(end) => Some(end),
        Err(Failed) => {
            *failed = true;
            None
        }
    }
}

impl<N: Hall, D: Entrance + Drop> Porch<N, D> {
    /// An entrance that listens, of which no number was given since.
    pub(crate) fn open(entrance: D, nexts: Share<Nexts<N>>) -> Porch<N, D>
        requires bound { D.bound entrance ≡ N.bound }
        requires listens { IsSome (D.bound entrance) }
        requires accepted { D.accepted entrance ≡ N.accepted }
        requires count { D.faults entrance ≡ N.count }
        requires whole { nexts.parts ≡ 1 }
        requires none { nexts.amount ≡ 0 }
        ensures { result ≡ record { given = 0; failed = false; faults = D.faults entrance } }
    {
        Porch {
            entrance,
            nexts,
            given: 0,
            failed: false,
        }
    }

    /// Accepts the next end and claims its number, in one hold of this lock; nothing where all were accepted, or where an accept
    /// failed.
    pub fn enter<X: Exit<D::End> + Drop, R: Wait>(
        &mut self,
        rt: &R,
        middle: &Mutex<Middle<N, D::End, X>>,
        seat: &mut Seat<N>,
        total: u64,
    ) -> Option<Guest<D::End>>
        requires idle { seat.old.job ≡ None }
        requires total { total ≡ N.jobs }
        ensures none { IfNone result (seat.new.job ≡ None) }
        ensures over { IfNone result (self.new.failed ≡ false → self.new.given ≡ total) }
        ensures open { OnSome result ((self.old.failed ≡ false) × (self.new.failed ≡ false)) }
        ensures shut { self.old.failed ≡ true → self.new ≡ self.old }
        ensures more { OnSome result (self.new.given ≡ self.old.given + 1) }
        ensures some { IfSome result (λ guest. seat.new.job ≡ Some guest.number) }
        ensures fresh { IfSome result (λ guest. (D.End.left guest.end ≡ D.End.stream guest.end)
            × (D.End.sent guest.end ≡ option_map (λ _. []) (D.End.stream guest.end)) × (D.End.faults guest.end ≡ 0)) }
        ensures number { seat.new.number ≡ seat.old.number }
    {
        let Porch {
            entrance,
            nexts,
            given,
            failed,
        } = self;
        let end = accept_next(entrance, *given, failed, total)?;
        let number = middle.lock(rt).claim(seat, nexts);
        *given += 1;
        Some(Guest { number, end })
    }

    /// The same where nobody else is about.
    pub(crate) fn enter_alone<X: Exit<D::End> + Drop>(
        &mut self,
        middle: &mut Middle<N, D::End, X>,
        seat: &mut Seat<N>,
        total: u64,
    ) -> Option<Guest<D::End>>
        requires idle { seat.old.job ≡ None }
        requires total { total ≡ N.jobs }
        ensures none { IfNone result ((seat.new.job ≡ None) × (middle.new ≡ middle.old)) }
        ensures over { IfNone result (self.new.failed ≡ false → self.new.given ≡ total) }
        ensures open { OnSome result ((self.old.failed ≡ false) × (self.new.failed ≡ false)) }
        ensures shut { self.old.failed ≡ true → self.new ≡ self.old }
        ensures some { IfSome result (λ guest. seat.new.job ≡ Some guest.number) }
        ensures out { IfSome result (λ guest.
            stage_in N.jobs middle.new.log guest.number ≡ out_at seat.new.number) }
        ensures fresh { IfSome result (λ guest. (D.End.left guest.end ≡ D.End.stream guest.end)
            × (D.End.sent guest.end ≡ option_map (λ _. []) (D.End.stream guest.end)) × (D.End.faults guest.end ≡ 0)) }
        ensures more { OnSome result ((self.old.given < total) × (self.new.given ≡ self.old.given + 1)) }
        ensures number { seat.new.number ≡ seat.old.number }
    {
        let Porch {
            entrance,
            nexts,
            given,
            failed,
        } = self;
        let end = accept_next(entrance, *given, failed, total)?;
        let number = middle.claim(seat, nexts);
        *given += 1;
        Some(Guest { number, end })
    }

    /// The entrance, the share of the numbers that were given, and whether an accept failed.
    pub(crate) fn close(self) -> (D, Share<Nexts<N>>, bool)
        ensures failed { result.2 ≡ self.failed }
        ensures bound { D.bound result.0 ≡ N.bound }
        ensures accepted { D.accepted result.0 ≡ N.accepted + self.given }
        ensures most { self.given ≤ N.jobs }
        ensures fewer { self.failed ≡ true → self.given < N.jobs }
        ensures later { N.count ≤ D.faults result.0 }
        ensures count { D.faults result.0 ≡ self.faults }
        ensures rose { self.failed ≡ true → Rose N.count (D.faults result.0) }
        ensures stands { self.failed ≡ false → D.faults result.0 ≡ N.count }
        ensures whole { result.1.parts ≡ 1 }
        ensures amount { result.1.amount ≡ self.given }
    {
        let Porch {
            entrance,
            nexts,
            given: _,
            failed,
        } = self;
        (entrance, nexts, failed)
    }
}
