//! What the caller does with the ends that came back.
ghost use Rattle.std.specs.Prelude.{◌≡◌, ◌<◌, ◌≤◌, ◌+◌, ℕ, All, Some, None, length, map};
ghost use Rattle.hall.specs.Halls.{Fits, cut_weight, owed};

use crate::middle::Middle;
use crate::names::{Cuts, Hall};
use crate::outcome::Outcome;
use crate::outside::Exit;
use job_log::Host;
use std::sync::ledger::Share;
use vol_base::Link;

/// An end that came back to its seat, and how its connection ended.
#[derive(Drop)]
pub struct Left<E: Drop> {
    pub end: E,
    pub outcome: Outcome,
}

// Closes and deposits an end that came back, under a number that is out.
fn close_left<N: Hall, E: Link + Drop, X: Exit<E> + Drop>(
    middle: &mut Middle<N, E, X>,
    host: &mut Host<N>,
    cuts: &mut Share<Cuts<N>>,
    last: Left<E>,
)
    requires whole { host.old.parts ≡ N.parts }
    requires some { 0 < host.old.parts }
    requires outs { 0 < host.old.outs }
    requires parts { 0 < cuts.old.parts }
    requires fits { Fits N.told N.dataset last.outcome (E.stream last.end) (E.sent last.end) (E.faults last.end) }
    ensures host { host.new.parts ≡ host.old.parts }
    ensures outs { host.new.outs + 1 ≡ host.old.outs }
    ensures parts { cuts.new.parts ≡ cuts.old.parts }
    ensures amount { cuts.new.amount ≡ cuts.old.amount + cut_weight last.outcome }
{
    let Left { end, outcome } = last;
    let Some((number, seat)) = middle.find_out(host) else {
        unreachable!()
    };
    middle.deposit_for(host, cuts, number, seat, end, outcome);
}

/// Closes and deposits each end that came back, under a number that is out.
pub(crate) fn deposit_rest<N: Hall, E: Link + Drop, X: Exit<E> + Drop>(
    middle: &mut Middle<N, E, X>,
    host: &mut Host<N>,
    cuts: &mut Share<Cuts<N>>,
    left: Vec<Left<E>>,
)
    requires whole { host.old.parts ≡ N.parts }
    requires some { 0 < host.old.parts }
    requires outs { host.old.outs ≡ length left.items }
    requires parts { 0 < cuts.old.parts }
    requires fits { All (λ l. Fits N.told N.dataset l.outcome (E.stream l.end) (E.sent l.end) (E.faults l.end))
        left.items }
    ensures host { host.new.parts ≡ host.old.parts }
    ensures outs { host.new.outs ≡ 0 }
    ensures parts { cuts.new.parts ≡ cuts.old.parts }
    ensures amount { cuts.new.amount ≡ cuts.old.amount + owed (map (λ l. l.outcome) left.items) }
{
    let mut left = left;
    while let Some(last) = left.pop() {
        close_left(middle, host, cuts, last);
    }
}
