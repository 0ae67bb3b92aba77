//! One connection.
ghost use Rattle.std.specs.Prelude.{◌≡◌, ◌∷◌, [], List, option_map};
ghost use Rattle.hall.specs.Halls.{Turned, outcome_of};

use crate::outcome::Outcome;
use range_server::{Desk, Ending, ServeFault, Service, serve_to_end};
use std::alloc::Global;
use vol_base::{Link, Name, Source};

// What is noted of a connection, by how it was served.
fn judge(served: &Service) -> Outcome
    ensures { result ≡ outcome_of served.now.ended served.now.failing }
{
    match &served.ended {
        Ok(Ending::Whole) => Outcome::Whole,
        Err(ServeFault::LinkFault) if !served.failing => Outcome::Whole,
        Ok(Ending::Failed) | Err(ServeFault::LinkFault) | Err(ServeFault::StoreFault) => {
            Outcome::StoreCut
        }
        Err(ServeFault::OutOfMemory) => Outcome::MemoryCut,
    }
}

/// Serves an end on which nothing was received or sent from a store, and tells how that ended. The desk that
/// is kept serves one end after the other.
pub fn serve_turn<L: Link, S: Source>(
    alloc: Global,
    link: &mut L,
    store: &mut S,
    dataset: &Name,
    kept: &mut Option<Desk>,
) -> Outcome
    requires fresh { (L.left link.old ≡ L.stream link.old)
        × (L.sent link.old ≡ option_map (λ _. []) (L.stream link.old)) × (L.faults link.old ≡ 0) }
    ensures turned { Turned (S.objects store.old ∷ []) dataset.now result (L.stream link.new) (L.sent link.new)
        (L.faults link.new) (S.faults store.old) (S.faults store.new) }
    ensures objects { S.objects store.new ≡ S.objects store.old }
    ensures draft { S.draft store.new ≡ S.draft store.old }
{
    let served = serve_to_end(alloc, link, store, dataset, kept);
    judge(&served)
}
