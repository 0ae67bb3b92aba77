//! A connection, served.
ghost use Rattle.std.specs.Prelude.{◌≡◌, ◌≤◌, ◌⊎◌, ◌-◌, ◌≢◌, ℕ, List, true, false, length, Err, IfErr, IfOk, IsSome, OnOk};
ghost use Rattle.vol_base.specs.Outside.{Ended, Objects, OnlyReads};
ghost use Rattle.range_server.specs.Bodies.{HasServeCause, WhereTold, failures};
ghost use Rattle.range_server.specs.Replies.{AreReplies, Gained, Served, ServedIn, Stopped};
ghost use Rattle.range_server.specs.Serving.{AtMostBroken, EndsServed};
ghost use Rattle.vol_base.specs.Causes.{Rose, most_count};

use crate::conn::serve_link;
use crate::fault::ServeFault;
use crate::reply::Ending;
use crate::room::{Desk, take_desk};
use std::alloc::Global;
use vol_base::{Link, Name, OutOfMemory, Source};

/// How serving a connection ended, and whether the store failed so that the reply was begun that says so.
#[derive(Clone, Copy, Debug, PartialEq, Eq)]
pub struct Service {
    pub ended: Result<Ending, ServeFault>,
    pub failing: bool,
}

/// Serves the requests of a peer for the objects of a data set, until their stream ends or a reply closes the
/// connection, and tells how it ended. The desk of an earlier connection is used again, where one is kept, and kept; else
/// the one that is made is kept, unless there was no memory. At `Whole` what was sent is the replies to what was left of
/// the link's stream, in whatever pieces it comes. `Failed` comes only where the store failed: then it is whole first
/// replies, and the one that says so.
///
/// # Errors
/// `LinkFault` and `StoreFault` only where the link or the store failed, and `OutOfMemory`. What was sent is then a
/// front of the replies, or where `failing` is set whole first ones and a front of the one that says that the store
/// failed; after `StoreFault` it ends amid a body.
pub fn serve_to_end<L: Link, S: Source>(
    alloc: Global,
    link: &mut L,
    store: &mut S,
    dataset: &Name,
    kept: &mut Option<Desk>,
) -> Service
    ensures ended { IfOk result.ended (λ ending. WhereTold (S.objects store.old) (λ m.
        WhereTold (L.left link.old) (λ stream.
        Gained (ServedIn m dataset.now ending stream) (L.sent link.old) (L.sent link.new)))) }
    ensures failed { result.ended ≡ Ok Ending.Failed → Rose (S.faults store.old) (S.faults store.new) }
    ensures stopped { IfErr result.ended (λ fault. WhereTold (S.objects store.old) (λ m.
        WhereTold (L.left link.old) (λ stream.
        Gained (Stopped m dataset.now 0 (failures result.failing) fault stream)
        (L.sent link.old) (L.sent link.new)))) }
    ensures failing { result.failing ≡ true → Rose (S.faults store.old) (S.faults store.new) }
    ensures stream { L.stream link.new ≡ L.stream link.old }
    ensures kept { OnlyReads (S.objects store.old) (S.objects store.new) (S.draft store.old)
        (S.draft store.new) }
    ensures history { S.history store.new ≡ S.history store.old }
    ensures cause { HasServeCause (L.faults link.old) (L.faults link.new) (S.faults store.old)
        (S.faults store.new) result.ended }
    ensures desk { IsSome kept.old → IsSome kept.new }
    ensures made { result.ended ≢ Err ServeFault.OutOfMemory → IsSome kept.new }
{
    let mut desk = match take_desk(alloc, kept) {
        Ok(desk) => desk,
        Err(OutOfMemory) => {
            return Service {
                ended: Err(ServeFault::OutOfMemory),
                failing: false,
            };
        }
    };
    let ended = serve_link(alloc, link, store, dataset, &mut desk);
    let failing = desk.writer.failing;
    *kept = Some(desk);
    Service { ended, failing }
}

/// Serves the requests of a peer for the objects of a data set, until their stream ends or a reply closes the
/// connection. The desk of an earlier connection is used again, where one is kept, and kept. What is sent is the replies to what
/// was left of the link's stream, in whatever pieces it comes.
///
/// # Errors
/// `LinkFault` and `StoreFault` only where the link or the store failed, and `OutOfMemory`. What was sent is then a
/// front of the replies; after `StoreFault` it ends amid a body.
pub fn serve_conn<L: Link, S: Source>(
    alloc: Global,
    link: &mut L,
    store: &mut S,
    dataset: &Name,
    kept: &mut Option<Desk>,
) -> Result<(), ServeFault>
    ensures served { OnOk result (WhereTold (S.objects store.old) (λ m. WhereTold (L.left link.old)
        (λ stream. Gained (Served m dataset.now (S.faults store.old) (S.faults store.new) stream)
        (L.sent link.old) (L.sent link.new)))) }
    ensures stopped { IfErr result (λ fault. WhereTold (S.objects store.old) (λ m. WhereTold (L.left link.old)
        (λ stream. Gained (Stopped m dataset.now (S.faults store.old) (S.faults store.new) fault stream)
        (L.sent link.old) (L.sent link.new)))) }
    ensures stream { L.stream link.new ≡ L.stream link.old }
    ensures kept { OnlyReads (S.objects store.old) (S.objects store.new) (S.draft store.old)
        (S.draft store.new) }
    ensures history { S.history store.new ≡ S.history store.old }
    ensures cause { HasServeCause (L.faults link.old) (L.faults link.new) (S.faults store.old)
        (S.faults store.new) result }
    ensures desk { IsSome kept.old → IsSome kept.new }
    ensures made { result ≢ Err ServeFault.OutOfMemory → IsSome kept.new }
{
    let served = serve_to_end(alloc, link, store, dataset, kept);
    match served.ended {
        Ok(_) => Ok(()),
        Err(fault) => Err(fault),
    }
}

/// A stream has one list of replies. Of ends that were served one after the other, and whose link didn't fail, no more
/// are not whole than the store's count of faults rose by, or that count is at its end.
pub fn tell_replies()
    ensures one { (m : Objects) (dataset stream out more : List ℕ) → AreReplies m dataset stream out →
        AreReplies m dataset stream more → out ≡ more }
    ensures few { (m : Objects) (dataset : List ℕ) (before now : ℕ) (ends : List Ended) →
        EndsServed m dataset before now ends
        → (most_count ≤ now) ⊎ AtMostBroken m dataset ends (now - before) }
{}
