//! One request, answered.
ghost use Rattle.std.specs.Prelude.{◌≡◌, ◌≤◌, ℕ, List, true, false, length, IfErr, IfOk, IsSome};
ghost use Rattle.httparse.specs.Grammar.{ReadsRequest, RequestHead};
ghost use Rattle.httparse.specs.Spans.{IsRequestOf, IsRequestWithin};
ghost use Rattle.vol_base.specs.Causes.{Rose};
ghost use Rattle.range_server.specs.Bodies.{Cuts, ServesFrom, WhereTold, failures};
ghost use Rattle.range_server.specs.Replies.{Answered, planned_at};

use crate::fault::ServeFault;
use crate::plan::plan_numbered;
use crate::reply::{Ending, Sent};
use crate::write::{Writer, send_failed, send_reply};
use httparse::spans::{HeaderSpan, RequestSpans};
use std::alloc::Global;
use vol_base::{Link, Name, Source, StoreRefusal};

/// A head at the front of what was received, by its parts.
#[derive(Clone, Copy)]
pub(crate) struct Found<'a> {
    pub received: &'a [u8],
    pub spans: &'a [HeaderSpan],
    pub parts: RequestSpans,
}

/// Answers a request, by its number from 0 on; tells how the connection ends there, or None where it goes on.
pub(crate) fn answer_head<L: Link, S: Source>(
    alloc: Global,
    link: &mut L,
    store: &mut S,
    dataset: &Name,
    number: u64,
    found: Found<'_>,
    writer: &mut Writer,
) -> Result<Option<Ending>, ServeFault>
    requires within { IsRequestWithin found.received.now found.spans.now found.parts }
    requires parts { IsRequestOf found.received.now found.spans.now found.parts }
    requires few { length found.spans.now ≤ 4096 }
    requires short { length found.received.now ≤ 8192 }
    requires room { 512 ≤ length writer.old.piece.items }
    requires calm { writer.old.failing ≡ false }
    ensures answered { IfOk result (λ ending. WhereTold (S.objects store.old) (λ m.
        (head : RequestHead) (rest : List ℕ) → ReadsRequest found.entry.received.now head rest
        → Answered m dataset.now number head (L.sent link.old) (L.sent link.new) ending)) }
    ensures failed { result ≡ Ok (Some Ending.Failed) → Rose (S.faults store.old) (S.faults store.new) }
    ensures last { IfOk result (λ ending. number ≡ 65535 → IsSome ending) }
    ensures cut { IfErr result (λ fault. WhereTold (S.objects store.old) (λ m.
        (head : RequestHead) (rest : List ℕ) → ReadsRequest found.entry.received.now head rest
        → Cuts m (planned_at m dataset.now number head) 0 (failures writer.new.failing)
        (L.sent link.old) (L.sent link.new) fault)) }
    ensures calm { result ≡ Ok None → writer.new.failing ≡ false }
    ensures failing { writer.new.failing ≡ true → Rose (S.faults store.old) (S.faults store.new) }
    ensures room { length writer.new.piece.items ≡ length writer.old.piece.items }
    ensures left { L.left link.new ≡ L.left link.old }
    ensures serves { ServesFrom L.Link S.Source link.old link.new store.old store.new result }
{
    match plan_numbered(
        number,
        alloc,
        found.received,
        found.spans,
        &found.parts,
        store,
        dataset,
    ) {
        Ok(reply) => match send_reply(link, store, &reply, writer) {
            Ok(Sent::Whole) if reply.close => Ok(Some(Ending::Whole)),
            Ok(Sent::Whole) => Ok(None),
            Ok(Sent::Broken) => Ok(Some(Ending::Failed)),
            Err(fault) => Err(fault),
        },
        Err(StoreRefusal::Failed) => {
            writer.failing = true;
            match send_failed(link, &mut writer.text) {
                Ok(()) => Ok(Some(Ending::Failed)),
                Err(fault) => Err(fault),
            }
        }
        Err(StoreRefusal::OutOfMemory) => Err(ServeFault::OutOfMemory),
    }
}
