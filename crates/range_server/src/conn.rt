//! A connection.
ghost use Rattle.std.specs.Prelude.{◌≡◌, ◌≢◌, ◌-◌, ◌≤◌, ◌<◌, true, false, length, take, drop, IfErr, IfOk, IfSome};
ghost use Rattle.request_heads.specs.Heads.{pending};
ghost use Rattle.request_heads.specs.Answers.{HasParts, IsNext};
ghost use Rattle.vol_base.specs.Causes.{HasCause, Rose};
ghost use Rattle.range_server.specs.Bodies.{ServesFrom, WhereTold, failures};
ghost use Rattle.range_server.specs.Replies.{EndsIn, Gained, GoesOn, ServedIn, Stopped, Stops};
ghost use Rattle.range_server.specs.Turns.{IfEnd, IfNext};

use crate::answer::{Found, answer_head};
use crate::fault::ServeFault;
use crate::reply::Ending;
use crate::room::Desk;
use crate::write::send_bad;
use request_heads::{Next, read_head};
use std::alloc::Global;
use vol_base::{Failed, Link, Name, Source};

/// What comes behind a request: the next one, of which so many bytes stand in front of those that are to be received, or
/// the connection's end.
#[derive(Clone, Copy)]
pub(crate) enum Turn {
    Next(usize),
    End(Ending),
}

// Drops so many bytes from the front of those that were received; the others come in front.
fn consume(buffer: &mut [u8], there: usize, len: usize)
    requires within { there ≤ length buffer.old }
    requires front { len ≤ there }
    ensures { take (there - len) buffer.new ≡ drop len (take there buffer.old) }
{
    buffer[..there].rotate_left(len);
}

fn drop_head(desk: &mut Desk, there: usize, len: usize)
    requires within { there ≤ 8192 }
    requires front { len ≤ there }
    ensures rest { take (there - len) desk.new.received.items
        ≡ drop len (take there desk.old.received.items) }
    ensures failing { desk.new.writer.failing ≡ desk.old.writer.failing }
{
    consume(desk.received.as_mut_slice(), there, len);
}

// Waits for the next head, where so many bytes stand in front of those that are to be received.
fn wait_head<L: Link>(link: &mut L, len: usize, desk: &mut Desk) -> Result<(Next, usize), Failed>
    requires within { len ≤ 8192 }
    ensures within { IfOk result (λ r. r.1 ≤ 8192) }
    ensures next { IfOk result (λ r. IfSome (pending desk.old.received.items len (L.left link.old)) (λ stream.
        IsNext stream r.0)) }
    ensures parts { IfOk result (λ r. HasParts (take r.1 desk.new.received.items) desk.new.spans.items r.0) }
    ensures pending { IfOk result (λ r. pending desk.new.received.items r.1 (L.left link.new)
        ≡ pending desk.old.received.items len (L.left link.old)) }
    ensures failing { desk.new.writer.failing ≡ desk.old.writer.failing }
    ensures sent { L.sent link.new ≡ L.sent link.old }
    ensures stream { L.stream link.new ≡ L.stream link.old }
    ensures cause { HasCause (L.faults link.old) (L.faults link.new) result }
{
    let received = desk.received.as_mut_slice();
    read_head(link, received, len, desk.spans.as_mut_slice())
}

/// Serves one request, where so many bytes stand in front of those that are to be received; tells what comes behind it.
fn serve_one<L: Link, S: Source>(
    alloc: Global,
    link: &mut L,
    store: &mut S,
    dataset: &Name,
    number: u64,
    len: usize,
    desk: &mut Desk,
) -> Result<Turn, ServeFault>
    requires calm { desk.old.writer.failing ≡ false }
    requires within { len ≤ 8192 }
    ensures within { IfOk result (λ turn. IfNext turn (λ more. more ≤ 8192)) }
    ensures last { IfOk result (λ turn. IfNext turn (λ _. number ≢ 65535)) }
    ensures goes_on { IfOk result (λ turn. IfNext turn (λ more.
        WhereTold (S.objects store.old) (λ m. WhereTold
        (pending desk.old.received.items len (L.left link.old))
        (λ rest. GoesOn m dataset.now number rest (L.sent link.old) (L.sent link.new)
        (pending desk.new.received.items more (L.left link.new)))))) }
    ensures ends { IfOk result (λ turn. IfEnd turn (λ ending.
        WhereTold (S.objects store.old) (λ m. WhereTold
        (pending desk.old.received.items len (L.left link.old))
        (λ rest. Gained (EndsIn m dataset.now ending number rest) (L.sent link.old) (L.sent link.new))))) }
    ensures failed { result ≡ Ok (Turn.End Ending.Failed) → Rose (S.faults store.old) (S.faults store.new) }
    ensures stops { IfErr result (λ fault. WhereTold (S.objects store.old) (λ m.
        WhereTold (pending desk.old.received.items len (L.left link.old))
        (λ rest. Gained (Stops m dataset.now 0 (failures desk.new.writer.failing) fault number rest)
        (L.sent link.old) (L.sent link.new)))) }
    ensures calm { IfOk result (λ turn. IfNext turn (λ _. desk.new.writer.failing ≡ false)) }
    ensures failing { desk.new.writer.failing ≡ true → Rose (S.faults store.old) (S.faults store.new) }
    ensures serves { ServesFrom L.Link S.Source link.old link.new store.old store.new result }
{
    let (next, there) = match wait_head(link, len, desk) {
        Ok(found) => found,
        Err(Failed) => return Err(ServeFault::LinkFault),
    };
    let parts = match next {
        Next::Head(parts) => parts,
        Next::End => return Ok(Turn::End(Ending::Whole)),
        Next::Bad => {
            return match send_bad(link, &mut desk.writer.text) {
                Ok(()) => Ok(Turn::End(Ending::Whole)),
                Err(fault) => Err(fault),
            };
        }
    };
    let found = Found {
        received: &desk.received.as_slice()[..there],
        spans: desk.spans.as_slice(),
        parts,
    };
    match answer_head(alloc, link, store, dataset, number, found, &mut desk.writer) {
        Ok(None) => {
            drop_head(desk, there, parts.len);
            Ok(Turn::Next(there - parts.len))
        }
        Ok(Some(ending)) => Ok(Turn::End(ending)),
        Err(fault) => Err(fault),
    }
}

/// Serves the requests of a peer, one after the other, and tells how that ended. The desk then says whether the reply was begun
/// that says that the store failed.
pub(crate) fn serve_link<L: Link, S: Source>(
    alloc: Global,
    link: &mut L,
    store: &mut S,
    dataset: &Name,
    desk: &mut Desk,
) -> Result<Ending, ServeFault>
    requires calm { desk.old.writer.failing ≡ false }
    ensures ended { IfOk result (λ ending. WhereTold (S.objects store.old) (λ m. WhereTold (L.left link.old)
        (λ stream. Gained (ServedIn m dataset.now ending stream) (L.sent link.old) (L.sent link.new)))) }
    ensures failed { result ≡ Ok Ending.Failed → Rose (S.faults store.old) (S.faults store.new) }
    ensures stopped { IfErr result (λ fault. WhereTold (S.objects store.old) (λ m. WhereTold (L.left link.old)
        (λ stream. Gained (Stopped m dataset.now 0 (failures desk.new.writer.failing) fault stream)
        (L.sent link.old) (L.sent link.new)))) }
    ensures failing { desk.new.writer.failing ≡ true → Rose (S.faults store.old) (S.faults store.new) }
    ensures serves { ServesFrom L.Link S.Source link.old link.new store.old store.new result }
{
    let mut len = 0;
    for number in 0..65536 {
        match serve_one(alloc, link, store, dataset, number, len, desk) {
            Ok(Turn::Next(more)) => len = more,
            Ok(Turn::End(ending)) => return Ok(ending),
            Err(fault) => return Err(fault),
        }
    }
    unreachable!()
}
