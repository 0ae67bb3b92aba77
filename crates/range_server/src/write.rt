//! Replies to a peer.
ghost use Rattle.std.specs.Prelude.{◌≡◌, ◌≢◌, ◌+◌, ◌<◌, ◌≤◌, ◌++◌, ℕ, List, [], true, false, length, take, IfErr, IfOk, IsErrOf, OnOk};
ghost use Rattle.vol_base.specs.Calls.{ReadsFrom};
ghost use Rattle.vol_base.specs.Causes.{Rose};
ghost use Rattle.vol_base.specs.Gains.{Gains};
ghost use Rattle.range_server.specs.Bodies.{bad_bytes, Cuts, CutsReply, HasBody, IsLead, Sends, ServesFrom, WhereTold, body_in, failed_bytes, failure, failures};
ghost use Rattle.range_server.specs.Plans.{IsSound};
ghost use Rattle.range_server.specs.declared.reply.Sent.TheVariants.{Broken};
ghost use Rattle.range_server.specs.declared.fault.ServeFault.TheVariants.{LinkFault, OutOfMemory, StoreFault};

use crate::fault::ServeFault;
use crate::plan::refuse;
use crate::reply::{Reply, Sent};
use crate::send::{read_piece, send_all, send_rest};
use crate::text::write_head;
use vol_base::{Failed, Link, OutOfMemory, Source};

/// Where replies are made: the text of a head, and a piece with the head and the first bytes behind it; and whether the
/// store failed, so that the reply that says so was begun.
#[derive(Drop)]
pub(crate) struct Writer {
    pub text: String,
    pub piece: Vec<u8>,
    pub failing: bool,
}

// Puts some bytes in front.
fn put_front(piece: &mut [u8], bytes: &[u8])
    requires { length bytes.now ≤ length piece.old }
    ensures { take (length bytes.now) piece.new ≡ bytes.now }
{
    piece[..bytes.len()].copy_from_slice(bytes);
}

// Puts a reply's head in front of a piece, and as much of its body behind it as there is room for; answers how many
// bytes that makes, and how many are of the body.
fn load_lead<S: Source>(
    store: &mut S,
    reply: &Reply,
    head: &[u8],
    piece: &mut [u8],
) -> Result<(usize, u64), Failed>
    requires room { length head.now ≤ length piece.old }
    requires fits { reply.now.from + reply.now.count ≤ reply.now.total }
    ensures within { IfOk result (λ r. r.0 ≤ length piece.old) }
    ensures taken { IfOk result (λ r. r.1 ≤ reply.now.count) }
    ensures lead { IfOk result (λ r. WhereTold (S.objects store.old) (λ m. HasBody m reply.now →
        IsLead head.now (body_in m reply.now) r.1 (take r.0 piece.new))) }
    ensures reads { ReadsFrom S.Source failure store.old store.new result }
{
    let _total = reply.total;
    put_front(piece, head);
    let len = head.len();
    let Some(name) = &reply.name else {
        return Ok((len, 0));
    };
    if !reply.body {
        return Ok((len, 0));
    }
    let taken = ((piece.len() - len) as u64).min(reply.count) as usize;
    match read_piece(store, name, reply.from, &mut piece[len..len + taken]) {
        Ok(()) => Ok((len + taken, taken as u64)),
        Err(Failed) => Err(Failed),
    }
}

// Sends what was put in front of a piece, and the rest of the body.
fn send_loaded<L: Link, S: Source>(
    link: &mut L,
    store: &mut S,
    reply: &Reply,
    loaded: (usize, u64),
    piece: &mut [u8],
) -> Result<(), ServeFault>
    requires room { 0 < length piece.old }
    requires filled { loaded.0 ≤ length piece.old }
    requires taken { loaded.1 ≤ reply.now.count }
    requires fits { reply.now.from + reply.now.count ≤ reply.now.total }
    ensures sent { OnOk result (WhereTold (S.objects store.old) (λ m. HasBody m reply.now → (head : List ℕ) →
        IsLead head (body_in m reply.now) loaded.1 (take loaded.0 piece.old) →
        Gains (L.sent link.old) (L.sent link.new) (head ++ body_in m reply.now))) }
    ensures cut { IfErr result (λ fault. WhereTold (S.objects store.old) (λ m. HasBody m reply.now →
        (head : List ℕ) → IsLead head (body_in m reply.now) loaded.1 (take loaded.0 piece.old) →
        CutsReply head (body_in m reply.now) (L.sent link.old) (L.sent link.new) fault)) }
    ensures left { L.left link.new ≡ L.left link.old }
    ensures serves { ServesFrom L.Link S.Source link.old link.new store.old store.new result }
{
    let total = reply.total;
    prove!(reply.from + reply.count <= total);
    match send_all(link, &piece[..loaded.0]) {
        Ok(()) => {}
        Err(Failed) => return Err(ServeFault::LinkFault),
    }
    let Some(name) = &reply.name else {
        return Ok(());
    };
    if !reply.body {
        return Ok(());
    }
    let end = reply.from + reply.count;
    match send_rest(link, store, name, reply.from + loaded.1, end, piece) {
        Ok(()) => Ok(()),
        Err(fault) => Err(fault),
    }
}

/// Sends the reply that says that the store failed.
pub(crate) fn send_failed<L: Link>(link: &mut L, text: &mut String) -> Result<(), ServeFault>
    ensures sent { OnOk result (Gains (L.sent link.old) (L.sent link.new) failed_bytes) }
    ensures cut { IfErr result (CutsReply failed_bytes [] (L.sent link.old) (L.sent link.new)) }
    ensures store { IfErr result (λ fault. fault ≢ StoreFault) }
    ensures left { L.left link.new ≡ L.left link.old }
    ensures stream { L.stream link.new ≡ L.stream link.old }
    ensures later { L.faults link.old ≤ L.faults link.new }
    ensures cause { IsErrOf result LinkFault → Rose (L.faults link.old) (L.faults link.new) }
    ensures stands { ¬ (IsErrOf result LinkFault) → L.faults link.new ≡ L.faults link.old }
{
    match write_head(text, &refuse(500, true)) {
        Ok(()) => {}
        Err(OutOfMemory) => return Err(ServeFault::OutOfMemory),
    }
    match send_all(link, text.as_bytes()) {
        Ok(()) => Ok(()),
        Err(Failed) => Err(ServeFault::LinkFault),
    }
}

/// Sends a reply, or in its place the one that says that the store failed, where the body's first bytes can't be read.
pub(crate) fn send_reply<L: Link, S: Source>(
    link: &mut L,
    store: &mut S,
    reply: &Reply,
    writer: &mut Writer,
) -> Result<Sent, ServeFault>
    requires room { 512 ≤ length writer.old.piece.items }
    requires calm { writer.old.failing ≡ false }
    requires fits { reply.now.from + reply.now.count ≤ reply.now.total }
    ensures sent { IfOk result (λ sent. WhereTold (S.objects store.old) (λ m. HasBody m reply.now →
        Sends m reply.now (L.sent link.old) (L.sent link.new) sent)) }
    ensures broken { IfOk result (λ sent. sent ≡ Broken → Rose (S.faults store.old) (S.faults store.new)) }
    ensures cut { IfErr result (λ fault. WhereTold (S.objects store.old) (λ m. HasBody m reply.now →
        Cuts m reply.now 0 (failures writer.new.failing) (L.sent link.old) (L.sent link.new) fault)) }
    ensures calm { result ≡ Ok Sent.Whole → writer.new.failing ≡ false }
    ensures failing { writer.new.failing ≡ true → Rose (S.faults store.old) (S.faults store.new) }
    ensures room { length writer.new.piece.items ≡ length writer.old.piece.items }
    ensures left { L.left link.new ≡ L.left link.old }
    ensures serves { ServesFrom L.Link S.Source link.old link.new store.old store.new result }
{
    match write_head(&mut writer.text, reply) {
        Ok(()) => {}
        Err(OutOfMemory) => return Err(ServeFault::OutOfMemory),
    }
    match load_lead(store, reply, writer.text.as_bytes(), &mut writer.piece) {
        Ok(loaded) => match send_loaded(link, store, reply, loaded, &mut writer.piece) {
            Ok(()) => Ok(Sent::Whole),
            Err(fault) => Err(fault),
        },
        Err(Failed) => {
            writer.failing = true;
            match send_failed(link, &mut writer.text) {
                Ok(()) => Ok(Sent::Broken),
                Err(fault) => Err(fault),
            }
        }
    }
}

/// Sends the reply that says that no head came.
pub(crate) fn send_bad<L: Link>(link: &mut L, text: &mut String) -> Result<(), ServeFault>
    ensures sent { OnOk result (Gains (L.sent link.old) (L.sent link.new) bad_bytes) }
    ensures cut { IfErr result (CutsReply bad_bytes [] (L.sent link.old) (L.sent link.new)) }
    ensures store { IfErr result (λ fault. fault ≢ StoreFault) }
    ensures left { L.left link.new ≡ L.left link.old }
    ensures stream { L.stream link.new ≡ L.stream link.old }
    ensures later { L.faults link.old ≤ L.faults link.new }
    ensures cause { IsErrOf result LinkFault → Rose (L.faults link.old) (L.faults link.new) }
    ensures stands { ¬ (IsErrOf result LinkFault) → L.faults link.new ≡ L.faults link.old }
{
    match write_head(text, &refuse(400, true)) {
        Ok(()) => {}
        Err(OutOfMemory) => return Err(ServeFault::OutOfMemory),
    }
    match send_all(link, text.as_bytes()) {
        Ok(()) => Ok(()),
        Err(Failed) => Err(ServeFault::LinkFault),
    }
}
