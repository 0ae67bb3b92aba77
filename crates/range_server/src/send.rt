//! Bytes to a peer.
ghost use Rattle.std.specs.Prelude.{◌≡◌, ◌≢◌, ◌+◌, ◌-◌, ◌<◌, ◌≤◌, ◌^◌, IfErr, length, Some, OnOk, OnErr};
ghost use Rattle.vol_base.specs.Calls.{ReadsFrom};
ghost use Rattle.vol_base.specs.Causes.{HasCause};
ghost use Rattle.vol_base.specs.Outside.{part};
ghost use Rattle.range_server.specs.declared.fault.ServeFault.TheVariants.{OutOfMemory};
ghost use Rattle.vol_base.specs.Gains.{Gains, GainsFront};
ghost use Rattle.range_server.specs.Bodies.{CutsPart, IsPiece, SendsPart, ServesFrom, WhereTold, failure, object_in};

use crate::fault::ServeFault;
use vol_base::{Failed, Got, Link, Name, Source};

/// Sends all the bytes.
pub(crate) fn send_all<L: Link>(link: &mut L, bytes: &[u8]) -> Result<(), Failed>
    ensures sent { OnOk result (Gains (L.sent link.old) (L.sent link.new) bytes.now) }
    ensures front { OnErr result (GainsFront (L.sent link.old) (L.sent link.new) bytes.now) }
    ensures left { L.left link.new ≡ L.left link.old }
    ensures stream { L.stream link.new ≡ L.stream link.old }
    ensures cause { HasCause (L.faults link.old) (L.faults link.new) result }
{
    let mut done = 0;
    while done < bytes.len() {
        match link.send(&bytes[done..]) {
            Ok(n) => done += n,
            Err(failed) => return Err(failed),
        }
    }
    Ok(())
}

/// Fills a piece with the bytes of an object from a place on. What a store that tells nothing leaves out is zero.
pub(crate) fn read_piece<S: Source>(
    store: &mut S,
    name: &Name,
    at: u64,
    out: &mut [u8],
) -> Result<(), Failed>
    requires { at + length out.old < 2 ^ 64 }
    ensures bytes { OnOk result (WhereTold (S.objects store.old) (λ m.
        IsPiece (object_in m (Some name.now)) at out.old out.new)) }
    ensures reads { ReadsFrom S.Source failure store.old store.new result }
{
    let given = match store.read_at(name, at, out)? {
        Got::Absent => 0,
        Got::Bytes(n) => n as usize,
    };
    out[given..].fill(0);
    Ok(())
}

// Sends as many bytes of an object from a place on as the piece has room for.
fn send_piece<L: Link, S: Source>(
    link: &mut L,
    store: &mut S,
    name: &Name,
    at: u64,
    piece: &mut [u8],
) -> Result<(), ServeFault>
    requires some { 0 < length piece.old }
    requires within { at + length piece.old < 2 ^ 64 }
    ensures sent { OnOk result (WhereTold (S.objects store.old) (λ m.
        SendsPart (object_in m (Some name.now)) at (length piece.old) (L.sent link.old) (L.sent link.new))) }
    ensures cut { IfErr result (λ fault. WhereTold (S.objects store.old) (λ m.
        CutsPart (object_in m (Some name.now)) at (length piece.old) (L.sent link.old)
        (L.sent link.new) fault)) }
    ensures memory { IfErr result (λ fault. fault ≢ OutOfMemory) }
    ensures left { L.left link.new ≡ L.left link.old }
    ensures serves { ServesFrom L.Link S.Source link.old link.new store.old store.new result }
{
    match read_piece(store, name, at, piece) {
        Ok(()) => {}
        Err(Failed) => return Err(ServeFault::StoreFault),
    }
    match send_all(link, piece) {
        Ok(()) => Ok(()),
        Err(Failed) => Err(ServeFault::LinkFault),
    }
}

/// Sends the bytes of an object from a place up to another, piece by piece.
pub(crate) fn send_rest<L: Link, S: Source>(
    link: &mut L,
    store: &mut S,
    name: &Name,
    from: u64,
    end: u64,
    piece: &mut [u8],
) -> Result<(), ServeFault>
    requires room { 0 < length piece.old }
    requires order { from ≤ end }
    ensures sent { OnOk result (WhereTold (S.objects store.old) (λ m.
        SendsPart (object_in m (Some name.now)) from (end - from) (L.sent link.old) (L.sent link.new))) }
    ensures cut { IfErr result (λ fault. WhereTold (S.objects store.old) (λ m.
        CutsPart (object_in m (Some name.now)) from (end - from) (L.sent link.old) (L.sent link.new) fault)) }
    ensures memory { IfErr result (λ fault. fault ≢ OutOfMemory) }
    ensures left { L.left link.new ≡ L.left link.old }
    ensures serves { ServesFrom L.Link S.Source link.old link.new store.old store.new result }
{
    let mut at = from;
    while at < end {
        let n = (piece.len() as u64).min(end - at) as usize;
        match send_piece(link, store, name, at, &mut piece[..n]) {
            Ok(()) => at += n as u64,
            Err(fault) => return Err(fault),
        }
    }
    Ok(())
}
