//! The ends of a door, served one after the other.
ghost use Rattle.std.specs.Prelude.{◌≡◌, ◌≢◌, ◌+◌, ◌≤◌, ◌++◌, List, length, Err, Some, IfErr, IsSome, MatchBool, OnOk};
ghost use Rattle.vol_base.specs.Causes.{HasCauseOf};
ghost use Rattle.vol_base.specs.Outside.{Ended, OnlyReads};
ghost use Rattle.range_server.specs.Bodies.{WhereTold};
ghost use Rattle.range_server.specs.Serving.{AddsBy, AddsEnd, AddsServed, EndServed, EndsBy, GaveBefore, NotesGiven};
ghost use Rattle.range_server.specs.declared.fault.DoorRefusal.TheVariants.{DoorFault};
ghost use Rattle.range_server.specs.declared.fault.ServeFault.TheVariants.{OutOfMemory};

use crate::fault::{DoorRefusal, ServeFault};
use crate::room::Desk;
use crate::serve::serve_conn;
use std::alloc::Global;
use vol_base::{Door, Failed, Name, Source};

// Whether memory ran out.
fn ran_out(served: Result<(), ServeFault>) -> bool
    ensures { MatchBool result (served ≡ Err OutOfMemory) (served ≢ Err OutOfMemory) }
{
    match served {
        Ok(()) | Err(ServeFault::LinkFault) | Err(ServeFault::StoreFault) => false,
        Err(ServeFault::OutOfMemory) => true,
    }
}

// Serves the next peer, and drops the connection.
fn serve_end<D: Door, S: Source>(
    alloc: Global,
    door: &mut D,
    store: &mut S,
    dataset: &Name,
    kept: &mut Option<Desk>,
) -> Result<(), DoorRefusal>
    requires { IsSome (D.bound door.old) }
    ensures served { OnOk result (WhereTold (S.objects store.old) (λ m. WhereTold (D.served door.old)
        (λ list. AddsEnd list (D.served door.new) (EndServed m dataset.now (S.faults store.old)
        (S.faults store.new))))) }
    ensures cut { IfErr result (λ refusal. WhereTold (S.objects store.old) (λ m. WhereTold (D.served door.old)
        (λ list. AddsBy m dataset.now refusal (S.faults store.old) (S.faults store.new) list
        (D.served door.new)))) }
    ensures accepted { OnOk result (D.accepted door.new ≡ D.accepted door.old + 1) }
    ensures refused { IfErr result (λ refusal. GaveBefore refusal 1 (D.accepted door.old)
        (D.accepted door.new)) }
    ensures noted { NotesGiven (D.served door.old) (D.served door.new) (D.accepted door.old)
        (D.accepted door.new) }
    ensures bound { D.bound door.new ≡ D.bound door.old }
    ensures kept { OnlyReads (S.objects store.old) (S.objects store.new) (S.draft store.old)
        (S.draft store.new) }
    ensures history { S.history store.new ≡ S.history store.old }
    ensures store_later { S.faults store.old ≤ S.faults store.new }
    ensures cause { HasCauseOf DoorFault (D.faults door.old) (D.faults door.new) result }
{
    let mut end = match door.accept() {
        Ok(end) => end,
        Err(Failed) => return Err(DoorRefusal::DoorFault),
    };
    let served = serve_conn(alloc, &mut end, store, dataset, kept);
    door.close(end);
    if ran_out(served) {
        return Err(DoorRefusal::OutOfMemory);
    }
    Ok(())
}

/// Serves so many peers, one after the other. A fault of a link or of the store ends that connection alone.
///
/// # Errors
/// `DoorFault` only where the door failed, before all were accepted, and `OutOfMemory`, which ends the last of them.
pub fn serve_ends<D: Door, S: Source>(
    alloc: Global,
    door: &mut D,
    store: &mut S,
    dataset: &Name,
    connections: u64,
) -> Result<(), DoorRefusal>
    requires { IsSome (D.bound door.old) }
    ensures served { OnOk result (WhereTold (S.objects store.old) (λ m. WhereTold (D.served door.old)
        (λ list. AddsServed m dataset.now connections (S.faults store.old) (S.faults store.new) list
        (D.served door.new)))) }
    ensures cut { IfErr result (λ refusal. WhereTold (S.objects store.old) (λ m. WhereTold (D.served door.old)
        (λ list. (ends : List Ended) × (D.served door.new ≡ Some (list ++ ends)) ×
        (D.accepted door.new ≡ D.accepted door.old + length ends)
        × EndsBy m dataset.now refusal connections (S.faults store.old) (S.faults store.new) ends))) }
    ensures accepted { OnOk result (D.accepted door.new ≡ D.accepted door.old + connections) }
    ensures refused { IfErr result (λ refusal. GaveBefore refusal connections (D.accepted door.old)
        (D.accepted door.new)) }
    ensures noted { NotesGiven (D.served door.old) (D.served door.new) (D.accepted door.old)
        (D.accepted door.new) }
    ensures bound { D.bound door.new ≡ D.bound door.old }
    ensures kept { OnlyReads (S.objects store.old) (S.objects store.new) (S.draft store.old)
        (S.draft store.new) }
    ensures history { S.history store.new ≡ S.history store.old }
    ensures store_later { S.faults store.old ≤ S.faults store.new }
    ensures cause { HasCauseOf DoorFault (D.faults door.old) (D.faults door.new) result }
{
    let mut kept = None;
    for _ in 0..connections {
        match serve_end(alloc, door, store, dataset, &mut kept) {
            Ok(()) => {}
            Err(refusal) => return Err(refusal),
        }
    }
    Ok(())
}
