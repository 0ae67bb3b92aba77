//! The command `serve`.
ghost use Rattle.std.specs.Prelude.{◌≡◌, ◌≤◌, ◌⊎◌, IfSome, None};
ghost use Rattle.vol_base.specs.Causes.{HasCauseOf, Rose};
ghost use Rattle.vol_base.specs.Outside.{OnlyReads};
ghost use Rattle.command_base.specs.Outlets.{outlets_of};
ghost use Rattle.serve_cmd.specs.Servings.{AcceptsEnds, Announces, doorway, IsBoundTo, NotesEnds, PortTold, ServeLeaves, ServeShows, status_of, TellsFirst};

use crate::lines::write_listening_line;
use crate::refusal::ServeRefusal;
use command_base::{Status, tell};
use range_server::{DoorRefusal, serve_ends, tell_replies};
use std::alloc::Global;
use vol_base::{Door, Name, Outlet, Source, write_all};

// Binds a port of the door, or a free one for 0, and prints it.
fn announce<O: Outlet, D: Door>(
    alloc: Global,
    out: &mut O,
    door: &mut D,
    port: u16,
) -> Result<(), ServeRefusal>
    requires { D.bound door.old ≡ None }
    ensures told { Announces result (D.bound door.new) (O.written out.old) (O.written out.new) }
    ensures bound { IsBoundTo port (D.bound door.new) }
    ensures unprinted { D.bound door.new ≡ None → out.new ≡ out.old }
    ensures served { D.served door.new ≡ D.served door.old }
    ensures accepted { D.accepted door.new ≡ D.accepted door.old }
    ensures out_cause { HasCauseOf ServeRefusal.OutFault (O.faults out.old) (O.faults out.new) result }
    ensures door_cause { HasCauseOf ServeRefusal.DoorFault (D.faults door.old) (D.faults door.new) result }
{
    let Ok(port) = door.listen(port) else {
        return Err(ServeRefusal::DoorFault);
    };
    let Ok(line) = write_listening_line(alloc, port) else {
        return Err(ServeRefusal::NoMemory);
    };
    match write_all(out, line.as_bytes()) {
        Ok(()) => Ok(()),
        Err(_) => Err(ServeRefusal::OutFault),
    }
}

// Serves the objects of a data set to so many peers, one after the other, at a port of the door, which it tells first.
fn serve<S: Source, O: Outlet, D: Door>(
    alloc: Global,
    store: &mut S,
    out: &mut O,
    door: &mut D,
    dataset: &Name,
    port: u16,
    connections: u32,
) -> Result<(), ServeRefusal>
    requires unbound { D.bound door.old ≡ None }
    requires some { 1 ≤ connections }
    ensures shows { IfSome (S.objects store.old) (λ m.
        ServeShows (status_of result) m dataset.now (doorway D.bound D.accepted D.served door.old)
        (doorway D.bound D.accepted D.served door.new) (S.faults store.old) (S.faults store.new)) }
    ensures noted { NotesEnds (doorway D.bound D.accepted D.served door.old)
        (doorway D.bound D.accepted D.served door.new) }
    ensures told { PortTold (status_of result) (D.bound door.new) (O.written out.old) (O.written out.new) }
    ensures bound { IsBoundTo port (D.bound door.new) }
    ensures unprinted { D.bound door.new ≡ None → out.new ≡ out.old }
    ensures given { AcceptsEnds (status_of result) connections (doorway D.bound D.accepted D.served door.old)
        (doorway D.bound D.accepted D.served door.new) }
    ensures first { TellsFirst (O.written out.old) (O.written out.new)
        (doorway D.bound D.accepted D.served door.old) (doorway D.bound D.accepted D.served door.new) }
    ensures kept { OnlyReads (S.objects store.old) (S.objects store.new) (S.draft store.old)
        (S.draft store.new) }
    ensures history { S.history store.new ≡ S.history store.old }
    ensures store_later { S.faults store.old ≤ S.faults store.new }
    ensures out_cause { HasCauseOf ServeRefusal.OutFault (O.faults out.old) (O.faults out.new) result }
    ensures door_cause { HasCauseOf ServeRefusal.DoorFault (D.faults door.old) (D.faults door.new) result }
{
    announce(alloc, out, door, port)?;
    tell_replies();
    match serve_ends(alloc, door, store, dataset, u64::from(connections)) {
        Ok(()) => Ok(()),
        Err(DoorRefusal::DoorFault) => Err(ServeRefusal::DoorFault),
        Err(DoorRefusal::OutOfMemory) => Err(ServeRefusal::NoMemory),
    }
}

/// The command `serve`: binds a port of the door, or a free one for 0, prints it, and serves the objects of a data set
/// to so many peers, one after the other. A refusal is told.
pub fn run_serve<S: Source, O: Outlet, E: Outlet, D: Door>(
    alloc: Global,
    store: &mut S,
    out: &mut O,
    err: &mut E,
    door: &mut D,
    dataset: &Name,
    port: u16,
    connections: u32,
) -> Status
    requires unbound { D.bound door.old ≡ None }
    requires some { 1 ≤ connections }
    ensures shows { IfSome (S.objects store.old) (λ m.
        ServeShows result m dataset.now (doorway D.bound D.accepted D.served door.old)
        (doorway D.bound D.accepted D.served door.new) (S.faults store.old) (S.faults store.new)) }
    ensures noted { NotesEnds (doorway D.bound D.accepted D.served door.old)
        (doorway D.bound D.accepted D.served door.new) }
    ensures leaves { ServeLeaves result port (D.bound door.new)
        (outlets_of O.written O.faults E.written E.faults out.old out.new err.old err.new) }
    ensures given { AcceptsEnds result connections (doorway D.bound D.accepted D.served door.old)
        (doorway D.bound D.accepted D.served door.new) }
    ensures first { TellsFirst (O.written out.old) (O.written out.new)
        (doorway D.bound D.accepted D.served door.old) (doorway D.bound D.accepted D.served door.new) }
    // Where no port is bound, no output is called.
    ensures unprinted { D.bound door.new ≡ None → out.new ≡ out.old }
    ensures complete { (Rose (D.faults door.old) (D.faults door.new) → ⊥) →
        (Rose (O.faults out.old) (O.faults out.new) → ⊥)
        → (result ≡ Status.Ok) ⊎ (result ≡ Status.NoMemory) }
    ensures kept { OnlyReads (S.objects store.old) (S.objects store.new) (S.draft store.old)
        (S.draft store.new) }
    ensures history { S.history store.new ≡ S.history store.old }
    ensures store_later { S.faults store.old ≤ S.faults store.new }
    ensures out_later { O.faults out.old ≤ O.faults out.new }
    ensures err_later { E.faults err.old ≤ E.faults err.new }
    ensures door_later { D.faults door.old ≤ D.faults door.new }
    ensures quiet { result ≡ Status.Ok → E.faults err.new ≡ E.faults err.old }
    ensures out_fault { result ≡ Status.OutFault → Rose (O.faults out.old) (O.faults out.new) }
    ensures out_stands { result ≡ Status.Ok → O.faults out.new ≡ O.faults out.old }
    ensures door_fault { result ≡ Status.DoorFault → Rose (D.faults door.old) (D.faults door.new) }
    ensures door_stands { result ≡ Status.Ok → D.faults door.new ≡ D.faults door.old }
{
    match serve(alloc, store, out, door, dataset, port, connections) {
        Ok(()) => Status::Ok,
        Err(refusal) => {
            let status = refusal.status();
            tell(err, status);
            status
        }
    }
}
