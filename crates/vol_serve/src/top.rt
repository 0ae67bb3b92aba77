//! The top call.
ghost use Rattle.std.specs.Prelude.{◌≡◌, ◌≢◌, ◌↔◌, ◌-◌, ◌≤◌, [], List, None, IfSome, length, map, string_bytes};
ghost use Rattle.vol_base.specs.Causes.{Rose};
ghost use Rattle.command_base.specs.Outlets.{outlets_of};
ghost use Rattle.command_base.specs.Statuses.{fixed_line};
ghost use Rattle.hall.specs.Halls.{EachServed, HasExactly, NoneFell, numbers_of};
ghost use Rattle.serve_cmd.specs.Servings.{IsBoundTo, PortTold, SaysFixed};
ghost use Rattle.vol_serve.specs.Statuses.{Accepted, GivesLater, as_status, ended_by, lacks_memory, refused_by};
ghost use Rattle.vol_serve.specs.Words.{KeepsLimits, hall_line};

use crate::announce::announce;
use crate::status::HallStatus;
use crate::words::{Serving, read_words};
use command_base::tell;
use hall::{Entrance, Exit, Finish, HallEnd, run_hall};
use serve_cmd::ServeRefusal;
use std::alloc::Global;
use std::sync::Wait;
use std::thread::Threads;
use vol_base::{Gate, Outlet, Source};

/// How serving ended, and the entrance, the exit and the stores that it used.
#[derive(Drop)]
pub struct Closing<D: Drop, X: Drop, S: Drop> {
    pub status: HallStatus,
    pub entrance: D,
    pub exit: X,
    pub stores: Vec<S>,
}

// How it ends where the port couldn't be told.
fn refused(refusal: ServeRefusal) -> HallStatus
    ensures { result ≡ refused_by refusal }
{
    match refusal {
        ServeRefusal::OutFault => HallStatus::OutFault,
        ServeRefusal::NoMemory => HallStatus::NoMemory,
        ServeRefusal::DoorFault => HallStatus::DoorFault,
    }
}

// How it ends by how serving did.
fn ended(end: HallEnd) -> HallStatus
    ensures { result ≡ ended_by end }
{
    match end {
        HallEnd::All => HallStatus::Ok,
        HallEnd::DoorFault => HallStatus::DoorFault,
        HallEnd::OutOfMemory => HallStatus::NoMemory,
    }
}

// Binds a port, which is told, and serves.
fn serve<
    R,
    D: Entrance + Drop + Send,
    X: Exit<D::End> + Drop + Send,
    S: Source + Drop + Send,
    O: Outlet,
    G: Gate + Sync,
>(
    rt: &R,
    alloc: Global,
    serving: &Serving,
    entrance: D,
    exit: X,
    stores: Vec<S>,
    out: &mut O,
    gate: &G,
) -> Closing<D, X, S>
where
    R: Threads + Wait + Sync,
    D::End: Send,
    requires unbound { D.bound entrance ≡ None }
    requires noted { IfSome (X.served exit) (λ list. list ≡ []) }
    requires stores { length stores.items ≡ 16 }
    requires limits { KeepsLimits (Some serving.now) }
    ensures other { result.status ≢ HallStatus.Usage }
    ensures given { Accepted result.status serving.now.connections (D.faults entrance) (D.faults result.entrance)
        (D.accepted result.entrance - D.accepted entrance) }
    ensures more { D.accepted entrance ≤ D.accepted result.entrance }
    ensures exact { IfSome (X.served result.exit) (λ list.
        HasExactly (D.accepted result.entrance - D.accepted entrance) (numbers_of list)) }
    ensures each { EachServed (map S.objects stores.items) serving.now.dataset (lacks_memory result.status)
        (X.served result.exit) (map S.faults stores.items) (map S.faults result.stores.items) }
    ensures stores_later { NoneFell (map S.faults stores.items) (map S.faults result.stores.items) }
    ensures told { PortTold (as_status result.status) (D.bound result.entrance) (O.written out.old)
        (O.written out.new) }
    ensures first { GivesLater (O.written out.old) (O.written out.new) (D.accepted entrance)
        (D.accepted result.entrance) }
    ensures bound { IsBoundTo serving.now.port (D.bound result.entrance) }
    ensures kept { map S.objects result.stores.items ≡ map S.objects stores.items }
    ensures draft { map S.draft result.stores.items ≡ map S.draft stores.items }
    ensures out_later { O.faults out.old ≤ O.faults out.new }
    ensures out_fault { result.status ≡ HallStatus.OutFault → Rose (O.faults out.old) (O.faults out.new) }
    ensures out_stands { result.status ≡ HallStatus.Ok → O.faults out.new ≡ O.faults out.old }
    ensures later { D.faults entrance ≤ D.faults result.entrance }
    ensures fault { result.status ≡ HallStatus.DoorFault →
        Rose (D.faults entrance) (D.faults result.entrance) }
    ensures stands { result.status ≡ HallStatus.Ok → D.faults result.entrance ≡ D.faults entrance }
{
    let mut entrance = entrance;
    match announce(alloc, out, &mut entrance, serving.port) {
        Ok(()) => {
            let Finish {
                end,
                entrance,
                exit,
                stores,
            } = run_hall(
                rt,
                alloc,
                entrance,
                exit,
                stores,
                &serving.dataset,
                serving.connections,
                serving.workers,
                gate,
            );
            Closing {
                status: ended(end),
                entrance,
                exit,
                stores,
            }
        }
        Err(refusal) => Closing {
            status: refused(refusal),
            entrance,
            exit,
            stores,
        },
    }
}

/// Serves the objects of a data set, as the words say, to so many peers of an entrance by so many workers at once, each with
/// a store of its own; the port is printed first. How it ends is told.
pub fn serve_all<
    R,
    D: Entrance + Drop + Send,
    X: Exit<D::End> + Drop + Send,
    S: Source + Drop + Send,
    O: Outlet,
    E: Outlet,
    G: Gate + Sync,
>(
    rt: &R,
    alloc: Global,
    words: &[String],
    entrance: D,
    exit: X,
    stores: Vec<S>,
    out: &mut O,
    err: &mut E,
    gate: &G,
) -> Closing<D, X, S>
where
    R: Threads + Wait + Sync,
    D::End: Send,
    requires unbound { D.bound entrance ≡ None }
    requires noted { IfSome (X.served exit) (λ list. list ≡ []) }
    requires stores { length stores.items ≡ 16 }
    ensures usage { (result.status ≡ HallStatus.Usage) ↔ (hall_line (map string_bytes words.now) ≡ None) }
    ensures given { IfSome (hall_line (map string_bytes words.now)) (λ serving.
        Accepted result.status serving.connections (D.faults entrance) (D.faults result.entrance)
        (D.accepted result.entrance - D.accepted entrance)) }
    ensures more { D.accepted entrance ≤ D.accepted result.entrance }
    ensures exact { IfSome (X.served result.exit) (λ list.
        HasExactly (D.accepted result.entrance - D.accepted entrance) (numbers_of list)) }
    ensures each { IfSome (hall_line (map string_bytes words.now)) (λ serving.
        EachServed (map S.objects stores.items) serving.dataset (lacks_memory result.status)
        (X.served result.exit) (map S.faults stores.items) (map S.faults result.stores.items)) }
    ensures stores_later { NoneFell (map S.faults stores.items) (map S.faults result.stores.items) }
    ensures told { IfSome (hall_line (map string_bytes words.now)) (λ _.
        PortTold (as_status result.status) (D.bound result.entrance) (O.written out.old) (O.written out.new)) }
    ensures first { GivesLater (O.written out.old) (O.written out.new) (D.accepted entrance)
        (D.accepted result.entrance) }
    ensures bound { IfSome (hall_line (map string_bytes words.now)) (λ serving.
        IsBoundTo serving.port (D.bound result.entrance)) }
    ensures untouched { result.status ≡ HallStatus.Usage → (out.new ≡ out.old) × (result.entrance ≡ entrance)
        × (result.exit ≡ exit) × (result.stores ≡ stores) }
    ensures says { SaysFixed (fixed_line (as_status result.status))
        (outlets_of O.written O.faults E.written E.faults out.old out.new err.old err.new) }
    ensures kept { map S.objects result.stores.items ≡ map S.objects stores.items }
    ensures draft { map S.draft result.stores.items ≡ map S.draft stores.items }
    ensures out_later { O.faults out.old ≤ O.faults out.new }
    ensures err_later { E.faults err.old ≤ E.faults err.new }
    ensures quiet { result.status ≡ HallStatus.Ok → E.faults err.new ≡ E.faults err.old }
    ensures out_fault { result.status ≡ HallStatus.OutFault → Rose (O.faults out.old) (O.faults out.new) }
    ensures out_stands { result.status ≡ HallStatus.Ok → O.faults out.new ≡ O.faults out.old }
    ensures later { D.faults entrance ≤ D.faults result.entrance }
    ensures fault { result.status ≡ HallStatus.DoorFault →
        Rose (D.faults entrance) (D.faults result.entrance) }
    ensures stands { result.status ≡ HallStatus.Ok → D.faults result.entrance ≡ D.faults entrance }
{
    let Some(serving) = read_words(words) else {
        tell(err, HallStatus::Usage.status());
        return Closing {
            status: HallStatus::Usage,
            entrance,
            exit,
            stores,
        };
    };
    let closing = serve(rt, alloc, &serving, entrance, exit, stores, out, gate);
    if closing.status != HallStatus::Ok {
        tell(err, closing.status.status());
    }
    closing
}
