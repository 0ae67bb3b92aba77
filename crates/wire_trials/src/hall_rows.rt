//! Two peers in memory, served by one, two and three workers.
ghost use Rattle.std.specs.Prelude.{◌≡◌, ◌<◌, ◌≤◌, IfOk, IsSome, None, length};
ghost use Rattle.vol_base.specs.Peers.{IsFresh};

use hall::{Doorway, Entrance, Finish, HallEnd, MemoryExit, run_hall};
use memory_rows::{name_of, store_of};
use std::alloc::Global;
use std::process::Abort;
use std::sync::Wait;
use std::test::Fail;
use std::thread::Threads;
use vol_base::{FreeGate, MemoryDoor, MemoryLink, MemoryStore};

const OBJECTS: &[(&str, &[u8])] = &[("d/s/x", b"0123456789")];

const PART: &[u8] = b"GET /s/x HTTP/1.1\r\nHost: a\r\nRange: bytes=2-4\r\n\r\n";

const PART_REPLY: &[u8] =
    b"HTTP/1.1 206 Partial Content\r\nContent-Length: 3\r\nContent-Type: application/octet-stream\r\nAccept-Ranges: bytes\r\nAccess-Control-Allow-Origin: *\r\nContent-Range: bytes 2-4/10\r\n\r\n234";

const FAILED_REPLY: &[u8] =
    b"HTTP/1.1 500 Internal Server Error\r\nContent-Length: 0\r\nContent-Type: application/octet-stream\r\nAccept-Ranges: bytes\r\nAccess-Control-Allow-Origin: *\r\nConnection: close\r\n\r\n";

// What a link takes of the reply in one call.
const FRONT: &[u8] = b"HTTP/1.1 206 Partial Content\r\nContent-Length: 3\r\nContent-Type: a";

// The numbers of the calls that fail of the entrance, of the first peer's link, of the second's and of each store; then how
// serving ends, how many ends are closed, how many of them got the whole reply, and what the others got.
#[derive(Clone, Copy)]
struct Row<'a> {
    door: &'a [u64],
    first: &'a [u64],
    second: &'a [u64],
    store: &'a [u64],
    end: HallEnd,
    closed: usize,
    whole: usize,
    cut: &'a [u8],
}

const BOTH: Row = Row {
    door: &[],
    first: &[],
    second: &[],
    store: &[],
    end: HallEnd::All,
    closed: 2,
    whole: 2,
    cut: &[],
};

// Each call of each store fails.
const WITHOUT_STORE: Row = Row {
    store: &[0, 1, 2, 3, 4, 5, 6, 7],
    whole: 0,
    cut: FAILED_REPLY,
    ..BOTH
};

// Calls of the entrance: 0 binds the port, 1 and 2 accept. Calls of a link, each of at most 64 bytes: 0 receives the
// request, and those behind it send the reply.
const ROWS: &[Row] = &[
    BOTH,
    Row {
        door: &[1],
        end: HallEnd::DoorFault,
        closed: 0,
        whole: 0,
        ..BOTH
    },
    Row {
        door: &[2],
        end: HallEnd::DoorFault,
        closed: 1,
        whole: 1,
        ..BOTH
    },
    Row {
        first: &[0],
        whole: 1,
        ..BOTH
    },
    Row {
        second: &[1],
        whole: 1,
        ..BOTH
    },
    Row {
        first: &[2],
        whole: 1,
        cut: FRONT,
        ..BOTH
    },
    Row {
        first: &[2],
        second: &[2],
        whole: 0,
        cut: FRONT,
        ..BOTH
    },
    WITHOUT_STORE,
];

// A peer's end.
fn link_of(alloc: Global, failing: &[u64]) -> Result<MemoryLink, Fail>
    ensures { IfOk result IsFresh }
{
    match MemoryLink::new(alloc, PART.to_vec(alloc)?, 1024, 64, failing.to_vec(alloc)?) {
        Ok(link) => Ok(link),
        Err(_) => Err("memory".into()),
    }
}

// A door where two peers wait.
fn door_of(alloc: Global, row: &Row) -> Result<MemoryDoor, Fail>
    ensures { IfOk result (λ door. door.bound ≡ None) }
{
    let first = link_of(alloc, row.first)?;
    let ends = Vec::from_array(alloc, [first, link_of(alloc, row.second)?])?;
    match MemoryDoor::new(alloc, ends, row.door.to_vec(alloc)?) {
        Ok(door) => Ok(door),
        Err(_) => Err("memory".into()),
    }
}

// The same as an entrance that listens.
fn entrance_of(alloc: Global, row: &Row) -> Result<Doorway<MemoryDoor>, Fail>
    ensures { IfOk result (λ entrance. IsSome entrance.door.bound) }
{
    let mut entrance = Doorway::new(door_of(alloc, row)?);
    match entrance.listen(80) {
        Ok(_) => Ok(entrance),
        Err(_) => Err("the port is free".into()),
    }
}

fn stores_of(alloc: Global, failing: &[u64]) -> Result<Vec<MemoryStore>, Fail>
    ensures { IfOk result (λ stores. length stores.items ≡ 16) }
{
    let mut stores = Vec::new(alloc);
    for _i in 0..16u32 {
        stores.push(store_of(alloc, OBJECTS, failing)?)?;
    }
    Ok(stores)
}

type Served = Finish<Doorway<MemoryDoor>, MemoryExit, MemoryStore>;

// Two peers are served by so many workers.
fn serve<R: Threads + Wait + Sync>(
    rt: &R,
    alloc: Global,
    row: &Row,
    workers: u32,
) -> Result<Served, Fail>
    requires some { 0 < workers }
    requires few { workers ≤ 16 }
{
    let entrance = entrance_of(alloc, row)?;
    let stores = stores_of(alloc, row.store)?;
    let dataset = name_of("d")?;
    let Ok(exit) = MemoryExit::new(alloc, 4) else {
        return Err("memory".into());
    };
    Ok(run_hall(
        rt, alloc, entrance, exit, stores, &dataset, 2, workers, &FreeGate,
    ))
}

// What was sent to the peer with a number.
fn sent_to(exit: &MemoryExit, number: u64) -> Option<&[u8]> {
    for end in exit.served() {
        if end.0 == number {
            return Some(end.1.sent());
        }
    }
    None
}

// So many ends were closed, each of the first numbers once.
fn check_closed(rt: &impl Abort, exit: &MemoryExit, closed: usize) {
    assert_eq!(rt; exit.served().len(), closed);
    for number in 0..closed as u64 {
        assert!(rt; sent_to(exit, number).is_some());
    }
}

// So many of them got the whole reply, and each other one what a cut one gets.
fn check_sent(rt: &impl Abort, exit: &MemoryExit, whole: usize, cut: &[u8]) {
    let mut count = 0usize;
    for end in exit.served() {
        let sent = end.1.sent();
        if sent == PART_REPLY {
            count = count.saturating_add(1);
        } else {
            assert!(rt; sent == cut);
        }
    }
    assert_eq!(rt; count, whole);
}

// Serving ends as the row says.
fn check_finish(rt: &impl Abort, finish: &Served, row: &Row) {
    assert!(rt; finish.end == row.end);
    assert_eq!(rt; finish.stores.len(), 16);
    check_closed(rt, &finish.exit, row.closed);
    check_sent(rt, &finish.exit, row.whole, row.cut);
}

fn check<R: Threads + Wait + Sync + Abort>(
    rt: &R,
    alloc: Global,
    row: &Row,
    workers: u32,
) -> Result<(), Fail>
    requires some { 0 < workers }
    requires few { workers ≤ 16 }
{
    let finish = serve(rt, alloc, row, workers)?;
    check_finish(rt, &finish, row);
    Ok(())
}

fn check_all<R: Threads + Wait + Sync + Abort>(
    rt: &R,
    alloc: Global,
    rows: &[Row],
) -> Result<(), Fail> {
    for row in rows {
        for workers in 1..4u32 {
            check(rt, alloc, row, workers)?;
        }
    }
    Ok(())
}

#[test]
fn serves_two_peers(rt: HostRuntime) -> Result<(), Fail> {
    check_all(&rt, rt.alloc(), ROWS)
}

// More than the calls that are made of an entrance, of a link, or of a store by all peers.
const MOST_CALLS: u64 = 8;

// What is sent of some bytes where the k-th call of a link fails: the first one receives, and each other one sends 64.
fn front_of(bytes: &'static [u8], k: u64) -> &'static [u8] {
    let len = k.saturating_sub(1).saturating_mul(64);
    &bytes[..len.min(bytes.len() as u64) as usize]
}

// Both peers are served, and these are sent to them.
fn check_both<R: Threads + Wait + Sync + Abort>(
    rt: &R,
    alloc: Global,
    row: &Row,
    workers: u32,
    first: &[u8],
    second: &[u8],
) -> Result<(), Fail>
    requires some { 0 < workers }
    requires few { workers ≤ 16 }
{
    let finish = serve(rt, alloc, row, workers)?;
    assert!(rt; finish.end == HallEnd::All);
    assert_eq!(rt; sent_to(&finish.exit, 0), Some(first));
    assert_eq!(rt; sent_to(&finish.exit, 1), Some(second));
    Ok(())
}

// The k-th call of one peer's link fails: it gets a front of its reply, and the other one the whole. So it is where the stores
// fail too, with the reply that says so.
fn check_link<R: Threads + Wait + Sync + Abort>(
    rt: &R,
    alloc: Global,
    k: u64,
    workers: u32,
) -> Result<(), Fail>
    requires some { 0 < workers }
    requires few { workers ≤ 16 }
{
    let failing = &[k];
    let first = Row {
        first: failing,
        ..BOTH
    };
    let second = Row {
        second: failing,
        ..BOTH
    };
    let no_store = Row {
        first: failing,
        ..WITHOUT_STORE
    };
    let front = front_of(PART_REPLY, k);
    let failed = front_of(FAILED_REPLY, k);
    check_both(rt, alloc, &first, workers, front, PART_REPLY)?;
    check_both(rt, alloc, &second, workers, PART_REPLY, front)?;
    check_both(rt, alloc, &no_store, workers, failed, FAILED_REPLY)
}

// The k-th call of the entrance fails: the first binds its port, and each other one accepts.
fn check_entrance<R: Threads + Wait + Sync + Abort>(
    rt: &R,
    alloc: Global,
    k: u64,
    workers: u32,
) -> Result<(), Fail>
    requires some { 0 < workers }
    requires few { workers ≤ 16 }
{
    let closed = k.saturating_sub(1).min(2) as usize;
    let row = Row {
        door: &[k],
        end: if k > 2 {
            HallEnd::All
        } else {
            HallEnd::DoorFault
        },
        closed,
        whole: closed,
        ..BOTH
    };
    check(rt, alloc, &row, workers)
}

// Whether the peer with a number was told that the store failed; else it got the whole reply.
fn was_failed(rt: &impl Abort, exit: &MemoryExit, number: u64) -> bool {
    let sent = sent_to(exit, number);
    assert!(rt; sent == Some(PART_REPLY) || sent == Some(FAILED_REPLY));
    sent == Some(FAILED_REPLY)
}

// Which of both peers are told that the store failed, where the k-th call of each store fails. Each request makes two.
fn check_failed(rt: &impl Abort, k: u64, workers: u32, failed: (bool, bool)) {
    if workers == 1 {
        assert_eq!(rt; failed, (k < 2, k == 2 || k == 3));
    } else {
        assert!(rt; k < 4 || failed == (false, false));
    }
}

// The k-th call of each store fails: a peer gets the whole reply, or that the store failed.
fn check_store<R: Threads + Wait + Sync + Abort>(
    rt: &R,
    alloc: Global,
    k: u64,
    workers: u32,
) -> Result<(), Fail>
    requires some { 0 < workers }
    requires few { workers ≤ 16 }
{
    let row = Row {
        store: &[k],
        ..BOTH
    };
    let finish = serve(rt, alloc, &row, workers)?;
    assert!(rt; finish.end == HallEnd::All);
    check_closed(rt, &finish.exit, 2);
    let first = was_failed(rt, &finish.exit, 0);
    let second = was_failed(rt, &finish.exit, 1);
    check_failed(rt, k, workers, (first, second));
    Ok(())
}

#[test]
fn goes_on_behind_each_failing_call(rt: HostRuntime) -> Result<(), Fail> {
    for k in 0..MOST_CALLS {
        for workers in 1..4u32 {
            check_link(&rt, rt.alloc(), k, workers)?;
            check_store(&rt, rt.alloc(), k, workers)?;
        }
    }
    Ok(())
}

#[test]
fn ends_at_each_failing_accept(rt: HostRuntime) -> Result<(), Fail> {
    for k in 1..MOST_CALLS {
        for workers in 1..4u32 {
            check_entrance(&rt, rt.alloc(), k, workers)?;
        }
    }
    Ok(())
}
