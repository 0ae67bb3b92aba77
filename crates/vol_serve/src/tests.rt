//! Objects that are served to peers in memory, by one seat and by several at once.
ghost use Rattle.std.specs.Prelude.{◌≡◌, ◌≤◌, IfOk, None, [], length};
ghost use Rattle.vol_base.specs.Peers.{IsFresh};
ghost use Rattle.hall.specs.Noted.{noted_by};

use crate::top::{Closing, serve_all};
use hall::{Doorway, MemoryExit};
use holding_gate::HoldingGate;
use memory_rows::{outlet_of, store_of};
use std::alloc::Global;
use std::process::Abort;
use std::sync::Wait;
use std::test::Fail;
use std::thread::Threads;
use vol_base::{FreeGate, Gate, MemoryDoor, MemoryLink, MemoryOutlet, MemoryStore};

const OBJECTS: &[(&str, &[u8])] = &[("d/s/x", b"0123456789")];

const PART: &[u8] = b"GET /s/x HTTP/1.1\r\nHost: a\r\nRange: bytes=2-4\r\n\r\n";

const PART_REPLY: &[u8] =
    b"HTTP/1.1 206 Partial Content\r\nContent-Length: 3\r\nContent-Type: application/octet-stream\r\nAccept-Ranges: bytes\r\nAccess-Control-Allow-Origin: *\r\nContent-Range: bytes 2-4/10\r\n\r\n234";

// Words, and the numbers of the calls of the entrance and the output that fail; then the status, what is printed and told,
// and how many of the two peers were sent the reply.
#[derive(Clone, Copy)]
struct Row<'a> {
    words: &'a [&'a str],
    entrance: &'a [u64],
    out: &'a [u64],
    status: u8,
    line: &'a str,
    told: &'a str,
    replies: u64,
}

const ONE_SEAT: Row = Row {
    words: &["d", "--port=80", "--connections=2", "--workers=1"],
    entrance: &[],
    out: &[],
    status: 0,
    line: "listening 80\n",
    told: "",
    replies: 2,
};

// Calls of the entrance: 0 binds the port, and each accept is one.
const ROWS: &[Row] = &[
    ONE_SEAT,
    Row {
        words: &["--workers=2", "--connections=2", "d", "--port=0"],
        line: "listening 0\n",
        ..ONE_SEAT
    },
    Row {
        words: &["d", "--port=80", "--connections=2", "--workers=16"],
        entrance: &[2],
        status: 9,
        told: "door fault\n",
        replies: 1,
        ..ONE_SEAT
    },
    Row {
        entrance: &[0],
        status: 9,
        line: "",
        told: "door fault\n",
        replies: 0,
        ..ONE_SEAT
    },
    Row {
        out: &[0],
        status: 7,
        line: "",
        told: "output fault\n",
        replies: 0,
        ..ONE_SEAT
    },
    Row {
        words: &["d", "--port=0", "--connections=1"],
        status: 1,
        line: "",
        told: "usage\n",
        replies: 0,
        ..ONE_SEAT
    },
    Row {
        words: &["d", "--port=0", "--connections=1", "--workers=17"],
        status: 1,
        line: "",
        told: "usage\n",
        replies: 0,
        ..ONE_SEAT
    },
    Row {
        words: &["d", "--port=0", "--port=1", "--workers=1"],
        status: 1,
        line: "",
        told: "usage\n",
        replies: 0,
        ..ONE_SEAT
    },
];

fn words_of(alloc: Global, words: &[&str]) -> Result<Vec<String>, Fail> {
    let mut list = Vec::new(alloc);
    for word in words {
        list.push(String::from_str(alloc, word)?)?;
    }
    Ok(list)
}

// A peer's end.
fn link_of(alloc: Global) -> Result<MemoryLink, Fail>
    ensures { IfOk result IsFresh }
{
    match MemoryLink::new(alloc, PART.to_vec(alloc)?, 1024, 7, Vec::new(alloc)) {
        Ok(link) => Ok(link),
        Err(_) => Err("memory".into()),
    }
}

// An entrance where two peers wait, some of whose calls fail.
fn entrance_of(alloc: Global, failing: &[u64]) -> Result<Doorway<MemoryDoor>, Fail>
    ensures { IfOk result (λ entrance. entrance.door.bound ≡ None) }
{
    let first = link_of(alloc)?;
    let ends = Vec::from_array(alloc, [first, link_of(alloc)?])?;
    match MemoryDoor::new(alloc, ends, failing.to_vec(alloc)?) {
        Ok(door) => Ok(Doorway::new(door)),
        Err(_) => Err("memory".into()),
    }
}

fn exit_of(alloc: Global) -> Result<MemoryExit, Fail>
    ensures { IfOk result (λ exit. noted_by exit.closed exit.over ≡ Some []) }
{
    match MemoryExit::new(alloc, 4) {
        Ok(exit) => Ok(exit),
        Err(_) => Err("memory".into()),
    }
}

// A store for each seat.
fn stores_of(alloc: Global) -> Result<Vec<MemoryStore>, Fail>
    ensures { IfOk result (λ stores. length stores.items ≡ 16) }
{
    let mut stores = Vec::new(alloc);
    for _i in 0..16u32 {
        stores.push(store_of(alloc, OBJECTS, &[])?)?;
    }
    Ok(stores)
}

// What a row ends with over an output, and what is told.
fn serve<R, G: Gate + Sync>(
    rt: &R,
    alloc: Global,
    row: &Row,
    out: &mut MemoryOutlet,
    gate: &G,
) -> Result<
    (
        Closing<Doorway<MemoryDoor>, MemoryExit, MemoryStore>,
        MemoryOutlet,
    ),
    Fail,
>
where
    R: Threads + Wait + Sync,
{
    let words = words_of(alloc, row.words)?;
    let mut err = outlet_of(alloc, 256, &[])?;
    let entrance = entrance_of(alloc, row.entrance)?;
    let exit = exit_of(alloc)?;
    let stores = stores_of(alloc)?;
    let closing = serve_all(
        rt, alloc, &words, entrance, exit, stores, out, &mut err, gate,
    );
    Ok((closing, err))
}

// So many peers were sent the reply, each under a number of its own, and no other was served.
fn check_replies(rt: &impl Abort, exit: &MemoryExit, replies: u64) {
    assert_eq!(rt; exit.served().len() as u64, replies);
    for wanted in 0..replies {
        assert!(rt; exit.served().iter().any(|end| end.0 == wanted));
    }
    for end in exit.served() {
        assert!(rt; end.1.sent() == PART_REPLY);
    }
}

fn check<R, G: Gate + Sync>(rt: &R, alloc: Global, row: &Row, gate: &G) -> Result<(), Fail>
where
    R: Abort + Threads + Wait + Sync,
{
    let mut out = outlet_of(alloc, 256, row.out)?;
    let (closing, err) = serve(rt, alloc, row, &mut out, gate)?;
    assert_eq!(rt; closing.status.status().number(), row.status);
    assert!(rt;
        out.written() == row.line.as_bytes(),
        "out, where is told: {}",
        row.told
    );
    assert!(rt;
        err.written() == row.told.as_bytes(),
        "not told: {}",
        row.told
    );
    assert_eq!(rt; closing.stores.len(), 16);
    check_replies(rt, &closing.exit, row.replies);
    Ok(())
}

fn check_all<R>(rt: &R, alloc: Global, rows: &[Row]) -> Result<(), Fail>
where
    R: Abort + Threads + Wait + Sync,
{
    for row in rows {
        check(rt, alloc, row, &FreeGate)?;
    }
    Ok(())
}

#[test]
fn serves_peers(rt: HostRuntime) -> Result<(), Fail> {
    check_all(&rt, rt.alloc(), ROWS)
}

// While the first peer's seat is held behind its claim, the second peer is served to its end.
#[test]
fn two_at_once(rt: HostRuntime) -> Result<(), Fail> {
    let gate = HoldingGate::new();
    let row = Row {
        words: &["d", "--port=80", "--connections=2", "--workers=2"],
        ..ONE_SEAT
    };
    check(&rt, rt.alloc(), &row, &gate)?;
    assert!(rt; gate.was_passed());
    assert!(rt; gate.claimed(0) != gate.claimed(1));
    Ok(())
}
