//! Objects that are served to peers in memory.
ghost use Rattle.std.specs.Prelude.{◌≡◌, ◌≤◌, IfOk, None};
ghost use Rattle.vol_base.specs.Peers.{IsFresh};

use command_base::Status;
use memory_rows::{name_of, outlet_of, store_of};
use serve_cmd::run_serve;
use std::alloc::Global;
use std::process::Abort;
use std::test::Fail;
use vol_base::{MemoryDoor, MemoryLink, MemoryOutlet};

const OBJECTS: &[(&str, &[u8])] = &[("d/s/x", b"0123456789")];

const PART: &[u8] = b"GET /s/x HTTP/1.1\r\nHost: a\r\nRange: bytes=2-4\r\n\r\n";

const PART_REPLY: &[u8] =
    b"HTTP/1.1 206 Partial Content\r\nContent-Length: 3\r\nContent-Type: application/octet-stream\r\nAccept-Ranges: bytes\r\nAccess-Control-Allow-Origin: *\r\nContent-Range: bytes 2-4/10\r\n\r\n234";

// A port and a number of peers, the numbers of the calls of the door and the output that fail; then the status, what is
// printed and told, and to how many peers the reply was sent.
#[derive(Clone, Copy)]
struct Serving<'a> {
    port: u16,
    connections: u32,
    door: &'a [u64],
    out: &'a [u64],
    status: u8,
    line: &'a str,
    told: &'a str,
    replies: usize,
}

const TWO: Serving = Serving {
    port: 80,
    connections: 2,
    door: &[],
    out: &[],
    status: 0,
    line: "listening 80\n",
    told: "",
    replies: 2,
};

// Calls of the door: 0 binds the port, and each peer has two more.
const SERVINGS: &[Serving] = &[
    TWO,
    Serving {
        port: 0,
        connections: 1,
        line: "listening 0\n",
        replies: 1,
        ..TWO
    },
    Serving {
        door: &[0],
        status: 9,
        line: "",
        told: "door fault\n",
        replies: 0,
        ..TWO
    },
    Serving {
        door: &[1],
        status: 9,
        told: "door fault\n",
        replies: 0,
        ..TWO
    },
    Serving {
        port: 0,
        connections: 1,
        door: &[1],
        status: 9,
        line: "listening 0\n",
        told: "door fault\n",
        replies: 0,
        ..TWO
    },
    Serving {
        door: &[3],
        status: 9,
        told: "door fault\n",
        replies: 1,
        ..TWO
    },
    Serving {
        out: &[0],
        status: 7,
        line: "",
        told: "output fault\n",
        replies: 0,
        ..TWO
    },
];

// A peer's end.
fn link_of(alloc: Global) -> Result<MemoryLink, Fail>
    ensures { IfOk result IsFresh }
{
    match MemoryLink::new(alloc, PART.to_vec(alloc)?, 1024, 7, Vec::new(alloc)) {
        Ok(link) => Ok(link),
        Err(_) => Err("memory".into()),
    }
}

// A door where two peers wait, some of whose calls fail.
fn door_of(alloc: Global, failing: &[u64]) -> Result<MemoryDoor, Fail>
    ensures { IfOk result (λ door. door.bound ≡ None) }
{
    let mut ends = Vec::new(alloc);
    ends.push(link_of(alloc)?)?;
    ends.push(link_of(alloc)?)?;
    match MemoryDoor::new(alloc, ends, failing.to_vec(alloc)?) {
        Ok(door) => Ok(door),
        Err(_) => Err("memory".into()),
    }
}

// The status of a serving, over outputs and a door.
fn serve(
    alloc: Global,
    out: &mut MemoryOutlet,
    err: &mut MemoryOutlet,
    door: &mut MemoryDoor,
    row: &Serving,
) -> Result<Status, Fail>
    requires { door.old.bound ≡ None }
{
    if row.connections < 1 {
        return Err(Fail::from("no peer"));
    }
    let mut store = store_of(alloc, OBJECTS, &[])?;
    let dataset = name_of("d")?;
    Ok(run_serve(
        alloc,
        &mut store,
        out,
        err,
        door,
        &dataset,
        row.port,
        row.connections,
    ))
}

// So many peers were sent the reply, and no other was served.
fn check_replies(rt: &impl Abort, door: &MemoryDoor, replies: usize) {
    assert_eq!(rt; door.served().len(), replies);
    for end in door.served() {
        assert!(rt; end.sent() == PART_REPLY);
    }
}

// The status, what is printed and what is told are those of the row.
fn compare(rt: &impl Abort, status: Status, out: &MemoryOutlet, err: &MemoryOutlet, row: &Serving) {
    assert_eq!(rt; status.number(), row.status);
    let same = out.written() == row.line.as_bytes() && err.written() == row.told.as_bytes();
    assert!(rt; same, "where is told: {}", row.told);
}

fn check(rt: &impl Abort, alloc: Global, row: &Serving) -> Result<(), Fail> {
    let mut out = outlet_of(alloc, 256, row.out)?;
    let mut err = outlet_of(alloc, 256, &[])?;
    let mut door = door_of(alloc, row.door)?;
    let status = serve(alloc, &mut out, &mut err, &mut door, row)?;
    compare(rt, status, &out, &err, row);
    check_replies(rt, &door, row.replies);
    Ok(())
}

fn check_all(rt: &impl Abort, alloc: Global, rows: &[Serving]) -> Result<(), Fail> {
    for row in rows {
        check(rt, alloc, row)?;
    }
    Ok(())
}

#[test]
fn serves_peers_one_after_the_other(rt: HostRuntime) -> Result<(), Fail> {
    check_all(&rt, rt.alloc(), SERVINGS)
}
