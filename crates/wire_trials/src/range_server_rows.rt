//! Requests over links, stores and doors in memory.
ghost use Rattle.std.specs.Prelude.{◌≡◌, IfOk, None};
ghost use Rattle.vol_base.specs.Peers.{IsFresh};

mod cuts;
mod known;
mod receives;

use memory_rows::{name_of, store_of};
use range_server::{
    DoorRefusal, Ending, RangeAnswer, ServeFault, range_of, serve_ends, serve_to_end,
};
use std::alloc::Global;
use std::process::Abort;
use std::test::Fail;
use vol_base::{Door, Link, MemoryDoor, MemoryLink};

const OBJECTS: &[(&str, &[u8])] = &[("d/s/x", b"0123456789")];

type Ended = Result<Ending, ServeFault>;

const PART: &[u8] = b"GET /s/x HTTP/1.1\r\nHost: a\r\nRange: bytes=2-4\r\n\r\n";

const PART_REPLY: &[u8] =
    b"HTTP/1.1 206 Partial Content\r\nContent-Length: 3\r\nContent-Type: application/octet-stream\r\nAccept-Ranges: bytes\r\nAccess-Control-Allow-Origin: *\r\nContent-Range: bytes 2-4/10\r\n\r\n234";

const FAILED_REPLY: &[u8] =
    b"HTTP/1.1 500 Internal Server Error\r\nContent-Length: 0\r\nContent-Type: application/octet-stream\r\nAccept-Ranges: bytes\r\nAccess-Control-Allow-Origin: *\r\nConnection: close\r\n\r\n";

// A link whose calls move at most so many bytes, with some calls that fail.
fn link_of(alloc: Global, bytes: &[u8], piece: usize, failing: &[u64]) -> Result<MemoryLink, Fail>
    ensures { IfOk result IsFresh }
{
    let bytes = Vec::from_slice(alloc, bytes)?;
    let failing = Vec::from_slice(alloc, failing)?;
    match MemoryLink::new(alloc, bytes, 4096, piece.max(1), failing) {
        Ok(link) => Ok(link),
        Err(_) => Err("memory".into()),
    }
}

// How serving a link ends, while calls of the store fail.
fn serve_link<L: Link>(alloc: Global, link: &mut L, failing: &[u64]) -> Result<Ended, Fail> {
    let mut store = store_of(alloc, OBJECTS, failing)?;
    let dataset = name_of("d")?;
    Ok(serve_to_end(alloc, link, &mut store, &dataset, &mut None).ended)
}

// What is sent to a peer whose bytes come in pieces, and how serving ends.
fn serve(
    alloc: Global,
    bytes: &[u8],
    piece: usize,
    link_failing: &[u64],
    store_failing: &[u64],
) -> Result<(Vec<u8>, Ended), Fail> {
    let mut link = link_of(alloc, bytes, piece, link_failing)?;
    let served = serve_link(alloc, &mut link, store_failing)?;
    Ok((Vec::from_slice(alloc, link.sent())?, served))
}

// A value of the field Range, and what it asks of an object.
type Asked = (&'static [u8], RangeAnswer);

const RANGES: &[Asked] = &[
    (b"bytes=2-4", RangeAnswer::Part { first: 2, last: 4 }),
    (b"bytes=-3", RangeAnswer::Part { first: 7, last: 9 }),
    (b"bytes=-30", RangeAnswer::Part { first: 0, last: 9 }),
    (b" \tBYTES=5- ", RangeAnswer::Part { first: 5, last: 9 }),
    (b"bytes=10-", RangeAnswer::Unsatisfiable),
    (b"bytes=-0", RangeAnswer::Unsatisfiable),
    (b"bytes=4-2", RangeAnswer::Whole),
    (b"bytes=1-2,4-5", RangeAnswer::Whole),
    (b"bytes=", RangeAnswer::Whole),
    (b"bytes=-", RangeAnswer::Whole),
    (b"byte=1-2", RangeAnswer::Whole),
    (
        b"bytes=20000000000000000001-20000000000000000000",
        RangeAnswer::Whole,
    ),
    (
        b"bytes=20000000000000000000-00000000000000000000020000000000000000001",
        RangeAnswer::Unsatisfiable,
    ),
    (
        b"bytes=3-20000000000000000000",
        RangeAnswer::Part { first: 3, last: 9 },
    ),
];

// What these ask of an object of so many bytes.
fn check_ranges(rt: &impl Abort, size: u64, rows: &[Asked]) {
    for (value, wanted) in rows {
        assert_eq!(rt; range_of(value, size), *wanted);
    }
}

#[test]
fn answers_ranges(rt: HostRuntime) {
    check_ranges(&rt, 10, RANGES);
    check_ranges(&rt, 0, &[(b"bytes=-5", RangeAnswer::Whole)]);
}

// Where this call of the link fails, a front of the reply is sent.
fn check_link_call(rt: &impl Abort, alloc: Global, call: u64) -> Result<(), Fail> {
    let (sent, served) = serve(alloc, PART, 5, &[call], &[])?;
    if served == Ok(Ending::Whole) {
        assert_eq!(rt; sent.as_slice(), PART_REPLY);
    } else {
        assert_eq!(rt; served, Err(ServeFault::LinkFault));
        assert!(rt; PART_REPLY.starts_with(&sent));
    }
    Ok(())
}

// Where this call of the store fails, the reply says so.
fn check_store_call(rt: &impl Abort, alloc: Global, call: u64) -> Result<(), Fail> {
    let (sent, served) = serve(alloc, PART, 5, &[], &[call])?;
    assert_eq!(rt; served, Ok(Ending::Failed));
    assert_eq!(rt; sent.as_slice(), FAILED_REPLY);
    Ok(())
}

#[test]
fn stops_at_each_failing_call(rt: HostRuntime) -> Result<(), Fail> {
    for call in 0..200u64 {
        check_link_call(&rt, rt.alloc(), call)?;
    }
    check_store_call(&rt, rt.alloc(), 0)?;
    check_store_call(&rt, rt.alloc(), 1)
}

// A door where two peers come, some of whose calls fail.
fn door_of(
    alloc: Global,
    first: MemoryLink,
    second: MemoryLink,
    failing: &[u64],
) -> Result<MemoryDoor, Fail>
    requires first { IsFresh first }
    requires second { IsFresh second }
    ensures { IfOk result (λ door. door.bound ≡ None) }
{
    let ends = Vec::from_array(alloc, [first, second])?;
    match MemoryDoor::new(alloc, ends, Vec::from_slice(alloc, failing)?) {
        Ok(door) => Ok(door),
        Err(_) => Err("memory".into()),
    }
}

// So many peers are served at a door where two come, of which the first one's link fails.
fn serve_two(
    alloc: Global,
    failing: &[u64],
    connections: u64,
) -> Result<(MemoryDoor, Result<(), DoorRefusal>), Fail> {
    let first = link_of(alloc, PART, 7, &[3])?;
    let mut door = door_of(alloc, first, link_of(alloc, PART, 7, &[])?, failing)?;
    match door.listen(0) {
        Ok(_) => {}
        Err(_) => return Err("no port".into()),
    }
    let mut store = store_of(alloc, OBJECTS, &[])?;
    let dataset = name_of("d")?;
    let served = serve_ends(alloc, &mut door, &mut store, &dataset, connections);
    Ok((door, served))
}

// Serving so many peers ends so, and this is sent to each end that was served.
fn check_ends(
    rt: &impl Abort,
    alloc: Global,
    failing: &[u64],
    connections: u64,
    wanted: Result<(), DoorRefusal>,
    sent: &[&[u8]],
) -> Result<(), Fail> {
    let (door, served) = serve_two(alloc, failing, connections)?;
    assert_eq!(rt; served, wanted);
    let ends = door.served();
    assert_eq!(rt; ends.len(), sent.len());
    for i in 0..ends.len().min(sent.len()) {
        assert_eq!(rt; ends[i].sent(), sent[i]);
    }
    Ok(())
}

#[test]
fn serves_the_ends_of_a_door(rt: HostRuntime) -> Result<(), Fail> {
    let alloc = rt.alloc();
    let fault = Err(DoorRefusal::DoorFault);
    check_ends(&rt, alloc, &[], 2, Ok(()), &[b"", PART_REPLY])?;
    check_ends(&rt, alloc, &[3], 2, fault, &[b""])?;
    check_ends(&rt, alloc, &[], 3, fault, &[b"", PART_REPLY])
}
