//! What a store answers, by the reply to its request. Each answer was worked out by hand.

mod pieced;
mod pieces;
mod random;

use crate::local_store::local_store;
use memory_rows::name_of;
use remote_store::{Dial, Remote, ScriptDial};
use std::alloc::Global;
use std::process::Abort;
use std::test::Fail;
use vol_base::{Got, Source};

const PART: &str =
    "HTTP/1.1 206 Partial Content\r\nContent-Length: 3\r\nContent-Type: application/octet-stream\r\nAccept-Ranges: bytes\r\nAccess-Control-Allow-Origin: *\r\nContent-Range: bytes 2-4/10\r\n\r\n234";

const CUT: &str =
    "HTTP/1.1 206 Partial Content\r\nContent-Length: 3\r\nContent-Type: application/octet-stream\r\nAccept-Ranges: bytes\r\nAccess-Control-Allow-Origin: *\r\nContent-Range: bytes 2-4/10\r\n\r\n23";

// A reply, and what a read of 3 bytes from the third on answers: how many, or that there is no object, or that it failed;
// and the bytes of the buffer where it didn't fail.
type Read = (&'static str, Option<Got>, &'static [u8]);

const READS: &[Read] = &[
    (PART, Some(Got::Bytes(3)), b"234"),
    (CUT, None, b""),
    // The object ends behind its fourth byte.
    (
        "HTTP/1.0 206 OK\ncontent-length: 2\ncontent-range: bytes 2-3/4\n\n23",
        Some(Got::Bytes(2)),
        b"23.",
    ),
    // The whole object.
    (
        "HTTP/1.1 200 OK\r\nContent-Length: 10\r\n\r\n0123456789",
        Some(Got::Bytes(3)),
        b"234",
    ),
    (
        "HTTP/1.1 404 Not Found\r\nContent-Length: 2\r\n\r\nno",
        Some(Got::Absent),
        b"...",
    ),
    (
        "HTTP/1.1 416 Range Not Satisfiable\r\nContent-Length: 0\r\n\r\n",
        Some(Got::Bytes(0)),
        b"...",
    ),
    // Another part.
    (
        "HTTP/1.1 206 OK\r\nContent-Length: 3\r\nContent-Range: bytes 3-5/10\r\n\r\n345",
        None,
        b"",
    ),
    // More bytes than the length says.
    (
        "HTTP/1.1 206 OK\r\nContent-Length: 3\r\nContent-Range: bytes 2-4/10\r\n\r\n2345",
        None,
        b"",
    ),
    // Two lengths, the same twice, and none.
    (
        "HTTP/1.1 206 OK\r\nContent-Length: 3\r\nContent-Length: 3\r\nContent-Range: bytes 2-4/10\r\n\r\n234",
        None,
        b"",
    ),
    (
        "HTTP/1.1 206 OK\r\nContent-Range: bytes 2-4/10\r\n\r\n234",
        None,
        b"",
    ),
    (
        "HTTP/1.1 206 OK\r\nTransfer-Encoding: chunked\r\nContent-Range: bytes 2-4/10\r\n\r\n3\r\n234\r\n0\r\n\r\n",
        None,
        b"",
    ),
    (
        "HTTP/1.1 206 OK\r\nContent-Encoding: gzip\r\nContent-Length: 3\r\nContent-Range: bytes 2-4/10\r\n\r\n234",
        None,
        b"",
    ),
    (
        "HTTP/1.1 301 Moved Permanently\r\nLocation: /x\r\nContent-Length: 0\r\n\r\n",
        None,
        b"",
    ),
    (
        "HTTP/1.1 200 OK\r\nContent-Length: 1073741825\r\n\r\n",
        None,
        b"",
    ),
    ("HTTP/1.1 206 OK\r\nContent-Le", None, b""),
    ("", None, b""),
];

// A store over a peer that says these bytes, whatever it is asked.
fn store_of(alloc: Global, reply: &[u8]) -> Result<Remote<ScriptDial>, Fail> {
    local_store(alloc, ScriptDial::new(reply.to_vec(alloc)?))
}

// A read from the third byte on: how many bytes came, or that there is no object, where it didn't fail.
fn read<D: Dial + Drop>(store: &mut Remote<D>, buffer: &mut [u8; 3]) -> Result<Option<Got>, Fail> {
    let name = name_of("d/s/x")?;
    Ok(store.read_at(&name, 2, buffer).ok())
}

// A read answers this, and leaves these bytes in the buffer.
fn check_read(rt: &impl Abort, alloc: Global, row: &Read) -> Result<(), Fail> {
    let (reply, answer, bytes) = row;
    let mut store = store_of(alloc, reply.as_bytes())?;
    let mut buffer = [b'.'; 3];
    let got = read(&mut store, &mut buffer)?;
    assert_eq!(rt; got, *answer, "at {reply}");
    assert!(rt; got.is_none() || buffer.as_slice() == *bytes, "at {reply}");
    assert!(rt; store.last().len() <= reply.len().min(8192), "at {reply}");
    Ok(())
}

fn check_reads(rt: &impl Abort, alloc: Global, rows: &[Read]) -> Result<(), Fail> {
    for row in rows {
        check_read(rt, alloc, row)?;
    }
    Ok(())
}

#[test]
fn reads_what_fits(rt: HostRuntime) -> Result<(), Fail> {
    check_reads(&rt, rt.alloc(), READS)
}

#[test]
fn shows_what_came(rt: HostRuntime) -> Result<(), Fail> {
    let mut store = store_of(rt.alloc(), CUT.as_bytes())?;
    let got = read(&mut store, &mut [0; 3])?;
    assert!(rt; got.is_none());
    assert_eq!(rt; store.last(), CUT.as_bytes());
    assert_eq!(rt; store.body(), 2);
    Ok(())
}

// A reply, and the length that it says, or that there is no object; or that it doesn't fit.
type Size = (&'static str, Option<Option<u64>>);

const SIZES: &[Size] = &[
    (
        "HTTP/1.1 200 OK\r\nContent-Length: 10\r\n\r\n",
        Some(Some(10)),
    ),
    (
        "HTTP/1.1 404 Not Found\r\nContent-Length: 2\r\n\r\n",
        Some(None),
    ),
    ("HTTP/1.1 206 OK\r\nContent-Length: 10\r\n\r\n", None),
    ("HTTP/1.1 200 OK\r\nContent-Length: 10\r\n\r\n0", None),
];

// The length of an object, or that there is none, where the call doesn't fail.
fn size_of<D: Dial + Drop>(store: &mut Remote<D>, name: &str) -> Result<Option<Option<u64>>, Fail> {
    let name = name_of(name)?;
    Ok(store.size(&name).ok())
}

// A reply says this length. At a name of another data set nothing is sent.
fn check_size(rt: &impl Abort, alloc: Global, row: &Size) -> Result<(), Fail> {
    let (reply, answer) = row;
    let mut store = store_of(alloc, reply.as_bytes())?;
    assert_eq!(rt; size_of(&mut store, "d/s/x")?, *answer, "at {reply}");
    assert_eq!(rt; size_of(&mut store, "e/s/x")?, Some(None));
    assert!(rt; store.last().is_empty());
    assert_eq!(rt; store.body(), 0);
    Ok(())
}

fn check_sizes(rt: &impl Abort, alloc: Global, rows: &[Size]) -> Result<(), Fail> {
    for row in rows {
        check_size(rt, alloc, row)?;
    }
    Ok(())
}

#[test]
fn says_lengths(rt: HostRuntime) -> Result<(), Fail> {
    check_sizes(&rt, rt.alloc(), SIZES)
}
