//! Replies that come in pieces, and what is left of the bytes behind them.

use super::pieces::PieceDial;
use super::{Read, Size, read, size_of};
use crate::local_store::local_store;
use remote_store::{Remote, ScriptDial};
use std::alloc::Global;
use std::process::Abort;
use std::test::Fail;
use vol_base::Got;

// Replies to a request for the third byte to the fifth.
const READS: &[Read] = &[
    (
        "HTTP/1.1 206 OK\r\nContent-Length: 3\r\nContent-Range: bytes 2-4/10\r\n\r\n234",
        Some(Got::Bytes(3)),
        b"234",
    ),
    // Numbers with more digits than 64 or 128 bits have room for.
    (
        "HTTP/1.1 206 OK\r\nContent-Length: 0000000000000000000000000000000000000000003\r\nContent-Range: bytes 2-4/99999999999999999999999999999999999999999999\r\n\r\n234",
        Some(Got::Bytes(3)),
        b"234",
    ),
    (
        "HTTP/1.1 206 OK\r\nContent-Length: 18446744073709551619\r\nContent-Range: bytes 2-4/10\r\n\r\n234",
        None,
        b"",
    ),
    (
        "HTTP/1.1 206 OK\r\nContent-Length: 3\r\nContent-Range: bytes 2-340282366920938463463374607431768211460/10\r\n\r\n234",
        None,
        b"",
    ),
    // One byte fewer, another part, and a total that isn't told.
    (
        "HTTP/1.1 206 OK\r\nContent-Length: 3\r\nContent-Range: bytes 2-4/10\r\n\r\n23",
        None,
        b"",
    ),
    (
        "HTTP/1.1 206 OK\r\nContent-Length: 3\r\nContent-Range: bytes 3-5/10\r\n\r\n345",
        None,
        b"",
    ),
    (
        "HTTP/1.1 206 OK\r\nContent-Length: 3\r\nContent-Range: bytes 2-4/*\r\n\r\n234",
        None,
        b"",
    ),
    // The object ends behind its fourth byte, and in front of what is asked for.
    (
        "HTTP/1.0 206 OK\ncontent-length: 2\ncontent-range: bytes 2-3/4\n\n23",
        Some(Got::Bytes(2)),
        b"23.",
    ),
    (
        "HTTP/1.1 416 OK\r\nContent-Length: 2\r\n\r\nno",
        Some(Got::Bytes(0)),
        b"...",
    ),
    (MISSING, Some(Got::Absent), b"..."),
    (
        "HTTP/1.1 200 OK\r\nContent-Length: 4\r\n\r\n0123",
        Some(Got::Bytes(2)),
        b"23.",
    ),
    // A length twice, none, and codings.
    (
        "HTTP/1.1 404 OK\r\nContent-Length: 2\r\nContent-Length: 2\r\n\r\nno",
        None,
        b"",
    ),
    ("HTTP/1.1 404 OK\r\n\r\n", None, b""),
    (
        "HTTP/1.1 404 OK\r\nContent-Encoding: Identity\r\ncontent-encoding: identity\r\nContent-Length: 2\r\n\r\nno",
        Some(Got::Absent),
        b"...",
    ),
    (
        "HTTP/1.1 404 OK\r\nContent-Encoding: identity\r\ncontent-encoding: gzip\r\nContent-Length: 2\r\n\r\nno",
        None,
        b"",
    ),
    (
        "HTTP/1.1 404 OK\r\nTransfer-Encoding: identity\r\nContent-Length: 2\r\n\r\nno",
        None,
        b"",
    ),
];

const MISSING: &str = "HTTP/1.1 404 OK\r\nContent-Length: 2\r\n\r\nno";

// Replies to a request for a length, which have no body, and aren't of a part.
const SIZES: &[Size] = &[
    (
        "HTTP/1.1 200 OK\r\nContent-Length: 18446744073709551615\r\n\r\n",
        Some(Some(u64::MAX)),
    ),
    (
        "HTTP/1.1 200 OK\r\nContent-Length: 18446744073709551616\r\n\r\n",
        None,
    ),
    ("HTTP/1.1 404 OK\r\nContent-Length: 2\r\n\r\n", Some(None)),
    (
        "HTTP/1.1 206 OK\r\nContent-Length: 3\r\nContent-Range: bytes 2-4/10\r\n\r\n",
        None,
    ),
];

// All at once, byte by byte, and 7 and 50 bytes in turn.
const PIECES: [&[usize]; 3] = [&[], &[1], &[7, 50]];

// A store over a peer that says these bytes, which come in pieces of some sizes in turn.
fn store_of(
    alloc: Global,
    said: &[u8],
    sizes: &[usize],
) -> Result<Remote<PieceDial<ScriptDial>>, Fail> {
    let script = ScriptDial::new(said.to_vec(alloc)?);
    local_store(alloc, PieceDial::new(script, sizes.to_vec(alloc)?))
}

fn check_read(rt: &impl Abort, alloc: Global, row: &Read, sizes: &[usize]) -> Result<(), Fail> {
    let (reply, answer, bytes) = row;
    let mut store = store_of(alloc, reply.as_bytes(), sizes)?;
    let mut buffer = [b'.'; 3];
    let got = read(&mut store, &mut buffer)?;
    assert_eq!(rt; got, *answer, "at {reply}");
    assert!(rt; got.is_none() || buffer.as_slice() == *bytes, "at {reply}");
    Ok(())
}

fn check_size(rt: &impl Abort, alloc: Global, row: &Size, sizes: &[usize]) -> Result<(), Fail> {
    let (reply, answer) = row;
    let mut store = store_of(alloc, reply.as_bytes(), sizes)?;
    assert_eq!(rt; size_of(&mut store, "d/s/x")?, *answer, "at {reply}");
    Ok(())
}

#[test]
fn answers_in_pieces(rt: HostRuntime) -> Result<(), Fail> {
    for sizes in PIECES {
        for row in READS {
            check_read(&rt, rt.alloc(), row, sizes)?;
        }
        for row in SIZES {
            check_size(&rt, rt.alloc(), row, sizes)?;
        }
    }
    Ok(())
}

// So many bytes of a reply come at first, and at most so many later ones: it fits, or not.
fn check_behind(
    rt: &impl Abort,
    alloc: Global,
    first: usize,
    later: usize,
    fits: bool,
) -> Result<(), Fail> {
    let said = format!(in alloc; "{MISSING}HTTP/1.1 200 OK")?;
    let mut store = store_of(alloc, said.as_bytes(), &[first, later])?;
    let got = read(&mut store, &mut [0; 3])?;
    assert_eq!(rt; got, if fits { Some(Got::Absent) } else { None });
    Ok(())
}

// Bytes that come with the head are judged with it; those that would come later are left.
#[test]
fn leaves_what_is_behind(rt: HostRuntime) -> Result<(), Fail> {
    let head = MISSING.len() - 2;
    check_behind(&rt, rt.alloc(), head + 3, 9, false)?;
    check_behind(&rt, rt.alloc(), head + 1, 9, true)?;
    check_behind(&rt, rt.alloc(), head, 2, true)
}
