//! Feeds and outlets over pipes: of the host, whose calls a signal breaks off, and in memory, whose calls are counted.
ghost use Rattle.std.specs.Prelude.{◌<◌, length};

use pipes::{HostPipe, MemoryPipe, PipeFeed, PipeIn, PipeOut, PipeOutlet};
use std::alloc::{AllocError, AllocGlobal, Global};
use std::io::{self, ErrorKind, Read, Write};
use std::process::Abort;
use std::test::Fail;
use vol_base::{Failed, Feed, Outlet};

// A stream that a signal breaks off first, that then takes or gives two bytes, then none, and then fails.
#[derive(Drop)]
struct Halting {
    calls: u8,
}

impl Write for Halting {
    fn write(&mut self, piece: &[u8]) -> io::Result<usize> {
        self.calls = self.calls.saturating_add(1);
        match self.calls {
            1 => Err(io::Error::from(ErrorKind::Interrupted)),
            2 => Ok(piece.len().min(2)),
            3 => Ok(0),
            _ => Err(io::Error::from(ErrorKind::StorageFull)),
        }
    }

    fn flush(&mut self) -> io::Result<()> {
        Ok(())
    }
}

impl Read for Halting {
    fn read(&mut self, out: &mut [u8]) -> io::Result<usize> {
        self.calls = self.calls.saturating_add(1);
        match self.calls {
            1 => Err(io::Error::from(ErrorKind::Interrupted)),
            2 => Ok(out.len().min(2)),
            3 => Ok(0),
            _ => Err(io::Error::from(ErrorKind::TimedOut)),
        }
    }
}

#[test]
fn goes_on_after_a_signal_alone(rt: HostRuntime) {
    let mut out = PipeOutlet::new(HostPipe::new(Halting { calls: 0 }));
    assert_eq!(rt; out.write(b"abc"), Ok(2));
    assert_eq!(rt; out.write(b"c"), Err(Failed));
    assert_eq!(rt; out.write(b"c"), Err(Failed));
    let mut feed = PipeFeed::new(HostPipe::new(Halting { calls: 0 }), rt.alloc());
    let mut given = [0; 3];
    assert_eq!(rt; feed.read(&mut given), Ok(2));
    assert_eq!(rt; feed.read(&mut given), Ok(0));
    assert_eq!(rt; feed.read(&mut given), Err(Failed));
}

// The bytes 0, 1 up to 250, and again.
fn make_bytes(alloc: Global, len: usize) -> Result<Vec<u8>, AllocError> {
    let mut bytes = Vec::with_capacity(alloc, len)?;
    for n in 0..len {
        bytes.push((n % 251) as u8)?;
    }
    Ok(bytes)
}

fn feed_of(alloc: Global, len: usize, piece: usize) -> Result<PipeFeed<MemoryPipe>, AllocError> {
    let pipe = MemoryPipe::new(alloc, make_bytes(alloc, len)?, piece);
    Ok(PipeFeed::new(pipe, alloc))
}

// Reads some bytes of a feed and puts them behind others. Whether there were any.
fn read_more(
    feed: &mut PipeFeed<MemoryPipe>,
    out: &mut [u8],
    found: &mut Vec<u8>,
) -> Result<bool, Fail>
    requires { 0 < length out.old }
{
    match feed.read(out) {
        Ok(0) => Ok(false),
        Ok(n) => {
            found.extend_from_slice(&out[..n])?;
            Ok(true)
        }
        Err(_) => Err(Fail::from("a fault")),
    }
}

// Reads a feed to its end, and checks each byte and how many calls its pipe had.
fn check_read<R: AllocGlobal + Abort>(
    rt: &R,
    len: usize,
    piece: usize,
    out: &mut [u8],
    calls: u64,
) -> Result<(), Fail>
    requires { 0 < length out.old }
{
    let mut feed = feed_of(rt.alloc(), len, piece)?;
    let mut found = Vec::new(rt.alloc());
    for _ in 0..=len {
        if !read_more(&mut feed, out, &mut found)? {
            break;
        }
    }
    assert!(rt; found == make_bytes(rt.alloc(), len)?);
    assert_eq!(rt; feed.pipe.calls, calls);
    Ok(())
}

#[test]
fn small_reads_are_read_ahead(rt: HostRuntime) -> Result<(), Fail> {
    // three of 4 bytes, then 65,536 and 34,452, and the end
    check_read(&rt, 100_000, 1 << 20, &mut [0; 4], 6)?;
    // what comes at once is handed on, and no more is waited for
    check_read(&rt, 30, 3, &mut [0; 10], 11)?;
    check_read(&rt, 1000, 100, &mut [0; 4095], 11)?;
    // large ones go straight
    check_read(&rt, 100_000, 1 << 20, &mut [0; 4096], 26)
}

#[test]
fn fails_behind_what_was_read_ahead(rt: HostRuntime) -> Result<(), Fail> {
    let mut feed = feed_of(rt.alloc(), 40, 10)?;
    let mut out = [0; 8];
    feed.pipe.failing.push(2)?;
    feed.pipe.failing.push(4)?;
    feed.pipe.broken_off.push(3)?;
    let dues = [
        Ok(8),
        Ok(8),
        Err(Failed),
        Err(Failed),
        Ok(8),
        Ok(2),
        Ok(8),
        Ok(2),
        Ok(4),
        Ok(0),
    ];
    for due in dues {
        assert_eq!(rt; feed.read(&mut out), due);
    }
    Ok(())
}

#[test]
fn a_large_read_is_given_what_was_read_ahead(rt: HostRuntime) -> Result<(), Fail> {
    let mut feed = feed_of(rt.alloc(), 10_000, 4500)?;
    let mut few = [0; 1];
    for _ in 0..4u32 {
        assert_eq!(rt; feed.read(&mut few), Ok(1));
    }
    let mut many = [0; 5000];
    assert_eq!(rt; feed.read(&mut many), Ok(4499));
    assert!(rt; many[0] == 4 && many[4498] == 235);
    assert_eq!(rt; feed.read(&mut many), Ok(4500));
    assert_eq!(rt; feed.read(&mut many), Ok(997));
    assert_eq!(rt; feed.read(&mut many), Ok(0));
    Ok(())
}

#[test]
fn a_pipe_in_memory_is_short(rt: HostRuntime) -> Result<(), Fail> {
    let mut pipe = MemoryPipe::new(rt.alloc(), make_bytes(rt.alloc(), 3)?, 2);
    let mut out = [7; 4];
    assert!(rt; matches!(pipe.read(&mut out), Ok(2)));
    assert!(rt; out == [0, 1, 7, 7]);
    assert!(rt; matches!(pipe.write(b"abc"), Ok(2)));
    assert!(rt; pipe.gone.as_slice() == b"ab".as_slice());
    Ok(())
}
