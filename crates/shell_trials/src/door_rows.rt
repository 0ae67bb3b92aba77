//! A real door, with both ends in one process.
ghost use Rattle.std.specs.Prelude.{◌≡◌, None};

use std::env::{Env, FillError};
use std::io::{self, Read, Write};
use std::net::{Ipv4Addr, Net, SocketAddr, TcpListener, TcpStream};
use std::process::Abort;
use std::test::Fail;
use std::time::{Clock, Duration, Instant};
use vol_base::{Door, Failed, Link};
use vol_shell::{Limits, TcpDoor, TcpLink};

// The host's sockets and clock, and an environment where the variable has this text.
#[derive(Clone, Copy)]
struct Host {
    rt: HostRuntime,
    address: Option<&'static str>,
}

impl Net for Host {
    type Stream = TcpStream;

    type Listener = TcpListener;

    fn bind(&self, addr: SocketAddr) -> io::Result<TcpListener> {
        self.rt.bind(addr)
    }

    fn connect(&self, addr: SocketAddr) -> io::Result<TcpStream> {
        self.rt.connect(addr)
    }
}

impl Clock for Host {
    fn monotonic(&self) -> io::Result<Duration> {
        self.rt.monotonic()
    }

    fn since_1970(&self) -> io::Result<Duration> {
        self.rt.since_1970()
    }
}

impl Env for Host {
    fn arg(&self, _i: usize, _buf: &mut [u8]) -> Result<usize, FillError> {
        Err(FillError::NotPresent)
    }

    fn var(&self, name: &str, buf: &mut [u8]) -> Result<usize, FillError> {
        match self.address {
            Some(text) if name == "VOL_TOOL_ADDRESS" => {
                if text.len() > buf.len() {
                    return Err(FillError::TooLong);
                }
                buf[..text.len()].copy_from_slice(text.as_bytes());
                Ok(text.len())
            }
            _ => Err(FillError::NotPresent),
        }
    }

    fn var_at(&self, _i: usize, _buf: &mut [u8]) -> Result<usize, FillError> {
        Err(FillError::NotPresent)
    }
}

// Milliseconds.
const SHORT: u64 = 100;

const LONG: u64 = 10000;

// A door that waits so many milliseconds for a head and for each send, and that pauses and drains for a tenth of a
// second.
fn door_of(rt: HostRuntime, address: Option<&'static str>, limit: u64) -> TcpDoor<Host>
    ensures { result.port ≡ None }
{
    let limits = Limits {
        head: Duration::from_millis(limit),
        pause: Duration::from_millis(SHORT),
        send: Duration::from_millis(limit),
        reply: Duration::from_millis(limit),
        age: Duration::from_millis(LONG),
        draining: Duration::from_millis(SHORT),
        retry: Duration::from_millis(SHORT),
        shortage: Duration::from_millis(limit),
    };
    TcpDoor::with_limits(Host { rt, address }, limits)
}

// A peer of a door.
fn connect(rt: &HostRuntime, address: Ipv4Addr, port: u16) -> io::Result<TcpStream> {
    let peer = TcpStream::connect(rt, (address, port))?;
    peer.set_read_timeout(Some(Duration::from_millis(LONG)))?;
    Ok(peer)
}

// A peer that says something, and its end.
fn meet(
    rt: &HostRuntime,
    door: &mut TcpDoor<Host>,
    said: &[u8],
) -> Result<(TcpStream, TcpLink<Host, TcpStream>), Fail>
    requires { door.old.port ≡ None }
{
    let Ok(port) = door.listen(0) else {
        return Err("no port is free".into());
    };
    let mut peer = connect(rt, Ipv4Addr::LOCALHOST, port)?;
    peer.write_all(said)?;
    match door.accept() {
        Ok(end) => Ok((peer, end)),
        Err(Failed) => Err("no peer is there".into()),
    }
}

fn receives<L: Link>(rt: &impl Abort, end: &mut L, wanted: &[u8; 3]) {
    let mut got = [0; 3];
    assert_eq!(rt; end.recv(&mut got), Ok(3));
    assert_eq!(rt; got, *wanted);
}

fn is_silent<L: Link>(end: &mut L) -> bool {
    end.recv(&mut [0; 3]).is_err()
}

// Sends so many pieces of 4 KiB, or until a call fails. How many bytes were sent.
fn send_pieces<L: Link>(end: &mut L, count: usize) -> usize {
    let mut sent = 0usize;
    for _ in 0..count {
        match end.send(&[b'x'; 4096]) {
            Ok(taken) => sent = sent.saturating_add(taken),
            Err(Failed) => return sent,
        }
    }
    sent
}

// The peer sends more than is read, and gets the whole reply, which is more than it has room for, and the end.
#[test]
fn replies_before_it_closes(rt: HostRuntime) -> Result<(), Fail> {
    let mut door = door_of(rt, None, LONG);
    let (mut peer, mut end) = meet(&rt, &mut door, b"abc and more than is read")?;
    receives(&rt, &mut end, b"abc");
    assert_eq!(rt; send_pieces(&mut end, 64), 64 * 4096);
    door.close(end);
    let mut reply = Vec::new(rt.alloc());
    assert_eq!(rt; peer.read_to_end(&mut reply)?, 64 * 4096);
    Ok(())
}

// Neither for what it says nor until it reads.
#[test]
fn waits_no_longer_for_a_silent_peer(rt: HostRuntime) -> Result<(), Fail> {
    let mut door = door_of(rt, None, SHORT);
    let (_peer, mut end) = meet(&rt, &mut door, b"")?;
    assert!(rt; is_silent(&mut end));
    assert!(rt; send_pieces(&mut end, 65536) < 65536 * 4096);
    Ok(())
}

// A peer that was sent something and is silent is let go long before one that was sent nothing.
#[test]
fn waits_no_longer_for_an_idle_peer(rt: HostRuntime) -> Result<(), Fail> {
    let mut door = door_of(rt, None, LONG);
    let (_peer, mut end) = meet(&rt, &mut door, b"abc")?;
    receives(&rt, &mut end, b"abc");
    assert_eq!(rt; send_pieces(&mut end, 1), 4096);
    let begin = Instant::now(&rt)?;
    assert!(rt; is_silent(&mut end));
    assert!(rt; begin.elapsed(&rt)? < Duration::from_secs(5));
    Ok(())
}

// What may be moved into another thread.
fn can_move<T: Send>() {}

#[test]
fn goes_into_threads(_rt: HostRuntime) {
    can_move::<TcpDoor<Host>>();
    can_move::<TcpLink<Host, TcpStream>>();
}

// A second address has the same port, so the door was bound to its own address alone.
#[test]
fn listens_where_it_is_told(rt: HostRuntime) -> Result<(), Fail> {
    let mut door = door_of(rt, None, LONG);
    let Ok(port) = door.listen(0) else {
        return Err("no port is free".into());
    };
    let mut other = door_of(rt, Some("127.0.0.2"), LONG);
    assert_eq!(rt; other.listen(port), Ok(port));
    assert!(rt; connect(&rt, Ipv4Addr::new(127, 0, 0, 2), port).is_ok());
    let mut third = door_of(rt, None, LONG);
    assert_eq!(rt; third.listen(port), Err(Failed));
    Ok(())
}

#[test]
fn refuses_what_is_no_address(rt: HostRuntime) {
    for text in [
        "",
        "localhost",
        "127.0.0.1:80",
        "1.2.3",
        "127.0.0.1 ",
        "::1::",
    ] {
        let mut door = door_of(rt, Some(text), LONG);
        assert_eq!(rt; door.listen(0), Err(Failed), "at {text}");
    }
}
