//! Connections over TCP as a dial.
ghost use Rattle.std.specs.Prelude.{◌≡◌, ◌+◌, ◌-◌, ◌*◌, ◌<◌, ◌≤◌, ◌^◌, true, min, length, IfOk, None};
ghost use Rattle.std.specs.Duration.{as_nanos};
ghost use Rattle.std.specs.Option.{is_some};
ghost use Rattle.vol_base.specs.Causes.{counted, is_count};

#[cfg(test)]
mod dial_rows;

use crate::known::Known;
use crate::limits::{Course, Limits, from_now, wait_until};
use remote_store::Dial;
use std::io::{self, ErrorKind, Read, Write};
use std::net::{Ipv4Addr, Net, OpenStream, SocketAddr, SocketAddrV4};
use std::time::{Clock, Duration, Instant};
use vol_base::Failed;

// How many addresses of a host are tried at most.
const MOST_ADDRESSES: usize = 16;

/// Connections over TCP, one after the other, as a dial, which tells nothing of what came or was sent.
///
/// The system looks up a host's name once: the first of its addresses that takes a connection is dialled from then on. Each
/// connection, receive and send that takes longer than `silence` is a fault; so is a look-up with what is dialled for it that
/// takes longer than `dialling`, a head that comes more slowly than `head`, and a reply that falls behind by `reply`.
#[derive(Drop)]
pub struct TcpDial<R: Net> {
    rt: R,
    limits: Limits,
    known: Option<Known>,
    stream: Option<R::Stream>,
    course: Course,
    ends: u64,
    faults: u64,
}

impl<R: Net> TcpDial<R> {
    /// No end is held, and nothing failed. A peer may be silent for 10 seconds. What is looked up and dialled has 30 seconds in
    /// all, and so has a head; a reply may fall back 10 seconds.
    pub fn new(rt: R) -> TcpDial<R>
        ensures faults { result.faults ≡ 0 }
        ensures silence { as_nanos result.limits.silence ≡ 10 * 10 ^ 9 }
        ensures dialling { as_nanos result.limits.dialling ≡ 30 * 10 ^ 9 }
        ensures head { as_nanos result.limits.head ≡ 30 * 10 ^ 9 }
        ensures reply { as_nanos result.limits.reply ≡ 10 * 10 ^ 9 }
    {
        TcpDial::with_limits(
            rt,
            Limits {
                silence: Duration::from_secs(10),
                dialling: Duration::from_secs(30),
                head: Duration::from_secs(30),
                reply: Duration::from_secs(10),
            },
        )
    }

    /// The same, with limits of its own.
    pub fn with_limits(rt: R, limits: Limits) -> TcpDial<R>
        ensures faults { result.faults ≡ 0 }
        ensures limits { result.limits ≡ limits }
    {
        TcpDial {
            rt,
            limits,
            known: None,
            stream: None,
            course: Course::begun(),
            ends: 0,
            faults: 0,
        }
    }
}

// Counts one more fault.
fn count_fault(faults: &mut u64)
    ensures { faults.new ≡ min (faults.old + 1) (2 ^ 64 - 1) }
{
    *faults = faults.saturating_add(1);
}

// A connection to the first address of some that takes one until a moment, and which it is.
fn connect_any<R: Net + Clock>(
    rt: &R,
    found: &[SocketAddr],
    silence: Duration,
    end: Option<Instant>,
) -> io::Result<(R::Stream, SocketAddr)> {
    let mut last = io::Error::from(ErrorKind::NotFound);
    for address in found {
        let wait = match wait_until(rt, end, silence) {
            Some(wait) if !wait.is_zero() => wait,
            _ => return Err(io::Error::from(ErrorKind::TimedOut)),
        };
        match rt.connect_timeout(*address, wait) {
            Ok(stream) => return Ok((stream, *address)),
            Err(error) => last = error,
        }
    }
    Err(last)
}

// The addresses of a port of a host: the one that is known, or those that the system looks up.
fn find_addresses<R: Net>(
    rt: &R,
    known: Option<Known>,
    host: &str,
    port: u16,
    found: &mut [SocketAddr],
) -> io::Result<usize>
    requires { 0 < length found.old }
    ensures { IfOk result (λ n. n ≤ length found.new) }
{
    let Some(address) = known.and_then(|known| known.find(host, port)) else {
        return rt.lookup_host(host, port, found);
    };
    found[0] = address;
    Ok(1)
}

// A connection to a port of a host, which sends without delay, with a limit for each send; and its address.
fn open_stream<R: Net + Clock>(
    rt: &R,
    limits: &Limits,
    known: Option<Known>,
    host: &str,
    port: u16,
) -> io::Result<(R::Stream, SocketAddr)> {
    let end = from_now(rt, limits.dialling);
    let nowhere = SocketAddr::V4(SocketAddrV4::new(Ipv4Addr::UNSPECIFIED, 0));
    let mut found = [nowhere; MOST_ADDRESSES];
    let count = find_addresses(rt, known, host, port, &mut found)?;
    let (stream, address) = connect_any(rt, &found[..count], limits.silence, end)?;
    stream.set_nodelay(true)?;
    stream.set_write_timeout(Some(limits.silence))?;
    Ok((stream, address))
}

// Reads some bytes, and waits for them until a moment at most: a stream takes no limit of no time. What a signal broke off is
// tried again.
fn read_until<C: Clock, S: Read + OpenStream>(
    clock: &C,
    stream: &mut S,
    end: Option<Instant>,
    most: Duration,
    out: &mut [u8],
) -> io::Result<usize>
    ensures { IfOk result (λ n. n ≤ length out.old) }
{
    for _ in 0..u64::MAX {
        stream.set_read_timeout(Some(wait_until(clock, end, most).unwrap_or(Duration::ZERO)))?;
        match stream.read(out) {
            Err(error) if error.kind() == ErrorKind::Interrupted => {}
            given => return given,
        }
    }
    Err(io::Error::from(ErrorKind::TimedOut))
}

// Reads some bytes, and none only at the end, which it is too where the peer breaks the connection off, as a server may that
// closes it with a request unread.
fn read_some<C: Clock, S: Read + OpenStream>(
    clock: &C,
    stream: &mut S,
    end: Option<Instant>,
    most: Duration,
    out: &mut [u8],
) -> Result<usize, Failed>
    ensures { IfOk result (λ n. n ≤ length out.old) }
{
    match read_until(clock, stream, end, most, out) {
        Ok(given) => Ok(given),
        Err(error) if error.kind() == ErrorKind::ConnectionReset => Ok(0),
        Err(_) => Err(Failed),
    }
}

// Writes some bytes of a piece, at least one. What a signal broke off is tried again. Where the peer broke the connection off,
// as a server may one that idles, the piece counts as written, and the next read finds the end.
fn write_some<S: Write>(stream: &mut S, piece: &[u8]) -> Result<usize, Failed>
    requires { 0 < length piece.now }
    ensures { IfOk result (λ n. (0 < n) × (n ≤ length piece.now)) }
{
    for _ in 0..u64::MAX {
        match stream.write(piece) {
            Ok(0) => return Err(Failed),
            Ok(n) => return Ok(n),
            Err(error) if error.kind() == ErrorKind::Interrupted => {}
            Err(error) if error.kind() == ErrorKind::ConnectionReset => return Ok(piece.len()),
            Err(error) if error.kind() == ErrorKind::BrokenPipe => return Ok(piece.len()),
            Err(_) => return Err(Failed),
        }
    }
    Err(Failed)
}

fn read_end<C: Clock, S: Read + OpenStream>(
    clock: &C,
    stream: &mut Option<S>,
    end: Option<Instant>,
    most: Duration,
    out: &mut [u8],
) -> Result<usize, Failed>
    ensures held { is_some stream.new ≡ is_some stream.old }
    ensures within { IfOk result (λ n. n ≤ length out.old) }
{
    match stream {
        Some(stream) => read_some(clock, stream, end, most, out),
        None => Err(Failed),
    }
}

fn write_end<S: Write>(stream: &mut Option<S>, piece: &[u8]) -> Result<usize, Failed>
    requires some { 0 < length piece.now }
    ensures held { is_some stream.new ≡ is_some stream.old }
    ensures some { IfOk result (λ n. (0 < n) × (n ≤ length piece.now)) }
{
    match stream {
        Some(stream) => write_some(stream, piece),
        None => Err(Failed),
    }
}

impl<R: Net + Clock> Dial for TcpDial<R> {
    ghost holds = { λ d. is_some d.stream };

    ghost left = { λ _. None };

    ghost received = { λ _. None };

    ghost sent = { λ _. None };

    ghost peer = { λ _. None };

    ghost line = { λ _. None };

    ghost dialled = { λ _. None };

    ghost ends = { λ d. counted d.ends };

    ghost faults = { λ d. counted d.faults };

    ghost counts = { λ d. (is_count d.ends, is_count d.faults) };

    ghost replies = { λ _. tt };

    ghost plain = { λ _. tt };

    fn dial(&mut self, host: &str, port: u16) -> Result<(), Failed> {
        self.stream = None;
        match open_stream(&self.rt, &self.limits, self.known, host, port) {
            Ok((stream, address)) => {
                self.known = Known::new(host, port, address);
                self.course = Course::new(&self.rt, &self.limits);
                self.stream = Some(stream);
                Ok(())
            }
            Err(_) => {
                count_fault(&mut self.faults);
                Err(Failed)
            }
        }
    }

    fn recv(&mut self, out: &mut [u8]) -> Result<usize, Failed> {
        let end = self.course.due();
        match read_end(&self.rt, &mut self.stream, end, self.limits.silence, out) {
            Ok(n) => {
                self.course.note(&self.rt, &self.limits, n);
                if n == 0 {
                    self.ends = self.ends.saturating_add(1);
                }
                Ok(n)
            }
            Err(failed) => {
                count_fault(&mut self.faults);
                Err(failed)
            }
        }
    }

    fn send(&mut self, piece: &[u8]) -> Result<usize, Failed> {
        let sent = write_end(&mut self.stream, piece);
        self.course = Course::new(&self.rt, &self.limits);
        match sent {
            Ok(n) => Ok(n),
            Err(failed) => {
                count_fault(&mut self.faults);
                Err(failed)
            }
        }
    }
}

#[cfg(test)]
mod tests {
    use super::*;
    use std::net::TcpListener;
    use std::test::Fail;

    // A listener of the loopback address, and a dial that holds a connection to it and waits so long for a byte.
    fn connect(
        rt: HostRuntime,
        silence: Duration,
    ) -> Result<(TcpListener, TcpDial<HostRuntime>), Fail>
        ensures { IfOk result (λ both. is_some both.1.stream ≡ true) }
    {
        let listener = TcpListener::bind(&rt, "127.0.0.1:0")?;
        let port = listener.local_addr()?.port();
        let mut dial = TcpDial::new(rt);
        dial.limits.silence = silence;
        if dial.dial("127.0.0.1", port).is_err() {
            return Err("no connection".into());
        }
        Ok((listener, dial))
    }

    // What is sent comes, what is answered is received, and the end is told.
    #[test]
    fn sends_and_receives(rt: HostRuntime) -> Result<(), Fail> {
        let (listener, mut dial) = connect(rt, Duration::from_secs(10))?;
        assert_eq!(rt; dial.send(b"abc"), Ok(3));
        let (mut end, _peer) = listener.accept()?;
        let mut got = [0; 3];
        end.read_exact(&mut got)?;
        assert_eq!(rt; got, *b"abc");
        end.write_all(b"xy")?;
        drop(end);
        let mut first = [0; 1];
        assert_eq!(rt; dial.recv(&mut first), Ok(1));
        assert_eq!(rt; first, *b"x");
        let mut second = [0; 1];
        assert_eq!(rt; dial.recv(&mut second), Ok(1));
        assert_eq!(rt; second, *b"y");
        let mut none = [0; 8];
        assert_eq!(rt; dial.recv(&mut none), Ok(0));
        assert_eq!(rt; dial.ends, 1);
        assert_eq!(rt; dial.faults, 0);
        Ok(())
    }

    #[test]
    fn waits_no_longer_for_a_silent_peer(rt: HostRuntime) -> Result<(), Fail> {
        let (_listener, mut dial) = connect(rt, Duration::from_millis(100))?;
        let mut reply = [0; 8];
        assert_eq!(rt; dial.recv(&mut reply), Err(Failed));
        assert_eq!(rt; dial.faults, 1);
        Ok(())
    }

    #[test]
    fn refuses_where_nobody_listens(rt: HostRuntime) -> Result<(), Fail> {
        let listener = TcpListener::bind(&rt, "127.0.0.1:0")?;
        let port = listener.local_addr()?.port();
        drop(listener);
        let mut dial = TcpDial::new(rt);
        assert_eq!(rt; dial.dial("127.0.0.1", port), Err(Failed));
        assert_eq!(rt; dial.faults, 1);
        Ok(())
    }
}
