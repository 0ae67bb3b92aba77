//! A dial over a clock, a host and streams of their own: what is looked up and dialled, and how long it is waited for.

use super::TcpDial;
use crate::limits::Limits;
use remote_store::Dial;
use std::cell::Cell;
use std::io::{self, ErrorKind, Read, Write};
use std::net::{IpAddr, Ipv4Addr, Net, OpenListener, OpenStream, Shutdown, SocketAddr};
use std::os::fd::{AsRawFd, RawFd};
use std::process::Abort;
use std::time::{Clock, Duration};

// A clock; how long a look-up and a connection take, and the next call of a stream, which gives so many bytes; which addresses refuse;
// how often the host was looked up and an address dialled, and the last one's number.
#[derive(Drop)]
struct Course {
    now: Cell<u64>,
    look_up: Cell<u64>,
    connection: Cell<u64>,
    call: Cell<u64>,
    piece: Cell<usize>,
    refused: Cell<u8>,
    addresses: Cell<u8>,
    look_ups: Cell<usize>,
    dials: Cell<usize>,
    last: Cell<u8>,
}

impl Course {
    // A host of so many addresses, of which the first ones refuse, each by a connection that takes so many milliseconds.
    fn of(addresses: u8, refused: u8, connection: u64) -> Course {
        Course {
            now: Cell::new(0),
            look_up: Cell::new(0),
            connection: Cell::new(connection),
            call: Cell::new(0),
            piece: Cell::new(0),
            refused: Cell::new(refused),
            addresses: Cell::new(addresses),
            look_ups: Cell::new(0),
            dials: Cell::new(0),
            last: Cell::new(0),
        }
    }

    fn pass(&self, time: u64) {
        self.now.set(self.now.get().saturating_add(time));
    }

    // Lets so much time pass, no more than a limit; whether it was no more.
    fn is_in_time(&self, time: u64, limit: Duration) -> bool {
        let limit = u64::try_from(limit.as_millis()).unwrap_or(u64::MAX);
        self.pass(time.min(limit));
        time <= limit
    }
}

// A stream that waits no longer for bytes than it is told.
#[derive(Drop)]
struct Slow<'a> {
    course: &'a Course,
    limit: Cell<Duration>,
}

impl Read for Slow<'_> {
    fn read(&mut self, out: &mut [u8]) -> io::Result<usize> {
        if !self
            .course
            .is_in_time(self.course.call.get(), self.limit.get())
        {
            return Err(io::Error::from(ErrorKind::WouldBlock));
        }
        Ok(out.len().min(self.course.piece.get()))
    }
}

impl Write for Slow<'_> {
    fn write(&mut self, piece: &[u8]) -> io::Result<usize> {
        self.course.pass(self.course.call.get());
        Ok(piece.len())
    }

    fn flush(&mut self) -> io::Result<()> {
        Ok(())
    }
}

impl AsRawFd for Slow<'_> {
    fn as_raw_fd(&self) -> RawFd {
        -1
    }
}

impl OpenStream for Slow<'_> {
    fn shutdown(&self, _how: Shutdown) -> io::Result<()> {
        Ok(())
    }

    fn set_nodelay(&self, _nodelay: bool) -> io::Result<()> {
        Ok(())
    }

    fn set_write_timeout(&self, _limit: Option<Duration>) -> io::Result<()> {
        Ok(())
    }

    fn set_read_timeout(&self, limit: Option<Duration>) -> io::Result<()> {
        match limit {
            Some(limit) if !limit.is_zero() => {
                self.limit.set(limit);
                Ok(())
            }
            _ => Err(io::Error::from(ErrorKind::InvalidInput)),
        }
    }
}

// A host of a course.
#[derive(Clone, Copy, Drop)]
struct Host<'a> {
    course: &'a Course,
}

impl<'a> OpenListener for Host<'a> {
    type Stream = Slow<'a>;

    fn accept(&self) -> io::Result<(Slow<'a>, SocketAddr)> {
        Err(io::Error::from(ErrorKind::Unsupported))
    }

    fn local_addr(&self) -> io::Result<SocketAddr> {
        Err(io::Error::from(ErrorKind::Unsupported))
    }
}

impl AsRawFd for Host<'_> {
    fn as_raw_fd(&self) -> RawFd {
        -1
    }
}

impl<'a> Net for Host<'a> {
    type Stream = Slow<'a>;

    type Listener = Host<'a>;

    fn bind(&self, _address: SocketAddr) -> io::Result<Host<'a>> {
        Ok(*self)
    }

    fn connect(&self, _address: SocketAddr) -> io::Result<Slow<'a>> {
        Err(io::Error::from(ErrorKind::Unsupported))
    }

    fn connect_timeout(&self, address: SocketAddr, limit: Duration) -> io::Result<Slow<'a>> {
        let IpAddr::V4(address) = address.ip() else {
            return Err(io::Error::from(ErrorKind::Unsupported));
        };
        let [_, _, _, number] = address.octets();
        self.course
            .dials
            .set(self.course.dials.get().saturating_add(1));
        self.course.last.set(number);
        if !self.course.is_in_time(self.course.connection.get(), limit) {
            return Err(io::Error::from(ErrorKind::TimedOut));
        }
        if number <= self.course.refused.get() {
            return Err(io::Error::from(ErrorKind::ConnectionRefused));
        }
        Ok(Slow {
            course: self.course,
            limit: Cell::new(Duration::ZERO),
        })
    }

    fn lookup_host(&self, _host: &str, port: u16, found: &mut [SocketAddr]) -> io::Result<usize> {
        self.course
            .look_ups
            .set(self.course.look_ups.get().saturating_add(1));
        self.course.pass(self.course.look_up.get());
        let mut count = 0u8;
        for place in found.iter_mut() {
            if count == self.course.addresses.get() {
                break;
            }
            count = count.saturating_add(1);
            *place = SocketAddr::new(IpAddr::V4(Ipv4Addr::new(10, 0, 0, count)), port);
        }
        Ok(usize::from(count).min(found.len()))
    }
}

impl Clock for Host<'_> {
    fn monotonic(&self) -> io::Result<Duration> {
        Ok(Duration::from_millis(self.course.now.get()))
    }

    fn since_1970(&self) -> io::Result<Duration> {
        Ok(Duration::from_millis(self.course.now.get()))
    }
}

// A second for each call, three for what is looked up and dialled, three for a head, and two for what may fall back.
fn dial_of(course: &Course) -> TcpDial<Host<'_>> {
    TcpDial::with_limits(
        Host { course },
        Limits {
            silence: Duration::from_secs(1),
            dialling: Duration::from_secs(3),
            head: Duration::from_secs(3),
            reply: Duration::from_secs(2),
        },
    )
}

// Whether a host takes so many dials in turn, how often it was looked up, how often an address was dialled, and its last one.
fn dials(course: &Course, times: usize) -> (bool, usize, usize, u8) {
    let mut dial = dial_of(course);
    let mut is_taken = true;
    for _ in 0..times {
        is_taken = dial.dial("a", 80).is_ok() && is_taken;
    }
    (
        is_taken,
        course.look_ups.get(),
        course.dials.get(),
        course.last.get(),
    )
}

#[test]
fn looks_a_host_up_once(rt: HostRuntime) {
    assert_eq!(rt; dials(&Course::of(1, 0, 0), 3), (true, 1, 3, 1));
    // the first address that takes a connection is dialled from then on
    assert_eq!(rt; dials(&Course::of(3, 1, 0), 3), (true, 1, 4, 2));
    assert_eq!(rt; dials(&Course::of(2, 2, 0), 1), (false, 1, 2, 2));
    assert_eq!(rt; dials(&Course::of(0, 0, 0), 1), (false, 1, 0, 0));
}

#[test]
fn dials_that_address_though_it_refuses_later(rt: HostRuntime) {
    let course = Course::of(3, 1, 0);
    let mut dial = dial_of(&course);
    assert_eq!(rt; dial.dial("a", 80).is_ok(), true);
    course.refused.set(2);
    assert_eq!(rt; dial.dial("a", 80).is_ok(), false);
    assert_eq!(rt;
        (course.look_ups.get(), course.dials.get(), course.last.get()),
        (1, 3, 2)
    );
    // another port or host is looked up
    assert_eq!(rt; dial.dial("a", 81).is_ok(), true);
    assert_eq!(rt; dial.dial("b", 81).is_ok(), true);
    assert_eq!(rt;
        (course.look_ups.get(), course.dials.get(), course.last.get()),
        (3, 9, 3)
    );
}

#[test]
fn dials_for_so_long_in_all(rt: HostRuntime) {
    // of six addresses that take their second each, three are dialled
    let silent = Course::of(6, 0, 1001);
    assert_eq!(rt; dials(&silent, 1), (false, 1, 3, 3));
    assert_eq!(rt; silent.now.get(), 3000);
    // what a look-up takes counts
    let slow = Course::of(6, 0, 1001);
    slow.look_up.set(1500);
    assert_eq!(rt; dials(&slow, 1), (false, 1, 2, 2));
    assert_eq!(rt; slow.now.get(), 3000);
    let late = Course::of(6, 0, 0);
    late.look_up.set(3001);
    assert_eq!(rt; dials(&late, 1), (false, 1, 0, 0));
}

// So many bytes that come, or a send, each after so many milliseconds.
#[derive(Clone, Copy)]
enum Call {
    Receive(usize, u64),
    Send(u64),
}

use Call::{Receive, Send};

// One call of a dial that holds an end.
fn make(dial: &mut TcpDial<Host<'_>>, course: &Course, call: Call) {
    if dial.stream.is_none() {
        return;
    }
    let mut room = [0; 65536];
    match call {
        Receive(len, time) => {
            course.piece.set(len);
            course.call.set(time);
            let _ = dial.recv(&mut room);
        }
        Send(time) => {
            course.call.set(time);
            let _ = dial.send(b"a");
        }
    }
}

// So many of these calls, each made so often, fail, and they take so many milliseconds.
fn takes(rt: &impl Abort, calls: &[(Call, usize)], faults: u64, time: u64) {
    let course = Course::of(1, 0, 0);
    let mut dial = dial_of(&course);
    assert_eq!(rt; dial.dial("a", 80).is_ok(), true);
    for (call, times) in calls {
        for _ in 0..*times {
            make(&mut dial, &course, *call);
        }
    }
    assert_eq!(rt; dial.faults, faults);
    assert_eq!(rt; course.now.get(), time);
}

#[test]
fn waits_so_long_for_each_receive(rt: HostRuntime) {
    takes(&rt, &[(Send(0), 1), (Receive(9, 1000), 2)], 0, 2000);
    takes(&rt, &[(Send(0), 1), (Receive(9, 1001), 1)], 1, 1000);
}

#[test]
fn waits_so_long_for_a_head(rt: HostRuntime) {
    takes(&rt, &[(Send(0), 1), (Receive(1, 299), 10)], 0, 2990);
    takes(&rt, &[(Send(0), 1), (Receive(1, 301), 10)], 1, 3000);
    // each send begins another one
    let two = [
        (Send(0), 1),
        (Receive(1, 500), 5),
        (Send(700), 1),
        (Receive(1, 500), 5),
    ];
    takes(&rt, &two, 0, 5700);
}

#[test]
fn gives_up_a_reply_that_comes_too_slowly(rt: HostRuntime) {
    // two seconds behind the first 8 KiB, and a second for each 16 KiB more
    let head = [(Send(0), 1), (Receive(8192, 0), 1)];
    takes(&rt, &[head[0], head[1], (Receive(1, 190), 10)], 0, 1900);
    takes(&rt, &[head[0], head[1], (Receive(1, 201), 10)], 1, 2000);
    takes(
        &rt,
        &[head[0], head[1], (Receive(16384, 1000), 20)],
        0,
        20000,
    );
    takes(&rt, &[head[0], head[1], (Receive(8192, 1000), 4)], 1, 3500);
    // what came faster counts for two seconds at most
    let fast = [
        head[0],
        head[1],
        (Receive(65536, 0), 20),
        (Receive(1, 500), 5),
    ];
    takes(&rt, &fast, 1, 2000);
}
