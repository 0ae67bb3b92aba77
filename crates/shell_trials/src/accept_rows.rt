//! A door over a clock and a listener of its own: what `accept` waits for, what it passes over, and where it fails.
use std::cell::Cell;
use std::env::{Env, FillError};
use std::io::{self, ErrorKind, Read, Write};
use std::net::{IpAddr, Ipv4Addr, Net, OpenListener, OpenStream, SocketAddr};
use std::os::fd::{AsRawFd, RawFd};
use std::process::Abort;
use std::test::Fail;
use std::time::{Clock, Duration};
use vol_base::Door;
use vol_shell::TcpDoor;

// Linux's numbers of errors.
const EINTR: i32 = 4;

const EBADF: i32 = 9;

const ENOMEM: i32 = 12;

const ENFILE: i32 = 23;

const EMFILE: i32 = 24;

const EPROTO: i32 = 71;

const ECONNABORTED: i32 = 103;

const ENOBUFS: i32 = 105;

// What a call of the listener gives: an error, or a stream, with whether it can be told not to delay, and to wait no longer for a
// send.
#[derive(Clone, Copy)]
enum Given {
    Error(i32),
    Stream(bool, bool),
}

use Given::{Error, Stream};

// What the calls of a listener give: these in turn, so often, and then a stream.
#[derive(Clone, Copy)]
struct Plan {
    givens: &'static [Given],
    calls: usize,
}

// A clock, and a listener's plan, with how often it was called.
#[derive(Drop)]
struct Course {
    now: Cell<Duration>,
    calls: Cell<usize>,
    plan: Plan,
}

impl Course {
    fn next(&self) -> Given {
        let call = self.calls.get();
        self.calls.set(call.saturating_add(1));
        let turn = call.checked_rem(self.plan.givens.len()).unwrap_or(0);
        match self.plan.givens.get(turn) {
            Some(given) if call < self.plan.calls => *given,
            _ => Stream(true, true),
        }
    }
}

// A stream that nothing comes from.
#[derive(Drop)]
struct Mute {
    takes_no_delay: bool,
    takes_limit: bool,
}

fn allow(is_allowed: bool) -> io::Result<()> {
    if is_allowed {
        Ok(())
    } else {
        Err(io::Error::from(ErrorKind::InvalidInput))
    }
}

impl Read for Mute {
    fn read(&mut self, _out: &mut [u8]) -> io::Result<usize> {
        Ok(0)
    }
}

impl Write for Mute {
    fn write(&mut self, piece: &[u8]) -> io::Result<usize> {
        Ok(piece.len())
    }

    fn flush(&mut self) -> io::Result<()> {
        Ok(())
    }
}

impl AsRawFd for Mute {
    fn as_raw_fd(&self) -> RawFd {
        -1
    }
}

impl OpenStream for Mute {
    fn set_nodelay(&self, _nodelay: bool) -> io::Result<()> {
        allow(self.takes_no_delay)
    }

    fn set_write_timeout(&self, _limit: Option<Duration>) -> io::Result<()> {
        allow(self.takes_limit)
    }
}

// A host of a course, and its listener.
#[derive(Clone, Copy, Drop)]
struct Host<'a> {
    course: &'a Course,
    address: SocketAddr,
}

impl OpenListener for Host<'_> {
    type Stream = Mute;

    fn accept(&self) -> io::Result<(Mute, SocketAddr)> {
        match self.course.next() {
            Error(code) => Err(io::Error::from_raw_os_error(code)),
            Stream(takes_no_delay, takes_limit) => Ok((
                Mute {
                    takes_no_delay,
                    takes_limit,
                },
                self.address,
            )),
        }
    }

    fn local_addr(&self) -> io::Result<SocketAddr> {
        Ok(self.address)
    }
}

impl AsRawFd for Host<'_> {
    fn as_raw_fd(&self) -> RawFd {
        -1
    }
}

impl<'a> Net for Host<'a> {
    type Stream = Mute;

    type Listener = Host<'a>;

    fn bind(&self, _address: SocketAddr) -> io::Result<Host<'a>> {
        Ok(*self)
    }

    fn connect(&self, _address: SocketAddr) -> io::Result<Mute> {
        Err(io::Error::from(ErrorKind::Unsupported))
    }
}

impl Clock for Host<'_> {
    fn monotonic(&self) -> io::Result<Duration> {
        Ok(self.course.now.get())
    }

    fn since_1970(&self) -> io::Result<Duration> {
        Ok(self.course.now.get())
    }

    fn sleep(&self, duration: Duration) {
        let now = self.course.now.get();
        self.course.now.set(now.saturating_add(duration));
    }
}

impl Env for Host<'_> {
    fn arg(&self, _i: usize, _text: &mut [u8]) -> Result<usize, FillError> {
        Err(FillError::NotPresent)
    }

    fn var(&self, _name: &str, _text: &mut [u8]) -> Result<usize, FillError> {
        Err(FillError::NotPresent)
    }

    fn var_at(&self, _i: usize, _text: &mut [u8]) -> Result<usize, FillError> {
        Err(FillError::NotPresent)
    }
}

// Whether a door over a listener of this plan gives an end, how often it calls the listener, and how long that takes.
fn accepts(plan: Plan) -> Result<(bool, usize, Duration), Fail> {
    let course = Course {
        now: Cell::new(Duration::ZERO),
        calls: Cell::new(0),
        plan,
    };
    let host = Host {
        course: &course,
        address: SocketAddr::new(IpAddr::V4(Ipv4Addr::LOCALHOST), 80),
    };
    let mut door = TcpDoor::new(host);
    if door.listen(80).is_err() {
        return Err("the door doesn't listen".into());
    }
    let is_given = door.accept().is_ok();
    Ok((is_given, course.calls.get(), course.now.get()))
}

// So many calls give these in turn, and later ones a stream; whether an end is given, which takes one call more, and how many
// milliseconds that takes.
type Row = (&'static [Given], usize, bool, u64);

fn test_rows(rt: &impl Abort, rows: &[Row]) -> Result<(), Fail> {
    for (givens, calls, is_given, time) in rows {
        let plan = Plan {
            givens,
            calls: *calls,
        };
        let made = calls.saturating_add(usize::from(*is_given));
        let wanted = (*is_given, made, Duration::from_millis(*time));
        assert_eq!(rt; accepts(plan)?, wanted, "of {calls}");
    }
    Ok(())
}

const SHORTAGE: &[Given] = &[Error(ENOMEM), Error(ENFILE), Error(EMFILE), Error(ENOBUFS)];

const OF_ONE_PEER: &[Given] = &[
    Error(ECONNABORTED),
    Error(EPROTO),
    Error(EINTR),
    Stream(false, true),
    Stream(true, false),
];

// Every 100 milliseconds, for 20 seconds in a row.
#[test]
fn waits_for_descriptors_and_memory(rt: HostRuntime) -> Result<(), Fail> {
    test_rows(
        &rt,
        &[
            (SHORTAGE, 4, true, 400),
            (SHORTAGE, 200, true, 20000),
            (SHORTAGE, 201, false, 20000),
            (&[Error(EMFILE), Error(ECONNABORTED)], 600, true, 30000),
        ],
    )
}

#[test]
fn passes_over_what_one_peer_did(rt: HostRuntime) -> Result<(), Fail> {
    test_rows(
        &rt,
        &[(OF_ONE_PEER, 500, true, 0), (&[Error(EBADF)], 1, false, 0)],
    )
}
