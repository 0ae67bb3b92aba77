//! A link over a clock and streams of its own.
use std::cell::Cell;
use std::io::{self, ErrorKind, Read, Write};
use std::net::{OpenStream, Shutdown};
use std::process::Abort;
use std::time::{Clock, Duration};
use vol_base::Link;
use vol_shell::{Limits, TcpLink};

// A clock, and how long the next call of a stream takes.
#[derive(Drop)]
struct Course {
    now: Cell<Duration>,
    call: Cell<Duration>,
}

impl Course {
    fn pass(&self, time: Duration) {
        self.now.set(self.now.get().saturating_add(time));
    }
}

impl Clock for Course {
    fn monotonic(&self) -> io::Result<Duration> {
        Ok(self.now.get())
    }

    fn since_1970(&self) -> io::Result<Duration> {
        Ok(self.now.get())
    }
}

// A stream whose calls take their time, and that waits no longer for a byte than it is told.
#[derive(Drop)]
struct Slow<'a> {
    course: &'a Course,
    limit: Cell<Duration>,
}

impl Read for Slow<'_> {
    fn read(&mut self, out: &mut [u8]) -> io::Result<usize> {
        let call = self.course.call.get();
        let limit = self.limit.get();
        self.course.pass(call.min(limit));
        if call > limit {
            return Err(io::Error::from(ErrorKind::WouldBlock));
        }
        Ok(out.len().min(1))
    }
}

impl Write for Slow<'_> {
    fn write(&mut self, piece: &[u8]) -> io::Result<usize> {
        self.course.pass(self.course.call.get());
        Ok(piece.len())
    }

    fn flush(&mut self) -> io::Result<()> {
        Ok(())
    }
}

impl OpenStream for Slow<'_> {
    fn shutdown(&self, _how: Shutdown) -> io::Result<()> {
        Ok(())
    }

    fn set_read_timeout(&self, limit: Option<Duration>) -> io::Result<()> {
        match limit {
            Some(limit) if !limit.is_zero() => {
                self.limit.set(limit);
                Ok(())
            }
            _ => Err(io::Error::from(ErrorKind::InvalidInput)),
        }
    }
}

// A call of a link, and how many milliseconds its peer takes; a reply of a byte, or of 32 KiB.
#[derive(Clone, Copy)]
enum Call {
    Receive(u64),
    Reply(u64),
    LongReply(u64),
    Drain(u64),
}

use Call::{Drain, LongReply, Receive, Reply};

// A second for a head, a tenth of one behind a send, two for a reply and to drain, and five in all.
fn limits() -> Limits {
    Limits {
        head: Duration::from_secs(1),
        pause: Duration::from_millis(100),
        send: Duration::from_secs(1),
        reply: Duration::from_secs(2),
        age: Duration::from_secs(5),
        draining: Duration::from_secs(2),
        retry: Duration::from_millis(100),
        shortage: Duration::from_secs(1),
    }
}

// One call of a link over a stream of this course.
fn make(link: &mut TcpLink<&Course, Slow<'_>>, course: &Course, call: Call) {
    let (Receive(time) | Reply(time) | LongReply(time) | Drain(time)) = call;
    course.call.set(Duration::from_millis(time));
    match call {
        Receive(_) => {
            let _ = link.recv(&mut [0; 8]);
        }
        Reply(_) => {
            let _ = link.send(b"a");
        }
        LongReply(_) => {
            let _ = link.send(&[0; 32768]);
        }
        Drain(_) => link.drain(),
    }
}

// So many of these calls fail, and they take so many milliseconds.
fn takes(rt: &impl Abort, calls: &[Call], faults: u64, time: u64) {
    let course = Course {
        now: Cell::new(Duration::ZERO),
        call: Cell::new(Duration::ZERO),
    };
    let stream = Slow {
        course: &course,
        limit: Cell::new(Duration::ZERO),
    };
    let mut link = TcpLink::new(&course, stream, limits());
    for call in calls {
        make(&mut link, &course, *call);
    }
    assert_eq!(rt; link.faults, faults);
    assert_eq!(rt; course.now.get(), Duration::from_millis(time));
}

#[test]
fn waits_for_a_head(rt: HostRuntime) {
    takes(&rt, &[Receive(999)], 0, 999);
    takes(&rt, &[Receive(1001)], 1, 1000);
    let three = [Receive(300), Receive(300), Receive(300), Receive(99)];
    takes(&rt, &three, 0, 999);
    let four = [Receive(300), Receive(300), Receive(300), Receive(300)];
    takes(&rt, &four, 1, 1000);
}

#[test]
fn waits_less_behind_a_send(rt: HostRuntime) {
    takes(&rt, &[Receive(700), Reply(0), Receive(99)], 0, 799);
    takes(&rt, &[Receive(700), Reply(0), Receive(101)], 1, 800);
    let head = [Receive(1), Reply(0), Receive(50), Receive(949)];
    takes(&rt, &head, 0, 1000);
    let late = [Receive(1), Reply(0), Receive(50), Receive(951)];
    takes(&rt, &late, 1, 1001);
    let idle = [Receive(1), Reply(0), Receive(50), Reply(0), Receive(101)];
    takes(&rt, &idle, 1, 151);
}

#[test]
fn counts_from_the_last_send_on(rt: HostRuntime) {
    let slow = [
        Receive(900),
        Reply(800),
        Reply(800),
        Receive(99),
        Receive(800),
    ];
    takes(&rt, &slow, 0, 3399);
}

#[test]
fn gives_up_a_reply_that_is_taken_too_slowly(rt: HostRuntime) {
    // two seconds, and two for the bytes that were sent; judged before each send
    takes(&rt, &[Receive(9), Reply(1999), Reply(2), Reply(0)], 1, 2010);
    let long = [Receive(9), LongReply(3999), LongReply(1), Reply(2000)];
    takes(&rt, &long, 0, 6009);
    takes(&rt, &[Receive(9), LongReply(4001), Reply(9)], 1, 4010);
    // what was sent faster counts for two seconds at most
    let burst = [
        Receive(9),
        LongReply(0),
        LongReply(0),
        Reply(2001),
        Reply(9),
    ];
    takes(&rt, &burst, 1, 2010);
    // what comes begins another one
    let two = [Receive(9), Reply(1999), Receive(9), Reply(1999), Reply(9)];
    takes(&rt, &two, 0, 4025);
}

#[test]
fn waits_for_no_head_in_its_old_age(rt: HostRuntime) {
    let aged = [Receive(999), Reply(1900), Receive(99), Reply(1900)];
    let late = [
        aged[0],
        aged[1],
        aged[2],
        aged[3],
        Receive(99),
        Reply(4),
        Receive(9),
    ];
    takes(&rt, &late, 1, 5001);
    // amid a head it is no pause, and what is sent is drained
    let amid = [
        aged[0],
        aged[1],
        aged[2],
        aged[3],
        Receive(99),
        Receive(800),
        Reply(4),
        Receive(9),
        Drain(5000),
    ];
    takes(&rt, &amid, 1, 7801);
}

#[test]
fn drains_only_what_did_not_fail(rt: HostRuntime) {
    takes(&rt, &[Receive(1), Reply(0), Drain(5000)], 0, 2001);
    takes(
        &rt,
        &[Receive(1), Reply(0), Receive(101), Drain(5000)],
        1,
        101,
    );
}

// A stream that gives bytes only once its sending side is ended.
#[derive(Drop)]
struct Patient {
    shut: Cell<bool>,
    left: usize,
}

impl Read for Patient {
    fn read(&mut self, out: &mut [u8]) -> io::Result<usize> {
        if !self.shut.get() {
            return Err(io::Error::from(ErrorKind::WouldBlock));
        }
        let given = out.len().min(self.left).min(1000);
        self.left -= given;
        Ok(given)
    }
}

impl OpenStream for Patient {
    fn shutdown(&self, how: Shutdown) -> io::Result<()> {
        self.shut.set(how == Shutdown::Write);
        Ok(())
    }

    fn set_read_timeout(&self, _limit: Option<Duration>) -> io::Result<()> {
        Ok(())
    }
}

#[test]
fn drains_once_the_sending_side_is_ended(rt: HostRuntime) {
    for (there, left) in [(0, 0), (5000, 0), (65536, 0), (70000, 4464)] {
        let stream = Patient {
            shut: Cell::new(false),
            left: there,
        };
        let mut link = TcpLink::new(rt, stream, limits());
        link.drain();
        assert_eq!(rt; link.stream.left, left, "at {there}");
    }
}
