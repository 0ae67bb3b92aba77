//! A connection over TCP.
ghost use Rattle.std.specs.Prelude.{◌≡◌, ◌<◌, ◌≤◌, length, IfOk};
ghost use Rattle.std.specs.Io.KnownBytes.{ReadConsumes, WriteAppends};
ghost use Rattle.vol_base.specs.Causes.{HasCause, counted, is_count};
ghost use Rattle.vol_shell.specs.Effects.{LosesAtMost};

use crate::counts::count_fault;
use crate::streams::write_some;
use std::io::{self, ErrorKind, Read, Write};
use std::net::{OpenStream, Shutdown};
use std::time::{Clock, Duration, Instant};
use vol_base::{Failed, Link};

// How many bytes a connection that ends is drained of at most.
const MOST_DRAINED: usize = 65536;

// How many bytes of a reply a peer takes in a second at least.
const PACE: u64 = 16384;

// How long a peer may take for so many bytes.
fn pace(len: usize) -> Duration {
    Duration::from_millis((len as u64).saturating_mul(1000) / PACE)
}

// Until when the rest of a reply may wait, once so many bytes of it were sent: what was sent faster counts for one limit at
// most. None where the clock failed.
fn next_due(
    due: Option<Instant>,
    now: Option<Instant>,
    len: usize,
    limit: Duration,
) -> Option<Instant> {
    let due = due?.checked_add(pace(len))?;
    let most = now?.checked_add(limit)?;
    if most.duration_since(due).is_zero() {
        Some(most)
    } else {
        Some(due)
    }
}

/// How long a connection waits for its peer, and a door for its next connection. None is zero.
#[derive(Clone, Copy)]
pub struct Limits {
    /// For a whole head, from the accept or the last send on, however its bytes come.
    pub head: Duration,
    /// For the first byte behind a send.
    pub pause: Duration,
    /// For each send.
    pub send: Duration,
    /// For a reply, whose peer may fall back so far behind one that takes 16 KiB a second.
    pub reply: Duration,
    /// From the accept on: behind it no further head is waited for.
    pub age: Duration,
    /// For what still comes where the connection ends.
    pub draining: Duration,
    /// For the next try to accept, where there is no descriptor or no memory left for a connection.
    pub retry: Duration,
    /// For such tries in a row, behind which the door fails.
    pub shortage: Duration,
}

/// A stream of bytes both ways as a link, which tells nothing of what comes or was sent. What the stream has
/// left, and what it holds, where it tells that, changes by exactly the bytes that a call gives or takes.
///
/// From the accept or the last send on all that comes has to come within one limit of time, and the first byte behind a
/// send within a shorter one. Each send has a limit of its own. A reply, which is all that is sent until something comes
/// again, goes on at a least pace. Where a peer is slower, the call is a fault. So is the first receive behind a reply once
/// the connection is too old, and a clock that fails.
#[derive(Drop)]
pub struct TcpLink<C, S> {
    clock: C,
    pub stream: S,
    limits: Limits,
    // The accept; none where the clock failed, as of the next two.
    begin: Option<Instant>,
    // The accept, or the last send.
    since: Option<Instant>,
    // Until when the rest of the reply may wait.
    due: Option<Instant>,
    // Whether something was sent, and nothing came since.
    kept: bool,
    // Whether the connection was ended for its age, and no call of the stream failed.
    retired: bool,
    pub faults: u64,
}

impl<C: Clock, S> TcpLink<C, S> {
    /// A stream that was just accepted: nothing failed.
    pub fn new(clock: C, stream: S, limits: Limits) -> TcpLink<C, S>
        ensures { result.faults ≡ 0 }
    {
        let since = Instant::now(&clock).ok();
        TcpLink {
            clock,
            stream,
            limits,
            begin: since,
            since,
            due: None,
            kept: false,
            retired: false,
            faults: 0,
        }
    }

    // Until when the next byte has to come; none where no further one is waited for, and where the clock failed.
    fn end(&self) -> Option<Instant> {
        if self.is_old() {
            return None;
        }
        let limit = if self.kept {
            self.limits.pause
        } else {
            self.limits.head
        };
        self.since?.checked_add(limit)
    }

    // The end of a limit that begins now; none where the clock failed.
    fn from_now(&self, limit: Duration) -> Option<Instant> {
        Instant::now(&self.clock).ok()?.checked_add(limit)
    }

    // Whether it is now too long after a moment.
    fn is_late(&self, since: Option<Instant>, limit: Duration) -> bool {
        match (since, Instant::now(&self.clock)) {
            (Some(since), Ok(now)) => now.duration_since(since) > limit,
            _ => true,
        }
    }

    // Whether a reply was sent, and no further head is waited for.
    fn is_old(&self) -> bool {
        self.kept && self.is_late(self.begin, self.limits.age)
    }

    // Whether the connection ends for its age alone.
    fn is_retired(&self) -> bool {
        self.faults == 0 && self.is_old()
    }

    // Whether the peer takes the reply too slowly.
    fn is_slow(&self) -> bool {
        self.is_late(self.due, Duration::ZERO)
    }

    // A reply begins where something came since the last send.
    fn note_reply(&mut self)
        ensures stream { self.new.stream ≡ self.old.stream }
        ensures faults { self.new.faults ≡ self.old.faults }
    {
        if !self.kept {
            self.due = self.from_now(self.limits.reply);
        }
    }
}

impl<C: Clock, S: Read + OpenStream> TcpLink<C, S> {
    /// Ends what is sent, and drains what still comes, for a second and 64 KiB at most: a stream that is dropped with bytes
    /// unread is reset, and what was sent last is lost to the peer (RFC 9112, section 9.6). Where a call failed nothing is
    /// waited for, unless it failed for the connection's age alone.
    #[tactic(auto, using(crate::proofs::DrainSteps::loses_nothing))]
    pub fn drain(&mut self)
        ensures drained { LosesAtMost MOST_DRAINED (S.remaining self.old.stream)
            (S.remaining self.new.stream) }
        ensures faults { self.new.faults ≡ self.old.faults }
    {
        if self.faults == 0 || self.retired {
            let _ = drain(&self.clock, &mut self.stream, self.limits.draining);
        }
    }
}

impl<C: Clock, S: Read + Write + OpenStream> Link for TcpLink<C, S> {
    ghost use Rattle.std.specs.Prelude.{None, refl};

    ghost stream = { λ _. None };

    ghost left = { λ _. None };

    ghost sent = { λ _. None };

    ghost faults = { λ s. counted s.faults };

    ghost counts = { λ s. is_count s.faults };

    ghost course = { λ _. record { left_told = refl; sent_told = refl; end = tt } };

    fn recv(&mut self, out: &mut [u8]) -> Result<usize, Failed>
        ensures within { IfOk result (λ n. n ≤ length out.old) }
        ensures bytes { ReadConsumes (S.remaining self.old.stream)
            (S.remaining self.new.stream) result out.new }
        ensures cause { HasCause (counted self.old.faults) (counted self.new.faults) result }
    {
        let end = self.end();
        match receive(&self.clock, &mut self.stream, end, out) {
            Ok(len) => {
                self.kept = self.kept && len == 0;
                Ok(len)
            }
            Err(failed) => {
                self.retired = self.is_retired();
                count_fault(&mut self.faults);
                Err(failed)
            }
        }
    }

    fn send(&mut self, piece: &[u8]) -> Result<usize, Failed>
        requires { 0 < length piece.now }
        ensures some { IfOk result (λ n. (0 < n) × (n ≤ length piece.now)) }
        ensures bytes { WriteAppends (S.contents self.old.stream)
            (S.contents self.new.stream) result piece.now }
        ensures cause { HasCause (counted self.old.faults) (counted self.new.faults) result }
    {
        self.note_reply();
        let is_slow = self.is_slow();
        let taken = write_unless(is_slow, &mut self.stream, piece);
        self.since = Instant::now(&self.clock).ok();
        self.kept = true;
        match taken {
            Ok(len) => {
                self.due = next_due(self.due, self.since, len, self.limits.reply);
                Ok(len)
            }
            Err(failed) => {
                count_fault(&mut self.faults);
                Err(failed)
            }
        }
    }
}

// Writes some bytes of a piece, unless the peer is too slow.
#[tactic(auto, using(crate::proofs::KnownSteps::kept))]
fn write_unless<S: Write>(is_slow: bool, stream: &mut S, piece: &[u8]) -> Result<usize, Failed>
    requires { 0 < length piece.now }
    ensures some { IfOk result (λ n. (0 < n) × (n ≤ length piece.now)) }
    ensures bytes { WriteAppends (S.contents stream.old) (S.contents stream.new) result piece.now }
{
    if is_slow {
        return Err(Failed);
    }
    write_some(stream, piece)
}

// Reads some bytes, and waits for them until a moment at most, where there is one.
fn receive<C: Clock, S: Read + OpenStream>(
    clock: &C,
    stream: &mut S,
    end: Option<Instant>,
    out: &mut [u8],
) -> Result<usize, Failed>
    ensures within { IfOk result (λ n. n ≤ length out.old) }
    ensures bytes { ReadConsumes (S.remaining stream.old) (S.remaining stream.new) result out.new }
{
    let Some(end) = end else {
        return Err(Failed);
    };
    match read_until(clock, stream, end, out) {
        Ok(len) => Ok(len),
        Err(_) => Err(Failed),
    }
}

// Reads some bytes, and waits for them until a moment at most: a stream takes no limit of no time. What a signal
// broke off is tried again.
#[tactic(auto, using(crate::proofs::KnownSteps::kept, crate::proofs::KnownSteps::kept_twice))]
fn read_until<C: Clock, S: Read + OpenStream>(
    clock: &C,
    stream: &mut S,
    end: Instant,
    out: &mut [u8],
) -> io::Result<usize>
    ensures within { IfOk result (λ n. n ≤ length out.old) }
    ensures bytes { ReadConsumes (S.remaining stream.old) (S.remaining stream.new) result out.new }
{
    for _ in 0..u64::MAX {
        let left = end.duration_since(Instant::now(clock)?);
        stream.set_read_timeout(Some(left))?;
        match stream.read(out) {
            Err(error) if error.kind() == ErrorKind::Interrupted => {}
            given => return given,
        }
    }
    Err(io::Error::from(ErrorKind::TimedOut))
}

// Reads away what comes until a moment, or until so many bytes came.
#[tactic(auto, using(crate::proofs::DrainSteps::loses_nothing, crate::proofs::DrainSteps::loses_no_more, crate::proofs::DrainSteps::loses_more, crate::proofs::DrainSteps::loses_within))]
fn skip_until<C: Clock, S: Read + OpenStream>(
    clock: &C,
    stream: &mut S,
    end: Instant,
) -> io::Result<()>
    ensures { LosesAtMost MOST_DRAINED (S.remaining stream.old) (S.remaining stream.new) }
{
    let mut piece = [0; 4096];
    let mut left = MOST_DRAINED;
    while left > 0 {
        let most = left.min(piece.len());
        match read_until(clock, stream, end, &mut piece[..most]) {
            Ok(0) => return Ok(()),
            Ok(n) => left -= n,
            Err(error) => return Err(error),
        }
    }
    Ok(())
}

// Ends what is sent, and drains what still comes, for so long and so far at most.
#[tactic(auto, using(crate::proofs::DrainSteps::loses_nothing))]
fn drain<C: Clock, S: Read + OpenStream>(
    clock: &C,
    stream: &mut S,
    limit: Duration,
) -> io::Result<()>
    ensures { LosesAtMost MOST_DRAINED (S.remaining stream.old) (S.remaining stream.new) }
{
    stream.shutdown(Shutdown::Write)?;
    match Instant::now(clock)?.checked_add(limit) {
        Some(end) => skip_until(clock, stream, end),
        None => Ok(()),
    }
}
