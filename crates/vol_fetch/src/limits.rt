//! How long a peer is waited for.

use std::time::{Clock, Duration, Instant};

// How many bytes of a reply a peer sends in a second at least.
const PACE: u64 = 16384;

// How many bytes the head of a reply has at most.
const MOST_HEAD: u64 = 8192;

/// How long a dial waits for its peer. None is zero.
#[derive(Clone, Copy)]
pub struct Limits {
    /// For each connection, receive and send.
    pub silence: Duration,
    /// For the look-up of a host and for all that is dialled for it.
    pub dialling: Duration,
    /// For the first 8 KiB of a reply, and so for its head, from the last send on.
    pub head: Duration,
    /// For the rest, whose peer may fall back so far behind one that sends 16 KiB a second.
    pub reply: Duration,
}

/// How long it is until a moment, or how long one may wait for something else, where that is shorter; none where the clock
/// failed.
pub fn wait_until<C: Clock>(clock: &C, end: Option<Instant>, most: Duration) -> Option<Duration> {
    let now = Instant::now(clock).ok()?;
    Some(end?.duration_since(now).min(most))
}

/// A moment so much later than now; none where the clock failed.
pub fn from_now<C: Clock>(clock: &C, limit: Duration) -> Option<Instant> {
    Instant::now(clock).ok()?.checked_add(limit)
}

// How long a peer may take for so many bytes.
fn pace(len: usize) -> Duration {
    Duration::from_millis((len as u64).saturating_mul(1000) / PACE)
}

// The earlier one of two moments.
fn earlier(one: Instant, other: Instant) -> Instant {
    if one.duration_since(other).is_zero() {
        one
    } else {
        other
    }
}

/// A reply as it comes: how many bytes came since the last send, and until when more have to come; none where the clock
/// failed.
#[derive(Clone, Copy)]
pub struct Course {
    came: u64,
    due: Option<Instant>,
}

impl Course {
    /// None, since nothing was sent.
    pub fn begun() -> Course {
        Course { came: 0, due: None }
    }

    /// One of which nothing came yet.
    pub fn new<C: Clock>(clock: &C, limits: &Limits) -> Course {
        Course {
            came: 0,
            due: from_now(clock, limits.head),
        }
    }

    /// Until when more have to come.
    pub fn due(&self) -> Option<Instant> {
        self.due
    }

    // Until when the rest has to come, once so many bytes more came: what came faster counts for one limit at most.
    fn next_due(&self, most: Option<Instant>, len: usize) -> Option<Instant> {
        if self.came < MOST_HEAD {
            return most;
        }
        Some(earlier(self.due?.checked_add(pace(len))?, most?))
    }

    /// So many bytes more came.
    pub fn note<C: Clock>(&mut self, clock: &C, limits: &Limits, len: usize) {
        let came = self.came.saturating_add(len as u64);
        if came >= MOST_HEAD {
            self.due = self.next_due(from_now(clock, limits.reply), len);
        }
        self.came = came;
    }
}
