//! Where workers wait for each other.

use std::sync::atomic::{AtomicU64, Ordering};
use std::thread;
use vol_base::{Gate, Moment};

// How many turns a worker is held at most, each with a yield.
const TURNS: u64 = 1_000_000;

/// Holds whoever comes with one of the first jobs until somebody came with each of these, or for a million turns, and then nobody
/// any more. Of a scale that is written once more, as for a second chunk size, it does so again. As a gate it holds a seat that has
/// claimed such a job.
#[derive(Drop)]
pub struct Meeting {
    seats: usize,
    came: [AtomicU64; 4],
    met: AtomicU64,
    missed: AtomicU64,
}

impl Meeting {
    /// A meeting of so many jobs, four at most, to which nobody came yet.
    pub fn of(seats: usize) -> Meeting {
        Meeting {
            seats,
            came: [
                AtomicU64::new(0),
                AtomicU64::new(0),
                AtomicU64::new(0),
                AtomicU64::new(0),
            ],
            met: AtomicU64::new(0),
            missed: AtomicU64::new(0),
        }
    }

    // Whether somebody came so often with each job.
    fn have_come(&self, times: u64) -> bool {
        let mut all = true;
        for word in self.came.iter().take(self.seats) {
            all = all && word.load(Ordering::SeqCst) >= times;
        }
        all
    }

    // Waits until somebody came so often with each job, or somebody waited in vain, and counts who met the others.
    fn wait_for(&self, times: u64) {
        for _ in 0..TURNS {
            if self.have_come(times) {
                self.met.fetch_add(1, Ordering::SeqCst);
                return;
            }
            if self.missed.load(Ordering::SeqCst) != 0 {
                return;
            }
            thread::yield_now();
        }
        self.missed.store(1, Ordering::SeqCst);
    }

    /// Comes with a job.
    pub fn come(&self, job: u64) {
        if let Some(word) = self.came.iter().take(self.seats).nth(job as usize) {
            let before = word.fetch_add(1, Ordering::SeqCst);
            self.wait_for(before.saturating_add(1));
        }
    }

    /// How often somebody who came with a job met those with the others.
    pub fn met(&self) -> u64 {
        self.met.load(Ordering::SeqCst)
    }
}

impl Gate for Meeting {
    fn at(&self, _seat: u32, job: u64, moment: Moment) {
        if moment == Moment::Claimed {
            self.come(job);
        }
    }
}
