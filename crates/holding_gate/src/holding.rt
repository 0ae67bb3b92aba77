//! A gate that holds one worker until another one has done its job.

use std::sync::atomic::{AtomicU64, Ordering};
use std::thread;
use vol_base::{Gate, Moment};

// How many turns a worker is held at most, each with a yield.
const TURNS: u64 = 10_000_000;

/// Notes the seat of each moment of three jobs, and holds the seat that has claimed job 0 until job 1 was deposited, or for ten
/// million turns.
#[derive(Drop)]
pub struct HoldingGate {
    claimed: [AtomicU64; 3],
    deposited: [AtomicU64; 3],
    seen: AtomicU64,
}

// Notes a seat, counted from 1, in a job's word.
fn note(words: &[AtomicU64], job: u64, seat: u32) {
    if let Some(word) = words.get(job as usize) {
        word.store(seat as u64 + 1, Ordering::SeqCst);
    }
}

// The seat that a job's word has.
fn noted(words: &[AtomicU64], job: u64) -> Option<u32> {
    let word = words.get(job as usize)?;
    let seat = word.load(Ordering::SeqCst);
    u32::try_from(seat.wrapping_sub(1)).ok()
}

// Waits until a word was written, and notes that it was seen.
fn wait_for(word: &AtomicU64, seen: &AtomicU64) {
    for _ in 0..TURNS {
        if word.load(Ordering::SeqCst) != 0 {
            seen.store(1, Ordering::SeqCst);
            return;
        }
        thread::yield_now();
    }
}

impl HoldingGate {
    /// A gate that was told nothing yet.
    pub fn new() -> HoldingGate {
        HoldingGate {
            claimed: [AtomicU64::new(0), AtomicU64::new(0), AtomicU64::new(0)],
            deposited: [AtomicU64::new(0), AtomicU64::new(0), AtomicU64::new(0)],
            seen: AtomicU64::new(0),
        }
    }

    /// The seat that a job was claimed by, as far as the gate was told.
    pub fn claimed(&self, job: u64) -> Option<u32> {
        noted(&self.claimed, job)
    }

    /// The seat that a job was deposited by, as far as the gate was told.
    pub fn deposited(&self, job: u64) -> Option<u32> {
        noted(&self.deposited, job)
    }

    /// While the seat with job 0 was held, job 1 was deposited.
    pub fn was_passed(&self) -> bool {
        self.seen.load(Ordering::SeqCst) != 0
    }
}

impl Gate for HoldingGate {
    fn at(&self, seat: u32, job: u64, moment: Moment) {
        match moment {
            Moment::Claimed => note(&self.claimed, job, seat),
            Moment::Deposited => note(&self.deposited, job, seat),
        }
        if job == 0 && moment == Moment::Claimed {
            wait_for(&self.deposited[1], &self.seen);
        }
    }
}
