//! A round.
ghost use Rattle.std.specs.Prelude.{◌≡◌, ◌≢◌, ◌<◌, ◌≤◌, ◌+◌, ◌^◌, ◌++◌, ◌∷◌, [], ℕ, All, length, Some, None, IfSome, IfNone, true, false, slice_get, slice_index_or, vec_capacity};
ghost use Rattle.job_log.specs.Claims.{IsFree};
ghost use Rattle.job_log.specs.Replay.{IsFinished, Moves, claim_of, claims_in, deposit_of, out_at, stage_in};
ghost use Rattle.encode_round.specs.Begun.{AreBegun, HasEnough, IsShort, MayStop, bytes_done};
ghost use Rattle.encode_round.specs.Held.{HasBytes, HasLen, used_of};

use crate::names::Wanted;
use chunk_pool::Frame;
use job_log::{Event, Host, JobLog, Seat, Stage};
use std::marker::{Model, PhantomData};
use std::mem;

/// A job that a seat has out, with its frame.
#[derive(Drop)]
pub struct Work<N: Wanted> {
    pub job: u64,
    pub frame: Frame,
    pub(crate) of: PhantomData<N>,
}

/// Jobs with a frame each, of which seats claim one after the other, and deposit it with its bytes. It counts the bytes that were
/// deposited, and ends once they are as many as its limit says, if it has one. It is seen as its log.
#[derive(Drop)]
pub struct Round<N: Wanted> {
    jobs: JobLog<N>,
    frames: Vec<Option<Frame>>,
    limit: Option<u64>,
    bytes: u64,
}

impl<N: Wanted> Model for Round<N> {
    ghost use Rattle.std.specs.Prelude.{List};
    ghost use Rattle.job_log.specs.declared.stages.Event.{Event};
    ghost use Rattle.encode_round.specs.Begun.{AreBegun, IsCounted};
    ghost use Rattle.encode_round.specs.Held.{IsRound};

    ghost Value = { List Event };

    ghost view = { λ r. r.jobs };

    ghost invariant = { λ r. IsRound N.jobs N.room N.wanted N.frame_len r.jobs r.frames.items
        × IsCounted N.enough N.wanted r.jobs r.limit r.bytes × AreBegun N.seats N.enough N.wanted r.jobs };
}

// Whether there are as many bytes as a limit says, if there is one.
fn is_reached(limit: Option<u64>, bytes: u64) -> bool
    ensures yes { result ≡ true → HasEnough limit bytes }
    ensures no { result ≡ false → IsShort limit bytes }
    ensures small { IfSome limit (λ most. most < 2 ^ 64) }
{
    match limit {
        None => false,
        Some(most) => bytes >= most,
    }
}

impl<N: Wanted> Round<N> {
    // Hands out the next job with its frame, or nothing where each was claimed.
    fn claim_next(&mut self, seat: &mut Seat<N>) -> Option<Work<N>>
        requires idle { seat.old.job ≡ None }
        requires seated { seat.old.number < N.seats }
        requires free { IsFree N.jobs self.old seat.old.number }
        requires short { 0 < claims_in self.old → IsShort N.enough (bytes_done N.wanted self.old) }
        ensures number { seat.new.number ≡ seat.old.number }
        ensures none { IfNone result ((self.new ≡ self.old) × (seat.new.job ≡ None)
            × (claims_in self.old ≡ length N.wanted)) }
        ensures some { IfSome result (λ w. (self.new ≡ self.old ++ claim_of seat.old.number w.job ∷ [])
            × (seat.new.job ≡ Some w.job) × (w.job < length N.wanted)) }
        ensures frame { IfSome result (λ w. length w.frame.bytes ≡ N.frame_len) }
        ensures which { IfSome result (λ w. w.job ≡ claims_in self.old) }
        ensures out { IfSome result (λ w. stage_in (length N.wanted) self.new w.job ≡ out_at seat.old.number) }
        ensures moves { IfSome result (λ w. Moves (length N.wanted) self.old self.new w.job Stage.Idle
            (Stage.Out seat.old.number)) }
    {
        let Round {
            jobs,
            frames,
            limit: _,
            bytes: _,
        } = self;
        let Some(job) = jobs.claim(seat) else {
            return None;
        };
        let lent = mem::replace(&mut frames[job as usize], None);
        let Some(frame) = lent else { unreachable!() };
        Some(Work {
            job,
            frame,
            of: PhantomData,
        })
    }

    // Whether a job was claimed, and what was deposited has as many bytes as the round ends with.
    fn is_full(&self) -> bool
        ensures yes { result ≡ true → (0 < claims_in self.now) × HasEnough N.enough (bytes_done N.wanted self.now) }
        ensures no { result ≡ false → 0 < claims_in self.now → IsShort N.enough (bytes_done N.wanted self.now) }
    {
        if self.jobs.claimed() == 0 {
            return false;
        }
        is_reached(self.limit, self.bytes)
    }

    /// Hands out the next job with its frame, or nothing: where each was claimed; where one was, and what was deposited has as many
    /// bytes as the round ends with; or where the round has a job out at this seat.
    pub fn claim(&mut self, seat: &mut Seat<N>) -> Option<Work<N>>
        requires idle { seat.old.job ≡ None }
        requires seated { seat.old.number < N.seats }
        ensures number { seat.new.number ≡ seat.old.number }
        ensures none { IfNone result ((self.new ≡ self.old) × (seat.new.job ≡ None)
            × MayStop N.enough N.wanted self.old seat.old.number) }
        ensures some { IfSome result (λ w. (self.new ≡ self.old ++ claim_of seat.old.number w.job ∷ [])
            × (seat.new.job ≡ Some w.job) × (w.job < length N.wanted)) }
        ensures frame { IfSome result (λ w. length w.frame.bytes ≡ N.frame_len) }
        ensures which { IfSome result (λ w. w.job ≡ claims_in self.old) }
        ensures out { IfSome result (λ w. stage_in (length N.wanted) self.new w.job ≡ out_at seat.old.number) }
        ensures moves { IfSome result (λ w. Moves (length N.wanted) self.old self.new w.job Stage.Idle
            (Stage.Out seat.old.number)) }
    {
        if self.is_full() {
            return None;
        }
        if self.jobs.has_out(seat.number) {
            return None;
        }
        self.claim_next(seat)
    }

    /// How many jobs were claimed.
    pub fn claimed(&self) -> u64
        ensures count { result ≡ claims_in self.now }
        ensures few { result ≤ length N.wanted }
    {
        self.jobs.claimed()
    }

    /// Takes a job's frame with its bytes. The work comes back exactly where the job is not out at this seat.
    pub fn deposit(&mut self, seat: &mut Seat<N>, work: Work<N>) -> Option<Work<N>>
        requires mine { seat.old.job ≡ Some work.job }
        requires length { length work.frame.bytes ≡ N.frame_len }
        requires wanted { slice_get N.wanted work.job ≡ Some (used_of work.frame) }
        ensures number { seat.new.number ≡ seat.old.number }
        ensures taken { IfNone result ((self.new ≡ self.old ++ deposit_of seat.old.number work.job ∷ [])
            × (seat.new.job ≡ None)) }
        ensures moves { IfNone result (Moves (length N.wanted) self.old self.new work.job (Stage.Out seat.old.number)
            Stage.Done) }
        ensures back { IfSome result (λ w. (self.new ≡ self.old) × (seat.new.job ≡ seat.old.job) × (w ≡ work)) }
        ensures only { IfSome result (λ _. stage_in (length N.wanted) self.old work.job ≢ out_at seat.old.number) }
    {
        let Round {
            jobs,
            frames,
            limit: _,
            bytes,
        } = self;
        if !jobs.deposit(seat, work.job) {
            return Some(work);
        }
        let Work { job, frame, of: _ } = work;
        *bytes = bytes.saturating_add(frame.used().len() as u64);
        frames[job as usize] = Some(frame);
        None
    }

    /// A round in which each job is idle, and has a frame.
    pub(crate) fn open(jobs: JobLog<N>, frames: Vec<Option<Frame>>, limit: Option<u64>) -> Round<N>
        requires jobs { jobs ≡ [] }
        requires limit { limit ≡ N.enough }
        requires named { N.jobs ≡ length N.wanted }
        requires enough { N.jobs ≤ length frames.items }
        requires all { length frames.items + length frames.items ≡ N.room }
        requires frames { All (HasLen N.frame_len) frames.items }
        ensures { result ≡ [] }
    {
        Round {
            jobs,
            frames,
            limit,
            bytes: 0,
        }
    }

    /// The first job that is out, and its seat, where the host has taken all seats in.
    pub(crate) fn find_out(&mut self, host: &mut Host<N>) -> Option<(u64, u32)>
        requires { host.old.parts ≡ N.parts }
        ensures log { self.new ≡ self.old }
        ensures host { host.new ≡ host.old }
        ensures none { IfNone result (host.old.outs ≡ 0) }
        ensures some { IfSome result (λ found. (stage_in (length N.wanted) self.old found.0 ≡ out_at found.1)
            × (found.0 < length N.wanted) × (0 < host.old.outs)) }
    {
        self.jobs.find_out(host)
    }

    /// Takes the frame of a job that is out with its bytes, for the seat that has it out.
    pub(crate) fn deposit_for(&mut self, host: &mut Host<N>, job: u64, seat: u32, frame: Frame)
        requires out { stage_in (length N.wanted) self.old job ≡ out_at seat }
        requires job { job < length N.wanted }
        requires outs { 0 < host.old.outs }
        requires parts { 0 < host.old.parts }
        requires length { length frame.bytes ≡ N.frame_len }
        requires wanted { slice_get N.wanted job ≡ Some (used_of frame) }
        ensures log { self.new ≡ self.old ++ deposit_of seat job ∷ [] }
        ensures parts { host.new.parts ≡ host.old.parts }
        ensures outs { host.new.outs + 1 ≡ host.old.outs }
    {
        let Round {
            jobs,
            frames,
            limit: _,
            bytes,
        } = self;
        jobs.deposit_for(host, job, seat);
        *bytes = bytes.saturating_add(frame.used().len() as u64);
        frames[job as usize] = Some(frame);
    }

    /// Tells that each seat is free, where the host has taken all seats in, with nothing out.
    pub(crate) fn settle(&mut self, host: &mut Host<N>)
        requires whole { host.old.parts ≡ N.parts }
        requires none { host.old.outs ≡ 0 }
        ensures log { self.new ≡ self.old }
        ensures host { host.new ≡ host.old }
        ensures free { (seat : ℕ) → IsFree (length N.wanted) self.old seat }
    {
        self.jobs.settle(host);
    }

    /// Ends a round whose host has taken all seats in, with nothing out. Its frames come back, those of the jobs that were claimed
    /// with their bytes.
    pub(crate) fn close(self, host: Host<N>) -> (Vec<Stage>, Vec<Event>, Vec<Option<Frame>>)
        requires whole { host.parts ≡ N.parts }
        requires none { host.outs ≡ 0 }
        requires few { claims_in self ≤ length N.wanted }
        ensures finished { IsFinished N.jobs (claims_in self) result.1.items }
        ensures log { result.1.items ≡ self }
        ensures begun { AreBegun N.seats N.enough N.wanted result.1.items }
        ensures stages { N.room ≤ vec_capacity result.0 }
        ensures room { N.room ≤ vec_capacity result.1 }
        ensures count { length result.2.items + length result.2.items ≡ N.room }
        ensures frames { All (HasLen N.frame_len) result.2.items }
        ensures chunks { (k : ℕ) (d : _) → k < claims_in self →
            HasBytes N.frame_len (slice_get N.wanted k) (slice_index_or result.2.items k d) }
    {
        let Round {
            jobs,
            frames,
            limit: _,
            bytes: _,
        } = self;
        let (stages, log) = jobs.close(host);
        (stages, log, frames)
    }
}
