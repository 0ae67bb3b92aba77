//! Where a writer gets the bytes of its chunks.
ghost use Rattle.std.specs.Prelude.{[], take, unwrap_or, ◌≡◌, ◌-◌, ◌<◌, ◌≤◌, Bool, false, true, List, ℕ, Option, length, IfSome, IsOk, IsSome, IsSomeAnd, OnOk, Some};
ghost use Rattle.vol_base.specs.Causes.{HasCauseOf};
ghost use Rattle.vol_base.specs.Outside.{Objects};
ghost use Rattle.vol_spec.specs.Encodings.{encoded};
ghost use Rattle.vol_spec.specs.Limits.{limit_of};
ghost use Rattle.vol_spec.specs.StoredCells.{cell_of};
ghost use Rattle.vol_spec.specs.StoredLists.{AreJobs};
ghost use Rattle.vol_spec.specs.declared.scale.Scale.{Scale};
ghost use Rattle.write_plan.specs.Jobs.{AreReady, FitsJob, FitsWindow, KeepsOthers, Prepares, Work, jobs_fault, jobs_of};

use crate::jobs::JobList;
use vol_base::{Fault, Store};

/// Why jobs weren't prepared: the store failed, or a chunk that they are made of has a fault.
#[derive(Clone, Copy, Debug, PartialEq, Eq)]
pub enum PrepareFault {
    StoreFault,
    Damaged { cell: [u64; 3], fault: Fault },
}

/// The chunks that a writer stores: jobs, and the raw bytes of each job's cell. Jobs are prepared
/// window by window, over the objects that the store then has, and afterwards filled in.
pub trait Chunks {
    /// The jobs: cells of a scale, their raw bytes over objects, and their faults.
    ghost work: { Self → Work };

    /// No job reads what another job's object has, where the jobs are stored as those of a data set and a
    /// scale.
    ghost apart: { Self → List ℕ → Scale → Type 0 };

    /// Preparing jobs never fails.
    ghost sure: { Self → Type 0 };

    /// The raw bytes of the jobs that are prepared.
    ghost ready: { Self → ℕ → Option (List ℕ) };

    /// What is kept of the objects from call to call is what they say.
    ghost keeps: { Self → Option Objects → Type 0 };

    /// Jobs that are prepared hold their values in memory.
    ghost holding: { Bool } = { true };

    /// The jobs.
    fn jobs(&self) -> &JobList
        ensures { result.now ≡ jobs_of (work self.now).scale (work self.now).cells };

    /// Forgets what is kept, as has to be done where the objects may have changed.
    fn forget(&mut self)
        ensures nothing { (objects : Option Objects) → keeps self.new objects }
        ensures ready { ready self.new ≡ ready self.old }
        ensures sure { sure self.old → sure self.new }
        ensures work { work self.new ≡ work self.old }
        ensures apart { (dataset : List ℕ) (s : Scale) → apart self.old dataset s → apart self.new dataset s };

    /// Whether jobs that are prepared hold their values in memory; false only where they hold none, as those of a plan.
    fn holds_values(&self) -> bool
        ensures { result ≡ false → holding ≡ false }
    {
        true
    }

    /// Prepares the jobs from one number up to, not with, another: at most a window of them where they hold values, and
    /// else as many as there are. What is kept must be what the objects say, as it is after `forget`, and behind another
    /// call where the objects stayed the same.
    ///
    /// # Errors
    /// `StoreFault` only where the store failed; else `Damaged` exactly where one of these jobs has a
    /// fault, with the first one.
    fn prepare<S: Store>(&mut self, store: &mut S, from: u64, to: u64) -> Result<(), PrepareFault>
        requires order { from ≤ to }
        requires within { to ≤ length (work self.old).cells }
        requires window { FitsWindow holding (work self.old).scale (to - from) }
        requires keeps { keeps self.old (S.objects store.old) }
        ensures prepared { OnOk result ((job : ℕ) → from ≤ job → job < to → IsSome (ready self.new job)) }
        ensures ready { OnOk result (IfSome (S.objects store.old) (λ m.
            AreReady (ready self.new) ((work self.old).raw m) from to)) }
        ensures answer { IfSome (S.objects store.old) (λ m.
            Prepares result (jobs_fault (work self.old) m from (to - from))) }
        ensures keeps { keeps self.new (S.objects store.new) }
        ensures sure { sure self.old → IsOk result × sure self.new }
        ensures work { work self.new ≡ work self.old }
        ensures apart { (dataset : List ℕ) (s : Scale) → apart self.old dataset s → apart self.new dataset s }
        ensures objects { S.objects store.new ≡ S.objects store.old }
        ensures draft { S.draft store.new ≡ S.draft store.old }
        ensures history { S.history store.new ≡ S.history store.old }
        ensures cause { HasCauseOf PrepareFault.StoreFault (S.faults store.old) (S.faults store.new) result };

    /// Puts the raw bytes of a job that is prepared.
    fn fill(&self, job: u64, raw: &mut [u8])
        requires { IsSomeAnd (ready self.now job) (λ bytes. length bytes ≡ length raw.old) }
        ensures { ready self.now job ≡ Some raw.new };

    /// Puts the chunk of a job that is prepared in front of `out`, where it is at hand as it is stored, and tells its
    /// length; `None` where its raw bytes are still to be encoded.
    fn chunk(&self, _job: u64, _out: &mut [u8]) -> Option<usize>
        requires job { _job < length (work self.now).cells }
        requires ready { IsSome (ready self.now _job) }
        requires room { limit_of (work self.now).scale.encoding (work self.now).scale.width
            (work self.now).scale.channels (work self.now).scale.size (work self.now).scale.chunk
            ≤ length _out.old }
        ensures within { IfSome result (λ n. n ≤ length _out.new) }
        ensures chunk { IfSome result (λ n. take n _out.new ≡ encoded (work self.now).scale
            (cell_of (work self.now).cells _job) (unwrap_or (ready self.now _job) [])) }
    {
        None
    }

    /// The jobs are distinct cells of the grid, in the order of their keys.
    ghost ordered: { (c : Self) → AreJobs (work c).scale (work c).cells };

    /// The bytes of a job that is prepared are as many as the values of its cell have.
    ghost fits: { (c : Self) (job : ℕ) → IfSome (ready c job) (FitsJob (work c) job) };

    /// The raw bytes of a job over objects are as many, too.
    ghost lens: { (c : Self) (m : Objects) (job : ℕ) → job < length (work c).cells →
        FitsJob (work c) job ((work c).raw m job) };

    /// Where the jobs are apart from a data set and a scale, storing one job's object leaves the raw
    /// bytes and the faults of the jobs in other objects.
    ghost kept: { (c : Self) (dataset : List ℕ) (s : Scale) → apart c dataset s →
        KeepsOthers dataset s (work c) };
}
