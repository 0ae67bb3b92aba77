//! What the seats of a hall share under a lock.
ghost use Rattle.std.specs.Prelude.{◌≡◌, ◌≢◌, ◌<◌, ◌≤◌, ◌+◌, ◌++◌, ◌∷◌, ◌||◌, [], ℕ, Some, None, IfSome, IfNone, false, length};
ghost use Rattle.job_log.specs.Replay.{claim_of, claims_in, deposit_of, out_at, stage_in};
ghost use Rattle.hall.specs.Halls.{AllSoundBut, Fits, HasExactly, WhereAllTell, cut_weight, ends_of, numbers_of, sets_flag};

use crate::names::{Cuts, Hall, Nexts};
use crate::outcome::Outcome;
use crate::outside::Exit;
use job_log::{Host, JobLog, Seat};
use std::marker::{Model, PhantomData};
use std::sync::ledger::{Book, Share};
use vol_base::Link;

/// The connections as they stand, with the exit that notes each end.
#[derive(Drop)]
pub struct Middle<N: Hall, E: Link, X: Exit<E> + Drop> {
    jobs: JobLog<N>,
    exit: X,
    ran_out: bool,
    cuts: Book<Cuts<N>>,
    nexts: Book<Nexts<N>>,
    of: PhantomData<E>,
}

impl<N: Hall, E: Link, X: Exit<E> + Drop> Model for Middle<N, E, X> {
    ghost use Rattle.std.specs.Prelude.{◌≡◌};
    ghost use Rattle.job_log.specs.Replay.{claims_in};
    ghost use Rattle.hall.specs.Halls.{IsHall, View};

    ghost Value = { View };

    ghost view = { λ r. record { log = r.jobs; served = X.served r.exit; ran_out = r.ran_out } };

    ghost invariant = { λ r. IsHall N.told N.dataset (record {
      log = r.jobs;
      served = X.served r.exit;
      ran_out = r.ran_out;
    }) r.cuts.total × (r.nexts.total ≡ claims_in r.jobs) };
}

// Counts an outcome; answers whether some connection met want of memory.
fn count_outcome<N: Hall>(
    book: &mut Book<Cuts<N>>,
    cuts: &mut Share<Cuts<N>>,
    ran_out: bool,
    outcome: Outcome,
) -> bool
    requires parts { 0 < cuts.old.parts }
    ensures total { book.new.total ≡ book.old.total + cut_weight outcome }
    ensures amount { cuts.new.amount ≡ cuts.old.amount + cut_weight outcome }
    ensures parts { cuts.new.parts ≡ cuts.old.parts }
    ensures flag { result ≡ (ran_out || sets_flag outcome) }
{
    match outcome {
        Outcome::Whole => ran_out,
        Outcome::StoreCut => {
            book.add(cuts, 1);
            ran_out
        }
        Outcome::MemoryCut => true,
    }
}

impl<N: Hall, E: Link, X: Exit<E> + Drop> Middle<N, E, X> {
    /// A hall where no number was claimed, of an exit that noted nothing, where it tells what it noted.
    pub(crate) fn open(
        jobs: JobLog<N>,
        exit: X,
        cuts: Book<Cuts<N>>,
        nexts: Book<Nexts<N>>,
    ) -> Middle<N, E, X>
        requires jobs { jobs ≡ [] }
        requires noted { IfSome (X.served exit) (λ list. list ≡ []) }
        requires cuts { cuts.total ≡ 0 }
        requires nexts { nexts.total ≡ 0 }
        ensures { result ≡ record { log = []; served = X.served exit; ran_out = false } }
    {
        Middle {
            jobs,
            exit,
            ran_out: false,
            cuts,
            nexts,
            of: PhantomData,
        }
    }

    /// Claims the next number, which is that of the numbers that were given, for a seat that has nothing out.
    pub fn claim(&mut self, seat: &mut Seat<N>, nexts: &mut Share<Nexts<N>>) -> u64
        requires idle { seat.old.job ≡ None }
        requires whole { nexts.old.parts ≡ 1 }
        requires fewer { nexts.old.amount < N.jobs }
        ensures number { seat.new.number ≡ seat.old.number }
        ensures which { result ≡ nexts.old.amount }
        ensures job { seat.new.job ≡ Some result }
        ensures log { self.new.log ≡ self.old.log ++ claim_of seat.old.number result ∷ [] }
        ensures out { stage_in N.jobs self.new.log result ≡ out_at seat.old.number }
        ensures served { (self.new.served ≡ self.old.served) × (self.new.ran_out ≡ self.old.ran_out) }
        ensures next { (nexts.new.parts ≡ 1) × (nexts.new.amount ≡ nexts.old.amount + 1) }
    {
        self.nexts.audit(nexts);
        let Some(number) = self.jobs.claim(seat) else {
            unreachable!()
        };
        self.nexts.add(nexts, 1);
        number
    }

    /// Closes an end and deposits its number, in one. The end comes back exactly where the number is not out at this seat.
    pub fn deposit(
        &mut self,
        seat: &mut Seat<N>,
        cuts: &mut Share<Cuts<N>>,
        number: u64,
        end: E,
        outcome: Outcome,
    ) -> Option<E>
        requires mine { seat.old.job ≡ Some number }
        requires parts { 0 < cuts.old.parts }
        requires fits { Fits N.told N.dataset outcome (E.stream end) (E.sent end) (E.faults end) }
        ensures number { seat.new.number ≡ seat.old.number }
        ensures taken { IfNone result ((self.new.log ≡ self.old.log ++ deposit_of seat.old.number number ∷ [])
            × (seat.new.job ≡ None)) }
        ensures counted { IfNone result (cuts.new.amount ≡ cuts.old.amount + cut_weight outcome) }
        ensures flag { IfNone result (self.new.ran_out ≡ (self.old.ran_out || sets_flag outcome)) }
        ensures back { IfSome result (λ e. (self.new ≡ self.old) × (seat.new.job ≡ seat.old.job) × (e ≡ end)
            × (cuts.new.amount ≡ cuts.old.amount)) }
        ensures only { IfSome result (λ _. stage_in N.jobs self.old.log number ≢ out_at seat.old.number) }
        ensures parts { cuts.new.parts ≡ cuts.old.parts }
    {
        let Middle {
            jobs,
            exit,
            ran_out,
            cuts: book,
            nexts: _,
            of: _,
        } = self;
        if !jobs.deposit(seat, number) {
            return Some(end);
        }
        exit.close(number, end);
        *ran_out = count_outcome(book, cuts, *ran_out, outcome);
        None
    }

    /// The first number that is out, and its seat, where the host has taken all seats in.
    pub(crate) fn find_out(&mut self, host: &mut Host<N>) -> Option<(u64, u32)>
        requires { host.old.parts ≡ N.parts }
        ensures view { self.new ≡ self.old }
        ensures host { host.new ≡ host.old }
        ensures none { IfNone result (host.old.outs ≡ 0) }
        ensures some { IfSome result (λ found. (stage_in N.jobs self.old.log found.0 ≡ out_at found.1)
            × (0 < host.old.outs)) }
    {
        self.jobs.find_out(host)
    }

    /// Closes an end that came back under a number that is out, and deposits that number for the seat that has it.
    pub(crate) fn deposit_for(
        &mut self,
        host: &mut Host<N>,
        cuts: &mut Share<Cuts<N>>,
        number: u64,
        seat: u32,
        end: E,
        outcome: Outcome,
    )
        requires out { stage_in N.jobs self.old.log number ≡ out_at seat }
        requires outs { 0 < host.old.outs }
        requires parts { 0 < host.old.parts }
        requires cuts { 0 < cuts.old.parts }
        requires fits { Fits N.told N.dataset outcome (E.stream end) (E.sent end) (E.faults end) }
        ensures log { self.new.log ≡ self.old.log ++ deposit_of seat number ∷ [] }
        ensures flag { self.new.ran_out ≡ (self.old.ran_out || sets_flag outcome) }
        ensures parts { host.new.parts ≡ host.old.parts }
        ensures outs { host.new.outs + 1 ≡ host.old.outs }
        ensures counted { cuts.new.amount ≡ cuts.old.amount + cut_weight outcome }
        ensures cuts { cuts.new.parts ≡ cuts.old.parts }
    {
        let Middle {
            jobs,
            exit,
            ran_out,
            cuts: book,
            nexts: _,
            of: _,
        } = self;
        jobs.deposit_for(host, number, seat);
        exit.close(number, end);
        *ran_out = count_outcome(book, cuts, *ran_out, outcome);
    }

    /// With all seats taken in and nothing out: the exit, and whether some connection met want of memory. What was noted has
    /// exactly the numbers below those that were given, each once; and at most as many ends met a fault of their store as the shares
    /// of all seats have together, while the others are sound, or ran short of memory where some connection did.
    pub(crate) fn close(
        self,
        host: &mut Host<N>,
        cuts: &mut Share<Cuts<N>>,
        nexts: &mut Share<Nexts<N>>,
    ) -> (X, bool)
        requires whole { host.old.parts ≡ N.parts }
        requires none { host.old.outs ≡ 0 }
        requires cuts { cuts.old.parts ≡ N.parts }
        requires nexts { nexts.old.parts ≡ 1 }
        ensures exact { IfSome (X.served result.0) (λ list. HasExactly nexts.old.amount (numbers_of list)) }
        ensures each { WhereAllTell N.told (λ m. IfSome (X.served result.0) (λ list.
            AllSoundBut m N.dataset result.1 (ends_of list) cuts.old.amount)) }
    {
        let Middle {
            mut jobs,
            exit,
            ran_out,
            cuts: mut book,
            nexts: mut given,
            of: _,
        } = self;
        book.audit(cuts);
        given.audit(nexts);
        jobs.settle(host);
        (exit, ran_out)
    }
}
