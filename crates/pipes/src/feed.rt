//! A feed over a pipe.
ghost use Rattle.std.specs.Prelude.{◌≡◌, ◌<◌, ◌≤◌, [], length, drop, IfOk, IfSome, OnErr};
ghost use Rattle.std.specs.Option.{option_map};
ghost use Rattle.vol_base.specs.Causes.{HasCause, counted, is_count};
ghost use Rattle.vol_base.specs.Outside.{Gives};
ghost use Rattle.pipes.specs.Left.{left_of};

use crate::ahead::{Ahead, read_some};
use crate::counts::note_fault;
use crate::pipe::PipeIn;
use std::alloc::Global;
use vol_base::{Failed, Feed};

/// A pipe as a feed, which tells what is left where the pipe tells what is still to come. What a signal breaks off is tried
/// again, and every other error is a fault.
///
/// Behind some reads of few bytes in a row it reads ahead, 64 KiB at most, and hands on from these. It waits for no more
/// than the pipe gives at once. A read of 4,096 bytes or more goes straight into the caller's buffer, once nothing is left
/// of what was read ahead.
#[derive(Drop)]
pub struct PipeFeed<P> {
    pub pipe: P,
    ahead: Ahead,
    faults: u64,
}

impl<P> PipeFeed<P> {
    /// Nothing was read ahead, and nothing failed.
    pub fn new(pipe: P, alloc: Global) -> PipeFeed<P>
        ensures pipe { result.pipe ≡ pipe }
        ensures ahead { result.ahead ≡ [] }
        ensures faults { result.faults ≡ 0 }
    {
        PipeFeed {
            pipe,
            ahead: Ahead::new(alloc),
            faults: 0,
        }
    }
}

// Takes some bytes of what is left: those that were read ahead come first.
#[tactic(auto, using(crate::proofs::AheadSteps::left_alone, crate::proofs::AheadSteps::given_ahead, crate::proofs::AheadSteps::left_ahead))]
fn take_some<P: PipeIn>(pipe: &mut P, ahead: &mut Ahead, out: &mut [u8]) -> Result<usize, Failed>
    requires { 0 < length out.old }
    ensures within { IfOk result (λ n. n ≤ length out.old) }
    ensures read { IfOk result (λ n. IfSome (left_of ahead.old (P.coming pipe.old)) (Gives n out.new)) }
    ensures left { IfOk result (λ n. left_of ahead.new (P.coming pipe.new)
        ≡ option_map (drop n) (left_of ahead.old (P.coming pipe.old))) }
    ensures refused { OnErr result (left_of ahead.new (P.coming pipe.new) ≡ left_of ahead.old (P.coming pipe.old)) }
{
    let is_small = ahead.note_read(out.len());
    if !ahead.is_empty() {
        return Ok(ahead.hand_on(out));
    }
    if is_small {
        ahead.read_on(pipe, out)
    } else {
        read_some(pipe, out)
    }
}

impl<P: PipeIn> Feed for PipeFeed<P> {
    ghost left = { λ s. left_of s.ahead (P.coming s.pipe) };

    ghost faults = { λ s. counted s.faults };

    ghost counts = { λ s. is_count s.faults };

    fn read(&mut self, out: &mut [u8]) -> Result<usize, Failed> {
        let given = take_some(&mut self.pipe, &mut self.ahead, out);
        note_fault(&mut self.faults, given)
    }
}
