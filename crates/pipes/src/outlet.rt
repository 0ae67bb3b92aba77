//! An outlet over a pipe.
ghost use Rattle.std.specs.Prelude.{◌≡◌, ◌<◌, ◌≤◌, ◌++◌, length, take, IfOk, OnErr};
ghost use Rattle.std.specs.Option.{option_map};
ghost use Rattle.vol_base.specs.Causes.{HasCause, counted, is_count};

use crate::counts::note_fault;
use crate::pipe::PipeOut;
use std::io::ErrorKind;
use vol_base::{Failed, Outlet};

/// A pipe as an outlet, which tells what was written where the pipe tells what went. What a signal breaks off is tried
/// again. Every other error is a fault, and so is a write that takes no byte.
#[derive(Drop)]
pub struct PipeOutlet<P> {
    pub pipe: P,
    faults: u64,
}

impl<P> PipeOutlet<P> {
    /// Nothing failed.
    pub fn new(pipe: P) -> PipeOutlet<P>
        ensures pipe { result.pipe ≡ pipe }
        ensures faults { result.faults ≡ 0 }
    {
        PipeOutlet { pipe, faults: 0 }
    }
}

// Writes some bytes of a piece, at least one, and answers how many.
#[tactic(auto, using(crate::proofs::AheadSteps::nothing_more))]
fn write_some<P: PipeOut>(pipe: &mut P, piece: &[u8]) -> Result<usize, Failed>
    requires { 0 < length piece.now }
    ensures some { IfOk result (λ n. (0 < n) × (n ≤ length piece.now)) }
    ensures written { IfOk result (λ n. P.went pipe.new ≡ option_map (λ w. w ++ take n piece.now) (P.went pipe.old)) }
    ensures refused { OnErr result (P.went pipe.new ≡ P.went pipe.old) }
{
    for _ in 0..u64::MAX {
        match pipe.write(piece) {
            Ok(0) => return Err(Failed),
            Ok(n) => return Ok(n),
            Err(error) if error.kind() == ErrorKind::Interrupted => {}
            Err(_) => return Err(Failed),
        }
    }
    Err(Failed)
}

impl<P: PipeOut> Outlet for PipeOutlet<P> {
    ghost written = { λ s. P.went s.pipe };

    ghost faults = { λ s. counted s.faults };

    ghost counts = { λ s. is_count s.faults };

    fn write(&mut self, piece: &[u8]) -> Result<usize, Failed> {
        let taken = write_some(&mut self.pipe, piece);
        note_fault(&mut self.faults, taken)
    }
}
