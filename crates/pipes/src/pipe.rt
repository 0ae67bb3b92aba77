//! The two ends of a pipe, one method for each call of the system.
ghost use Rattle.std.specs.Prelude.{◌≡◌, ◌<◌, ◌≤◌, ◌++◌, ℕ, List, length, take, drop, Option, IfOk, IfSome, OnErr};
ghost use Rattle.std.specs.Option.{option_map};
ghost use Rattle.vol_base.specs.Outside.{Gives};

use std::io;

/// A stream that bytes come from, once and in order.
pub trait PipeIn {
    /// The bytes that are still to come, where they are told.
    ghost coming: { Self → Option (List ℕ) };

    /// Takes some bytes of what is still to come, none only at its end (`read`). Where it fails, as where a signal breaks it
    /// off, none is taken.
    fn read(&mut self, out: &mut [u8]) -> io::Result<usize>
        requires { 0 < length out.old }
        ensures within { IfOk result (λ n. n ≤ length out.old) }
        ensures read { IfOk result (λ n. IfSome (coming self.old) (Gives n out.new)) }
        ensures taken { IfOk result (λ n. coming self.new ≡ option_map (drop n) (coming self.old)) }
        ensures failed { OnErr result (coming self.new ≡ coming self.old) };
}

/// A stream that bytes go to, in order.
pub trait PipeOut {
    /// The bytes that went so far, where they are told.
    ghost went: { Self → Option (List ℕ) };

    /// Takes some bytes from the front of a piece (`write`). Where it fails, as where a signal breaks it off, none is taken.
    fn write(&mut self, piece: &[u8]) -> io::Result<usize>
        requires { 0 < length piece.now }
        ensures within { IfOk result (λ n. n ≤ length piece.now) }
        ensures gone { IfOk result (λ n. went self.new ≡ option_map (λ w. w ++ take n piece.now) (went self.old)) }
        ensures failed { OnErr result (went self.new ≡ went self.old) };
}
