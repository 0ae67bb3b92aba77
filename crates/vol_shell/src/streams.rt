//! The real feeds and outlets, and what stands for a door where none is wanted.
ghost use Rattle.std.specs.Prelude.{◌<◌, ◌≤◌, length, IfOk, IsErr};
ghost use Rattle.std.specs.Io.KnownBytes.{ReadConsumes, WriteAppends};
ghost use Rattle.vol_base.specs.Causes.{HasCause, counted, is_count};

use crate::counts::count_fault;
use std::io::{ErrorKind, Read, Write};
use std::marker::Model;
use vol_base::{Door, Failed, Feed, Link, Outlet};

/// A writer of std as an outlet, which tells nothing of what was written. What the writer holds, where it
/// tells that, gains exactly the bytes that a call takes.
#[derive(Drop)]
pub struct StdOutlet<W> {
    pub inner: W,
    pub faults: u64,
}

impl<W> StdOutlet<W> {
    ghost use Rattle.std.specs.Prelude.{◌≡◌};

    /// Nothing failed.
    pub fn new(inner: W) -> StdOutlet<W>
        ensures { result ≡ record { inner = inner; faults = 0 } }
    {
        StdOutlet { inner, faults: 0 }
    }
}

/// Writes some bytes of a piece, at least one, and answers how many. What a signal broke off is tried again, and a
/// writer that takes no byte fails.
#[tactic(auto, using(crate::proofs::KnownSteps::kept, crate::proofs::KnownSteps::kept_twice, crate::proofs::KnownSteps::kept_and_grown, crate::proofs::KnownSteps::grown_by_none))]
pub(crate) fn write_some<W: Write>(inner: &mut W, piece: &[u8]) -> Result<usize, Failed>
    requires { 0 < length piece.now }
    ensures some { IfOk result (λ n. (0 < n) × (n ≤ length piece.now)) }
    ensures bytes { WriteAppends (W.contents inner.old) (W.contents inner.new) result piece.now }
{
    for _ in 0..u64::MAX {
        match inner.write(piece) {
            Ok(0) => return Err(Failed),
            Ok(n) => return Ok(n),
            Err(error) if error.kind() == ErrorKind::Interrupted => {}
            Err(_) => return Err(Failed),
        }
    }
    Err(Failed)
}

impl<W: Write> Outlet for StdOutlet<W> {
    ghost use Rattle.std.specs.Prelude.{None};

    ghost written = { λ _. None };

    ghost faults = { λ s. counted s.faults };

    ghost counts = { λ s. is_count s.faults };

    fn write(&mut self, piece: &[u8]) -> Result<usize, Failed>
        requires { 0 < length piece.now }
        ensures some { IfOk result (λ n. (0 < n) × (n ≤ length piece.now)) }
        ensures bytes { WriteAppends (W.contents self.old.inner)
            (W.contents self.new.inner) result piece.now }
        ensures cause { HasCause (counted self.old.faults) (counted self.new.faults) result }
    {
        let taken = write_some(&mut self.inner, piece);
        if taken.is_err() {
            count_fault(&mut self.faults);
        }
        taken
    }
}

/// A reader of std as a feed, which tells nothing of what is left. What the reader has left, where it tells
/// that, loses exactly the bytes that a call gives.
#[derive(Drop)]
pub struct StdFeed<R> {
    pub inner: R,
    pub faults: u64,
}

impl<R> StdFeed<R> {
    ghost use Rattle.std.specs.Prelude.{◌≡◌};

    /// Nothing failed.
    pub fn new(inner: R) -> StdFeed<R>
        ensures { result ≡ record { inner = inner; faults = 0 } }
    {
        StdFeed { inner, faults: 0 }
    }
}

/// Reads some bytes and answers how many, and none only at the end. What a signal broke off is tried again.
#[tactic(auto, using(crate::proofs::KnownSteps::kept, crate::proofs::KnownSteps::kept_twice))]
pub(crate) fn read_some<R: Read>(inner: &mut R, out: &mut [u8]) -> Result<usize, Failed>
    ensures within { IfOk result (λ n. n ≤ length out.old) }
    ensures bytes { ReadConsumes (R.remaining inner.old) (R.remaining inner.new) result out.new }
{
    for _ in 0..u64::MAX {
        match inner.read(out) {
            Ok(given) => return Ok(given),
            Err(error) if error.kind() == ErrorKind::Interrupted => {}
            Err(_) => return Err(Failed),
        }
    }
    Err(Failed)
}

impl<R: Read> Feed for StdFeed<R> {
    ghost use Rattle.std.specs.Prelude.{None};

    ghost left = { λ _. None };

    ghost faults = { λ s. counted s.faults };

    ghost counts = { λ s. is_count s.faults };

    fn read(&mut self, out: &mut [u8]) -> Result<usize, Failed>
        ensures within { IfOk result (λ n. n ≤ length out.old) }
        ensures bytes { ReadConsumes (R.remaining self.old.inner)
            (R.remaining self.new.inner) result out.new }
        ensures cause { HasCause (counted self.old.faults) (counted self.new.faults) result }
    {
        let given = read_some(&mut self.inner, out);
        if given.is_err() {
            count_fault(&mut self.faults);
        }
        given
    }
}

/// No connection: each call is a fault. It is seen as the count of its faults.
#[derive(Drop)]
pub struct NoLink {
    faults: u64,
}

impl Model for NoLink {
    ghost use Rattle.std.specs.Prelude.{ℕ};

    ghost Value = { ℕ };

    ghost view = { λ s. s.faults };
}

impl Link for NoLink {
    ghost use Rattle.std.specs.Prelude.{None, refl};

    ghost stream = { λ _. None };

    ghost left = { λ _. None };

    ghost sent = { λ _. None };

    ghost faults = { counted };

    ghost counts = { is_count };

    ghost course = { λ _. record { left_told = refl; sent_told = refl; end = tt } };

    fn recv(&mut self, _out: &mut [u8]) -> Result<usize, Failed>
        ensures fails { IsErr result }
        ensures cause { HasCause (counted self.old) (counted self.new) result }
    {
        count_fault(&mut self.faults);
        Err(Failed)
    }

    fn send(&mut self, _piece: &[u8]) -> Result<usize, Failed>
        ensures fails { IsErr result }
        ensures cause { HasCause (counted self.old) (counted self.new) result }
    {
        count_fault(&mut self.faults);
        Err(Failed)
    }
}

/// No door: each call but `close` is a fault, so no peer ever connects. It is seen as the count of its
/// faults.
#[derive(Drop)]
pub struct NoDoor {
    faults: u64,
}

impl Model for NoDoor {
    ghost use Rattle.std.specs.Prelude.{ℕ};

    ghost Value = { ℕ };

    ghost view = { λ s. s.faults };
}

impl NoDoor {
    ghost use Rattle.std.specs.Prelude.{◌≡◌};

    /// Nothing failed.
    pub fn new() -> NoDoor
        ensures { result ≡ 0 }
    {
        NoDoor { faults: 0 }
    }
}

impl Door for NoDoor {
    ghost use Rattle.std.specs.Prelude.{None};

    type End = NoLink;

    ghost bound = { λ _. None };

    ghost accepted = { λ _. 0 };

    ghost served = { λ _. None };

    ghost faults = { counted };

    ghost counts = { is_count };

    ghost notes = { λ _. tt };

    fn listen(&mut self, _port: u16) -> Result<u16, Failed>
        ensures fails { IsErr result }
        ensures cause { HasCause (counted self.old) (counted self.new) result }
    {
        count_fault(&mut self.faults);
        Err(Failed)
    }

    fn accept(&mut self) -> Result<NoLink, Failed>
        ensures fails { IsErr result }
        ensures cause { HasCause (counted self.old) (counted self.new) result }
    {
        count_fault(&mut self.faults);
        Err(Failed)
    }

    fn close(&mut self, _end: NoLink) {}
}
