//! A pipe in memory.
ghost use Rattle.std.specs.Prelude.{◌≡◌, ◌+◌, ◌++◌, Some, OnOk, OnErr, IfOk, length, take, min};

use crate::pieces::give_front;
use crate::pipe::{PipeIn, PipeOut};
use std::alloc::Global;
use std::io::{self, ErrorKind};

/// The bytes that come, how many were taken, and those that went; how many bytes a call takes at most; and the numbers of
/// the calls that fail and of those that a signal breaks off.
#[derive(Drop)]
pub struct MemoryPipe {
    pub bytes: Vec<u8>,
    pub taken: usize,
    pub gone: Vec<u8>,
    pub piece: usize,
    pub calls: u64,
    pub failing: Vec<u64>,
    pub broken_off: Vec<u64>,
}

impl MemoryPipe {
    ghost use Rattle.std.specs.Prelude.{[]};

    /// Calls that succeed, and take at most so many bytes, but one at least.
    pub fn new(alloc: Global, bytes: Vec<u8>, piece: usize) -> MemoryPipe
        ensures bytes { result.bytes ≡ bytes }
        ensures taken { result.taken ≡ 0 }
        ensures gone { result.gone.items ≡ [] }
    {
        MemoryPipe {
            bytes,
            taken: 0,
            gone: Vec::new(alloc),
            piece,
            calls: 0,
            failing: Vec::new(alloc),
            broken_off: Vec::new(alloc),
        }
    }
}

// One more call.
fn tick(calls: &mut u64, failing: &[u64], broken_off: &[u64]) -> io::Result<()> {
    let number = *calls;
    *calls = calls.saturating_add(1);
    if failing.contains(&number) {
        return Err(io::Error::from(ErrorKind::PermissionDenied));
    }
    if broken_off.contains(&number) {
        return Err(io::Error::from(ErrorKind::Interrupted));
    }
    Ok(())
}

impl PipeIn for MemoryPipe {
    ghost use Rattle.std.specs.Prelude.{Some, drop};

    ghost coming = { λ p. Some (drop p.taken p.bytes.items) };

    fn read(&mut self, out: &mut [u8]) -> io::Result<usize> {
        tick(&mut self.calls, &self.failing, &self.broken_off)?;
        if self.taken >= self.bytes.len() {
            return Ok(0);
        }
        let n = give_front(&self.bytes[self.taken..], self.piece.max(1), out);
        self.taken += n;
        Ok(n)
    }
}

impl PipeOut for MemoryPipe {
    ghost use Rattle.std.specs.Prelude.{Some};

    ghost went = { λ p. Some p.gone.items };

    fn write(&mut self, piece: &[u8]) -> io::Result<usize> {
        tick(&mut self.calls, &self.failing, &self.broken_off)?;
        let n = piece.len().min(self.piece.max(1));
        self.gone.extend_from_slice(&piece[..n])?;
        Ok(n)
    }
}
