//! A dial whose bytes come in pieces of given sizes.
ghost use Rattle.std.specs.Prelude.{◌<◌};

use remote_store::Dial;
use vol_base::Failed;

/// A dial that receives at most so many bytes at a time, by one size after the other, over and over, and counts them.
#[derive(Drop)]
pub(super) struct PieceDial<D: Dial> {
    dial: D,
    sizes: Vec<usize>,
    turn: usize,
    came: usize,
}

// The size of a turn.
fn size_at(sizes: &[usize], turn: usize) -> usize
    ensures { 0 < result }
{
    match sizes.get(turn % sizes.len().max(1)) {
        Some(size) => (*size).max(1),
        None => usize::MAX,
    }
}

impl<D: Dial> PieceDial<D> {
    pub(super) fn new(dial: D, sizes: Vec<usize>) -> PieceDial<D> {
        PieceDial {
            dial,
            sizes,
            turn: 0,
            came: 0,
        }
    }

    /// How many bytes came.
    pub(super) fn came(&self) -> usize {
        self.came
    }
}

impl<D: Dial> Dial for PieceDial<D> {
    ghost holds = { λ d. D.holds d.dial };

    ghost left = { λ d. D.left d.dial };

    ghost received = { λ d. D.received d.dial };

    ghost sent = { λ d. D.sent d.dial };

    ghost peer = { λ d. D.peer d.dial };

    ghost line = { λ d. D.line d.dial };

    ghost dialled = { λ d. D.dialled d.dial };

    ghost ends = { λ d. D.ends d.dial };

    ghost faults = { λ d. D.faults d.dial };

    ghost counts = { λ d. D.counts d.dial };

    ghost replies = { λ d. D.replies d.dial };

    ghost plain = { λ d. D.plain d.dial };

    fn dial(&mut self, host: &str, port: u16) -> Result<(), Failed> {
        self.dial.dial(host, port)
    }

    fn recv(&mut self, out: &mut [u8]) -> Result<usize, Failed> {
        let most = size_at(&self.sizes, self.turn).min(out.len());
        self.turn = self.turn.wrapping_add(1);
        let n = self.dial.recv(&mut out[..most])?;
        self.came = self.came.saturating_add(n);
        Ok(n)
    }

    fn send(&mut self, piece: &[u8]) -> Result<usize, Failed> {
        self.dial.send(piece)
    }
}
