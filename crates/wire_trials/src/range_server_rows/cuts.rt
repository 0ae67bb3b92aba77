//! A link whose bytes come in pieces of given sizes.
ghost use Rattle.std.specs.Prelude.{◌<◌};

use vol_base::{Failed, Link, MemoryLink};

/// A link in memory that receives at most so many bytes at a time, by one size after the other, over and over.
#[derive(Drop)]
pub(super) struct CutLink {
    link: MemoryLink,
    sizes: Vec<usize>,
    turn: usize,
}

// The size of a turn.
fn size_at(sizes: &[usize], turn: usize) -> usize
    ensures { 0 < result }
{
    match sizes.get(turn % sizes.len().max(1)) {
        Some(size) => (*size).max(1),
        None => usize::MAX,
    }
}

impl CutLink {
    pub(super) fn new(link: MemoryLink, sizes: Vec<usize>) -> CutLink {
        CutLink {
            link,
            sizes,
            turn: 0,
        }
    }

    /// The bytes that were sent.
    pub(super) fn sent(&self) -> &[u8] {
        self.link.sent()
    }
}

impl Link for CutLink {
    ghost use Rattle.std.specs.Prelude.{Some};
    ghost use Rattle.vol_base.specs.Causes.{counted, is_count};
    ghost use Rattle.vol_base.specs.Peers.{left_in, linked_course};

    ghost stream = { λ s. Some s.link.stream };

    ghost left = { λ s. Some (left_in s.link) };

    ghost sent = { λ s. Some s.link.sent };

    ghost faults = { λ s. counted s.link.faults };

    ghost counts = { λ s. is_count s.link.faults };

    ghost course = { λ s. linked_course s.link };

    fn recv(&mut self, out: &mut [u8]) -> Result<usize, Failed> {
        let most = size_at(&self.sizes, self.turn).min(out.len());
        self.turn = self.turn.wrapping_add(1);
        self.link.recv(&mut out[..most])
    }

    fn send(&mut self, piece: &[u8]) -> Result<usize, Failed> {
        self.link.send(piece)
    }
}
