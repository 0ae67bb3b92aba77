//! A feed in memory.
ghost use Rattle.std.specs.Prelude.{◌≡◌, ◌+◌, ◌-◌, ◌<◌, ◌≤◌, ◌++◌, ◌↔◌, Some, IfOk, IfSome, OnErr, IsErr, IsTrue, length, take, drop, min};
ghost use Rattle.std.specs.List.{list_any};
ghost use Rattle.std.specs.Option.{option_map};
ghost use Rattle.std.specs.Prelude.{nat_eq};
ghost use Rattle.vol_base.specs.Causes.{HasCause, counted, is_count};
ghost use Rattle.vol_base.specs.Outside.{Gives};

use crate::calls::tick;
use crate::{Failed, Feed};
use std::marker::Model;

/// The bytes that come in, how many were taken, the most bytes that one call takes, and the numbers of the
/// calls that fail.
#[derive(Drop)]
pub struct MemoryFeed {
    bytes: Vec<u8>,
    taken: usize,
    piece: usize,
    faults: u64,
    calls: u64,
    failing: Vec<u64>,
}

impl Model for MemoryFeed {
    ghost use Rattle.std.specs.Prelude.{◌≤◌, ◌<◌, length, drop};
    ghost use Rattle.vol_base.specs.Memory.{Incoming, incoming_code};

    ghost Value = { Incoming };

    ghost coded = { incoming_code };

    ghost view = { λ s. record {
      left = drop s.taken s.bytes.items;
      piece = s.piece;
      faults = s.faults;
      calls = s.calls;
      failing = s.failing.items;
    } };

    ghost invariant = { λ s. (s.taken ≤ length s.bytes.items) × (0 < s.piece) };
}

/// Puts the front of some bytes, at most so many, in front of a buffer, as far as there is room, and answers how
/// many.
pub(crate) fn give_front(left: &[u8], most: usize, out: &mut [u8]) -> usize
    ensures count { result ≡ min most (min (length left.now) (length out.old)) }
    ensures bytes { take result out.new ≡ take result left.now }
{
    let n = most.min(left.len().min(out.len()));
    out[..n].copy_from_slice(&left[..n]);
    n
}

impl MemoryFeed {
    ghost use Rattle.std.specs.Prelude.{◌≡◌, ◌<◌};

    /// These bytes, of which one call takes at most `piece`.
    pub fn new(bytes: Vec<u8>, piece: usize, failing: Vec<u64>) -> MemoryFeed
        requires { 0 < piece }
        ensures { result ≡ record {
          left = bytes.items;
          piece = piece;
          faults = 0;
          calls = 0;
          failing =
              failing.items;
        } }
    {
        MemoryFeed {
            bytes,
            taken: 0,
            piece,
            faults: 0,
            calls: 0,
            failing,
        }
    }
}

impl Feed for MemoryFeed {
    ghost use Rattle.std.specs.Prelude.{Some};
    ghost use Rattle.vol_base.specs.Memory.{one_more};

    ghost left = { λ s. Some s.left };

    ghost faults = { λ s. counted s.faults };

    ghost counts = { λ s. is_count s.faults };

    fn read(&mut self, out: &mut [u8]) -> Result<usize, Failed>
        requires { 0 < length out.old }
        ensures within { IfOk result (λ n. n ≤ length out.old) }
        ensures read { IfOk result (λ n. IfSome (Some self.old.left) (Gives n out.new)) }
        ensures left { IfOk result (λ n. Some self.new.left ≡ option_map (drop n) (Some self.old.left)) }
        ensures refused { OnErr result (Some self.new.left ≡ Some self.old.left) }
        ensures cause { HasCause (counted self.old.faults) (counted self.new.faults) result }
        ensures fails { IsErr result ↔ IsTrue (list_any (λ n. nat_eq n self.old.calls) self.old.failing) }
        ensures count { IfOk result (λ n. n ≡ min self.old.piece
            (min (length self.old.left) (length out.old))) }
        ensures ok { IfOk result (λ n. self.new ≡ record self.old {
          left = drop n self.old.left;
          calls =
              one_more self.old.calls;
        }) }
        ensures err { OnErr result (self.new ≡ record self.old {
          calls = one_more self.old.calls;
          faults =
              one_more self.old.faults;
        }) }
    {
        tick(&mut self.calls, &mut self.faults, &self.failing)?;
        let n = give_front(&self.bytes[self.taken..], self.piece, out);
        self.taken += n;
        Ok(n)
    }
}
