//! A link in memory.
ghost use Rattle.std.specs.Prelude.{◌≡◌, ◌+◌, ◌-◌, ◌<◌, ◌≤◌, ◌++◌, ◌↔◌, Some, IfOk, IfSome, OnErr, IsErr, IsTrue, length, take, drop, min};
ghost use Rattle.std.specs.Option.{option_map};
ghost use Rattle.vol_base.specs.Causes.{HasCause, counted, is_count};
ghost use Rattle.vol_base.specs.Outside.{Gives};

use crate::calls::{count_fault, tick};
use crate::feed::give_front;
use crate::outlet::take_front;
use crate::{Failed, Link, OutOfMemory};
use std::alloc::Global;
use std::marker::Model;

/// The bytes that come in, how many were taken, what was sent, the room for it, the most bytes that one
/// call moves, and the numbers of the calls that fail.
#[derive(Drop)]
pub struct MemoryLink {
    bytes: Vec<u8>,
    taken: usize,
    sent: Vec<u8>,
    room: usize,
    piece: usize,
    faults: u64,
    calls: u64,
    failing: Vec<u64>,
}

impl Model for MemoryLink {
    ghost use Rattle.std.specs.Prelude.{◌≤◌, ◌<◌, length, vec_capacity};
    ghost use Rattle.vol_base.specs.Peers.{Linked, linked_code};

    ghost Value = { Linked };

    ghost coded = { linked_code };

    ghost view = { λ s. record {
      stream = s.bytes.items;
      taken = s.taken;
      sent = s.sent.items;
      room = s.room;
      piece = s.piece;
      faults = s.faults;
      calls = s.calls;
      failing = s.failing.items;
    } };

    ghost invariant = { λ s. (s.taken ≤ length s.bytes.items) × (length s.sent.items ≤ s.room) ×
        (s.room ≤ vec_capacity s.sent) × (0 < s.piece) };
}

impl MemoryLink {
    ghost use Rattle.std.specs.Prelude.{◌≡◌, ◌<◌, IfOk, []};

    /// These bytes to receive and room for `room` bytes to send, of which one call moves at most `piece`.
    pub fn new(
        alloc: Global,
        bytes: Vec<u8>,
        room: usize,
        piece: usize,
        failing: Vec<u64>,
    ) -> Result<MemoryLink, OutOfMemory>
        requires { 0 < piece }
        ensures { IfOk result (λ link. link ≡ record {
          stream = bytes.items;
          taken = 0;
          sent = [];
          room =
              room;
          piece = piece;
          faults = 0;
          calls = 0;
          failing = failing.items;
        }) }
    {
        match Vec::with_capacity(alloc, room) {
            Ok(sent) => Ok(MemoryLink {
                bytes,
                taken: 0,
                sent,
                room,
                piece,
                faults: 0,
                calls: 0,
                failing,
            }),
            Err(_) => Err(OutOfMemory),
        }
    }

    /// The bytes that were sent.
    pub fn sent(&self) -> &[u8]
        ensures { result.now ≡ self.now.sent }
    {
        &self.sent
    }
}

impl Link for MemoryLink {
    ghost use Rattle.std.specs.Prelude.{Some};
    ghost use Rattle.vol_base.specs.Memory.{one_more};
    ghost use Rattle.vol_base.specs.Peers.{fails_next, left_in, linked_course, refuses_sending};

    ghost stream = { λ s. Some s.stream };

    ghost left = { λ s. Some (left_in s) };

    ghost sent = { λ s. Some s.sent };

    ghost faults = { λ s. counted s.faults };

    ghost counts = { λ s. is_count s.faults };

    ghost course = { linked_course };

    fn recv(&mut self, out: &mut [u8]) -> Result<usize, Failed>
        requires { 0 < length out.old }
        ensures within { IfOk result (λ n. n ≤ length out.old) }
        ensures read { IfOk result (λ n. IfSome (Some (left_in self.old)) (Gives n out.new)) }
        ensures left { IfOk result (λ n. Some (left_in self.new)
            ≡ option_map (drop n) (Some (left_in self.old))) }
        ensures refused { OnErr result (Some (left_in self.new) ≡ Some (left_in self.old)) }
        ensures sent { Some self.new.sent ≡ Some self.old.sent }
        ensures stream { Some self.new.stream ≡ Some self.old.stream }
        ensures cause { HasCause (counted self.old.faults) (counted self.new.faults) result }
        ensures fails { IsErr result ↔ IsTrue (fails_next self.old) }
        ensures count { IfOk result (λ n. n ≡ min self.old.piece
            (min (length (left_in self.old)) (length out.old))) }
        ensures ok { IfOk result (λ n. self.new ≡ record self.old {
          taken = self.old.taken + n;
          calls =
              one_more self.old.calls;
        }) }
        ensures err { OnErr result (self.new ≡ record self.old {
          calls = one_more self.old.calls;
          faults =
              one_more self.old.faults;
        }) }
    {
        tick(&mut self.calls, &mut self.faults, &self.failing)?;
        let n = give_front(&self.bytes[self.taken..], self.piece, out);
        self.taken += n;
        Ok(n)
    }

    fn send(&mut self, piece: &[u8]) -> Result<usize, Failed>
        requires { 0 < length piece.now }
        ensures some { IfOk result (λ n. (0 < n) × (n ≤ length piece.now)) }
        ensures sent { IfOk result (λ n. Some self.new.sent
            ≡ option_map (λ w. w ++ take n piece.now) (Some self.old.sent)) }
        ensures refused { OnErr result (Some self.new.sent ≡ Some self.old.sent) }
        ensures left { Some (left_in self.new) ≡ Some (left_in self.old) }
        ensures stream { Some self.new.stream ≡ Some self.old.stream }
        ensures cause { HasCause (counted self.old.faults) (counted self.new.faults) result }
        ensures fails { IsErr result ↔ IsTrue (refuses_sending self.old) }
        ensures count { IfOk result (λ n. n ≡ min (min (self.old.room - length self.old.sent) self.old.piece)
            (length piece.now)) }
        ensures ok { IfOk result (λ n. self.new ≡ record self.old {
          sent =
              self.old.sent ++ take n piece.now;
          calls = one_more self.old.calls;
        }) }
        ensures err { OnErr result (self.new ≡ record self.old {
          calls = one_more self.old.calls;
          faults =
              one_more self.old.faults;
        }) }
    {
        tick(&mut self.calls, &mut self.faults, &self.failing)?;
        let room = self.room - self.sent.len();
        if room == 0 {
            count_fault(&mut self.faults);
            return Err(Failed);
        }
        Ok(take_front(&mut self.sent, piece, room.min(self.piece)))
    }
}
