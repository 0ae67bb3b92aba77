//! An outlet in memory.
ghost use Rattle.std.specs.Prelude.{◌≡◌, ◌+◌, ◌-◌, ◌<◌, ◌≤◌, ◌++◌, ◌↔◌, Some, IfOk, IfSome, OnErr, OnOk, IsErr, IsTrue, length, take, min, vec_capacity};
ghost use Rattle.std.specs.Option.{option_map};
ghost use Rattle.vol_base.specs.Causes.{HasCause, counted, is_count};

use crate::calls::{count_fault, tick};
use crate::{Failed, OutOfMemory, Outlet};
use std::alloc::Global;
use std::marker::Model;

/// What was written, the room for it, the most bytes that one call takes, and the numbers of the
/// calls that fail.
#[derive(Drop)]
pub struct MemoryOutlet {
    bytes: Vec<u8>,
    room: usize,
    piece: usize,
    faults: u64,
    calls: u64,
    failing: Vec<u64>,
}

impl Model for MemoryOutlet {
    ghost use Rattle.std.specs.Prelude.{◌≤◌, ◌<◌, length, vec_capacity};
    ghost use Rattle.vol_base.specs.Memory.{Written, written_code};

    ghost Value = { Written };

    ghost coded = { written_code };

    ghost view = { λ s. record {
      bytes = s.bytes.items;
      room = s.room;
      piece = s.piece;
      faults = s.faults;
      calls = s.calls;
      failing = s.failing.items;
    } };

    ghost invariant = { λ s. (length s.bytes.items ≤ s.room) × (s.room ≤ vec_capacity s.bytes) ×
        (0 < s.piece) };
}

/// Takes the front of a piece, at most so many bytes, into room that was reserved, and answers how many.
pub(crate) fn take_front(bytes: &mut Vec<u8>, piece: &[u8], most: usize) -> usize
    requires { length bytes.old.items + min most (length piece.now) ≤ vec_capacity bytes.old }
    ensures count { result ≡ min most (length piece.now) }
    ensures bytes { bytes.new.items ≡ bytes.old.items ++ take (min most (length piece.now)) piece.now }
    ensures room { vec_capacity bytes.old ≤ vec_capacity bytes.new }
{
    let n = most.min(piece.len());
    let taken = bytes.extend_from_slice(&piece[..n]);
    prove!(taken.is_ok());
    n
}

impl MemoryOutlet {
    ghost use Rattle.std.specs.Prelude.{◌≡◌, ◌<◌, IfOk, []};

    /// Nothing written, and room for `room` bytes, of which one call takes at most `piece`.
    pub fn new(
        alloc: Global,
        room: usize,
        piece: usize,
        failing: Vec<u64>,
    ) -> Result<MemoryOutlet, OutOfMemory>
        requires { 0 < piece }
        ensures { IfOk result (λ outlet. outlet ≡ record {
          bytes = [];
          room = room;
          piece = piece;
          faults =
              0;
          calls = 0;
          failing = failing.items;
        }) }
    {
        match Vec::with_capacity(alloc, room) {
            Ok(bytes) => Ok(MemoryOutlet {
                bytes,
                room,
                piece,
                faults: 0,
                calls: 0,
                failing,
            }),
            Err(_) => Err(OutOfMemory),
        }
    }

    /// The bytes that were written.
    pub fn written(&self) -> &[u8]
        ensures { result.now ≡ self.now.bytes }
    {
        &self.bytes
    }
}

impl Outlet for MemoryOutlet {
    ghost use Rattle.std.specs.Prelude.{Some};
    ghost use Rattle.vol_base.specs.Memory.{one_more, refuses_bytes};

    ghost written = { λ s. Some s.bytes };

    ghost faults = { λ s. counted s.faults };

    ghost counts = { λ s. is_count s.faults };

    fn write(&mut self, piece: &[u8]) -> Result<usize, Failed>
        requires { 0 < length piece.now }
        ensures some { IfOk result (λ n. (0 < n) × (n ≤ length piece.now)) }
        ensures written { IfOk result (λ n. Some self.new.bytes
            ≡ option_map (λ w. w ++ take n piece.now) (Some self.old.bytes)) }
        ensures refused { OnErr result (Some self.new.bytes ≡ Some self.old.bytes) }
        ensures cause { HasCause (counted self.old.faults) (counted self.new.faults) result }
        ensures fails { IsErr result ↔ IsTrue (refuses_bytes self.old) }
        ensures count { IfOk result (λ n. n ≡ min (min (self.old.room - length self.old.bytes) self.old.piece)
            (length piece.now)) }
        ensures ok { IfOk result (λ n. self.new ≡ record self.old {
          bytes =
              self.old.bytes ++ take n piece.now;
          calls = one_more self.old.calls;
        }) }
        ensures err { OnErr result (self.new ≡ record self.old {
          calls = one_more self.old.calls;
          faults =
              one_more self.old.faults;
        }) }
    {
        tick(&mut self.calls, &mut self.faults, &self.failing)?;
        let room = self.room - self.bytes.len();
        if room == 0 {
            count_fault(&mut self.faults);
            return Err(Failed);
        }
        Ok(take_front(&mut self.bytes, piece, room.min(self.piece)))
    }
}
