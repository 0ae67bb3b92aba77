//! A door in memory.
ghost use Rattle.std.specs.Prelude.{◌≡◌, ◌≢◌, ◌+◌, ◌-◌, ◌<◌, ◌≤◌, ◌∷◌, ◌++◌, [], ◌↔◌, drop, map, Some, None, IfOk, OnOk, OnErr, IfSome, IsErr, IsSome, IsTrue, length};
ghost use Rattle.vol_base.specs.Causes.{HasCause, counted, is_count};

use crate::calls::{count_fault, tick};
use crate::{Door, Failed, MemoryLink, OutOfMemory};
use std::alloc::Global;
use std::marker::Model;

/// The ends that wait, those that were closed, how many were given and not yet closed, the port that is
/// bound, and the numbers of the calls that fail.
#[derive(Drop)]
pub struct MemoryDoor {
    waiting: Vec<MemoryLink>,
    closed: Vec<MemoryLink>,
    out: u64,
    bound: Option<u16>,
    faults: u64,
    calls: u64,
    failing: Vec<u64>,
}

impl Model for MemoryDoor {
    ghost use Rattle.std.specs.Prelude.{◌+◌, ◌≤◌, All, length, vec_capacity};
    ghost use Rattle.vol_base.specs.Peers.{IsFresh, Opened, opened_code};

    ghost Value = { Opened };

    ghost coded = { opened_code };

    ghost view = { λ s. record {
      waiting = s.waiting.items;
      closed = s.closed.items;
      out = s.out;
      bound = s.bound;
      faults = s.faults;
      calls = s.calls;
      failing = s.failing.items;
    } };

    ghost invariant = { λ s. All IsFresh s.waiting.items ×
        (length s.closed.items + s.out + length s.waiting.items ≤ vec_capacity s.closed) };
}

impl MemoryDoor {
    ghost use Rattle.std.specs.Prelude.{◌≡◌, All, IfOk, [], None};
    ghost use Rattle.vol_base.specs.Peers.{IsFresh};

    /// These ends, one after the other. Each of the door's calls has a number, from 0 on, `close` too, which
    /// never fails.
    pub fn new(
        alloc: Global,
        ends: Vec<MemoryLink>,
        failing: Vec<u64>,
    ) -> Result<MemoryDoor, OutOfMemory>
        requires { All IsFresh ends.items }
        ensures { IfOk result (λ door. door ≡ record {
          waiting = ends.items;
          closed = [];
          out = 0;
          bound =
              None;
          faults = 0;
          calls = 0;
          failing = failing.items;
        }) }
    {
        match Vec::with_capacity(alloc, ends.len()) {
            Ok(closed) => Ok(MemoryDoor {
                waiting: ends,
                closed,
                out: 0,
                bound: None,
                faults: 0,
                calls: 0,
                failing,
            }),
            Err(_) => Err(OutOfMemory),
        }
    }

    /// The ends that were closed, in the order of their closing.
    pub fn served(&self) -> &[MemoryLink]
        ensures { result.now ≡ self.now.closed }
    {
        &self.closed
    }
}

impl Door for MemoryDoor {
    ghost use Rattle.std.specs.Prelude.{Some};
    ghost use Rattle.vol_base.specs.Memory.{one_more};
    ghost use Rattle.vol_base.specs.Outside.{Notes};
    ghost use Rattle.vol_base.specs.Peers.{Linked, accepted_by, fails_call, opened_notes, refuses_end, served_by, left_in};

    type End = MemoryLink;

    ghost bound = { λ s. s.bound };

    ghost accepted = { accepted_by };

    ghost served = { λ s. Some (served_by s) };

    ghost faults = { λ s. counted s.faults };

    ghost counts = { λ s. is_count s.faults };

    ghost notes = { opened_notes };

    fn listen(&mut self, port: u16) -> Result<u16, Failed>
        requires { self.old.bound ≡ None }
        ensures bound { IfOk result (λ port. self.new.bound ≡ Some port) }
        ensures asked { IfOk result (λ bound. port ≢ 0 → bound ≡ port) }
        ensures refused { OnErr result (self.new.bound ≡ None) }
        ensures served { Some (served_by self.new) ≡ Some (served_by self.old) }
        ensures accepted { accepted_by self.new ≡ accepted_by self.old }
        ensures cause { HasCause (counted self.old.faults) (counted self.new.faults) result }
        ensures fails { IsErr result ↔ IsTrue (fails_call self.old) }
        ensures same { IfOk result (λ bound. bound ≡ port) }
        ensures ok { OnOk result (self.new ≡ record self.old {
          bound = Some port;
          calls =
              one_more self.old.calls;
        }) }
        ensures err { OnErr result (self.new ≡ record self.old {
          calls = one_more self.old.calls;
          faults =
              one_more self.old.faults;
        }) }
    {
        tick(&mut self.calls, &mut self.faults, &self.failing)?;
        self.bound = Some(port);
        Ok(port)
    }

    fn accept(&mut self) -> Result<MemoryLink, Failed>
        requires { IsSome self.old.bound }
        ensures fresh { IfOk result (λ end. (Some (left_in end) ≡ Some end.stream) ×
            (Some end.sent ≡ Some []) × (counted end.faults ≡ 0)) }
        ensures told { IfOk result (λ end. IsSome (Some (served_by self.old)) → IsSome (Some end.stream)) }
        ensures accepted { OnOk result (accepted_by self.new ≡ accepted_by self.old + 1) }
        ensures refused { OnErr result (accepted_by self.new ≡ accepted_by self.old) }
        ensures bound { self.new.bound ≡ self.old.bound }
        ensures served { Some (served_by self.new) ≡ Some (served_by self.old) }
        ensures cause { HasCause (counted self.old.faults) (counted self.new.faults) result }
        ensures fails { IsErr result ↔ IsTrue (refuses_end self.old) }
        ensures next { IfOk result (λ end. self.old.waiting ≡ end ∷ self.new.waiting) }
        ensures ok { OnOk result (self.new ≡ record self.old {
          waiting = drop 1 self.old.waiting;
          out =
              self.old.out + 1;
          calls = one_more self.old.calls;
        }) }
        ensures err { OnErr result (self.new ≡ record self.old {
          calls = one_more self.old.calls;
          faults =
              one_more self.old.faults;
        }) }
    {
        tick(&mut self.calls, &mut self.faults, &self.failing)?;
        if self.waiting.is_empty() {
            count_fault(&mut self.faults);
            return Err(Failed);
        }
        self.out += 1;
        Ok(self.waiting.remove(0))
    }

    fn close(&mut self, end: MemoryLink)
        ensures served { Notes (Some (served_by self.old)) (accepted_by self.old) (Some end.stream)
            (Some end.sent) (counted end.faults) (Some (served_by self.new)) }
        ensures accepted { accepted_by self.new ≡ accepted_by self.old }
        ensures bound { self.new.bound ≡ self.old.bound }
        ensures faults { counted self.new.faults ≡ counted self.old.faults }
        ensures closed { 0 < self.old.out → self.new ≡ record self.old {
          closed =
              self.old.closed ++ end ∷ [];
          out = self.old.out - 1;
          calls = one_more self.old.calls;
        } }
        ensures dropped { self.old.out ≡ 0 → self.new ≡ record self.old { calls = one_more self.old.calls } }
    {
        self.calls = self.calls.saturating_add(1);
        if self.out > 0 {
            self.out -= 1;
            let kept = self.closed.push(end);
            prove!(kept.is_ok());
        }
    }
}
