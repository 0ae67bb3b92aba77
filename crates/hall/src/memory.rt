//! Stand-ins: a door as an entrance, and an exit that keeps what it closed.
ghost use Rattle.std.specs.Prelude.{◌≡◌, ◌<◌, ◌++◌, ◌∷◌, Some, [], IfOk, false, true, length};
ghost use Rattle.vol_base.specs.Causes.{counted};
ghost use Rattle.hall.specs.Halls.{Closes};
ghost use Rattle.hall.specs.Noted.{noted_by};

use crate::outside::{Entrance, Exit, Parting};
use std::alloc::Global;
use std::marker::Model;
use vol_base::{Door, Failed, MemoryLink, OutOfMemory};

impl Parting for MemoryLink {
    fn part(&mut self) {}
}

/// A door whose ends are closed elsewhere.
#[derive(Drop)]
pub struct Doorway<D: Door + Drop> {
    door: D,
}

impl<D: Door + Drop> Doorway<D> {
    pub fn new(door: D) -> Doorway<D>
        ensures { result.door ≡ door }
    {
        Doorway { door }
    }
}

impl<D: Door + Drop> Entrance for Doorway<D>
where
    D::End: Parting + Drop,
{
    type End = D::End;

    ghost bound = { λ s. D.bound s.door };

    ghost accepted = { λ s. D.accepted s.door };

    ghost faults = { λ s. D.faults s.door };

    ghost counts = { λ s. D.counts s.door };

    fn listen(&mut self, port: u16) -> Result<u16, Failed> {
        self.door.listen(port)
    }

    fn accept(&mut self) -> Result<D::End, Failed> {
        self.door.accept()
    }
}

/// An exit that notes the first ends that are closed, as many as it has room for. Once there were more it tells nothing.
#[derive(Drop)]
pub struct MemoryExit {
    closed: Vec<(u64, MemoryLink)>,
    room: usize,
    over: bool,
}

impl Model for MemoryExit {
    ghost use Rattle.std.specs.Prelude.{◌≤◌, length, vec_capacity};
    ghost use Rattle.hall.specs.Noted.{Notes};

    ghost Value = { Notes };

    ghost view = { λ s. record { closed = s.closed.items; room = s.room; over = s.over } };

    ghost invariant = { λ s. (length s.closed.items ≤ s.room) × (s.room ≤ vec_capacity s.closed) };
}

impl MemoryExit {
    /// Nothing noted, and room for so many ends.
    pub fn new(alloc: Global, room: usize) -> Result<MemoryExit, OutOfMemory>
        ensures { IfOk result (λ exit. exit ≡ record { closed = []; room = room; over = false }) }
    {
        match Vec::with_capacity(alloc, room) {
            Ok(closed) => Ok(MemoryExit {
                closed,
                room,
                over: false,
            }),
            Err(_) => Err(OutOfMemory),
        }
    }

    /// The first ends that were closed, with their numbers.
    pub fn served(&self) -> &[(u64, MemoryLink)]
        ensures { result.now ≡ self.now.closed }
    {
        &self.closed
    }
}

impl Exit<MemoryLink> for MemoryExit {
    ghost served = { λ s. noted_by s.closed s.over };

    fn close(&mut self, number: u64, end: MemoryLink)
        ensures closes { Closes (noted_by self.old.closed self.old.over) number (Some end.stream) (Some end.sent)
            (counted end.faults) (noted_by self.new.closed self.new.over) }
        ensures noted { self.old.over ≡ false → length self.old.closed < self.old.room →
            self.new ≡ record self.old { closed = self.old.closed ++ (number, end) ∷ [] } }
        ensures full { length self.old.closed ≡ self.old.room → self.new ≡ record self.old { over = true } }
        ensures over { self.old.over ≡ true → self.new ≡ self.old }
    {
        if self.over || self.closed.len() >= self.room {
            self.over = true;
            return;
        }
        match self.closed.push((number, end)) {
            Ok(()) => {}
            Err(_) => unreachable!(),
        }
    }
}
