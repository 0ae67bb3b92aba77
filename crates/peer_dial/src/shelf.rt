//! Objects in memory, as a source that never fails.
ghost use Rattle.std.specs.Prelude.{◌≡◌, ◌++◌, Some, length, drop};
ghost use Rattle.std.specs.Option.{option_map};
ghost use Rattle.std.specs.FinMap as map;
ghost use Rattle.vol_base.specs.Causes.{counted, is_count};
ghost use Rattle.vol_base.specs.Outside.{Reads, part};
ghost use Rattle.peer_dial.specs.Shelves.{objects_on};

use crate::entry::Entry;
use vol_base::{Failed, Got, Name, Source};

/// Objects in memory, of which the first of a name counts.
#[derive(Drop)]
pub(crate) struct Shelf<'a> {
    pub entries: &'a [Entry],
    pub asked: u64,
}

// The bytes of the first object of this name.
fn lookup<'a>(entries: &'a [Entry], name: &Name) -> Option<&'a [u8]>
    ensures { option_map (λ b. b.now) result ≡ map.get (objects_on entries.now) name.now }
{
    let mut rest = entries;
    while let [first, after @ ..] = rest {
        if name.as_bytes() == first.name.as_bytes() {
            return Some(&first.bytes);
        }
        rest = after;
    }
    None
}

// The bytes from a place on, as far as a buffer has room; answers how many.
fn read_part(bytes: &[u8], at: u64, out: &mut [u8]) -> u64
    ensures count { result ≡ length (part bytes.now at (length out.old)) }
    ensures bytes { out.new ≡ part bytes.now at (length out.old)
        ++ drop (length (part bytes.now at (length out.old))) out.old }
{
    if at >= bytes.len() as u64 {
        return 0;
    }
    let left = &bytes[at as usize..];
    let n = left.len().min(out.len());
    out[..n].copy_from_slice(&left[..n]);
    n as u64
}

// Reads an object, or its absence, from a place on.
fn read_object(object: Option<&[u8]>, at: u64, out: &mut [u8]) -> Got
    ensures { Reads (option_map (λ b. b.now) object.entry) at out.old out.new result }
{
    match object {
        None => Got::Absent,
        Some(bytes) => Got::Bytes(read_part(bytes, at, out)),
    }
}

impl<'a> Source for Shelf<'a> {
    ghost use Rattle.std.specs.Prelude.{[], None};
    ghost use Rattle.peer_dial.specs.ShelfLaws.{shelf_bytes};

    ghost objects = { λ s. Some (objects_on s.entries.now) };

    ghost draft = { λ s. None };

    ghost history = { λ s. [] };

    ghost asked = { λ s. counted s.asked };

    ghost faults = { λ s. 0 };

    ghost counts = { λ s. (is_count s.asked, is_count 0) };

    ghost bytes = { λ s. shelf_bytes s.entries.now };

    fn size(&mut self, name: &Name) -> Result<Option<u64>, Failed> {
        match lookup(self.entries, name) {
            Some(bytes) => Ok(Some(bytes.len() as u64)),
            None => Ok(None),
        }
    }

    fn read_at(&mut self, name: &Name, at: u64, out: &mut [u8]) -> Result<Got, Failed> {
        self.asked = self.asked.saturating_add(out.len() as u64);
        Ok(read_object(lookup(self.entries, name), at, out))
    }
}
