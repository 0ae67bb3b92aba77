//! The lines of `verify` alone.
ghost use Rattle.std.specs.Prelude.{◌≡◌, IfOk, string_bytes};
ghost use Rattle.verify_cmd.specs.Lines.{conflict_line, misplaced_line, verified_line, view_damaged_line};

use std::alloc::{AllocError, Global};
use std::fmt;
use vol_base::Fault;

/// What `verify` prints: how many cells were judged, and of how many the chunk is stored, and absent.
pub(crate) fn write_verified_line(
    alloc: Global,
    cells: u64,
    stored: u64,
    absent: u64,
) -> Result<String, AllocError>
    ensures { IfOk result (λ line. string_bytes line ≡ verified_line cells stored absent) }
{
    format!(in alloc; "cells {cells} stored {stored} absent {absent}\n")
}

/// A row of a minishard's index whose id belongs into another.
pub(crate) fn write_misplaced_line(
    alloc: Global,
    shard: u64,
    minishard: u64,
    id: u64,
) -> Result<String, AllocError>
    ensures { IfOk result (λ line. string_bytes line ≡ misplaced_line shard minishard id) }
{
    format!(in alloc; "misplaced {shard} {minishard} {id}\n")
}

/// A damaged cell of a further view.
pub(crate) fn write_view_damaged_line(
    alloc: Global,
    view: u32,
    cell: [u64; 3],
    fault: Fault,
) -> Result<String, AllocError>
    ensures { IfOk result (λ line. string_bytes line ≡ view_damaged_line view cell fault) }
{
    let [x, y, z] = cell;
    format!(in alloc; "damaged in {view} {x},{y},{z}: {fault}\n")
}

// A position, as it is told.
#[derive(Clone, Copy)]
struct Place {
    at: [i64; 3],
}

impl fmt::Display for Place {
    ghost use Rattle.std.specs.Prelude.{Some};
    ghost use Rattle.verify_cmd.specs.Lines.{place_text};

    ghost output = { λ place. Some (place_text place.at) };

    fn fmt<W: fmt::Write>(&self, f: &mut fmt::Formatter<W>) -> fmt::Result {
        let [x, y, z] = self.at;
        write!(f, "{x},{y},{z}")
    }
}

/// A value of a further view that isn't the first view's.
pub(crate) fn write_conflict_line(
    alloc: Global,
    view: u32,
    at: [i64; 3],
    channel: u32,
    found: u64,
    wanted: u64,
) -> Result<String, AllocError>
    ensures { IfOk result (λ line. string_bytes line ≡ conflict_line view at channel found wanted) }
{
    let place = Place { at };
    format!(in alloc; "conflict {view} {place} {channel} {found} {wanted}\n")
}
