//! Cells that are counted, and kept as long as they are few.
ghost use Rattle.std.specs.Prelude.{◌≡◌, ◌+◌, ◌<◌, ◌≤◌, ◌^◌, ◌||◌, ◌==◌, ◌++◌, ◌∷◌, [], nat_lt, if◌then◌else◌, Bool, false, AllPairs, OnOk, length};
ghost use Rattle.std.specs.List.{list_any};
ghost use Rattle.std.specs.Str.{bytes_eq};
ghost use Rattle.vol_base.specs.Grids.{pairs};
ghost use Rattle.vol_spec.specs.Limits.{cell_counts};
ghost use Rattle.vol_spec.specs.Places.{id_of};
ghost use Rattle.vol_spec.specs.Grid.{IsCell};
ghost use Rattle.vol_spec.specs.StoredCells.{met};
ghost use Rattle.vol_spec.specs.Types.{Cell};
ghost use Rattle.vol_spec.specs.declared.scale.Scale.{Scale};
ghost use Rattle.cell_lists.specs.Counted.{AreNew, Counts, IsShort};

use crate::finding::find_cell;
use crate::found::FoundCells;
use std::alloc::AllocError;
use vol_spec::Scale;
use write_plan::Plan;

// The most cells that are kept.
const MOST_CELLS: u64 = 1 << 22;

// Puts a cell behind so many, while they are few.
fn keep_cell(cells: &mut Vec<[u64; 3]>, count: u64, cell: [u64; 3]) -> Result<(), AllocError>
    ensures { OnOk result (cells.new.items ≡ (if nat_lt count (2 ^ 22) then cells.old.items ++ cell ∷ []
        else cells.old.items)) }
{
    if count < MOST_CELLS {
        cells.push(cell)?;
    }
    Ok(())
}

// Counts a cell, and keeps it while they are few.
fn count_cell(found: &mut FoundCells, cell: [u64; 3]) -> Result<(), AllocError>
    requires { found.old.count + 1 < 2 ^ 64 }
    ensures counted { OnOk result ((s : Scale) (test : Cell → Bool) → Counts s test found.old → IsCell s cell →
        test cell ≡ false → Counts s (λ c. test c || bytes_eq cell c) found.new) }
    ensures few { found.new.count ≤ found.old.count + 1 }
    ensures short { OnOk result (IsShort found.old → IsShort found.new) }
{
    keep_cell(&mut found.cells, found.count, cell)?;
    found.count += 1;
    Ok(())
}

// Counts the cell of an id, if there is one and no write meets it.
fn count_id(scale: &Scale, plan: &Plan, found: &mut FoundCells, id: u64) -> Result<(), AllocError>
    requires grid { length (pairs (cell_counts scale.now.size scale.now.chunk)) ≤ 64 }
    requires plan { plan.now.scale ≡ scale.now }
    requires few { found.old.count + 1 < 2 ^ 64 }
    ensures counted { OnOk result ((test : Cell → Bool) → Counts scale.now test found.old →
        ((c : Cell) → IsCell scale.now c → id_of scale.now c ≡ id → test c ≡ met scale.now plan.now.writes c) →
        Counts scale.now (λ c. test c || (id_of scale.now c == id)) found.new) }
    ensures few { found.new.count ≤ found.old.count + 1 }
    ensures short { OnOk result (IsShort found.old → IsShort found.new) }
{
    match find_cell(scale, id) {
        None => Ok(()),
        Some(cell) => {
            if plan.meets(cell) {
                return Ok(());
            }
            count_cell(found, cell)
        }
    }
}

/// Counts the cells of some ascending ids that no write meets, and keeps them while they are at most 2^22. An id that
/// no cell of the grid has is passed over.
///
/// # Errors
/// `AllocError`, where there is no memory for a cell. Then any of the cells may be counted.
pub fn count_ids(
    scale: &Scale,
    plan: &Plan,
    found: &mut FoundCells,
    ids: &[u64],
) -> Result<(), AllocError>
    requires grid { length (pairs (cell_counts scale.now.size scale.now.chunk)) ≤ 64 }
    requires plan { plan.now.scale ≡ scale.now }
    requires few { found.old.count + length ids.now < 2 ^ 64 }
    ensures counted { OnOk result ((test : Cell → Bool) → Counts scale.now test found.old →
        AllPairs (λ a b. a < b) ids.now → AreNew scale.now test plan.now.writes ids.now →
        Counts scale.now (λ c. test c || list_any (λ id. id_of scale.now c == id) ids.now) found.new) }
    ensures few { found.new.count ≤ found.old.count + length ids.now }
    ensures short { OnOk result (IsShort found.old → IsShort found.new) }
{
    for id in ids {
        count_id(scale, plan, found, *id)?;
    }
    Ok(())
}
