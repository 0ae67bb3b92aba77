//! Marks for the cells of a scale, by their numbers in the grid.
ghost use Rattle.std.specs.Prelude.{◌≡◌, ◌<◌, ◌≤◌, ◌^◌, ◌++◌, [], ◌∷◌, cond, filter, length, IfOk, OnOk};
ghost use Rattle.vol_spec.specs.Grid.{Inside, IsCell, cells_on, meets, numbers_on};
ghost use Rattle.vol_spec.specs.StoredCells.{cell_number};
ghost use Rattle.write_plan.specs.Pairs.{cell_count};
ghost use Rattle.copier.specs.Marks.{AddsMarks, marked};

use chunk_grid::{cells, grid, whole};
use std::alloc::{AllocError, Global};
use vol_base::Box3;
use vol_spec::Scale;

// The number of a cell in the grid: x fastest, then y, then z.
fn find_number(scale: &Scale, cell: [u64; 3]) -> usize
    requires cell { IsCell scale.now cell }
    requires few { cell_count scale.now ≤ 2 ^ 22 }
    ensures number { result ≡ cell_number scale.now cell }
    ensures below { result < cell_count scale.now }
{
    let [columns, rows, _] = grid(scale).size;
    let row = cell[1] as u128 + rows as u128 * cell[2] as u128;
    (cell[0] as u128 + columns as u128 * row) as usize
}

/// Marks the cells that meet a box.
pub(crate) fn mark_cells(scale: &Scale, part: &Box3, marks: &mut [bool])
    requires few { cell_count scale.now ≤ 2 ^ 22 }
    requires len { length marks.old ≡ cell_count scale.now }
    requires inside { Inside scale.now part.now }
    ensures { AddsMarks scale.now (meets scale.now part.now) marks.old marks.new }
{
    for cell in cells(scale, part) {
        let number = find_number(scale, cell);
        marks[number] = true;
    }
}

// Puts a cell behind others, if it is one of those that are wanted.
fn push_if(list: &mut Vec<[u64; 3]>, cell: [u64; 3], wanted: bool) -> Result<(), AllocError>
    ensures { OnOk result (list.new.items ≡ list.old.items ++ cond wanted (cell ∷ []) []) }
{
    if wanted {
        list.push(cell)?;
    }
    Ok(())
}

/// The cells that are marked, in the order of the grid.
pub(crate) fn list_marked(
    alloc: Global,
    scale: &Scale,
    marks: &[bool],
) -> Result<Vec<[u64; 3]>, AllocError>
    requires few { cell_count scale.now ≤ 2 ^ 22 }
    requires len { length marks.now ≡ cell_count scale.now }
    ensures { IfOk result (λ list. list.items ≡ filter (marked scale.now marks.now)
        (numbers_on (cells_on scale.now))) }
{
    let mut list = Vec::new(alloc);
    for cell in cells(scale, &whole(scale)) {
        let number = find_number(scale, cell);
        push_if(&mut list, cell, marks[number])?;
    }
    Ok(list)
}
