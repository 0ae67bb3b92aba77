//! Pairs of a cell and a write that meets it.
ghost use Rattle.std.specs.Prelude.{◌≡◌, ◌≤◌, ◌<◌, ◌^◌, ◌++◌, IfOk, OnOk, All};
ghost use Rattle.std.specs.List.Sorted.{IsNonDecreasingBy};
ghost use Rattle.vol_spec.specs.Grid.{Inside, IsCell};
ghost use Rattle.vol_spec.specs.StoredCells.{cell_number};
ghost use Rattle.write_plan.specs.Pairs.{ArePairs, AreRead, cell_count, pairs_of, run_of};
ghost use Rattle.write_plan.specs.Plans.{pairs as count_of};
ghost use Rattle.write_plan.specs.WriteLists.{AreWritesOf, writes_in};

use crate::writes::Write;
use chunk_grid::{cells as cells_in_box, count_cells, grid};
use std::alloc::{AllocError, Global};
use vol_base::Box3;
use vol_spec::Scale;

/// The number of a cell in the grid, x fastest, and the number of a write that meets it.
#[derive(Clone, Copy)]
pub(crate) struct Pair {
    pub number: u128,
    pub write: u32,
}

/// The number of a cell in the grid: x fastest, then y, then z.
pub(crate) fn find_number(scale: &Scale, cell: [u64; 3]) -> u128
    requires { IsCell scale.now cell }
    ensures { result ≡ cell_number scale.now cell }
{
    let [columns, rows, _] = grid(scale).size;
    let row = cell[1] as u128 + rows as u128 * cell[2] as u128;
    cell[0] as u128 + columns as u128 * row
}

// The cell of a number.
fn find_cell(scale: &Scale, number: u128) -> [u64; 3]
    requires { number < cell_count scale.now }
    ensures cell { IsCell scale.now result }
    ensures number { cell_number scale.now result ≡ number }
{
    let [columns, rows, _] = grid(scale).size;
    let row = number / columns as u128;
    [
        (number % columns as u128) as u64,
        (row % rows as u128) as u64,
        (row / rows as u128) as u64,
    ]
}

/// How many pairs of a write and a cell that it meets there are.
pub(crate) fn count_pairs(scale: &Scale, writes: &[Write]) -> u64
    requires { AreWritesOf scale.now (writes_in writes.now) }
    ensures { result ≡ count_of scale.now (writes_in writes.now) }
{
    let mut count = 0;
    for write in writes {
        count += count_cells(scale, &write.part) as u64;
    }
    count
}

// The pairs of one write.
fn push_pairs(
    scale: &Scale,
    part: &Box3,
    write: u32,
    pairs: &mut Vec<Pair>,
) -> Result<(), AllocError>
    requires { Inside scale.now part.now }
    ensures { OnOk result (pairs.new.items ≡ pairs.old.items ++ pairs_of scale.now write part.now) }
{
    for cell in cells_in_box(scale, part) {
        let number = find_number(scale, cell);
        pairs.push(Pair { number, write })?;
    }
    Ok(())
}

/// So many pairs in the order of the grid, those of one cell in the order of their writes.
pub(crate) fn find_pairs(
    alloc: Global,
    scale: &Scale,
    writes: &[Write],
    count: u64,
) -> Result<Vec<Pair>, AllocError>
    requires writes { AreWritesOf scale.now (writes_in writes.now) }
    requires count { count ≤ 2 ^ 22 }
    ensures { IfOk result (λ ps. ArePairs scale.now (writes_in writes.now) ps.items) }
{
    let mut pairs = Vec::with_capacity(alloc, count as usize)?;
    for (number, write) in writes.iter().enumerate() {
        push_pairs(scale, &write.part, number as u32, &mut pairs)?;
    }
    pairs.sort_by_key(|pair| pair.number)?;
    Ok(pairs)
}

/// The cells of pairs, each once, in the order of the pairs.
pub(crate) fn find_cells(
    alloc: Global,
    scale: &Scale,
    pairs: &[Pair],
) -> Result<Vec<[u64; 3]>, AllocError>
    requires below { All (λ pair. pair.number < cell_count scale.now) pairs.now }
    requires ordered { IsNonDecreasingBy (λ pair. pair.number) pairs.now }
    ensures { IfOk result (λ cells. AreRead scale.now pairs.now cells.items) }
{
    let mut cells = Vec::with_capacity(alloc, pairs.len())?;
    let mut last = None;
    for pair in pairs {
        if last != Some(pair.number) {
            cells.push(find_cell(scale, pair.number))?;
            last = Some(pair.number);
        }
    }
    Ok(cells)
}

/// The pairs of a cell, by its number.
pub(crate) fn find_run(pairs: &[Pair], number: u128) -> &[Pair]
    requires { IsNonDecreasingBy (λ pair. pair.number) pairs.now }
    ensures { result.now ≡ run_of pairs.now number }
{
    let first = pairs.partition_point(|pair| pair.number < number);
    let rest = &pairs[first..];
    let len = rest.partition_point(|pair| pair.number <= number);
    &rest[..len]
}
