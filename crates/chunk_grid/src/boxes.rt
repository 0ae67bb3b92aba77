//! The grid of a scale and the boxes of its cells.

ghost use Rattle.std.specs.Prelude.{◌≡◌, ◌≤◌, ◌<◌, ◌+◌, ◌-◌, ◌/◌, ◌↔◌, IsTrue, List, ℕ, pos, ◌+ℤ◌};
ghost use Rattle.vol_base.specs.Boxes.{at, Covers, Within, IsSome};
ghost use Rattle.vol_spec.specs.Limits.{cell_counts};
ghost use Rattle.vol_spec.specs.Grid.{whole as whole_box, Inside, IsCell, cell_begin, cell_size, cell_box as box_of, cell_at};
ghost use Rattle.chunk_grid.specs.Axes.{LiesOn};

use vol_base::{Box3, Grid};
use vol_spec::Scale;

// How many blocks of the chunk size an axis has, the last of which may be cut short.
#[tactic(auto, using(crate::proofs::AxisSteps::rounded_up))]
fn count_blocks(size: u64, chunk: u64) -> u64
    requires { 1 ≤ chunk }
    ensures { result ≡ (size + chunk - 1) / chunk }
{
    size.div_ceil(chunk)
}

/// How many cells a scale has on each axis: the size by the chunk size, rounded up.
pub fn grid(scale: &Scale) -> Grid
    ensures { result.size ≡ cell_counts scale.now.size scale.now.chunk }
{
    Grid {
        size: [
            count_blocks(scale.size[0], scale.chunk[0]),
            count_blocks(scale.size[1], scale.chunk[1]),
            count_blocks(scale.size[2], scale.chunk[2]),
        ],
    }
}

/// All positions of a scale.
pub fn whole(scale: &Scale) -> Box3
    ensures { result ≡ whole_box scale.now }
{
    Box3 {
        begin: scale.offset,
        size: scale.size,
    }
}

// Whether the part has a place on an axis and lies between the scale's ends there.
fn lies_on(scale: &Scale, part: &Box3, axis: usize) -> bool
    requires { axis < 3 }
    ensures { IsTrue result ↔ LiesOn scale.now part.now axis }
{
    let begin = scale.offset[axis];
    let size = scale.size[axis];
    let part_begin = part.begin[axis];
    let part_size = part.size[axis];
    if part_size == 0 || part_begin < begin {
        return false;
    }
    let before = part_begin.abs_diff(begin);
    before <= size && part_size <= size - before
}

/// Whether no axis of the part is empty and the scale has each of its positions.
pub fn inside(scale: &Scale, part: &Box3) -> bool
    ensures { IsTrue result ↔ Inside scale.now part.now }
{
    lies_on(scale, part, 0) && lies_on(scale, part, 1) && lies_on(scale, part, 2)
}

// The cell of a position of the scale, axis by axis.
fn find_cell(scale: &Scale, p: [i64; 3]) -> [u64; 3]
    ensures { result ≡ cell_at scale.now p }
{
    [
        p[0].abs_diff(scale.offset[0]) / scale.chunk[0],
        p[1].abs_diff(scale.offset[1]) / scale.chunk[1],
        p[2].abs_diff(scale.offset[2]) / scale.chunk[2],
    ]
}

/// The one cell whose box covers a position of the scale.
pub fn cell_of(scale: &Scale, p: [i64; 3]) -> [u64; 3]
    requires { Covers (whole_box scale.now) p }
    ensures cell { result ≡ cell_at scale.now p }
    ensures in_grid { IsCell scale.now result }
    ensures covers { Covers (box_of scale.now result) p }
    ensures only { (cell : List ℕ) → IsCell scale.now cell → Covers (box_of scale.now cell) p
        → cell ≡ result }
{
    find_cell(scale, p)
}

// Where a cell begins on an axis, and its size there.
fn find_span(scale: &Scale, cell: [u64; 3], axis: usize) -> (i64, u64)
    requires cell { IsCell scale.now cell }
    requires axis { axis < 3 }
    ensures begin { result.0 ≡ at scale.now.offset axis +ℤ pos (cell_begin scale.now cell axis) }
    ensures size { result.1 ≡ cell_size scale.now cell axis }
{
    let size = scale.size[axis];
    let chunk = scale.chunk[axis];
    let before = cell[axis] * chunk;
    (scale.offset[axis] + before as i64, chunk.min(size - before))
}

// The positions of a cell, axis by axis.
fn find_box(scale: &Scale, cell: [u64; 3]) -> Box3
    requires { IsCell scale.now cell }
    ensures { result ≡ box_of scale.now cell }
{
    let x = find_span(scale, cell, 0);
    let y = find_span(scale, cell, 1);
    let z = find_span(scale, cell, 2);
    Box3 {
        begin: [x.0, y.0, z.0],
        size: [x.1, y.1, z.1],
    }
}

/// The positions of a cell of the grid, clipped to the scale.
pub fn cell_box(scale: &Scale, cell: [u64; 3]) -> Box3
    requires { IsCell scale.now cell }
    ensures positions { result ≡ box_of scale.now cell }
    ensures within { Within result (whole_box scale.now) }
    ensures some { IsSome result }
{
    find_box(scale, cell)
}
