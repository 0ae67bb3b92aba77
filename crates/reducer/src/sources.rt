//! Where the values of a cell come from, and where those of a source's cell go.
ghost use Rattle.std.specs.Prelude.{◌≡◌, ◌+◌, ◌-◌, ◌*◌, ◌/◌, ◌<◌, ◌≤◌, ◌^◌, min, pos, ◌+ℤ◌, slice_index};
ghost use Rattle.vol_base.specs.Boxes.{at};
ghost use Rattle.vol_spec.specs.Grid.{Inside, IsCell, cell_begin, cell_box as box_of, cell_size};
ghost use Rattle.vol_spec.specs.Raw.{raw_len};
ghost use Rattle.reduce_laws.specs.Halves.{IsHalf};
ghost use Rattle.reduce_laws.specs.Reduced.{IsNext, source_box as source_of, target_box as target_of};

use copier::Placing;
use vol_base::Box3;
use vol_spec::Scale;

// Where a cell begins on an axis, counted from the scale's begin, and its size there.
fn find_own(scale: &Scale, cell: [u64; 3], axis: usize) -> (u64, u64)
    requires cell { IsCell scale.now cell }
    requires axis { axis < 3 }
    ensures begin { result.0 ≡ cell_begin scale.now cell axis }
    ensures size { result.1 ≡ cell_size scale.now cell axis }
    ensures before { result.0 < slice_index scale.now.size axis }
    ensures within { result.0 + result.1 ≤ slice_index scale.now.size axis }
    ensures small { slice_index scale.now.size axis ≤ 2 ^ 40 }
{
    let chunk = scale.chunk[axis];
    let before = cell[axis] * chunk;
    (before, chunk.min(scale.size[axis] - before))
}

// Where the positions under a cell begin on an axis, and how many there are.
fn find_span(from: &Scale, to: &Scale, cell: [u64; 3], axis: usize) -> (i64, u64)
    requires next { IsNext from.now to.now }
    requires cell { IsCell to.now cell }
    requires axis { axis < 3 }
    ensures begin { result.0 ≡ at from.now.offset axis +ℤ pos (2 * cell_begin to.now cell axis) }
    ensures size { result.1 ≡ min (2 * cell_size to.now cell axis)
        (slice_index from.now.size axis - 2 * cell_begin to.now cell axis) }
{
    let (before, own) = find_own(to, cell, axis);
    (
        from.offset[axis] + (2 * before) as i64,
        (2 * own).min(from.size[axis] - 2 * before),
    )
}

fn find_box(from: &Scale, to: &Scale, cell: [u64; 3]) -> Box3
    requires next { IsNext from.now to.now }
    requires cell { IsCell to.now cell }
    ensures { result ≡ source_of from.now to.now cell }
{
    let x = find_span(from, to, cell, 0);
    let y = find_span(from, to, cell, 1);
    let z = find_span(from, to, cell, 2);
    Box3 {
        begin: [x.0, y.0, z.0],
        size: [x.1, y.1, z.1],
    }
}

/// The source's positions under those of a cell of the target: a box inside the source, of which the cell's box is
/// half, with at most 2^30 bytes of values.
pub(crate) fn source_box(from: &Scale, to: &Scale, cell: [u64; 3]) -> Box3
    requires next { IsNext from.now to.now }
    requires cell { IsCell to.now cell }
    ensures positions { result ≡ source_of from.now to.now cell }
    ensures inside { Inside from.now result }
    ensures half { IsHalf (box_of to.now cell) result }
    ensures short { raw_len result from.now.channels from.now.width ≤ 2 ^ 30 }
{
    find_box(from, to, cell)
}

// Where the positions over a cell of the source begin on an axis, and how many there are.
fn find_over(from: &Scale, to: &Scale, source: [u64; 3], axis: usize) -> (i64, u64)
    requires next { IsNext from.now to.now }
    requires source { IsCell from.now source }
    requires axis { axis < 3 }
    ensures begin { result.0 ≡ at to.now.offset axis +ℤ pos (cell_begin from.now source axis / 2) }
    ensures size { result.1 ≡ (cell_begin from.now source axis + cell_size from.now source axis + 1) / 2
        - cell_begin from.now source axis / 2 }
{
    let (before, own) = find_own(from, source, axis);
    (
        to.offset[axis] + (before / 2) as i64,
        (before + own + 1) / 2 - before / 2,
    )
}

// The target's positions over those of a cell of the source.
fn target_box(from: &Scale, to: &Scale, source: [u64; 3]) -> Box3
    requires next { IsNext from.now to.now }
    requires source { IsCell from.now source }
    ensures { result ≡ target_of from.now to.now source }
{
    let x = find_over(from, to, source, 0);
    let y = find_over(from, to, source, 1);
    let z = find_over(from, to, source, 2);
    Box3 {
        begin: [x.0, y.0, z.0],
        size: [x.1, y.1, z.1],
    }
}

/// A reduction into the next scale: a cell of the source lies over the target's positions over its own.
pub(crate) struct Reductions;

impl Placing for Reductions {
    ghost use Rattle.reduce_laws.specs.Reduced.{reduced_cells};
    ghost use Rattle.reducer.specs.PlacedLaws.{reduced_placed};

    ghost fits = { IsNext };

    ghost place = { target_of };

    ghost made = { reduced_cells };

    ghost placed = { reduced_placed };

    fn place(from: &Scale, to: &Scale, source: [u64; 3]) -> Box3 {
        target_box(from, to, source)
    }
}
