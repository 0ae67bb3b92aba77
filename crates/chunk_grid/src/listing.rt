//! The cells that meet a part of a scale.

ghost use Rattle.std.specs.Prelude.{◌≡◌, ◌≢◌, ◌↔◌, ◌<◌, pos, ◌-ℤ◌, IsTrue, List, ℕ, ℤ, length, All, AllPairs, Contains};
ghost use Rattle.vol_base.specs.Boxes.{end, Covers};
ghost use Rattle.chunk_grid.specs.Axes.{IsSmallOn};
ghost use Rattle.chunk_grid.specs.Walks.{last_position};
ghost use Rattle.vol_spec.specs.Grid.{Inside, IsCell, Meets, meets, cell_box as box_of, cell_at, cells_in};

use crate::{CellWalk, cell_of};
use vol_base::Box3;
use vol_spec::Scale;

// The last position of a part on an axis.
fn last_on(part: &Box3, axis: usize) -> i64
    requires axis { axis < 3 }
    requires small { IsSmallOn part.now axis }
    ensures { result ≡ end part.now axis -ℤ pos 1 }
{
    part.begin[axis] + (part.size[axis] - 1) as i64
}

// The last position of a part.
fn find_last(part: &Box3) -> [i64; 3]
    requires { (axis : ℕ) → axis < 3 → IsSmallOn part.now axis }
    ensures { result ≡ last_position part.now }
{
    [last_on(part, 0), last_on(part, 1), last_on(part, 2)]
}

/// How many cells meet the part.
pub fn count_cells(scale: &Scale, part: &Box3) -> u128
    requires { Inside scale.now part.now }
    ensures { result ≡ length (cells_in scale.now part.now) }
{
    cells(scale, part).count_left()
}

/// The cells that meet the part, each once, x fastest, then y, then z.
pub fn cells(scale: &Scale, part: &Box3) -> CellWalk
    requires { Inside scale.now part.now }
    ensures { result ≡ cells_in scale.now part.now }
{
    let first = cell_of(scale, part.begin);
    let last = cell_of(scale, find_last(part));
    CellWalk::between(first, last)
}

/// Does nothing: its clauses say what the list of the cells that meet a part has in it.
pub fn tell_cells(scale: &Scale, part: &Box3)
    // The test by the ends of the boxes is the fact that some position is one of both.
    ensures test { (cell : List ℕ) → Meets scale.now cell part.now ↔ IsTrue (meets scale.now part.now cell) }
    ensures in_grid { All (IsCell scale.now) (cells_in scale.now part.now) }
    ensures meet { All (λ cell. Meets scale.now cell part.now) (cells_in scale.now part.now) }
    ensures every { (cell : List ℕ) → IsCell scale.now cell → Meets scale.now cell part.now
        → Contains (cells_in scale.now part.now) cell }
    ensures once { AllPairs (λ a b. a ≢ b) (cells_in scale.now part.now) }
    // Each position of the part lies in the box of a listed cell,
    ensures covered { (p : List ℤ) → Inside scale.now part.now → Covers part.now p
        → Contains (cells_in scale.now part.now) (cell_at scale.now p) }
    // and in no other's.
    ensures only { (p : List ℤ) → Inside scale.now part.now → Covers part.now p
        → All (λ cell. Covers (box_of scale.now cell) p ↔ (cell ≡ cell_at scale.now p))
        (cells_in scale.now part.now) }
{}
