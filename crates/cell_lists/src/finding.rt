//! The cell of an id.
ghost use Rattle.std.specs.Prelude.{◌≡◌, ◌≢◌, ◌≤◌, IfSome, length, None};
ghost use Rattle.vol_base.specs.Grids.{pairs};
ghost use Rattle.vol_spec.specs.Limits.{cell_counts};
ghost use Rattle.vol_spec.specs.Places.{id_of};
ghost use Rattle.vol_spec.specs.Grid.{IsCell};
ghost use Rattle.vol_spec.specs.Types.{Cell};

use chunk_grid::grid;
use morton_code::cell;
use vol_spec::Scale;

/// The cell of an id, or None where no cell of the grid has it.
pub(crate) fn find_cell(scale: &Scale, id: u64) -> Option<[u64; 3]>
    requires { length (pairs (cell_counts scale.now.size scale.now.chunk)) ≤ 64 }
    ensures found { IfSome result (λ cell. IsCell scale.now cell) }
    ensures id { IfSome result (λ cell. id_of scale.now cell ≡ id) }
    ensures none { result ≡ None → (cell : Cell) → IsCell scale.now cell → id_of scale.now cell ≢ id }
{
    cell(&grid(scale), id)
}
