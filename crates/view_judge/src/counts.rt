//! How many cells of the further views meet a part.
ghost use Rattle.std.specs.Prelude.{◌≡◌};
ghost use Rattle.vol_spec.specs.Grid.{Inside};
ghost use Rattle.size_laws.specs.Further.{further};
ghost use Rattle.view_judge.specs.Judging.{cells_of};

use chunk_grid::count_cells;
use vol_base::Box3;
use vol_spec::Scale;

/// How many cells of the further views meet a part.
pub fn count_view_cells(scale: &Scale, part: &Box3) -> u128
    requires { Inside scale.now part.now }
    ensures { result ≡ cells_of (further scale.now) part.now }
{
    let mut count = 0;
    for k in 0..scale.more.len() {
        count += count_cells(&scale.view(k + 1), part);
    }
    count
}
