//! What is judged before a scale is made of another one.
ghost use Rattle.std.specs.Prelude.{◌≡◌, IfErr, IfSome};
ghost use Rattle.vol_base.specs.Calls.{ReadsFrom};
ghost use Rattle.write_plan.specs.Pairs.{cell_count};
ghost use Rattle.make_scale.specs.Judging.{IsOfFolder, IsOfScales, JudgesAs, JudgesFolder, too_many};

use crate::MakeFault;
use crate::making::Making;
use chunk_grid::{count_cells, find_folder, whole};
use vol_base::Store;
use vol_spec::{Scale, StoredScale};

// The most cells of a grid.
const MOST_CELLS: u128 = 1 << 22;

// How many cells the grid of a scale has.
fn count_grid(scale: &Scale) -> u128
    ensures { result ≡ cell_count scale.now }
{
    count_cells(scale, &whole(scale))
}

/// The number of cells of the first grid, of the source's and the target's, that has too many: more than 2^22.
pub fn find_excess(from: &Scale, to: &Scale) -> Option<u128>
    ensures { result ≡ too_many from.now to.now }
{
    let sources = count_grid(from);
    if sources > MOST_CELLS {
        return Some(sources);
    }
    let targets = count_grid(to);
    if targets > MOST_CELLS {
        return Some(targets);
    }
    None
}

/// Refuses a target that isn't as it is to be, and grids of too many cells.
pub(crate) fn judge_scales<M: Making>(making: &M, from: &Scale, to: &Scale) -> Result<(), MakeFault>
    ensures judges { JudgesAs (M.differs making.now from.now to.now) (M.fits making.now from.now to.now) result
        from.now to.now }
    ensures early { IfErr result IsOfScales }
{
    if let Some(item) = making.find_difference(from, to) {
        return Err(MakeFault::Differs { item });
    }
    match find_excess(from, to) {
        Some(cells) => Err(MakeFault::TooManyCells { cells }),
        None => Ok(()),
    }
}

/// Refuses a scale in whose folder some object is.
///
/// # Errors
/// `NotEmpty`, and `StoreFault` only where the store failed.
pub fn judge_folder<S: Store>(store: &mut S, stored: &StoredScale) -> Result<(), MakeFault>
    ensures empty { IfSome (S.objects store.old) (λ m.
        JudgesFolder result m stored.now.dataset stored.now.scale) }
    ensures early { IfErr result IsOfFolder }
    ensures reads { ReadsFrom S.Source MakeFault.StoreFault store.old store.new result }
{
    match store.any_under(&find_folder(&stored.dataset, &stored.scale)) {
        Ok(false) => Ok(()),
        Ok(true) => Err(MakeFault::NotEmpty),
        Err(_) => Err(MakeFault::StoreFault),
    }
}
