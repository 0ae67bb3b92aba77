//! Whether the chunks of cells are stored.
ghost use Rattle.std.specs.Prelude.{◌≡◌, ◌+◌, ◌≤◌, ◌^◌, length, IfErr, IfOk, IfSome};
ghost use Rattle.vol_base.specs.Calls.{ReadsFrom};
ghost use Rattle.vol_spec.specs.Grid.{cells_in, Inside, IsCell};
ghost use Rattle.view_judge.specs.Answers.{AreNamed, is_named};

use crate::report::{NONE, add, one_cell};
use crate::{ViewFault, ViewsReport};
use chunk_grid::{cells, object_name, tell_cells};
use vol_base::{Box3, Source};
use vol_spec::StoredScale;

/// Whether there is an object of a cell's own.
pub(crate) fn find_stored<S: Source>(
    store: &mut S,
    view: &StoredScale,
    cell: [u64; 3],
) -> Result<bool, ViewFault>
    requires cell { IsCell view.now.scale cell }
    ensures found { IfOk result (λ stored. IfSome (S.objects store.old) (λ m.
        stored ≡ is_named m view.now.dataset view.now.scale cell)) }
    ensures failed { IfErr result (λ fault. fault ≡ ViewFault.StoreFault) }
    ensures asked { S.asked store.new ≡ S.asked store.old }
    ensures reads { ReadsFrom S.Source ViewFault.StoreFault store.old store.new result }
{
    match store.size(&object_name(&view.dataset, &view.scale, cell)) {
        Ok(len) => Ok(len.is_some()),
        Err(_) => Err(ViewFault::StoreFault),
    }
}

/// How many cells of a view meet a part, of how many there is an object of their own, and of how many there is none.
pub(crate) fn count_stored<S: Source>(
    store: &mut S,
    view: &StoredScale,
    part: &Box3,
) -> Result<ViewsReport, ViewFault>
    requires inside { Inside view.now.scale part.now }
    requires few { length (cells_in view.now.scale part.now) ≤ 2 ^ 22 }
    ensures named { IfOk result (λ report. IfSome (S.objects store.old) (λ m.
        AreNamed m view.now.dataset view.now.scale (cells_in view.now.scale part.now) report)) }
    ensures cells { IfOk result (λ report. report.cells ≡ length (cells_in view.now.scale part.now)) }
    ensures both { IfOk result (λ report. report.stored + report.absent ≡ report.cells) }
    ensures failed { IfErr result (λ fault. fault ≡ ViewFault.StoreFault) }
    ensures asked { S.asked store.new ≡ S.asked store.old }
    ensures reads { ReadsFrom S.Source ViewFault.StoreFault store.old store.new result }
{
    let mut report = NONE;
    tell_cells(&view.scale, part);
    for cell in cells(&view.scale, part) {
        match find_stored(store, view, cell) {
            Ok(is_stored) => report = add(report, one_cell(is_stored)),
            Err(fault) => return Err(fault),
        }
    }
    Ok(report)
}
