//! Writes put into the values of a cell.
ghost use Rattle.std.specs.Prelude.{◌≡◌, ◌<◌, length, All};
ghost use Rattle.vol_spec.specs.Raw.{raw_at};
ghost use Rattle.write_plan.specs.Fills.{Applied, HoldsValues, Shows};
ghost use Rattle.write_plan.specs.Pairs.{writes_of_run};
ghost use Rattle.write_plan.specs.WriteLists.{BoxWrite, write_in, writes_in};

use crate::pairs::Pair;
use crate::writes::Write;
use vol_base::Box3;
use voxel_raw::{common_part, copy_box};

// Puts the values of a write into those of a cell, where both have the position.
fn apply(write: &Write, cell: &Box3, raw: &mut [u8], channels: u32, width: u32)
    requires source { HoldsValues write.now.part channels width (length write.now.bytes.items) }
    requires target { HoldsValues cell.now channels width (length raw.old) }
    ensures { Applied (write_in write.now) cell.now channels width raw.old raw.new }
{
    let common = common_part(&write.part, cell);
    copy_box(
        &write.bytes,
        &write.part,
        raw,
        cell,
        &common,
        channels,
        width,
    );
}

/// Puts the values of some writes into those of a cell, one after another.
pub(crate) fn apply_run(
    writes: &[Write],
    run: &[Pair],
    cell: &Box3,
    raw: &mut [u8],
    channels: u32,
    width: u32,
)
    requires within { All (λ pair. pair.write < length writes.now) run.now }
    requires source { All (λ w. HoldsValues w.0 channels width (length w.1)) (writes_in writes.now) }
    requires target { HoldsValues cell.now channels width (length raw.old) }
    ensures { (d : BoxWrite) → Shows cell.now channels width (raw_at cell.now width raw.old)
        (writes_of_run (writes_in writes.now) d run.now) raw.new }
{
    for pair in run {
        apply(&writes[pair.write as usize], cell, raw, channels, width);
    }
}

/// Makes all values 0.
pub(crate) fn clear(raw: &mut [u8])
    ensures { All (λ byte. byte ≡ 0) raw.new }
{
    raw.fill(0);
}
