//! How many cells of each view writes meet, and which views pass a limit.
ghost use Rattle.std.specs.Prelude.{◌≡◌, ◌<◌, All, None, length};
ghost use Rattle.vol_spec.specs.Grid.{cells_in};
ghost use Rattle.vol_spec.specs.Writable.{IsWritable};
ghost use Rattle.write_plan.specs.Plans.{pairs};
ghost use Rattle.write_plan.specs.WriteLists.{IsWriteOf, write_of};
ghost use Rattle.size_laws.specs.Further.{all_views};
ghost use Rattle.view_writer.specs.Views.{first_many, first_wide};

use chunk_grid::count_cells;
use vol_spec::Scale;
use write_plan::Writes;

// The most pairs of a write and a cell that it meets in a view.
const MOST_PAIRS: u128 = 1 << 22;

// How many cells a write meets: no more than it has bytes.
fn count_met(scale: &Scale, writes: &Writes, write: usize) -> u64
    requires within { write < length writes.now }
    requires fits { All (IsWriteOf scale.now) writes.now }
    ensures { result ≡ length (cells_in scale.now (write_of writes.now write).0) }
{
    let _len = writes.bytes(write).len();
    count_cells(scale, &writes.part(write)) as u64
}

/// How many pairs of a write and a cell that it meets there are.
pub fn count_pairs(scale: &Scale, writes: &Writes) -> u128
    requires fits { All (IsWriteOf scale.now) writes.now }
    ensures { result ≡ pairs scale.now writes.now }
{
    let mut count = 0;
    let mut write = 0;
    while write < writes.len() {
        count += u128::from(count_met(scale, writes, write));
        write += 1;
    }
    count
}

/// How many pairs of a write and a cell that it meets there are in the first view of a scale that has more than 2^22.
pub fn find_many(scale: &Scale, writes: &Writes) -> Option<u128>
    requires fits { All (IsWriteOf scale.now) writes.now }
    ensures { result ≡ first_many (all_views scale.now) writes.now }
{
    let count = count_pairs(scale, writes);
    if count > MOST_PAIRS {
        return Some(count);
    }
    let mut k = 0;
    while k < scale.more.len() {
        k += 1;
        let count = count_pairs(&scale.view(k), writes);
        if count > MOST_PAIRS {
            return Some(count);
        }
    }
    None
}

/// How many padded voxels times channels the first view of a scale has that passes the writing limit: where there is
/// none, all views can be written.
pub fn find_wide(scale: &Scale) -> Option<u64>
    ensures wide { result ≡ first_wide (all_views scale.now) }
    ensures writable { result ≡ None → All IsWritable (all_views scale.now) }
{
    if !scale.can_encode() {
        return Some(scale.padded());
    }
    let mut k = 0;
    while k < scale.more.len() {
        k += 1;
        let view = scale.view(k);
        if !view.can_encode() {
            return Some(view.padded());
        }
    }
    None
}
