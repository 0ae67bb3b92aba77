//! What was written of a view, and why views weren't written.

use shard_writer::Written;
use write_plan::Writes;

/// Why not all views of a scale were written: there are more than 2^22 pairs of a write and a cell of some view that it
/// meets, so many for the first such view; the store failed; or memory ran out.
#[derive(Clone, Copy, Debug, PartialEq, Eq)]
pub enum ViewsRefusal {
    TooManyCells { cells: u128 },
    StoreFault,
    OutOfMemory,
}

/// A view that was written, and the writes once more.
#[derive(Drop)]
pub(crate) struct ViewDone {
    pub written: Written,
    pub writes: Writes,
}
