//! A cell with its box.

use vol_base::Box3;

/// A cell of a scale, and its own box there.
#[derive(Drop)]
pub(crate) struct BoxedCell {
    pub cell: [u64; 3],
    pub own: Box3,
}
