//! Why it isn't known what is kept.

use vol_base::Fault;

/// Why it isn't known what is kept of an index.
#[derive(Clone, Copy, Debug, PartialEq, Eq)]
pub enum KeepFault {
    /// A call of the store failed, and its count of faults rose.
    NotRead,
    /// There is no memory for the ids.
    OutOfMemory,
    /// The first fault: of the entry, or of a row.
    Damaged(Fault),
}
