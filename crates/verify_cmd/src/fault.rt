//! Why a part isn't reported.

use vol_base::Fault;

/// Why a part of a scale wasn't found sound.
#[derive(Clone, Copy, Debug, PartialEq, Eq)]
pub enum VerifyFault {
    /// The part isn't inside the scale.
    OutsideScale,
    /// More than 2^22 cells of all views meet the part: how many.
    TooManyCells {
        cells: u128,
    },
    /// A call of the store failed, and its count of faults rose.
    StoreFault,
    /// The first cell of the first view with which something is wrong, where that is a fault on the way to its index, of
    /// a row of it, or of its chunk.
    Damaged {
        cell: [u64; 3],
        fault: Fault,
    },
    /// Else the first row of its index whose id belongs into another: the shard and minishard that have the row, and
    /// the id.
    Misplaced {
        shard: u64,
        minishard: u64,
        id: u64,
    },
    /// Nothing is wrong with the first view, and the first that is with a further one is the fault of a chunk: the
    /// view's number, the cell and the fault.
    ViewDamaged {
        view: u32,
        cell: [u64; 3],
        fault: Fault,
    },
    /// Likewise, and it is a value that isn't the first view's: the view's number, the position and the channel, the
    /// value that was found and the first view's.
    Conflict {
        view: u32,
        at: [i64; 3],
        channel: u32,
        found: u64,
        wanted: u64,
    },
    /// There is no memory.
    OutOfMemory,
}
