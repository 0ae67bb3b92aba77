//! Why it isn't known which cells of a shard are kept.

use vol_base::Fault;

/// Why it isn't known which cells of a shard are kept.
#[derive(Clone, Copy, Debug, PartialEq, Eq)]
pub enum ShardRefusal {
    /// A call of the store failed, and its count of faults rose.
    NotRead,
    /// There is no memory for the ids or the cells.
    OutOfMemory,
    /// The first fault of the shard, with its minishard.
    Damaged { minishard: u64, fault: Fault },
}

/// Why cells aren't kept.
#[derive(Clone, Copy, Debug, PartialEq, Eq)]
pub enum KeepRefusal {
    /// A call of the store failed, and its count of faults rose.
    NotRead,
    /// There is no memory for the ids or the cells.
    OutOfMemory,
    /// The first fault of a shard, with its minishard.
    BadShard {
        shard: u64,
        minishard: u64,
        fault: Fault,
    },
    /// More than 2^22 cells are met or kept, once a shard is judged.
    TooManyCells {
        cells: u64,
    },
}
