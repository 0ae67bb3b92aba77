//! Why views aren't reported.

use vol_base::Fault;

/// Why the further views of a scale weren't found to say what the first one does.
#[derive(Clone, Copy, Debug, PartialEq, Eq)]
pub enum ViewFault {
    /// A call of the store failed, and its count of faults rose.
    StoreFault,
    /// A cell of the first view has a fault. It was judged before, so it isn't as it was.
    First {
        cell: [u64; 3],
        fault: Fault,
    },
    /// The chunk of a cell of a view has a fault.
    Damaged {
        view: u32,
        cell: [u64; 3],
        fault: Fault,
    },
    /// A value of a view isn't that of the first one: at a position and a channel the value that was found, and the
    /// first view's.
    Differs {
        view: u32,
        at: [i64; 3],
        channel: u32,
        found: u64,
        wanted: u64,
    },
}
