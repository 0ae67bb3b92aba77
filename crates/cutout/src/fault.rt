//! Why a reader answers nothing.

use vol_base::Fault;

/// Why a box wasn't cut out, or a chunk wasn't found.
#[derive(Clone, Copy, Debug, PartialEq, Eq)]
pub enum CutFault {
    /// The box isn't inside the scale.
    OutsideScale,
    /// A call of the store failed, and its count of faults rose.
    StoreFault,
    /// The first cell that meets the box and has a fault, with that fault.
    Damaged { cell: [u64; 3], fault: Fault },
}

/// Why a box wasn't written, or not whole.
#[derive(Clone, Copy, Debug, PartialEq, Eq)]
pub enum StreamFault {
    /// The box isn't inside the scale.
    OutsideScale,
    /// A call of the store failed, and its count of faults rose.
    StoreFault,
    /// The first cell that meets the box and has a fault, with that fault.
    Damaged { cell: [u64; 3], fault: Fault },
    /// A call of the outlet failed, and its count of faults rose.
    OutFault,
    /// There was no memory for a layer.
    OutOfMemory,
}
