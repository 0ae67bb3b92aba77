//! Why a scale wasn't made of another one.
ghost use Rattle.std.specs.Prelude.{◌≡◌};

use info_doc::Item;
use shard_writer::WriteFault;
use vol_base::Fault;

/// Why a scale wasn't made of another one.
#[derive(Clone, Copy, Debug, PartialEq, Eq)]
pub enum MakeFault {
    /// The first item in which the target isn't as it is to be.
    Differs { item: Item },
    /// The grid of the source, or else that of the target, has more than 2^22 cells, this many.
    TooManyCells { cells: u128 },
    /// Some object is under the target's folder.
    NotEmpty,
    /// A call of the store failed, and its count of faults rose.
    StoreFault,
    /// The first cell of the source that has a fault, as the target's cells are made, with that fault.
    Damaged { cell: [u64; 3], fault: Fault },
    OutOfMemory,
}

impl From<WriteFault> for MakeFault {
    ghost use Rattle.make_scale.specs.Making.{unwritten};

    ghost from_gives = { λ fault e. e ≡ unwritten fault };

    fn from(fault: WriteFault) -> MakeFault {
        match fault {
            WriteFault::StoreFault => MakeFault::StoreFault,
            WriteFault::Damaged { cell, fault } => MakeFault::Damaged { cell, fault },
            WriteFault::OutOfMemory => MakeFault::OutOfMemory,
        }
    }
}
