//! Why `verify` was refused.

use command_base::{NoScale, ScaleRefusal};
use vol_base::{Box3, Fault};

/// Why `verify` was refused.
#[derive(Clone, Copy)]
pub enum VerifyRefusal {
    /// There is no scale.
    NoScale(NoScale),
    /// The box isn't inside the scale, all of which is the whole.
    Outside {
        part: Box3,
        whole: Box3,
    },
    /// More cells meet the box than are judged: so many.
    TooManyCells(u128),
    /// The first cell with which something is wrong, where that is a fault.
    Damaged {
        cell: [u64; 3],
        fault: Fault,
    },
    /// Or else a row of its index whose id belongs into another: the shard and the minishard that have the row, and the
    /// id.
    Misplaced {
        shard: u64,
        minishard: u64,
        id: u64,
    },
    /// Nothing is wrong with the first view, and the first that is with a further one is the fault of a chunk.
    ViewDamaged {
        view: u32,
        cell: [u64; 3],
        fault: Fault,
    },
    /// Or else a value that isn't the first view's: the one that was found, and the first view's.
    Conflict {
        view: u32,
        at: [i64; 3],
        channel: u32,
        found: u64,
        wanted: u64,
    },
    StoreFault,
    NoMemory,
}

impl From<ScaleRefusal> for VerifyRefusal {
    ghost use Rattle.std.specs.Prelude.{◌≡◌};
    ghost use Rattle.verify_cmd.specs.Refusals.{verify_without};

    ghost from_gives = { λ refusal e. e ≡ verify_without refusal };

    fn from(refusal: ScaleRefusal) -> VerifyRefusal {
        match refusal {
            ScaleRefusal::NoScale(why) => VerifyRefusal::NoScale(why),
            ScaleRefusal::StoreFault => VerifyRefusal::StoreFault,
            ScaleRefusal::NoMemory => VerifyRefusal::NoMemory,
        }
    }
}
