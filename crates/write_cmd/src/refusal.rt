//! Why `write` was refused.

use command_base::{NoScale, ScaleRefusal};
use write_plan::PlanFault;

/// Why `write` was refused.
#[derive(Clone, Copy)]
pub enum WriteRefusal {
    /// There is no scale.
    NoScale(NoScale),
    /// A view of the scale has more padded voxels times channels than are written: so many, the first such view.
    TooManyVoxels(u64),
    /// An object stands under the folder of the scale that is to be written.
    NotEmpty,
    /// The stream of writes has a fault.
    Stream(PlanFault),
    /// The writes meet too many cells of a view, each counted once for each write that meets it: so many in the first such view.
    TooManyCells(u128),
    StoreFault,
    FeedFault,
    NoMemory,
}

impl From<ScaleRefusal> for WriteRefusal {
    ghost use Rattle.std.specs.Prelude.{◌≡◌};
    ghost use Rattle.write_cmd.specs.Refusals.{write_without};

    ghost from_gives = { λ refusal e. e ≡ write_without refusal };

    fn from(refusal: ScaleRefusal) -> WriteRefusal {
        match refusal {
            ScaleRefusal::NoScale(why) => WriteRefusal::NoScale(why),
            ScaleRefusal::StoreFault => WriteRefusal::StoreFault,
            ScaleRefusal::NoMemory => WriteRefusal::NoMemory,
        }
    }
}

impl From<PlanFault> for WriteRefusal {
    ghost use Rattle.std.specs.Prelude.{◌≡◌};
    ghost use Rattle.write_cmd.specs.Refusals.{unstreamed};

    ghost from_gives = { λ fault e. e ≡ unstreamed fault };

    fn from(fault: PlanFault) -> WriteRefusal {
        match fault {
            PlanFault::FeedFault => WriteRefusal::FeedFault,
            PlanFault::OutOfMemory => WriteRefusal::NoMemory,
            fault => WriteRefusal::Stream(fault),
        }
    }
}
