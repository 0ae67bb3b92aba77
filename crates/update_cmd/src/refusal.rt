//! Why `update` was refused.

use command_base::{NoScale, ScaleRefusal};
use vol_base::Fault;
use write_plan::PlanFault;

/// Why `update` was refused.
#[derive(Clone, Copy)]
pub enum UpdateRefusal {
    /// There is no scale.
    NoScale(NoScale),
    /// A view of the scale has more padded voxels times channels than are written: so many, the first such view.
    TooManyVoxels(u64),
    /// The scale has several chunk sizes.
    SeveralSizes,
    /// The stream of writes has a fault.
    Stream(PlanFault),
    /// The writes meet too many cells, each counted once for each write that meets it; or, once some shard is judged, too
    /// many cells are met or were kept so far: so many.
    TooManyCells(u64),
    /// The first shard that is written anew and has a fault, with the first one and its minishard.
    BadShard {
        shard: u64,
        minishard: u64,
        fault: Fault,
    },
    /// The first cell that is stored and has a fault.
    Damaged {
        cell: [u64; 3],
        fault: Fault,
    },
    StoreFault,
    FeedFault,
    NoMemory,
}

impl From<ScaleRefusal> for UpdateRefusal {
    ghost use Rattle.std.specs.Prelude.{◌≡◌};
    ghost use Rattle.update_cmd.specs.Refusals.{update_without};

    ghost from_gives = { λ refusal e. e ≡ update_without refusal };

    fn from(refusal: ScaleRefusal) -> UpdateRefusal {
        match refusal {
            ScaleRefusal::NoScale(why) => UpdateRefusal::NoScale(why),
            ScaleRefusal::StoreFault => UpdateRefusal::StoreFault,
            ScaleRefusal::NoMemory => UpdateRefusal::NoMemory,
        }
    }
}

impl From<PlanFault> for UpdateRefusal {
    ghost use Rattle.std.specs.Prelude.{◌≡◌};
    ghost use Rattle.update_cmd.specs.Refusals.{unstreamed};

    ghost from_gives = { λ fault e. e ≡ unstreamed fault };

    fn from(fault: PlanFault) -> UpdateRefusal {
        match fault {
            PlanFault::FeedFault => UpdateRefusal::FeedFault,
            PlanFault::OutOfMemory => UpdateRefusal::NoMemory,
            fault => UpdateRefusal::Stream(fault),
        }
    }
}
