//! Why a stored scale wasn't made of another one.
ghost use Rattle.std.specs.Prelude.{◌≡◌};

use crate::MakeFault;
use command_base::{NoScale, ScaleRefusal};

/// Why a stored scale wasn't made of another one.
#[derive(Clone, Copy)]
pub enum MakeRefusal {
    /// There is no scale that is read,
    NoSource(NoScale),
    /// or none that is written.
    NoTarget(NoScale),
    /// A view of the target has more padded voxels times channels than are written: so many, the first such view.
    TooManyVoxels(u64),
    /// The target has several chunk sizes.
    SeveralSizes,
    /// Both are there, and the target wasn't made; or the store failed or memory ran out before.
    Unmade(MakeFault),
}

impl From<ScaleRefusal> for MakeRefusal {
    ghost use Rattle.make_scale.specs.Refusals.{unsourced};

    ghost from_gives = { λ refusal e. e ≡ unsourced refusal };

    fn from(refusal: ScaleRefusal) -> MakeRefusal {
        match refusal {
            ScaleRefusal::NoScale(why) => MakeRefusal::NoSource(why),
            ScaleRefusal::StoreFault => MakeRefusal::Unmade(MakeFault::StoreFault),
            ScaleRefusal::NoMemory => MakeRefusal::Unmade(MakeFault::OutOfMemory),
        }
    }
}

impl From<MakeFault> for MakeRefusal {
    ghost use Rattle.make_scale.specs.declared.refusal.MakeRefusal.TheVariants as refusals;

    ghost from_gives = { λ fault e. e ≡ refusals.Unmade fault };

    fn from(fault: MakeFault) -> MakeRefusal {
        MakeRefusal::Unmade(fault)
    }
}
