//! Why `cutout` was refused.

use command_base::{NoScale, ScaleRefusal};
use vol_base::{Box3, Fault, OutOfMemory};

/// Why `cutout` was refused.
#[derive(Clone, Copy)]
pub enum CutoutRefusal {
    /// There is no scale.
    NoScale(NoScale),
    /// The box isn't inside the scale, all of which is the whole.
    Outside { part: Box3, whole: Box3 },
    /// The box has more bytes than a cutout: so many, or 2^128 - 1 where there are more.
    TooLarge(u128),
    /// The first cell that meets the box and has a fault.
    Damaged { cell: [u64; 3], fault: Fault },
    StoreFault,
    OutFault,
    NoMemory,
}

impl From<ScaleRefusal> for CutoutRefusal {
    ghost use Rattle.std.specs.Prelude.{◌≡◌};
    ghost use Rattle.cutout_cmd.specs.Refusals.{cutout_without};

    ghost from_gives = { λ refusal e. e ≡ cutout_without refusal };

    fn from(refusal: ScaleRefusal) -> CutoutRefusal {
        match refusal {
            ScaleRefusal::NoScale(why) => CutoutRefusal::NoScale(why),
            ScaleRefusal::StoreFault => CutoutRefusal::StoreFault,
            ScaleRefusal::NoMemory => CutoutRefusal::NoMemory,
        }
    }
}

impl From<OutOfMemory> for CutoutRefusal {
    ghost use Rattle.std.specs.Prelude.{◌≡◌};
    ghost use Rattle.cutout_cmd.specs.declared.refusal.CutoutRefusal.TheVariants as refusals;

    ghost from_gives = { λ _ e. e ≡ refusals.NoMemory };

    fn from(_e: OutOfMemory) -> CutoutRefusal {
        CutoutRefusal::NoMemory
    }
}
