//! Why a scale isn't read.

use info_doc::InfoFault;
use std::alloc::AllocError;

/// Why a data set has no scale of a key.
#[derive(Clone, Copy)]
pub enum NoScale {
    /// There is no info document.
    Absent,
    /// The info document gives no scale.
    Refused(InfoFault),
}

/// Why a scale wasn't read.
#[derive(Clone, Copy)]
pub enum ScaleRefusal {
    NoScale(NoScale),
    StoreFault,
    NoMemory,
}

impl From<AllocError> for ScaleRefusal {
    ghost use Rattle.std.specs.Prelude.{◌≡◌};
    ghost use Rattle.command_base.specs.declared.refusal.ScaleRefusal.TheVariants as refusals;

    ghost from_gives = { λ _ e. e ≡ refusals.NoMemory };

    fn from(_e: AllocError) -> ScaleRefusal {
        ScaleRefusal::NoMemory
    }
}

impl From<InfoFault> for ScaleRefusal {
    ghost use Rattle.std.specs.Prelude.{◌≡◌};
    ghost use Rattle.command_base.specs.Refusals.{scale_refused};

    ghost from_gives = { λ fault e. e ≡ scale_refused fault };

    fn from(fault: InfoFault) -> ScaleRefusal {
        match fault {
            InfoFault::OutOfMemory => ScaleRefusal::NoMemory,
            fault => ScaleRefusal::NoScale(NoScale::Refused(fault)),
        }
    }
}
