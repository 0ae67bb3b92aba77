//! Why a stream of writes was refused.
ghost use Rattle.std.specs.Prelude.{◌≡◌};
ghost use Rattle.write_plan.specs.declared.fault.PlanFault.TheVariants as faults;

use std::alloc::{AllocError, AllocFailed};
use std::error::Error;
use std::fmt;
use vol_base::Failed;

/// The first fault of a stream from its front, with the number of the write that has it; or the
/// feed failed, or memory ran out.
#[derive(Clone, Copy, Debug, PartialEq, Eq)]
pub enum PlanFault {
    FeedFault,
    BadMagic,
    TooManyWrites { count: u32 },
    EmptyBox { write: u32 },
    OutsideBox { write: u32 },
    WritesTooLarge { write: u32 },
    Truncated { write: u32 },
    TrailingBytes,
    OutOfMemory,
}

impl fmt::Display for PlanFault {
    ghost use Rattle.std.specs.Prelude.{Some};
    ghost use Rattle.write_plan.specs.StreamTexts.{stream_text};

    ghost output = { λ fault. Some (stream_text fault) };

    fn fmt<W: fmt::Write>(&self, f: &mut fmt::Formatter<W>) -> fmt::Result {
        match self {
            PlanFault::FeedFault => f.write_str("feed fault"),
            PlanFault::BadMagic => f.write_str("stream: bad magic"),
            PlanFault::TooManyWrites { count } => write!(f, "stream: too many writes {count}"),
            PlanFault::EmptyBox { write } => write!(f, "write {write}: empty box"),
            PlanFault::OutsideBox { write } => write!(f, "write {write}: outside scale"),
            PlanFault::WritesTooLarge { write } => write!(f, "write {write}: too large"),
            PlanFault::Truncated { write } => write!(f, "write {write}: truncated"),
            PlanFault::TrailingBytes => f.write_str("stream: trailing bytes"),
            PlanFault::OutOfMemory => f.write_str("out of memory"),
        }
    }
}

impl Error for PlanFault {}

impl From<Failed> for PlanFault {
    ghost from_gives = { λ _ e. e ≡ faults.FeedFault };

    fn from(_failed: Failed) -> PlanFault {
        PlanFault::FeedFault
    }
}

impl From<AllocError> for PlanFault {
    ghost from_gives = { λ _ e. e ≡ faults.OutOfMemory };

    fn from(_e: AllocError) -> PlanFault {
        PlanFault::OutOfMemory
    }
}

impl<T: Drop> From<AllocFailed<T>> for PlanFault {
    ghost from_gives = { λ _ e. e ≡ faults.OutOfMemory };

    fn from(_e: AllocFailed<T>) -> PlanFault {
        PlanFault::OutOfMemory
    }
}
