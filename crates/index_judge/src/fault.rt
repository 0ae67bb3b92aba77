//! What judging finds wrong.

use shard_reader::LookupFault;
use vol_base::Fault;

/// Why something wasn't judged sound.
#[derive(Clone, Copy, Debug, PartialEq, Eq)]
pub enum JudgeFault {
    /// A call of the store failed, and its count of faults rose.
    NotRead,
    /// A fault of an entry, a row or a chunk.
    Damaged(Fault),
    /// A row of an id that belongs into another index than that of this shard and minishard.
    Misplaced { shard: u64, minishard: u64, id: u64 },
}

impl From<LookupFault> for JudgeFault {
    ghost use Rattle.std.specs.Prelude.{◌≡◌};
    ghost use Rattle.index_judge.specs.Judging.{judged_as};

    ghost from_gives = { λ fault e. e ≡ judged_as fault };

    fn from(fault: LookupFault) -> JudgeFault {
        match fault {
            LookupFault::NotRead => JudgeFault::NotRead,
            LookupFault::Faulty(fault) => JudgeFault::Damaged(fault),
        }
    }
}
