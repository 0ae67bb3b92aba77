//! Counts of faults, which stand still at their end.
ghost use Rattle.std.specs.Prelude.{◌≡◌, ◌+◌, ◌-◌, ◌^◌, min, OnErr, OnOk};
ghost use Rattle.std.specs.Result.{result_ok};
ghost use Rattle.remote_store.specs.Talks.{promise_in};

use crate::wanted::Promise;
use vol_base::Failed;

/// What a reply says; where none came or it doesn't fit, one more fault is counted.
pub(crate) fn settle(
    faults: &mut u64,
    answer: Result<Option<Promise>, Failed>,
) -> Result<Promise, Failed>
    ensures said { result_ok result ≡ promise_in answer }
    ensures stands { OnOk result (faults.new ≡ faults.old) }
    ensures counted { OnErr result (faults.new ≡ min (faults.old + 1) (2 ^ 64 - 1)) }
{
    match answer {
        Ok(Some(promise)) => Ok(promise),
        Ok(None) => {
            *faults = faults.saturating_add(1);
            Err(Failed)
        }
        Err(failed) => {
            *faults = faults.saturating_add(1);
            Err(failed)
        }
    }
}
