//! Calls of a stand-in that fail by their numbers.
ghost use Rattle.std.specs.Prelude.{◌≡◌, ◌+◌, ◌-◌, ◌^◌, ◌≤◌, ◌↔◌, min, IsErr, IsTrue, OnErr, OnOk, nat_eq};
ghost use Rattle.std.specs.List.{list_any};
ghost use Rattle.vol_base.specs.Causes.{HasCause};

use crate::Failed;

/// Counts one more fault, up to the count's end.
pub(crate) fn count_fault(faults: &mut u64)
    ensures count { faults.new ≡ min (faults.old + 1) (2 ^ 64 - 1) }
    ensures later { faults.old ≤ faults.new }
{
    *faults = faults.saturating_add(1);
}

/// One more call, from number 0 on: it fails where its number is in the list.
pub(crate) fn tick(calls: &mut u64, faults: &mut u64, failing: &[u64]) -> Result<(), Failed>
    ensures fails { IsErr result ↔ IsTrue (list_any (λ n. nat_eq n calls.old) failing.now) }
    ensures calls { calls.new ≡ min (calls.old + 1) (2 ^ 64 - 1) }
    ensures cause { HasCause faults.old faults.new result }
    ensures fine { OnOk result (faults.new ≡ faults.old) }
    ensures fault { OnErr result (faults.new ≡ min (faults.old + 1) (2 ^ 64 - 1)) }
{
    let fails = failing.contains(&*calls);
    *calls = calls.saturating_add(1);
    if fails {
        count_fault(faults);
        return Err(Failed);
    }
    Ok(())
}
