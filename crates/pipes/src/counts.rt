//! Counts of faults, which stand still at their end.
ghost use Rattle.std.specs.Prelude.{◌≡◌, ℕ};
ghost use Rattle.vol_base.specs.Causes.{HasCause, counted};

use vol_base::Failed;

/// Counts a call that failed.
pub(crate) fn note_fault(faults: &mut u64, answer: Result<usize, Failed>) -> Result<usize, Failed>
    ensures same { result ≡ answer }
    ensures cause { HasCause (counted faults.old) (counted faults.new) result }
{
    if answer.is_err() {
        *faults = faults.saturating_add(1);
    }
    answer
}
