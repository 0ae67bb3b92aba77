//! One row of an index, judged.
ghost use Rattle.std.specs.Prelude.{◌≡◌, ◌≢◌, ◌+◌, ◌<◌, ◌≤◌, ◌^◌, Err, OnOk};
ghost use Rattle.vol_spec.specs.Rows.{Columns, judged_row};
ghost use Rattle.vol_spec.specs.Verdicts.{belongs, row_wrong};
ghost use Rattle.minishard.specs.Walks.{IsStored, IsWalked};
ghost use Rattle.index_judge.specs.Judging.{Says};

use crate::JudgeFault;
use minishard::Walk;
use shard_index::{ShardPlace, place};
use vol_base::Fault;
use vol_spec::Sharding;

/// Whether an id belongs into an index.
pub fn is_at_home(sharding: &Sharding, home: &ShardPlace, id: u64) -> bool
    ensures { result ≡ belongs sharding.now home.now.shard home.now.minishard id }
{
    let own = place(sharding, id);
    own.shard == home.shard && own.minishard == home.minishard
}

/// Judges the next row of a walk over the index at `home`, by what is stored of it.
pub(crate) fn judge_row(
    walk: &mut Walk,
    sharding: &Sharding,
    home: &ShardPlace,
    id: u64,
    start: u64,
    size: u64,
) -> Result<(), JudgeFault>
    requires rows { walk.old.rows < 2 ^ 22 }
    ensures judged { (c : Columns) → IsWalked c walk.old → IsStored c walk.old.rows id start size →
        Says (row_wrong sharding.now home.now.shard home.now.minishard (judged_row c walk.old.rows)) result }
    ensures walked { OnOk result ((c : Columns) → IsWalked c walk.old →
        IsStored c walk.old.rows id start size → IsWalked c walk.new) }
    ensures rows { OnOk result (walk.new.rows ≡ walk.old.rows + 1) }
    ensures read { result ≢ Err JudgeFault.NotRead }
{
    match walk.next_row(id, start, size) {
        Err(fault) => Err(JudgeFault::Damaged(Fault::Index(fault))),
        Ok(row) => {
            if is_at_home(sharding, home, row.id) {
                return Ok(());
            }
            Err(JudgeFault::Misplaced {
                shard: home.shard,
                minishard: home.minishard,
                id: row.id,
            })
        }
    }
}
