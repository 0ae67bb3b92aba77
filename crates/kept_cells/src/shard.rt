//! The cells of one shard.
ghost use Rattle.std.specs.Prelude.{◌≡◌, ◌≢◌, ◌+◌, ◌<◌, ◌≤◌, ◌^◌, ℕ, length, IfSome, OnOk, Err, Some};
ghost use Rattle.std.specs.FinMap as map;
ghost use Rattle.vol_base.specs.Calls.{ReadsFrom};
ghost use Rattle.vol_base.specs.declared.faults.Fault.{Fault};
ghost use Rattle.kept_cells.specs.KeptCells.{CountsOfShard, KeepsCells, refused_by};

use crate::ShardRefusal;
use crate::gathering::Gathering;
use crate::sharded_plan::ShardedPlan;
use shard_index::{ShardPlace, shard_name};
use shard_keeper::KeepFault;
use vol_base::Source;

// A fault of a minishard.
fn refused(minishard: u64, fault: KeepFault) -> ShardRefusal
    ensures { result ≡ refused_by minishard fault }
{
    match fault {
        KeepFault::NotRead => ShardRefusal::NotRead,
        KeepFault::OutOfMemory => ShardRefusal::OutOfMemory,
        KeepFault::Damaged(fault) => ShardRefusal::Damaged { minishard, fault },
    }
}

impl Gathering {
    /// Judges a shard, minishard by minishard, and counts the cells of it that are kept, but for those that some write
    /// meets. They are those whose ids stand in rows of their places.
    ///
    /// # Errors
    /// `Damaged` with the first fault: of a minishard's entry, and then of a row of its index.
    pub(crate) fn keep_shard<S: Source>(
        &mut self,
        store: &mut S,
        over: &ShardedPlan,
        shard: u64,
    ) -> Result<(), ShardRefusal>
        requires shard { shard < 2 ^ over.now.sharding.now.shard_bits }
        requires few { self.old.found.count ≤ 2 ^ 22 }
        ensures keeps { IfSome (S.objects store.old) (λ m. KeepsCells m over.now.stored.now.dataset
            over.now.stored.now.scale over.now.sharding.now over.now.plan.now.writes shard result
            self.old.found self.new.found) }
        ensures own { OnOk result (CountsOfShard over.now.stored.now.scale over.now.sharding.now
            over.now.plan.now.writes shard self.old.found self.new.found) }
        ensures reads { ReadsFrom S.Source ShardRefusal.NotRead store.old store.new result }
    {
        let name = shard_name(&over.stored.dataset, &over.stored.scale, shard);
        let count = 1u64 << over.sharding.minishard_bits;
        for minishard in 0..count {
            let home = ShardPlace { shard, minishard };
            match self.keep_minishard(store, over, &name, &home) {
                Ok(true) => {}
                Ok(false) => return Ok(()),
                Err(fault) => return Err(refused(minishard, fault)),
            }
        }
        Ok(())
    }
}
