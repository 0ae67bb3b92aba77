//! The cells of all shards that are written anew.
ghost use Rattle.std.specs.Prelude.{◌≡◌, ◌<◌, ◌≤◌, ◌^◌, length, IfSome, OnOk, Err, Some};
ghost use Rattle.vol_base.specs.Calls.{ReadsFrom};
ghost use Rattle.vol_spec.specs.StoredCells.{met};
ghost use Rattle.update_laws.specs.Judged.{touched_shards};
ghost use Rattle.cell_lists.specs.Counted.{Counts, IsWhole};
ghost use Rattle.kept_cells.specs.KeptCells.{CountsOfShard};
ghost use Rattle.kept_cells.specs.Touched.{JudgesTouched, JudgesShard, refused_at};

use crate::gathering::Gathering;
use crate::sharded_plan::ShardedPlan;
use crate::{KeepRefusal, ShardRefusal};
use vol_base::Source;

// The most cells that are stored.
const MOST_CELLS: u64 = 1 << 22;

// A refusal of a shard.
fn refused_shard(shard: u64, refusal: ShardRefusal) -> KeepRefusal
    ensures { result ≡ refused_at shard refusal }
{
    match refusal {
        ShardRefusal::NotRead => KeepRefusal::NotRead,
        ShardRefusal::OutOfMemory => KeepRefusal::OutOfMemory,
        ShardRefusal::Damaged { minishard, fault } => KeepRefusal::BadShard {
            shard,
            minishard,
            fault,
        },
    }
}

impl Gathering {
    // Judges a shard, and then how many cells are met or kept.
    fn judge_shard<S: Source>(
        &mut self,
        store: &mut S,
        over: &ShardedPlan,
        shard: u64,
    ) -> Result<(), KeepRefusal>
        requires shard { shard < 2 ^ over.now.sharding.now.shard_bits }
        requires few { self.old.found.count ≤ 2 ^ 22 }
        ensures judged { IfSome (S.objects store.old) (λ m. JudgesShard m over.now.stored.now.dataset
            over.now.stored.now.scale over.now.sharding.now over.now.plan.now.writes shard result
            self.old.found self.new.found) }
        ensures own { OnOk result (CountsOfShard over.now.stored.now.scale over.now.sharding.now
            over.now.plan.now.writes shard self.old.found self.new.found) }
        ensures few { OnOk result (self.new.found.count ≤ 2 ^ 22) }
        ensures reads { ReadsFrom S.Source KeepRefusal.NotRead store.old store.new result }
    {
        match self.keep_shard(store, over, shard) {
            Err(refusal) => Err(refused_shard(shard, refusal)),
            Ok(()) => {
                if self.found.count > MOST_CELLS {
                    return Err(KeepRefusal::TooManyCells {
                        cells: self.found.count,
                    });
                }
                Ok(())
            }
        }
    }

    /// Judges the shards that are written anew, in the order of their numbers, and counts the cells of them that are
    /// kept beside those that some write meets, which are counted already.
    ///
    /// # Errors
    /// `BadShard` with the first fault of a shard, and `TooManyCells` where more than 2^22 cells are met or kept, once
    /// a shard is judged: whichever comes first.
    pub(crate) fn keep_touched<S: Source>(
        &mut self,
        store: &mut S,
        over: &ShardedPlan,
        shards: &[u64],
    ) -> Result<(), KeepRefusal>
        requires shards { shards.now ≡ touched_shards over.now.stored.now.scale over.now.sharding.now
            over.now.plan.now.writes }
        requires few { self.old.found.count ≤ 2 ^ 22 }
        requires counted { Counts over.now.stored.now.scale
            (met over.now.stored.now.scale over.now.plan.now.writes) self.old.found }
        ensures judged { IfSome (S.objects store.old) (λ m. JudgesTouched m over.now.stored.now.dataset
            over.now.stored.now.scale over.now.sharding.now over.now.plan.now.writes result self.new.found) }
        ensures whole { OnOk result (IsWhole over.now.stored.now.scale self.new.found) }
        ensures few { OnOk result (self.new.found.count ≤ 2 ^ 22) }
        ensures reads { ReadsFrom S.Source KeepRefusal.NotRead store.old store.new result }
    {
        for shard in shards {
            match self.judge_shard(store, over, *shard) {
                Ok(()) => {}
                Err(refusal) => return Err(refusal),
            }
        }
        Ok(())
    }
}
