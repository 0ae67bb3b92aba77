//! The cells of one minishard.
ghost use Rattle.std.specs.Prelude.{◌≡◌, ◌+◌, ◌<◌, ◌≤◌, ◌^◌, length, IfSome, OnOk, Err};
ghost use Rattle.std.specs.FinMap as map;
ghost use Rattle.vol_base.specs.Calls.{ReadsFrom};
ghost use Rattle.kept_cells.specs.KeptCells.{CountsBy, CountsOfIndex};

use crate::gathering::Gathering;
use crate::sharded_plan::ShardedPlan;
use cell_lists::count_ids;
use shard_index::ShardPlace;
use shard_keeper::{KeepFault, keep_index};
use vol_base::{Name, Source};

impl Gathering {
    /// Judges the index of a minishard, and counts the cells whose ids stand in rows of it and belong there, but for
    /// those that some write meets: whether there is such an object.
    pub(crate) fn keep_minishard<S: Source>(
        &mut self,
        store: &mut S,
        over: &ShardedPlan,
        name: &Name,
        home: &ShardPlace,
    ) -> Result<bool, KeepFault>
        requires minishard { home.now.minishard < 2 ^ over.now.sharding.now.minishard_bits }
        requires few { self.old.found.count + 2 ^ 22 < 2 ^ 64 }
        ensures keeps { IfSome (S.objects store.old) (λ m. CountsBy (map.get m name.now) over.now.stored.now.scale
            over.now.sharding.now over.now.plan.now.writes home.now.shard home.now.minishard result
            self.old.found self.new.found) }
        ensures own { OnOk result (CountsOfIndex over.now.stored.now.scale over.now.sharding.now
            over.now.plan.now.writes home.now.shard home.now.minishard self.old.found self.new.found) }
        ensures few { OnOk result (self.new.found.count ≤ self.old.found.count + 2 ^ 22) }
        ensures reads { ReadsFrom S.Source KeepFault.NotRead store.old store.new result }
    {
        self.kept.clear();
        let ids = self.ids.room();
        let starts = self.starts.room();
        let sizes = self.sizes.room();
        match keep_index(
            store,
            name,
            over.sharding,
            home,
            ids,
            starts,
            sizes,
            &mut self.kept,
        ) {
            Err(fault) => Err(fault),
            Ok(there) => match count_ids(
                &over.stored.scale,
                over.plan,
                &mut self.found,
                self.kept.as_slice(),
            ) {
                Ok(()) => Ok(there),
                Err(_) => Err(KeepFault::OutOfMemory),
            },
        }
    }
}
