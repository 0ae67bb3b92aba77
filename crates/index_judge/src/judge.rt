//! A judge of whole indexes.
ghost use Rattle.std.specs.Prelude.{◌≡◌, ◌<◌, ◌^◌, length, IfOk, IfSome, Err, Some};
ghost use Rattle.std.specs.FinMap as map;
ghost use Rattle.vol_base.specs.Calls.{AsksFor};
ghost use Rattle.vol_spec.specs.ShardNames.{shard_name};
ghost use Rattle.index_judge.specs.Judging.{Says, index_cost, wrong_in};

use crate::JudgeFault;
use crate::cache::{Judged, new_judged, note_judged, was_judged};
use crate::entry::open_index;
use crate::key::IndexKey;
use crate::rows::{COLUMN_LEN, judge_rows};
use chunk_pool::Frame;
use shard_index::{ShardPlace, shard_name};
use std::alloc::Global;
use vol_base::{Name, OutOfMemory, Source};
use vol_spec::{Sharding, StoredScale};

// Judges the entry of a minishard, and all rows of its index.
fn judge_index<S: Source>(
    store: &mut S,
    name: &Name,
    sharding: &Sharding,
    home: &ShardPlace,
    ids: &mut [u8],
    starts: &mut [u8],
    sizes: &mut [u8],
) -> Result<(), JudgeFault>
    requires minishard { home.now.minishard < 2 ^ sharding.now.minishard_bits }
    requires ids { length ids.old ≡ 8192 }
    requires starts { length starts.old ≡ 8192 }
    requires sizes { length sizes.old ≡ 8192 }
    ensures judged { IfSome (S.objects store.old) (λ m.
        Says (wrong_in (map.get m name.now) sharding.now home.now.shard home.now.minishard) result) }
    ensures asks { AsksFor S.Source (λ m. index_cost (map.get m name.now) sharding.now home.now.minishard)
        JudgeFault.NotRead store.old store.new result }
{
    let span = match open_index(store, name, sharding, home.minishard) {
        Err(fault) => return Err(fault),
        Ok(None) => return Ok(()),
        Ok(Some(span)) => span,
    };
    judge_rows(store, name, &span, sharding, home, ids, starts, sizes)
}

/// Judges whole indexes of the shards of a scale: the way to an index, and all its rows. It remembers the
/// last 1,024 indexes with which nothing was wrong, and doesn't read these again; that is of use only while
/// the objects stay the same. Memory is taken when it is made, and to remember an index; where there is none
/// then, the index isn't remembered.
#[derive(Drop)]
pub struct IndexJudge {
    ids: Frame,
    starts: Frame,
    sizes: Frame,
    judged: Judged,
    ghost ids_room: { length ids.bytes ≡ 8192 },
    ghost starts_room: { length starts.bytes ≡ 8192 },
    ghost sizes_room: { length sizes.bytes ≡ 8192 },
}

impl IndexJudge {
    ghost use Rattle.index_judge.specs.Knowing.{Knows, KnowsNothing};

    /// A judge that remembers nothing.
    pub fn reserve(alloc: Global) -> Result<IndexJudge, OutOfMemory>
        ensures { IfOk result KnowsNothing }
    {
        let ids = Frame::alone(alloc, COLUMN_LEN)?;
        let starts = Frame::alone(alloc, COLUMN_LEN)?;
        let sizes = Frame::alone(alloc, COLUMN_LEN)?;
        let judged = new_judged(alloc)?;
        Ok(IndexJudge {
            ids,
            starts,
            sizes,
            judged,
        })
    }

    // Judges an index that isn't remembered.
    fn judge_anew<S: Source>(
        &mut self,
        store: &mut S,
        name: &Name,
        sharding: &Sharding,
        home: &ShardPlace,
    ) -> Result<(), JudgeFault>
        requires minishard { home.now.minishard < 2 ^ sharding.now.minishard_bits }
        ensures judged { IfSome (S.objects store.old) (λ m.
            Says (wrong_in (map.get m name.now) sharding.now home.now.shard home.now.minishard) result) }
        ensures same { self.new.judged ≡ self.old.judged }
        ensures asks { AsksFor S.Source (λ m. index_cost (map.get m name.now) sharding.now home.now.minishard)
            JudgeFault.NotRead store.old store.new result }
    {
        let ids = self.ids.room();
        let starts = self.starts.room();
        let sizes = self.sizes.room();
        judge_index(store, name, sharding, home, ids, starts, sizes)
    }

    /// Judges the index of a minishard of a shard: the faults on the way to it, then its rows in order. Of a
    /// row it is wrong that it is at fault, and then that its id belongs into another index. The first that is
    /// found is the answer. Where the shard is absent, or the minishard is empty, nothing is wrong.
    pub fn judge<S: Source>(
        &mut self,
        store: &mut S,
        stored: &StoredScale,
        sharding: &Sharding,
        home: &ShardPlace,
    ) -> Result<(), JudgeFault>
        requires sharding { stored.now.scale.sharding ≡ Some sharding.now }
        requires shard { home.now.shard < 2 ^ sharding.now.shard_bits }
        requires minishard { home.now.minishard < 2 ^ sharding.now.minishard_bits }
        requires knows { Knows (S.objects store.old) stored.now.dataset stored.now.scale sharding.now self.old }
        ensures judged { IfSome (S.objects store.old) (λ m.
            Says (wrong_in
            (map.get m (shard_name stored.now.dataset stored.now.scale home.now.shard))
            sharding.now home.now.shard home.now.minishard) result) }
        ensures knows { Knows (S.objects store.old) stored.now.dataset stored.now.scale sharding.now self.new }
        // It asks for no more than the entry and the rows, and for nothing where the index is remembered.
        ensures asks { AsksFor S.Source (λ m. index_cost
            (map.get m (shard_name stored.now.dataset stored.now.scale home.now.shard)) sharding.now home.now.minishard)
            JudgeFault.NotRead store.old store.new result }
    {
        let index = IndexKey {
            shard: home.shard,
            minishard: home.minishard,
        };
        if was_judged(&mut self.judged, index) {
            return Ok(());
        }
        let name = shard_name(&stored.dataset, &stored.scale, home.shard);
        match self.judge_anew(store, &name, sharding, home) {
            Ok(()) => {}
            Err(fault) => return Err(fault),
        }
        note_judged(&mut self.judged, index);
        Ok(())
    }
}
