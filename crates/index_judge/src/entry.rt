//! The entry of a minishard, read and judged.
ghost use Rattle.std.specs.Prelude.{◌+◌, ◌*◌, ◌<◌, ◌≤◌, ◌^◌, IfOk, IfSome};
ghost use Rattle.std.specs.FinMap as map;
ghost use Rattle.vol_base.specs.Calls.{ReadsFrom};
ghost use Rattle.index_judge.specs.Judging.{IsPlaced, Opens};

use crate::JudgeFault;
use shard_reader::IndexSpan;
use vol_base::{Name, Source};
use vol_spec::Sharding;

/// Reads and judges the entry of a minishard; None where there is no such object.
pub fn open_index<S: Source>(
    store: &mut S,
    name: &Name,
    sharding: &Sharding,
    minishard: u64,
) -> Result<Option<IndexSpan>, JudgeFault>
    requires { minishard < 2 ^ sharding.now.minishard_bits }
    ensures opened { IfSome (S.objects store.old) (λ m.
        Opens sharding.now minishard (map.get m name.now) result) }
    ensures few { IfOk result (λ o. IfSome o (λ span. span.rows ≤ 2 ^ 22)) }
    ensures fits { IfOk result (λ o. IfSome o (λ span. span.at + 24 * span.rows < 2 ^ 64)) }
    ensures placed { IsPlaced result }
    ensures asked { S.asked store.new ≤ S.asked store.old + 16 }
    ensures reads { ReadsFrom S.Source JudgeFault.NotRead store.old store.new result }
{
    match shard_reader::open_index(store, name, sharding, minishard)? {
        None => Ok(None),
        Some(opened) => Ok(Some(opened.index)),
    }
}
