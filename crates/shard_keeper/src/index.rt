//! One index of a shard.
ghost use Rattle.std.specs.Prelude.{◌≡◌, ◌<◌, ◌≤◌, ◌+◌, ◌^◌, length, IfSome, OnOk, Err};
ghost use Rattle.std.specs.FinMap as map;
ghost use Rattle.vol_base.specs.Calls.{ReadsFrom};
ghost use Rattle.shard_keeper.specs.Keeping.{Adds, KeepsIndex};

use crate::KeepFault;
use crate::rows::{keep_fault, keep_rows};
use index_judge::open_index;
use shard_index::ShardPlace;
use vol_base::{Name, Source};
use vol_spec::Sharding;

/// Judges the entry of a minishard and all rows of its index, in order, and puts the ids that belong there behind
/// others, at most 2^22 of them, in ascending order; one that belongs elsewhere is passed over. Answers whether there
/// is such an object. There is room for 1,024 numbers of eight bytes in each column.
///
/// # Errors
/// `NotRead` only where the store failed, and `OutOfMemory`; else `Damaged` exactly where the entry or a row has a
/// fault, with the first one. Then any ids may have been put.
pub fn keep_index<S: Source>(
    store: &mut S,
    name: &Name,
    sharding: &Sharding,
    home: &ShardPlace,
    ids: &mut [u8],
    starts: &mut [u8],
    sizes: &mut [u8],
    kept: &mut Vec<u64>,
) -> Result<bool, KeepFault>
    requires minishard { home.now.minishard < 2 ^ sharding.now.minishard_bits }
    requires ids { length ids.old ≡ 8192 }
    requires starts { length starts.old ≡ 8192 }
    requires sizes { length sizes.old ≡ 8192 }
    ensures keeps { IfSome (S.objects store.old) (λ m. KeepsIndex (map.get m name.now) sharding.now
        home.now.shard home.now.minishard kept.old.items result kept.new.items) }
    ensures added { OnOk result (Adds sharding.now home.now.shard home.now.minishard kept.old.items
        kept.new.items) }
    ensures few { OnOk result (length kept.new.items ≤ length kept.old.items + 2 ^ 22) }
    ensures reads { ReadsFrom S.Source KeepFault.NotRead store.old store.new result }
{
    let span = match open_index(store, name, sharding, home.minishard) {
        Err(fault) => return Err(keep_fault(fault)),
        Ok(None) => return Ok(false),
        Ok(Some(span)) => span,
    };
    match keep_rows(store, name, &span, sharding, home, ids, starts, sizes, kept) {
        Ok(()) => Ok(true),
        Err(fault) => Err(fault),
    }
}
