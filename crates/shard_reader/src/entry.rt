//! The entry of a minishard, read and judged.
ghost use Rattle.std.specs.Prelude.{◌≡◌, ◌+◌, ◌*◌, ◌<◌, ◌≤◌, ◌^◌, Ok, Err, IfOk, IfSome, Some, ◌≢◌, IfErr};
ghost use Rattle.std.specs.Option.{ForSome};
ghost use Rattle.std.specs.FinMap as map;
ghost use Rattle.shard_reader.specs.Reading.{Opens};
ghost use Rattle.vol_base.specs.Calls.{ReadsFrom};
ghost use Rattle.vol_spec.specs.Entries.{base_of, judged_entry};

use crate::bytes::{LookupFault, read_exact};
use crate::opened::OpenedIndex;
use crate::span::IndexSpan;
use shard_index::{base_len, judge_entry, read_entry};
use vol_base::{Fault, Name, ShardFault, Source};
use vol_spec::{Entry, Sharding};

// Where the rows behind a judged entry stand.
fn index_span(entry: &Entry, base: u64, len: u64, rows: u64) -> IndexSpan
    requires judged { judged_entry entry.now base len ≡ Ok rows }
    ensures at { 0 < rows → result.at ≡ base + entry.now.start }
    ensures rows { result.rows ≡ rows }
    ensures few { rows ≤ 2 ^ 22 }
    ensures within { result.at + 24 * rows ≤ len }
{
    if rows == 0 {
        return IndexSpan { at: 0, rows };
    }
    IndexSpan {
        at: base + entry.start,
        rows,
    }
}

/// Reads and judges the entry of a minishard; None where there is no such object.
pub fn open_index<S: Source>(
    store: &mut S,
    name: &Name,
    sharding: &Sharding,
    minishard: u64,
) -> Result<Option<OpenedIndex>, LookupFault>
    requires { minishard < 2 ^ sharding.now.minishard_bits }
    ensures opened { IfSome (S.objects store.old) (λ m.
        Opens sharding.now minishard (map.get m name.now) result) }
    ensures few { IfOk result (λ o. IfSome o (λ opened. opened.index.rows ≤ 2 ^ 22)) }
    ensures fits { IfOk result (λ o. IfSome o (λ opened. opened.index.at + 24 * opened.index.rows < 2 ^ 64)) }
    ensures asked { S.asked store.new ≤ S.asked store.old + 16 }
    ensures reads { ReadsFrom S.Source LookupFault.NotRead store.old store.new result }
    ensures still { IfErr result (λ fault. fault ≢ LookupFault.NotRead → S.faults store.new ≡ S.faults store.old) }
{
    let len = match store.size(name) {
        Err(_) => return Err(LookupFault::NotRead),
        Ok(None) => return Ok(None),
        Ok(Some(len)) => len,
    };
    let mut bytes = [0; 16];
    match read_exact(store, name, 16 * minishard, &mut bytes) {
        Err(_) => return Err(LookupFault::NotRead),
        Ok(false) => return Err(LookupFault::Faulty(Fault::Shard(ShardFault::ShortIndex))),
        Ok(true) => {}
    }
    let entry = read_entry(&bytes);
    let base = base_len(sharding);
    match judge_entry(&entry, base, len) {
        Err(fault) => Err(LookupFault::Faulty(Fault::Shard(fault))),
        Ok(rows) => Ok(Some(OpenedIndex {
            len,
            index: index_span(&entry, base, len, rows),
        })),
    }
}
