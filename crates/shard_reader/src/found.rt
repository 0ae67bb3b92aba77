//! The chunk of an id, in an index whose place is known.
ghost use Rattle.std.specs.Prelude.{◌≡◌, ◌+◌, ◌*◌, ◌<◌, ◌≤◌, ◌^◌, ◌-◌, ℕ, true, Err, IfOk, IfSome, ◌≢◌, IfErr, OnOk};
ghost use Rattle.shard_reader.specs.Reading.{Answers, EndsAt, EndsIn, IsOpened, IsWindow, OnIndex, OnObject, resumed, resumes};
ghost use Rattle.vol_base.specs.Calls.{ReadsFrom};
ghost use Rattle.vol_spec.specs.Entries.{base_of};
ghost use Rattle.vol_spec.specs.FoundChunks.{found, span_of};
ghost use Rattle.vol_spec.specs.Places.{minishard_of};
ghost use Rattle.vol_spec.specs.Rows.{columns_of};

use crate::bytes::LookupFault;
use crate::opened::OpenedIndex;
use crate::window::Window;
use minishard::Row;
use shard_index::base_len;
use vol_base::{Fault, Name, ShardFault, Source};
use vol_spec::{ChunkSpan, Sharding};

// Where the chunk of a row stands in an object of so many bytes.
fn chunk_span(
    base: u64,
    len: u64,
    limit: u64,
    row: Option<Row>,
) -> Result<Option<ChunkSpan>, ShardFault>
    ensures value { result ≡ span_of base len limit row }
    ensures short { IfOk result (λ span. IfSome span (λ s. s.len ≤ limit)) }
    ensures within { IfOk result (λ span. IfSome span (λ s. s.start + s.len < 2 ^ 64)) }
{
    match row {
        None => Ok(None),
        Some(row) => {
            if limit < row.size {
                return Err(ShardFault::ChunkTooLong {
                    found: row.size,
                    limit,
                });
            }
            if len < base || len - base < row.start || len - base - row.start < row.size {
                return Err(ShardFault::ShortChunk);
            }
            Ok(Some(ChunkSpan {
                start: base + row.start,
                len: row.size,
            }))
        }
    }
}

/// Where the chunk of an id stands, by the index of its minishard.
pub(crate) fn find_chunk<S: Source>(
    window: &mut Window,
    store: &mut S,
    name: &Name,
    sharding: &Sharding,
    opened: &OpenedIndex,
    limit: u64,
    id: u64,
) -> Result<Option<ChunkSpan>, LookupFault>
    requires few { opened.now.index.rows ≤ 2 ^ 22 }
    requires fits { opened.now.index.at + 24 * opened.now.index.rows < 2 ^ 64 }
    requires opened { OnObject (S.objects store.old) name.now (λ object.
        IsOpened sharding.now
        (minishard_of sharding.now id) object opened.now.len opened.now.index.at opened.now.index.rows) }
    requires window { OnIndex (S.objects store.old) name.now opened.now.index.at opened.now.index.rows
        (IsWindow window.old.before window.old.count window.old.columns.bytes) }
    ensures found { OnObject (S.objects store.old) name.now (λ object.
        Answers (found object sharding.now limit id) result) }
    ensures short { IfOk result (λ span. IfSome span (λ s. s.len ≤ limit)) }
    ensures within { IfOk result (λ span. IfSome span (λ s. s.start + s.len < 2 ^ 64)) }
    ensures window { OnIndex (S.objects store.old) name.now opened.now.index.at opened.now.index.rows
        (IsWindow window.new.before window.new.count window.new.columns.bytes) }
    ensures rows { window.new.before.rows + window.new.count ≤ opened.now.index.rows }
    ensures behind { OnIndex (S.objects store.old) name.now opened.now.index.at opened.now.index.rows (λ _.
        resumes window.new.before id ≡ true) }
    ensures once { OnOk result (S.asked store.new
        + 24 * resumed window.old.before window.old.count opened.now.index.rows id ≤ S.asked store.old
        + 24 * (window.new.before.rows + window.new.count)) }
    ensures asked { S.asked store.new ≤ S.asked store.old
        + 24 * (opened.now.index.rows - resumed window.old.before window.old.count opened.now.index.rows id) }
    ensures ends { IfOk result (λ span. IfSome span (λ _.
        OnIndex (S.objects store.old) name.now opened.now.index.at opened.now.index.rows (λ bytes.
        EndsIn (columns_of bytes) id window.new.before.rows window.new.count))) }
    ensures again { OnIndex (S.objects store.old) name.now opened.now.index.at opened.now.index.rows (λ bytes.
        (r : ℕ) → EndsAt (columns_of bytes) id r → window.old.before.rows ≤ r →
        r < window.old.before.rows + window.old.count → S.asked store.new ≡ S.asked store.old) }
    ensures reads { ReadsFrom S.Source LookupFault.NotRead store.old store.new result }
    ensures still { IfErr result (λ fault. fault ≢ LookupFault.NotRead → S.faults store.new ≡ S.faults store.old) }
{
    let row = match window.find(store, name, &opened.index, id) {
        Ok(row) => row,
        Err(fault) => return Err(fault),
    };
    match chunk_span(base_len(sharding), opened.len, limit, row) {
        Ok(span) => Ok(span),
        Err(fault) => Err(LookupFault::Faulty(Fault::Shard(fault))),
    }
}
