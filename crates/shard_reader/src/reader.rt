//! A reader of shards, which keeps the index that it opened last.
ghost use Rattle.std.specs.Prelude.{◌≡◌, ◌≢◌, ◌+◌, ◌*◌, ◌<◌, ◌≤◌, ◌^◌, ◌-◌, length, None, Some, Ok, Err, IfOk, IfSome, OnErr, OnOk, IfErr};
ghost use Rattle.std.specs.FinMap as map;
ghost use Rattle.shard_reader.specs.Keeping.{IsKept, IsOf};
ghost use Rattle.shard_reader.specs.Reading.{Answers, chunk_bytes, chunk_cost, cost_of, found_of, Gets, IsWindow, OnIndex, Opens};
ghost use Rattle.vol_base.specs.Calls.{ReadsFrom};
ghost use Rattle.vol_spec.specs.Costs.{span_cost};
ghost use Rattle.vol_spec.specs.ShardNames.{shard_name};

use crate::bytes::LookupFault;
use crate::chunk::read_span;
use crate::entry::open_index;
use crate::found::find_chunk;
use crate::kept::KeptIndex;
use crate::opened::OpenedIndex;
use crate::window::Window;
use chunk_pool::Frame;
use shard_index::{ShardPlace, place, shard_name};
use vol_base::{Name, Source};
use vol_spec::{ChunkSpan, Sharding, StoredScale};

/// Finds and reads chunks in the shards of a scale by byte ranges alone. It keeps the index that it
/// opened last, with a window of its rows, so that the next look-up may go on from there; that is of use
/// only while the objects stay the same. No call takes memory.
#[derive(Drop)]
pub struct ShardReader {
    kept: Option<KeptIndex>,
    window: Window,
}

// What is kept, where it is of a minishard of a shard.
fn kept_of(kept: &Option<KeptIndex>, place: &ShardPlace) -> Option<OpenedIndex>
    ensures some { IfSome result (λ opened. IfSome kept.now (λ k. opened ≡ k.opened)) }
    ensures few { IfSome result (λ opened. opened.index.rows ≤ 2 ^ 22) }
    ensures fits { IfSome result (λ opened. opened.index.at + 24 * opened.index.rows < 2 ^ 64) }
    ensures here { IfSome result (λ _. IsOf kept.now place.now.shard place.now.minishard) }
    ensures elsewhere { IsOf kept.now place.now.shard place.now.minishard → result ≢ None }
{
    match kept {
        Some(kept) => {
            if kept.shard == place.shard && kept.minishard == place.minishard {
                Some(kept.opened)
            } else {
                None
            }
        }
        None => None,
    }
}

impl ShardReader {
    ghost use Rattle.shard_reader.specs.Readers.{AsksOnce, EndsKept, Keeps, KeepsNothing, KeepsOf, object_of, rows_left, rows_past};

    /// A reader that keeps nothing, over a frame of `WINDOW_LEN` bytes.
    pub fn new(window: Frame) -> ShardReader
        requires { length window.bytes ≡ 24576 }
        ensures { KeepsNothing result }
    {
        ShardReader {
            kept: None,
            window: Window::new(window),
        }
    }

    /// Forgets what is kept, as has to be done where the objects may have changed.
    pub fn forget(&mut self)
        ensures { KeepsNothing self.new }
    {
        self.kept = None;
    }

    // Opens the index of a minishard, unless it is kept; None where there is no such object.
    fn open<S: Source>(
        &mut self,
        store: &mut S,
        stored: &StoredScale,
        name: &Name,
        sharding: &Sharding,
        place: &ShardPlace,
    ) -> Result<Option<OpenedIndex>, LookupFault>
        requires minishard { place.now.minishard < 2 ^ sharding.now.minishard_bits }
        requires name { name.now ≡ shard_name stored.now.dataset stored.now.scale place.now.shard }
        requires keeps { Keeps (S.objects store.old) stored.now.dataset stored.now.scale sharding.now self.old }
        ensures opened { IfSome (S.objects store.old) (λ m.
            Opens sharding.now place.now.minishard (map.get m name.now) result) }
        ensures few { IfOk result (λ o. IfSome o (λ opened. opened.index.rows ≤ 2 ^ 22)) }
        ensures fits { IfOk result (λ o. IfSome o (λ opened.
            opened.index.at + 24 * opened.index.rows < 2 ^ 64)) }
        ensures window { IfOk result (λ o. IfSome o (λ opened.
            OnIndex (S.objects store.old) name.now opened.index.at opened.index.rows
            (IsWindow self.new.window.before self.new.window.count self.new.window.columns.bytes))) }
        ensures index { IfOk result (λ o. IfSome o (λ opened.
            IsKept self.new.kept place.now.shard place.now.minishard opened)) }
        ensures none { result ≡ Ok None → self.new.kept ≡ None }
        ensures err { OnErr result (self.new.kept ≡ None) }
        ensures same { IsOf self.old.kept place.now.shard place.now.minishard → self.new ≡ self.old }
        ensures asked_same { IsOf self.old.kept place.now.shard place.now.minishard →
            S.asked store.new ≡ S.asked store.old }
        ensures asked { S.asked store.new ≤ S.asked store.old + 16 }
        ensures reads { ReadsFrom S.Source LookupFault.NotRead store.old store.new result }
        ensures still { IfErr result (λ fault. fault ≢ LookupFault.NotRead → S.faults store.new ≡ S.faults store.old) }
    {
        if let Some(opened) = kept_of(&self.kept, place) {
            return Ok(Some(opened));
        }
        self.kept = None;
        self.window.clear();
        match open_index(store, name, sharding, place.minishard) {
            Err(fault) => Err(fault),
            Ok(None) => Ok(None),
            Ok(Some(opened)) => {
                self.kept = Some(KeptIndex {
                    shard: place.shard,
                    minishard: place.minishard,
                    opened,
                });
                Ok(Some(opened))
            }
        }
    }

    /// Where the chunk of an id stands in its shard's object, counted in bytes from the object's begin;
    /// None where the shard or the chunk is absent (precomputed volume format, sharded format). `limit` is
    /// the chunk's longest length. It reads ranges of the object alone: the 16 bytes of the minishard's
    /// entry and rows of its index, and no row that is kept. The first fault on the way is told: that of
    /// the entry, of the rows up to the wanted one, of the chunk's length or place.
    pub fn locate<S: Source>(
        &mut self,
        store: &mut S,
        stored: &StoredScale,
        sharding: &Sharding,
        limit: u64,
        id: u64,
    ) -> Result<Option<ChunkSpan>, LookupFault>
        requires sharding { stored.now.scale.sharding ≡ Some sharding.now }
        requires keeps { Keeps (S.objects store.old) stored.now.dataset stored.now.scale sharding.now self.old }
        ensures found { IfSome (S.objects store.old) (λ m.
            Answers (found_of (object_of m stored.now sharding.now id) sharding.now limit id) result) }
        ensures short { IfOk result (λ span. IfSome span (λ s. s.len ≤ limit)) }
        ensures within { IfOk result (λ span. IfSome span (λ s. s.start + s.len < 2 ^ 64)) }
        ensures keeps { Keeps (S.objects store.old) stored.now.dataset stored.now.scale sharding.now self.new }
        ensures reads { ReadsFrom S.Source LookupFault.NotRead store.old store.new result }
        ensures still { IfErr result (λ fault. fault ≢ LookupFault.NotRead → S.faults store.new ≡ S.faults store.old) }

        // The bytes asked for: an entry and an index, less what is kept of them, and none where the look-up
        // ends at a row that is kept.
        ensures asked { IfSome (S.objects store.old) (λ m.
            S.asked store.new ≤ S.asked store.old
            + cost_of (object_of m stored.now sharding.now id) sharding.now id) }
        ensures once { IfSome (S.objects store.old) (λ m.
            S.asked store.new + 24 * rows_past self.old sharding.now id ≤ S.asked store.old
            + cost_of (object_of m stored.now sharding.now id) sharding.now id) }
        ensures onward { IfSome (S.objects store.old) (λ _. OnOk result (AsksOnce sharding.now id self.old
            self.new (S.asked store.old) (S.asked store.new) 16)) }
        ensures asked_most { S.asked store.new ≤ S.asked store.old + (16 + 24 * 2 ^ 22) }
        ensures asked_left { IfSome (rows_left self.old sharding.now id) (λ rows.
            S.asked store.new ≤ S.asked store.old + 24 * rows) }
        ensures again { IfSome (S.objects store.old) (λ m.
            EndsKept self.old sharding.now id (object_of m stored.now sharding.now id) →
            S.asked store.new ≡ S.asked store.old) }

        // Behind a look-up that found a chunk its index is kept, and the row at which it ended: the same look-up
        // again asks for nothing.
        ensures stays { IfOk result (λ span. IfSome span (λ _. KeepsOf self.new sharding.now id)) }
        ensures ends { IfSome (S.objects store.old) (λ m. IfOk result (λ span. IfSome span (λ _.
            EndsKept self.new sharding.now id (object_of m stored.now sharding.now id)))) }
    {
        let place = place(sharding, id);
        let name = shard_name(&stored.dataset, &stored.scale, place.shard);
        match self.open(store, stored, &name, sharding, &place) {
            Err(fault) => Err(fault),
            Ok(None) => Ok(None),
            Ok(Some(opened)) => find_chunk(
                &mut self.window,
                store,
                &name,
                sharding,
                &opened,
                limit,
                id,
            ),
        }
    }

    /// Reads the bytes of the chunk of an id into the front of a buffer: how many they are, None where the
    /// shard or the chunk is absent. It finds the chunk as `locate` does, and reads its bytes alone.
    pub fn read_chunk<S: Source>(
        &mut self,
        store: &mut S,
        stored: &StoredScale,
        sharding: &Sharding,
        limit: u64,
        id: u64,
        buffer: &mut [u8],
    ) -> Result<Option<u64>, LookupFault>
        requires sharding { stored.now.scale.sharding ≡ Some sharding.now }
        requires room { limit ≤ length buffer.old }
        requires keeps { Keeps (S.objects store.old) stored.now.dataset stored.now.scale sharding.now self.old }
        ensures gets { IfSome (S.objects store.old) (λ m.
            Gets result buffer.new (chunk_bytes (object_of m stored.now sharding.now id) sharding.now limit id)) }
        ensures short { IfOk result (λ n. IfSome n (λ len. len ≤ limit)) }
        ensures keeps { Keeps (S.objects store.old) stored.now.dataset stored.now.scale sharding.now self.new }
        ensures stays { IfOk result (λ n. IfSome n (λ _. KeepsOf self.new sharding.now id)) }
        ensures ends { IfSome (S.objects store.old) (λ m. IfOk result (λ n. IfSome n (λ _.
            EndsKept self.new sharding.now id (object_of m stored.now sharding.now id)))) }
        ensures reads { ReadsFrom S.Source LookupFault.NotRead store.old store.new result }
        ensures asked { IfSome (S.objects store.old) (λ m.
            S.asked store.new ≤ S.asked store.old
            + chunk_cost (object_of m stored.now sharding.now id) sharding.now limit id) }

        // Less what is kept of the index; and what was read of it needn't be read for an id behind this one.
        ensures once { IfSome (S.objects store.old) (λ m.
            S.asked store.new + 24 * rows_past self.old sharding.now id ≤ S.asked store.old
            + chunk_cost (object_of m stored.now sharding.now id) sharding.now limit id) }
        ensures onward { IfSome (S.objects store.old) (λ m. OnOk result (AsksOnce sharding.now id self.old
            self.new (S.asked store.old) (S.asked store.new)
            (16 + span_cost (found_of (object_of m stored.now sharding.now id) sharding.now limit id)))) }
    {
        match self.locate(store, stored, sharding, limit, id) {
            Err(fault) => Err(fault),
            Ok(None) => Ok(None),
            Ok(Some(span)) => {
                let name = shard_name(&stored.dataset, &stored.scale, place(sharding, id).shard);
                match read_span(store, &name, &span, buffer) {
                    Err(fault) => Err(fault),
                    Ok(()) => Ok(Some(span.len)),
                }
            }
        }
    }
}
