//! The bytes of a cell's chunk, read from its own object or out of a shard.
ghost use Rattle.std.specs.Prelude.{◌≡◌, ◌∷◌, [], ◌+◌, ◌<◌, ◌≤◌, ◌^◌, length, IfOk, IfSome, IsSome, Some};
ghost use Rattle.std.specs.FinMap as map;
ghost use Rattle.vol_spec.specs.Encodings.{cell_limit};
ghost use Rattle.vol_spec.specs.Grid.{IsCell};
ghost use Rattle.vol_spec.specs.Places.{id_of};
ghost use Rattle.vol_spec.specs.StoredBytes.{stored_bytes};
ghost use Rattle.shard_reader.specs.Reading.{Gets};
ghost use Rattle.vol_base.specs.Calls.{ReadsFrom};
ghost use Rattle.cutout.specs.Keeping.{front_of, KeepsShards};
ghost use Rattle.cutout.specs.Opened.{chunk_room};
ghost use Rattle.cutout.specs.Serving.{Walks};

use chunk_grid::{grid, object_name};
use morton_code::code;
use segment_cells::chunk_limit;
use shard_reader::{LookupFault, ShardReader};
use vol_base::{Got, Name, Source};
use vol_spec::{Scale, Sharding, StoredScale};

/// The id of a cell's chunk in a shard.
pub(crate) fn chunk_id(scale: &Scale, cell: [u64; 3]) -> u64
    requires cell { IsCell scale.now cell }
    requires sharded { IsSome scale.now.sharding }
    ensures { result ≡ id_of scale.now cell }
{
    code(&grid(scale), cell)
}

// Reads the front of an object into a buffer, until it is full: how many bytes, None where there is no
// such object.
fn read_object<S: Source>(
    store: &mut S,
    name: &Name,
    buffer: &mut [u8],
) -> Result<Option<u64>, LookupFault>
    requires { length buffer.old < 2 ^ 64 }
    ensures read { IfSome (S.objects store.old) (λ m.
        Gets result buffer.new (front_of (length buffer.old) (map.get m name.now))) }
    ensures within { IfOk result (λ found. IfSome found (λ n. n ≤ length buffer.new)) }
    ensures asked { S.asked store.new ≤ S.asked store.old + length buffer.old }
    ensures reads { ReadsFrom S.Source LookupFault.NotRead store.old store.new result }
{
    match store.read_at(name, 0, buffer) {
        Err(_) => Err(LookupFault::NotRead),
        Ok(Got::Absent) => Ok(None),
        Ok(Got::Bytes(found)) => Ok(Some(found)),
    }
}

/// Reads the bytes of a cell's chunk out of its shard into the front of a buffer, which has room for the longest: how many,
/// None where it is absent.
pub(crate) fn read_sharded<S: Source>(
    shards: &mut ShardReader,
    store: &mut S,
    origin: &StoredScale,
    sharding: &Sharding,
    cell: [u64; 3],
    limit: u64,
    chunk: &mut [u8],
) -> Result<Option<u64>, LookupFault>
    requires cell { IsCell origin.now.scale cell }
    requires sharding { origin.now.scale.sharding ≡ Some sharding.now }
    requires limit { limit ≡ cell_limit origin.now.scale cell }
    requires room { limit ≤ length chunk.old }
    requires keeps { KeepsShards (S.objects store.old) origin.now.dataset origin.now.scale shards.old }
    ensures read { IfSome (S.objects store.old) (λ m.
        Gets result chunk.new (stored_bytes m origin.now.dataset origin.now.scale cell)) }
    ensures within { IfOk result (λ found. IfSome found (λ n. n ≤ length chunk.new)) }
    ensures keeps { KeepsShards (S.objects store.old) origin.now.dataset origin.now.scale shards.new }
    ensures walks { Walks S.Source origin.now (cell ∷ []) LookupFault.NotRead store.old store.new
        shards.old shards.new result }
{
    let id = chunk_id(&origin.scale, cell);
    shards.read_chunk(store, origin, sharding, limit, id, chunk)
}

/// Reads the bytes of a cell's chunk into the front of a buffer: how many, None where it is absent. Of the
/// buffer one byte more than the chunk has at most may be filled, so that a longer object is told.
pub(crate) fn read_stored<S: Source>(
    shards: &mut ShardReader,
    store: &mut S,
    origin: &StoredScale,
    cell: [u64; 3],
    chunk: &mut [u8],
) -> Result<Option<u64>, LookupFault>
    requires cell { IsCell origin.now.scale cell }
    requires room { length chunk.old ≡ chunk_room origin.now.scale }
    requires keeps { KeepsShards (S.objects store.old) origin.now.dataset origin.now.scale shards.old }
    ensures read { IfSome (S.objects store.old) (λ m.
        Gets result chunk.new (stored_bytes m origin.now.dataset origin.now.scale cell)) }
    ensures within { IfOk result (λ found. IfSome found (λ n. n ≤ length chunk.new)) }
    ensures keeps { KeepsShards (S.objects store.old) origin.now.dataset origin.now.scale shards.new }
    ensures walks { Walks S.Source origin.now (cell ∷ []) LookupFault.NotRead store.old store.new
        shards.old shards.new result }
{
    let limit = chunk_limit(&origin.scale, cell);
    let buffer = &mut chunk[..limit as usize + 1];
    match origin.scale.sharding {
        Some(sharding) => read_sharded(shards, store, origin, &sharding, cell, limit, buffer),
        None => {
            let name = object_name(&origin.dataset, &origin.scale, cell);
            read_object(store, &name, buffer)
        }
    }
}
