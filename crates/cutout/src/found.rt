//! Where the chunk of a cell stands.
ghost use Rattle.std.specs.Prelude.{◌≡◌, ◌≢◌, IfErr, IfSome, Some};
ghost use Rattle.vol_spec.specs.Grid.{IsCell};
ghost use Rattle.vol_spec.specs.Places.{id_of, shard_of};
ghost use Rattle.vol_spec.specs.ShardNames as ShardNames;
ghost use Rattle.shard_reader.specs.Reading.{Answers};
ghost use Rattle.vol_base.specs.Calls.{AsksFor};
ghost use Rattle.cutout.specs.Keeping.{KeepsShards, search_cost};
ghost use Rattle.cutout.specs.Reading.{span_in};
ghost use Rattle.cutout.specs.Searching.{Searches};

use crate::CutFault;
use crate::cells::{CellReader, place_fault};
use crate::chunk::chunk_id;
use chunk_grid::object_name;
use segment_cells::chunk_limit;
use shard_index::{place, shard_name};
use shard_reader::{LookupFault, ShardReader};
use vol_base::{Name, Source};
use vol_spec::{ChunkSpan, Sharding, StoredScale};

/// Where the chunk of a cell stands: nowhere, or in an object, so many bytes from a place on. Both are
/// counted in bytes, the place from the object's begin.
#[derive(Drop)]
pub enum Found {
    Absent,
    At { name: Name, start: u64, len: u64 },
}

// Finds the span of a cell's chunk in its shard. An index that is kept goes on.
fn find_span<S: Source>(
    shards: &mut ShardReader,
    store: &mut S,
    origin: &StoredScale,
    sharding: &Sharding,
    cell: [u64; 3],
    id: u64,
) -> Result<Option<ChunkSpan>, LookupFault>
    requires cell { IsCell origin.now.scale cell }
    requires sharding { origin.now.scale.sharding ≡ Some sharding.now }
    requires id { id ≡ id_of origin.now.scale cell }
    requires keeps { KeepsShards (S.objects store.old) origin.now.dataset origin.now.scale shards.old }
    ensures found { IfSome (S.objects store.old) (λ m.
        Answers (span_in m origin.now.dataset origin.now.scale cell) result) }
    ensures asks { AsksFor S.Source (λ m. search_cost m origin.now.dataset origin.now.scale cell)
        LookupFault.NotRead store.old store.new result }
    ensures still { IfErr result (λ fault. fault ≢ LookupFault.NotRead →
        S.faults store.new ≡ S.faults store.old) }
    ensures keeps { KeepsShards (S.objects store.old) origin.now.dataset origin.now.scale shards.new }
{
    let limit = chunk_limit(&origin.scale, cell);
    shards.locate(store, origin, sharding, limit, id)
}

// The name of the shard that the chunk of an id belongs into.
fn name_shard(origin: &StoredScale, sharding: &Sharding, id: u64) -> Name
    requires { origin.now.scale.sharding ≡ Some sharding.now }
    ensures { result ≡ ShardNames.shard_name origin.now.dataset origin.now.scale (shard_of sharding.now id) }
{
    shard_name(&origin.dataset, &origin.scale, place(sharding, id).shard)
}

impl CellReader {
    ghost use Rattle.cutout.specs.Serving.{Serves};

    /// Finds the chunk of a cell: the whole of an object of its own, or the span of a shard. The index that is kept goes
    /// on from cell to cell.
    #[tactic(auto, using(crate::proofs::FoundSteps::absent_told, crate::proofs::FoundSteps::span_told, crate::proofs::FoundSteps::fault_told))]
    pub(crate) fn locate<S: Source>(
        &mut self,
        store: &mut S,
        origin: &StoredScale,
        cell: [u64; 3],
    ) -> Result<Found, CutFault>
        requires cell { IsCell origin.now.scale cell }
        requires serves { Serves (S.objects store.old) origin.now self.old }
        ensures serves { Serves (S.objects store.old) origin.now self.new }
        ensures searches { Searches S.Source origin.now.dataset origin.now.scale cell store.old store.new
            result }
    {
        let Some(sharding) = origin.scale.sharding else {
            let name = object_name(&origin.dataset, &origin.scale, cell);
            return match store.size(&name) {
                Err(_) => Err(CutFault::StoreFault),
                Ok(None) => Ok(Found::Absent),
                Ok(Some(len)) => Ok(Found::At {
                    name,
                    start: 0,
                    len,
                }),
            };
        };
        let id = chunk_id(&origin.scale, cell);
        match find_span(&mut self.shards, store, origin, &sharding, cell, id) {
            Err(fault) => Err(place_fault(cell, fault)),
            Ok(None) => Ok(Found::Absent),
            Ok(Some(span)) => Ok(Found::At {
                name: name_shard(origin, &sharding, id),
                start: span.start,
                len: span.len,
            }),
        }
    }
}
