//! The values of a part, read from the chunks of its cells.
ghost use Rattle.std.specs.Prelude.{◌≡◌, ◌≢◌, ◌≤◌, ◌+◌, ◌∷◌, [], length, IfOk, IfSome, Err};
ghost use Rattle.vol_spec.specs.Chunks.{chunk_in};
ghost use Rattle.vol_spec.specs.Costs.{cost};
ghost use Rattle.vol_spec.specs.Grid.{cells_in, Inside, IsCell};
ghost use Rattle.vol_spec.specs.StoredBytes.{stored_bytes};
ghost use Rattle.cutout.specs.Finding.{Finds, HasRead};
ghost use Rattle.cutout.specs.Reading.{placed, ReadsAll, ReadsCell};
ghost use Rattle.cutout.specs.Targets.{IsTarget};

use crate::CutFault;
use crate::boxed::BoxedCell;
use crate::channels::Channels;
use crate::chunk::read_stored;
use crate::reader::values_limit;
use crate::values::{judge_bytes, put_chunk, put_zeros};
use chunk_grid::{cell_box, cells, tell_cells};
use chunk_pool::Frame;
use shard_reader::{LookupFault, ShardReader, WINDOW_LEN};
use std::alloc::Global;
use vol_base::{Box3, Fault, OutOfMemory, Source};
use vol_spec::{Scale, StoredScale};

/// Reads the cells of a scale, one after the other, with memory for the longest chunk and a byte more, for the
/// values of a chunk that is decoded, and for rows of an index. The index that it opened last is kept from
/// cell to cell, which is of use only while the objects stay the same.
#[derive(Drop)]
pub struct CellReader {
    pub(crate) shards: ShardReader,
    pub(crate) chunk: Frame,
    pub(crate) values: Frame,
}

/// The fault of a cell, with the cell.
pub(crate) fn place_fault(cell: [u64; 3], fault: LookupFault) -> CutFault
    ensures { result ≡ placed cell fault }
{
    match fault {
        LookupFault::NotRead => CutFault::StoreFault,
        LookupFault::Faulty(fault) => CutFault::Damaged { cell, fault },
    }
}

impl CellReader {
    ghost use Rattle.cutout.specs.Serving.{IsFresh, Serves, Walks};

    /// A reader of the cells of a scale, that keeps no index. It takes the memory that all its calls share; where there is none, it is
    /// refused.
    pub fn reserve(alloc: Global, scale: &Scale) -> Result<CellReader, OutOfMemory>
        ensures { IfOk result (IsFresh scale.now) }
    {
        let chunk = Frame::alone(alloc, scale.chunk_limit() + 1)?;
        let values = Frame::alone(alloc, values_limit(scale))?;
        let window = Frame::alone(alloc, WINDOW_LEN)?;
        Ok(CellReader {
            shards: ShardReader::new(window),
            chunk,
            values,
        })
    }

    /// Reads the bytes of a cell's chunk into the reader's room for one, and says whether there are any: those
    /// in use there are then the chunk.
    pub(crate) fn read_chunk<S: Source>(
        &mut self,
        store: &mut S,
        origin: &StoredScale,
        cell: [u64; 3],
    ) -> Result<bool, LookupFault>
        requires cell { IsCell origin.now.scale cell }
        requires serves { Serves (S.objects store.old) origin.now self.old }
        ensures read { IfSome (S.objects store.old) (λ m.
            HasRead result self.new.chunk (stored_bytes m origin.now.dataset origin.now.scale cell)) }
        ensures serves { Serves (S.objects store.old) origin.now self.new }
        ensures walks { Walks S.Source origin.now (cell ∷ []) LookupFault.NotRead store.old store.new
            self.old.shards self.new.shards result }
    {
        let chunk = self.chunk.room();
        let len = match read_stored(&mut self.shards, store, origin, cell, chunk) {
            Err(fault) => return Err(fault),
            Ok(None) => return Ok(false),
            Ok(Some(len)) => len as usize,
        };
        self.chunk.set_used(len);
        Ok(true)
    }

    // Reads a cell that meets the part, and puts its values, in some channels, into those of the part.
    fn read_one<S: Source>(
        &mut self,
        store: &mut S,
        origin: &StoredScale,
        cell: [u64; 3],
        part: &Box3,
        channels: Channels,
        out: &mut [u8],
    ) -> Result<(), LookupFault>
        requires cell { IsCell origin.now.scale cell }
        requires serves { Serves (S.objects store.old) origin.now self.old }
        requires target { IsTarget origin.now.scale part.now channels (length out.old) }
        ensures read { IfSome (S.objects store.old) (λ m.
            ReadsCell result m origin.now cell part.now channels out.old out.new) }
        ensures serves { Serves (S.objects store.old) origin.now self.new }
        ensures walks { Walks S.Source origin.now (cell ∷ []) LookupFault.NotRead store.old store.new
            self.old.shards self.new.shards result }
    {
        let own = cell_box(&origin.scale, cell);
        let home = BoxedCell { cell, own };
        match self.read_chunk(store, origin, cell) {
            Err(fault) => return Err(fault),
            Ok(false) => {
                put_zeros(&origin.scale, &home, part, channels, out);
                return Ok(());
            }
            Ok(true) => {}
        }
        let bytes = self.chunk.used();
        let values = self.values.room();
        match put_chunk(bytes, &origin.scale, &home, values, part, channels, out) {
            Ok(()) => Ok(()),
            Err(fault) => Err(LookupFault::Faulty(Fault::Chunk(fault))),
        }
    }

    /// Reads and judges the chunk of a cell: whether it is stored, or its first fault; `NotRead` only where the source failed.
    pub fn judge<S: Source>(
        &mut self,
        store: &mut S,
        origin: &StoredScale,
        cell: [u64; 3],
    ) -> Result<bool, LookupFault>
        requires cell { IsCell origin.now.scale cell }
        requires serves { Serves (S.objects store.old) origin.now self.old }
        ensures finds { IfSome (S.objects store.old) (λ m.
            Finds result (chunk_in m origin.now.dataset origin.now.scale cell)) }
        ensures serves { Serves (S.objects store.old) origin.now self.new }
        ensures walks { Walks S.Source origin.now (cell ∷ []) LookupFault.NotRead store.old store.new
            self.old.shards self.new.shards result }
    {
        let own = cell_box(&origin.scale, cell);
        let home = BoxedCell { cell, own };
        match self.read_chunk(store, origin, cell) {
            Err(fault) => return Err(fault),
            Ok(false) => return Ok(false),
            Ok(true) => {}
        }
        let bytes = self.chunk.used();
        match judge_bytes(bytes, &origin.scale, &home, self.values.room()) {
            Ok(()) => Ok(true),
            Err(fault) => Err(LookupFault::Faulty(Fault::Chunk(fault))),
        }
    }

    /// Reads the cells that meet the part, x fastest, and puts their values, in some channels, into those of the
    /// part. The index that is kept goes on from part to part.
    pub(crate) fn read_cells<S: Source>(
        &mut self,
        store: &mut S,
        origin: &StoredScale,
        part: &Box3,
        channels: Channels,
        out: &mut [u8],
    ) -> Result<(), CutFault>
        requires inside { Inside origin.now.scale part.now }
        requires serves { Serves (S.objects store.old) origin.now self.old }
        requires target { IsTarget origin.now.scale part.now channels (length out.old) }
        ensures read { IfSome (S.objects store.old) (λ m. ReadsAll result m origin.now.dataset
            origin.now.scale part.now channels out.new) }
        ensures inside { result ≢ Err CutFault.OutsideScale }
        ensures asked { IfSome (S.objects store.old) (λ m.
            S.asked store.new ≤ S.asked store.old + cost m origin.now.dataset origin.now.scale part.now) }
        ensures serves { Serves (S.objects store.old) origin.now self.new }
        ensures walks { Walks S.Source origin.now (cells_in origin.now.scale part.now) CutFault.StoreFault
            store.old store.new self.old.shards self.new.shards result }
    {
        tell_cells(&origin.scale, part);
        for cell in cells(&origin.scale, part) {
            match self.read_one(store, origin, cell, part, channels, out) {
                Ok(()) => {}
                Err(fault) => return Err(place_fault(cell, fault)),
            }
        }
        Ok(())
    }
}
