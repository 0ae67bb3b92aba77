//! A cell's chunk, taken as it is stored where this writer spells it.
ghost use Rattle.std.specs.Prelude.{◌≡◌, ◌≢◌, ◌∷◌, ◌≤◌, [], None, Some, Ok, Err, false, length, take, IfOk, IfSome, IsTrue};
ghost use Rattle.vol_base.specs.Bytes.{AreBytes};
ghost use Rattle.vol_spec.specs.Encodings.{raw_size};
ghost use Rattle.vol_spec.specs.Grid.{IsCell};
ghost use Rattle.vol_spec.specs.declared.encoding.Encoding.TheVariants.{Raw};
ghost use Rattle.cutout.specs.Taking.{HasOwnChunk, HoldsCell, IsOwnChunk, IsSpeller, TakesCell, TakesOne, all_of};

use crate::CutFault;
use crate::boxed::BoxedCell;
use crate::cells::{CellReader, place_fault};
use crate::channels::Channels;
use crate::chunk::read_sharded;
use crate::speller::Speller;
use crate::values::{judge_bytes, put_cell, put_zeros};
use chunk_grid::cell_box;
use segment_cells::{chunk_limit, test_own};
use shard_reader::LookupFault;
use vol_base::{Fault, Source, tell_bytes};
use vol_spec::{Encoding, Scale, Sharding, StoredScale};

// All channels of a scale.
fn all_channels(scale: &Scale) -> Channels
    ensures { result ≡ all_of scale.now }
{
    Channels {
        first: 0,
        count: scale.channels,
    }
}

// Puts bytes in front of others.
fn put_front(bytes: &[u8], out: &mut [u8])
    requires { length bytes.now ≤ length out.old }
    ensures { take (length bytes.now) out.new ≡ bytes.now }
{
    out[..bytes.len()].copy_from_slice(bytes);
}

// Puts a chunk in front of `out` where this writer spells it, and there is room for it; tells whether it did.
fn put_own(
    chunk: &[u8],
    scale: &Scale,
    cell: [u64; 3],
    speller: &mut Speller,
    out: &mut [u8],
) -> bool
    requires cell { IsCell scale.now cell }
    requires speller { IsSpeller scale.now speller.old }
    ensures front { IsTrue result → take (length chunk.now) out.new ≡ chunk.now }
    ensures within { IsTrue result → length chunk.now ≤ length out.new }
    ensures own { IsTrue result → IsOwnChunk scale.now cell chunk.now }
    ensures rest { result ≡ false → out.new ≡ out.old }
    ensures len { length out.new ≡ length out.old }
    ensures speller { IsSpeller scale.now speller.new }
{
    if chunk.len() > out.len() {
        return false;
    }
    if !test_own(chunk, scale, cell, speller.block, &mut speller.scratch) {
        return false;
    }
    put_front(chunk, out);
    true
}

// The same where there is a speller.
fn put_if(
    chunk: &[u8],
    scale: &Scale,
    cell: [u64; 3],
    speller: &mut Option<Speller>,
    out: &mut [u8],
) -> bool
    requires cell { IsCell scale.now cell }
    requires speller { IfSome speller.old (IsSpeller scale.now) }
    ensures front { IsTrue result → take (length chunk.now) out.new ≡ chunk.now }
    ensures within { IsTrue result → length chunk.now ≤ length out.new }
    ensures own { IsTrue result → IsOwnChunk scale.now cell chunk.now }
    ensures rest { result ≡ false → out.new ≡ out.old }
    ensures len { length out.new ≡ length out.old }
    ensures speller { IfSome speller.new (IsSpeller scale.now) }
{
    match speller {
        None => false,
        Some(speller) => put_own(chunk, scale, cell, speller, out),
    }
}

// How a scale of raw chunks is sharded, where it is.
fn raw_sharding(scale: &Scale) -> Option<Sharding>
    ensures raw { IfSome result (λ _. scale.now.encoding ≡ Raw) }
    ensures sharded { IfSome result (λ sharding. scale.now.sharding ≡ Some sharding) }
{
    match scale.encoding {
        Encoding::Raw => scale.sharding,
        Encoding::Seg { .. } => None,
    }
}

// Puts the zeros of a cell that has no chunk.
fn put_zeros_in(scale: &Scale, cell: [u64; 3], out: &mut [u8])
    requires cell { IsCell scale.now cell }
    requires len { length out.old ≡ raw_size scale.now cell }
    ensures zeros { HoldsCell scale.now cell (Ok None) out.new }
    ensures len { length out.new ≡ length out.old }
{
    let own = cell_box(scale, cell);
    let home = BoxedCell { cell, own };
    put_zeros(scale, &home, &home.own, all_channels(scale), out);
}

impl CellReader {
    ghost use Rattle.cutout.specs.Serving.{Serves, Walks};

    // Reads a cell whose values a shard has as they are, straight to where they are wanted.
    fn take_raw<S: Source>(
        &mut self,
        store: &mut S,
        origin: &StoredScale,
        sharding: &Sharding,
        cell: [u64; 3],
        out: &mut [u8],
    ) -> Result<Option<usize>, LookupFault>
        requires cell { IsCell origin.now.scale cell }
        requires raw { origin.now.scale.encoding ≡ Raw }
        requires sharding { origin.now.scale.sharding ≡ Some sharding.now }
        requires serves { Serves (S.objects store.old) origin.now self.old }
        requires len { length out.old ≡ raw_size origin.now.scale cell }
        ensures taken { IfSome (S.objects store.old) (λ m. TakesOne result m origin.now cell out.new) }
        ensures values { IfOk result (λ len. len ≡ None) }
        ensures len { length out.new ≡ length out.old }
        ensures serves { Serves (S.objects store.old) origin.now self.new }
        ensures walks { Walks S.Source origin.now (cell ∷ []) LookupFault.NotRead store.old store.new
            self.old.shards self.new.shards result }
    {
        let scale = &origin.scale;
        let limit = chunk_limit(scale, cell);
        let len = match read_sharded(&mut self.shards, store, origin, sharding, cell, limit, out) {
            Err(fault) => return Err(fault),
            Ok(None) => {
                put_zeros_in(scale, cell, out);
                return Ok(None);
            }
            Ok(Some(len)) => len as usize,
        };
        let own = cell_box(scale, cell);
        match judge_bytes(
            &out[..len],
            scale,
            &BoxedCell { cell, own },
            self.values.room(),
        ) {
            Ok(()) => Ok(None),
            Err(fault) => Err(LookupFault::Faulty(Fault::Chunk(fault))),
        }
    }

    // Reads a cell: the bytes of its chunk, so many in front of `out`, where this writer spells it, else its values.
    fn take_one<S: Source>(
        &mut self,
        store: &mut S,
        origin: &StoredScale,
        cell: [u64; 3],
        speller: &mut Option<Speller>,
        out: &mut [u8],
    ) -> Result<Option<usize>, LookupFault>
        requires cell { IsCell origin.now.scale cell }
        requires serves { Serves (S.objects store.old) origin.now self.old }
        requires speller { IfSome speller.old (IsSpeller origin.now.scale) }
        requires len { length out.old ≡ raw_size origin.now.scale cell }
        ensures taken { IfSome (S.objects store.old) (λ m. TakesOne result m origin.now cell out.new) }
        ensures own { IfOk result (λ len. IfSome len (HasOwnChunk origin.now.scale cell out.new)) }
        ensures len { length out.new ≡ length out.old }
        ensures serves { Serves (S.objects store.old) origin.now self.new }
        ensures speller { IfSome speller.new (IsSpeller origin.now.scale) }
        ensures walks { Walks S.Source origin.now (cell ∷ []) LookupFault.NotRead store.old store.new
            self.old.shards self.new.shards result }
    {
        let scale = &origin.scale;
        match self.read_chunk(store, origin, cell) {
            Err(fault) => return Err(fault),
            Ok(false) => {
                put_zeros_in(scale, cell, out);
                return Ok(None);
            }
            Ok(true) => {}
        }
        let chunk = self.chunk.used();
        if put_if(chunk, scale, cell, speller, out) {
            return Ok(Some(chunk.len()));
        }
        let own = cell_box(scale, cell);
        match put_cell(chunk, scale, &BoxedCell { cell, own }, out) {
            Ok(()) => Ok(None),
            Err(fault) => Err(LookupFault::Faulty(Fault::Chunk(fault))),
        }
    }

    // The same in each form of scale.
    fn take_any<S: Source>(
        &mut self,
        store: &mut S,
        origin: &StoredScale,
        cell: [u64; 3],
        speller: &mut Option<Speller>,
        out: &mut [u8],
    ) -> Result<Option<usize>, LookupFault>
        requires cell { IsCell origin.now.scale cell }
        requires serves { Serves (S.objects store.old) origin.now self.old }
        requires speller { IfSome speller.old (IsSpeller origin.now.scale) }
        requires len { length out.old ≡ raw_size origin.now.scale cell }
        ensures taken { IfSome (S.objects store.old) (λ m. TakesOne result m origin.now cell out.new) }
        ensures own { IfOk result (λ len. IfSome len (HasOwnChunk origin.now.scale cell out.new)) }
        ensures len { length out.new ≡ length out.old }
        ensures serves { Serves (S.objects store.old) origin.now self.new }
        ensures speller { IfSome speller.new (IsSpeller origin.now.scale) }
        ensures walks { Walks S.Source origin.now (cell ∷ []) LookupFault.NotRead store.old store.new
            self.old.shards self.new.shards result }
    {
        match raw_sharding(&origin.scale) {
            Some(sharding) => self.take_raw(store, origin, &sharding, cell, out),
            None => self.take_one(store, origin, cell, speller, out),
        }
    }

    /// Takes a cell's chunk as it is stored, where this writer spells it: so many bytes in front of `out`; else the cell's
    /// values. The index that is kept goes on from cell to cell.
    pub(crate) fn take_cell<S: Source>(
        &mut self,
        store: &mut S,
        origin: &StoredScale,
        cell: [u64; 3],
        speller: &mut Option<Speller>,
        out: &mut [u8],
    ) -> Result<Option<usize>, CutFault>
        requires cell { IsCell origin.now.scale cell }
        requires serves { Serves (S.objects store.old) origin.now self.old }
        requires speller { IfSome speller.old (IsSpeller origin.now.scale) }
        requires len { length out.old ≡ raw_size origin.now.scale cell }
        ensures taken { IfSome (S.objects store.old) (λ m.
            TakesCell result m origin.now.dataset origin.now.scale cell out.new) }
        ensures inside { result ≢ Err CutFault.OutsideScale }
        ensures own { IfOk result (λ len. IfSome len (HasOwnChunk origin.now.scale cell out.new)) }
        ensures bytes { AreBytes out.new }
        ensures len { length out.new ≡ length out.old }
        ensures serves { Serves (S.objects store.old) origin.now self.new }
        ensures speller { IfSome speller.new (IsSpeller origin.now.scale) }
        ensures walks { Walks S.Source origin.now (cell ∷ []) CutFault.StoreFault store.old store.new
            self.old.shards self.new.shards result }
    {
        let taken = self.take_any(store, origin, cell, speller, out);
        tell_bytes(out);
        match taken {
            Ok(len) => Ok(len),
            Err(fault) => Err(place_fault(cell, fault)),
        }
    }
}
