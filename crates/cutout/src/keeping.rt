//! The reader of a scale that keeps an index from call to call.
ghost use Rattle.std.specs.Prelude.{is_ok, ◌≡◌, ◌≢◌, ◌↔◌, ◌∷◌, [], ◌+◌, ◌≤◌, ◌^◌, length, IfOk, IfSome, Err, Option};
ghost use Rattle.vol_base.specs.Bytes.{AreBytes};
ghost use Rattle.vol_base.specs.Outside.{Objects};
ghost use Rattle.vol_spec.specs.Costs.{cost};
ghost use Rattle.vol_spec.specs.Encodings.{raw_size};
ghost use Rattle.vol_spec.specs.Grid.{cells_in, Inside, IsCell};
ghost use Rattle.vol_spec.specs.Raw.{raw_len};
ghost use Rattle.cutout.specs.Kept.{KeepsIndex};
ghost use Rattle.vol_base.specs.Calls.{ReadsFrom};
ghost use Rattle.cutout.specs.Reading.{HasCut};
ghost use Rattle.cutout.specs.Runs.{RunsOn};
ghost use Rattle.cutout.specs.Searching.{Searches};
ghost use Rattle.cutout.specs.Taking.{HasOwnChunk, TakesCell};

use crate::cells::CellReader;
use crate::speller::Speller;
use crate::{CutFault, Found};
use std::alloc::Global;
use std::marker::Model;
use vol_base::{Box3, OutOfMemory, Source};
use vol_spec::StoredScale;

/// Reads a scale of a data set as a `Reader` does, and keeps the index that it opened last from call to call.
/// So boxes that are read one after the other, in the order of the ids, read an index once. It is seen
/// as the reader, and what it keeps.
#[derive(Drop)]
pub struct KeepingReader {
    pub(crate) origin: StoredScale,
    pub(crate) cells: CellReader,
    pub(crate) speller: Option<Speller>,
}

impl Model for KeepingReader {
    ghost use Rattle.cutout.specs.Kept.{Keeping};
    ghost use Rattle.cutout.specs.Serving.{HasRoom};
    ghost use Rattle.cutout.specs.Taking.{IsSpeller};
    ghost use Rattle.std.specs.Prelude.{IfSome};

    ghost Value = { Keeping };

    ghost view = { λ r. record {
      opened = record { dataset = r.origin.dataset; scale = r.origin.scale };
      shards = r.cells.shards;
    } };

    ghost invariant = { λ r. HasRoom r.origin.scale r.cells × IfSome r.speller (IsSpeller r.origin.scale) };
}

impl KeepingReader {
    /// Forgets what is kept, as has to be done where the objects may have changed.
    pub fn forget(&mut self)
        ensures same { self.new.opened ≡ self.old.opened }
        ensures nothing { (objects : Option Objects) → KeepsIndex objects self.new }
    {
        self.cells.shards.forget();
    }

    /// The same reader, which moreover takes chunks as they are stored where this writer spells them. It takes the
    /// memory for telling that.
    pub fn taking(self, alloc: Global) -> Result<KeepingReader, OutOfMemory>
        ensures { IfOk result (λ reader. reader ≡ self) }
    {
        let speller = Speller::reserve(alloc, &self.origin.scale)?;
        Ok(KeepingReader {
            origin: self.origin,
            cells: self.cells,
            speller,
        })
    }

    /// Finds the chunk of a cell, as `Reader::locate` does, and forgets nothing: it reads no row that it has passed in
    /// the index that it keeps, nor the index's entry. What it keeps must be what the objects say.
    pub fn locate<S: Source>(&mut self, store: &mut S, cell: [u64; 3]) -> Result<Found, CutFault>
        requires cell { IsCell self.old.opened.scale cell }
        requires keeps { KeepsIndex (S.objects store.old) self.old }
        ensures searches { Searches S.Source self.old.opened.dataset self.old.opened.scale cell store.old
            store.new result }
        ensures keeps { KeepsIndex (S.objects store.old) self.new }
        ensures same { self.new.opened ≡ self.old.opened }
    {
        self.cells.locate(store, &self.origin, cell)
    }

    /// Cuts a box out, as `Reader::cutout` does, and forgets nothing: it reads no row that it has passed in the
    /// index that it keeps, nor the index's entry. What it keeps must be what the objects say, as it is
    /// after `forget`, and behind another cut where the objects stayed the same.
    pub fn cutout<S: Source>(
        &mut self,
        store: &mut S,
        part: &Box3,
        out: &mut [u8],
    ) -> Result<(), CutFault>
        requires len { length out.old ≡ raw_len part.now self.old.opened.scale.channels
            self.old.opened.scale.width }
        requires limit { Inside self.old.opened.scale part.now → length out.old ≤ 2 ^ 30 }
        requires keeps { KeepsIndex (S.objects store.old) self.old }
        ensures outside { result ≡ Err CutFault.OutsideScale ↔
            (Inside self.old.opened.scale part.now → ⊥) }
        ensures cut { IfSome (S.objects store.old) (λ m.
            HasCut result m self.old.opened.dataset self.old.opened.scale part.now out.new) }
        ensures keeps { KeepsIndex (S.objects store.old) self.new }
        ensures same { self.new.opened ≡ self.old.opened }
        ensures unasked { result ≡ Err CutFault.OutsideScale → store.new ≡ store.old }

        // It asks for no more than the entries, the indexes and the chunks of the cells.
        ensures asked { IfSome (S.objects store.old) (λ m. S.asked store.new ≤ S.asked store.old
            + cost m self.old.opened.dataset self.old.opened.scale part.now) }

        // Over several cuts it asks for the rows of an index once, where each cell stands behind the one before.
        ensures run { IfSome (S.objects store.old) (λ m. RunsOn (is_ok result) m self.old.opened.dataset
            self.old.opened.scale (cells_in self.old.opened.scale part.now) (S.asked store.old)
            (S.asked store.new) self.old.shards self.new.shards) }
        ensures reads { ReadsFrom S.Source CutFault.StoreFault store.old store.new result }
    {
        self.cells.cut_box(store, &self.origin, part, out)
    }

    /// Takes a cell's chunk as it is stored, where this reader tells it for one that this writer spells, and tells how
    /// many bytes in front of `out` it has; else puts the cell's values. It is damaged where the cell has a
    /// fault. As `cutout` it forgets nothing, and what it keeps must be what the objects say.
    pub fn take_cell<S: Source>(
        &mut self,
        store: &mut S,
        cell: [u64; 3],
        out: &mut [u8],
    ) -> Result<Option<usize>, CutFault>
        requires cell { IsCell self.old.opened.scale cell }
        requires len { length out.old ≡ raw_size self.old.opened.scale cell }
        requires keeps { KeepsIndex (S.objects store.old) self.old }
        ensures taken { IfSome (S.objects store.old) (λ m.
            TakesCell result m self.old.opened.dataset self.old.opened.scale cell out.new) }
        ensures inside { result ≢ Err CutFault.OutsideScale }
        ensures own { IfOk result (λ len. IfSome len (HasOwnChunk self.old.opened.scale cell out.new)) }
        ensures bytes { AreBytes out.new }
        ensures len { length out.new ≡ length out.old }
        ensures keeps { KeepsIndex (S.objects store.old) self.new }
        ensures same { self.new.opened ≡ self.old.opened }
        ensures run { IfSome (S.objects store.old) (λ m. RunsOn (is_ok result) m self.old.opened.dataset
            self.old.opened.scale (cell ∷ []) (S.asked store.old) (S.asked store.new) self.old.shards
            self.new.shards) }
        ensures reads { ReadsFrom S.Source CutFault.StoreFault store.old store.new result }
    {
        self.cells
            .take_cell(store, &self.origin, cell, &mut self.speller, out)
    }
}
