//! Which cells of a target are made from a source.
ghost use Rattle.std.specs.Prelude.{◌≡◌, ◌&&◌, ◌≤◌, ◌^◌, All, false, length, replicate, IfOk, IfSome, OnOk};
ghost use Rattle.vol_base.specs.Calls.{ReadsFrom};
ghost use Rattle.vol_spec.specs.Chunks.{chunk_in};
ghost use Rattle.vol_spec.specs.Copies.{is_there as there};
ghost use Rattle.vol_spec.specs.Grid.{Inside, IsCell, meets};
ghost use Rattle.vol_spec.specs.StoredCells.{AreInOrder};
ghost use Rattle.write_plan.specs.Pairs.{cell_count};
ghost use Rattle.cutout.specs.Kept.{KeepsIndex};
ghost use Rattle.copier.specs.Marks.{AddsMarks, AreMarked};
ghost use Rattle.copier.specs.Placed.{is_placed};

use crate::marks::{list_marked, mark_cells};
use crate::placing::Placing;
use chunk_grid::{cells, count_cells, whole};
use cutout::{CutFault, Found, KeepingReader};
use std::alloc::{AllocError, Global};
use vol_base::{Box3, Source, StoreRefusal};
use vol_spec::Scale;

// Whether the source has something of a cell: a chunk, or a fault.
fn is_there<S: Source>(
    reader: &mut KeepingReader,
    store: &mut S,
    cell: [u64; 3],
) -> Result<bool, StoreRefusal>
    requires cell { IsCell reader.old.opened.scale cell }
    requires keeps { KeepsIndex (S.objects store.old) reader.old }
    ensures told { IfOk result (λ told. IfSome (S.objects store.old) (λ m.
        told ≡ there (chunk_in m reader.old.opened.dataset reader.old.opened.scale cell))) }
    ensures keeps { KeepsIndex (S.objects store.old) reader.new }
    ensures same { reader.new.opened ≡ reader.old.opened }
    ensures reads { ReadsFrom S.Source StoreRefusal.Failed store.old store.new result }
{
    match reader.locate(store, cell) {
        Ok(Found::Absent) => Ok(false),
        Ok(Found::At { .. }) => Ok(true),
        Err(CutFault::Damaged { .. }) => Ok(true),
        Err(CutFault::StoreFault) => Err(StoreRefusal::Failed),
        Err(CutFault::OutsideScale) => unreachable!(),
    }
}

// Marks the cells of the target that meet a box, if the source has a chunk or a fault of a cell.
fn mark_source<S: Source>(
    reader: &mut KeepingReader,
    store: &mut S,
    cell: [u64; 3],
    to: &Scale,
    part: &Box3,
    marks: &mut [bool],
) -> Result<(), StoreRefusal>
    requires cell { IsCell reader.old.opened.scale cell }
    requires keeps { KeepsIndex (S.objects store.old) reader.old }
    requires few { cell_count to.now ≤ 2 ^ 22 }
    requires len { length marks.old ≡ cell_count to.now }
    requires inside { Inside to.now part.now }
    ensures marks { OnOk result (IfSome (S.objects store.old) (λ m. AddsMarks to.now
        (λ c. there (chunk_in m reader.old.opened.dataset reader.old.opened.scale cell) && meets to.now part.now c)
        marks.old marks.new)) }
    ensures keeps { KeepsIndex (S.objects store.old) reader.new }
    ensures same { reader.new.opened ≡ reader.old.opened }
    ensures reads { ReadsFrom S.Source StoreRefusal.Failed store.old store.new result }
{
    match is_there(reader, store, cell) {
        Err(refusal) => Err(refusal),
        Ok(false) => Ok(()),
        Ok(true) => {
            mark_cells(to, part, marks);
            Ok(())
        }
    }
}

// Marks the cells of the target that the source's cells are placed over, those of which it has a chunk or a fault.
fn mark_placed<P: Placing, S: Source>(
    reader: &mut KeepingReader,
    store: &mut S,
    from: &Scale,
    to: &Scale,
    marks: &mut [bool],
) -> Result<(), StoreRefusal>
    requires source { reader.old.opened.scale ≡ from.now }
    requires keeps { KeepsIndex (S.objects store.old) reader.old }
    requires fits { P.fits from.now to.now }
    requires few { cell_count to.now ≤ 2 ^ 22 }
    requires len { length marks.old ≡ cell_count to.now }
    requires clear { All (λ mark. mark ≡ false) marks.old }
    ensures marks { OnOk result (IfSome (S.objects store.old) (λ m. AreMarked to.now
        (is_placed (P.place from.now to.now) m reader.old.opened.dataset from.now to.now) marks.new)) }
    ensures keeps { KeepsIndex (S.objects store.old) reader.new }
    ensures same { reader.new.opened ≡ reader.old.opened }
    ensures reads { ReadsFrom S.Source StoreRefusal.Failed store.old store.new result }
{
    for cell in cells(from, &whole(from)) {
        match mark_source(reader, store, cell, to, &P::place(from, to, cell), marks) {
            Ok(()) => {}
            Err(refusal) => return Err(refusal),
        }
    }
    Ok(())
}

// So many marks, of which none is set.
fn reserve_marks(alloc: Global, count: usize) -> Result<Vec<bool>, AllocError>
    ensures { IfOk result (λ marks. marks.items ≡ replicate count false) }
{
    vec![in alloc; false; count]
}

/// The cells of the target that are made from the source, in the order of the grid: those that a cell of the source is
/// placed over, of which the source has a chunk or a fault. Each cell of the source is located, and an index is kept from
/// cell to cell.
///
/// # Errors
/// `Failed` only where the store failed, and `OutOfMemory`.
pub fn find_placed<P: Placing, S: Source>(
    alloc: Global,
    reader: &mut KeepingReader,
    store: &mut S,
    from: &Scale,
    to: &Scale,
) -> Result<Vec<[u64; 3]>, StoreRefusal>
    requires source { reader.old.opened.scale ≡ from.now }
    requires fits { P.fits from.now to.now }
    requires few { cell_count to.now ≤ 2 ^ 22 }
    ensures order { IfOk result (λ list. AreInOrder to.now list.items) }
    ensures few { IfOk result (λ list. length list.items ≤ 2 ^ 22) }
    ensures made { IfOk result (λ list. IfSome (S.objects store.old) (λ m.
        list.items ≡ P.made m reader.old.opened.dataset from.now to.now)) }
    ensures same { reader.new.opened ≡ reader.old.opened }
    ensures reads { ReadsFrom S.Source StoreRefusal.Failed store.old store.new result }
{
    let count = count_cells(to, &whole(to)) as usize;
    let Ok(mut marks) = reserve_marks(alloc, count) else {
        return Err(StoreRefusal::OutOfMemory);
    };
    reader.forget();
    match mark_placed::<P, S>(reader, store, from, to, &mut marks) {
        Ok(()) => {}
        Err(refusal) => return Err(refusal),
    }
    match list_marked(alloc, to, &marks) {
        Ok(list) => Ok(list),
        Err(_) => Err(StoreRefusal::OutOfMemory),
    }
}
