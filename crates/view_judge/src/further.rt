//! A further view of a scale.
ghost use Rattle.std.specs.Prelude.{◌≡◌, ◌+◌, ◌≤◌, ◌^◌, length, IfErr, IfOk, IfSome, None};
ghost use Rattle.std.specs.List.{sum_by};
ghost use Rattle.vol_base.specs.Calls.{AsksFor, ReadsFrom};
ghost use Rattle.vol_spec.specs.Costs.{cost};
ghost use Rattle.vol_spec.specs.Grid.{cell_box as box_of, cells_in, Inside, IsCell, Meets};
ghost use Rattle.vol_spec.specs.Raw.{raw_len};
ghost use Rattle.size_laws.specs.Findings.{common};
ghost use Rattle.view_judge.specs.Answers.{AreNamed, ComparesBox, JudgesBox, JudgesCell, JudgesOwn, JudgesView};
ghost use Rattle.view_judge.specs.Further.{HasRoom, IsBeside, opened, StandsBeside};
ghost use Rattle.view_judge.specs.Judging.{cells_cost, own_cost, pair_cost};
ghost use Rattle.view_judge.specs.Regions.{own_regions};

use crate::boxes::{compare_view, judge_box, shared_box};
use crate::regions::find_own_regions;
use crate::report::{NONE, add, one_cell};
use crate::stored::{count_stored, find_stored};
use crate::{ViewFault, ViewsReport};
use chunk_grid::{cell_box, cells, tell_cells};
use cutout::Reader;
use std::alloc::Global;
use std::marker::Model;
use vol_base::{Box3, OutOfMemory, Source};
use vol_spec::{Scale, StoredScale};

/// A view that is opened, to be judged.
#[derive(Drop)]
pub(crate) struct FurtherView {
    stored: StoredScale,
    reader: Reader,
}

impl Model for FurtherView {
    ghost use Rattle.cutout.specs.Opened.{Opened};
    ghost use Rattle.view_judge.specs.Further.{IsHeld};

    ghost Value = { Opened };

    ghost view = { λ v. record { dataset = v.stored.dataset; scale = v.stored.scale } };

    ghost invariant = { λ v. IsHeld v.stored.dataset v.stored.scale v.reader };
}

impl FurtherView {
    /// Opens a view. Where there is no memory, it is refused.
    pub(crate) fn reserve(alloc: Global, stored: StoredScale) -> Result<FurtherView, OutOfMemory>
        requires unsharded { stored.scale.sharding ≡ None }
        ensures { IfOk result (λ view. view ≡ opened stored.dataset stored.scale) }
    {
        let reader = Reader::open(alloc, &stored.dataset, &stored.scale)?;
        Ok(FurtherView { stored, reader })
    }

    /// How many cells meet a part, of how many there is an object of their own, and of how many there is none.
    pub(crate) fn count<S: Source>(
        &self,
        store: &mut S,
        part: &Box3,
    ) -> Result<ViewsReport, ViewFault>
        requires inside { Inside self.now.scale part.now }
        requires few { length (cells_in self.now.scale part.now) ≤ 2 ^ 22 }
        ensures named { IfOk result (λ report. IfSome (S.objects store.old) (λ m.
            AreNamed m self.now.dataset self.now.scale (cells_in self.now.scale part.now) report)) }
        ensures cells { IfOk result (λ report. report.cells ≡ length (cells_in self.now.scale part.now)) }
        ensures both { IfOk result (λ report. report.stored + report.absent ≡ report.cells) }
        ensures failed { IfErr result (λ fault. fault ≡ ViewFault.StoreFault) }
        ensures asked { S.asked store.new ≡ S.asked store.old }
        ensures reads { ReadsFrom S.Source ViewFault.StoreFault store.old store.new result }
    {
        count_stored(store, &self.stored, part)
    }

    /// Compares a box with values, with room for its own.
    pub(crate) fn compare<S: Source>(
        &mut self,
        number: u32,
        store: &mut S,
        part: &Box3,
        found: &mut [u8],
        wanted: &[u8],
    ) -> Result<(), ViewFault>
        requires inside { Inside self.old.scale part.now }
        requires found { length found.old ≡ raw_len part.now self.old.scale.channels self.old.scale.width }
        requires wanted { length wanted.now ≡ raw_len part.now self.old.scale.channels self.old.scale.width }
        requires limit { raw_len part.now self.old.scale.channels self.old.scale.width ≤ 2 ^ 30 }
        ensures judged { IfSome (S.objects store.old) (λ m.
            ComparesBox result m self.old.dataset number self.old.scale part.now wanted.now) }
        ensures same { self.new ≡ self.old }
        ensures asks { AsksFor S.Source (λ m. cost m self.old.dataset self.old.scale part.now)
            ViewFault.StoreFault store.old store.new result }
    {
        let stored = &self.stored;
        compare_view(
            number,
            &stored.scale,
            &mut self.reader,
            store,
            part,
            found,
            wanted,
        )
    }

    // Judges the values of a region in a part, with room for them twice.
    fn judge_region<S: Source>(
        &mut self,
        number: u32,
        first: &mut Reader,
        regions: &Scale,
        store: &mut S,
        region: [u64; 3],
        part: &Box3,
        found: &mut [u8],
        wanted: &mut [u8],
    ) -> Result<(), ViewFault>
        requires beside { StandsBeside first.old self.old part.now }
        requires grid { IsBeside self.old.scale regions.now }
        requires region { IsCell regions.now region }
        requires meets { Meets regions.now region part.now }
        requires found { HasRoom regions.now (length found.old) }
        requires wanted { HasRoom regions.now (length wanted.old) }
        ensures judged { IfSome (S.objects store.old) (λ m. JudgesBox result m first.old.dataset first.old.scale
            number self.old.scale (common (box_of regions.now region) part.now)) }
        ensures same { self.new ≡ self.old }
        ensures first { first.new ≡ first.old }
        ensures asks { AsksFor S.Source (λ m. pair_cost m first.old.dataset first.old.scale self.old.scale
            (common (box_of regions.now region) part.now)) ViewFault.StoreFault store.old store.new result }
    {
        let stored = &self.stored;
        let shared = shared_box(&cell_box(regions, region), part);
        judge_box(
            number,
            &stored.scale,
            &mut self.reader,
            first,
            store,
            &shared,
            found,
            wanted,
        )
    }

    // Judges the regions that meet a part, with room for the values of each twice, up to and with the first with which
    // something is wrong.
    fn judge_regions<S: Source>(
        &mut self,
        number: u32,
        first: &mut Reader,
        regions: &Scale,
        store: &mut S,
        part: &Box3,
        found: &mut [u8],
        wanted: &mut [u8],
    ) -> Result<(), ViewFault>
        requires beside { StandsBeside first.old self.old part.now }
        requires grid { IsBeside self.old.scale regions.now }
        requires found { HasRoom regions.now (length found.old) }
        requires wanted { HasRoom regions.now (length wanted.old) }
        ensures judged { IfSome (S.objects store.old) (λ m. JudgesOwn result m first.old.dataset
            first.old.scale number self.old.scale regions.now part.now) }
        ensures same { self.new ≡ self.old }
        ensures first { first.new ≡ first.old }
        ensures asks { AsksFor S.Source (λ m. sum_by (λ region. pair_cost m first.old.dataset first.old.scale
            self.old.scale (common (box_of regions.now region) part.now)) (cells_in regions.now part.now))
            ViewFault.StoreFault store.old store.new result }
    {
        tell_cells(regions, part);
        for region in cells(regions, part) {
            match self.judge_region(number, first, regions, store, region, part, found, wanted) {
                Ok(()) => {}
                Err(wrong) => return Err(wrong),
            }
        }
        Ok(())
    }

    /// Judges the regions beside the first view of a scale, likewise.
    pub(crate) fn judge_own<S: Source>(
        &mut self,
        number: u32,
        first: &mut Reader,
        scale: &Scale,
        store: &mut S,
        part: &Box3,
        found: &mut [u8],
        wanted: &mut [u8],
    ) -> Result<(), ViewFault>
        requires beside { StandsBeside first.old self.old part.now }
        requires scale { scale.now ≡ first.old.scale }
        requires found { HasRoom (own_regions first.old.scale self.old.scale) (length found.old) }
        requires wanted { HasRoom (own_regions first.old.scale self.old.scale) (length wanted.old) }
        ensures judged { IfSome (S.objects store.old) (λ m. JudgesOwn result m first.old.dataset
            first.old.scale number self.old.scale (own_regions first.old.scale self.old.scale) part.now) }
        ensures same { self.new ≡ self.old }
        ensures first { first.new ≡ first.old }
        ensures asks { AsksFor S.Source (λ m. own_cost m first.old.dataset first.old.scale part.now
            self.old.scale) ViewFault.StoreFault store.old store.new result }
    {
        let regions = find_own_regions(scale, &self.stored.scale);
        self.judge_regions(number, first, &regions, store, part, found, wanted)
    }

    // Judges a cell, with room for its values twice: its chunk, and then its values in a part. Where nothing is wrong, the
    // answer is whether the chunk is stored.
    fn judge_cell<S: Source>(
        &mut self,
        number: u32,
        first: &mut Reader,
        store: &mut S,
        cell: [u64; 3],
        part: &Box3,
        found: &mut [u8],
        wanted: &mut [u8],
    ) -> Result<bool, ViewFault>
        requires beside { StandsBeside first.old self.old part.now }
        requires cell { IsCell self.old.scale cell }
        requires meets { Meets self.old.scale cell part.now }
        requires found { HasRoom self.old.scale (length found.old) }
        requires wanted { HasRoom self.old.scale (length wanted.old) }
        ensures judged { IfSome (S.objects store.old) (λ m.
            JudgesCell result m first.old.dataset first.old.scale number self.old.scale part.now cell) }
        ensures same { self.new ≡ self.old }
        ensures first { first.new ≡ first.old }
        ensures asks { AsksFor S.Source (λ m. pair_cost m first.old.dataset first.old.scale self.old.scale
            (common (box_of self.old.scale cell) part.now)) ViewFault.StoreFault store.old store.new result }
    {
        let stored = &self.stored;
        let is_stored = find_stored(store, stored, cell)?;
        let shared = shared_box(&cell_box(&stored.scale, cell), part);
        match judge_box(
            number,
            &stored.scale,
            &mut self.reader,
            first,
            store,
            &shared,
            found,
            wanted,
        ) {
            Ok(()) => {}
            Err(fault) => return Err(fault),
        }
        Ok(is_stored)
    }

    /// Judges the cells that meet a part, with room for the values of each twice, x fastest, up to and with the first with
    /// which something is wrong.
    pub(crate) fn judge_cells<S: Source>(
        &mut self,
        number: u32,
        first: &mut Reader,
        store: &mut S,
        part: &Box3,
        found: &mut [u8],
        wanted: &mut [u8],
    ) -> Result<ViewsReport, ViewFault>
        requires beside { StandsBeside first.old self.old part.now }
        requires few { length (cells_in self.old.scale part.now) ≤ 2 ^ 22 }
        requires found { HasRoom self.old.scale (length found.old) }
        requires wanted { HasRoom self.old.scale (length wanted.old) }
        ensures judged { IfSome (S.objects store.old) (λ m. JudgesView result m first.old.dataset first.old.scale
            number self.old.scale part.now (cells_in self.old.scale part.now)) }
        ensures cells { IfOk result (λ report. report.cells ≡ length (cells_in self.old.scale part.now)) }
        ensures both { IfOk result (λ report. report.stored + report.absent ≡ report.cells) }
        ensures same { self.new ≡ self.old }
        ensures first { first.new ≡ first.old }
        ensures asks { AsksFor S.Source (λ m. cells_cost m first.old.dataset first.old.scale part.now
            self.old.scale) ViewFault.StoreFault store.old store.new result }
    {
        let mut report = NONE;
        tell_cells(&self.stored.scale, part);
        for cell in cells(&self.stored.scale, part) {
            match self.judge_cell(number, first, store, cell, part, found, wanted) {
                Ok(is_stored) => report = add(report, one_cell(is_stored)),
                Err(fault) => return Err(fault),
            }
        }
        Ok(report)
    }
}
