//! A judge of the further views of a scale.
ghost use Rattle.std.specs.Prelude.{◌≡◌, ◌+◌, ◌≤◌, ◌^◌, length, All, IfErr, IfOk, IfSome};
ghost use Rattle.std.specs.List.{sum_by};
ghost use Rattle.vol_base.specs.Calls.{AsksFor, ReadsFrom};
ghost use Rattle.vol_spec.specs.Grid.{Inside};
ghost use Rattle.vol_spec.specs.Verdicts.{Sound};
ghost use Rattle.size_laws.specs.Further.{further as further_of};
ghost use Rattle.view_judge.specs.Answers.{AreAllNamed, JudgesAll};
ghost use Rattle.view_judge.specs.Further.{all_opened, HasRoom, HasRooms};
ghost use Rattle.view_judge.specs.Judging.{cells_cost, cells_of, FindsViews, compare_cost, views_cost};

use crate::further::FurtherView;
use crate::joint::compare_views;
use crate::regions::{find_own_regions, find_regions};
use crate::report::{NONE, add};
use crate::{ViewFault, ViewsReport};
use chunk_pool::Frame;
use cutout::Reader;
use std::alloc::Global;
use std::marker::Model;
use vol_base::{Box3, OutOfMemory, Source};
use vol_spec::{Scale, StoredScale};

/// Judges the further views of a scale beside the first view: all together region by region, and where one isn't the
/// same there view by view, cell by cell. The memory that it needs is taken when it is reserved.
#[derive(Drop)]
pub struct ViewJudge {
    first: Reader,
    further: Vec<FurtherView>,
    scale: Scale,
    found: Frame,
    wanted: Frame,
}

impl Model for ViewJudge {
    ghost use Rattle.cutout.specs.Opened.{Opened};
    ghost use Rattle.view_judge.specs.Further.{IsJudge};

    ghost Value = { Opened };

    ghost view = { λ j. j.first };

    ghost invariant = { λ j. IsJudge j.first j.further.items j.scale j.found j.wanted };
}

// The further views, opened in the order of their sizes.
fn reserve_views(alloc: Global, stored: &StoredScale) -> Result<Vec<FurtherView>, OutOfMemory>
    ensures { IfOk result (λ views. views.items ≡ all_opened stored.now.dataset stored.now.scale) }
{
    let mut views = Vec::new(alloc);
    for k in 0..stored.scale.more.len() {
        let own = StoredScale::of(&stored.dataset, &stored.scale.view(k + 1));
        let view = FurtherView::reserve(alloc, own)?;
        match views.push(view) {
            Ok(()) => {}
            Err(_) => return Err(OutOfMemory),
        }
    }
    Ok(views)
}

// The bytes of the values of the longest cell of any further view, and of the longest region.
fn longest_room(scale: &Scale) -> u64
    ensures { HasRooms scale.now result }
{
    let mut room = find_regions(scale).raw_limit();
    for k in 0..scale.more.len() {
        let view = scale.view(k + 1);
        let own = find_own_regions(scale, &view);
        room = room.max(view.raw_limit()).max(own.raw_limit());
    }
    room
}

// Judges the views cell by cell, one after the other, up to and with the first with which something is wrong.
fn judge_views<S: Source>(
    first: &mut Reader,
    further: &mut [FurtherView],
    store: &mut S,
    part: &Box3,
    found: &mut [u8],
    wanted: &mut [u8],
) -> Result<ViewsReport, ViewFault>
    requires views { further.old ≡ all_opened first.old.dataset first.old.scale }
    requires inside { Inside first.old.scale part.now }
    requires few { cells_of (further_of first.old.scale) part.now ≤ 2 ^ 22 }
    requires found { All (λ v. HasRoom v (length found.old)) (further_of first.old.scale) }
    requires wanted { All (λ v. HasRoom v (length wanted.old)) (further_of first.old.scale) }
    ensures found { IfSome (S.objects store.old) (λ m. Sound m first.old.dataset first.old.scale part.now →
        FindsViews result m first.old.dataset first.old.scale part.now) }
    ensures cells { IfOk result (λ report. report.cells ≡ cells_of (further_of first.old.scale) part.now) }
    ensures both { IfOk result (λ report. report.stored + report.absent ≡ report.cells) }
    ensures first { first.new ≡ first.old }
    ensures further { further.new ≡ further.old }
    ensures asks { AsksFor S.Source (λ m. sum_by (cells_cost m first.old.dataset first.old.scale part.now)
        (further_of first.old.scale)) ViewFault.StoreFault store.old store.new result }
{
    let mut report = NONE;
    let mut k = 0;
    while k < further.len() {
        match further[k].judge_cells(k as u32 + 1, first, store, part, found, wanted) {
            Ok(more) => report = add(report, more),
            Err(fault) => return Err(fault),
        }
        k += 1;
    }
    Ok(report)
}

// Judges the views by their regions. Nothing is wrong with any cell where nothing is wrong with a region; else it goes
// view by view, cell by cell, so that the first one is told. Should all cells be right then, the store isn't as it was,
// and what was wrong with the region is told.
fn judge_all<S: Source>(
    first: &mut Reader,
    further: &mut [FurtherView],
    scale: &Scale,
    store: &mut S,
    part: &Box3,
    found: &mut [u8],
    wanted: &mut [u8],
) -> Result<(), ViewFault>
    requires views { further.old ≡ all_opened first.old.dataset first.old.scale }
    requires some { 1 ≤ length further.old }
    requires scale { scale.now ≡ first.old.scale }
    requires inside { Inside first.old.scale part.now }
    requires few { cells_of (further_of first.old.scale) part.now ≤ 2 ^ 22 }
    requires found { HasRooms first.old.scale (length found.old) }
    requires wanted { HasRooms first.old.scale (length wanted.old) }
    ensures judged { IfSome (S.objects store.old) (λ m.
        JudgesAll result m first.old.dataset first.old.scale part.now) }
    ensures first { first.new ≡ first.old }
    ensures further { further.new ≡ further.old }
    ensures asked { IfSome (S.objects store.old) (λ m.
        S.asked store.new ≤ S.asked store.old + views_cost m first.old.dataset first.old.scale part.now) }
    // Where nothing is wrong only the regions were read.
    ensures asked_once { IfOk result (λ done. IfSome (S.objects store.old) (λ m.
        S.asked store.new ≤ S.asked store.old + compare_cost m first.old.dataset first.old.scale part.now)) }
    ensures reads { ReadsFrom S.Source ViewFault.StoreFault store.old store.new result }
{
    match compare_views(first, further, scale, store, part, found, wanted) {
        Ok(()) => Ok(()),
        Err(ViewFault::StoreFault) => Err(ViewFault::StoreFault),
        Err(wrong) => match judge_views(first, further, store, part, found, wanted) {
            Ok(_) => Err(wrong),
            Err(fault) => Err(fault),
        },
    }
}

impl ViewJudge {
    /// A judge of the further views of a scale. Where there is no memory, it is refused.
    pub fn reserve(alloc: Global, stored: &StoredScale) -> Result<ViewJudge, OutOfMemory>
        ensures dataset { IfOk result (λ judge. judge.dataset ≡ stored.now.dataset) }
        ensures scale { IfOk result (λ judge. judge.scale ≡ stored.now.scale) }
    {
        let room = longest_room(&stored.scale);
        let further = reserve_views(alloc, stored)?;
        let first = Reader::open(alloc, &stored.dataset, &stored.scale)?;
        let found = Frame::alone(alloc, room)?;
        let wanted = Frame::alone(alloc, room)?;
        Ok(ViewJudge {
            first,
            further,
            scale: stored.scale.duplicate(),
            found,
            wanted,
        })
    }

    // How many cells of the further views meet a part, of how many there is an object of their own, and of how many there
    // is none.
    fn count<S: Source>(&self, store: &mut S, part: &Box3) -> Result<ViewsReport, ViewFault>
        requires inside { Inside self.now.scale part.now }
        requires few { cells_of (further_of self.now.scale) part.now ≤ 2 ^ 22 }
        ensures named { IfOk result (λ report. IfSome (S.objects store.old) (λ m.
            AreAllNamed m self.now.dataset part.now (further_of self.now.scale) report)) }
        ensures cells { IfOk result (λ report. report.cells ≡ cells_of (further_of self.now.scale) part.now) }
        ensures both { IfOk result (λ report. report.stored + report.absent ≡ report.cells) }
        ensures failed { IfErr result (λ fault. fault ≡ ViewFault.StoreFault) }
        ensures asked { S.asked store.new ≡ S.asked store.old }
        ensures reads { ReadsFrom S.Source ViewFault.StoreFault store.old store.new result }
    {
        let mut report = NONE;
        for view in &self.further {
            match view.count(store, part) {
                Ok(more) => report = add(report, more),
                Err(fault) => return Err(fault),
            }
        }
        Ok(report)
    }

    /// Judges the cells of the further views that meet a part, view by view, x fastest: of each cell its chunk, and then
    /// its values in the part beside the first view's. The first that is wrong is told; else how many chunks are stored
    /// and absent.
    pub fn judge<S: Source>(&mut self, store: &mut S, part: &Box3) -> Result<ViewsReport, ViewFault>
        requires inside { Inside self.old.scale part.now }
        requires few { cells_of (further_of self.old.scale) part.now ≤ 2 ^ 22 }
        ensures found { IfSome (S.objects store.old) (λ m. Sound m self.old.dataset self.old.scale part.now →
            FindsViews result m self.old.dataset self.old.scale part.now) }
        ensures cells { IfOk result (λ report. report.cells ≡ cells_of (further_of self.old.scale) part.now) }
        ensures both { IfOk result (λ report. report.stored + report.absent ≡ report.cells) }
        ensures same { self.new ≡ self.old }
        // It asks for no more than what the regions cost in the views that are compared there, and the cells in their view
        // and in the first one.
        ensures asked { IfSome (S.objects store.old) (λ m. S.asked store.new
            ≤ S.asked store.old + views_cost m self.old.dataset self.old.scale part.now) }
        // Where nothing is wrong it asks for the regions alone.
        ensures asked_once { IfOk result (λ report. IfSome (S.objects store.old) (λ m. S.asked store.new
            ≤ S.asked store.old + compare_cost m self.old.dataset self.old.scale part.now)) }
        ensures reads { ReadsFrom S.Source ViewFault.StoreFault store.old store.new result }
    {
        if self.further.is_empty() {
            return Ok(NONE);
        }
        let report = self.count(store, part)?;
        let found = self.found.room();
        let wanted = self.wanted.room();
        match judge_all(
            &mut self.first,
            &mut self.further,
            &self.scale,
            store,
            part,
            found,
            wanted,
        ) {
            Ok(()) => {}
            Err(fault) => return Err(fault),
        }
        Ok(report)
    }
}
