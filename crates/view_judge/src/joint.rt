//! The further views of a scale beside the first one, by regions.
ghost use Rattle.std.specs.Prelude.{◌≡◌, ◌+◌, ◌≤◌, ◌^◌, length, All, IfSome};
ghost use Rattle.std.specs.List.{sum_by};
ghost use Rattle.vol_base.specs.Calls.{AsksFor};
ghost use Rattle.vol_spec.specs.Grid.{cell_box as box_of, Inside, IsCell, Meets};
ghost use Rattle.vol_spec.specs.Raw.{raw_len};
ghost use Rattle.size_laws.specs.Findings.{common};
ghost use Rattle.size_laws.specs.Further.{further as further_of};
ghost use Rattle.view_judge.specs.Answers.{ComparesAll, JudgesBoxes, JudgesRegions};
ghost use Rattle.view_judge.specs.Further.{all_opened, AreOpened, HasRoom, HasRooms};
ghost use Rattle.view_judge.specs.Judging.{compare_cost, joint_cost, own_cost, region_cost, regions_cost};
ghost use Rattle.view_judge.specs.Regions.{own_regions, regions as regions_of};

use crate::ViewFault;
use crate::boxes::{of_first, shared_box};
use crate::further::FurtherView;
use crate::regions::{find_regions, is_joint};
use chunk_grid::{byte_len, cell_box, cells, tell_cells};
use cutout::Reader;
use vol_base::{Box3, Source};
use vol_spec::Scale;

// Judges a box of all views, with room for its values twice: those of the first view are read once, and then those of
// each further one beside them, up to and with the first with which something is wrong.
fn judge_boxes<S: Source>(
    first: &mut Reader,
    further: &mut [FurtherView],
    store: &mut S,
    part: &Box3,
    found: &mut [u8],
    wanted: &mut [u8],
) -> Result<(), ViewFault>
    requires views { AreOpened first.old further.old part.now }
    requires found { length found.old ≡ raw_len part.now first.old.scale.channels first.old.scale.width }
    requires wanted { length wanted.old ≡ raw_len part.now first.old.scale.channels first.old.scale.width }
    requires limit { raw_len part.now first.old.scale.channels first.old.scale.width ≤ 2 ^ 30 }
    ensures judged { IfSome (S.objects store.old) (λ m.
        JudgesBoxes result m first.old.dataset first.old.scale part.now) }
    ensures first { first.new ≡ first.old }
    ensures further { further.new ≡ further.old }
    ensures asks { AsksFor S.Source (λ m. joint_cost m first.old.dataset first.old.scale
        (further_of first.old.scale) part.now) ViewFault.StoreFault store.old store.new result }
{
    match first.cutout(store, part, wanted) {
        Ok(()) => {}
        Err(fault) => return Err(of_first(fault)),
    }
    let mut k = 0;
    while k < further.len() {
        match further[k].compare(k as u32 + 1, store, part, found, wanted) {
            Ok(()) => {}
            Err(fault) => return Err(fault),
        }
        k += 1;
    }
    Ok(())
}

// Judges a region in a part.
fn judge_region<S: Source>(
    first: &mut Reader,
    further: &mut [FurtherView],
    regions: &Scale,
    store: &mut S,
    region: [u64; 3],
    part: &Box3,
    found: &mut [u8],
    wanted: &mut [u8],
) -> Result<(), ViewFault>
    requires views { AreOpened first.old further.old part.now }
    requires regions { regions.now ≡ regions_of first.old.scale }
    requires region { IsCell regions.now region }
    requires meets { Meets regions.now region part.now }
    requires found { HasRoom regions.now (length found.old) }
    requires wanted { HasRoom regions.now (length wanted.old) }
    ensures judged { IfSome (S.objects store.old) (λ m. JudgesBoxes result m first.old.dataset first.old.scale
        (common (box_of (regions_of first.old.scale) region) part.now)) }
    ensures first { first.new ≡ first.old }
    ensures further { further.new ≡ further.old }
    ensures asks { AsksFor S.Source (λ m. region_cost m first.old.dataset first.old.scale part.now region)
        ViewFault.StoreFault store.old store.new result }
{
    let shared = shared_box(&cell_box(regions, region), part);
    let len = byte_len(&shared, regions.channels, regions.width) as usize;
    judge_boxes(
        first,
        further,
        store,
        &shared,
        &mut found[..len],
        &mut wanted[..len],
    )
}

// Judges the regions that meet a part, with room for the values of each twice, up to and with the first with which
// something is wrong.
fn judge_regions<S: Source>(
    first: &mut Reader,
    further: &mut [FurtherView],
    regions: &Scale,
    store: &mut S,
    part: &Box3,
    found: &mut [u8],
    wanted: &mut [u8],
) -> Result<(), ViewFault>
    requires views { AreOpened first.old further.old part.now }
    requires regions { regions.now ≡ regions_of first.old.scale }
    requires found { HasRoom regions.now (length found.old) }
    requires wanted { HasRoom regions.now (length wanted.old) }
    ensures judged { IfSome (S.objects store.old) (λ m.
        JudgesRegions result m first.old.dataset first.old.scale part.now) }
    ensures first { first.new ≡ first.old }
    ensures further { further.new ≡ further.old }
    ensures asks { AsksFor S.Source (λ m. regions_cost m first.old.dataset first.old.scale part.now)
        ViewFault.StoreFault store.old store.new result }
{
    tell_cells(regions, part);
    for region in cells(regions, part) {
        match judge_region(first, further, regions, store, region, part, found, wanted) {
            Ok(()) => {}
            Err(wrong) => return Err(wrong),
        }
    }
    Ok(())
}

// Judges each view by its own regions, one after the other, up to and with the first with which something is wrong.
fn judge_apart<S: Source>(
    first: &mut Reader,
    further: &mut [FurtherView],
    scale: &Scale,
    store: &mut S,
    part: &Box3,
    found: &mut [u8],
    wanted: &mut [u8],
) -> Result<(), ViewFault>
    requires views { further.old ≡ all_opened first.old.dataset first.old.scale }
    requires few { length further.old ≤ 2 ^ 22 }
    requires scale { scale.now ≡ first.old.scale }
    requires inside { Inside first.old.scale part.now }
    requires found { All (λ v. HasRoom (own_regions first.old.scale v) (length found.old))
        (further_of first.old.scale) }
    requires wanted { All (λ v. HasRoom (own_regions first.old.scale v) (length wanted.old))
        (further_of first.old.scale) }
    ensures judged { IfSome (S.objects store.old) (λ m.
        ComparesAll result m first.old.dataset first.old.scale part.now) }
    ensures first { first.new ≡ first.old }
    ensures further { further.new ≡ further.old }
    ensures asks { AsksFor S.Source (λ m. sum_by (own_cost m first.old.dataset first.old.scale part.now)
        (further_of first.old.scale)) ViewFault.StoreFault store.old store.new result }
{
    let mut number = 0;
    while number < further.len() {
        match further[number].judge_own(
            number as u32 + 1,
            first,
            scale,
            store,
            part,
            found,
            wanted,
        ) {
            Ok(()) => {}
            Err(fault) => return Err(fault),
        }
        number += 1;
    }
    Ok(())
}

/// Compares the views with the first one: all by the same regions, for which that is read once, where these are small
/// enough; else each by its own.
pub(crate) fn compare_views<S: Source>(
    first: &mut Reader,
    further: &mut [FurtherView],
    scale: &Scale,
    store: &mut S,
    part: &Box3,
    found: &mut [u8],
    wanted: &mut [u8],
) -> Result<(), ViewFault>
    requires views { AreOpened first.old further.old part.now }
    requires scale { scale.now ≡ first.old.scale }
    requires found { HasRooms first.old.scale (length found.old) }
    requires wanted { HasRooms first.old.scale (length wanted.old) }
    ensures judged { IfSome (S.objects store.old) (λ m.
        ComparesAll result m first.old.dataset first.old.scale part.now) }
    ensures first { first.new ≡ first.old }
    ensures further { further.new ≡ further.old }
    ensures asks { AsksFor S.Source (λ m. compare_cost m first.old.dataset first.old.scale part.now)
        ViewFault.StoreFault store.old store.new result }
{
    if !is_joint(scale) {
        return judge_apart(first, further, scale, store, part, found, wanted);
    }
    let regions = find_regions(scale);
    judge_regions(first, further, &regions, store, part, found, wanted)
}
