//! The judgement of a part of a scale.
ghost use Rattle.std.specs.Prelude.{◌≡◌, ◌≢◌, ◌↔◌, ◌+◌, ◌*◌, ◌<◌, ◌≤◌, ◌^◌, ℕ, length, Err, IfOk, IfSome, None, Some, ⊤};
ghost use Rattle.vol_base.specs.Outside.{Objects};
ghost use Rattle.vol_spec.specs.Costs.{cost};
ghost use Rattle.vol_spec.specs.Grid.{cells_in, Inside};
ghost use Rattle.vol_spec.specs.Verdicts.{Sound};
ghost use Rattle.size_laws.specs.Findings.{first_finding};
ghost use Rattle.size_laws.specs.Further.{all_views, further};
ghost use Rattle.size_laws.specs.Sizes.{AllSound};
ghost use Rattle.view_judge.specs.Judging.{cells_of};
ghost use Rattle.vol_base.specs.Calls.{AsksFor, ReadsFrom};
ghost use Rattle.verify_cmd.specs.Judges.{Serves};
ghost use Rattle.verify_cmd.specs.Verified.{IsUndamaged};
ghost use Rattle.verify_cmd.specs.Verifying.{CanJudge, first_wrong, IsTooMany, part_cost};
ghost use Rattle.verify_cmd.specs.Parts.{Counts, found_at, found_in, IsBegun, JudgesCells, Verifies};

use crate::cell::CellJudge;
use crate::report::{count_cell, join_reports};
use crate::{Report, VerifyFault};
use chunk_grid::{cells, count_cells, inside, tell_cells};
use index_judge::JudgeFault;
use std::alloc::Global;
use view_judge::{ViewFault, ViewJudge, count_view_cells};
use vol_base::{Box3, Name, Source};
use vol_spec::{Scale, StoredScale};

// The most cells that are judged at once, of all views together.
const MOST_CELLS: u128 = 1 << 22;

// How many cells of all views meet a part.
fn count_all(scale: &Scale, part: &Box3) -> u128
    requires { Inside scale.now part.now }
    ensures { result ≡ cells_of (all_views scale.now) part.now }
{
    let _sizes = scale.more.len();
    count_cells(scale, part) + count_view_cells(scale, part)
}

// What is told of a part, by what is wrong with a cell.
fn place_fault(cell: [u64; 3], fault: JudgeFault) -> VerifyFault
    ensures value { result ≡ found_at cell fault }
    ensures begun { IsBegun {A = ⊤} (Err result) }
{
    match fault {
        JudgeFault::NotRead => VerifyFault::StoreFault,
        JudgeFault::Damaged(fault) => VerifyFault::Damaged { cell, fault },
        JudgeFault::Misplaced {
            shard,
            minishard,
            id,
        } => VerifyFault::Misplaced {
            shard,
            minishard,
            id,
        },
    }
}

// What is told of a part, by what is wrong with a further view.
fn place_view_fault(fault: ViewFault) -> VerifyFault
    ensures value { result ≡ found_in fault }
    ensures begun { IsBegun {A = ⊤} (Err result) }
{
    match fault {
        ViewFault::StoreFault => VerifyFault::StoreFault,
        ViewFault::First { cell, fault } => VerifyFault::Damaged { cell, fault },
        ViewFault::Damaged { view, cell, fault } => VerifyFault::ViewDamaged { view, cell, fault },
        ViewFault::Differs {
            view,
            at,
            channel,
            found,
            wanted,
        } => VerifyFault::Conflict {
            view,
            at,
            channel,
            found,
            wanted,
        },
    }
}

// Judges the cells of the first view that meet the part, x fastest, up to and with the first with which something is wrong.
fn judge_cells<S: Source>(
    judge: &mut CellJudge,
    store: &mut S,
    origin: &StoredScale,
    part: &Box3,
) -> Result<Report, VerifyFault>
    requires inside { Inside origin.now.scale part.now }
    requires few { length (cells_in origin.now.scale part.now) ≤ 2 ^ 22 }
    requires serves { Serves (S.objects store.old) origin.now judge.old }
    ensures judged { IfSome (S.objects store.old) (λ m.
        JudgesCells result m origin.now.dataset origin.now.scale part.now) }
    ensures counts { IfOk result (Counts (length (cells_in origin.now.scale part.now))) }
    ensures begun { IsBegun result }
    ensures asks { AsksFor S.Source (λ m. 2 * cost m origin.now.dataset origin.now.scale part.now)
        VerifyFault.StoreFault store.old store.new result }
{
    tell_cells(&origin.scale, part);
    let mut report = Report {
        cells: 0,
        stored: 0,
        absent: 0,
    };
    for cell in cells(&origin.scale, part) {
        match judge.judge(store, origin, cell) {
            Ok(is_stored) => report = count_cell(report, is_stored),
            Err(fault) => return Err(place_fault(cell, fault)),
        }
    }
    Ok(report)
}

// Judges the part by all views: the cells of the first one, and then each further one beside it.
fn judge_views<S: Source>(
    judge: &mut CellJudge,
    others: &mut ViewJudge,
    store: &mut S,
    origin: &StoredScale,
    part: &Box3,
) -> Result<Report, VerifyFault>
    requires inside { Inside origin.now.scale part.now }
    requires few { cells_of (all_views origin.now.scale) part.now ≤ 2 ^ 22 }
    requires serves { Serves (S.objects store.old) origin.now judge.old }
    requires of_dataset { others.old.dataset ≡ origin.now.dataset }
    requires of_scale { others.old.scale ≡ origin.now.scale }
    ensures verified { IfSome (S.objects store.old) (λ m.
        Verifies result m origin.now.dataset origin.now.scale part.now) }
    ensures counts { IfOk result (Counts (cells_of (all_views origin.now.scale) part.now)) }
    ensures begun { IsBegun result }
    ensures asks { AsksFor S.Source (λ m. part_cost m origin.now.dataset origin.now.scale part.now)
        VerifyFault.StoreFault store.old store.new result }
{
    let first = match judge_cells(judge, store, origin, part) {
        Ok(first) => first,
        Err(fault) => return Err(fault),
    };
    match others.judge(store, part) {
        Ok(found) => Ok(join_reports(first, found)),
        Err(fault) => Err(place_view_fault(fault)),
    }
}

/// Judges the stored chunks of the cells that meet a part, x fastest: of each cell the way to its minishard
/// index and all rows of that index, where the scale is sharded, and then its chunk, decoded (this project's
/// profile). A scale of several chunk sizes is judged so by the first; and then, size by size, each cell of a
/// further one by its chunk, and by its values in the part, which have to be those of the first. The part is
/// refused where it isn't inside the scale, or where more than 2^22 cells of all sizes meet it. Else the first
/// that is wrong is told; or how many chunks are stored and absent, of all sizes together.
///
/// Memory is taken before the first read; where there is none, the answer is `OutOfMemory`.
pub fn verify<S: Source>(
    alloc: Global,
    store: &mut S,
    dataset: &Name,
    scale: &Scale,
    part: &Box3,
) -> Result<Report, VerifyFault>
    requires dataset { length dataset.now ≤ 200 }
    ensures outside { result ≡ Err VerifyFault.OutsideScale ↔ (Inside scale.now part.now → ⊥) }
    ensures too_many { (n : ℕ) → result ≡ Err (VerifyFault.TooManyCells n) ↔ IsTooMany scale.now part.now n }
    ensures judged { result ≢ Err VerifyFault.OutsideScale →
        ((n : ℕ) → result ≢ Err (VerifyFault.TooManyCells n)) → CanJudge scale.now part.now }
    ensures verified { IfSome (S.objects store.old) (λ m. Verifies result m dataset.now scale.now part.now) }
    ensures cells { IfOk result (λ report. report.cells ≡ cells_of (all_views scale.now) part.now) }
    ensures both { IfOk result (λ report. report.stored + report.absent ≡ report.cells) }
    // It asks for no more than twice what the cells of the first view cost, and what the further views cost beside it.
    ensures asked { IfSome (S.objects store.old) (λ m.
        S.asked store.new ≤ S.asked store.old + part_cost m dataset.now scale.now part.now) }
    ensures reads { ReadsFrom S.Source VerifyFault.StoreFault store.old store.new result }
    // Where there is no memory, nothing was read.
    ensures unread { result ≡ Err VerifyFault.OutOfMemory → (S.asked store.new ≡ S.asked store.old) ×
        (S.faults store.new ≡ S.faults store.old) }
    // Nor was anything of a part that is refused.
    ensures unasked { result ≡ Err VerifyFault.OutsideScale → S.asked store.new ≡ S.asked store.old }
    ensures uncounted { (n : ℕ) → result ≡ Err (VerifyFault.TooManyCells n) →
        S.asked store.new ≡ S.asked store.old }
{
    if !inside(scale, part) {
        return Err(VerifyFault::OutsideScale);
    }
    let count = count_all(scale, part);
    if count > MOST_CELLS {
        return Err(VerifyFault::TooManyCells { cells: count });
    }
    let Ok(mut judge) = CellJudge::reserve(alloc, scale) else {
        return Err(VerifyFault::OutOfMemory);
    };
    let origin = StoredScale::of(dataset, scale);
    let Ok(mut others) = ViewJudge::reserve(alloc, &origin) else {
        return Err(VerifyFault::OutOfMemory);
    };
    judge_views(&mut judge, &mut others, store, &origin, part)
}

/// Does nothing: its clauses say that a part is sound in the first view exactly where there is no first cell with which
/// something is wrong; in all views exactly where, besides, there is no finding in the further ones; and that no cutout
/// of a box in it is damaged where it is sound in the first.
pub fn tell_sound(dataset: &Name, scale: &Scale, part: &Box3)
    ensures sound { (m : Objects) → Sound m dataset.now scale.now part.now ↔
        (first_wrong m dataset.now scale.now part.now ≡ None) }
    ensures all_sound { (m : Objects) → Inside scale.now part.now →
        AllSound m dataset.now scale.now (further scale.now) part.now ↔
        (first_wrong m dataset.now scale.now part.now ≡ None)
        × (first_finding m dataset.now scale.now (further scale.now) part.now ≡ None) }
    ensures undamaged { (m : Objects) → Sound m dataset.now scale.now part.now →
        IsUndamaged m dataset.now scale.now part.now }
{}
