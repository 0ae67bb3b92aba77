//! A box of a view, beside the first view.
ghost use Rattle.std.specs.Prelude.{◌≡◌, ◌≢◌, ◌≤◌, ◌^◌, length, IfSome, List, ℤ};
ghost use Rattle.vol_base.specs.Boxes.{Covers};
ghost use Rattle.vol_base.specs.Calls.{AsksFor};
ghost use Rattle.vol_spec.specs.Costs.{cost};
ghost use Rattle.vol_spec.specs.Grid.{Inside};
ghost use Rattle.vol_spec.specs.Raw.{raw_len};
ghost use Rattle.size_laws.specs.Findings.{common};
ghost use Rattle.view_judge.specs.Answers.{ComparesBox, JudgesBox, of_first as first_of, of_view as view_of};
ghost use Rattle.view_judge.specs.Further.{IsBeside};
ghost use Rattle.view_judge.specs.Judging.{pair_cost};

use crate::ViewFault;
use crate::values::compare_box;
use chunk_grid::byte_len;
use cutout::{CutFault, Reader};
use vol_base::{Box3, Source};
use vol_spec::Scale;
use voxel_raw::common_part;

/// The positions that two boxes have in common.
pub(crate) fn shared_box(a: &Box3, b: &Box3) -> Box3
    requires { (p : List ℤ) × Covers a.now p × Covers b.now p }
    ensures { result ≡ common a.now b.now }
{
    common_part(a, b)
}

// Why a box of a view wasn't read.
fn of_view(number: u32, fault: CutFault) -> ViewFault
    requires { fault ≢ CutFault.OutsideScale }
    ensures { result ≡ view_of number fault }
{
    match fault {
        CutFault::Damaged { cell, fault } => ViewFault::Damaged {
            view: number,
            cell,
            fault,
        },
        CutFault::StoreFault | CutFault::OutsideScale => ViewFault::StoreFault,
    }
}

/// Why a box of the first view wasn't read.
pub(crate) fn of_first(fault: CutFault) -> ViewFault
    requires { fault ≢ CutFault.OutsideScale }
    ensures { result ≡ first_of fault }
{
    match fault {
        CutFault::Damaged { cell, fault } => ViewFault::First { cell, fault },
        CutFault::StoreFault | CutFault::OutsideScale => ViewFault::StoreFault,
    }
}

/// Judges a box of a view, with room for its values twice: they are read, and those of the first view beside them. A
/// fault of the view is told before one of the first view, and both before a value that differs.
pub(crate) fn judge_box<S: Source>(
    number: u32,
    view: &Scale,
    reader: &mut Reader,
    first: &mut Reader,
    store: &mut S,
    part: &Box3,
    found: &mut [u8],
    wanted: &mut [u8],
) -> Result<(), ViewFault>
    requires reads { reader.old.scale ≡ view.now }
    requires beside { IsBeside first.old.scale view.now }
    requires dataset { reader.old.dataset ≡ first.old.dataset }
    requires inside { Inside view.now part.now }
    requires found { raw_len part.now view.now.channels view.now.width ≤ length found.old }
    requires wanted { raw_len part.now view.now.channels view.now.width ≤ length wanted.old }
    requires limit { raw_len part.now view.now.channels view.now.width ≤ 2 ^ 30 }
    ensures judged { IfSome (S.objects store.old) (λ m.
        JudgesBox result m first.old.dataset first.old.scale number view.now part.now) }
    ensures reader { reader.new ≡ reader.old }
    ensures first { first.new ≡ first.old }
    ensures asks { AsksFor S.Source (λ m. pair_cost m first.old.dataset first.old.scale view.now part.now)
        ViewFault.StoreFault store.old store.new result }
{
    let len = byte_len(part, view.channels, view.width) as usize;
    let found = &mut found[..len];
    let wanted = &mut wanted[..len];
    match reader.cutout(store, part, found) {
        Ok(()) => {}
        Err(fault) => return Err(of_view(number, fault)),
    }
    match first.cutout(store, part, wanted) {
        Ok(()) => {}
        Err(fault) => return Err(of_first(fault)),
    }
    compare_box(number, view, part, found, wanted)
}

/// Compares a box of a view with values, with room for its own: they are read, and these beside them. A fault of the view
/// is told before a value that differs.
pub(crate) fn compare_view<S: Source>(
    number: u32,
    view: &Scale,
    reader: &mut Reader,
    store: &mut S,
    part: &Box3,
    found: &mut [u8],
    wanted: &[u8],
) -> Result<(), ViewFault>
    requires reads { reader.old.scale ≡ view.now }
    requires inside { Inside view.now part.now }
    requires found { length found.old ≡ raw_len part.now view.now.channels view.now.width }
    requires wanted { length wanted.now ≡ raw_len part.now view.now.channels view.now.width }
    requires limit { raw_len part.now view.now.channels view.now.width ≤ 2 ^ 30 }
    ensures judged { IfSome (S.objects store.old) (λ m.
        ComparesBox result m reader.old.dataset number view.now part.now wanted.now) }
    ensures reader { reader.new ≡ reader.old }
    ensures asks { AsksFor S.Source (λ m. cost m reader.old.dataset view.now part.now) ViewFault.StoreFault
        store.old store.new result }
{
    match reader.cutout(store, part, found) {
        Ok(()) => compare_box(number, view, part, found, wanted),
        Err(fault) => Err(of_view(number, fault)),
    }
}
