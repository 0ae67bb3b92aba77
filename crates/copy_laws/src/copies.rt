//! The laws of copies.

ghost use Rattle.std.specs.Prelude.{◌≡◌, ◌<◌, false, length};
ghost use Rattle.vol_base.specs.Outside.{Objects, any_under};
ghost use Rattle.vol_spec.specs.CellNames.{folder_of};
ghost use Rattle.vol_spec.specs.Copies.{AreOfOneVolume, copied_cells};
ghost use Rattle.chunk_laws.specs.Told.{HasNoFault};
ghost use Rattle.copy_laws.specs.Agreement.{Agree, AreApart};
ghost use Rattle.copy_laws.specs.Copied.{KeepsValues, copied_in};
ghost use Rattle.copy_laws.specs.Laws.{AreMet, CanCopy, CutsAsCopied, MeetsFaults, StaysBeside};

use vol_base::Name;
use vol_spec::Scale;

/// Does nothing: its clauses say what the copy of a scale into another layout is, and what it keeps.
pub fn tell_copy(from_dataset: &Name, from: &Scale, to_dataset: &Name, to: &Scale)
    // Where the source has no fault, each value of the target is the source's,
    ensures values { (m : Objects) → CanCopy m from_dataset.now from.now to_dataset.now to.now
        → HasNoFault m from_dataset.now from.now → KeepsValues m from_dataset.now from.now to_dataset.now to.now }
    // and the target has no fault.
    ensures sound { (m : Objects) → CanCopy m from_dataset.now from.now to_dataset.now to.now
        → HasNoFault (copied_in m from_dataset.now from.now to_dataset.now to.now) to_dataset.now to.now }
    // Which cells are copied,
    ensures met { (m : Objects) → AreMet m from_dataset.now from.now to.now }
    // where they are read from,
    ensures cut { (m : Objects) → AreOfOneVolume from.now to.now →
        CutsAsCopied m from_dataset.now from.now to.now }
    // and that each fault of the source is met on the way.
    ensures faults { (m : Objects) → AreOfOneVolume from.now to.now →
        MeetsFaults m from_dataset.now from.now to.now }
    // Where a cell is copied into an empty folder, the two folders differ,
    ensures apart { (m : Objects) → any_under m (folder_of to_dataset.now to.now) ≡ false
        → 0 < length (copied_cells m from_dataset.now from.now to.now)
        → AreApart from_dataset.now from.now to_dataset.now to.now }
    // so no object that is put changes what is read.
    ensures beside { (m : Objects) → AreApart from_dataset.now from.now to_dataset.now to.now
        → StaysBeside m from_dataset.now from.now to_dataset.now to.now }
    // Objects that agree on the source are copied alike.
    ensures alike { (m n : Objects) → Agree from_dataset.now from.now m n
        → copied_cells m from_dataset.now from.now to.now ≡ copied_cells n from_dataset.now from.now to.now }
{}
