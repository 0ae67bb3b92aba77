//! The laws of reduced scales.
ghost use Rattle.std.specs.Prelude.{◌≡◌, ◌<◌, false, length};
ghost use Rattle.vol_base.specs.Outside.{HaveBytes, Objects, any_under};
ghost use Rattle.vol_spec.specs.CellNames.{folder_of};
ghost use Rattle.chunk_laws.specs.Told.{HasNoFault};
ghost use Rattle.copy_laws.specs.Agreement.{Agree, AreApart};
ghost use Rattle.reduce_laws.specs.Reduced.{IsNext, reduced_cells};
ghost use Rattle.reduce_laws.specs.declared.method.Method.{Method as Way};
ghost use Rattle.coarse_laws.specs.Coarse.{HasReduced, reduced_in};
ghost use Rattle.coarse_laws.specs.Laws.{AreOver, CanReduce, MeetsFaults, ReadsReduced, ReducesCut};

use reduce_laws::Method;
use vol_base::Name;
use vol_spec::Scale;

/// Does nothing: its clauses say what the reduction of a scale into the next one is, and what it keeps.
pub fn tell_reduction(method: Method, dataset: &Name, from: &Scale, to: &Scale)
    // Each value of the target is the reduced one; a fault counts as 0.
    ensures values { (m : Objects) → CanReduce m dataset.now from.now to.now
        → HasReduced method m dataset.now from.now to.now }
    // The target has no fault,
    ensures sound { (m : Objects) → CanReduce m dataset.now from.now to.now
        → HasNoFault (reduced_in method m dataset.now from.now to.now) dataset.now to.now }
    // and the source says what it said.
    ensures source { (m : Objects) → CanReduce m dataset.now from.now to.now
        → Agree dataset.now from.now (reduced_in method m dataset.now from.now to.now) m }
    // So each box of the target reads as the reduced source.
    ensures back { (m : Objects) → CanReduce m dataset.now from.now to.now
        → ReadsReduced method m dataset.now from.now to.now }
    // Which cells are reduced,
    ensures over { (m : Objects) → IsNext from.now to.now → AreOver m dataset.now from.now to.now }
    // where a cell is read from,
    ensures cut { (m : Objects) → HaveBytes m → IsNext from.now to.now
        → ReducesCut method m dataset.now from.now to.now }
    // and that each fault of the source is met on the way.
    ensures faults { (m : Objects) → IsNext from.now to.now → MeetsFaults m dataset.now from.now to.now }
    // Where a cell is reduced into an empty folder, the two folders differ.
    ensures apart { (m : Objects) → any_under m (folder_of dataset.now to.now) ≡ false
        → 0 < length (reduced_cells m dataset.now from.now to.now)
        → AreApart dataset.now from.now dataset.now to.now }
    // Objects that agree on the source are reduced alike.
    ensures alike { (m n : Objects) → Agree dataset.now from.now m n
        → reduced_cells m dataset.now from.now to.now ≡ reduced_cells n dataset.now from.now to.now }
{}
