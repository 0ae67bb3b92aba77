//! The laws of what is stored once for each view.

ghost use Rattle.std.specs.Prelude.{◌≡◌, ◌↔◌, ◌∷◌, ℕ, All, Contains, List, None, false};
ghost use Rattle.std.specs.FinMap as fin;
ghost use Rattle.vol_base.specs.declared.boxes.Box3.{Box3};
ghost use Rattle.vol_base.specs.Outside.{Objects, is_under};
ghost use Rattle.vol_spec.specs.CellNames.{cell_name, folder_of};
ghost use Rattle.vol_spec.specs.Grid.{Inside, IsCell, cell_box};
ghost use Rattle.vol_spec.specs.Types.{Writes};
ghost use Rattle.vol_spec.specs.declared.scale.Scale.{Scale as ScaleOf};
ghost use Rattle.vol_spec.specs.Verdicts.{Sound};
ghost use Rattle.vol_spec.specs.Views.{view};
ghost use Rattle.chunk_laws.specs.Told.{HasLastWrites, HasNoFault};
ghost use Rattle.size_laws.specs.Findings.{first_finding};
ghost use Rattle.size_laws.specs.FirstViews.{SaysSame};
ghost use Rattle.size_laws.specs.Sizes.{AllSound, CanWriteViews, IsView, written_all};

use vol_base::Name;
use vol_spec::Scale;

/// Does nothing: its clauses say what objects say of the views of a scale, once writes are stored in each of
/// them. A view here is any unsharded scale that differs in its chunk size alone.
pub fn tell_views(dataset: &Name, scale: &Scale)
    // What is said of a scale of several sizes is said of its first view.
    ensures first { SaysSame dataset.now scale.now (view scale.now 0) }
    // Objects of two views that have one name have one box.
    ensures names { (u v : ScaleOf) (a b : List ℕ) → IsView scale.now u → IsView scale.now v → IsCell u a
        → IsCell v b → cell_name dataset.now u a ≡ cell_name dataset.now v b → cell_box u a ≡ cell_box v b }
    // In each view each value is the last write, else 0,
    ensures values { (m : Objects) (views : List ScaleOf) (writes : Writes) (v : ScaleOf)
        → CanWriteViews m dataset.now scale.now views writes → Contains views v
        → HasLastWrites (written_all m dataset.now views writes) dataset.now v writes }
    // and no cell has a fault,
    ensures faultless { (m : Objects) (views : List ScaleOf) (writes : Writes) (v : ScaleOf)
        → CanWriteViews m dataset.now scale.now views writes → Contains views v
        → HasNoFault (written_all m dataset.now views writes) dataset.now v }
    // so all are sound together in each box inside the scale.
    ensures sound { (m : Objects) (first : ScaleOf) (others : List ScaleOf) (writes : Writes) (b : Box3)
        → CanWriteViews m dataset.now scale.now (first ∷ others) writes → Inside scale.now b
        → AllSound (written_all m dataset.now (first ∷ others) writes) dataset.now first others b }
    // Where nothing is wrong with the first view, all are sound together exactly where there is no finding.
    ensures findings { (m : Objects) (first : ScaleOf) (others : List ScaleOf) (b : Box3) → Inside first b
        → All (λ v. Inside v b) others → Sound m dataset.now first b
        → AllSound m dataset.now first others b ↔ (first_finding m dataset.now first others b ≡ None) }
    // No object outside the folder changes.
    ensures outside { (m : Objects) (views : List ScaleOf) (writes : Writes) (name : List ℕ)
        → All (IsView scale.now) views → is_under (folder_of dataset.now scale.now) name ≡ false
        → fin.get (written_all m dataset.now views writes) name ≡ fin.get m name }
{}
