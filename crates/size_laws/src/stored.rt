//! The laws of a scale that is stored once for each of its chunk sizes.

ghost use Rattle.std.specs.Prelude.{◌≡◌, ◌∷◌, ℕ, List, None, false};
ghost use Rattle.std.specs.FinMap as fin;
ghost use Rattle.vol_base.specs.declared.boxes.Box3.{Box3};
ghost use Rattle.vol_base.specs.Outside.{Objects, is_under};
ghost use Rattle.vol_spec.specs.CellNames.{folder_of};
ghost use Rattle.vol_spec.specs.Grid.{Inside};
ghost use Rattle.vol_spec.specs.Types.{Writes};
ghost use Rattle.chunk_laws.specs.Told.{HasLastWrites, HasNoFault, ReadsBack};
ghost use Rattle.size_laws.specs.Further.{CanStore, further, written_views};
ghost use Rattle.size_laws.specs.Sizes.{AllSound};

use vol_base::Name;
use vol_spec::Scale;

/// Does nothing: its clauses say what objects say of a scale of one or several chunk sizes, sharded or not, once
/// writes are stored in each of its views, in a folder that had no object.
pub fn tell_stored_views(dataset: &Name, scale: &Scale)
    // Each value of the scale, as it is read, is the last write, else 0,
    ensures values { (m : Objects) (writes : Writes) → CanStore m dataset.now scale.now writes
        → HasLastWrites (written_views m dataset.now scale.now writes) dataset.now scale.now writes }
    // and no cell has a fault,
    ensures faultless { (m : Objects) (writes : Writes) → CanStore m dataset.now scale.now writes
        → HasNoFault (written_views m dataset.now scale.now writes) dataset.now scale.now }
    // so each box inside the scale is read back.
    ensures cutout { (m : Objects) (writes : Writes) (b : Box3) → CanStore m dataset.now scale.now writes
        → Inside scale.now b
        → ReadsBack (written_views m dataset.now scale.now writes) dataset.now scale.now writes b }
    // Nothing is wrong with the scale, and its further views say the same, in each box inside.
    ensures sound { (m : Objects) (writes : Writes) (b : Box3) → CanStore m dataset.now scale.now writes
        → Inside scale.now b → AllSound (written_views m dataset.now scale.now writes) dataset.now scale.now
        (further scale.now) b }
    // No object outside the folder changes, whatever the writes.
    ensures outside { (m : Objects) (writes : Writes) (name : List ℕ)
        → is_under (folder_of dataset.now scale.now) name ≡ false
        → fin.get (written_views m dataset.now scale.now writes) name ≡ fin.get m name }
{}
