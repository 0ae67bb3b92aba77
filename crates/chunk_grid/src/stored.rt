//! The objects of a scale's cells.

ghost use Rattle.std.specs.Prelude.{◌≡◌, ◌<◌, ℕ, ℤ, List, All, Bool, false, Ok, None};
ghost use Rattle.std.specs.FinMap as fin;
ghost use Rattle.vol_base.specs.declared.boxes.Box3.{Box3};
ghost use Rattle.vol_base.specs.Boxes.{Covers};
ghost use Rattle.vol_base.specs.Outside.{Objects, any_under, is_under};
ghost use Rattle.vol_base.specs.Bytes.{AreBytes};
ghost use Rattle.vol_spec.specs.CellNames.{folder_of, cell_name};
ghost use Rattle.vol_spec.specs.Chunks.{fault_in, value_in};
ghost use Rattle.vol_spec.specs.Grid.{IsCell, whole};
ghost use Rattle.vol_spec.specs.LastWrite.{last};
ghost use Rattle.vol_spec.specs.declared.encoding.Encoding.TheVariants.{Raw};
ghost use Rattle.vol_spec.specs.StoredCells.{chunks_of, object_list, put_in};

use vol_base::Name;
use vol_spec::Scale;

/// Does nothing: its clauses say which objects are those of a scale's cells.
pub fn tell_stored(dataset: &Name, scale: &Scale)
    // No object outside the folder changes, whatever the chunks.
    ensures others { (m : Objects) (chunks : List (List ℕ × List ℕ)) (name : List ℕ) →
        is_under (folder_of dataset.now scale.now) name ≡ false
        → fin.get (put_in m (object_list dataset.now scale.now chunks)) name ≡ fin.get m name }
    // Distinct cells have distinct objects.
    ensures names { (a b : List ℕ) → IsCell scale.now a → IsCell scale.now b →
        cell_name dataset.now scale.now a ≡ cell_name dataset.now scale.now b → a ≡ b }
{}
