//! Where the cells of a source lie in a target.
ghost use Rattle.std.specs.Prelude.{◌≡◌, List, ℕ};
ghost use Rattle.vol_base.specs.Outside.{Objects};
ghost use Rattle.vol_base.specs.declared.boxes.Box3.{Box3};
ghost use Rattle.vol_spec.specs.Grid.{Inside, IsCell, cell_box as box_of};
ghost use Rattle.vol_spec.specs.declared.scale.Scale.{Scale};
ghost use Rattle.copier.specs.Placed.{placed_cells};

use chunk_grid::cell_box;
use vol_base::Box3;
use vol_spec::Scale;

/// A way to make a target from a source: over which box of the target each of the source's cells lies, for scales that
/// fit. The cells that are made are those that such a box meets, of a cell of the source that is there.
pub trait Placing {
    ghost fits: { Scale → Scale → Type 0 };

    ghost place: { Scale → Scale → List ℕ → Box3 };

    ghost made: { Objects → List ℕ → Scale → Scale → List (List ℕ) };

    fn place(from: &Scale, to: &Scale, source: [u64; 3]) -> Box3
        requires fits { fits from.now to.now }
        requires source { IsCell from.now source }
        ensures positions { result ≡ place from.now to.now source }
        ensures inside { Inside to.now result };

    ghost placed: { (m : Objects) (dataset : List ℕ) (from to : Scale) →
        made m dataset from to ≡ placed_cells (place from to) m dataset from to };
}

/// A copy: a cell of the source lies over its own box.
pub struct Copies;

impl Placing for Copies {
    ghost use Rattle.vol_spec.specs.Copies.{AreOfOneVolume, copied_cells};
    ghost use Rattle.copier.specs.PlacedLaws.{copied_placed};

    ghost fits = { AreOfOneVolume };

    ghost place = { λ from to source. box_of from source };

    ghost made = { copied_cells };

    ghost placed = { copied_placed };

    fn place(from: &Scale, _to: &Scale, source: [u64; 3]) -> Box3 {
        cell_box(from, source)
    }
}
