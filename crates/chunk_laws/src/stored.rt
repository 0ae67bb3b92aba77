//! The laws of stored chunks.

ghost use Rattle.std.specs.Prelude.{◌≡◌, List, false};
ghost use Rattle.vol_base.specs.declared.boxes.Box3.{Box3};
ghost use Rattle.vol_base.specs.Outside.{Objects, any_under};
ghost use Rattle.vol_spec.specs.CellNames.{folder_of};
ghost use Rattle.vol_spec.specs.Grid.{Inside};
ghost use Rattle.vol_spec.specs.Types.{Cell, Chunks, Writes};
ghost use Rattle.chunk_laws.specs.Storable.{CellBytes, AreStorable, AreWritable, written_in};
ghost use Rattle.chunk_laws.specs.Told.{HasLastWrites, HasNoFault, ReadsBack};
ghost use Rattle.chunk_laws.specs.Laws.{GivesBack, HasChunks, HasNoOther, HasNoneBeside, LeavesOthers, LeavesOutside, SaysOfEach};

use vol_base::Name;
use vol_spec::Scale;

/// Does nothing: its clauses say what objects say of a scale's cells and voxels, once chunks are put
/// in.
pub fn tell_chunks(dataset: &Name, scale: &Scale)
    // Each cell that is stored has its bytes as they are encoded,
    ensures there { (m : Objects) (raw : CellBytes) (cells : List Cell) → AreStorable scale.now raw cells
        → HasChunks m dataset.now scale.now raw cells }
    // which give its values back.
    ensures values { (raw : CellBytes) (cells : List Cell) → AreStorable scale.now raw cells
        → GivesBack scale.now raw cells }
    // Any other cell is as before, where no object of its is put,
    ensures kept { (m : Objects) (raw : CellBytes) (cells : List Cell) → AreStorable scale.now raw cells
        → LeavesOthers m dataset.now scale.now raw cells }
    // and absent, where one is.
    ensures absent { (m : Objects) (raw : CellBytes) (cells : List Cell) → AreStorable scale.now raw cells
        → HasNoneBeside m dataset.now scale.now raw cells }
    // In one: what is said of each cell.
    ensures each { (m : Objects) (raw : CellBytes) (cells : List Cell) → AreStorable scale.now raw cells
        → SaysOfEach m dataset.now scale.now raw cells }
    // So in a folder that had no object every other cell is absent.
    ensures empty { (m : Objects) (raw : CellBytes) (cells : List Cell) → AreStorable scale.now raw cells
        → any_under m (folder_of dataset.now scale.now) ≡ false → HasNoOther m dataset.now scale.now raw cells }
    // After writes into a folder that had no object each value is the last write, else 0,
    ensures written { (m : Objects) (writes : Writes) → AreWritable m dataset.now scale.now writes
        → HasLastWrites (written_in m dataset.now scale.now writes) dataset.now scale.now writes }
    // and no cell has a fault,
    ensures sound { (m : Objects) (writes : Writes) → AreWritable m dataset.now scale.now writes
        → HasNoFault (written_in m dataset.now scale.now writes) dataset.now scale.now }
    // so each box inside the scale is read back.
    ensures cutout { (m : Objects) (writes : Writes) (b : Box3) → AreWritable m dataset.now scale.now writes
        → Inside scale.now b
        → ReadsBack (written_in m dataset.now scale.now writes) dataset.now scale.now writes b }
    // No object outside the folder changes, whatever the chunks.
    ensures outside { (m : Objects) (chunks : Chunks) → LeavesOutside m dataset.now scale.now chunks }
{}
