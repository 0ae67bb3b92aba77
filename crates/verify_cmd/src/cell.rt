//! A judge of cells.
ghost use Rattle.std.specs.Prelude.{◌*◌, IfOk, IfSome};
ghost use Rattle.vol_spec.specs.Grid.{IsCell};
ghost use Rattle.vol_base.specs.Calls.{AsksFor};
ghost use Rattle.cutout.specs.Keeping.{cell_cost};
ghost use Rattle.index_judge.specs.Judging.{Says};
ghost use Rattle.verify_cmd.specs.Parts.{JudgesCell, index_of_cell};

use chunk_grid::grid;
use cutout::CellReader;
use index_judge::{IndexJudge, JudgeFault};
use morton_code::code;
use shard_index::place;
use std::alloc::Global;
use vol_base::{OutOfMemory, Source};
use vol_spec::{Scale, StoredScale};

/// Judges the cells of a scale, one after the other, with memory for reading them, and for rows of indexes.
/// What it keeps and remembers of indexes is of use only while the objects stay the same.
#[derive(Drop)]
pub(crate) struct CellJudge {
    indexes: IndexJudge,
    cells: CellReader,
}

impl CellJudge {
    ghost use Rattle.verify_cmd.specs.Judges.{IsFresh, Serves};

    /// A judge of the cells of a scale, that knows nothing.
    pub(crate) fn reserve(alloc: Global, scale: &Scale) -> Result<CellJudge, OutOfMemory>
        ensures { IfOk result (IsFresh scale.now) }
    {
        let cells = CellReader::reserve(alloc, scale)?;
        let indexes = IndexJudge::reserve(alloc)?;
        Ok(CellJudge { indexes, cells })
    }

    // Judges the index that has the chunk of a cell; a scale without shards has none.
    fn judge_index<S: Source>(
        &mut self,
        store: &mut S,
        origin: &StoredScale,
        cell: [u64; 3],
    ) -> Result<(), JudgeFault>
        requires cell { IsCell origin.now.scale cell }
        requires serves { Serves (S.objects store.old) origin.now self.old }
        ensures judged { IfSome (S.objects store.old) (λ m.
            Says (index_of_cell m origin.now.dataset origin.now.scale cell) result) }
        ensures serves { Serves (S.objects store.old) origin.now self.new }
        ensures asks { AsksFor S.Source (λ m. cell_cost m origin.now.dataset origin.now.scale cell)
            JudgeFault.NotRead store.old store.new result }
    {
        match origin.scale.sharding {
            None => Ok(()),
            Some(sharding) => {
                let home = place(&sharding, code(&grid(&origin.scale), cell));
                self.indexes.judge(store, origin, &sharding, &home)
            }
        }
    }

    /// Judges a cell: the index that has its chunk, whole, and then its chunk. The first that is wrong is the
    /// answer; else whether the chunk is stored.
    pub(crate) fn judge<S: Source>(
        &mut self,
        store: &mut S,
        origin: &StoredScale,
        cell: [u64; 3],
    ) -> Result<bool, JudgeFault>
        requires cell { IsCell origin.now.scale cell }
        requires serves { Serves (S.objects store.old) origin.now self.old }
        ensures judged { IfSome (S.objects store.old) (λ m.
            JudgesCell result m origin.now.dataset origin.now.scale cell) }
        ensures serves { Serves (S.objects store.old) origin.now self.new }
        ensures asks { AsksFor S.Source (λ m. 2 * cell_cost m origin.now.dataset origin.now.scale cell)
            JudgeFault.NotRead store.old store.new result }
    {
        match self.judge_index(store, origin, cell) {
            Ok(()) => {}
            Err(fault) => return Err(fault),
        }
        match self.cells.judge(store, origin, cell) {
            Ok(is_stored) => Ok(is_stored),
            Err(fault) => Err(JudgeFault::from(fault)),
        }
    }
}
