//! What is gathered of the shards that an update writes anew.
ghost use Rattle.std.specs.Prelude.{◌≡◌, length, IfOk};

use cell_lists::FoundCells;
use chunk_pool::Frame;
use index_judge::COLUMN_LEN;
use std::alloc::Global;
use vol_base::OutOfMemory;

/// The cells that are met or kept so far, with room for 1,024 rows of an index, and for the ids that are kept of one.
#[derive(Drop)]
pub(crate) struct Gathering {
    pub ids: Frame,
    pub starts: Frame,
    pub sizes: Frame,
    pub kept: Vec<u64>,
    pub found: FoundCells,
    ghost ids_room: { length ids.bytes ≡ 8192 },
    ghost starts_room: { length starts.bytes ≡ 8192 },
    ghost sizes_room: { length sizes.bytes ≡ 8192 },
}

impl Gathering {
    /// Goes on from cells that are counted already.
    pub(crate) fn of(alloc: Global, found: FoundCells) -> Result<Gathering, OutOfMemory>
        ensures { IfOk result (λ gathering. gathering.found ≡ found) }
    {
        let ids = Frame::alone(alloc, COLUMN_LEN)?;
        let starts = Frame::alone(alloc, COLUMN_LEN)?;
        let sizes = Frame::alone(alloc, COLUMN_LEN)?;
        let kept = Vec::new(alloc);
        Ok(Gathering {
            ids,
            starts,
            sizes,
            kept,
            found,
        })
    }
}
