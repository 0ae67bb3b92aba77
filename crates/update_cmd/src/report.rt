//! What is told of a refusal.
ghost use Rattle.update_cmd.specs.Refusals.{update_fixed, update_line, update_status};

use crate::lines::write_shard_line;
use crate::refusal::UpdateRefusal;
use command_base::{
    Refusal, Status, write_cells_line, write_damaged_line, write_sizes_line, write_voxels_line,
    write_why,
};
use std::alloc::{AllocError, Global};
use vol_base::Name;
use write_cmd::write_stream_line;

impl Refusal for UpdateRefusal {
    ghost ends = { update_status };

    ghost line = { update_line };

    ghost fixed = { update_fixed };

    fn status(&self) -> Status {
        match self {
            UpdateRefusal::NoScale(_) => Status::InfoRefused,
            UpdateRefusal::TooManyVoxels(_)
            | UpdateRefusal::SeveralSizes
            | UpdateRefusal::Stream(_)
            | UpdateRefusal::TooManyCells(_) => Status::RequestRefused,
            UpdateRefusal::BadShard { .. } | UpdateRefusal::Damaged { .. } => Status::Damaged,
            UpdateRefusal::StoreFault => Status::StoreFault,
            UpdateRefusal::FeedFault => Status::FeedFault,
            UpdateRefusal::NoMemory => Status::NoMemory,
        }
    }

    fn write_line(&self, alloc: Global, dataset: &Name) -> Result<Vec<u8>, AllocError> {
        match self {
            UpdateRefusal::NoScale(why) => write_why(alloc, dataset, why),
            UpdateRefusal::TooManyVoxels(voxels) => {
                Ok(write_voxels_line(alloc, *voxels)?.into_bytes())
            }
            UpdateRefusal::SeveralSizes => write_sizes_line(alloc),
            UpdateRefusal::Stream(fault) => Ok(write_stream_line(alloc, *fault)?.into_bytes()),
            UpdateRefusal::TooManyCells(cells) => {
                Ok(write_cells_line(alloc, u128::from(*cells))?.into_bytes())
            }
            UpdateRefusal::BadShard {
                shard,
                minishard,
                fault,
            } => Ok(write_shard_line(alloc, *shard, *minishard, *fault)?.into_bytes()),
            UpdateRefusal::Damaged { cell, fault } => {
                Ok(write_damaged_line(alloc, *cell, *fault)?.into_bytes())
            }
            UpdateRefusal::StoreFault | UpdateRefusal::FeedFault | UpdateRefusal::NoMemory =>
                unreachable!(),
        }
    }
}
