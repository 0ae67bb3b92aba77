//! What is told of a refusal.
ghost use Rattle.verify_cmd.specs.Fixed.{verify_fixed};
ghost use Rattle.verify_cmd.specs.Refusals.{verify_line, verify_status};

use crate::lines::{write_conflict_line, write_misplaced_line, write_view_damaged_line};
use crate::refusal::VerifyRefusal;
use command_base::{
    Refusal, Status, write_cells_line, write_damaged_line, write_outside_line, write_why,
};
use std::alloc::{AllocError, Global};
use vol_base::Name;

impl Refusal for VerifyRefusal {
    ghost ends = { verify_status };

    ghost line = { verify_line };

    ghost fixed = { verify_fixed };

    fn status(&self) -> Status {
        match self {
            VerifyRefusal::NoScale(_) => Status::InfoRefused,
            VerifyRefusal::Outside { .. } | VerifyRefusal::TooManyCells(_) => {
                Status::RequestRefused
            }
            VerifyRefusal::Damaged { .. }
            | VerifyRefusal::Misplaced { .. }
            | VerifyRefusal::ViewDamaged { .. }
            | VerifyRefusal::Conflict { .. } => Status::Damaged,
            VerifyRefusal::StoreFault => Status::StoreFault,
            VerifyRefusal::NoMemory => Status::NoMemory,
        }
    }

    fn write_line(&self, alloc: Global, dataset: &Name) -> Result<Vec<u8>, AllocError> {
        match self {
            VerifyRefusal::NoScale(why) => write_why(alloc, dataset, why),
            VerifyRefusal::Outside { part, whole } => {
                Ok(write_outside_line(alloc, part, whole)?.into_bytes())
            }
            VerifyRefusal::TooManyCells(cells) => {
                Ok(write_cells_line(alloc, *cells)?.into_bytes())
            }
            VerifyRefusal::Damaged { cell, fault } => {
                Ok(write_damaged_line(alloc, *cell, *fault)?.into_bytes())
            }
            VerifyRefusal::Misplaced {
                shard,
                minishard,
                id,
            } => Ok(write_misplaced_line(alloc, *shard, *minishard, *id)?.into_bytes()),
            VerifyRefusal::ViewDamaged { view, cell, fault } => {
                Ok(write_view_damaged_line(alloc, *view, *cell, *fault)?.into_bytes())
            }
            VerifyRefusal::Conflict {
                view,
                at,
                channel,
                found,
                wanted,
            } => Ok(write_conflict_line(
                alloc, *view, *at, *channel, *found, *wanted,
            )?.into_bytes()),
            VerifyRefusal::StoreFault | VerifyRefusal::NoMemory => unreachable!(),
        }
    }
}
