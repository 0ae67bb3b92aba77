//! What is told of a refusal.
ghost use Rattle.cutout_cmd.specs.Refusals.{cutout_fixed, cutout_line, cutout_status};

use crate::refusal::CutoutRefusal;
use command_base::{
    Refusal, Status, write_damaged_line, write_large_line, write_outside_line, write_why,
};
use std::alloc::{AllocError, Global};
use vol_base::Name;

impl Refusal for CutoutRefusal {
    ghost ends = { cutout_status };

    ghost line = { cutout_line };

    ghost fixed = { cutout_fixed };

    fn status(&self) -> Status {
        match self {
            CutoutRefusal::NoScale(_) => Status::InfoRefused,
            CutoutRefusal::Outside { .. } | CutoutRefusal::TooLarge(_) => Status::RequestRefused,
            CutoutRefusal::Damaged { .. } => Status::Damaged,
            CutoutRefusal::StoreFault => Status::StoreFault,
            CutoutRefusal::OutFault => Status::OutFault,
            CutoutRefusal::NoMemory => Status::NoMemory,
        }
    }

    fn write_line(&self, alloc: Global, dataset: &Name) -> Result<Vec<u8>, AllocError> {
        match self {
            CutoutRefusal::NoScale(why) => write_why(alloc, dataset, why),
            CutoutRefusal::Outside { part, whole } => {
                Ok(write_outside_line(alloc, part, whole)?.into_bytes())
            }
            CutoutRefusal::TooLarge(bytes) => Ok(write_large_line(alloc, *bytes)?.into_bytes()),
            CutoutRefusal::Damaged { cell, fault } => {
                Ok(write_damaged_line(alloc, *cell, *fault)?.into_bytes())
            }
            CutoutRefusal::StoreFault | CutoutRefusal::OutFault | CutoutRefusal::NoMemory => {
                unreachable!()
            }
        }
    }
}
