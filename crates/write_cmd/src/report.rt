//! What is told of a refusal.
ghost use Rattle.write_cmd.specs.Fixed.{write_fixed};
ghost use Rattle.write_cmd.specs.Refusals.{write_line as line_of_write, write_status};

use crate::lines::write_stream_line;
use crate::refusal::WriteRefusal;
use command_base::{
    Refusal, Status, write_cells_line, write_folder_line, write_voxels_line, write_why,
};
use std::alloc::{AllocError, Global};
use vol_base::Name;

impl Refusal for WriteRefusal {
    ghost ends = { write_status };

    ghost line = { line_of_write };

    ghost fixed = { write_fixed };

    fn status(&self) -> Status {
        match self {
            WriteRefusal::NoScale(_) => Status::InfoRefused,
            WriteRefusal::TooManyVoxels(_)
            | WriteRefusal::NotEmpty
            | WriteRefusal::Stream(_)
            | WriteRefusal::TooManyCells(_) => Status::RequestRefused,
            WriteRefusal::StoreFault => Status::StoreFault,
            WriteRefusal::FeedFault => Status::FeedFault,
            WriteRefusal::NoMemory => Status::NoMemory,
        }
    }

    fn write_line(&self, alloc: Global, dataset: &Name) -> Result<Vec<u8>, AllocError> {
        match self {
            WriteRefusal::NoScale(why) => write_why(alloc, dataset, why),
            WriteRefusal::TooManyVoxels(voxels) => {
                Ok(write_voxels_line(alloc, *voxels)?.into_bytes())
            }
            WriteRefusal::NotEmpty => write_folder_line(alloc),
            WriteRefusal::Stream(fault) => Ok(write_stream_line(alloc, *fault)?.into_bytes()),
            WriteRefusal::TooManyCells(cells) => {
                Ok(write_cells_line(alloc, *cells)?.into_bytes())
            }
            WriteRefusal::StoreFault | WriteRefusal::FeedFault | WriteRefusal::NoMemory =>
                unreachable!(),
        }
    }
}
