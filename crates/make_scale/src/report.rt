//! What is told of a refusal.
ghost use Rattle.make_scale.specs.Refusals.{refusal_fixed, refusal_line, refusal_status};

use crate::lines::write_differs_line;
use crate::{MakeFault, MakeRefusal};
use command_base::{
    Refusal, Status, write_cells_line, write_damaged_line, write_folder_line, write_sizes_line,
    write_voxels_line, write_why,
};
use std::alloc::{AllocError, Global};
use vol_base::Name;

impl Refusal for MakeRefusal {
    ghost ends = { refusal_status };

    ghost line = { refusal_line };

    ghost fixed = { refusal_fixed };

    fn status(&self) -> Status {
        match self {
            MakeRefusal::NoSource(_) | MakeRefusal::NoTarget(_) => Status::InfoRefused,
            MakeRefusal::TooManyVoxels(_)
            | MakeRefusal::SeveralSizes
            | MakeRefusal::Unmade(MakeFault::Differs { .. })
            | MakeRefusal::Unmade(MakeFault::TooManyCells { .. })
            | MakeRefusal::Unmade(MakeFault::NotEmpty) => Status::RequestRefused,
            MakeRefusal::Unmade(MakeFault::Damaged { .. }) => Status::Damaged,
            MakeRefusal::Unmade(MakeFault::StoreFault) => Status::StoreFault,
            MakeRefusal::Unmade(MakeFault::OutOfMemory) => Status::NoMemory,
        }
    }

    fn write_line(&self, alloc: Global, dataset: &Name) -> Result<Vec<u8>, AllocError> {
        match self {
            MakeRefusal::NoSource(why) | MakeRefusal::NoTarget(why) => {
                write_why(alloc, dataset, why)
            }
            MakeRefusal::TooManyVoxels(voxels) => {
                Ok(write_voxels_line(alloc, *voxels)?.into_bytes())
            }
            MakeRefusal::SeveralSizes => write_sizes_line(alloc),
            MakeRefusal::Unmade(MakeFault::Differs { item }) => {
                let text = item.to_string(alloc)?;
                Ok(write_differs_line(alloc, &text)?.into_bytes())
            }
            MakeRefusal::Unmade(MakeFault::TooManyCells { cells }) => {
                Ok(write_cells_line(alloc, *cells)?.into_bytes())
            }
            MakeRefusal::Unmade(MakeFault::NotEmpty) => write_folder_line(alloc),
            MakeRefusal::Unmade(MakeFault::Damaged { cell, fault }) => {
                Ok(write_damaged_line(alloc, *cell, *fault)?.into_bytes())
            }
            MakeRefusal::Unmade(MakeFault::StoreFault)
            | MakeRefusal::Unmade(MakeFault::OutOfMemory) => unreachable!(),
        }
    }
}
