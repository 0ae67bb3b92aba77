//! What is told of a refusal.
ghost use Rattle.generate_cmd.specs.Fixed.{generate_fixed};
ghost use Rattle.generate_cmd.specs.Refusals.{generate_line, generate_status};

use crate::refusal::GenerateRefusal;
use command_base::{Refusal, Status};
use std::alloc::{AllocError, Global};
use vol_base::Name;

impl Refusal for GenerateRefusal {
    ghost ends = { generate_status };

    ghost line = { generate_line };

    ghost fixed = { generate_fixed };

    fn status(&self) -> Status {
        match self {
            GenerateRefusal::Write(refusal) => refusal.status(),
            GenerateRefusal::Cutout(refusal) => refusal.status(),
        }
    }

    fn write_line(&self, alloc: Global, dataset: &Name) -> Result<Vec<u8>, AllocError> {
        match self {
            GenerateRefusal::Write(refusal) => refusal.write_line(alloc, dataset),
            GenerateRefusal::Cutout(refusal) => refusal.write_line(alloc, dataset),
        }
    }
}
