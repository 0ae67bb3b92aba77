//! Why `generate` was refused.

use cutout_cmd::CutoutRefusal;
use write_cmd::WriteRefusal;

/// Why `generate` was refused: as a write is, or as a cutout of the whole scale is.
#[derive(Clone, Copy)]
pub enum GenerateRefusal {
    Write(WriteRefusal),
    Cutout(CutoutRefusal),
}
