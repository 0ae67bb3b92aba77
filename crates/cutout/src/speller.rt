//! What tells the chunks that this writer spells.
ghost use Rattle.std.specs.Prelude.{IfOk, IfSome};

use segment_blocks::Scratch;
use segment_cells::reserve_scratch;
use std::alloc::Global;
use vol_base::OutOfMemory;
use vol_spec::{Encoding, Scale};

// The padded voxels of a cell, times the channels, up to which chunks are written.
const MOST: u64 = 1 << 22;

/// What is needed to tell whether a chunk of a scale is spelled as this writer spells it: the scale's blocks, and memory.
#[derive(Drop)]
pub struct Speller {
    pub(crate) block: [u64; 3],
    pub(crate) scratch: Scratch,
}

impl Speller {
    ghost use Rattle.cutout.specs.Taking.{IsSpeller};

    /// A speller for the chunks of a scale, where they are in blocks and can be written.
    pub(crate) fn reserve(alloc: Global, scale: &Scale) -> Result<Option<Speller>, OutOfMemory>
        ensures { IfOk result (λ speller. IfSome speller (IsSpeller scale.now)) }
    {
        match scale.encoding {
            Encoding::Raw => Ok(None),
            Encoding::Seg { block } => {
                if scale.padded() > MOST {
                    return Ok(None);
                }
                let scratch = reserve_scratch(alloc, scale, block)?;
                Ok(Some(Speller { block, scratch }))
            }
        }
    }
}
