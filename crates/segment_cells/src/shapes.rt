//! The shape of a cell's chunk, and its length.
ghost use Rattle.std.specs.Prelude.{◌≡◌, ◌≤◌, ◌<◌, ◌^◌, min};
ghost use Rattle.vol_spec.specs.Encodings.{cell_limit, raw_size, sizes_in};
ghost use Rattle.vol_spec.specs.Grid.{IsCell};
ghost use Rattle.vol_spec.specs.Limits.{first_bytes, limit_of, rounded};
ghost use Rattle.vol_spec.specs.SegShapes.{sizes_of};
ghost use Rattle.vol_spec.specs.SegSizes.{encoded_limit};
ghost use Rattle.vol_spec.specs.declared.encoding.Encoding.TheVariants.{Seg};

use chunk_grid::{byte_len, cell_box};
use vol_spec::{Encoding, Scale, SegShape};

/// The shape of a cell's chunk in blocks of `block` voxels, clipped as the cell is.
pub fn shape_of(scale: &Scale, cell: [u64; 3], block: [u64; 3]) -> SegShape
    requires cell { IsCell scale.now cell }
    requires block { scale.now.encoding ≡ Seg block }
    ensures { sizes_of result ≡ sizes_in scale.now cell }
{
    let size = cell_box(scale, cell).size;
    SegShape {
        size,
        block,
        channels: scale.channels,
        wide: scale.width == 8,
    }
}

// A size rounded up to whole blocks.
fn round_up(size: u64, block: u64) -> u64
    requires size { size ≤ 2 ^ 40 }
    requires some { 1 ≤ block }
    requires block { block ≤ 2 ^ 24 }
    ensures { result ≡ rounded size block }
{
    (size + block - 1) / block * block
}

// How many bytes a segmentation chunk has at most: a word for each channel, and 16 bytes for each padded
// voxel and channel.
fn seg_limit(shape: &SegShape) -> u64
    ensures limit { result ≡ encoded_limit (sizes_of shape.now) }
    ensures small { result < 2 ^ 30 }
{
    let x = round_up(shape.size[0], shape.block[0]);
    let y = round_up(shape.size[1], shape.block[1]);
    let z = round_up(shape.size[2], shape.block[2]);
    let channels = shape.channels as u64;
    4 * channels + 16 * (x * y * z * channels)
}

/// How many bytes the values of a cell have. No cell has more than the first one.
pub fn values_len(scale: &Scale, cell: [u64; 3]) -> u64
    requires { IsCell scale.now cell }
    ensures len { result ≡ raw_size scale.now cell }
    ensures first { result ≤ first_bytes scale.now.width scale.now.channels scale.now.size scale.now.chunk }
    ensures small { result ≤ 2 ^ 27 }
{
    byte_len(&cell_box(scale, cell), scale.channels, scale.width) as u64
}

/// How many bytes the chunk of a cell has at most: as many as its values where chunks are raw, else what
/// the encoding takes at most. No cell's chunk passes that of the first one.
pub fn chunk_limit(scale: &Scale, cell: [u64; 3]) -> u64
    requires { IsCell scale.now cell }
    ensures limit { result ≡ cell_limit scale.now cell }
    ensures first { result
        ≤ limit_of scale.now.encoding scale.now.width scale.now.channels scale.now.size scale.now.chunk }
    ensures small { result < 2 ^ 30 }
{
    match scale.encoding {
        Encoding::Raw => values_len(scale, cell),
        Encoding::Seg { block } => seg_limit(&shape_of(scale, cell, block)),
    }
}
