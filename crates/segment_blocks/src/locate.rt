//! Where a block lies.
ghost use Rattle.std.specs.Prelude.{◌≡◌, ◌+◌, ◌-◌, ◌*◌, ◌/◌, ◌%◌, ◌<◌, min};
ghost use Rattle.vol_spec.specs.SegShapes.{sizes_of};
ghost use Rattle.vol_spec.specs.SegBlocks.{size, block, blocks_on, block_count, block_voxels};
ghost use Rattle.segment_blocks.specs.Located.{IsBlock};

use crate::block::Block;
use vol_spec::SegShape;

fn get_size(shape: &SegShape, axis: usize) -> usize
    requires { axis < 3 }
    ensures { result ≡ size (sizes_of shape.now) axis }
{
    shape.size[axis] as usize
}

/// The size of a block on an axis.
pub(crate) fn get_block(shape: &SegShape, axis: usize) -> usize
    requires { axis < 3 }
    ensures { result ≡ block (sizes_of shape.now) axis }
{
    shape.block[axis] as usize
}

// How many blocks lie on an axis.
fn count_on(shape: &SegShape, axis: usize) -> usize
    requires { axis < 3 }
    ensures { result ≡ blocks_on (sizes_of shape.now) axis }
{
    let size = get_size(shape, axis);
    let block = get_block(shape, axis);
    (size + block - 1) / block
}

/// How many blocks a channel has.
pub(crate) fn count_blocks(shape: &SegShape) -> usize
    ensures { result ≡ block_count (sizes_of shape.now) }
{
    let x = count_on(shape, 0);
    let y = count_on(shape, 1);
    let z = count_on(shape, 2);
    x * y * z
}

/// How many voxels a block has, padding included.
pub(crate) fn count_voxels(shape: &SegShape) -> usize
    ensures { result ≡ block_voxels (sizes_of shape.now) }
{
    let x = get_block(shape, 0);
    let y = get_block(shape, 1);
    let z = get_block(shape, 2);
    x * y * z
}

/// Block k of channel c.
pub(crate) fn find_block(shape: &SegShape, c: usize, k: usize) -> Block
    requires channel { c < shape.now.channels }
    requires block { k < block_count (sizes_of shape.now) }
    ensures { IsBlock (sizes_of shape.now) c k result }
{
    let block_x = get_block(shape, 0);
    let block_y = get_block(shape, 1);
    let block_z = get_block(shape, 2);
    let size_x = get_size(shape, 0);
    let size_y = get_size(shape, 1);
    let size_z = get_size(shape, 2);
    let count_x = count_on(shape, 0);
    let count_y = count_on(shape, 1);
    let x = k % count_x * block_x;
    let y = k / count_x % count_y * block_y;
    let z = k / count_x / count_y * block_z;
    Block {
        x,
        y,
        z: c * size_z + z,
        count_x: block_x.min(size_x - x),
        count_y: block_y.min(size_y - y),
        count_z: block_z.min(size_z - z),
        block_x,
        block_y,
        size_x,
        size_y,
        indices: block_x * block_y * block_z,
    }
}
