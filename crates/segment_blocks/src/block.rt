//! One block: rows into raw bytes.
ghost use Rattle.std.specs.Prelude.{◌≡◌, ◌+◌, ◌*◌, ◌/◌, ◌<◌, ◌≤◌, ℕ, length, IsTrue, OnOk, IfErr};
ghost use Rattle.vol_spec.specs.SegFaults.{is_allowed};
ghost use Rattle.vol_base.specs.Boxes.{value};
ghost use Rattle.vol_spec.specs.SegSizes.{width_of};
ghost use Rattle.vol_spec.specs.SegBlocks.{packed_words};
ghost use Rattle.segment_blocks.specs.Filled.{Lies, Done, IsOut, InRow, InRows, InPlanes};

use crate::row::unpack;
use crate::word::find_width;

/// A block in raw bytes: its first voxel there, with the planes of all channels counted on, how many of its
/// voxels lie in the chunk, and the sizes of the block and of the chunk.
#[derive(Clone, Copy)]
pub(crate) struct Block {
    pub x: usize,
    pub y: usize,
    pub z: usize,
    pub count_x: usize,
    pub count_y: usize,
    pub count_z: usize,
    pub block_x: usize,
    pub block_y: usize,
    pub size_x: usize,
    pub size_y: usize,
    /// The block's voxels, padding included.
    pub indices: usize,
}

/// The number of the first value of a row in the raw bytes, counted in values.
pub(crate) fn find_line(b: &Block, y: usize, z: usize) -> usize
    requires lies { (values : ℕ) × Lies b.now values }
    requires y { y < b.now.count_y }
    requires z { z < b.now.count_z }
    ensures { result ≡ ((b.now.z + z) * b.now.size_y + (b.now.y + y)) * b.now.size_x + b.now.x }
{
    ((b.z + z) * b.size_y + (b.y + y)) * b.size_x + b.x
}

// The number of the first index of a row, in the block.
fn find_first(b: &Block, y: usize, z: usize) -> usize
    requires lies { (values : ℕ) × Lies b.now values }
    requires y { y < b.now.count_y }
    requires z { z < b.now.count_z }
    ensures { result ≡ (z * b.now.block_y + y) * b.now.block_x }
{
    (z * b.block_y + y) * b.block_x
}

fn fill_row(
    b: &Block,
    values: &[u8],
    bits: u32,
    table: &[u8],
    wide: bool,
    y: usize,
    z: usize,
    raw: &mut [u8],
) -> Result<(), usize>
    requires lies { Lies b.now (length raw.old / width_of wide) }
    requires values { 4 * packed_words bits b.now.indices ≤ length values.now }
    requires bits { IsTrue (is_allowed bits) }
    requires y { y < b.now.count_y }
    requires z { z < b.now.count_z }
    ensures done { OnOk result (Done (InRow b.now y z) b.now values.now table.now
        (width_of wide) bits raw.old raw.new) }
    ensures out { IfErr result (λ n. IsOut (InRow b.now y z) b.now values.now table.now
        (width_of wide) bits n) }
{
    let first = find_first(b, y, z);
    let at = find_line(b, y, z);
    let width = find_width(wide);
    match unpack(
        values,
        bits,
        table,
        wide,
        first,
        &mut raw[width * at..width * (at + b.count_x)],
        b.count_x,
    ) {
        Ok(()) => Ok(()),
        Err(j) => Err(first + j),
    }
}

// The rows of one plane.
fn fill_plane(
    b: &Block,
    values: &[u8],
    bits: u32,
    table: &[u8],
    wide: bool,
    z: usize,
    raw: &mut [u8],
) -> Result<(), usize>
    requires lies { Lies b.now (length raw.old / width_of wide) }
    requires values { 4 * packed_words bits b.now.indices ≤ length values.now }
    requires bits { IsTrue (is_allowed bits) }
    requires z { z < b.now.count_z }
    ensures done { OnOk result (Done (InRows b.now b.now.count_y z) b.now values.now table.now
        (width_of wide) bits raw.old raw.new) }
    ensures out { IfErr result (λ n. IsOut (InRows b.now b.now.count_y z) b.now values.now table.now
        (width_of wide) bits n) }
{
    for y in 0..b.count_y {
        match fill_row(b, values, bits, table, wide, y, z, raw) {
            Ok(()) => {}
            Err(n) => return Err(n),
        }
    }
    Ok(())
}

/// The block's voxels, or the first whose index the table has no entry for.
pub(crate) fn fill_block(
    b: &Block,
    values: &[u8],
    bits: u32,
    table: &[u8],
    wide: bool,
    raw: &mut [u8],
) -> Result<(), usize>
    requires lies { Lies b.now (length raw.old / width_of wide) }
    requires values { 4 * packed_words bits b.now.indices ≤ length values.now }
    requires bits { IsTrue (is_allowed bits) }
    ensures done { OnOk result (Done (InPlanes b.now b.now.count_z) b.now values.now table.now
        (width_of wide) bits raw.old raw.new) }
    ensures out { IfErr result (λ n. IsOut (InPlanes b.now b.now.count_z) b.now values.now table.now
        (width_of wide) bits n) }
{
    for z in 0..b.count_z {
        match fill_plane(b, values, bits, table, wide, z, raw) {
            Ok(()) => {}
            Err(n) => return Err(n),
        }
    }
    Ok(())
}
