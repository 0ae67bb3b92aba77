//! The values of a block.
ghost use Rattle.std.specs.Prelude.{◌≡◌, ◌+◌, ◌*◌, ◌/◌, ◌%◌, ◌<◌, ◌≤◌, ℕ, ◌^◌, length, slice_index, nat_lt, not, map, take, IsTrue, if◌then◌else◌};
ghost use Rattle.vol_spec.specs.Raw.{digit};
ghost use Rattle.vol_spec.specs.SegBlocks.{block, block_count, block_voxels, raw_len};
ghost use Rattle.vol_spec.specs.SegShapes.{sizes_of};
ghost use Rattle.vol_spec.specs.SegSizes.{width_of};
ghost use Rattle.std.specs.List.{Contains, range_with_len};
ghost use Rattle.vol_spec.specs.SegWritten as seg;
ghost use Rattle.vol_spec.specs.SegWritten.{index_of};
ghost use Rattle.segment_blocks.specs.Filled.{Lies};
ghost use Rattle.segment_blocks.specs.Located.{IsBlock};

use crate::block::{Block, find_line};
use crate::locate::get_block;
use crate::table::find_table;
use crate::word::read_value;
use vol_spec::SegShape;

/// Where a row of a block begins in the raw values, and how many of its voxels lie in the chunk.
#[derive(Clone, Copy)]
pub(crate) struct Row {
    pub at: usize,
    pub count: usize,
}

ghost use Rattle.segment_blocks.specs.Voxels.{place_in, row_of, voxels_of};

// A row's numbers in its block.
#[derive(Clone, Copy)]
struct Line {
    y: usize,
    z: usize,
}

// The numbers of the row behind row r, whose numbers are told, where a plane has so many rows.
fn find_next(_r: usize, y: usize, z: usize, rows: usize) -> Line
    requires some { 0 < rows }
    requires small { _r < 2 ^ 63 }
    requires y { y ≡ _r % rows }
    requires z { z ≡ _r / rows }
    ensures y { result.y ≡ (_r + 1) % rows }
    ensures z { result.z ≡ (_r + 1) / rows }
{
    if y + 1 < rows {
        Line { y: y + 1, z }
    } else {
        Line { y: 0, z: z + 1 }
    }
}

fn find_row(b: &Block, y: usize, z: usize) -> Row
    requires { (values : ℕ) × Lies b.now values }
    ensures { result ≡ row_of b.now y z }
{
    if y < b.count_y && z < b.count_z {
        Row {
            at: find_line(b, y, z),
            count: b.count_x,
        }
    } else {
        Row { at: 0, count: 0 }
    }
}

// The first values of a row.
fn read_row(raw: &[u8], at: usize, count: usize, wide: bool, row: &mut [u64])
    requires within { (x : ℕ) → x < count → width_of wide * (at + x) + width_of wide ≤ length raw.now }
    requires small { at + length row.old < 2 ^ 63 }
    requires count { count ≤ length row.old }
    ensures { (x : ℕ) → x < count → slice_index row.new x ≡ digit raw.now (width_of wide) (at + x) }
{
    for x in 0..count {
        row[x] = read_value(raw, at + x, wide);
    }
}

// One value for the rest of a row.
fn pad_row(row: &mut [u64], from: usize, padding: u64)
    ensures kept { (x : ℕ) → x < from → slice_index row.new x ≡ slice_index row.old x }
    ensures padding { (x : ℕ) → from ≤ x → x < length row.new → slice_index row.new x ≡ padding }
{
    for x in from..row.len() {
        row[x] = padding;
    }
}

// The values of a row, with one value for its padding.
fn fill_row(raw: &[u8], from: Row, padding: u64, wide: bool, row: &mut [u64])
    requires within { (x : ℕ) → x < from.count → width_of wide * (from.at + x)
        + width_of wide ≤ length raw.now }
    requires small { from.at + length row.old < 2 ^ 63 }
    ensures { (x : ℕ) → x < length row.old → slice_index row.new x
        ≡ (if nat_lt x from.count then digit raw.now (width_of wide) (from.at + x) else padding) }
{
    let count = from.count.min(row.len());
    read_row(raw, from.at, count, wide, row);
    pad_row(row, count, padding);
}

/// The values of block k of channel c, with one value for its padding.
pub(crate) fn fill_voxels(
    raw: &[u8],
    shape: &SegShape,
    c: u32,
    k: usize,
    b: &Block,
    padding: u64,
    voxels: &mut [u64],
)
    requires block { k < block_count (sizes_of shape.now) }
    requires channel { c < shape.now.channels }
    requires is { IsBlock (sizes_of shape.now) c k b.now }
    requires raw { length raw.now ≡ raw_len (sizes_of shape.now) }
    requires voxels { length voxels.old ≡ block_voxels (sizes_of shape.now) }
    ensures { voxels.new ≡ voxels_of (sizes_of shape.now) raw.now c k padding }
{
    let width = b.block_x;
    let mut line = Line { y: 0, z: 0 };
    for r in 0..voxels.len() / width {
        let from = find_row(b, line.y, line.z);
        fill_row(
            raw,
            from,
            padding,
            shape.wide,
            &mut voxels[r * width..r * width + width],
        );
        line = find_next(r, line.y, line.z, b.block_y);
    }
}

// Whether some of a block's voxels aren't in the chunk.
fn test_padding(shape: &SegShape, b: &Block) -> bool
    ensures { IsTrue (not result) → (block (sizes_of shape.now) 0 ≤ b.now.count_x)
        × (block (sizes_of shape.now) 1 ≤ b.now.count_y) × (block (sizes_of shape.now) 2 ≤ b.now.count_z) }
{
    b.count_x < get_block(shape, 0)
        || b.count_y < get_block(shape, 1)
        || b.count_z < get_block(shape, 2)
}

// Gives the padding of a block another value.
fn refill(
    raw: &[u8],
    shape: &SegShape,
    c: u32,
    k: usize,
    b: &Block,
    was: u64,
    padding: u64,
    voxels: &mut [u64],
)
    requires block { k < block_count (sizes_of shape.now) }
    requires channel { c < shape.now.channels }
    requires is { IsBlock (sizes_of shape.now) c k b.now }
    requires raw { length raw.now ≡ raw_len (sizes_of shape.now) }
    requires voxels { voxels.old ≡ voxels_of (sizes_of shape.now) raw.now c k was }
    ensures { voxels.new ≡ voxels_of (sizes_of shape.now) raw.now c k padding }
{
    if padding == was {
        return;
    }
    if !test_padding(shape, b) {
        return;
    }
    fill_voxels(raw, shape, c, k, b, padding, voxels);
}

/// The values of block k of channel c, with the least of them for its padding, and its table in front
/// of `table`, whose length it tells.
pub(crate) fn tabulate(
    raw: &[u8],
    shape: &SegShape,
    c: u32,
    k: usize,
    b: &Block,
    voxels: &mut [u64],
    table: &mut [u64],
) -> usize
    requires block { k < block_count (sizes_of shape.now) }
    requires channel { c < shape.now.channels }
    requires is { IsBlock (sizes_of shape.now) c k b.now }
    requires raw { length raw.now ≡ raw_len (sizes_of shape.now) }
    requires voxels { length voxels.old ≡ block_voxels (sizes_of shape.now) }
    requires table { length table.old ≡ block_voxels (sizes_of shape.now) }
    ensures within { result ≤ length table.old }
    ensures table { take result table.new ≡ seg.table (sizes_of shape.now) raw.now c k }
    ensures places { map (place_in (take result table.new)) voxels.new
        ≡ map (index_of (sizes_of shape.now) raw.now c k)
        (range_with_len 0 (block_voxels (sizes_of shape.now))) }
    ensures there { (n : ℕ) → n < length voxels.new →
        Contains (take result table.new) (slice_index voxels.new n) }
{
    let first = read_value(raw, find_line(b, 0, 0), shape.wide);
    fill_voxels(raw, shape, c, k, b, first, voxels);
    let count = find_table(voxels, table);
    refill(raw, shape, c, k, b, first, table[0], voxels);
    count
}
