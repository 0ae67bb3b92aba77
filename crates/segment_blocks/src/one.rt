//! Blocks whose voxels in the chunk have one value.
ghost use Rattle.std.specs.Prelude.{◌≡◌, ◌↔◌, ◌+◌, ◌*◌, ◌/◌, ◌<◌, ◌≤◌, ◌∷◌, [], length, IsTrue, IfSome, None};
ghost use Rattle.vol_spec.specs.SegBlocks.{block_count, raw_len};
ghost use Rattle.vol_spec.specs.SegShapes.{sizes_of};
ghost use Rattle.vol_spec.specs.SegSizes.{width_of};
ghost use Rattle.vol_spec.specs.SegWritten as seg;
ghost use Rattle.segment_blocks.specs.Filled.{AreAll, HaveOne, InPlanes, InRow, InRows, Lies};
ghost use Rattle.segment_blocks.specs.Located.{IsBlock};

use crate::block::{Block, find_line};
use crate::word::{read_narrow, read_value, read_wide};
use vol_spec::SegShape;

// Whether a value and the three behind it are this one.
fn test_four(raw: &[u8], n: usize, value: u64) -> bool
    requires { 8 * (n + 4) ≤ length raw.now }
    ensures { IsTrue result ↔ AreAll raw.now 8 n 4 value }
{
    read_wide(raw, n) == value
        && read_wide(raw, n + 1) == value
        && read_wide(raw, n + 2) == value
        && read_wide(raw, n + 3) == value
}

// Whether so many values from a place on are this one: whole fours, and the rest.
fn test_wide(raw: &[u8], from: usize, count: usize, value: u64) -> bool
    requires { 8 * (from + count) ≤ length raw.now }
    ensures { IsTrue result ↔ AreAll raw.now 8 from count value }
{
    for i in 0..count / 4 {
        if !test_four(raw, from + 4 * i, value) {
            return false;
        }
    }
    for n in from + count / 4 * 4..from + count {
        if read_wide(raw, n) != value {
            return false;
        }
    }
    true
}

fn test_narrow(raw: &[u8], from: usize, count: usize, value: u64) -> bool
    requires { 4 * (from + count) ≤ length raw.now }
    ensures { IsTrue result ↔ AreAll raw.now 4 from count value }
{
    for n in from..from + count {
        if read_narrow(raw, n) != value {
            return false;
        }
    }
    true
}

fn test_values(raw: &[u8], from: usize, count: usize, value: u64, wide: bool) -> bool
    requires { width_of wide * (from + count) ≤ length raw.now }
    ensures { IsTrue result ↔ AreAll raw.now (width_of wide) from count value }
{
    if wide {
        test_wide(raw, from, count, value)
    } else {
        test_narrow(raw, from, count, value)
    }
}

fn test_row(raw: &[u8], b: &Block, y: usize, z: usize, value: u64, wide: bool) -> bool
    requires lies { Lies b.now (length raw.now / width_of wide) }
    requires y { y < b.now.count_y }
    requires z { z < b.now.count_z }
    ensures { IsTrue result ↔ HaveOne (InRow b.now y z) b.now raw.now (width_of wide) value }
{
    let from = find_line(b, y, z);
    test_values(raw, from, b.count_x, value, wide)
}

fn test_plane(raw: &[u8], b: &Block, z: usize, value: u64, wide: bool) -> bool
    requires lies { Lies b.now (length raw.now / width_of wide) }
    requires z { z < b.now.count_z }
    ensures { IsTrue result ↔ HaveOne (InRows b.now b.now.count_y z) b.now raw.now (width_of wide) value }
{
    for y in 0..b.count_y {
        if !test_row(raw, b, y, z, value, wide) {
            return false;
        }
    }
    true
}

fn test_block(raw: &[u8], b: &Block, value: u64, wide: bool) -> bool
    requires { Lies b.now (length raw.now / width_of wide) }
    ensures { IsTrue result ↔ HaveOne (InPlanes b.now b.now.count_z) b.now raw.now (width_of wide) value }
{
    for z in 0..b.count_z {
        if !test_plane(raw, b, z, value, wide) {
            return false;
        }
    }
    true
}

/// The value of block k of channel c, if all its voxels in the chunk have it; `None` if they have several.
pub(crate) fn find_one(raw: &[u8], shape: &SegShape, c: u32, k: usize, b: &Block) -> Option<u64>
    requires block { k < block_count (sizes_of shape.now) }
    requires channel { c < shape.now.channels }
    requires is { IsBlock (sizes_of shape.now) c k b.now }
    requires raw { length raw.now ≡ raw_len (sizes_of shape.now) }
    ensures one { IfSome result (λ v. seg.table (sizes_of shape.now) raw.now c k ≡ v ∷ []) }
    ensures several { result ≡ None → 1 < length (seg.table (sizes_of shape.now) raw.now c k) }
{
    let value = read_value(raw, find_line(b, 0, 0), shape.wide);
    if test_block(raw, b, value, shape.wide) {
        Some(value)
    } else {
        None
    }
}
