//! Blocks of one voxel, whose tables have one value.
ghost use Rattle.std.specs.Prelude.{◌≡◌, ◌+◌, ◌*◌, ◌<◌, ◌≤◌, ◌^◌, ◌==◌, ℕ, length, slice_index, take, IfOk, IsTrue};
ghost use Rattle.equal_values.specs.Earlier as equal;
ghost use Rattle.equal_values.specs.Earlier.{coded};
ghost use Rattle.equal_values.specs.Reserved.{most_of};
ghost use Rattle.vol_spec.specs.Raw.{digit};
ghost use Rattle.vol_spec.specs.SegBlocks.{block_count, raw_len};
ghost use Rattle.vol_spec.specs.SegShapes.{sizes_of};
ghost use Rattle.vol_spec.specs.SegSizes.{width_of};
ghost use Rattle.segment_blocks.specs.Singles.{HasEarlier, HasPlaces, HasSpots, IsSingles, KnowsSpots, SameSingles, is_single};

use crate::locate::{count_blocks, count_voxels};
use crate::word::{find_width, read_value};
use equal_values::{Finder, find_earlier};
use std::alloc::{AllocError, Global};
use vol_base::OutOfMemory;
use vol_spec::SegShape;

/// The values of a channel whose blocks have one voxel each; what finding equal ones needs; and for each block where its
/// table is, in bytes from the channel's start.
#[derive(Drop)]
pub(crate) struct Singles {
    pub values: Vec<u64>,
    pub finder: Finder,
    pub spots: Vec<u32>,
}

/// Whether each block has one voxel.
pub(crate) fn test_single(shape: &SegShape) -> bool
    ensures { result ≡ is_single (sizes_of shape.now) }
{
    count_voxels(shape) == 1
}

fn reserve_values(alloc: Global, blocks: usize) -> Result<Vec<u64>, AllocError>
    ensures { IfOk result (λ v. length v.items ≡ blocks) }
{
    vec![in alloc; 0u64; blocks]
}

fn reserve_spots(alloc: Global, blocks: usize) -> Result<Vec<u32>, AllocError>
    ensures { IfOk result (λ v. length v.items ≡ blocks) }
{
    vec![in alloc; 0u32; blocks]
}

// How many blocks of one voxel a channel has.
fn count_singles(shape: &SegShape) -> usize
    ensures few { result ≤ 2 ^ 24 }
    ensures all { IsTrue (is_single (sizes_of shape.now)) → result ≡ block_count (sizes_of shape.now) }
{
    if test_single(shape) {
        count_blocks(shape)
    } else {
        0
    }
}

/// Memory for the blocks of a shape, if they have one voxel each.
pub(crate) fn reserve_singles(alloc: Global, shape: &SegShape) -> Result<Singles, OutOfMemory>
    ensures { IfOk result (IsSingles (sizes_of shape.now)) }
{
    let blocks = count_singles(shape);
    Ok(Singles {
        values: reserve_values(alloc, blocks).map_err(|_| OutOfMemory)?,
        finder: Finder::reserve(alloc, blocks)?,
        spots: reserve_spots(alloc, blocks).map_err(|_| OutOfMemory)?,
    })
}

/// The values from a place on.
pub(crate) fn fill_values(raw: &[u8], from: usize, wide: bool, values: &mut [u64])
    requires { width_of wide * (from + length values.old) ≤ length raw.now }
    ensures { (k : ℕ) → k < length values.new → slice_index values.new k
        ≡ digit raw.now (width_of wide) (from + k) }
{
    for k in 0..values.len() {
        values[k] = read_value(raw, from + k, wide);
    }
}

// So many values from a place on, and of each the first one before it that is equal.
fn find_in(
    raw: &[u8],
    from: usize,
    wide: bool,
    count: usize,
    values: &mut [u64],
    finder: &mut Finder,
    earlier: &mut [u32],
)
    requires raw { width_of wide * (from + count) ≤ length raw.now }
    requires values { count ≤ length values.old }
    requires finder { count ≤ most_of finder.old }
    requires earlier { count ≤ length earlier.old }
    ensures values { (k : ℕ) → k < count → slice_index (take count values.new) k
        ≡ digit raw.now (width_of wide) (from + k) }
    ensures earlier { (k : ℕ) → k < count → slice_index earlier.new k
        ≡ coded (equal.earlier (take count values.new) k) }
    ensures finder { most_of finder.new ≡ most_of finder.old }
{
    fill_values(raw, from, wide, &mut values[..count]);
    find_earlier(&values[..count], finder, &mut earlier[..count]);
}

// Where the table of each block is, in bytes from the channel's start. There stands the place of the first block before
// with an equal one, and 1, or 0: the table is where that one's is, or behind the headers (8 bytes for each block) and
// the tables before it, which stand side by side.
fn place_tables(_raw: &[u8], shape: &SegShape, _c: u32, blocks: usize, spots: &mut [u32])
    requires blocks { blocks ≡ block_count (sizes_of shape.now) }
    requires single { IsTrue (is_single (sizes_of shape.now)) }
    requires room { blocks ≤ length spots.old }
    requires earlier { HasEarlier (sizes_of shape.now) _raw.now _c spots.old }
    ensures { HasSpots (sizes_of shape.now) _raw.now _c spots.new }
{
    let width = find_width(shape.wide) as u32;
    let mut next = 8 * blocks as u32;
    for k in 0..blocks {
        let number = spots[k] as usize;
        if number == 0 {
            spots[k] = next;
            next += width;
        } else {
            spots[k] = spots[number - 1];
        }
    }
}

// Where the tables of a channel are, whose blocks have one voxel each.
fn find_each(raw: &[u8], shape: &SegShape, c: u32, blocks: usize, singles: &mut Singles)
    requires blocks { blocks ≡ block_count (sizes_of shape.now) }
    requires single { IsTrue (is_single (sizes_of shape.now)) }
    requires channel { c < shape.now.channels }
    requires raw { length raw.now ≡ raw_len (sizes_of shape.now) }
    requires room { HasPlaces (sizes_of shape.now) singles.old }
    ensures spots { HasSpots (sizes_of shape.now) raw.now c singles.new.spots.items }
    ensures same { SameSingles singles.old singles.new }
{
    find_in(
        raw,
        c as usize * blocks,
        shape.wide,
        blocks,
        &mut singles.values,
        &mut singles.finder,
        &mut singles.spots,
    );
    place_tables(raw, shape, c, blocks, &mut singles.spots);
}

/// Finds where the tables of a channel are, where its blocks have one voxel each.
pub(crate) fn find_singles(raw: &[u8], shape: &SegShape, c: u32, singles: &mut Singles)
    requires channel { c < shape.now.channels }
    requires raw { length raw.now ≡ raw_len (sizes_of shape.now) }
    requires room { IsSingles (sizes_of shape.now) singles.old }
    ensures spots { KnowsSpots (sizes_of shape.now) raw.now c singles.new.spots.items }
    ensures same { SameSingles singles.old singles.new }
{
    if test_single(shape) {
        find_each(raw, shape, c, count_blocks(shape), singles);
    }
}
