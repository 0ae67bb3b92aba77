//! The limits of a scale.
ghost use Rattle.std.specs.List.{list_any};
ghost use Rattle.std.specs.Prelude.{◌≡◌, ℕ, List, ◌∷◌, ◌+◌, ◌-◌, ◌*◌, ◌/◌, ◌^◌, ◌≤◌, min, length};
ghost use Rattle.vol_base.specs.Grids.{AreSizes, pairs};
ghost use Rattle.vol_spec.specs.Limits.{IsSeg, AreBlocks, first_bytes, rounded, padded_of, padded_voxels, cell_counts};
ghost use Rattle.info_doc.specs.Faults.{judged};
ghost use Rattle.info_doc.specs.Groups.{limit_fault};
ghost use Rattle.info_doc.specs.Steps.{only_if, bytes_fault, codes_fault, has_many_bytes as has_many_bytes_in, has_many_voxels as has_many_voxels_in, padded_fault};

use crate::fault::{InfoFault, Item};
use crate::shape::Shape;
use crate::volume::Volume;
use vol_base::Grid;
use vol_spec::{ChunkSizes, Encoding};

// A product, or 2^64 - 1 where it is more.
#[tactic(auto, using(crate::proofs::Saturated::saturated))]
fn product(x: u64, y: u64, z: u64, channels: u32, width: u32) -> u64
    ensures { result ≡ min (x * y * z * channels * width) (2 ^ 64 - 1) }
{
    x.saturating_mul(y)
        .saturating_mul(z)
        .saturating_mul(u64::from(channels))
        .saturating_mul(u64::from(width))
}

// Whether a chunk size has more than 2^27 bytes in the first cell.
#[tactic(auto, using(crate::proofs::Saturated::passes_min))]
fn has_many_bytes(volume: Volume, size: &[u64; 3], chunk: &[u64; 3]) -> bool
    ensures { result ≡ has_many_bytes_in volume.width volume.channels size.now chunk.now }
{
    let x = chunk[0].min(size[0]);
    let y = chunk[1].min(size[1]);
    let z = chunk[2].min(size[2]);
    product(x, y, z, volume.channels, volume.width) > 1 << 27
}

// Whether one of some chunk sizes has.
fn some_has_many_bytes(volume: Volume, size: &[u64; 3], chunks: &ChunkSizes) -> bool
    ensures { result ≡ list_any (has_many_bytes_in volume.width volume.channels size.now) chunks.now }
{
    let mut at = 0;
    while at < chunks.len() {
        if has_many_bytes(volume, size, &chunks.get(at)) {
            return true;
        }
        at += 1;
    }
    false
}

// At most 2^27 bytes in the first cell of each chunk size.
#[tactic(auto, unfolding(crate::specs::Steps::bytes_fault))]
fn check_bytes(volume: Volume, shape: &Shape) -> Result<(), InfoFault>
    ensures { result ≡ judged (bytes_fault volume.width volume.channels shape.now.size
        (shape.now.chunk ∷ shape.now.more)) tt }
{
    if has_many_bytes(volume, &shape.size, &shape.chunk)
        || some_has_many_bytes(volume, &shape.size, &shape.more)
    {
        return Err(InfoFault::Limit {
            item: Item::ChunkBytes,
        });
    }
    Ok(())
}

// How many chunks there are on an axis.
#[tactic(auto, using(crate::proofs::Saturated::cells_fit))]
fn cells_on(size: u64, chunk: u64) -> u64
    requires size { 1 ≤ size }
    requires size_fits { size ≤ 2 ^ 40 }
    requires chunk { 1 ≤ chunk }
    requires chunk_fits { chunk ≤ 2 ^ 40 }
    ensures cells { result ≡ (size + chunk - 1) / chunk }
    ensures some { 1 ≤ result }
    ensures fits { result ≤ 2 ^ 40 }
{
    (size + chunk - 1) / chunk
}

// The bits of a cell's Morton code.
fn code_bits(shape: &Shape) -> u32
    requires size { AreSizes shape.now.size }
    requires chunk { AreSizes shape.now.chunk }
    ensures { result ≡ length (pairs (cell_counts shape.now.size shape.now.chunk)) }
{
    let x = cells_on(shape.size[0], shape.chunk[0]);
    let y = cells_on(shape.size[1], shape.chunk[1]);
    let z = cells_on(shape.size[2], shape.chunk[2]);
    Grid { size: [x, y, z] }.bits()
}

// At most 64 bits in the Morton code of a cell.
#[tactic(auto, unfolding(crate::specs::Steps::codes_fault))]
fn check_codes(shape: &Shape) -> Result<(), InfoFault>
    requires size { AreSizes shape.now.size }
    requires chunk { AreSizes shape.now.chunk }
    ensures { result ≡ judged (codes_fault shape.now.size shape.now.chunk) tt }
{
    if code_bits(shape) > 64 {
        return Err(InfoFault::Limit {
            item: Item::MortonBits,
        });
    }
    Ok(())
}

// A size rounded up to whole blocks.
fn round_up(size: u64, block: u64) -> u64
    requires size { size ≤ 2 ^ 40 }
    requires some { 1 ≤ block }
    requires block { block ≤ 2 ^ 24 }
    ensures { result ≡ rounded size block }
{
    (size + block - 1) / block * block
}

// The padded voxels of the first cell times the channels, or 2^64 - 1 where they are more.
fn padded(block: &[u64; 3], channels: u32, size: &[u64; 3], chunk: &[u64; 3]) -> u64
    requires size { AreSizes size.now }
    requires block { AreBlocks block.now }
    ensures { result ≡ min (padded_voxels block.now channels size.now chunk.now) (2 ^ 64 - 1) }
{
    let x = round_up(chunk[0].min(size[0]), block[0]);
    let y = round_up(chunk[1].min(size[1]), block[1]);
    let z = round_up(chunk[2].min(size[2]), block[2]);
    product(x, y, z, channels, 1)
}

// Whether a chunk size has more than 2^24 padded voxels times channels in a segmentation.
#[tactic(auto, using(crate::proofs::Saturated::passes_min))]
fn has_many_voxels(encoding: &Encoding, channels: u32, size: &[u64; 3], chunk: &[u64; 3]) -> bool
    requires size { AreSizes size.now }
    requires block { (block : List ℕ) → IsSeg encoding.now block → AreBlocks block }
    ensures { result ≡ has_many_voxels_in encoding.now channels size.now chunk.now }
{
    match encoding {
        Encoding::Raw => false,
        Encoding::Seg { block } => padded(block, channels, size, chunk) > 1 << 24,
    }
}

// Whether one of some chunk sizes has.
fn some_has_many_voxels(
    encoding: &Encoding,
    channels: u32,
    size: &[u64; 3],
    chunks: &ChunkSizes,
) -> bool
    requires size { AreSizes size.now }
    requires block { (block : List ℕ) → IsSeg encoding.now block → AreBlocks block }
    ensures { result ≡ list_any (has_many_voxels_in encoding.now channels size.now) chunks.now }
{
    let mut at = 0;
    while at < chunks.len() {
        if has_many_voxels(encoding, channels, size, &chunks.get(at)) {
            return true;
        }
        at += 1;
    }
    false
}

// At most 2^24 padded voxels times channels in a segmentation, for each chunk size.
#[tactic(auto, unfolding(crate::specs::Steps::padded_fault))]
fn check_padded(encoding: &Encoding, channels: u32, shape: &Shape) -> Result<(), InfoFault>
    requires size { AreSizes shape.now.size }
    requires block { (block : List ℕ) → IsSeg encoding.now block → AreBlocks block }
    ensures { result ≡ judged (padded_fault encoding.now channels shape.now.size
        (shape.now.chunk ∷ shape.now.more)) tt }
{
    if has_many_voxels(encoding, channels, &shape.size, &shape.chunk)
        || some_has_many_voxels(encoding, channels, &shape.size, &shape.more)
    {
        return Err(InfoFault::Limit { item: Item::Padded });
    }
    Ok(())
}

/// The limits of a scale of this shape and encoding.
#[tactic(auto, unfolding(crate::specs::Groups::limit_fault))]
pub(crate) fn check_limits(
    volume: Volume,
    shape: &Shape,
    encoding: &Encoding,
    is_sharded: bool,
) -> Result<(), InfoFault>
    requires size { AreSizes shape.now.size }
    requires chunk { AreSizes shape.now.chunk }
    requires block { (block : List ℕ) → IsSeg encoding.now block → AreBlocks block }
    ensures { result ≡ judged (limit_fault volume shape.now encoding.now is_sharded) tt }
{
    check_bytes(volume, shape)?;
    if is_sharded {
        check_codes(shape)?;
    }
    check_padded(encoding, volume.channels, shape)
}
