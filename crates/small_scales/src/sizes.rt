//! Whether the parts of a scale keep its limits.

ghost use Rattle.std.specs.Prelude.{◌≡◌, ◌≤◌, ◌*◌, ◌^◌, ◌↔◌, IsTrue};
ghost use Rattle.vol_base.specs.Grids.{AreSizes};
ghost use Rattle.vol_spec.specs.Limits.{IsWidth, AreOffsets, first_bytes, first_size};

/// Whether a value can have so many bytes.
pub(crate) fn is_width(width: u32) -> bool
    ensures width { IsTrue result ↔ IsWidth width }
    ensures few { IsTrue result → (1 ≤ width) × (width ≤ 8) }
{
    matches!(width, 1 | 2 | 4 | 8)
}

/// Whether a scale or a chunk can have these sizes, in voxels, x first.
pub(crate) fn are_sizes(sizes: [u64; 3]) -> bool
    ensures { IsTrue result ↔ AreSizes sizes }
{
    let [x, y, z] = sizes;
    1 <= x.min(y).min(z) && x.max(y).max(z) <= 1 << 40
}

/// Whether a scale can begin there, in voxels, x first.
pub(crate) fn are_offsets(offset: [i64; 3]) -> bool
    ensures { IsTrue result ↔ AreOffsets offset }
{
    let x = offset[0].unsigned_abs();
    let y = offset[1].unsigned_abs();
    let z = offset[2].unsigned_abs();
    x.max(y).max(z) <= 1 << 40
}

// The voxels of the first cell.
fn count_voxels(size: [u64; 3], chunk: [u64; 3]) -> u128
    requires size { AreSizes size }
    ensures { result ≡ first_size size chunk 0 * first_size size chunk 1 * first_size size chunk 2 }
{
    let x = u128::from(chunk[0].min(size[0]));
    let y = u128::from(chunk[1].min(size[1]));
    let z = u128::from(chunk[2].min(size[2]));
    x * y * z
}

/// Whether the first cell has at most 2^27 bytes, for values of `width` bytes.
#[tactic(auto, using(crate::proofs::VoxelSteps::first_below))]
pub(crate) fn is_small(width: u32, channels: u32, size: [u64; 3], chunk: [u64; 3]) -> bool
    requires width { (1 ≤ width) × (width ≤ 8) }
    requires channels { (1 ≤ channels) × (channels ≤ 1024) }
    requires size { AreSizes size }
    ensures { IsTrue result ↔ first_bytes width channels size chunk ≤ 2 ^ 27 }
{
    let voxels = count_voxels(size, chunk);
    let most = 1 << 27;
    voxels <= most && voxels * u128::from(channels) * u128::from(width) <= most
}
