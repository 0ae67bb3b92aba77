//! The shape of a segmentation chunk, with its limits.
ghost use Rattle.std.specs.Prelude.{◌≤◌, ◌^◌};
ghost use Rattle.vol_base.specs.Grids.{AreSizes};
ghost use Rattle.vol_spec.specs.Limits.{AreBlocks, first_bytes, padded_voxels};
ghost use Rattle.vol_spec.specs.SegSizes.{width_of};

/// A chunk of `size` voxels on each axis, x first, in blocks of `block` voxels (precomputed volume
/// format, compressed_segmentation encoding). `wide` means values of 8 bytes, else of 4. The sizes
/// are those of the chunk, clipped to its scale.
#[derive(Clone, Copy, Debug, PartialEq, Eq)]
pub struct SegShape {
    pub size: [u64; 3],
    pub block: [u64; 3],
    pub channels: u32,
    pub wide: bool,
    pub ghost size_ok: { AreSizes size },
    pub ghost block_ok: { AreBlocks block },
    pub ghost some_channels: { 1 ≤ channels },
    pub ghost channels_ok: { channels ≤ 1024 },
    pub ghost padded_ok: { padded_voxels block channels size size ≤ 2 ^ 24 },
    pub ghost raw_ok: { first_bytes (width_of wide) channels size size ≤ 2 ^ 27 },
}
