//! A scale of a volume, with its limits.
ghost use Rattle.std.specs.Prelude.{◌≡◌, ◌⊎◌, ℕ, List, ◌≤◌, ◌*◌, ◌+◌, ◌-◌, ◌/◌, ◌<◌, ◌^◌, All, length, min, nat_le, slice_index};
ghost use Rattle.std.specs.Option.{ForSome};
ghost use Rattle.vol_base.specs.Grids.{AreSizes, pairs};
ghost use Rattle.vol_spec.specs.Limits.{IsWidth, AreOffsets, IsSeg, AreBlocks, FitsChunk, first_bytes, cell_counts, rounded, padded_of, limit_of};

use crate::{ChunkSizes, Encoding, Sharding};
use vol_base::Name;

/// One scale of a volume (precomputed volume format, info metadata). Sizes and offsets are counted
/// in voxels, x first; `width` is the bytes of one value. An unsharded scale is stored once for `chunk` and once
/// for each of `more`.
#[derive(Debug, Drop)]
pub struct Scale {
    pub key: Name,
    pub width: u32,
    pub channels: u32,
    pub size: [u64; 3],
    pub offset: [i64; 3],
    pub chunk: [u64; 3],
    pub encoding: Encoding,
    pub sharding: Option<Sharding>,
    pub more: ChunkSizes,
    pub ghost key_ok: { length key ≤ 200 },
    pub ghost width_ok: { ∥ IsWidth width ∥₁ },
    pub ghost some_channels: { 1 ≤ channels },
    pub ghost channels_ok: { channels ≤ 1024 },
    pub ghost size_ok: { AreSizes size },
    pub ghost offset_ok: { AreOffsets offset },
    pub ghost chunk_ok: { AreSizes chunk },
    pub ghost first_ok: { first_bytes width channels size chunk ≤ 2 ^ 27 },
    pub ghost wide_ok: { (block : List ℕ) → IsSeg encoding block → ∥ (width ≡ 4) ⊎ (width ≡ 8) ∥₁ },
    pub ghost block_ok: { (block : List ℕ) → IsSeg encoding block → AreBlocks block },
    pub ghost padded_ok: { padded_of encoding channels size chunk ≤ 2 ^ 24 },
    pub ghost codes_ok: { ForSome sharding (λ _. length (pairs (cell_counts size chunk)) ≤ 64) },
    pub ghost more_ok: { All (FitsChunk width channels size encoding) more },
    pub ghost alone_ok: { ForSome sharding (λ _. length more ≡ 0) },
}

impl Scale {
    ghost use Rattle.vol_spec.specs.Views.{chunk_of, view};

    /// The same scale once more. It takes no memory.
    pub fn duplicate(&self) -> Scale
        ensures { result ≡ self.now }
    {
        Scale {
            key: self.key.duplicate(),
            width: self.width,
            channels: self.channels,
            size: self.size,
            offset: self.offset,
            chunk: self.chunk,
            encoding: self.encoding,
            sharding: self.sharding,
            more: self.more.duplicate(),
        }
    }

    // The chunk size of a view.
    fn size_of_view(&self, k: u32) -> [u64; 3]
        requires { k ≤ length self.now.more }
        ensures { result ≡ chunk_of self.now k }
    {
        if k == 0 {
            return self.chunk;
        }
        self.more.get(k - 1)
    }

    /// A view: the scale with the first of its chunk sizes alone for 0, and with the further ones after it. It takes
    /// no memory.
    pub fn view(&self, k: u32) -> Scale
        requires { k ≤ length self.now.more }
        ensures { result ≡ view self.now k }
    {
        Scale {
            key: self.key.duplicate(),
            width: self.width,
            channels: self.channels,
            size: self.size,
            offset: self.offset,
            chunk: self.size_of_view(k),
            encoding: self.encoding,
            sharding: self.sharding,
            more: ChunkSizes::none(),
        }
    }

    /// The bytes of the values of the first cell, which no other cell passes.
    pub fn raw_limit(&self) -> u64
        ensures { result ≡ first_bytes self.now.width self.now.channels self.now.size self.now.chunk }
    {
        let x = self.chunk[0].min(self.size[0]);
        let y = self.chunk[1].min(self.size[1]);
        let z = self.chunk[2].min(self.size[2]);
        product(x, y, z, self.channels) * u64::from(self.width)
    }

    /// The voxels of the first cell with each size rounded up to whole blocks, times the channels;
    /// 0 for raw chunks.
    pub fn padded(&self) -> u64
        ensures { result ≡ padded_of self.now.encoding self.now.channels self.now.size self.now.chunk }
    {
        match self.encoding {
            Encoding::Raw => 0,
            Encoding::Seg { block } => {
                let x = round_up(self.chunk[0].min(self.size[0]), block[0]);
                let y = round_up(self.chunk[1].min(self.size[1]), block[1]);
                let z = round_up(self.chunk[2].min(self.size[2]), block[2]);
                product(x, y, z, self.channels)
            }
        }
    }

    /// How many bytes a chunk has at most.
    pub fn chunk_limit(&self) -> u64
        ensures { result
            ≡ limit_of self.now.encoding self.now.width self.now.channels self.now.size self.now.chunk }
    {
        match self.encoding {
            Encoding::Raw => self.raw_limit(),
            Encoding::Seg { .. } => 4 * u64::from(self.channels) + 16 * self.padded(),
        }
    }

    /// Whether chunks of the scale can be encoded: always but for a segmentation of more than 2^22
    /// padded voxels times channels.
    pub fn can_encode(&self) -> bool
        ensures { result ≡ nat_le (padded_of self.now.encoding self.now.channels self.now.size self.now.chunk)
            (2 ^ 22) }
    {
        self.padded() <= 1 << 22
    }
}

// The voxels of a box, times the channels.
fn product(x: u64, y: u64, z: u64, channels: u32) -> u64
    requires x { 1 ≤ x }
    requires y { 1 ≤ y }
    requires z { 1 ≤ z }
    requires channels { 1 ≤ channels }
    requires fits { x * y * z * channels ≤ 2 ^ 27 }
    ensures { result ≡ x * y * z * channels }
{
    x * y * z * u64::from(channels)
}

// A size rounded up to whole blocks.
fn round_up(size: u64, block: u64) -> u64
    requires size { size ≤ 2 ^ 40 }
    requires some { 1 ≤ block }
    requires block { block ≤ 2 ^ 24 }
    ensures { result ≡ rounded size block }
{
    (size + block - 1) / block * block
}
