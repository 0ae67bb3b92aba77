//! Where the values of a box lie.

ghost use Rattle.std.specs.Prelude.{◌≡◌, ◌<◌, ◌-◌, ◌^◌, min};
ghost use Rattle.vol_base.specs.Boxes.{Covers, from_begin, num, size, voxels};
ghost use Rattle.vol_spec.specs.Raw.{raw_len};

use vol_base::Box3;

// How far a position of the part is from the part's begin on an axis.
fn place_on(part: &Box3, p: [i64; 3], axis: usize) -> u64
    requires axis { axis < 3 }
    requires position { Covers part.now p }
    ensures place { result ≡ from_begin part.now p axis }
    ensures below { result < size part.now axis }
{
    p[axis].abs_diff(part.begin[axis])
}

/// The number of a voxel's value among those of the part: x fastest, then y, then z, then the
/// channel (precomputed volume format, raw chunk encoding).
pub fn local_index(part: &Box3, p: [i64; 3], c: u32) -> u64
    requires position { Covers part.now p }
    requires channel { c < 1024 }
    requires small { voxels part.now < 2 ^ 40 }
    ensures { result ≡ num part.now p c }
{
    let x = place_on(part, p, 0);
    let y = place_on(part, p, 1);
    let z = place_on(part, p, 2);
    x + part.size[0] * (y + part.size[1] * (z + part.size[2] * c as u64))
}

/// How many bytes the values of the part have, or 2^128 - 1 where there are more.
pub fn byte_len(part: &Box3, channels: u32, width: u32) -> u128
    ensures { result ≡ min (raw_len part.now channels width) (2 ^ 128 - 1) }
{
    let [x, y, z] = part.size;
    (x as u128)
        .saturating_mul(y as u128)
        .saturating_mul(z as u128)
        .saturating_mul(channels as u128)
        .saturating_mul(width as u128)
}
