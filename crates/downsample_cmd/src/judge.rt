//! Whether a scale is the next one.
ghost use Rattle.std.specs.Prelude.{◌≡◌, ◌&&◌, ◌+◌, ◌/◌, ◌↔◌, IsTrue, MatchOption};
ghost use Rattle.reduce_laws.specs.Halves.{twice};
ghost use Rattle.reduce_laws.specs.Reduced.{IsNext};
ghost use Rattle.downsample_cmd.specs.Judging.{DiffersNext, HasHalfSize, HasTwiceOffset};

use info_doc::Item;
use vol_spec::Scale;

// Whether a size is half another, rounded up.
fn is_half(size: u64, half: u64) -> bool
    ensures { IsTrue result ↔ (half ≡ (size + 1) / 2) }
{
    half == size / 2 + size % 2
}

// Whether a coordinate is twice another.
fn is_twice(double: i64, single: i64) -> bool
    ensures { IsTrue result ↔ (double ≡ twice single) }
{
    let single = i128::from(single);
    i128::from(double) == single + single
}

fn are_all(x: bool, y: bool, z: bool) -> bool
    ensures { result ≡ (x && y && z) }
{
    x && y && z
}

// Whether a scale has half the size of another on each axis, rounded up.
fn has_half_size(from: &Scale, to: &Scale) -> bool
    ensures { IsTrue result ↔ HasHalfSize from.now to.now }
{
    let x = is_half(from.size[0], to.size[0]);
    let y = is_half(from.size[1], to.size[1]);
    let z = is_half(from.size[2], to.size[2]);
    are_all(x, y, z)
}

// Whether a scale begins at twice the begin of another on each axis.
fn has_twice_offset(from: &Scale, to: &Scale) -> bool
    ensures { IsTrue result ↔ HasTwiceOffset from.now to.now }
{
    let x = is_twice(from.offset[0], to.offset[0]);
    let y = is_twice(from.offset[1], to.offset[1]);
    let z = is_twice(from.offset[2], to.offset[2]);
    are_all(x, y, z)
}

/// The first item in which a scale isn't the next one after another; none where it is.
pub(crate) fn find_difference(from: &Scale, to: &Scale) -> Option<Item>
    ensures { MatchOption result (IsNext from.now to.now) (DiffersNext from.now to.now) }
{
    if !has_half_size(from, to) {
        return Some(Item::Size);
    }
    if !has_twice_offset(from, to) {
        return Some(Item::VoxelOffset);
    }
    if from.width != to.width {
        return Some(Item::DataType);
    }
    if from.channels != to.channels {
        return Some(Item::NumChannels);
    }
    None
}
