//! The layers of a box along z.
ghost use Rattle.std.specs.Prelude.{◌≡◌, ◌*◌, ◌<◌, ◌≤◌, ◌^◌, ◌+ℤ◌, pos};
ghost use Rattle.vol_base.specs.Boxes.{at, from_begin, size};
ghost use Rattle.chunk_grid.specs.Axes.{IsSmallOn};
ghost use Rattle.vol_spec.specs.Grid.{Inside, whole};
ghost use Rattle.vol_spec.specs.Raw.{raw_len};
ghost use Rattle.cutout.specs.Layers as Layers;

use chunk_grid::byte_len;
use vol_base::Box3;
use vol_spec::Scale;

// How far a part begins from the scale's lowest plane.
fn planes_before(scale: &Scale, part: &Box3) -> u64
    ensures { result ≡ from_begin (whole scale.now) part.now.begin 2 }
{
    part.begin[2].abs_diff(scale.offset[2])
}

// How many planes of a part lie below the cells of a number along z.
fn planes_below(scale: &Scale, part: &Box3, number: u64) -> u64
    requires { Inside scale.now part.now }
    ensures { result ≡ Layers.planes_below scale.now part.now number }
{
    let planes = number.saturating_mul(scale.chunk[2]);
    planes
        .saturating_sub(planes_before(scale, part))
        .min(part.size[2])
}

// Where a part begins on an axis.
fn begin_on(part: &Box3, axis: usize) -> i64
    requires { axis < 3 }
    ensures { result ≡ at part.now.begin axis }
{
    part.begin[axis]
}

// The place along z of a plane of a part.
fn place_of(part: &Box3, plane: u64) -> i64
    requires small { IsSmallOn part.now 2 }
    requires plane { plane ≤ size part.now 2 }
    ensures { result ≡ at part.now.begin 2 +ℤ pos plane }
{
    part.begin[2] + plane as i64
}

/// Does nothing: its clause says which positions the part below the cells of a number along z has.
pub fn tell_below(scale: &Scale, part: &Box3)
    requires { Inside scale.now part.now }
    ensures below { Layers.SplitsBelow scale.now part.now }
{}

/// The planes of a part in the cells of a number along z.
pub(crate) fn layer_at(scale: &Scale, part: &Box3, number: u64) -> Box3
    requires inside { Inside scale.now part.now }
    requires number { number < 2 ^ 41 }
    ensures { result ≡ Layers.layer scale.now part.now number }
{
    let from = planes_below(scale, part, number);
    let count = planes_below(scale, part, number + 1) - from;
    Box3 {
        begin: [begin_on(part, 0), begin_on(part, 1), place_of(part, from)],
        size: [part.size[0], part.size[1], count],
    }
}

/// The lowest number along z of the cells that meet a part.
pub(crate) fn first_layer(scale: &Scale, part: &Box3) -> u64
    requires { Inside scale.now part.now }
    ensures { result ≡ Layers.first_layer scale.now part.now }
{
    planes_before(scale, part) / scale.chunk[2]
}

/// One past the highest such number.
pub(crate) fn end_layer(scale: &Scale, part: &Box3) -> u64
    requires { Inside scale.now part.now }
    ensures value { result ≡ Layers.end_layer scale.now part.now }
    ensures small { result < 2 ^ 41 }
{
    (planes_before(scale, part) + part.size[2] - 1) / scale.chunk[2] + 1
}

/// How many bytes one channel of a layer of a part has at most.
pub(crate) fn layer_room(scale: &Scale, part: &Box3) -> u64
    requires inside { Inside scale.now part.now }
    requires limit { raw_len part.now scale.now.channels scale.now.width ≤ 2 ^ 30 }
    ensures { result ≡ Layers.layer_room scale.now part.now }
{
    let [x, y, z] = part.size;
    let highest = Box3 {
        begin: part.begin,
        size: [x, y, z.min(scale.chunk[2])],
    };
    byte_len(&highest, 1, scale.width) as u64
}
