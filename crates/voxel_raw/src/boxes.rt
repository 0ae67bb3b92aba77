//! Copies of boxes.
ghost use Rattle.std.specs.Prelude.{◌≡◌, ◌+◌, ◌*◌, ◌<◌, ◌≤◌, ◌^◌, ◌⊎◌, ◌≤ℤ◌, ◌<ℤ◌, ◌↔◌, ℕ, ℤ, List, [], ◌∷◌, length, slice_index, replicate, IsTrue};
ghost use Rattle.vol_base.specs.Boxes as Boxes;
ghost use Rattle.vol_base.specs.Boxes.{IsSome};
ghost use Rattle.voxel_raw.specs.Blocks.{Copied, FitsFrom, FitsTo};
ghost use Rattle.voxel_raw.specs.Copies.{Holds, HasValues, HasZeros, KeepsRest};
ghost use Rattle.voxel_raw.specs.Places.{IsPlace, run_of, axes_of};

use crate::axes::{Axis, Run, put_channels};
use crate::source::{Source, Stored, Zeros};
use vol_base::Box3;

/// Where a part lies in the bytes of a box.
#[derive(Clone, Copy)]
pub(crate) struct Place {
    pub x: usize,
    pub y: usize,
    pub z: usize,
    pub row: usize,
    pub plane: usize,
    pub volume: usize,
}

// Whether the values of a part have any bytes.
fn has_bytes(part: &Box3, channels: u32, width: u32) -> bool
    ensures { IsTrue result ↔ (IsSome part.now × (0 < channels) × (0 < width)) }
{
    part.size[0] > 0 && part.size[1] > 0 && part.size[2] > 0 && channels > 0 && width > 0
}

fn offset(outer: &Box3, inner: &Box3, axis: usize) -> usize
    requires axis { axis < 3 }
    requires low { Boxes.at outer.now.begin axis ≤ℤ Boxes.at inner.now.begin axis }
    ensures { result ≡ Boxes.from_begin outer.now inner.now.begin axis }
{
    (inner.begin[axis] as i128 - outer.begin[axis] as i128) as usize
}

fn find_place(b: &Box3, part: &Box3, channels: usize, w: usize, len: usize) -> Place
    requires holds { Holds b.now part.now channels w len }
    requires some { IsSome part.now }
    requires channels { 0 < channels }
    requires width { 0 < w }
    ensures { IsPlace b.now part.now w result }
{
    let row = w * b.size[0] as usize;
    let plane = row * b.size[1] as usize;
    let volume = plane * b.size[2] as usize;
    Place {
        x: w * offset(b, part, 0),
        y: offset(b, part, 1),
        z: offset(b, part, 2),
        row,
        plane,
        volume,
    }
}

fn put_places<S: Source + Drop>(
    from: &S,
    at: &Place,
    to: &mut [u8],
    to_at: &Place,
    size: &[usize; 3],
    channels: usize,
    w: usize,
)
    requires small { length (S.bytes from.now) ≤ 2 ^ 30 }
    requires source { FitsFrom (run_of at.now to_at.now size.now w)
        (axes_of at.now to_at.now size.now channels) (length (S.bytes from.now)) }
    requires target { FitsTo (run_of at.now to_at.now size.now w) (axes_of at.now to_at.now size.now channels)
        (length to.old) }
    requires row { w * slice_index size.now 0 ≤ at.now.row }
    ensures { Copied (run_of at.now to_at.now size.now w) (axes_of at.now to_at.now size.now channels)
        (S.bytes from.now) to.old to.new }
{
    let run = Run {
        from: at.x,
        to: to_at.x,
        len: w * size[0],
    };
    let y = Axis {
        from: at.y,
        from_stride: at.row,
        to: to_at.y,
        to_stride: to_at.row,
        count: size[1],
    };
    let z = Axis {
        from: at.z,
        from_stride: at.plane,
        to: to_at.z,
        to_stride: to_at.plane,
        count: size[2],
    };
    let c = Axis {
        from: 0,
        from_stride: at.volume,
        to: 0,
        to_stride: to_at.volume,
        count: channels,
    };
    put_channels(&c, &z, &y, &run, from, to);
}

// Puts a source of the length of a box's raw bytes into the part of another.
fn put_box<S: Source + Drop>(
    from: &S,
    from_box: &Box3,
    to: &mut [u8],
    to_box: &Box3,
    part: &Box3,
    channels: u32,
    width: u32,
)
    requires source { Holds from_box.now part.now channels width (length (S.bytes from.now)) }
    requires target { Holds to_box.now part.now channels width (length to.old) }
    ensures values { HasValues from_box.now to_box.now part.now channels width (S.bytes from.now) to.new }
    ensures rest { KeepsRest to_box.now part.now channels width to.old to.new }
{
    if !has_bytes(part, channels, width) {
        return;
    }
    let w = width as usize;
    let count = channels as usize;
    let at = find_place(from_box, part, count, w, from.len());
    let to_at = find_place(to_box, part, count, w, to.len());
    let size = [
        part.size[0] as usize,
        part.size[1] as usize,
        part.size[2] as usize,
    ];
    put_places(from, &at, to, &to_at, &size, count, w);
}

/// Copies the values of a part, in all channels, from the raw bytes of one box to those of another
/// (precomputed volume format, raw chunk encoding); `width` is the bytes of one value.
/// All other bytes of `to` stay.
pub fn copy_box(
    from: &[u8],
    from_box: &Box3,
    to: &mut [u8],
    to_box: &Box3,
    part: &Box3,
    channels: u32,
    width: u32,
)
    requires source { Holds from_box.now part.now channels width (length from.now) }
    requires target { Holds to_box.now part.now channels width (length to.old) }
    ensures values { HasValues from_box.now to_box.now part.now channels width from.now to.new }
    ensures rest { KeepsRest to_box.now part.now channels width to.old to.new }
{
    put_box(
        &Stored { bytes: from },
        from_box,
        to,
        to_box,
        part,
        channels,
        width,
    );
}

/// Sets the values of a part to zero, in all channels, in the raw bytes of a box; `width` is the
/// bytes of one value. All other bytes of `to` stay.
pub fn fill_box(to: &mut [u8], to_box: &Box3, part: &Box3, channels: u32, width: u32)
    requires { Holds to_box.now part.now channels width (length to.old) }
    ensures zeros { HasZeros to_box.now part.now channels width to.new }
    ensures rest { KeepsRest to_box.now part.now channels width to.old to.new }
{
    let zeros = Zeros { len: to.len() };
    put_box(&zeros, to_box, to, to_box, part, channels, width);
}
