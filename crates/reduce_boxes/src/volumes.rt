//! The values of a box, x fastest, then y, z and the channel.
ghost use Rattle.std.specs.Prelude.{◌≡◌, ◌*◌, ◌<◌, ◌≤◌, ◌^◌, length};
ghost use Rattle.vol_spec.specs.Limits.{IsWidth};
ghost use Rattle.reduce_laws.specs.declared.method.Method.{Method as Way};
ghost use Rattle.reduce_boxes.specs.Rows.{half};
ghost use Rattle.reduce_boxes.specs.Volumes.{AreReduced};

use crate::blocks::{Blocks, reduce_channels};
use crate::methods::{Means, Modes, Reduction};
use crate::widths::{Eight, Four, One, Two, Width};
use reduce_laws::Method;

// Reduces values of one width by one method.
fn reduce_values<W: Width, M: Reduction>(
    x: usize,
    y: usize,
    z: usize,
    channels: usize,
    from: &[u8],
    to: &mut [u8],
)
    requires y { 0 < y }
    requires z { 0 < z }
    requires channels { 0 < channels }
    requires from { length from.now ≡ W.width * x * y * z * channels }
    requires to { length to.old ≡ W.width * half x * half y * half z * channels }
    requires small { length from.now ≤ 2 ^ 30 }
    requires small_to { length to.old ≤ 2 ^ 30 }
    requires short { x ≤ 2 ^ 30 }
    requires rows { y ≤ 2 ^ 30 }
    requires planes { z ≤ 2 ^ 30 }
    ensures { AreReduced M.method W.width x y z channels from.now to.new }
{
    let row = W::width() * x;
    let plane = row * y;
    let volume = plane * z;
    let to_row = W::width() * ((x + 1) / 2);
    let to_plane = to_row * ((y + 1) / 2);
    let to_volume = to_plane * ((z + 1) / 2);
    let rows = Blocks {
        count: y,
        len: row,
        to_len: to_row,
    };
    let planes = Blocks {
        count: z,
        len: plane,
        to_len: to_plane,
    };
    let volumes = Blocks {
        count: channels,
        len: volume,
        to_len: to_volume,
    };
    reduce_channels::<W, M>(x, &rows, &planes, &volumes, from, to);
}

// Reduces values of one width.
fn reduce_by<W: Width>(
    method: Method,
    x: usize,
    y: usize,
    z: usize,
    channels: usize,
    from: &[u8],
    to: &mut [u8],
)
    requires y { 0 < y }
    requires z { 0 < z }
    requires channels { 0 < channels }
    requires from { length from.now ≡ W.width * x * y * z * channels }
    requires to { length to.old ≡ W.width * half x * half y * half z * channels }
    requires small { length from.now ≤ 2 ^ 30 }
    requires small_to { length to.old ≤ 2 ^ 30 }
    requires short { x ≤ 2 ^ 30 }
    requires rows { y ≤ 2 ^ 30 }
    requires planes { z ≤ 2 ^ 30 }
    ensures { AreReduced method W.width x y z channels from.now to.new }
{
    match method {
        Method::Mode => reduce_values::<W, Modes>(x, y, z, channels, from, to),
        Method::Mean => reduce_values::<W, Means>(x, y, z, channels, from, to),
    }
}

/// Reduces the values of a box, each of `width` bytes, to half the size on each axis, rounded up.
pub fn reduce_volume_of(
    method: Method,
    width: u32,
    x: usize,
    y: usize,
    z: usize,
    channels: usize,
    from: &[u8],
    to: &mut [u8],
)
    requires width { ∥ IsWidth width ∥₁ }
    requires y { 0 < y }
    requires z { 0 < z }
    requires channels { 0 < channels }
    requires from { length from.now ≡ width * x * y * z * channels }
    requires to { length to.old ≡ width * half x * half y * half z * channels }
    requires small { length from.now ≤ 2 ^ 30 }
    requires small_to { length to.old ≤ 2 ^ 30 }
    requires short { x ≤ 2 ^ 30 }
    requires rows { y ≤ 2 ^ 30 }
    requires planes { z ≤ 2 ^ 30 }
    ensures { AreReduced method width x y z channels from.now to.new }
{
    if width == 1 {
        reduce_by::<One>(method, x, y, z, channels, from, to);
    } else if width == 2 {
        reduce_by::<Two>(method, x, y, z, channels, from, to);
    } else if width == 4 {
        reduce_by::<Four>(method, x, y, z, channels, from, to);
    } else if width == 8 {
        reduce_by::<Eight>(method, x, y, z, channels, from, to);
    } else {
        unreachable!()
    }
}
