//! Copies by rows, planes and volumes. An array is blocks of one length, one after another.
ghost use Rattle.std.specs.Prelude.{◌≡◌, ◌+◌, ◌*◌, ◌<◌, ◌≤◌, ◌^◌, ◌⊎◌, ℕ, [], ◌∷◌, length, slice_index};
ghost use Rattle.voxel_raw.specs.Blocks.{Copied, FitsFrom, FitsTo};

use crate::source::Source;

/// Bytes that lie side by side.
#[derive(Clone, Copy)]
pub(crate) struct Run {
    pub from: usize,
    pub to: usize,
    pub len: usize,
}

/// Blocks of one length, in the source and in the target.
#[derive(Clone, Copy)]
pub(crate) struct Axis {
    pub from: usize,
    pub from_stride: usize,
    pub to: usize,
    pub to_stride: usize,
    pub count: usize,
}

fn put_run<S: Source + Drop>(run: &Run, from: &S, to: &mut [u8])
    requires source { FitsFrom run.now [] (length (S.bytes from.now)) }
    requires target { FitsTo run.now [] (length to.old) }
    ensures { Copied run.now [] (S.bytes from.now) to.old to.new }
{
    put_bytes(from, run.from, to, run.to, run.len);
}

fn put_bytes<S: Source + Drop>(from: &S, at: usize, to: &mut [u8], to_at: usize, len: usize)
    requires source { at + len ≤ length (S.bytes from.now) }
    requires target { to_at + len ≤ length to.old }
    ensures copied { (k : ℕ) → k < len → slice_index to.new (to_at + k)
        ≡ slice_index (S.bytes from.now) (at + k) }
    ensures kept { (i : ℕ) → (i < to_at) ⊎ (to_at + len ≤ i) → slice_index to.new i ≡ slice_index to.old i }
{
    from.part(at, len).put(&mut to[to_at..to_at + len]);
}

fn put_plane<S: Source + Drop>(y: &Axis, run: &Run, from: &S, to: &mut [u8])
    requires small { length (S.bytes from.now) ≤ 2 ^ 30 }
    requires source { FitsFrom run.now (y.now ∷ []) (length (S.bytes from.now)) }
    requires target { FitsTo run.now (y.now ∷ []) (length to.old) }
    ensures { Copied run.now (y.now ∷ []) (S.bytes from.now) to.old to.new }
{
    for i in 0..y.count {
        let f = (y.from + i) * y.from_stride;
        let t = (y.to + i) * y.to_stride;
        let row = from.part(f, y.from_stride);
        put_run(run, &row, &mut to[t..t + y.to_stride]);
    }
}

fn put_volume<S: Source + Drop>(z: &Axis, y: &Axis, run: &Run, from: &S, to: &mut [u8])
    requires small { length (S.bytes from.now) ≤ 2 ^ 30 }
    requires source { FitsFrom run.now (z.now ∷ y.now ∷ []) (length (S.bytes from.now)) }
    requires target { FitsTo run.now (z.now ∷ y.now ∷ []) (length to.old) }
    ensures { Copied run.now (z.now ∷ y.now ∷ []) (S.bytes from.now) to.old to.new }
{
    for i in 0..z.count {
        let f = (z.from + i) * z.from_stride;
        let t = (z.to + i) * z.to_stride;
        let plane = from.part(f, z.from_stride);
        put_plane(y, run, &plane, &mut to[t..t + z.to_stride]);
    }
}

/// Puts the run of each row of each plane of each channel from the source over its place in `to`.
pub(crate) fn put_channels<S: Source + Drop>(
    c: &Axis,
    z: &Axis,
    y: &Axis,
    run: &Run,
    from: &S,
    to: &mut [u8],
)
    requires small { length (S.bytes from.now) ≤ 2 ^ 30 }
    requires source { FitsFrom run.now (c.now ∷ z.now ∷ y.now ∷ []) (length (S.bytes from.now)) }
    requires target { FitsTo run.now (c.now ∷ z.now ∷ y.now ∷ []) (length to.old) }
    ensures { Copied run.now (c.now ∷ z.now ∷ y.now ∷ []) (S.bytes from.now) to.old to.new }
{
    for i in 0..c.count {
        let f = (c.from + i) * c.from_stride;
        let t = (c.to + i) * c.to_stride;
        let volume = from.part(f, c.from_stride);
        put_volume(z, y, run, &volume, &mut to[t..t + c.to_stride]);
    }
}
