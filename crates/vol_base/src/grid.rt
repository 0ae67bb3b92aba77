//! The grid of a scale's cells.
ghost use Rattle.std.specs.Prelude.{◌≡◌, ◌<◌, ◌^◌, length, nat_lt, if◌then◌else◌};
ghost use Rattle.vol_base.specs.Grids.{AreSizes, pairs};

/// How many cells there are on each axis, x first: 1 to 2^40.
#[derive(Clone, Copy, Debug, PartialEq, Eq)]
pub struct Grid {
    pub size: [u64; 3],
    ghost size_ok: { AreSizes size },
}

// 1 where the bit counts on an axis of this size.
fn counts(size: u64, bit: u32) -> u32
    requires { bit < 40 }
    ensures { result ≡ (if nat_lt (2 ^ bit) size then 1 else 0) }
{
    if 1 << bit < size { 1 } else { 0 }
}

impl Grid {
    /// The number of bits of a cell's compressed Morton code, at most 120.
    pub fn bits(&self) -> u32
        ensures { result ≡ length (pairs self.now.size) }
    {
        let mut count = 0;
        for bit in 0..40 {
            let x = counts(self.size[0], bit);
            let y = counts(self.size[1], bit);
            let z = counts(self.size[2], bit);
            count += x + y + z;
        }
        count
    }
}
