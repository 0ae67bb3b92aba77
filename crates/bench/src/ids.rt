//! Sums of chunk ids and of hashes.
ghost use Rattle.std.specs.Prelude.{◌≡◌, ◌≤◌, IfSome, length};
ghost use Rattle.vol_base.specs.Grids.{pairs};

use morton_code::code;
use murmur_hash::hash8;
use vol_base::Grid;

// A grid that the limits allow, whose codes have at most 64 bits.
fn find_grid(size: [u64; 3]) -> Option<Grid>
    ensures { IfSome result (λ grid. length (pairs grid.size) ≤ 64) }
{
    for axis in 0..3 {
        if size[axis] < 1 || size[axis] > 1 << 40 {
            return None;
        }
    }
    let grid = Grid { size };
    if grid.bits() <= 64 { Some(grid) } else { None }
}

// The codes of so many cells of a grid, x fastest and from the begin again after the last.
fn sum_in(grid: &Grid, count: u64) -> u64
    requires { length (pairs grid.now.size) ≤ 64 }
{
    let [x, y, z] = grid.size;
    let mut sum = 0u64;
    for n in 0..count {
        let cell = [n % x, n / x % y, n / x / y % z];
        sum = sum.wrapping_add(code(grid, cell));
    }
    sum
}

/// The codes of so many cells of a grid of this size, or 0 where its codes are too long.
pub(crate) fn sum_codes(size: [u64; 3], count: u64) -> u64 {
    find_grid(size).map_or(0, |grid| sum_in(&grid, count))
}

/// The hashes of the numbers below the count.
pub(crate) fn sum_hashes(count: u64) -> u64 {
    let mut sum = 0u64;
    for n in 0..count {
        sum = sum.wrapping_add(hash8(n));
    }
    sum
}
