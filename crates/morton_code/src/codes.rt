//! The code of a cell, and the cell of a code.
ghost use Rattle.std.specs.Prelude.{◌≡◌, ◌+◌, ◌*◌, ◌/◌, ◌%◌, ◌<◌, ◌≤◌, ◌^◌, ℕ, List, length, slice_index, nat_lt, IfSome, Some, if◌then◌else◌, IsTrue, ◌↔◌};
ghost use Rattle.vol_base.specs.Grids.{pairs};
ghost use Rattle.vol_spec.specs.Codes.{IsInGrid, code_of};

use vol_base::Grid;

// How many bits the numbers below a size have.
fn bits_below(size: u64) -> u32
    requires some { 1 ≤ size }
    requires limit { size ≤ 2 ^ 40 }
    ensures small { result ≤ 40 }
    ensures size { size ≤ 2 ^ result }
{
    u64::BITS - (size - 1).leading_zeros()
}

// How many bits the largest coordinate of the grid has: no axis has a bit from there on.
fn count_bits(grid: &Grid) -> u32
    ensures small { result ≤ 40 }
    ensures sizes { (axis : ℕ) → axis < 3 → slice_index grid.now.size axis ≤ 2 ^ result }
{
    let [x, y, z] = grid.size;
    bits_below(x.max(y).max(z))
}

// A code with the coordinate's bit put below its bits, where the bit counts.
fn put_below(code: u64, size: u64, coordinate: u64, bit: u32) -> u64
    requires { bit < 40 }
    ensures { result ≡ (if nat_lt (2 ^ bit) size then (coordinate / 2 ^ bit % 2 + 2 * code) % 2 ^ 64
        else code) }
{
    if 1 << bit < size {
        code.wrapping_mul(2).wrapping_add((coordinate >> bit) % 2)
    } else {
        code
    }
}

/// The compressed Morton code of a cell (precomputed volume format, sharded format, chunk ids):
/// over the bits from the lowest on, and for each over x, y and z, the cell's bit is the next
/// bit of the code where 2^bit is less than the grid's size on the axis. Codes of two cells differ.
pub fn code(grid: &Grid, cell: [u64; 3]) -> u64
    requires bits { length (pairs grid.now.size) ≤ 64 }
    requires cell { IsInGrid grid.now.size cell }
    ensures { result ≡ code_of grid.now.size cell }
{
    let [size_x, size_y, size_z] = grid.size;
    let [x, y, z] = cell;
    let mut code = 0;
    for bit in (0..count_bits(grid)).rev() {
        code = put_below(code, size_z, z, bit);
        code = put_below(code, size_y, y, bit);
        code = put_below(code, size_x, x, bit);
    }
    code
}

// What is left of a code, and the bits of a coordinate that were taken.
#[derive(Clone, Copy)]
struct Taken {
    rest: u64,
    coordinate: u64,
}

// Takes the lowest bit of the rest, where the bit counts.
fn take_lowest(rest: u64, size: u64, coordinate: u64, bit: u32) -> Taken
    requires bit { bit < 40 }
    requires coordinate { coordinate < 2 ^ bit }
    ensures { result ≡ (if nat_lt (2 ^ bit) size then
        (record { rest = rest / 2; coordinate = coordinate + 2 ^ bit * (rest % 2) })
        else record { rest = rest; coordinate = coordinate }) }
{
    if 1 << bit < size {
        Taken {
            rest: rest / 2,
            coordinate: coordinate + ((rest % 2) << bit),
        }
    } else {
        Taken { rest, coordinate }
    }
}

fn is_inside(grid: &Grid, cell: [u64; 3]) -> bool
    ensures { IsTrue result ↔ IsInGrid grid.now.size cell }
{
    cell[0] < grid.size[0] && cell[1] < grid.size[1] && cell[2] < grid.size[2]
}

// Whether the cell is in the grid and has the code.
fn has_code(grid: &Grid, cell: [u64; 3], wanted: u64) -> bool
    requires { length (pairs grid.now.size) ≤ 64 }
    ensures { IsTrue result ↔ (IsInGrid grid.now.size cell × (code_of grid.now.size cell ≡ wanted)) }
{
    is_inside(grid, cell) && code(grid, cell) == wanted
}

/// The cell that has a code, or None where no cell of the grid has it.
pub fn cell(grid: &Grid, code: u64) -> Option<[u64; 3]>
    requires bits { length (pairs grid.now.size) ≤ 64 }
    ensures found { IfSome result (λ cell. IsInGrid grid.now.size cell ×
        (code_of grid.now.size cell ≡ code)) }
    ensures only { (cell : List ℕ) → IsInGrid grid.now.size cell → code_of grid.now.size cell ≡ code →
        result ≡ Some cell }
{
    let mut rest = code;
    let mut x = 0;
    let mut y = 0;
    let mut z = 0;
    for bit in 0..count_bits(grid) {
        let taken_x = take_lowest(rest, grid.size[0], x, bit);
        let taken_y = take_lowest(taken_x.rest, grid.size[1], y, bit);
        let taken_z = take_lowest(taken_y.rest, grid.size[2], z, bit);
        x = taken_x.coordinate;
        y = taken_y.coordinate;
        z = taken_z.coordinate;
        rest = taken_z.rest;
    }
    let cell = [x, y, z];
    if has_code(grid, cell, code) {
        Some(cell)
    } else {
        None
    }
}
