//! Codes and cells against a plain slow program.
ghost use Rattle.std.specs.Prelude.{◌≡◌, ◌≤◌, IfSome, IsTrue, length};
ghost use Rattle.vol_base.specs.Grids.{pairs};
ghost use Rattle.vol_spec.specs.Codes.{IsInGrid};

use morton_code::{cell, code};
use std::process::Abort;
use std::test::Fail;
use vol_base::Grid;

fn new_grid(size: [u64; 3]) -> Option<Grid>
    ensures { IfSome result (λ grid. (grid.size ≡ size) × (length (pairs grid.size) ≤ 64)) }
{
    let limits = 1..=1 << 40;
    if !(limits.contains(&size[0]) && limits.contains(&size[1]) && limits.contains(&size[2])) {
        return None;
    }
    let grid = Grid { size };
    if grid.bits() <= 64 { Some(grid) } else { None }
}

fn is_cell(size: [u64; 3], cell: [u64; 3]) -> bool
    ensures { IsTrue result → IsInGrid size cell }
{
    cell[0] < size[0] && cell[1] < size[1] && cell[2] < size[2]
}

// From the lowest bit on, the bits of x, y and z where the power of two is below the size.
fn slow_code(size: [u64; 3], cell: [u64; 3]) -> u128 {
    let mut code = 0;
    let mut place = 0u32;
    for step in 0..120 {
        let bit = step / 3;
        let axis = step % 3;
        if 1 << bit < size[axis] {
            let value = (cell[axis] >> bit) as u128 % 2;
            code |= value.wrapping_shl(place);
            place = place.wrapping_add(1);
        }
    }
    code
}

// The cell of a cell's code is that cell: the check proves it for every cell.
fn find_back(grid: &Grid, at: [u64; 3]) -> Option<[u64; 3]>
    requires bits { length (pairs grid.now.size) ≤ 64 }
    requires cell { IsInGrid grid.now.size at }
    ensures { result ≡ Some at }
{
    cell(grid, code(grid, at))
}

fn check_cell(rt: &impl Abort, grid: &Grid, at: [u64; 3])
    requires { length (pairs grid.now.size) ≤ 64 }
{
    assert!(rt; is_cell(grid.size, at));
    let found = code(grid, at);
    assert_eq!(rt;
        found as u128,
        slow_code(grid.size, at),
        "code of {at:?} in {:?}",
        grid.size
    );
    assert_eq!(rt; find_back(grid, at), Some(at));
}

fn check_code(rt: &impl Abort, grid: &Grid, wanted: u64)
    requires { length (pairs grid.now.size) ≤ 64 }
{
    if let Some(at) = cell(grid, wanted) {
        assert_eq!(rt; slow_code(grid.size, at), wanted as u128);
    }
}

const SMALL: &[[u64; 3]] = &[
    [1, 1, 1],
    [2, 2, 2],
    [5, 1, 3],
    [1, 7, 1],
    [3, 4, 5],
    [8, 8, 8],
    [9, 2, 16],
    [1, 1, 33],
    [17, 3, 6],
    [10, 11, 12],
];

// All cells of a small grid, and all numbers up to twice as many as it has codes.
fn check_small(rt: &impl Abort, size: [u64; 3]) -> Result<(), Fail> {
    let grid = new_grid(size).ok_or("grid")?;
    for z in 0..size[2] {
        for y in 0..size[1] {
            for x in 0..size[0] {
                check_cell(rt, &grid, [x, y, z]);
            }
        }
    }
    Ok(())
}

// Every number below a limit that has a cell is that cell's code, and there are as many as cells.
fn check_numbers(rt: &impl Abort, size: [u64; 3]) -> Result<(), Fail> {
    let grid = new_grid(size).ok_or("grid")?;
    let mut count = 0u64;
    for number in 0..1 << 14 {
        check_code(rt, &grid, number);
        if cell(&grid, number).is_some() {
            count = count.wrapping_add(1);
        }
    }
    let cells = size[0].wrapping_mul(size[1]).wrapping_mul(size[2]);
    assert_eq!(rt; count, cells, "codes of {size:?}");
    Ok(())
}

#[test]
fn has_all_codes_of_small_grids(rt: HostRuntime) -> Result<(), Fail> {
    for size in SMALL {
        check_small(&rt, *size)?;
        check_numbers(&rt, *size)?;
    }
    Ok(())
}

// How many bits the codes of a grid have.
fn check_bits(rt: &impl Abort, size: [u64; 3], wanted: u32) -> Result<(), Fail> {
    let grid = new_grid(size).ok_or("grid")?;
    assert_eq!(rt; grid.bits(), wanted);
    Ok(())
}

// The code of a cell.
fn check_code_of(rt: &impl Abort, size: [u64; 3], at: [u64; 3], wanted: u64) -> Result<(), Fail> {
    let grid = new_grid(size).ok_or("grid")?;
    assert!(rt; is_cell(grid.size, at));
    assert_eq!(rt; code(&grid, at), wanted);
    Ok(())
}

// The cell of a code, where it has one.
fn check_cell_of(
    rt: &impl Abort,
    size: [u64; 3],
    number: u64,
    wanted: Option<[u64; 3]>,
) -> Result<(), Fail> {
    let grid = new_grid(size).ok_or("grid")?;
    assert_eq!(rt; cell(&grid, number), wanted);
    Ok(())
}

#[test]
fn has_known_codes(rt: HostRuntime) -> Result<(), Fail> {
    check_bits(&rt, [5, 1, 3], 5)?;
    check_code_of(&rt, [5, 1, 3], [4, 0, 2], 24)?;
    check_cell_of(&rt, [5, 1, 3], 5, Some([3, 0, 0]))?;
    check_cell_of(&rt, [5, 1, 3], 22, None)?;
    check_code_of(&rt, [64, 64, 16], [1, 3, 0], 19)
}

#[test]
fn has_codes_of_64_bits(rt: HostRuntime) -> Result<(), Fail> {
    let size = [1 << 22, (1 << 21) - 3, 1 << 21];
    let grid = new_grid(size).ok_or("grid")?;
    assert_eq!(rt; grid.bits(), 64);
    let [x, y, z] = [size[0] - 1, size[1] - 1, size[2] - 1];
    let spots = [
        [0, 0, 0],
        [x, y, z],
        [x, 0, 0],
        [0, y, 0],
        [0, 0, z],
        [0x2a_aaaa, 0x0a_aaaa, 0x15_5555],
        [1 << 21, 1 << 20, 1],
    ];
    for at in spots {
        check_cell(&rt, &grid, at);
    }
    assert_eq!(rt; cell(&grid, u64::MAX), None);
    Ok(())
}

#[test]
fn has_one_code_of_one_cell(rt: HostRuntime) -> Result<(), Fail> {
    check_bits(&rt, [1, 1, 1], 0)?;
    check_code_of(&rt, [1, 1, 1], [0, 0, 0], 0)?;
    check_cell_of(&rt, [1, 1, 1], 0, Some([0, 0, 0]))?;
    for number in [1, 2, 1 << 63, u64::MAX] {
        check_cell_of(&rt, [1, 1, 1], number, None)?;
    }
    Ok(())
}
