//! Worked examples.

ghost use Rattle.std.specs.Prelude.{◌≤◌, ◌<◌, length};
ghost use Rattle.vol_spec.specs.Grid.{Inside, IsCell};

use chunk_grid::*;
use small_scales::{raw_scale, short_name};
use std::process::Abort;
use vol_base::{Box3, Name};
use vol_spec::Scale;

// The box of the last cell that meets the part.
fn last_box(scale: &Scale, part: &Box3) -> Box3
    requires { Inside scale.now part.now }
{
    let mut last = *part;
    for cell in cells(scale, part) {
        last = cell_box(scale, cell);
    }
    last
}

// Whether two boxes have a position in common.
fn overlap(a: &Box3, b: &Box3) -> bool {
    for axis in 0..3 {
        let begin = a.begin[axis].max(b.begin[axis]);
        let a_end = a.begin[axis] as i128 + a.size[axis] as i128;
        let b_end = b.begin[axis] as i128 + b.size[axis] as i128;
        if begin as i128 >= a_end.min(b_end) {
            return false;
        }
    }
    true
}

// Whether a cell meets a part.
fn meets(scale: &Scale, part: &Box3, cell: [u64; 3]) -> bool
    requires { IsCell scale.now cell }
{
    overlap(&cell_box(scale, cell), part)
}

// The walk over a part against a slow one over all cells.
fn check_cells(rt: &impl Abort, scale: &Scale, part: &Box3) {
    assert!(rt; inside(scale, part));
    let [columns, rows, planes] = grid(scale).size;
    let mut walk = cells(scale, part);
    let mut count = 0u128;
    for z in 0..planes {
        for y in 0..rows {
            for x in 0..columns {
                if meets(scale, part, [x, y, z]) {
                    assert!(rt; walk.next() == Some([x, y, z]));
                    count = count.wrapping_add(1);
                }
            }
        }
    }
    assert!(rt; walk.next().is_none());
    assert_eq!(rt; count_cells(scale, part), count);
}

fn part(begin: [i64; 3], size: [u64; 3]) -> Box3 {
    Box3 { begin, size }
}

// The raw scale of a byte a voxel.
fn scale_of(rt: &impl Abort, size: [u64; 3], offset: [i64; 3], chunk: [u64; 3]) -> Scale {
    let key = short_name(b"s").expect(rt, "a key");
    raw_scale(key, 1, 1, size, offset, chunk).expect(rt, "a scale")
}

// The size, the offset and the chunk size of a scale.
const SHAPES: &[([u64; 3], [i64; 3], [u64; 3])] = &[
    ([5, 1, 3], [-3, 0, 2], [2, 2, 2]),
    ([5, 1, 3], [-3, 0, 2], [1, 1, 1]),
    ([7, 4, 2], [0, -9, 5], [3, 2, 5]),
];

// The walks over the whole scale, its first voxel, and a row of three.
fn check_walks(rt: &impl Abort, scale: &Scale) {
    let [x, y, z] = scale.offset;
    check_cells(rt, scale, &whole(scale));
    check_cells(rt, scale, &part([x, y, z], [1, 1, 1]));
    let middle = [x.wrapping_add(1), y, z.wrapping_add(1)];
    check_cells(rt, scale, &part(middle, [3, 1, 1]));
}

#[test]
fn walks_over_the_cells_of_a_part(rt: HostRuntime) {
    for (size, offset, chunk) in SHAPES {
        check_walks(&rt, &scale_of(&rt, *size, *offset, *chunk));
    }
}

// A box, and whether the scale has it.
const BOXES: &[([i64; 3], [u64; 3], bool)] = &[
    ([-3, 0, 2], [5, 1, 3], true),
    ([-3, 0, 2], [5, 1, 4], false),
    ([-4, 0, 2], [1, 1, 1], false),
    ([-3, 0, 2], [1, 0, 1], false),
    ([1, 0, 4], [1, 1, 1], true),
    ([i64::MIN, 0, 2], [u64::MAX, 1, 1], false),
    ([i64::MAX, 0, 2], [u64::MAX, 1, 1], false),
];

#[test]
fn finds_cells_and_boxes(rt: HostRuntime) {
    let scale = scale_of(&rt, [5, 1, 3], [-3, 0, 2], [2, 2, 2]);
    assert_eq!(rt; grid(&scale).size, [3, 1, 2]);
    assert_eq!(rt; whole(&scale), part([-3, 0, 2], [5, 1, 3]));
    for (begin, size, is_inside) in BOXES {
        assert_eq!(rt; inside(&scale, &part(*begin, *size)), *is_inside);
    }
    let last = last_box(&scale, &whole(&scale));
    assert_eq!(rt; last, part([1, 0, 4], [1, 1, 1]));
}

#[test]
fn counts_bytes_and_places(rt: HostRuntime) {
    let b = Box3 {
        begin: [-3, 0, 2],
        size: [5, 1, 3],
    };
    assert_eq!(rt; local_index(&b, [-1, 0, 4], 3), 57);
    assert_eq!(rt; byte_len(&b, 2, 8), 240);
    let most = part([0, 0, 0], [u64::MAX, u64::MAX, 2]);
    assert_eq!(rt; byte_len(&most, 1, 1), u128::MAX);
    assert_eq!(rt; byte_len(&most, 0, 1), 0);
}

// The name of a cell's object against what is wanted.
fn check_name(rt: &impl Abort, dataset: &Name, scale: &Scale, cell: [u64; 3], wanted: &str)
    requires { length dataset.now ≤ 200 }
{
    let [x, y, z] = grid(scale).size;
    assert!(rt; cell[0] < x && cell[1] < y && cell[2] < z);
    let name = object_name(dataset, scale, cell);
    assert_eq!(rt; name.as_bytes(), wanted.as_bytes());
}

// The size, the offset and the chunk size of a scale, a cell of it, and the name of its object.
const NAMES: &[([u64; 3], [i64; 3], [u64; 3], [u64; 3], &str)] = &[
    (
        [4, 1, 1],
        [-3, 0, 0],
        [64, 64, 64],
        [0, 0, 0],
        "d/s/-3-1_0-1_0-1",
    ),
    (
        [5, 1, 3],
        [-10, 0, 99],
        [2, 1, 2],
        [2, 0, 1],
        "d/s/-6--5_0-1_101-102",
    ),
    (
        [1, 1, 1],
        [-1, 0, 0],
        [64, 64, 64],
        [0, 0, 0],
        "d/s/-1-0_0-1_0-1",
    ),
];

#[test]
fn names_objects(rt: HostRuntime) {
    let dataset = short_name(b"d").expect(&rt, "a data set");
    for (size, offset, chunk, cell, wanted) in NAMES {
        let scale = scale_of(&rt, *size, *offset, *chunk);
        check_name(&rt, &dataset, &scale, *cell, wanted);
    }
}
