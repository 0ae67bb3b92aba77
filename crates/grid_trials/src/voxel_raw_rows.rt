//! Copies against a plain program that looks at each byte by itself, and lengths of chunks.
ghost use Rattle.std.specs.Prelude.{◌≡◌, ◌<◌, ◌≤◌, ◌≤ℤ◌, IsTrue, IfOk, IfSome};
ghost use Rattle.vol_base.specs.Boxes.{Within, at, end};
ghost use Rattle.vol_spec.specs.Raw.{raw_len};
ghost use Rattle.voxel_raw.specs.Copies.{Holds};

use std::process::Abort;
use std::test::Fail;
use vol_base::{Box3, ChunkFault};
use voxel_raw::{check_len, copy_box, fill_box};

#[derive(Clone, Copy)]
struct Case {
    from_box: Box3,
    to_box: Box3,
    part: Box3,
    channels: u32,
    width: u32,
}

const CELL: Box3 = Box3 {
    begin: [-3, 0, 2],
    size: [5, 4, 3],
};

const CUTOUT: Box3 = Box3 {
    begin: [-1, 1, 1],
    size: [4, 2, 3],
};

const EMPTY: Box3 = Box3 {
    begin: [0, 1, 2],
    size: [2, 0, 1],
};

// The common part of the cell and the cutout.
fn meeting(channels: u32, width: u32) -> Case {
    Case {
        from_box: CELL,
        to_box: CUTOUT,
        part: Box3 {
            begin: [-1, 1, 2],
            size: [3, 2, 2],
        },
        channels,
        width,
    }
}

// An empty part, a part that is both boxes, and boxes without positions.
fn special(part: Box3, from_box: Box3, to_box: Box3) -> Case {
    Case {
        from_box,
        to_box,
        part,
        channels: 2,
        width: 4,
    }
}

fn cases() -> [Case; 9] {
    [
        meeting(1, 1),
        meeting(2, 2),
        meeting(3, 4),
        meeting(2, 8),
        meeting(0, 4),
        meeting(2, 0),
        special(EMPTY, CELL, CUTOUT),
        special(CELL, CELL, CELL),
        special(EMPTY, EMPTY, CUTOUT),
    ]
}

fn axis_lies_in(part: &Box3, outer: &Box3, axis: usize) -> bool
    requires { axis < 3 }
    ensures low { IsTrue result → at outer.now.begin axis ≤ℤ at part.now.begin axis }
    ensures high { IsTrue result → end part.now axis ≤ℤ end outer.now axis }
{
    let last = part.begin[axis] as i128 + part.size[axis] as i128;
    let outer_last = outer.begin[axis] as i128 + outer.size[axis] as i128;
    outer.begin[axis] <= part.begin[axis] && last <= outer_last
}

fn lies_in(part: &Box3, outer: &Box3) -> bool
    ensures { IsTrue result → Within part.now outer.now }
{
    for axis in 0..3 {
        if !axis_lies_in(part, outer, axis) {
            return false;
        }
    }
    true
}

// The bytes of a box's values, where 64 bits have their number.
fn raw_bytes(b: &Box3, channels: u32, width: u32) -> Option<u64>
    ensures { IfSome result (λ n. n ≡ raw_len b.now channels width) }
{
    let plane = b.size[0].checked_mul(b.size[1])?;
    let volume = plane.checked_mul(b.size[2])?;
    volume
        .checked_mul(channels as u64)?
        .checked_mul(width as u64)
}

fn holds(b: &Box3, part: &Box3, channels: u32, width: u32, len: usize) -> bool
    ensures { IsTrue result → Holds b.now part.now channels width len }
{
    match raw_bytes(b, channels, width) {
        Some(bytes) => bytes == len as u64 && len <= 1 << 30 && lies_in(part, b),
        None => false,
    }
}

// The place of a byte of a value: its axes, x first, its channel, and its number among the value's bytes.
#[derive(Clone, Copy, PartialEq)]
struct Spot {
    position: [i128; 3],
    channel: u64,
    byte: u64,
}

// Counts up from 0 over the bytes of a value, x, y, z and the channel.
fn spot_of(b: &Box3, width: u32, i: u64) -> Spot {
    let width = (width as u64).max(1);
    let [x, y, z] = [b.size[0].max(1), b.size[1].max(1), b.size[2].max(1)];
    let value = i / width;
    let row = value / x;
    let plane = row / y;
    Spot {
        position: [
            b.begin[0] as i128 + (value % x) as i128,
            b.begin[1] as i128 + (row % y) as i128,
            b.begin[2] as i128 + (plane % z) as i128,
        ],
        channel: plane / z,
        byte: i % width,
    }
}

fn is_on(b: &Box3, spot: &Spot, axis: usize) -> bool
    requires { axis < 3 }
{
    let begin = b.begin[axis] as i128;
    let position = spot.position[axis];
    begin <= position && position < begin + b.size[axis] as i128
}

fn is_in(b: &Box3, spot: &Spot) -> bool {
    is_on(b, spot, 0) && is_on(b, spot, 1) && is_on(b, spot, 2)
}

// The byte of the same spot in the bytes of another box.
fn byte_at(bytes: &[u8], b: &Box3, width: u32, spot: &Spot) -> Option<u8> {
    for (i, byte) in bytes.iter().enumerate() {
        let other = spot_of(b, width, i as u64);
        if other == *spot {
            return Some(*byte);
        }
    }
    None
}

fn old_byte(i: usize) -> u8 {
    (i % 251) as u8
}

fn fill_old(bytes: &mut [u8]) {
    for (i, byte) in bytes.iter_mut().enumerate() {
        *byte = old_byte(i);
    }
}

fn fill_source(bytes: &mut [u8]) {
    for (i, byte) in bytes.iter_mut().enumerate() {
        *byte = (i % 241) as u8 ^ 0x55;
    }
}

fn check_copy(rt: &impl Abort, case: &Case, from: &[u8], to: &mut [u8]) {
    let Case {
        from_box,
        to_box,
        part,
        channels,
        width,
    } = *case;
    assert!(rt; holds(&from_box, &part, channels, width, from.len()));
    assert!(rt; holds(&to_box, &part, channels, width, to.len()));
    copy_box(from, &from_box, to, &to_box, &part, channels, width);
    for (i, byte) in to.iter().enumerate() {
        let spot = spot_of(&to_box, width, i as u64);
        let wanted = if is_in(&part, &spot) {
            byte_at(from, &from_box, width, &spot)
        } else {
            Some(old_byte(i))
        };
        assert_eq!(rt; Some(*byte), wanted, "byte {i}");
    }
}

fn check_fill(rt: &impl Abort, case: &Case, to: &mut [u8]) {
    let to_box = case.to_box;
    let part = case.part;
    assert!(rt; holds(&to_box, &part, case.channels, case.width, to.len()));
    fill_box(to, &to_box, &part, case.channels, case.width);
    for (i, byte) in to.iter().enumerate() {
        let spot = spot_of(&to_box, case.width, i as u64);
        let wanted = if is_in(&part, &spot) { 0 } else { old_byte(i) };
        assert_eq!(rt; *byte, wanted, "byte {i}");
    }
}

// The bytes of a box of a case, which have room in 1024.
fn room_of(rt: &impl Abort, case: &Case, b: &Box3) -> Result<usize, Fail>
    ensures { IfOk result (λ len. len ≤ 1024) }
{
    let len = raw_bytes(b, case.channels, case.width).ok_or("too long")?;
    assert!(rt; len <= 1024);
    Ok(len as usize)
}

fn check_case(rt: &impl Abort, case: &Case) -> Result<(), Fail> {
    let mut from = [0; 1024];
    let mut to = [0; 1024];
    let from_len = room_of(rt, case, &case.from_box)?;
    let to_len = room_of(rt, case, &case.to_box)?;
    fill_source(&mut from);
    fill_old(&mut to);
    check_copy(rt, case, &from[..from_len], &mut to[..to_len]);
    fill_old(&mut to);
    check_fill(rt, case, &mut to[..to_len]);
    Ok(())
}

#[test]
fn copies_and_fills_parts(rt: HostRuntime) -> Result<(), Fail> {
    for case in &cases() {
        check_case(&rt, case)?;
    }
    Ok(())
}

#[test]
fn tells_lengths(rt: HostRuntime) {
    let two_by_two = Box3 {
        begin: [0, 0, 0],
        size: [2, 2, 1],
    };
    assert_eq!(rt; check_len(4, &two_by_two, 1, 1), Ok(()));
    for found in [5, 9, 0] {
        let fault = ChunkFault::ChunkLength { found, wanted: 4 };
        assert_eq!(rt; check_len(found, &two_by_two, 1, 1), Err(fault));
    }
    let flat = Box3 {
        begin: [0, 0, 0],
        size: [u64::MAX, u64::MAX, 0],
    };
    assert_eq!(rt; check_len(0, &flat, u32::MAX, u32::MAX), Ok(()));
    let long = Box3 {
        begin: [0, 0, 0],
        size: [u64::MAX, 1, 1],
    };
    assert_eq!(rt; check_len(u64::MAX, &long, 1, 1), Ok(()));
}
