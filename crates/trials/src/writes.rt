//! What was written last is read back.
ghost use Rattle.std.specs.Prelude.{◌<◌};

use crate::volumes::{
    LABELS, RAW, RAW_TWICE, SEGMENTED, SHARDED, Volume, Write, byte_at, find_scale, written,
};
use chunk_grid::byte_len;
use cutout_cmd::run_cutout;
use info_doc::Scale;
use memory_rows::{name_of, outlet_of};
use std::alloc::Global;
use std::process::Abort;
use std::sync::Wait;
use std::test::Fail;
use std::thread::Threads;
use verify_cmd::run_verify;
use vol_base::Box3;

// Parts of all volumes: whole ones, and parts across cells, blocks and planes.
const PARTS: [(&Volume, &str); 10] = [
    (&RAW, "[-2:3,1:5,0:2]"),
    (&RAW, "[-1:2,2:5,1:2]"),
    (&RAW_TWICE, "[-2:3,1:5,0:2]"),
    (&SHARDED, "[0:5,0:4,0:1]"),
    (&SHARDED, "[1:4,1:3,0:1]"),
    (&SHARDED, "[4:5,2:4,0:1]"),
    (&SEGMENTED, "[0:5,0:3,0:2]"),
    (&SEGMENTED, "[2:4,1:3,0:1]"),
    (&LABELS, "[0:3,0:2,0:1]"),
    (&LABELS, "[1:2,0:1,0:1]"),
];

// The value at a place among those of a write.
fn value_at(write: &Write, place: u64, width: u32) -> u64 {
    let mut number = 0u64;
    for i in 0..width.min(8) {
        let at = place.wrapping_mul(width as u64).wrapping_add(i as u64);
        let digit = (byte_at(write, at) as u64).wrapping_shl(8u32.wrapping_mul(i));
        number = number.wrapping_add(digit);
    }
    number
}

// The position and the channel of the n-th value of a box.
fn place_of(part: &Box3, n: u64) -> ([i64; 3], u64) {
    let [x, y, z] = [
        part.size[0].max(1),
        part.size[1].max(1),
        part.size[2].max(1),
    ];
    let position = [
        part.begin[0].saturating_add_unsigned(n % x),
        part.begin[1].saturating_add_unsigned(n / x % y),
        part.begin[2].saturating_add_unsigned(n / x / y % z),
    ];
    (position, n / x / y / z)
}

// The number that bytes spell, the lowest first.
fn number_of(bytes: &[u8]) -> u64 {
    let mut number = 0u64;
    for byte in bytes.iter().rev() {
        number = number.wrapping_mul(256).wrapping_add(*byte as u64);
    }
    number
}

fn covers_on(part: &Box3, p: [i64; 3], axis: usize) -> bool
    requires { axis < 3 }
{
    let begin = part.begin[axis];
    begin <= p[axis] && p[axis].abs_diff(begin) < part.size[axis]
}

// Whether a box has a position.
fn covers(part: &Box3, p: [i64; 3]) -> bool {
    covers_on(part, p, 0) && covers_on(part, p, 1) && covers_on(part, p, 2)
}

// How many positions of a write, x fastest, are before one.
fn place_in(part: &Box3, p: [i64; 3], c: u64) -> u64 {
    let x = p[0].abs_diff(part.begin[0]);
    let y = p[1].abs_diff(part.begin[1]);
    let z = p[2].abs_diff(part.begin[2]);
    let plane = z.wrapping_add(part.size[2].wrapping_mul(c));
    let row = y.wrapping_add(part.size[1].wrapping_mul(plane));
    x.wrapping_add(part.size[0].wrapping_mul(row))
}

// The value that was written last at a position and channel, or 0.
fn last_value(writes: &[Write], p: [i64; 3], c: u64, width: u32) -> u64 {
    for write in writes.iter().rev() {
        if covers(&write.part, p) {
            return value_at(write, place_in(&write.part, p, c), width);
        }
    }
    0
}

// Bytes are all values of a part, each the one that was written last.
fn compare_last(rt: &impl Abort, scale: &Scale, writes: &[Write], part: &Box3, bytes: &[u8]) {
    let len = byte_len(part, scale.channels, scale.width);
    assert_eq!(rt; bytes.len() as u128, len);
    let width = scale.width.max(1) as usize;
    for (n, value) in bytes.chunks(width).enumerate() {
        let (p, c) = place_of(part, n as u64);
        let wanted = last_value(writes, p, c, scale.width);
        assert_eq!(rt; number_of(value), wanted, "value {n}");
    }
}

// A cutout of a part of a volume has what was written last.
fn check_part<R: Threads + Wait + Abort + Sync>(
    rt: &R,
    alloc: Global,
    volume: &Volume,
    text: &str,
) -> Result<(), Fail> {
    let scale = find_scale(alloc, volume)?;
    let mut store = written(rt, alloc, &scale, volume)?;
    let part = Box3::parse(text)?;
    let mut out = outlet_of(alloc, 7, &[])?;
    let mut err = outlet_of(alloc, 7, &[])?;
    let dataset = name_of("d")?;
    let status = run_cutout(
        alloc,
        &mut store,
        &mut out,
        &mut err,
        &dataset,
        &name_of("s")?,
        &part,
    );
    assert_eq!(rt; status.number(), 0, "at {text}");
    compare_last(rt, &scale, volume.writes, &part, out.written());
    Ok(())
}

#[test]
fn reads_what_was_written_last(rt: HostRuntime) -> Result<(), Fail> {
    for (volume, part) in &PARTS {
        check_part(&rt, rt.alloc(), volume, part)?;
    }
    Ok(())
}

const VOLUMES: [&Volume; 5] = [&RAW, &RAW_TWICE, &SHARDED, &SEGMENTED, &LABELS];

// All of a volume is found sound.
fn check_sound<R: Threads + Wait + Abort + Sync>(
    rt: &R,
    alloc: Global,
    volume: &Volume,
) -> Result<(), Fail> {
    let scale = find_scale(alloc, volume)?;
    let mut store = written(rt, alloc, &scale, volume)?;
    let mut out = outlet_of(alloc, 7, &[])?;
    let mut err = outlet_of(alloc, 7, &[])?;
    let dataset = name_of("d")?;
    let key = name_of("s")?;
    let status = run_verify(alloc, &mut store, &mut out, &mut err, &dataset, &key, &None);
    let line = volume.verified;
    assert_eq!(rt; status.number(), 0, "at {line}");
    assert!(rt; out.written() == line.as_bytes(), "at {line}");
    Ok(())
}

#[test]
fn finds_sound_what_was_written(rt: HostRuntime) -> Result<(), Fail> {
    for volume in &VOLUMES {
        check_sound(&rt, rt.alloc(), volume)?;
    }
    Ok(())
}
