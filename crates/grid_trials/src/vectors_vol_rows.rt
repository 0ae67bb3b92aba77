//! Streams of generated lists, worked out apart from this project's programs, and the vectors.

ghost use Rattle.std.specs.Prelude.{◌≡◌, ◌<◌, ◌≤◌, ◌^◌};

use small_scales::{raw_scale, short_name};
use std::alloc::{AllocError, Global};
use std::process::Abort;
use std::test::Fail;
use vectors_vol::{Generator, I1, I2, I3, V1, V2, V3, V4, plain_stream};
use vol_base::{Feed, MemoryFeed};
use vol_spec::Scale;
use write_plan::{PlanFault, read_writes};

// A list of writes, and the length and the sum of its stream.
#[derive(Clone, Copy)]
struct Row {
    width: u32,
    channels: u32,
    size: [u64; 3],
    offset: [i64; 3],
    number: u32,
    writes: u32,
    len: usize,
    sum: u64,
}

const ROWS: &[Row] = &[
    Row {
        width: 1,
        channels: 1,
        size: [2, 2, 1],
        offset: [0, 0, 0],
        number: 5,
        writes: 0,
        len: 8,
        sum: 2_279_870_434_112,
    },
    Row {
        width: 2,
        channels: 2,
        size: [5, 4, 3],
        offset: [-5, 7, 0],
        number: 9,
        writes: 3,
        len: 224,
        sum: 17_190_834_481_457_081_445,
    },
    Row {
        width: 8,
        channels: 1,
        size: [3, 2, 4],
        offset: [0, 0, -1],
        number: 2_147_483_646,
        writes: 12,
        len: 920,
        sum: 4_631_863_474_120_285_972,
    },
    Row {
        width: 4,
        channels: 3,
        size: [70, 3, 90],
        offset: [-1_099_511_627_776, 1_099_511_627_776, 11],
        number: 123_456_789,
        writes: 2,
        len: 1628,
        sum: 3_274_517_759_717_402_270,
    },
    Row {
        width: 1,
        channels: 1,
        size: [1000, 300, 77],
        offset: [0, 0, 0],
        number: 2_147_483_647,
        writes: 3,
        len: 16_794,
        sum: 8_953_753_694_087_599_643,
    },
];

// Two writes to the scale of [3, 2, 1] voxels from [-5, 7, 0] on, of two channels of two bytes, from 9.
const TWO_WRITES: &[u8] = &[
    80, 86, 87, 49, 2, 0, 0, 0, 253, 255, 255, 255, 255, 255, 255, 255, 7, 0, 0, 0, 0, 0, 0, 0, 0,
    0, 0, 0, 0, 0, 0, 0, 1, 0, 0, 0, 0, 0, 0, 0, 2, 0, 0, 0, 0, 0, 0, 0, 1, 0, 0, 0, 0, 0, 0, 0, 9,
    0, 10, 0, 11, 0, 12, 0, 251, 255, 255, 255, 255, 255, 255, 255, 7, 0, 0, 0, 0, 0, 0, 0, 0, 0,
    0, 0, 0, 0, 0, 0, 3, 0, 0, 0, 0, 0, 0, 0, 1, 0, 0, 0, 0, 0, 0, 0, 1, 0, 0, 0, 0, 0, 0, 0, 40,
    0, 41, 0, 42, 0, 43, 0, 44, 0, 45, 0,
];

fn make_scale(
    rt: &impl Abort,
    width: u32,
    channels: u32,
    size: [u64; 3],
    offset: [i64; 3],
) -> Scale {
    let key = short_name(b"s").expect(rt, "a key");
    raw_scale(key, width, channels, size, offset, [2, 2, 1]).expect(rt, "a scale")
}

// All bytes of a feed, read in pieces of so many bytes.
fn read_all<F: Feed>(alloc: Global, feed: &mut F, piece: usize) -> Result<Vec<u8>, AllocError>
    requires { (0 < piece) × (piece ≤ 4096) }
{
    let mut bytes = Vec::new(alloc);
    let mut buffer = [0; 4096];
    for _ in 0..100_000 {
        match feed.read(&mut buffer[..piece]) {
            Ok(n) if 0 < n && n <= piece => bytes.extend_from_slice(&buffer[..n])?,
            _ => return Ok(bytes),
        }
    }
    Ok(bytes)
}

fn sum_of(bytes: &[u8]) -> u64 {
    let mut sum: u64 = 0;
    for byte in bytes {
        sum = sum.wrapping_mul(31).wrapping_add(u64::from(*byte));
    }
    sum
}

// The length and the sum of these bytes.
fn check_sum(rt: &impl Abort, bytes: &[u8], len: usize, sum: u64) {
    assert_eq!(rt; bytes.len(), len);
    assert_eq!(rt; sum_of(bytes), sum);
}

fn check_row(rt: &impl Abort, alloc: Global, row: &Row, piece: usize) -> Result<(), Fail>
    requires piece { (0 < piece) × (piece ≤ 4096) }
{
    let scale = make_scale(rt, row.width, row.channels, row.size, row.offset);
    assert!(rt; row.number < 1 << 31);
    assert!(rt; row.writes <= 4096);
    let mut generator = Generator::new(&scale, row.number, row.writes);
    let bytes = read_all(alloc, &mut generator, piece)?;
    check_sum(rt, &bytes, row.len, row.sum);
    let plain = plain_stream(alloc, &scale, row.number, row.writes)?;
    assert_eq!(rt; bytes.as_slice(), plain.as_slice());
    Ok(())
}

#[test]
fn gives_streams_in_pieces(rt: HostRuntime) -> Result<(), Fail> {
    for row in ROWS {
        for piece in [1, 7, 4096] {
            assert!(rt; 0 < piece && piece <= 4096);
            check_row(&rt, rt.alloc(), row, piece)?;
        }
    }
    Ok(())
}

#[test]
fn gives_known_bytes(rt: HostRuntime) -> Result<(), Fail> {
    let scale = make_scale(&rt, 2, 2, [3, 2, 1], [-5, 7, 0]);
    let mut generator = Generator::new(&scale, 9, 2);
    let bytes = read_all(rt.alloc(), &mut generator, 7)?;
    assert_eq!(rt; bytes.as_slice(), TWO_WRITES);
    Ok(())
}

#[test]
fn is_read_as_writes(rt: HostRuntime) -> Result<(), Fail> {
    let scale = make_scale(&rt, 2, 2, [3, 2, 1], [-5, 7, 0]);
    let mut generator = Generator::new(&scale, 9, 2);
    let writes = read_writes(rt.alloc(), &mut generator, &scale)
        .ok()
        .ok_or("the stream has no fault")?;
    assert_eq!(rt; writes.len(), 2);
    assert_eq!(rt; writes.part(1).begin, [-5, 7, 0]);
    assert_eq!(rt; writes.part(1).size, [3, 1, 1]);
    assert_eq!(rt; writes.bytes(0), [9, 0, 10, 0, 11, 0, 12, 0].as_slice());
    Ok(())
}

// The first write has 57,344 bytes, and both have more than 2^30.
#[test]
fn is_refused_past_the_limit(rt: HostRuntime) {
    let scale = make_scale(&rt, 8, 1024, [500; 3], [0; 3]);
    let mut generator = Generator::new(&scale, 111_406, 2);
    let refusal = read_writes(rt.alloc(), &mut generator, &scale).err();
    assert_eq!(rt; refusal, Some(PlanFault::WritesTooLarge { write: 1 }));
}

// The vectors, with their lengths and sums.
const VECTORS: &[(&[u8], usize, u64)] = &[
    (I1, 154, 3_225_264_478_175_805_105),
    (I2, 278, 10_319_889_749_042_234_880),
    (I3, 654, 8_985_144_830_998_842_587),
    (V1, 60, 16_134_444_742_115_662_652),
    (V2, 82, 5_627_435_566_649_377_825),
    (V3, 66, 15_525_444_871_317_400_362),
    (V4, 177, 3_611_505_044_768_151_143),
];

#[test]
fn has_the_vectors(rt: HostRuntime) -> Result<(), Fail> {
    let scale = make_scale(&rt, 1, 1, [2, 2, 1], [0, 0, 0]);
    let stream = V1.to_vec(rt.alloc())?;
    let mut feed = MemoryFeed::new(stream, 7, Vec::new(rt.alloc()));
    let writes = read_writes(rt.alloc(), &mut feed, &scale)
        .ok()
        .ok_or("the stream has no fault")?;
    assert_eq!(rt; writes.len(), 1);
    assert_eq!(rt; writes.bytes(0), [1, 2, 3, 4].as_slice());
    for (bytes, len, sum) in VECTORS {
        check_sum(&rt, bytes, *len, *sum);
    }
    Ok(())
}
