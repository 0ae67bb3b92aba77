//! Segmentation chunks read and written: the sums of the bytes made.
ghost use Rattle.std.specs.Prelude.{◌≡◌, ◌+◌, ◌*◌, ◌<◌, ◌≤◌, ◌^◌, IfOk, length};
ghost use Rattle.vol_spec.specs.SegBlocks.{raw_len};
ghost use Rattle.vol_spec.specs.SegShapes.{sizes_of};
ghost use Rattle.vol_spec.specs.SegSizes.{encoded_limit, padded_in};
ghost use Rattle.segment_blocks.specs.Reserved.{sizes_for};

use byteorder::{ByteOrder, LittleEndian};
use segment_blocks::{Scratch, SegShape, decode, encode, is_own_spelling};
use std::alloc::{AllocError, Global};
use vol_base::OutOfMemory;

// What the values of a chunk are.
#[derive(Clone, Copy)]
enum Values {
    // nine boxes of 8 x 8 x 8 with a label each, and 0 elsewhere
    Boxes,
    // cells of the nearest of forty seeds
    Cells,
    // forty labels in pieces that cut the blocks
    Labels,
    // 2 to 30 labels in each block, at every voxel another
    Noise,
    // any below this
    Below(u64),
}

fn cube() -> SegShape
    ensures raw { raw_len (sizes_of result) ≡ 2097152 }
    ensures limit { encoded_limit (sizes_of result) ≡ 4194308 }
    ensures padded { padded_in (sizes_of result) ≤ 2 ^ 22 }
{
    SegShape {
        size: [64, 64, 64],
        block: [8, 8, 8],
        channels: 1,
        wide: true,
    }
}

// Blocks of one voxel.
fn line(len: u64) -> SegShape
    requires some { 0 < len }
    requires few { len ≤ 2 ^ 20 }
    ensures raw { raw_len (sizes_of result) ≡ 8 * len }
    ensures limit { encoded_limit (sizes_of result) ≡ 4 + 16 * len }
    ensures padded { padded_in (sizes_of result) ≤ 2 ^ 22 }
{
    SegShape {
        size: [len, 1, 1],
        block: [1, 1, 1],
        channels: 1,
        wide: true,
    }
}

fn mix(n: u64) -> u64 {
    let n = (n ^ (n >> 30)).wrapping_mul(0xbf58476d1ce4e5b9);
    let n = (n ^ (n >> 27)).wrapping_mul(0x94d049bb133111eb);
    n ^ (n >> 31)
}

// The label of the box that a voxel lies in, of nine; or 0.
fn box_at(x: u64, y: u64, z: u64) -> u64 {
    for i in 0..9u64 {
        let place = mix(i.wrapping_add(77));
        let dx = x.wrapping_sub(place % 57);
        let dy = y.wrapping_sub((place >> 16) % 57);
        let dz = z.wrapping_sub((place >> 32) % 57);
        if dx < 8 && dy < 8 && dz < 8 {
            return mix(place) >> 1;
        }
    }
    0
}

// The label of the nearest of forty seeds in a cube of 128 whose middle is the chunk.
fn cell_at(x: u64, y: u64, z: u64) -> u64 {
    let mut least = u64::MAX;
    let mut label = 0;
    for i in 0..40u64 {
        let place = mix(i.wrapping_add(99));
        let dx = x.wrapping_add(32).wrapping_sub(place % 128);
        let dy = y.wrapping_add(32).wrapping_sub((place >> 16) % 128);
        let dz = z.wrapping_add(32).wrapping_sub((place >> 32) % 128);
        let far = dx
            .wrapping_mul(dx)
            .wrapping_add(dy.wrapping_mul(dy))
            .wrapping_add(dz.wrapping_mul(dz));
        if far < least {
            least = far;
            label = mix(place) >> 1;
        }
    }
    label
}

fn value_at(values: Values, n: u64) -> u64 {
    let x = n % 64;
    let y = n / 64 % 64;
    let z = n / 4096;
    match values {
        Values::Boxes => box_at(x, y, z),
        Values::Cells => cell_at(x, y, z),
        Values::Labels => 1000 + (x / 19 + y / 19 * 4 + z / 19 * 16) % 40,
        Values::Noise => 5000 + mix(n) % (2 + (x / 8 + y / 8 * 8 + z / 8 * 64) % 29),
        Values::Below(bound) => mix(n) % bound.max(1),
    }
}

fn fill(raw: &mut [u8], values: Values) {
    for n in 0..raw.len() / 8 {
        LittleEndian::write_u64(&mut raw[8 * n..], value_at(values, n as u64));
    }
}

fn zeros(alloc: Global, len: usize) -> Result<Vec<u8>, OutOfMemory>
    ensures { IfOk result (λ v. length v.items ≡ len) }
{
    match take_zeros(alloc, len) {
        Ok(bytes) => Ok(bytes),
        Err(_) => Err(OutOfMemory),
    }
}

fn take_zeros(alloc: Global, len: usize) -> Result<Vec<u8>, AllocError>
    ensures { IfOk result (λ v. length v.items ≡ len) }
{
    vec![in alloc; 0u8; len]
}

fn sum_bytes(bytes: &[u8]) -> u64 {
    let mut sum = 0u64;
    for byte in bytes {
        sum = sum.wrapping_mul(31).wrapping_add(*byte as u64);
    }
    sum
}

// Writes a chunk so often; the length of the last.
fn encode_often(
    shape: &SegShape,
    raw: &[u8],
    scratch: &mut Scratch,
    out: &mut [u8],
    count: u64,
) -> usize
    requires limit { padded_in (sizes_of shape.now) ≤ 2 ^ 22 }
    requires scratch { sizes_for scratch.old ≡ sizes_of shape.now }
    requires raw { length raw.now ≡ raw_len (sizes_of shape.now) }
    requires out { encoded_limit (sizes_of shape.now) ≤ length out.old }
    ensures { result ≤ length out.old }
{
    let mut len = 0;
    for _ in 0..count {
        len = encode(raw, shape, scratch, out);
    }
    len
}

// The sum of the bytes of a chunk that was written so often.
fn sum_encoded(
    alloc: Global,
    shape: &SegShape,
    raw_bytes: usize,
    limit: usize,
    values: Values,
    count: u64,
) -> Result<u64, OutOfMemory>
    requires padded { padded_in (sizes_of shape.now) ≤ 2 ^ 22 }
    requires raw { raw_bytes ≡ raw_len (sizes_of shape.now) }
    requires out { limit ≡ encoded_limit (sizes_of shape.now) }
{
    let mut raw = zeros(alloc, raw_bytes)?;
    let mut out = zeros(alloc, limit)?;
    fill(&mut raw, values);
    let mut scratch = Scratch::reserve(alloc, shape)?;
    let len = encode_often(shape, &raw, &mut scratch, &mut out, count);
    Ok(sum_bytes(&out[..len]))
}

// Reads a chunk so often; how often it was sound.
fn decode_often(shape: &SegShape, bytes: &[u8], raw: &mut [u8], count: u64) -> u64
    requires { length raw.old ≡ raw_len (sizes_of shape.now) }
{
    let mut sound = 0u64;
    for _ in 0..count {
        if decode(bytes, shape, raw).is_ok() {
            sound = sound.wrapping_add(1);
        }
    }
    sound
}

// The sum of the values of a chunk that was read so often.
fn sum_decoded(alloc: Global, values: Values, count: u64) -> Result<u64, OutOfMemory> {
    let shape = cube();
    let mut raw = zeros(alloc, 2097152)?;
    let mut out = zeros(alloc, 4194308)?;
    fill(&mut raw, values);
    let mut scratch = Scratch::reserve(alloc, &shape)?;
    let len = encode_often(&shape, &raw, &mut scratch, &mut out, 1);
    let mut read = zeros(alloc, 2097152)?;
    let sound = decode_often(&shape, &out[..len], &mut read, count);
    Ok(sum_bytes(&read).wrapping_add(sound))
}

// Looks so often whether a chunk is spelled as this writer spells it; how often it is.
fn look_often(shape: &SegShape, bytes: &[u8], scratch: &mut Scratch, count: u64) -> u64
    requires limit { padded_in (sizes_of shape.now) ≤ 2 ^ 22 }
    requires scratch { sizes_for scratch.old ≡ sizes_of shape.now }
{
    let mut own = 0u64;
    for _ in 0..count {
        if is_own_spelling(bytes, shape, scratch) {
            own = own.wrapping_add(1);
        }
    }
    own
}

// How often a chunk that was written is found to be this writer's.
fn count_own(alloc: Global, values: Values, count: u64) -> Result<u64, OutOfMemory> {
    let shape = cube();
    let mut raw = zeros(alloc, 2097152)?;
    let mut out = zeros(alloc, 4194308)?;
    fill(&mut raw, values);
    let mut scratch = Scratch::reserve(alloc, &shape)?;
    let len = encode_often(&shape, &raw, &mut scratch, &mut out, 1);
    let mut again = Scratch::reserve(alloc, &shape)?;
    Ok(look_often(&shape, &out[..len], &mut again, count))
}

// The sum of the bytes of a chunk of so many blocks of one voxel.
fn sum_line(alloc: Global, len: u64, values: Values, count: u64) -> Result<u64, OutOfMemory>
    requires some { 0 < len }
    requires few { len ≤ 2 ^ 20 }
{
    let raw_bytes = 8 * len as usize;
    let limit = 4 + 16 * len as usize;
    sum_encoded(alloc, &line(len), raw_bytes, limit, values, count)
}

/// The sum for a kind that was named.
pub(crate) fn sum_chunks(alloc: Global, kind: &str, count: u64) -> Result<u64, OutOfMemory> {
    match kind {
        "decode-boxes" => sum_decoded(alloc, Values::Boxes, count),
        "decode-cells" => sum_decoded(alloc, Values::Cells, count),
        "decode-labels" => sum_decoded(alloc, Values::Labels, count),
        "decode-noise" => sum_decoded(alloc, Values::Noise, count),
        "encode-boxes" => sum_encoded(alloc, &cube(), 2097152, 4194308, Values::Boxes, count),
        "encode-cells" => sum_encoded(alloc, &cube(), 2097152, 4194308, Values::Cells, count),
        "encode-labels" => sum_encoded(alloc, &cube(), 2097152, 4194308, Values::Labels, count),
        "encode-noise" => sum_encoded(alloc, &cube(), 2097152, 4194308, Values::Noise, count),
        "own-boxes" => count_own(alloc, Values::Boxes, count),
        "own-cells" => count_own(alloc, Values::Cells, count),
        "own-labels" => count_own(alloc, Values::Labels, count),
        "own-noise" => count_own(alloc, Values::Noise, count),
        "short-labels" => sum_line(alloc, 1 << 16, Values::Labels, count),
        "short-again" => sum_line(alloc, 1 << 16, Values::Below(1 << 16), count),
        "short" => sum_line(alloc, 1 << 16, Values::Below(1 << 24), count),
        "long-labels" => sum_line(alloc, 1 << 20, Values::Labels, count),
        "long-again" => sum_line(alloc, 1 << 20, Values::Below(1 << 20), count),
        _ => sum_line(alloc, 1 << 20, Values::Below(1 << 24), count),
    }
}
