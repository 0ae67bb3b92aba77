//! Chunks of known words: sound ones and damaged ones.
ghost use Rattle.std.specs.Prelude.{◌≡◌, ◌≤◌, ◌^◌, IfOk, IfSome, length};
ghost use Rattle.vol_spec.specs.SegBlocks.{raw_len};
ghost use Rattle.vol_spec.specs.SegShapes.{sizes_of};
ghost use Rattle.vol_spec.specs.SegSizes.{padded_in};

use byteorder::{ByteOrder, LittleEndian};
use segment_blocks::{Scratch, SegShape, decode, encode, is_own_spelling};
use std::alloc::{AllocError, Global};
use std::process::Abort;
use std::test::Fail;
use vol_base::{ChunkFault, OutOfMemory};

// A chunk of one or two channels: its sizes, its words, and the values that they say.
struct Known {
    size: [u64; 3],
    block: [u64; 3],
    channels: u32,
    wide: bool,
    words: &'static [u32],
    values: &'static [u64],
}

// Spelled as this writer does. The words were found by hand or by another program.
const SPELLED: [Known; 14] = [
    // wide values in blocks of one voxel, the third as the first
    Known {
        size: [3, 1, 1],
        block: [1, 1, 1],
        channels: 1,
        wide: true,
        words: &[1, 6, 6, 8, 8, 6, 10, 7, 0, 7, 1],
        values: &[7, (1 << 32) + 7, 7],
    },
    // one bit
    Known {
        size: [2, 1, 1],
        block: [2, 1, 1],
        channels: 1,
        wide: false,
        words: &[1, 0x01000003, 2, 2, 7, 9],
        values: &[7, 9],
    },
    // no bits
    Known {
        size: [2, 1, 1],
        block: [2, 1, 1],
        channels: 1,
        wide: false,
        words: &[1, 2, 2, 5],
        values: &[5, 5],
    },
    // two bits, and a block that x clips
    Known {
        size: [3, 2, 1],
        block: [2, 2, 1],
        channels: 1,
        wide: false,
        words: &[1, 0x02000005, 4, 0x01000009, 8, 164, 1, 2, 4, 4, 3, 5],
        values: &[1, 2, 3, 4, 4, 5],
    },
    // a shared table
    Known {
        size: [4, 1, 1],
        block: [2, 1, 1],
        channels: 1,
        wide: false,
        words: &[1, 0x01000005, 4, 0x01000005, 7, 2, 7, 9, 1],
        values: &[7, 9, 9, 7],
    },
    // wide values
    Known {
        size: [2, 1, 1],
        block: [2, 1, 1],
        channels: 1,
        wide: true,
        words: &[1, 0x01000003, 2, 1, 3, 0, 1, 1],
        values: &[4294967297, 3],
    },
    // two channels
    Known {
        size: [2, 1, 1],
        block: [2, 1, 1],
        channels: 2,
        wide: false,
        words: &[2, 7, 0x01000003, 2, 2, 7, 9, 2, 2, 9],
        values: &[7, 9, 9, 9],
    },
    // four bits
    Known {
        size: [5, 1, 1],
        block: [5, 1, 1],
        channels: 1,
        wide: false,
        words: &[1, 0x04000003, 2, 135940, 10, 20, 30, 40, 50],
        values: &[50, 10, 40, 20, 30],
    },
    // eight bits
    Known {
        size: [17, 1, 1],
        block: [17, 1, 1],
        channels: 1,
        wide: false,
        words: &[
            1, 0x08000007, 2, 0x0f0a0500, 0x010d0803, 0x04100b06, 0x07020e09, 12, 0, 1, 2, 3, 4, 5,
            6, 7, 8, 9, 10, 11, 12, 13, 14, 15, 16,
        ],
        values: &[0, 5, 10, 15, 3, 8, 13, 1, 6, 11, 16, 4, 9, 14, 2, 7, 12],
    },
    // blocks of one voxel
    Known {
        size: [3, 1, 1],
        block: [1, 1, 1],
        channels: 1,
        wide: false,
        words: &[1, 6, 6, 7, 7, 6, 8, 5, 6],
        values: &[5, 6, 5],
    },
    // the same in two channels
    Known {
        size: [2, 1, 1],
        block: [1, 1, 1],
        channels: 2,
        wide: false,
        words: &[2, 7, 4, 4, 4, 5, 5, 4, 4, 5, 5, 6, 7],
        values: &[5, 5, 6, 7],
    },
    // a block that y clips
    Known {
        size: [1, 3, 1],
        block: [1, 2, 1],
        channels: 1,
        wide: false,
        words: &[1, 0x01000005, 4, 7, 7, 1, 7, 8, 9],
        values: &[8, 7, 9],
    },
    // a block that z clips
    Known {
        size: [2, 1, 3],
        block: [2, 1, 2],
        channels: 1,
        wide: true,
        words: &[
            1, 0x02000005, 4, 0x0100000c, 11, 161, 7, 0, 8, 0, 9, 0, 2, 7, 0, 0, 256,
        ],
        values: &[8, 7, 9, 9, 7, 1099511627776],
    },
    // sizes and blocks that differ on each axis
    Known {
        size: [3, 4, 5],
        block: [2, 2, 2],
        channels: 1,
        wide: false,
        words: &[
            1, 0x02000019, 24, 0x0100001e, 29, 0x02000021, 32, 0x01000025, 36, 0x02000019, 39,
            0x01000025, 40, 0x02000019, 41, 0x0100001e, 42, 0x02000021, 43, 0x01000025, 44,
            0x0200002e, 45, 0x01000025, 49, 17844, 1, 3, 4, 5, 65, 2, 4, 9794, 1, 4, 5, 16, 1, 2,
            33624, 4, 17844, 65, 38, 1, 88, 1, 3, 4, 4,
        ],
        values: &[
            1, 3, 4, 5, 4, 2, 5, 1, 1, 1, 4, 1, 3, 3, 2, 1, 3, 4, 5, 4, 2, 5, 1, 1, 1, 4, 1, 3, 3,
            2, 1, 3, 4, 5, 4, 2, 5, 1, 1, 1, 4, 1, 3, 3, 2, 1, 3, 4, 5, 4, 2, 5, 1, 1, 1, 4, 1, 3,
            3, 2,
        ],
    },
];

// Spelled otherwise: two channels that share their bytes, 32 bits to an index, and a word that nothing refers to.
const OTHERS: [Known; 3] = [
    Known {
        size: [1, 1, 1],
        block: [1, 1, 1],
        channels: 2,
        wide: false,
        words: &[2, 2, 2, 2, 7],
        values: &[7, 7],
    },
    Known {
        size: [2, 1, 1],
        block: [2, 1, 1],
        channels: 1,
        wide: false,
        words: &[1, 0x20000004, 2, 1, 0, 7, 9],
        values: &[9, 7],
    },
    Known {
        size: [2, 1, 1],
        block: [2, 1, 1],
        channels: 1,
        wide: false,
        words: &[1, 0x01000004, 3, 8, 2, 7, 9],
        values: &[7, 9],
    },
];

// A small shape.
fn shape(size: [u64; 3], block: [u64; 3], channels: u32, wide: bool) -> Option<SegShape>
    ensures { IfSome result (λ s. padded_in (sizes_of s) ≤ 2 ^ 20) }
{
    for axis in 0..3 {
        if size[axis] < 1 || size[axis] > 32 || block[axis] < 1 || block[axis] > 33 {
            return None;
        }
    }
    if channels < 1 || channels > 4 {
        return None;
    }
    Some(SegShape {
        size,
        block,
        channels,
        wide,
    })
}

// The bytes of the chunk's values.
fn count_bytes(shape: &SegShape) -> usize
    ensures { result ≡ raw_len (sizes_of shape.now) }
{
    let [x, y, z] = shape.size;
    let width = if shape.wide { 8 } else { 4 };
    (x * y * z) as usize * shape.channels as usize * width
}

fn words_to_bytes(alloc: Global, words: &[u32]) -> Result<Vec<u8>, AllocError> {
    let mut bytes = Vec::new(alloc);
    for word in words {
        bytes.extend_from_slice(&word.to_le_bytes())?;
    }
    Ok(bytes)
}

fn bytes_to_values(alloc: Global, raw: &[u8], wide: bool) -> Result<Vec<u64>, AllocError> {
    let mut values = Vec::new(alloc);
    if wide {
        for value in raw.chunks_exact(8) {
            values.push(LittleEndian::read_u64(value))?;
        }
    } else {
        for value in raw.chunks_exact(4) {
            values.push(LittleEndian::read_u32(value) as u64)?;
        }
    }
    Ok(values)
}

// The values of a chunk, or its fault.
fn decoded(
    alloc: Global,
    bytes: &[u8],
    shape: &SegShape,
) -> Result<Result<Vec<u64>, ChunkFault>, AllocError> {
    let mut raw = vec![in alloc; 0u8; count_bytes(shape)]?;
    match decode(bytes, shape, &mut raw) {
        Ok(()) => Ok(Ok(bytes_to_values(alloc, &raw, shape.wide)?)),
        Err(fault) => Ok(Err(fault)),
    }
}

// Words are decoded to values.
fn check_decoded(
    rt: &impl Abort,
    alloc: Global,
    shape: &SegShape,
    words: &[u32],
    values: &[u64],
) -> Result<(), Fail> {
    let bytes = words_to_bytes(alloc, words)?;
    let found = decoded(alloc, &bytes, shape)?.ok().ok_or("fault")?;
    assert_eq!(rt; found.as_slice(), values);
    Ok(())
}

fn test_known(rt: &impl Abort, alloc: Global, known: &Known) -> Result<(), Fail> {
    let shape = shape(known.size, known.block, known.channels, known.wide).ok_or("shape")?;
    check_decoded(rt, alloc, &shape, known.words, known.values)
}

#[test]
fn decodes_known_words(rt: HostRuntime) -> Result<(), Fail> {
    for known in &SPELLED {
        test_known(&rt, rt.alloc(), known)?;
    }
    for known in &OTHERS {
        test_known(&rt, rt.alloc(), known)?;
    }
    Ok(())
}

fn zeros(alloc: Global, len: usize) -> Result<Vec<u8>, AllocError>
    ensures { IfOk result (λ v. length v.items ≡ len) }
{
    vec![in alloc; 0u8; len]
}

fn values_to_raw(alloc: Global, values: &[u64], wide: bool) -> Result<Vec<u8>, AllocError> {
    let width = if wide { 8 } else { 4 };
    let mut raw = Vec::new(alloc);
    for value in values {
        raw.extend_from_slice(&value.to_le_bytes()[..width])?;
    }
    Ok(raw)
}

// The most bytes that a small shape's chunk takes.
const MOST: usize = 4096 + (16 << 20);

fn most_zeros(alloc: Global) -> Result<Vec<u8>, OutOfMemory>
    ensures { IfOk result (λ v. length v.items ≡ MOST) }
{
    match zeros(alloc, MOST) {
        Ok(out) => Ok(out),
        Err(_) => Err(OutOfMemory),
    }
}

// The length of what is written of a chunk's values.
fn encoded(
    alloc: Global,
    shape: &SegShape,
    raw: &[u8],
    out: &mut [u8],
) -> Result<usize, OutOfMemory>
    requires limit { padded_in (sizes_of shape.now) ≤ 2 ^ 20 }
    requires raw { length raw.now ≡ raw_len (sizes_of shape.now) }
    requires out { length out.old ≡ MOST }
    ensures { IfOk result (λ len. len ≤ MOST) }
{
    let mut scratch = Scratch::reserve(alloc, shape)?;
    let len = encode(raw, shape, &mut scratch, out);
    Ok(len)
}

// Values are encoded to words.
fn check_encoded(
    rt: &impl Abort,
    alloc: Global,
    shape: &SegShape,
    values: &[u64],
    words: &[u32],
    out: &mut [u8],
) -> Result<(), Fail>
    requires limit { padded_in (sizes_of shape.now) ≤ 2 ^ 20 }
    requires out { length out.old ≡ MOST }
{
    let raw = values_to_raw(alloc, values, shape.wide)?;
    assert_eq!(rt; raw.len(), count_bytes(shape));
    let len = encoded(alloc, shape, &raw, out).ok().ok_or("memory")?;
    let wanted = words_to_bytes(alloc, words)?;
    assert_eq!(rt; &out[..len], wanted.as_slice());
    Ok(())
}

fn test_spelled(rt: &impl Abort, alloc: Global, known: &Known, out: &mut [u8]) -> Result<(), Fail>
    requires { length out.old ≡ MOST }
{
    let shape = shape(known.size, known.block, known.channels, known.wide).ok_or("shape")?;
    check_encoded(rt, alloc, &shape, known.values, known.words, out)
}

fn test_all_spelled(rt: &impl Abort, alloc: Global, out: &mut [u8]) -> Result<(), Fail>
    requires { length out.old ≡ MOST }
{
    for known in &SPELLED {
        test_spelled(rt, alloc, known, out)?;
    }
    Ok(())
}

#[test]
fn encodes_known_words(rt: HostRuntime) -> Result<(), Fail> {
    let mut out = most_zeros(rt.alloc()).ok().ok_or("memory")?;
    test_all_spelled(&rt, rt.alloc(), &mut out)
}

// Whether a chunk is found to be spelled as this writer spells it.
fn told_own(alloc: Global, shape: &SegShape, bytes: &[u8]) -> Result<bool, OutOfMemory>
    requires { padded_in (sizes_of shape.now) ≤ 2 ^ 20 }
{
    let mut scratch = Scratch::reserve(alloc, shape)?;
    Ok(is_own_spelling(bytes, shape, &mut scratch))
}

fn check_told(
    rt: &impl Abort,
    alloc: Global,
    known: &Known,
    words: &[u32],
    wanted: bool,
) -> Result<(), Fail> {
    let shape = shape(known.size, known.block, known.channels, known.wide).ok_or("shape")?;
    let bytes = words_to_bytes(alloc, words)?;
    let told = told_own(alloc, &shape, &bytes).ok().ok_or("memory")?;
    assert_eq!(rt; told, wanted);
    Ok(())
}

// A chunk of this writer is told, unless its blocks have one voxel; with a word behind it, it isn't.
fn check_own(rt: &impl Abort, alloc: Global, known: &Known) -> Result<(), Fail> {
    let single = known.block == [1, 1, 1];
    check_told(rt, alloc, known, known.words, !single)?;
    let mut words = Vec::new(alloc);
    words.extend_from_slice(known.words)?;
    words.push(0)?;
    check_told(rt, alloc, known, &words, false)
}

#[test]
fn tells_own_spelling(rt: HostRuntime) -> Result<(), Fail> {
    for known in &SPELLED {
        check_own(&rt, rt.alloc(), known)?;
    }
    for known in &OTHERS {
        check_told(&rt, rt.alloc(), known, known.words, false)?;
    }
    Ok(())
}

// The values from 0 to 287.
fn rising_values(alloc: Global) -> Result<Vec<u64>, AllocError> {
    let mut values = Vec::new(alloc);
    for n in 0..288u64 {
        values.push(n)?;
    }
    Ok(values)
}

// The words of these values in one block: the indices of 16 bits each, two to a word, and the table.
fn rising_words(alloc: Global) -> Result<Vec<u32>, AllocError> {
    let mut words = vec![in alloc; 1u32, 0x10000000 + 146, 2]?;
    for n in 0..144u32 {
        words.push(2 * n + ((2 * n + 1) << 16))?;
    }
    for n in 0..288u32 {
        words.push(n)?;
    }
    Ok(words)
}

#[test]
fn encodes_sixteen_bits(rt: HostRuntime) -> Result<(), Fail> {
    let alloc = rt.alloc();
    let shape = shape([32, 9, 1], [32, 9, 1], 1, false).ok_or("shape")?;
    let words = rising_words(alloc)?;
    let values = rising_values(alloc)?;
    let mut out = most_zeros(alloc).ok().ok_or("memory")?;
    check_encoded(&rt, alloc, &shape, &values, &words, &mut out)?;
    check_decoded(&rt, alloc, &shape, &words, &values)
}

// The sizes of a chunk, the sizes of its blocks, and how many channels it has.
type Parts = ([u64; 3], [u64; 3], u32);

const PAIR: Parts = ([2, 1, 1], [2, 1, 1], 1);

const CLIPPED: Parts = ([1, 1, 1], [2, 1, 1], 1);

const DOUBLE: Parts = ([1, 1, 1], [1, 1, 1], 2);

const NARROW: Parts = ([3, 2, 1], [2, 2, 1], 1);

const MOSTLY_PADDING: Parts = ([1, 1, 1], [33, 1, 1], 1);

const SINGLES: Parts = ([2, 1, 1], [1, 1, 1], 1);

const SINGLE: Parts = ([1, 1, 1], [1, 1, 1], 1);

const ODD_WORDS: &[u32] = &[1, 0x01000003, 2, 2, 7, 9];

// The words of a chunk of narrow values, and its values or its fault.
const JUDGED: &[(Parts, &[u32], Result<&[u64], ChunkFault>)] = &[
    // bits 3
    (
        PAIR,
        &[1, 0x03000003, 2, 2, 7, 9],
        Err(ChunkFault::SegBits {
            c: 0,
            b: 0,
            bits: 3,
        }),
    ),
    // the last word is missing
    (
        PAIR,
        &[1, 0x01000003, 2, 2, 7],
        Err(ChunkFault::SegTable { c: 0, b: 0, n: 1 }),
    ),
    // the indices are far away
    (
        PAIR,
        &[1, 0x01000003, 5, 2, 7, 9],
        Err(ChunkFault::SegValues { c: 0, b: 0 }),
    ),
    (
        PAIR,
        &[5, 0x01000003, 2, 2, 7, 9],
        Err(ChunkFault::SegChannel { c: 0 }),
    ),
    (PAIR, &[0xffffffff], Err(ChunkFault::SegChannel { c: 0 })),
    (SINGLE, &[0xffffffff], Err(ChunkFault::SegChannel { c: 0 })),
    (PAIR, &[], Err(ChunkFault::SegLength { found: 0 })),
    // the index of padding isn't judged
    (CLIPPED, &[1, 0x01000003, 2, 2, 7], Ok(&[7])),
    // a table fault of the first channel comes before the second channel
    (
        DOUBLE,
        &[2, 9, 9, 2],
        Err(ChunkFault::SegTable { c: 0, b: 0, n: 0 }),
    ),
    (DOUBLE, &[2, 9, 1, 2], Err(ChunkFault::SegChannel { c: 1 })),
    // the voxel's number counts the padding before it
    (
        NARROW,
        &[1, 0x02000005, 4, 0x01000009, 8, 164, 1, 2, 4, 4, 3],
        Err(ChunkFault::SegTable { c: 0, b: 1, n: 2 }),
    ),
    // the packed indices are those of the whole block
    (
        MOSTLY_PADDING,
        &[1, 0x01000002, 3, 7, 0],
        Err(ChunkFault::SegValues { c: 0, b: 0 }),
    ),
    // a table fault of the first block comes before the bits of the second
    (
        SINGLES,
        &[1, 99, 4, 0x03000004, 4],
        Err(ChunkFault::SegTable { c: 0, b: 0, n: 0 }),
    ),
];

// What a chunk of narrow values is judged to be.
fn check_judged(
    rt: &impl Abort,
    alloc: Global,
    parts: &Parts,
    bytes: &[u8],
    wanted: &Result<&[u64], ChunkFault>,
) -> Result<(), Fail> {
    let (size, block, channels) = *parts;
    let shape = shape(size, block, channels, false).ok_or("shape")?;
    let found = decoded(alloc, bytes, &shape)?;
    match (&found, wanted) {
        (Ok(values), Ok(wanted)) => assert_eq!(rt; values.as_slice(), *wanted),
        (Err(fault), Err(wanted)) => assert_eq!(rt; fault, wanted),
        _ => assert!(rt; false, "{bytes:?}"),
    }
    Ok(())
}

#[test]
fn tells_the_first_fault(rt: HostRuntime) -> Result<(), Fail> {
    for (parts, words, wanted) in JUDGED {
        let bytes = words_to_bytes(rt.alloc(), words)?;
        check_judged(&rt, rt.alloc(), parts, &bytes, wanted)?;
    }
    let odd = words_to_bytes(rt.alloc(), ODD_WORDS)?;
    let fault = Err(ChunkFault::SegLength { found: 23 });
    check_judged(&rt, rt.alloc(), &PAIR, &odd[..odd.len().min(23)], &fault)
}
