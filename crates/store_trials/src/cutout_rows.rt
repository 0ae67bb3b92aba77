//! Boxes and places read from small stores, worked out by hand.
ghost use Rattle.std.specs.Prelude.{◌≡◌, ◌≤◌, length, IfOk};
ghost use Rattle.vol_spec.specs.Raw.{raw_len};

mod known;

use chunk_grid::{byte_len, grid, inside};
use cutout::{CutFault, Found, Reader, StreamFault};
use memory_rows::{outlet_of, put};
use small_scales::{raw_scale, short_name};
use std::alloc::{AllocError, Global};
use std::process::Abort;
use std::test::Fail;
use vol_base::{Box3, ChunkFault, Fault, MemoryStore, Name, OutOfMemory, ShardFault};
use vol_spec::{ChunkSizes, Encoding, HashKind, Scale, Sharding};

fn store_of(
    rt: &impl Abort,
    alloc: Global,
    objects: &[(&[u8], &[u8])],
    failing: u64,
) -> Result<MemoryStore, Fail> {
    let mut store = MemoryStore::new(alloc, Vec::from_slice(alloc, &[failing])?);
    for (text, bytes) in objects {
        let name = short_name(text).expect(rt, "a name");
        store.put(&name, bytes.to_vec(alloc)?)?;
    }
    Ok(store)
}

// Five voxels in three cells of a row, the last one narrower.
fn row_scale(rt: &impl Abort) -> Scale {
    let key = short_name(b"s").expect(rt, "a key");
    raw_scale(key, 1, 1, [5, 1, 1], [0; 3], [2, 1, 1]).expect(rt, "a scale")
}

// One shard of one minishard.
fn one_minishard() -> Sharding {
    Sharding {
        preshift: 0,
        hash: HashKind::Identity,
        minishard_bits: 0,
        shard_bits: 0,
    }
}

// The same cells in shards.
fn sharded_scale(key: Name, sharding: Sharding) -> Scale
    requires { length key ≤ 200 }
{
    Scale {
        key,
        width: 1,
        channels: 1,
        size: [5, 1, 1],
        offset: [0; 3],
        chunk: [2, 1, 1],
        encoding: Encoding::Raw,
        sharding: Some(sharding),
        more: ChunkSizes::none(),
    }
}

// A box, what cutting it out answers, the values where that is Ok, and how many bytes were asked for.
#[derive(Clone, Copy)]
struct Cut<'a> {
    part: Box3,
    answer: Result<(), CutFault>,
    values: &'a [u8],
    asked: u64,
}

// A reader of a scale.
fn open(rt: &impl Abort, alloc: Global, scale: &Scale) -> Result<Reader, OutOfMemory>
    ensures { IfOk result (λ reader. reader.scale ≡ scale.now) }
{
    let dataset = short_name(b"d").expect(rt, "a data set");
    Reader::open(alloc, &dataset, scale)
}

// Room for the bytes of a box.
fn room_for(
    rt: &impl Abort,
    alloc: Global,
    scale: &Scale,
    part: &Box3,
) -> Result<Vec<u8>, AllocError>
    ensures len { IfOk result (λ v. length v.items ≡ raw_len part.now scale.now.channels scale.now.width) }
    ensures small { IfOk result (λ v. length v.items ≤ 64) }
{
    let len = byte_len(part, scale.channels, scale.width);
    assert!(rt; len <= 64);
    vec![in alloc; 9; len as usize]
}

// What a reader answers, what it cuts out, and how many bytes it asks for.
fn check_call(
    rt: &impl Abort,
    reader: &mut Reader,
    store: &mut MemoryStore,
    cut: &Cut,
    out: &mut [u8],
)
    requires len { length out.old ≡ raw_len cut.now.part reader.old.scale.channels reader.old.scale.width }
    requires small { length out.old ≤ 64 }
    ensures len { length out.new ≡ length out.old }
    ensures same { reader.new ≡ reader.old }
{
    let before = store.asked();
    let answer = reader.cutout(store, &cut.part, out);
    assert_eq!(rt; answer, cut.answer);
    assert_eq!(rt; store.asked().wrapping_sub(before), cut.asked);
    assert!(rt; answer.is_err() || *out == *cut.values);
}

fn check_cut(
    rt: &impl Abort,
    alloc: Global,
    scale: &Scale,
    store: &mut MemoryStore,
    cut: &Cut,
) -> Result<(), Fail> {
    assert_eq!(rt;
        cut.answer == Err(CutFault::OutsideScale),
        !inside(scale, &cut.part)
    );
    let mut reader = open(rt, alloc, scale)?;
    let mut out = room_for(rt, alloc, scale, &cut.part)?;
    check_call(rt, &mut reader, store, cut, &mut out);
    Ok(())
}

// Cuts boxes out of a store of some objects, of whose calls one fails.
fn check_cuts(
    rt: &impl Abort,
    alloc: Global,
    scale: &Scale,
    objects: &[(&[u8], &[u8])],
    failing: u64,
    cuts: &[Cut],
) -> Result<(), Fail> {
    let mut store = store_of(rt, alloc, objects, failing)?;
    for cut in cuts {
        check_cut(rt, alloc, scale, &mut store, cut)?;
    }
    Ok(())
}

const LEFT_NAME: &[u8] = b"d/s/0-2_0-1_0-1";

const LEFT: (&[u8], &[u8]) = (LEFT_NAME, &[1, 2]);

const MIDDLE_NAME: &[u8] = b"d/s/2-4_0-1_0-1";

const MIDDLE: (&[u8], &[u8]) = (MIDDLE_NAME, &[3, 4]);

const LONG_MIDDLE: (&[u8], &[u8]) = (MIDDLE_NAME, &[3, 4, 5]);

const LAST: (&[u8], &[u8]) = (b"d/s/4-5_0-1_0-1", &[5]);

const SHARD: &[u8] = b"d/s/0.shard";

// The chunks of the cells 0 and 2: an entry, the chunks, and two rows.
const BYTES: [u8; 67] = [
    3, 0, 0, 0, 0, 0, 0, 0, 51, 0, 0, 0, 0, 0, 0, 0, 1, 2, 5, 0, 0, 0, 0, 0, 0, 0, 0, 2, 0, 0, 0,
    0, 0, 0, 0, 0, 0, 0, 0, 0, 0, 0, 0, 0, 0, 0, 0, 0, 0, 0, 0, 2, 0, 0, 0, 0, 0, 0, 0, 1, 0, 0, 0,
    0, 0, 0, 0,
];

// A call that isn't made.
const NONE_FAILS: u64 = 99;

const ALL: Box3 = Box3 {
    begin: [0; 3],
    size: [5, 1, 1],
};

const THREE: Box3 = Box3 {
    begin: [1, 0, 0],
    size: [3, 1, 1],
};

const OUTSIDE: Box3 = Box3 {
    begin: [3, 0, 0],
    size: [3, 1, 1],
};

const WHOLE: &[Cut<'static>] = &[
    Cut {
        part: ALL,
        answer: Ok(()),
        values: &[1, 2, 3, 4, 5],
        asked: 8,
    },
    Cut {
        part: THREE,
        answer: Ok(()),
        values: &[2, 3, 4],
        asked: 6,
    },
    Cut {
        part: OUTSIDE,
        answer: Err(CutFault::OutsideScale),
        values: &[],
        asked: 0,
    },
];

// The middle is absent.
const WITH_A_HOLE: &[Cut<'static>] = &[Cut {
    part: THREE,
    answer: Ok(()),
    values: &[2, 0, 0],
    asked: 6,
}];

#[test]
fn cuts_boxes_out(rt: HostRuntime) -> Result<(), Fail> {
    let alloc = rt.alloc();
    let scale = row_scale(&rt);
    check_cuts(&rt, alloc, &scale, &[LEFT, MIDDLE, LAST], NONE_FAILS, WHOLE)?;
    check_cuts(&rt, alloc, &scale, &[LEFT, LAST], NONE_FAILS, WITH_A_HOLE)
}

const LONG_CELL: CutFault = CutFault::Damaged {
    cell: [1, 0, 0],
    fault: Fault::Chunk(ChunkFault::ChunkLength {
        found: 3,
        wanted: 2,
    }),
};

const DAMAGED: &[Cut<'static>] = &[Cut {
    part: THREE,
    answer: Err(LONG_CELL),
    values: &[],
    asked: 6,
}];

const FAILED: &[Cut<'static>] = &[Cut {
    part: ALL,
    answer: Err(CutFault::StoreFault),
    values: &[],
    asked: 3,
}];

#[test]
fn tells_faults(rt: HostRuntime) -> Result<(), Fail> {
    let alloc = rt.alloc();
    let scale = row_scale(&rt);
    check_cuts(
        &rt,
        alloc,
        &scale,
        &[LEFT, LONG_MIDDLE],
        NONE_FAILS,
        DAMAGED,
    )?;
    check_cuts(&rt, alloc, &scale, &[LEFT, MIDDLE, LAST], 1, FAILED)
}

// Where the chunk of a cell of the reader's scale stands.
fn locate(
    rt: &impl Abort,
    reader: &mut Reader,
    scale: &Scale,
    store: &mut MemoryStore,
    cell: [u64; 3],
) -> Result<Found, CutFault>
    requires { reader.old.scale ≡ scale.now }
{
    let [x, y, z] = grid(scale).size;
    assert!(rt; cell[0] < x && cell[1] < y && cell[2] < z);
    reader.locate(store, cell)
}

// A cell, the place and the length of its chunk in the object of a name, and how many bytes are asked for.
#[derive(Clone, Copy)]
struct Place<'a> {
    cell: [u64; 3],
    wanted: Option<(&'a [u8], u64, u64)>,
    asked: u64,
}

fn is_place(found: &Found, wanted: Option<(&[u8], u64, u64)>) -> bool {
    match (found, wanted) {
        (Found::Absent, None) => true,
        (Found::At { name, start, len }, Some((object, place, count))) => {
            name.as_bytes() == object && *start == place && *len == count
        }
        _ => false,
    }
}

// Where the chunk of a cell stands, by a new reader.
fn check_place(
    rt: &impl Abort,
    alloc: Global,
    scale: &Scale,
    store: &mut MemoryStore,
    place: &Place,
) -> Result<(), Fail> {
    let mut reader = open(rt, alloc, scale)?;
    let before = store.asked();
    match locate(rt, &mut reader, scale, store, place.cell) {
        Ok(found) => assert!(rt; is_place(&found, place.wanted)),
        Err(_) => return Err("no place")?,
    }
    assert_eq!(rt; store.asked().wrapping_sub(before), place.asked);
    Ok(())
}

fn check_places(
    rt: &impl Abort,
    alloc: Global,
    scale: &Scale,
    store: &mut MemoryStore,
    places: &[Place],
) -> Result<(), Fail> {
    for place in places {
        check_place(rt, alloc, scale, store, place)?;
    }
    Ok(())
}

// The chunk of the first cell isn't found, for this reason.
fn check_lost(
    rt: &impl Abort,
    alloc: Global,
    scale: &Scale,
    store: &mut MemoryStore,
    fault: ShardFault,
) -> Result<(), Fail> {
    let mut reader = open(rt, alloc, scale)?;
    let wanted = CutFault::Damaged {
        cell: [0; 3],
        fault: Fault::Shard(fault),
    };
    let found = locate(rt, &mut reader, scale, store, [0; 3]).err();
    assert_eq!(rt; found, Some(wanted));
    Ok(())
}

// The entry, two rows, and three bytes of chunks; nothing is asked twice.
const IN_A_SHARD: Cut<'static> = Cut {
    part: ALL,
    answer: Ok(()),
    values: &[1, 2, 0, 0, 5],
    asked: 67,
};

const SHARD_PLACES: &[Place<'static>] = &[
    Place {
        cell: [0; 3],
        wanted: Some((SHARD, 16, 2)),
        asked: 64,
    },
    Place {
        cell: [1, 0, 0],
        wanted: None,
        asked: 64,
    },
    Place {
        cell: [2, 0, 0],
        wanted: Some((SHARD, 18, 1)),
        asked: 64,
    },
];

// A store of so many bytes of the shard.
fn store_of_front(rt: &impl Abort, alloc: Global, count: usize) -> Result<MemoryStore, Fail>
    requires { count ≤ 67 }
{
    store_of(rt, alloc, &[(SHARD, &BYTES[..count])], NONE_FAILS)
}

// The row in one shard.
fn shard_scale(rt: &impl Abort) -> Scale {
    sharded_scale(short_name(b"s").expect(rt, "a key"), one_minishard())
}

fn check_sound_shard(rt: &impl Abort, alloc: Global, scale: &Scale) -> Result<(), Fail> {
    let mut store = store_of_front(rt, alloc, 67)?;
    check_cut(rt, alloc, scale, &mut store, &IN_A_SHARD)?;
    check_places(rt, alloc, scale, &mut store, SHARD_PLACES)
}

#[test]
fn reads_shards(rt: HostRuntime) -> Result<(), Fail> {
    let alloc = rt.alloc();
    let scale = shard_scale(&rt);
    check_sound_shard(&rt, alloc, &scale)?;
    let mut store = store_of_front(&rt, alloc, 66)?;
    check_lost(&rt, alloc, &scale, &mut store, ShardFault::ShortMinishard)
}

const OWN_PLACES: &[Place<'static>] = &[
    Place {
        cell: [0; 3],
        wanted: Some((LEFT_NAME, 0, 2)),
        asked: 0,
    },
    Place {
        cell: [1, 0, 0],
        wanted: Some((MIDDLE_NAME, 0, 3)),
        asked: 0,
    },
    Place {
        cell: [2, 0, 0],
        wanted: None,
        asked: 0,
    },
];

#[test]
fn finds_objects(rt: HostRuntime) -> Result<(), Fail> {
    let alloc = rt.alloc();
    let scale = row_scale(&rt);
    let mut store = store_of(&rt, alloc, &[LEFT, LONG_MIDDLE], NONE_FAILS)?;
    check_places(&rt, alloc, &scale, &mut store, OWN_PLACES)
}

// The same chunks, of the cells 1 and 3: of the latter there is none.
const OTHER_BYTES: [u8; 67] = [
    3, 0, 0, 0, 0, 0, 0, 0, 51, 0, 0, 0, 0, 0, 0, 0, 1, 2, 5, 1, 0, 0, 0, 0, 0, 0, 0, 2, 0, 0, 0,
    0, 0, 0, 0, 0, 0, 0, 0, 0, 0, 0, 0, 0, 0, 0, 0, 0, 0, 0, 0, 2, 0, 0, 0, 0, 0, 0, 0, 1, 0, 0, 0,
    0, 0, 0, 0,
];

// The entry, two rows, and a chunk.
const IN_THE_OTHER: Cut<'static> = Cut {
    part: ALL,
    answer: Ok(()),
    values: &[0, 0, 1, 2, 0],
    asked: 66,
};

// Cuts all out by one reader, before and after another shard is put in the place of the first.
fn check_replaced(
    rt: &impl Abort,
    alloc: Global,
    scale: &Scale,
    store: &mut MemoryStore,
) -> Result<(), Fail> {
    let mut out = room_for(rt, alloc, scale, &ALL)?;
    let mut reader = open(rt, alloc, scale)?;
    check_call(rt, &mut reader, store, &IN_A_SHARD, &mut out);
    put(alloc, store, "d/s/0.shard", &OTHER_BYTES)?;
    check_call(rt, &mut reader, store, &IN_THE_OTHER, &mut out);
    Ok(())
}

#[test]
fn reads_a_new_shard_anew(rt: HostRuntime) -> Result<(), Fail> {
    let alloc = rt.alloc();
    let scale = shard_scale(&rt);
    let mut store = store_of_front(&rt, alloc, 67)?;
    check_replaced(&rt, alloc, &scale, &mut store)
}

// Two rows of three values of four bytes, in cells of two by two; the second cell has one voxel of each row.
fn segmented_scale(key: Name) -> Scale
    requires { length key ≤ 200 }
{
    Scale {
        key,
        width: 4,
        channels: 1,
        size: [3, 2, 1],
        offset: [0; 3],
        chunk: [2, 2, 1],
        encoding: Encoding::Seg { block: [2, 2, 1] },
        sharding: None,
        more: ChunkSizes::none(),
    }
}

// The values 1 2 4 4, by a table of three and two bits a voxel.
const FIRST_CHUNK: [u8; 28] = [
    1, 0, 0, 0, 3, 0, 0, 2, 2, 0, 0, 0, 164, 0, 0, 0, 1, 0, 0, 0, 2, 0, 0, 0, 4, 0, 0, 0,
];

// The values 3 5: the second voxel of a block that is clipped has number 2.
const SECOND_CHUNK: [u8; 24] = [
    1, 0, 0, 0, 3, 0, 0, 1, 2, 0, 0, 0, 4, 0, 0, 0, 3, 0, 0, 0, 5, 0, 0, 0,
];

// An index of three bits.
const BAD_BITS: [u8; 24] = [
    1, 0, 0, 0, 3, 0, 0, 3, 2, 0, 0, 0, 4, 0, 0, 0, 3, 0, 0, 0, 5, 0, 0, 0,
];

const PLANE: Box3 = Box3 {
    begin: [0; 3],
    size: [3, 2, 1],
};

const PLANE_VALUES: [u8; 24] = [
    1, 0, 0, 0, 2, 0, 0, 0, 3, 0, 0, 0, 4, 0, 0, 0, 4, 0, 0, 0, 5, 0, 0, 0,
];

// The first voxel of the second row.
const CORNER: Box3 = Box3 {
    begin: [0, 1, 0],
    size: [1; 3],
};

const FIRST: (&[u8], &[u8]) = (b"d/s/0-2_0-2_0-1", &FIRST_CHUNK);

const SECOND_NAME: &[u8] = b"d/s/2-3_0-2_0-1";

// Of each cell the longest chunk and a byte more is asked for.
const CORNER_CUT: Cut<'static> = Cut {
    part: CORNER,
    answer: Ok(()),
    values: &[4, 0, 0, 0],
    asked: 69,
};

const SOUND_CUTS: &[Cut<'static>] = &[
    Cut {
        part: PLANE,
        answer: Ok(()),
        values: &PLANE_VALUES,
        asked: 69 + 69,
    },
    CORNER_CUT,
];

const BAD_CELL: CutFault = CutFault::Damaged {
    cell: [1, 0, 0],
    fault: Fault::Chunk(ChunkFault::SegBits {
        c: 0,
        b: 0,
        bits: 3,
    }),
};

const DAMAGED_CUTS: &[Cut<'static>] = &[
    Cut {
        part: PLANE,
        answer: Err(BAD_CELL),
        values: &[],
        asked: 138,
    },
    CORNER_CUT,
];

#[test]
fn cuts_segmentations_out(rt: HostRuntime) -> Result<(), Fail> {
    let alloc = rt.alloc();
    let scale = segmented_scale(short_name(b"s").expect(&rt, "a key"));
    let sound = [FIRST, (SECOND_NAME, SECOND_CHUNK.as_slice())];
    check_cuts(&rt, alloc, &scale, &sound, NONE_FAILS, SOUND_CUTS)?;
    let damaged = [FIRST, (SECOND_NAME, BAD_BITS.as_slice())];
    check_cuts(&rt, alloc, &scale, &damaged, NONE_FAILS, DAMAGED_CUTS)
}

// One voxel wide and five high from a place on, in three layers of cells, of two channels.
fn tall_scale(rt: &impl Abort, begin: i64) -> Scale {
    let key = short_name(b"s").expect(rt, "a key");
    raw_scale(key, 1, 2, [1, 1, 5], [0, 0, begin], [1, 1, 2]).expect(rt, "a scale")
}

const LOW: (&[u8], &[u8]) = (b"d/s/0-1_0-1_0-2", &[1, 2, 11, 12]);

const HIGH_NAME: &[u8] = b"d/s/0-1_0-1_2-4";

const HIGH: (&[u8], &[u8]) = (HIGH_NAME, &[3, 4, 13, 14]);

const LONG_HIGH: (&[u8], &[u8]) = (HIGH_NAME, &[3, 4, 13, 14, 9]);

const TOP: (&[u8], &[u8]) = (b"d/s/0-1_0-1_4-5", &[5, 15]);

const TALL: Box3 = Box3 {
    begin: [0; 3],
    size: [1, 1, 5],
};

const TALL_VALUES: [u8; 10] = [1, 2, 3, 4, 5, 11, 12, 13, 14, 15];

// Begins and ends inside cells.
const INNER: Box3 = Box3 {
    begin: [0, 0, 1],
    size: [1, 1, 3],
};

// The same cells three planes lower, the highest with a byte too many.
const DEEP: [(&[u8], &[u8]); 3] = [
    (b"d/s/0-1_0-1_-3--1", &[1, 2, 11, 12]),
    (b"d/s/0-1_0-1_-1-1", &[3, 4, 13, 14]),
    (b"d/s/0-1_0-1_1-2", &[5, 15, 9]),
];

const DEEP_ALL: Box3 = Box3 {
    begin: [0, 0, -3],
    size: [1, 1, 5],
};

// Begins inside a cell.
const DEEP_INNER: Box3 = Box3 {
    begin: [0, 0, -2],
    size: [1, 1, 4],
};

// What takes the bytes: so many at once, until a call fails.
#[derive(Clone, Copy)]
struct Taker {
    piece: usize,
    failing: u64,
}

const WELL: Taker = Taker {
    piece: 64,
    failing: NONE_FAILS,
};

fn check_stream(
    rt: &impl Abort,
    alloc: Global,
    scale: &Scale,
    store: &mut MemoryStore,
    part: &Box3,
    taker: Taker,
    answer: Result<(), StreamFault>,
    written: &[u8],
) -> Result<(), Fail> {
    assert!(rt; byte_len(part, scale.channels, scale.width) <= 64);
    let mut out = outlet_of(alloc, taker.piece, &[taker.failing])?;
    let mut reader = open(rt, alloc, scale)?;
    let streamed = reader.stream(alloc, store, part, &mut out);
    assert!(rt; streamed == answer);
    assert!(rt; out.written() == written);
    Ok(())
}

#[test]
fn writes_by_layers(rt: HostRuntime) -> Result<(), Fail> {
    let alloc = rt.alloc();
    let scale = tall_scale(&rt, 0);
    let mut store = store_of(&rt, alloc, &[LOW, HIGH, TOP], NONE_FAILS)?;
    check_stream(
        &rt,
        alloc,
        &scale,
        &mut store,
        &TALL,
        WELL,
        Ok(()),
        &TALL_VALUES,
    )?;
    // Of each cell its chunk and a byte more, for each channel.
    assert_eq!(rt; store.asked(), 2 * (5 + 5 + 3));
    let inner = [2, 3, 4, 12, 13, 14];
    check_stream(&rt, alloc, &scale, &mut store, &INNER, WELL, Ok(()), &inner)?;
    let outside = Err(StreamFault::OutsideScale);
    check_stream(&rt, alloc, &scale, &mut store, &OUTSIDE, WELL, outside, &[])
}

#[test]
fn writes_what_is_below_damage(rt: HostRuntime) -> Result<(), Fail> {
    let alloc = rt.alloc();
    let long = ChunkFault::ChunkLength {
        found: 5,
        wanted: 4,
    };
    let damaged = Err(StreamFault::Damaged {
        cell: [0, 0, 1],
        fault: Fault::Chunk(long),
    });
    let scale = tall_scale(&rt, 0);
    let mut store = store_of(&rt, alloc, &[LOW, LONG_HIGH, TOP], NONE_FAILS)?;
    check_stream(
        &rt,
        alloc,
        &scale,
        &mut store,
        &TALL,
        WELL,
        damaged,
        &[1, 2],
    )?;
    check_stream(&rt, alloc, &scale, &mut store, &INNER, WELL, damaged, &[2])
}

#[test]
fn writes_two_layers_below_damage(rt: HostRuntime) -> Result<(), Fail> {
    let alloc = rt.alloc();
    let long = ChunkFault::ChunkLength {
        found: 3,
        wanted: 2,
    };
    let damaged = Err(StreamFault::Damaged {
        cell: [0, 0, 2],
        fault: Fault::Chunk(long),
    });
    let scale = tall_scale(&rt, -3);
    let mut store = store_of(&rt, alloc, &DEEP, NONE_FAILS)?;
    check_stream(
        &rt,
        alloc,
        &scale,
        &mut store,
        &DEEP_ALL,
        WELL,
        damaged,
        &[1, 2, 3, 4],
    )?;
    check_stream(
        &rt,
        alloc,
        &scale,
        &mut store,
        &DEEP_INNER,
        WELL,
        damaged,
        &[2, 3, 4],
    )
}

// What was written when a call of the store fails.
const FRONTS: [&[u8]; 6] = [
    &[],
    &[1, 2],
    &[1, 2, 3, 4],
    &[1, 2, 3, 4, 5],
    &[1, 2, 3, 4, 5, 11, 12],
    &[1, 2, 3, 4, 5, 11, 12, 13, 14],
];

// What was asked for when a call of the outlet fails: the chunks up to the layer that it was given, and no more.
const ASKED: [u64; 10] = [5, 5, 10, 10, 13, 18, 18, 23, 23, 26];

#[test]
fn writes_a_front_where_a_call_fails(rt: HostRuntime) -> Result<(), Fail> {
    let alloc = rt.alloc();
    let scale = tall_scale(&rt, 0);
    for call in 0..6 {
        let mut store = store_of(&rt, alloc, &[LOW, HIGH, TOP], call)?;
        let failed = Err(StreamFault::StoreFault);
        let front = FRONTS[call as usize];
        check_stream(&rt, alloc, &scale, &mut store, &TALL, WELL, failed, front)?;
    }
    for call in 0..10 {
        let mut store = store_of(&rt, alloc, &[LOW, HIGH, TOP], NONE_FAILS)?;
        let taker = Taker {
            piece: 1,
            failing: call,
        };
        let failed = Err(StreamFault::OutFault);
        let front = &TALL_VALUES[..call as usize];
        check_stream(&rt, alloc, &scale, &mut store, &TALL, taker, failed, front)?;
        assert_eq!(rt; store.asked(), ASKED[call as usize]);
    }
    Ok(())
}
