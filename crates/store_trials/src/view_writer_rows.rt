//! Objects of scales with several chunk sizes, worked out by hand.
ghost use Rattle.std.specs.Prelude.{All, IfOk};
ghost use Rattle.write_plan.specs.WriteLists.{IsWriteOf};

use info_doc::scale_of;
use memory_rows::{has_all, has_none, name_of, raw_info};
use shard_writer::Written;
use std::alloc::{AllocError, Global};
use std::process::Abort;
use std::sync::Wait;
use std::test::Fail;
use std::thread::Threads;
use view_writer::{ViewsRefusal, find_wide, write_views};
use vol_base::{FreeGate, MemoryFeed, MemoryStore};
use vol_spec::Scale;
use write_plan::{Writes, read_writes};

// A box and the bytes of its values.
#[derive(Clone, Copy)]
struct Write<'a> {
    begin: [i64; 3],
    size: [u64; 3],
    values: &'a [u8],
}

// The stream of a write.
fn print_stream(alloc: Global, write: &Write) -> Result<Vec<u8>, AllocError> {
    let mut bytes = Vec::from_slice(alloc, b"PVW1\x01\0\0\0")?;
    for begin in write.begin {
        bytes.extend_from_slice(&begin.to_le_bytes())?;
    }
    for size in write.size {
        bytes.extend_from_slice(&size.to_le_bytes())?;
    }
    bytes.extend_from_slice(write.values)?;
    Ok(bytes)
}

// The scale of a document.
fn read_scale(alloc: Global, info: &str) -> Result<Scale, Fail> {
    let key = name_of("s")?;
    match scale_of(alloc, info.as_bytes(), &key) {
        Ok(scale) => Ok(scale),
        Err(_) => Err("the document has no fault".into()),
    }
}

// The scale of a raw document with a size and chunk sizes.
fn raw_scale(alloc: Global, sizes: &[&str; 2]) -> Result<Scale, Fail> {
    let [size, chunks] = *sizes;
    let info = raw_info(alloc, size, chunks)?;
    read_scale(alloc, &info)
}

// What is read of a stream of one write.
fn writes_of(alloc: Global, scale: &Scale, write: &Write) -> Result<Writes, Fail>
    ensures { IfOk result (λ writes. All (IsWriteOf scale.now) writes) }
{
    let stream = print_stream(alloc, write)?;
    let mut feed = MemoryFeed::new(stream, 64, Vec::new(alloc));
    match read_writes(alloc, &mut feed, scale) {
        Ok(writes) => Ok(writes),
        Err(_) => Err("the stream has no fault".into()),
    }
}

// The answer to a write into all views of a scale by so many workers, over a store of whose calls one fails.
fn call<R: Threads + Wait + Abort + Sync>(
    rt: &R,
    alloc: Global,
    store: &mut MemoryStore,
    scale: &Scale,
    write: &Write,
    workers: u32,
) -> Result<Result<Written, ViewsRefusal>, Fail> {
    assert!(rt; find_wide(scale).is_none());
    let writes = writes_of(alloc, scale, write)?;
    let dataset = name_of("d")?;
    Ok(write_views(
        rt, alloc, store, &dataset, scale, writes, workers, &FreeGate,
    ))
}

const FOUR: Write = Write {
    begin: [0, 0, 0],
    size: [4, 1, 1],
    values: &[1, 2, 3, 4],
};

const FIVE: Write = Write {
    begin: [0, 0, 0],
    size: [5, 1, 1],
    values: &[1, 2, 3, 4, 5],
};

const CORNER: Write = Write {
    begin: [1, 1, 0],
    size: [1, 1, 1],
    values: &[9],
};

// The size and the chunk sizes of a raw scale, a write, how many objects, cells and bytes are counted, and the objects
// in the order in which they are put.
type Case = (
    [&'static str; 2],
    Write<'static>,
    [u64; 3],
    &'static [(&'static str, &'static [u8])],
);

const TWO_VIEWS: Case = (
    ["[4,1,1]", "[4,1,1],[2,1,1]"],
    FOUR,
    [3, 3, 8],
    &[
        ("d/s/0-4_0-1_0-1", &[1, 2, 3, 4]),
        ("d/s/0-2_0-1_0-1", &[1, 2]),
        ("d/s/2-4_0-1_0-1", &[3, 4]),
    ],
);

const CASES: &[Case] = &[
    TWO_VIEWS,
    (
        ["[4,1,1]", "[2,1,1],[2,1,1]"],
        FOUR,
        [4, 4, 8],
        &[("d/s/0-2_0-1_0-1", &[1, 2]), ("d/s/2-4_0-1_0-1", &[3, 4])],
    ),
    (
        ["[5,1,1]", "[4,1,1],[2,1,1],[3,1,1]"],
        FIVE,
        [7, 7, 15],
        &[
            ("d/s/0-4_0-1_0-1", &[1, 2, 3, 4]),
            ("d/s/4-5_0-1_0-1", &[5]),
            ("d/s/0-2_0-1_0-1", &[1, 2]),
            ("d/s/2-4_0-1_0-1", &[3, 4]),
            ("d/s/0-3_0-1_0-1", &[1, 2, 3]),
            ("d/s/3-5_0-1_0-1", &[4, 5]),
        ],
    ),
    (
        ["[2,2,1]", "[2,2,1],[1,1,1]"],
        CORNER,
        [2, 2, 5],
        &[
            ("d/s/0-2_0-2_0-1", &[0, 0, 0, 9]),
            ("d/s/1-2_1-2_0-1", &[9]),
        ],
    ),
    (
        ["[5,1,1]", "[5,1,1]"],
        FIVE,
        [1, 1, 5],
        &[("d/s/0-5_0-1_0-1", &[1, 2, 3, 4, 5])],
    ),
];

// A write by so many workers.
fn check_case<R: Threads + Wait + Abort + Sync>(
    rt: &R,
    alloc: Global,
    case: &Case,
    workers: u32,
) -> Result<(), Fail> {
    let (sizes, write, counts, stand) = case;
    let scale = raw_scale(alloc, sizes)?;
    let mut store = MemoryStore::new(alloc, Vec::new(alloc));
    let answer = call(rt, alloc, &mut store, &scale, write, workers)?;
    let [objects, cells, bytes] = *counts;
    let wanted = Written {
        objects,
        cells,
        bytes,
    };
    assert_eq!(rt; answer, Ok(wanted));
    assert!(rt; has_all(&store, stand));
    Ok(())
}

#[test]
fn stores_each_view(rt: HostRuntime) -> Result<(), Fail> {
    for case in CASES {
        check_case(&rt, rt.alloc(), case, 1)?;
        check_case(&rt, rt.alloc(), case, 3)?;
    }
    Ok(())
}

// Whether a store has so many of some objects in front, and none of the others.
fn has_front(store: &MemoryStore, objects: &[(&str, &[u8])], count: usize) -> bool {
    let (there, absent) = objects.split_at(count.min(objects.len()));
    has_all(store, there) && has_none(store, absent)
}

// The number of the call that fails, and how many objects stand.
const FRONTS: &[(u64, usize)] = &[(0, 0), (2, 0), (3, 1), (5, 1), (6, 2), (8, 2)];

// Where a call of the store fails, so many objects stand.
fn check_front<R: Threads + Wait + Abort + Sync>(
    rt: &R,
    alloc: Global,
    failing: u64,
    count: usize,
) -> Result<(), Fail> {
    let (sizes, write, _, stand) = &TWO_VIEWS;
    let scale = raw_scale(alloc, sizes)?;
    let mut store = MemoryStore::new(alloc, Vec::from_slice(alloc, &[failing])?);
    let answer = call(rt, alloc, &mut store, &scale, write, 1)?;
    assert_eq!(rt; answer, Err(ViewsRefusal::StoreFault));
    assert!(rt; has_front(&store, stand, count));
    Ok(())
}

// Each object is put by three calls: where one fails, those in front stand.
#[test]
fn puts_a_front(rt: HostRuntime) -> Result<(), Fail> {
    for (failing, count) in FRONTS {
        check_front(&rt, rt.alloc(), *failing, *count)?;
    }
    Ok(())
}

// A write with too many pairs in the second view is refused, and the object of the first one isn't put.
fn check_wide<R: Threads + Wait + Abort + Sync>(
    rt: &R,
    alloc: Global,
    write: &Write,
) -> Result<(), Fail> {
    let scale = raw_scale(alloc, &["[4194305,1,1]", "[4194305,1,1],[1,1,1]"])?;
    let mut store = MemoryStore::new(alloc, Vec::new(alloc));
    let answer = call(rt, alloc, &mut store, &scale, write, 1)?;
    let cells = 4_194_305;
    assert_eq!(rt; answer, Err(ViewsRefusal::TooManyCells { cells }));
    assert!(rt; has_none(&store, &[("d/s/0-4194305_0-1_0-1", &[])]));
    Ok(())
}

// The pairs of a further view are judged before the first object of the first one.
#[test]
fn judges_all_pairs_first(rt: HostRuntime) -> Result<(), Fail> {
    let alloc = rt.alloc();
    let values = vec![in alloc; 1; 4_194_305]?;
    let write = Write {
        begin: [0, 0, 0],
        size: [4_194_305, 1, 1],
        values: &values,
    };
    check_wide(&rt, alloc, &write)
}

const WIDE: &str =
    "{\"type\":\"segmentation\",\"data_type\":\"uint32\",\"num_channels\":1,\"scales\":[{\"key\":\"s\",\"size\":[4194305,1,1],\"chunk_sizes\":[[64,1,1],[4194304,1,1],[4194305,1,1]],\"resolution\":[8,8,40],\"encoding\":\"compressed_segmentation\",\"compressed_segmentation_block_size\":[1,1,1]}]}";

#[test]
fn finds_the_first_wide_view(rt: HostRuntime) -> Result<(), Fail> {
    let scale = read_scale(rt.alloc(), WIDE)?;
    assert_eq!(&rt; find_wide(&scale), Some(4_194_305));
    Ok(())
}
