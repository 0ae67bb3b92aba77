//! Writes over stand-ins in memory. What each stores and answers was worked out by hand, what is in shards by the plain
//! reader in `tests/model/shards.py`.

mod deep;
mod failing;

use crate::answers::{check_first, check_told, document_store, put_all};
use command_base::{Crew, Status};
use memory_rows::{has_all, has_none, name_of, outlet_of, put, raw_info};
use std::alloc::{AllocError, Global};
use std::process::Abort;
use std::sync::Wait;
use std::test::Fail;
use std::thread::Threads;
use vol_base::{FreeGate, MemoryFeed, MemoryOutlet, MemoryStore};
use write_cmd::run_write;

// A box and the bytes of its values.
#[derive(Clone, Copy)]
struct Write<'a> {
    begin: [i64; 3],
    size: [u64; 3],
    values: &'a [u8],
}

// An object and its bytes.
type Object<'a> = (&'a str, &'a [u8]);

// The numbers of the calls that fail, of the store, the feed, the output and the error output, and the most bytes that
// one call moves.
#[derive(Clone, Copy)]
struct Faults<'a> {
    store: &'a [u64],
    feed: &'a [u64],
    out: &'a [u64],
    err: &'a [u64],
    piece: u8,
}

const NO_FAULTS: Faults = Faults {
    store: &[],
    feed: &[],
    out: &[],
    err: &[],
    piece: 255,
};

fn put_write(bytes: &mut Vec<u8>, write: &Write) -> Result<(), AllocError> {
    for begin in &write.begin {
        bytes.extend_from_slice(&begin.to_le_bytes())?;
    }
    for size in &write.size {
        bytes.extend_from_slice(&size.to_le_bytes())?;
    }
    bytes.extend_from_slice(write.values)?;
    Ok(())
}

fn stream_of(alloc: Global, writes: &[Write]) -> Result<Vec<u8>, AllocError> {
    let mut bytes = Vec::from_slice(alloc, b"PVW1")?;
    let count = u32::try_from(writes.len()).unwrap_or(0);
    bytes.extend_from_slice(&count.to_le_bytes())?;
    for write in writes {
        put_write(&mut bytes, write)?;
    }
    Ok(bytes)
}

// The document of a scale: a raw one by its size and its chunk sizes, labels in blocks of one voxel by the same, or a whole
// document.
#[derive(Clone, Copy)]
enum Info<'a> {
    Raw(&'a str, &'a str),
    Labels(&'a str, &'a str),
    Whole(&'a str),
}

fn label_info(alloc: Global, size: &str, chunks: &str) -> Result<String, AllocError> {
    let mut info = String::from_str(
        alloc,
        "{\"type\":\"segmentation\",\"data_type\":\"uint32\",\"num_channels\":1,\"scales\":[{\"key\":\"s\",\"size\":",
    )?;
    info.push_str(size)?;
    info.push_str(",\"chunk_sizes\":[")?;
    info.push_str(chunks)?;
    info.push_str(
        "],\"resolution\":[8,8,40],\"encoding\":\"compressed_segmentation\",\"compressed_segmentation_block_size\":[1,1,1]}]}",
    )?;
    Ok(info)
}

fn print_info(alloc: Global, info: &Info) -> Result<String, AllocError> {
    match info {
        Info::Raw(size, chunks) => raw_info(alloc, size, chunks),
        Info::Labels(size, chunks) => label_info(alloc, size, chunks),
        Info::Whole(text) => String::from_str(alloc, text),
    }
}

// A store that has a document alone.
fn store_of(alloc: Global, info: &Info, failing: &[u64]) -> Result<MemoryStore, Fail> {
    document_store(alloc, &print_info(alloc, info)?, failing)
}

// The status of a write.
fn call<R: Threads + Wait + Sync>(
    rt: &R,
    alloc: Global,
    store: &mut MemoryStore,
    feed: &mut MemoryFeed,
    out: &mut MemoryOutlet,
    err: &mut MemoryOutlet,
    workers: u32,
) -> Result<Status, Fail> {
    let dataset = name_of("d")?;
    let key = name_of("s")?;
    let crew = Crew::of(rt, alloc, workers, &FreeGate);
    Ok(run_write(&crew, store, feed, out, err, &dataset, &key))
}

// What a write answers: its status, the line that it prints or tells, and how many of the objects of its row stand afterwards.
#[derive(Clone, Copy)]
struct Answer<'a> {
    status: Status,
    line: &'a str,
    count: usize,
}

// A write of a stream answers this.
fn check<R: Threads + Wait + Abort + Sync>(
    rt: &R,
    alloc: Global,
    store: &mut MemoryStore,
    stream: &[u8],
    workers: u32,
    faults: &Faults,
    answer: &Answer,
) -> Result<(), Fail> {
    let piece = usize::from(faults.piece.max(1));
    let mut feed = MemoryFeed::new(stream.to_vec(alloc)?, piece, faults.feed.to_vec(alloc)?);
    let mut out = outlet_of(alloc, piece, faults.out)?;
    let mut err = outlet_of(alloc, piece, faults.err)?;
    let status = call(rt, alloc, store, &mut feed, &mut out, &mut err, workers)?;
    assert_eq!(rt; status, answer.status);
    check_told(rt, &out, &err, status, answer.line);
    Ok(())
}

const PLANE: Info = Info::Raw("[2,2,1]", "[2,2,1]");

const ROWS: Info = Info::Raw("[5,1,1]", "[4,1,1]");

const WHOLE: Write = Write {
    begin: [0, 0, 0],
    size: [2, 2, 1],
    values: &[1, 2, 3, 4],
};

const CORNER: Write = Write {
    begin: [1, 1, 0],
    size: [1, 1, 1],
    values: &[9],
};

const FIVE: Write = Write {
    begin: [0, 0, 0],
    size: [5, 1, 1],
    values: &[1, 2, 3, 4, 5],
};

const SEAM: Write = Write {
    begin: [3, 0, 0],
    size: [2, 1, 1],
    values: &[7, 8],
};

const THREE: Write = Write {
    begin: [0, 0, 0],
    size: [3, 1, 1],
    values: &[1, 2, 3],
};

const FOUR: Write = Write {
    begin: [0, 0, 0],
    size: [4, 1, 1],
    values: &[1, 2, 3, 4],
};

// A scale, writes into it, the line that is printed, and the objects that stand afterwards, in the order in which they are put.
#[derive(Clone, Copy)]
struct Case<'a> {
    info: Info<'a>,
    writes: &'a [Write<'a>],
    line: &'a str,
    objects: &'a [Object<'a>],
}

const IN_PLANE: Case = Case {
    info: PLANE,
    writes: &[WHOLE],
    line: "objects 1 cells 1\n",
    objects: &[("d/s/0-2_0-2_0-1", &[1, 2, 3, 4])],
};

const IN_ROWS: Case = Case {
    info: ROWS,
    writes: &[FIVE],
    line: "objects 2 cells 2\n",
    objects: &[
        ("d/s/0-4_0-1_0-1", &[1, 2, 3, 4]),
        ("d/s/4-5_0-1_0-1", &[5]),
    ],
};

const IN_CELLS: Case = Case {
    info: Info::Raw("[3,1,1]", "[1,1,1]"),
    writes: &[THREE],
    line: "objects 3 cells 3\n",
    objects: &[
        ("d/s/0-1_0-1_0-1", &[1]),
        ("d/s/1-2_0-1_0-1", &[2]),
        ("d/s/2-3_0-1_0-1", &[3]),
    ],
};

// Four voxels as one chunk, and as two.
const IN_VIEWS: Case = Case {
    info: Info::Raw("[4,1,1]", "[4,1,1],[2,1,1]"),
    writes: &[FOUR],
    line: "objects 3 cells 3\n",
    objects: &[
        ("d/s/0-4_0-1_0-1", &[1, 2, 3, 4]),
        ("d/s/0-2_0-1_0-1", &[1, 2]),
        ("d/s/2-4_0-1_0-1", &[3, 4]),
    ],
};

const CASES: &[Case] = &[
    Case {
        writes: &[],
        line: "objects 0 cells 0\n",
        objects: &[],
        ..IN_PLANE
    },
    IN_PLANE,
    Case {
        writes: &[WHOLE, CORNER],
        objects: &[("d/s/0-2_0-2_0-1", &[1, 2, 3, 9])],
        ..IN_PLANE
    },
    Case {
        writes: &[CORNER, WHOLE],
        ..IN_PLANE
    },
    Case {
        writes: &[CORNER, CORNER],
        objects: &[("d/s/0-2_0-2_0-1", &[0, 0, 0, 9])],
        ..IN_PLANE
    },
    IN_ROWS,
    Case {
        writes: &[SEAM],
        objects: &[
            ("d/s/0-4_0-1_0-1", &[0, 0, 0, 7]),
            ("d/s/4-5_0-1_0-1", &[8]),
        ],
        ..IN_ROWS
    },
    IN_CELLS,
    IN_VIEWS,
];

// Writes into an empty scale by so many workers, while calls fail.
fn check_case<R: Threads + Wait + Abort + Sync>(
    rt: &R,
    alloc: Global,
    case: &Case,
    workers: u32,
    faults: &Faults,
    answer: &Answer,
) -> Result<(), Fail> {
    let mut store = store_of(alloc, &case.info, faults.store)?;
    let stream = stream_of(alloc, case.writes)?;
    check(rt, alloc, &mut store, &stream, workers, faults, answer)?;
    check_first(rt, &store, case.objects, answer.count);
    Ok(())
}

// What a row answers that no fault meets.
fn well<'a>(case: &Case<'a>) -> Answer<'a> {
    Answer {
        status: Status::Ok,
        line: case.line,
        count: case.objects.len(),
    }
}

// The rows of a table, by so many workers, in pieces of so many bytes.
fn check_cases<R: Threads + Wait + Abort + Sync>(
    rt: &R,
    alloc: Global,
    cases: &[Case],
    workers: u32,
    piece: u8,
) -> Result<(), Fail> {
    let faults = Faults { piece, ..NO_FAULTS };
    for case in cases {
        check_case(rt, alloc, case, workers, &faults, &well(case))?;
    }
    Ok(())
}

#[test]
fn stores_writes(rt: HostRuntime) -> Result<(), Fail> {
    let alloc = rt.alloc();
    check_cases(&rt, alloc, CASES, 1, 255)?;
    check_cases(&rt, alloc, CASES, 3, 1)?;
    check_cases(&rt, alloc, CASES, 16, 7)
}

// Two voxels, each a cell: in one minishard that all ids share, and in sixteen shards by the hash.
const NO_ID_BITS: &str =
    "{\"type\":\"image\",\"data_type\":\"uint8\",\"num_channels\":1,\"scales\":[{\"key\":\"s\",\"size\":[2,1,1],\"chunk_sizes\":[[1,1,1]],\"resolution\":[8,8,40],\"encoding\":\"raw\",\"sharding\":{\"@type\":\"neuroglancer_uint64_sharded_v1\",\"preshift_bits\":64,\"hash\":\"identity\",\"minishard_bits\":0,\"shard_bits\":0}}]}";

const HASHED: &str =
    "{\"type\":\"image\",\"data_type\":\"uint8\",\"num_channels\":1,\"scales\":[{\"key\":\"s\",\"size\":[2,1,1],\"chunk_sizes\":[[1,1,1]],\"resolution\":[8,8,40],\"encoding\":\"raw\",\"sharding\":{\"@type\":\"neuroglancer_uint64_sharded_v1\",\"preshift_bits\":0,\"hash\":\"murmurhash3_x86_128\",\"minishard_bits\":3,\"shard_bits\":4}}]}";

// Two labels as one compressed segmentation.
const LABELS: &str =
    "{\"type\":\"segmentation\",\"data_type\":\"uint32\",\"num_channels\":1,\"scales\":[{\"key\":\"s\",\"size\":[2,1,1],\"chunk_sizes\":[[2,1,1]],\"resolution\":[8,8,40],\"encoding\":\"compressed_segmentation\",\"compressed_segmentation_block_size\":[2,1,1]}]}";

// The values 10 and 11 in one minishard, and each in a shard of its own.
const ONE_INDEX: &[u8] = &[
    2, 0, 0, 0, 0, 0, 0, 0, 50, 0, 0, 0, 0, 0, 0, 0, 10, 11, 0, 0, 0, 0, 0, 0, 0, 0, 1, 0, 0, 0, 0,
    0, 0, 0, 0, 0, 0, 0, 0, 0, 0, 0, 0, 0, 0, 0, 0, 0, 0, 0, 1, 0, 0, 0, 0, 0, 0, 0, 1, 0, 0, 0, 0,
    0, 0, 0,
];

const IN_SHARD_8: &[u8] = &[
    0, 0, 0, 0, 0, 0, 0, 0, 0, 0, 0, 0, 0, 0, 0, 0, 1, 0, 0, 0, 0, 0, 0, 0, 25, 0, 0, 0, 0, 0, 0,
    0, 0, 0, 0, 0, 0, 0, 0, 0, 0, 0, 0, 0, 0, 0, 0, 0, 0, 0, 0, 0, 0, 0, 0, 0, 0, 0, 0, 0, 0, 0, 0,
    0, 0, 0, 0, 0, 0, 0, 0, 0, 0, 0, 0, 0, 0, 0, 0, 0, 0, 0, 0, 0, 0, 0, 0, 0, 0, 0, 0, 0, 0, 0, 0,
    0, 0, 0, 0, 0, 0, 0, 0, 0, 0, 0, 0, 0, 0, 0, 0, 0, 0, 0, 0, 0, 0, 0, 0, 0, 0, 0, 0, 0, 0, 0, 0,
    0, 10, 0, 0, 0, 0, 0, 0, 0, 0, 0, 0, 0, 0, 0, 0, 0, 0, 1, 0, 0, 0, 0, 0, 0, 0,
];

const IN_SHARD_3: &[u8] = &[
    0, 0, 0, 0, 0, 0, 0, 0, 0, 0, 0, 0, 0, 0, 0, 0, 0, 0, 0, 0, 0, 0, 0, 0, 0, 0, 0, 0, 0, 0, 0, 0,
    1, 0, 0, 0, 0, 0, 0, 0, 25, 0, 0, 0, 0, 0, 0, 0, 0, 0, 0, 0, 0, 0, 0, 0, 0, 0, 0, 0, 0, 0, 0,
    0, 0, 0, 0, 0, 0, 0, 0, 0, 0, 0, 0, 0, 0, 0, 0, 0, 0, 0, 0, 0, 0, 0, 0, 0, 0, 0, 0, 0, 0, 0, 0,
    0, 0, 0, 0, 0, 0, 0, 0, 0, 0, 0, 0, 0, 0, 0, 0, 0, 0, 0, 0, 0, 0, 0, 0, 0, 0, 0, 0, 0, 0, 0, 0,
    0, 11, 1, 0, 0, 0, 0, 0, 0, 0, 0, 0, 0, 0, 0, 0, 0, 0, 1, 0, 0, 0, 0, 0, 0, 0,
];

const LABELLED: &[u8] = &[
    1, 0, 0, 0, 3, 0, 0, 1, 2, 0, 0, 0, 2, 0, 0, 0, 7, 0, 0, 0, 9, 0, 0, 0,
];

const PAIR: Write = Write {
    begin: [0, 0, 0],
    size: [2, 1, 1],
    values: &[10, 11],
};

const TWO_LABELS: Write = Write {
    begin: [0, 0, 0],
    size: [2, 1, 1],
    values: &[7, 0, 0, 0, 9, 0, 0, 0],
};

const ENCODED: &[Case] = &[
    Case {
        info: Info::Whole(NO_ID_BITS),
        writes: &[PAIR],
        line: "objects 1 cells 2\n",
        objects: &[("d/s/0.shard", ONE_INDEX)],
    },
    Case {
        info: Info::Whole(HASHED),
        writes: &[PAIR],
        line: "objects 2 cells 2\n",
        objects: &[("d/s/8.shard", IN_SHARD_8), ("d/s/3.shard", IN_SHARD_3)],
    },
    Case {
        info: Info::Whole(LABELS),
        writes: &[TWO_LABELS],
        line: "objects 1 cells 1\n",
        objects: &[("d/s/0-2_0-1_0-1", LABELLED)],
    },
];

#[test]
fn stores_what_is_encoded(rt: HostRuntime) -> Result<(), Fail> {
    check_cases(&rt, rt.alloc(), ENCODED, 2, 7)
}

// The objects under the folder of a plane, a stream, and the line of the refusal.
type Stream = (&'static [Object<'static>], &'static [u8], &'static str);

const STREAMS: &[Stream] = &[
    (&[("d/s/x/y", &[1])], b"PVW1", "folder not empty\n"),
    (&[("d/t/x", &[1])], b"", "stream: bad magic\n"),
    // A folder whose name begins with the scale's isn't the scale's.
    (&[("d/sx/x", &[1])], b"", "stream: bad magic\n"),
    (&[], b"PVW2\x00\x00\x00\x00", "stream: bad magic\n"),
    (
        &[],
        b"PVW1\x01\x00\x01\x00",
        "stream: too many writes 65537\n",
    ),
    (&[], b"PVW1\x01\x00\x00\x00\x00", "write 0: truncated\n"),
    (&[], b"PVW1\x00\x00\x00\x00\x00", "stream: trailing bytes\n"),
];

const EMPTY: Write = Write {
    begin: [0, 0, 0],
    size: [2, 2, 0],
    values: &[1, 2, 3, 4],
};

const WIDE: Write = Write {
    begin: [0, 0, 0],
    size: [3, 2, 1],
    values: &[1, 2, 3, 4],
};

const SHORT: Write = Write {
    begin: [0, 0, 0],
    size: [2, 2, 1],
    values: &[1, 2, 3],
};

const HUGE: Write = Write {
    begin: [0, 0, 0],
    size: [1048576, 1025, 1],
    values: &[],
};

// A scale, writes that are refused, and the line of the refusal.
type BadWrites = (Info<'static>, &'static [Write<'static>], &'static str);

const BAD_WRITES: &[BadWrites] = &[
    (PLANE, &[EMPTY], "write 0: empty box\n"),
    (PLANE, &[CORNER, WIDE], "write 1: outside scale\n"),
    (PLANE, &[SHORT], "write 0: truncated\n"),
    (
        Info::Raw("[1048576,2048,1]", "[64,64,64]"),
        &[HUGE],
        "write 0: too large\n",
    ),
];

// Objects that no refused stream stores.
const NEVER: &[Object] = &[
    ("d/s/0-2_0-2_0-1", &[]),
    ("d/s/0-1_0-1_0-1", &[]),
    ("d/s/0-64_0-64_0-1", &[]),
    ("d/s/0-4194305_0-1_0-1", &[]),
];

// A refusal of a stream, which leaves these objects and stores none. The feed gives so many bytes at a time.
fn check_refusal<R: Threads + Wait + Abort + Sync>(
    rt: &R,
    alloc: Global,
    info: &Info,
    objects: &[Object],
    stream: &[u8],
    piece: u8,
    line: &str,
) -> Result<(), Fail> {
    let mut store = store_of(alloc, info, &[])?;
    put_all(alloc, &mut store, objects)?;
    let faults = Faults { piece, ..NO_FAULTS };
    let answer = Answer {
        status: Status::RequestRefused,
        line,
        count: 0,
    };
    check(rt, alloc, &mut store, stream, 1, &faults, &answer)?;
    assert!(rt; has_all(&store, objects) && has_none(&store, NEVER));
    Ok(())
}

fn check_streams<R: Threads + Wait + Abort + Sync>(
    rt: &R,
    alloc: Global,
    rows: &[Stream],
    piece: u8,
) -> Result<(), Fail> {
    for (objects, stream, line) in rows {
        check_refusal(rt, alloc, &PLANE, objects, stream, piece, line)?;
    }
    Ok(())
}

fn check_bad_writes<R: Threads + Wait + Abort + Sync>(
    rt: &R,
    alloc: Global,
    rows: &[BadWrites],
    piece: u8,
) -> Result<(), Fail> {
    for (info, writes, line) in rows {
        let stream = stream_of(alloc, writes)?;
        check_refusal(rt, alloc, info, &[], &stream, piece, line)?;
    }
    Ok(())
}

fn check_refusals<R: Threads + Wait + Abort + Sync>(
    rt: &R,
    alloc: Global,
    piece: u8,
) -> Result<(), Fail> {
    check_streams(rt, alloc, STREAMS, piece)?;
    check_bad_writes(rt, alloc, BAD_WRITES, piece)
}

#[test]
fn refuses_streams(rt: HostRuntime) -> Result<(), Fail> {
    let alloc = rt.alloc();
    check_refusals(&rt, alloc, 1)?;
    check_refusals(&rt, alloc, 7)?;
    check_refusals(&rt, alloc, 255)
}

// So many writes of a row of so many voxels are refused.
fn check_row<R: Threads + Wait + Abort + Sync>(
    rt: &R,
    alloc: Global,
    info: &Info,
    voxels: u32,
    times: u8,
    line: &str,
) -> Result<(), Fail> {
    let values = vec![in alloc; 1; voxels as usize]?;
    let write = Write {
        begin: [0, 0, 0],
        size: [u64::from(voxels), 1, 1],
        values: &values,
    };
    let writes = [write, write];
    let stream = stream_of(alloc, &writes[..usize::from(times.min(2))])?;
    check_refusal(rt, alloc, info, &[], &stream, 255, line)
}

// More writes of a scale than cells may be met by.
#[test]
fn refuses_too_many_cells(rt: HostRuntime) -> Result<(), Fail> {
    let info = Info::Raw("[2097153,1,1]", "[1,1,1]");
    let line = "too many cells 4194306\n";
    check_row(&rt, rt.alloc(), &info, 2_097_153, 2, line)
}

// More cells of the second size, by whose pairs nothing of the first one is written.
#[test]
fn refuses_too_many_cells_of_a_further_size(rt: HostRuntime) -> Result<(), Fail> {
    let info = Info::Raw("[4194305,1,1]", "[4194305,1,1],[1,1,1]");
    let line = "too many cells 4194305\n";
    check_row(&rt, rt.alloc(), &info, 4_194_305, 1, line)
}

// A segmentation: one padded voxel more than are written, the same by the second size alone, and more than are read.
type Limit = (Info<'static>, Status, &'static str);

const LIMITS: &[Limit] = &[
    (
        Info::Labels("[4194305,1,1]", "[4194305,1,1]"),
        Status::RequestRefused,
        "padded voxels 4194305 over 4194304\n",
    ),
    (
        Info::Labels("[4194305,1,1]", "[4194304,1,1],[4194305,1,1]"),
        Status::RequestRefused,
        "padded voxels 4194305 over 4194304\n",
    ),
    (
        Info::Labels("[16777217,1,1]", "[16777217,1,1]"),
        Status::InfoRefused,
        "info of d: limit padded\n",
    ),
];

// A scale of such sizes is judged before the folder, and before the stream.
fn check_limit<R: Threads + Wait + Abort + Sync>(
    rt: &R,
    alloc: Global,
    info: &Info,
    answer: &Answer,
) -> Result<(), Fail> {
    let mut store = store_of(alloc, info, &[])?;
    put(alloc, &mut store, "d/s/x", &[1])?;
    check(rt, alloc, &mut store, b"PVW2", 1, &NO_FAULTS, answer)
}

fn check_limits<R: Threads + Wait + Abort + Sync>(
    rt: &R,
    alloc: Global,
    rows: &[Limit],
) -> Result<(), Fail> {
    for (info, status, line) in rows {
        let answer = Answer {
            status: *status,
            line,
            count: 0,
        };
        check_limit(rt, alloc, info, &answer)?;
    }
    Ok(())
}

#[test]
fn judges_the_limits(rt: HostRuntime) -> Result<(), Fail> {
    check_limits(&rt, rt.alloc(), LIMITS)
}

const FEED_FAULT: Answer = Answer {
    status: Status::FeedFault,
    line: "feed fault\n",
    count: 0,
};

// The output fails when all objects stand.
const OUT_FAULT: Answer = Answer {
    status: Status::OutFault,
    line: "output fault\n",
    count: 3,
};

fn check_failing_feed<R: Threads + Wait + Abort + Sync>(
    rt: &R,
    alloc: Global,
    call: u64,
) -> Result<(), Fail> {
    let faults = Faults {
        feed: &[call],
        ..NO_FAULTS
    };
    check_case(rt, alloc, &IN_CELLS, 1, &faults, &FEED_FAULT)
}

fn check_failing_out<R: Threads + Wait + Abort + Sync>(
    rt: &R,
    alloc: Global,
    call: u64,
) -> Result<(), Fail> {
    let faults = Faults {
        out: &[call],
        piece: 1,
        ..NO_FAULTS
    };
    check_case(rt, alloc, &IN_CELLS, 1, &faults, &OUT_FAULT)
}

#[test]
fn tells_failing_streams(rt: HostRuntime) -> Result<(), Fail> {
    for call in 0..5 {
        check_failing_feed(&rt, rt.alloc(), call)?;
    }
    for call in 0..18 {
        check_failing_out(&rt, rt.alloc(), call)?;
    }
    Ok(())
}
