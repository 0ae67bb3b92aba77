//! Lists of writes that are made from a number, over stand-ins in memory. What each stores and prints was worked out from the
//! rules of docs/statuses.md by a program that has nothing in common with this one.

use crate::answers::{check_first, check_told, document_store, put_all};
use command_base::{Crew, Status};
use generate_cmd::run_generate;
use memory_rows::{has_all, has_none, name_of, outlet_of, raw_info};
use std::alloc::Global;
use std::process::Abort;
use std::sync::Wait;
use std::test::Fail;
use std::thread::Threads;
use vol_base::{FreeGate, MemoryOutlet, MemoryStore};

// An object and its bytes.
type Object<'a> = (&'a str, &'a [u8]);

// The numbers of the calls that fail, of the store, the output and the error output, and the most bytes that one call of the
// outlets takes.
#[derive(Clone, Copy)]
struct Faults<'a> {
    store: &'a [u64],
    out: &'a [u64],
    err: &'a [u64],
    piece: usize,
}

const NO_FAULTS: Faults = Faults {
    store: &[],
    out: &[],
    err: &[],
    piece: 255,
};

// A list of so many writes that a number makes, into a raw scale of a size and chunk sizes.
#[derive(Clone, Copy)]
struct List<'a> {
    size: &'a str,
    chunks: &'a str,
    number: u16,
    count: u8,
}

// A store that has the document of a list's scale, of whose calls those with some numbers fail.
fn store_of(alloc: Global, list: &List, failing: &[u64]) -> Result<MemoryStore, Fail> {
    document_store(alloc, &raw_info(alloc, list.size, list.chunks)?, failing)
}

// What a list answers: its status, the line that is printed or told, and how many of the objects of its row stand afterwards.
#[derive(Clone, Copy)]
struct Answer<'a> {
    status: Status,
    line: &'a str,
    count: usize,
}

// The status of a list.
fn call<R: Threads + Wait + Sync>(
    rt: &R,
    alloc: Global,
    store: &mut MemoryStore,
    out: &mut MemoryOutlet,
    err: &mut MemoryOutlet,
    list: &List,
    workers: u32,
) -> Result<Status, Fail> {
    let dataset = name_of("d")?;
    let key = name_of("s")?;
    let number = u32::from(list.number);
    let count = u32::from(list.count);
    let crew = Crew::of(rt, alloc, workers, &FreeGate);
    Ok(run_generate(&crew, store, out, err, &dataset, &key, number, count))
}

// A list answers this.
fn check<R: Threads + Wait + Abort + Sync>(
    rt: &R,
    alloc: Global,
    store: &mut MemoryStore,
    list: &List,
    workers: u32,
    faults: &Faults,
    answer: &Answer,
) -> Result<(), Fail> {
    let mut out = outlet_of(alloc, faults.piece, faults.out)?;
    let mut err = outlet_of(alloc, faults.piece, faults.err)?;
    let status = call(rt, alloc, store, &mut out, &mut err, list, workers)?;
    assert_eq!(rt; status, answer.status);
    check_told(rt, &out, &err, status, answer.line);
    Ok(())
}

// A list, the line that is printed, and the objects that stand afterwards, in the order in which they are put.
#[derive(Clone, Copy)]
struct Case<'a> {
    list: List<'a>,
    line: &'a str,
    objects: &'a [Object<'a>],
}

const ONE_VOXEL: Case = Case {
    list: List {
        size: "[1,1,1]",
        chunks: "[1,1,1]",
        number: 5,
        count: 2,
    },
    line: "writes 2 objects 1 bytes 1 sum 36\n",
    objects: &[("d/s/0-1_0-1_0-1", &[36])],
};

const ONE_WRITE: Case = Case {
    list: List {
        size: "[4,1,1]",
        chunks: "[4,1,1]",
        number: 1,
        count: 1,
    },
    line: "writes 1 objects 1 bytes 4 sum 1\n",
    objects: &[("d/s/0-4_0-1_0-1", &[0, 0, 1, 0])],
};

const NO_WRITE: Case = Case {
    list: List {
        size: "[4,1,1]",
        chunks: "[4,1,1]",
        number: 1,
        count: 0,
    },
    line: "writes 0 objects 0 bytes 0 sum 0\n",
    objects: &[],
};

const TWO_SIZES: Case = Case {
    list: List {
        size: "[6,1,1]",
        chunks: "[4,1,1],[3,1,1]",
        number: 5,
        count: 2,
    },
    line: "writes 2 objects 4 bytes 12 sum 47\n",
    objects: &[
        ("d/s/0-4_0-1_0-1", &[0, 0, 5, 6]),
        ("d/s/4-6_0-1_0-1", &[36, 0]),
        ("d/s/0-3_0-1_0-1", &[0, 0, 5]),
        ("d/s/3-6_0-1_0-1", &[6, 36, 0]),
    ],
};

const FIVE_WRITES: Case = Case {
    list: List {
        size: "[6,5,2]",
        chunks: "[3,3,2]",
        number: 7,
        count: 5,
    },
    line: "writes 5 objects 4 bytes 60 sum 1980\n",
    objects: &[
        (
            "d/s/0-3_0-3_0-2",
            &[0, 0, 0, 0, 0, 0, 38, 0, 0, 0, 0, 0, 0, 0, 0, 0, 0, 0],
        ),
        (
            "d/s/3-6_0-3_0-2",
            &[0, 0, 0, 0, 0, 0, 0, 0, 0, 69, 70, 0, 0, 0, 0, 0, 0, 0],
        ),
        (
            "d/s/0-3_3-5_0-2",
            &[0, 0, 131, 100, 101, 102, 0, 0, 133, 106, 107, 108],
        ),
        (
            "d/s/3-6_3-5_0-2",
            &[132, 0, 7, 103, 104, 105, 134, 0, 0, 109, 110, 111],
        ),
    ],
};

const CASES: &[Case] = &[ONE_VOXEL, ONE_WRITE, NO_WRITE, TWO_SIZES, FIVE_WRITES];

// What a list answers that no fault meets.
fn well<'a>(case: &Case<'a>) -> Answer<'a> {
    Answer {
        status: Status::Ok,
        line: case.line,
        count: case.objects.len(),
    }
}

// A list into an empty scale by so many workers, while calls fail.
fn check_case<R: Threads + Wait + Abort + Sync>(
    rt: &R,
    alloc: Global,
    case: &Case,
    workers: u32,
    faults: &Faults,
    answer: &Answer,
) -> Result<(), Fail> {
    let mut store = store_of(alloc, &case.list, faults.store)?;
    check(rt, alloc, &mut store, &case.list, workers, faults, answer)?;
    check_first(rt, &store, case.objects, answer.count);
    Ok(())
}

// The rows of a table, by so many workers.
fn check_cases<R: Threads + Wait + Abort + Sync>(
    rt: &R,
    alloc: Global,
    cases: &[Case],
    workers: u32,
) -> Result<(), Fail> {
    for case in cases {
        check_case(rt, alloc, case, workers, &NO_FAULTS, &well(case))?;
    }
    Ok(())
}

#[test]
fn stores_lists(rt: HostRuntime) -> Result<(), Fail> {
    let alloc = rt.alloc();
    check_cases(&rt, alloc, CASES, 1)?;
    check_cases(&rt, alloc, CASES, 3)?;
    check_cases(&rt, alloc, CASES, 16)
}

const LARGE: List = List {
    size: "[1025,1024,1024]",
    chunks: "[64,64,64]",
    number: 1,
    count: 1,
};

const FINE: List = List {
    size: "[200,200,200]",
    chunks: "[1,1,1]",
    number: 7,
    count: 220,
};

const THEN_FINE: List = List {
    chunks: "[200,200,200],[1,1,1]",
    ..FINE
};

// A segmentation past the writing limit.
const PADDED: &[u8] =
    b"{\"type\":\"segmentation\",\"data_type\":\"uint32\",\"num_channels\":1,\"scales\":[{\"key\":\"s\",\"size\":[4194305,1,1],\"chunk_sizes\":[[4194305,1,1]],\"resolution\":[8,8,40],\"encoding\":\"compressed_segmentation\",\"compressed_segmentation_block_size\":[1,1,1]}]}";

// A document that gives no scale.
const WITHOUT: &[u8] = b"{\"type\":\"segmentation\"}";

// A list, objects, the status and the line of the refusal. Of two causes the first in the order of the work is told.
type Refusal = (
    List<'static>,
    &'static [Object<'static>],
    Status,
    &'static str,
);

const REFUSALS: &[Refusal] = &[
    (
        LARGE,
        &[("d/info", WITHOUT)],
        Status::InfoRefused,
        "info of d: data_type missing\n",
    ),
    (
        LARGE,
        &[("d/info", PADDED), ("d/s/x", &[1])],
        Status::RequestRefused,
        "padded voxels 4194305 over 4194304\n",
    ),
    (
        LARGE,
        &[("d/s/x", &[1])],
        Status::RequestRefused,
        "folder not empty\n",
    ),
    (
        LARGE,
        &[],
        Status::RequestRefused,
        "box too large 1074790400\n",
    ),
    (
        FINE,
        &[],
        Status::RequestRefused,
        "too many cells 4351131\n",
    ),
    (
        THEN_FINE,
        &[],
        Status::RequestRefused,
        "too many cells 4351131\n",
    ),
];

// Objects that no refused command stores.
const NEVER: &[Object] = &[
    ("d/s/0-1_0-1_0-1", &[]),
    ("d/s/0-64_0-64_0-64", &[]),
    ("d/s/0-200_0-200_0-200", &[]),
];

// The objects that stand are those that stood.
fn check_refusal<R: Threads + Wait + Abort + Sync>(
    rt: &R,
    alloc: Global,
    list: &List,
    objects: &[Object],
    answer: &Answer,
) -> Result<(), Fail> {
    let mut store = store_of(alloc, list, &[])?;
    put_all(alloc, &mut store, objects)?;
    check(rt, alloc, &mut store, list, 1, &NO_FAULTS, answer)?;
    assert!(rt; has_all(&store, objects) && has_none(&store, NEVER));
    Ok(())
}

fn check_refusals<R: Threads + Wait + Abort + Sync>(
    rt: &R,
    alloc: Global,
    rows: &[Refusal],
) -> Result<(), Fail> {
    for (list, objects, status, line) in rows {
        let answer = Answer {
            status: *status,
            line,
            count: 0,
        };
        check_refusal(rt, alloc, list, objects, &answer)?;
    }
    Ok(())
}

#[test]
fn refuses_lists(rt: HostRuntime) -> Result<(), Fail> {
    check_refusals(&rt, rt.alloc(), REFUSALS)
}

const IN_CELLS: Case = Case {
    list: List {
        size: "[3,1,1]",
        chunks: "[1,1,1]",
        number: 4,
        count: 3,
    },
    line: "writes 3 objects 3 bytes 3 sum 168\n",
    objects: &[
        ("d/s/0-1_0-1_0-1", &[35]),
        ("d/s/1-2_0-1_0-1", &[66]),
        ("d/s/2-3_0-1_0-1", &[67]),
    ],
};

// Three cells are written and read while a call of the store fails.
fn check_store<R: Threads + Wait + Abort + Sync>(
    rt: &R,
    alloc: Global,
    workers: u32,
    call: u64,
    answer: &Answer,
) -> Result<(), Fail> {
    let faults = Faults {
        store: &[call],
        ..NO_FAULTS
    };
    check_case(rt, alloc, &IN_CELLS, workers, &faults, answer)
}

// How many objects stand where call k of the store fails: the document is read, the folder is looked at, each object is
// begun, appended to and finished, and each cell is read.
const STORE_FAULTS: &[usize] = &[0, 0, 0, 0, 0, 1, 1, 1, 2, 2, 2, 3, 3, 3];

// Each of these fails in turn, and then one that comes no more.
fn check_stores<R: Threads + Wait + Abort + Sync>(
    rt: &R,
    alloc: Global,
    workers: u32,
    counts: &[usize],
) -> Result<(), Fail> {
    let mut call = 0u64;
    for count in counts {
        let answer = Answer {
            status: Status::StoreFault,
            line: "store fault\n",
            count: *count,
        };
        check_store(rt, alloc, workers, call, &answer)?;
        call = call.saturating_add(1);
    }
    check_store(rt, alloc, workers, call, &well(&IN_CELLS))
}

#[test]
fn tells_failing_stores(rt: HostRuntime) -> Result<(), Fail> {
    check_stores(&rt, rt.alloc(), 1, STORE_FAULTS)?;
    check_stores(&rt, rt.alloc(), 2, STORE_FAULTS)
}

const OUT_FAULT: Answer = Answer {
    status: Status::OutFault,
    line: "output fault\n",
    count: 3,
};

// A call of the output fails, which takes a byte at a time.
fn check_out<R: Threads + Wait + Abort + Sync>(
    rt: &R,
    alloc: Global,
    call: u64,
) -> Result<(), Fail> {
    let faults = Faults {
        out: &[call],
        piece: 1,
        ..NO_FAULTS
    };
    check_case(rt, alloc, &IN_CELLS, 1, &faults, &OUT_FAULT)
}

#[test]
fn tells_failing_outputs(rt: HostRuntime) -> Result<(), Fail> {
    for call in 0..35 {
        check_out(&rt, rt.alloc(), call)?;
    }
    Ok(())
}

// The front of the document, and of each of three cells its chunk and a byte more.
#[test]
fn asks_for_each_chunk_once(rt: HostRuntime) -> Result<(), Fail> {
    let alloc = rt.alloc();
    let list = IN_CELLS.list;
    let mut store = store_of(alloc, &list, &[])?;
    check(
        &rt,
        alloc,
        &mut store,
        &list,
        1,
        &NO_FAULTS,
        &well(&IN_CELLS),
    )?;
    assert_eq!(rt; store.asked(), 65_536 + 3 * 2);
    Ok(())
}
