//! Streams and their answers, worked out by hand from the format.

ghost use Rattle.std.specs.Prelude.{◌≡◌, ◌<◌, All, IfOk, length};
ghost use Rattle.write_plan.specs.Plans.{planned_cells};
ghost use Rattle.write_plan.specs.WriteLists.{IsWriteOf};

use chunk_grid::{byte_len, cell_box, grid};
use small_scales::{raw_scale, short_name};
use std::alloc::{AllocError, Global};
use std::process::Abort;
use std::test::Fail;
use vol_base::{Box3, MemoryFeed, MemoryStore};
use vol_spec::{ChunkSizes, HashKind, Scale, ShardPlace, Sharding};
use write_plan::{Chunks, Job, Plan, PlanFault, PlanRefusal, Writes, read_writes, window};

// One write of the bytes 1 to 4 to the box [0:2,0:2,0:1].
const STREAM: &[u8] = &[
    0x50, 0x56, 0x57, 0x31, 1, 0, 0, 0, 0, 0, 0, 0, 0, 0, 0, 0, 0, 0, 0, 0, 0, 0, 0, 0, 0, 0, 0, 0,
    0, 0, 0, 0, 2, 0, 0, 0, 0, 0, 0, 0, 2, 0, 0, 0, 0, 0, 0, 0, 1, 0, 0, 0, 0, 0, 0, 0, 1, 2, 3, 4,
];

fn zeros(alloc: Global, len: usize) -> Result<Vec<u8>, AllocError> {
    Ok(vec![in alloc; 0; len]?)
}

// The fault of the stream with some of its bytes exchanged and so many of them left, in pieces.
fn find_fault(
    alloc: Global,
    scale: &Scale,
    changes: &[(usize, u8)],
    len: usize,
    piece: usize,
) -> Result<Option<PlanFault>, AllocError>
    requires { 0 < piece }
{
    let mut bytes = Vec::from_slice(alloc, STREAM)?;
    bytes.push(0)?;
    for (at, byte) in changes {
        if *at < bytes.len() {
            bytes[*at] = *byte;
        }
    }
    bytes.truncate(len);
    let mut feed = MemoryFeed::new(bytes, piece, Vec::new(alloc));
    Ok(read_writes(alloc, &mut feed, scale).err())
}

// The raw scale of a byte a voxel.
fn scale_of(rt: &impl Abort, size: [u64; 3], offset: [i64; 3], chunk: [u64; 3]) -> Scale {
    let key = short_name(b"s").expect(rt, "a key");
    raw_scale(key, 1, 1, size, offset, chunk).expect(rt, "a scale")
}

// A stream's writes, the stream read in pieces of so many bytes.
fn read_pieces(alloc: Global, scale: &Scale, stream: &[u8], piece: usize) -> Result<Writes, Fail>
    requires { 0 < piece }
    ensures { IfOk result (All (IsWriteOf scale.now)) }
{
    let mut feed = MemoryFeed::new(stream.to_vec(alloc)?, piece, Vec::new(alloc));
    match read_writes(alloc, &mut feed, scale) {
        Ok(writes) => Ok(writes),
        Err(_) => Err("the stream has no fault".into()),
    }
}

// The writes are these.
fn check_writes(rt: &impl Abort, found: &Writes, writes: &[(Box3, &[u8])]) {
    assert_eq!(rt; found.len(), writes.len());
    for (number, (part, values)) in writes.iter().enumerate() {
        assert!(rt; number < found.len());
        assert_eq!(rt; found.part(number), *part);
        assert_eq!(rt; found.bytes(number), *values);
    }
}

// The write of the stream.
const ONE_WRITE: &[(Box3, &[u8])] = &[(
    Box3 {
        begin: [0; 3],
        size: [2, 2, 1],
    },
    &[1, 2, 3, 4],
)];

#[test]
fn reads_a_stream_in_pieces(rt: HostRuntime) -> Result<(), Fail> {
    let scale = scale_of(&rt, [2, 2, 1], [0; 3], [2, 2, 1]);
    for piece in [1, 7, 64] {
        assert!(rt; piece > 0);
        let writes = read_pieces(rt.alloc(), &scale, STREAM, piece)?;
        check_writes(&rt, &writes, ONE_WRITE);
    }
    Ok(())
}

// A byte of the stream that is exchanged, how many bytes are left, and the fault.
const FAULTS: &[((usize, u8), usize, Option<PlanFault>)] = &[
    ((0, 0x50), 60, None),
    ((0, 0x50), 0, Some(PlanFault::BadMagic)),
    ((0, 0x50), 3, Some(PlanFault::BadMagic)),
    ((3, 0x32), 60, Some(PlanFault::BadMagic)),
    ((0, 0x50), 4, Some(PlanFault::Truncated { write: 0 })),
    ((4, 0), 8, None),
    ((4, 0), 9, Some(PlanFault::TrailingBytes)),
    ((6, 1), 8, Some(PlanFault::TooManyWrites { count: 65_537 })),
    ((0, 0x50), 55, Some(PlanFault::Truncated { write: 0 })),
    ((48, 0), 60, Some(PlanFault::EmptyBox { write: 0 })),
    ((48, 0), 55, Some(PlanFault::Truncated { write: 0 })),
    ((8, 1), 60, Some(PlanFault::OutsideBox { write: 0 })),
    ((15, 0x80), 60, Some(PlanFault::OutsideBox { write: 0 })),
    ((39, 0x80), 60, Some(PlanFault::OutsideBox { write: 0 })),
    ((0, 0x50), 59, Some(PlanFault::Truncated { write: 0 })),
    ((0, 0x50), 61, Some(PlanFault::TrailingBytes)),
    ((4, 2), 60, Some(PlanFault::Truncated { write: 1 })),
];

// The bytes that make the box a whole scale of 2^31 voxels.
const WHOLE: &[(usize, u8)] = &[(33, 8), (32, 0), (41, 8), (40, 0), (49, 2), (48, 0)];

// The fault of the stream with some of its bytes exchanged, read in pieces.
fn check_fault(
    rt: &impl Abort,
    alloc: Global,
    scale: &Scale,
    changes: &[(usize, u8)],
    len: usize,
    wanted: Option<PlanFault>,
) -> Result<(), Fail> {
    for piece in [1, 7] {
        assert!(rt; piece > 0);
        assert_eq!(rt; find_fault(alloc, scale, changes, len, piece)?, wanted);
    }
    Ok(())
}

#[test]
fn finds_each_fault(rt: HostRuntime) -> Result<(), Fail> {
    let small = scale_of(&rt, [2, 2, 1], [0; 3], [2, 2, 1]);
    for (change, len, wanted) in FAULTS {
        check_fault(&rt, rt.alloc(), &small, &[*change], *len, *wanted)?;
    }
    let large = scale_of(&rt, [2048, 2048, 512], [0; 3], [2, 2, 1]);
    let wanted = Some(PlanFault::WritesTooLarge { write: 0 });
    check_fault(&rt, rt.alloc(), &large, WHOLE, 56, wanted)
}

// The fault of a stream where a call of the feed fails.
fn failing_fault(
    alloc: Global,
    scale: &Scale,
    stream: &[u8],
    call: u64,
) -> Result<Option<PlanFault>, AllocError> {
    let failing = Vec::from_slice(alloc, &[call])?;
    let mut feed = MemoryFeed::new(stream.to_vec(alloc)?, 64, failing);
    Ok(read_writes(alloc, &mut feed, scale).err())
}

fn check_failing(
    rt: &impl Abort,
    alloc: Global,
    scale: &Scale,
    call: u64,
    wanted: Option<PlanFault>,
) -> Result<(), Fail> {
    let fault = failing_fault(alloc, scale, STREAM, call)?;
    assert_eq!(rt; fault, wanted, "at {call}");
    Ok(())
}

#[test]
fn tells_each_failing_call(rt: HostRuntime) -> Result<(), Fail> {
    let scale = scale_of(&rt, [2, 2, 1], [0; 3], [2, 2, 1]);
    for call in 0..5 {
        check_failing(&rt, rt.alloc(), &scale, call, Some(PlanFault::FeedFault))?;
    }
    check_failing(&rt, rt.alloc(), &scale, 5, None)
}

// What is handed to threads.
fn share<T: Send + Sync>(_value: &T) {}

// The stream of some writes.
fn print_stream(alloc: Global, writes: &[(Box3, &[u8])]) -> Result<Vec<u8>, AllocError> {
    let mut bytes = Vec::from_slice(alloc, b"PVW1")?;
    bytes.extend_from_slice(&writes.len().to_le_bytes()[..4])?;
    for (part, values) in writes {
        for begin in part.begin {
            bytes.extend_from_slice(&begin.to_le_bytes())?;
        }
        for size in part.size {
            bytes.extend_from_slice(&size.to_le_bytes())?;
        }
        bytes.extend_from_slice(values)?;
    }
    Ok(bytes)
}

// The bytes of a job's cell.
fn fill_job(alloc: Global, plan: &Plan, scale: &Scale, job: u64) -> Result<Vec<u8>, AllocError>
    requires scale { plan.now.scale ≡ scale.now }
    requires job { job < length (planned_cells plan.now) }
{
    let part = cell_box(scale, plan.jobs().get(job).cell);
    let len = byte_len(&part, scale.channels, scale.width) as usize;
    let mut raw = vec![in alloc; 7; len]?;
    plan.fill(job, &mut raw);
    Ok(raw)
}

// The plan has these jobs, with these bytes.
fn check_jobs(
    rt: &impl Abort,
    alloc: Global,
    plan: &Plan,
    scale: &Scale,
    wanted: &[([u64; 3], [u8; 4])],
) -> Result<(), Fail>
    requires { plan.now.scale ≡ scale.now }
{
    assert_eq!(rt; plan.jobs().len(), wanted.len() as u64);
    for (number, (cell, bytes)) in wanted.iter().enumerate() {
        let job = number as u64;
        assert!(rt; job < plan.jobs().len());
        assert_eq!(rt; plan.jobs().get(job).cell, *cell);
        let raw = fill_job(alloc, plan, scale, job)?;
        assert_eq!(rt; raw.as_slice(), bytes.as_slice());
    }
    Ok(())
}

// The plan of some writes.
fn plan_of(alloc: Global, scale: &Scale, writes: Writes) -> Result<Plan, Fail>
    requires { All (IsWriteOf scale.now) writes }
    ensures { IfOk result (λ plan. plan.scale ≡ scale.now) }
{
    match Plan::of(alloc, scale, writes) {
        Ok(plan) => Ok(plan),
        Err(_) => Err("the plan has no refusal".into()),
    }
}

// The plan of some writes has these jobs, with these bytes.
fn check_plan(
    rt: &impl Abort,
    alloc: Global,
    scale: &Scale,
    writes: &[(Box3, &[u8])],
    wanted: &[([u64; 3], [u8; 4])],
) -> Result<(), Fail> {
    let found = read_pieces(alloc, scale, &print_stream(alloc, writes)?, 64)?;
    check_writes(rt, &found, writes);
    let mut plan = plan_of(alloc, scale, found)?;
    let mut store = MemoryStore::new(alloc, Vec::new(alloc));
    let count = plan.jobs().len();
    assert_eq!(rt; plan.prepare(&mut store, 0, count), Ok(()));
    check_jobs(rt, alloc, &plan, scale, wanted)?;
    share(&plan);
    share(plan.jobs());
    share(scale);
    Ok(())
}

fn part(begin: [i64; 3], size: [u64; 3]) -> Box3 {
    Box3 { begin, size }
}

const ALL: (Box3, &[u8]) = (
    Box3 {
        begin: [-1, 0, 0],
        size: [4, 2, 1],
    },
    &[1, 2, 3, 4, 5, 6, 7, 8],
);

const MIDDLE: (Box3, &[u8]) = (
    Box3 {
        begin: [0, 0, 0],
        size: [2, 1, 1],
    },
    &[9, 10],
);

const FIRST: (Box3, &[u8]) = (
    Box3 {
        begin: [-1, 0, 0],
        size: [1, 1, 1],
    },
    &[11],
);

const AGAIN: (Box3, &[u8]) = (
    Box3 {
        begin: [-1, 0, 0],
        size: [1, 1, 1],
    },
    &[12],
);

const LAST: (Box3, &[u8]) = (
    Box3 {
        begin: [2, 1, 0],
        size: [1, 1, 1],
    },
    &[13],
);

const LEFT: [u64; 3] = [0, 0, 0];

const RIGHT: [u64; 3] = [1, 0, 0];

// Writes, and the jobs of their plan with their bytes.
const PLANS: &[(&[(Box3, &[u8])], &[([u64; 3], [u8; 4])])] = &[
    (&[], &[]),
    (
        &[ALL, MIDDLE],
        &[(LEFT, [1, 9, 5, 6]), (RIGHT, [10, 4, 7, 8])],
    ),
    (
        &[MIDDLE, ALL],
        &[(LEFT, [1, 2, 5, 6]), (RIGHT, [3, 4, 7, 8])],
    ),
    (&[FIRST, AGAIN], &[(LEFT, [12, 0, 0, 0])]),
    (
        &[LAST, FIRST],
        &[(LEFT, [11, 0, 0, 0]), (RIGHT, [0, 0, 0, 13])],
    ),
    (
        &[MIDDLE, LAST],
        &[(LEFT, [0, 9, 0, 0]), (RIGHT, [10, 0, 0, 13])],
    ),
];

#[test]
fn plans_overlapping_writes(rt: HostRuntime) -> Result<(), Fail> {
    let scale = scale_of(&rt, [4, 2, 1], [-1, 0, 0], [2, 2, 1]);
    assert_eq!(rt; window(&scale), 256);
    for (side, jobs) in [(128, 128), (512, 2)] {
        let large = scale_of(&rt, [side; 3], [0; 3], [side; 3]);
        assert_eq!(rt; window(&large), jobs);
    }
    for (writes, jobs) in PLANS {
        check_plan(&rt, rt.alloc(), &scale, writes, jobs)?;
    }
    Ok(())
}

// The scale with its chunks in two shards of two minishards, by the hash of their ids.
fn in_shards(rt: &impl Abort, scale: &Scale) -> Scale {
    assert!(rt; grid(scale).bits() <= 64);
    Scale {
        key: scale.key.duplicate(),
        width: scale.width,
        channels: scale.channels,
        size: scale.size,
        offset: scale.offset,
        chunk: scale.chunk,
        encoding: scale.encoding,
        sharding: Some(Sharding {
            preshift: 0,
            hash: HashKind::Murmur,
            minishard_bits: 1,
            shard_bits: 1,
        }),
        more: ChunkSizes::none(),
    }
}

// The stream of a write of zeros to a whole scale of so many bytes.
fn whole_stream(alloc: Global, scale: &Scale, len: usize) -> Result<Vec<u8>, AllocError> {
    let values = zeros(alloc, len)?;
    let whole = part(scale.offset, scale.size);
    print_stream(alloc, &[(whole, values.as_slice())])
}

// The job of a cell, an id, a shard and a minishard.
fn job_of(row: &([u64; 3], u64, u64, u64)) -> Job {
    let (cell, id, shard, minishard) = *row;
    let place = ShardPlace { shard, minishard };
    Job { cell, id, place }
}

// The plan has jobs of these cells, ids, shards and minishards.
fn check_cells(rt: &impl Abort, plan: &Plan, wanted: &[([u64; 3], u64, u64, u64)]) {
    assert_eq!(rt; plan.jobs().len(), wanted.len() as u64);
    for (number, row) in wanted.iter().enumerate() {
        assert!(rt; (number as u64) < plan.jobs().len());
        assert_eq!(rt; plan.jobs().get(number as u64), job_of(row));
    }
}

// The plan of a write of a whole scale of a byte a cell has jobs of these cells, ids, shards and minishards.
fn check_order(
    rt: &impl Abort,
    alloc: Global,
    scale: &Scale,
    wanted: &[([u64; 3], u64, u64, u64)],
) -> Result<(), Fail> {
    let stream = whole_stream(alloc, scale, wanted.len())?;
    let writes = read_pieces(alloc, scale, &stream, 64)?;
    let plan = plan_of(alloc, scale, writes)?;
    check_cells(rt, &plan, wanted);
    Ok(())
}

// The cells of an unsharded scale, by x and then by y.
const BY_CELL: &[([u64; 3], u64, u64, u64)] = &[
    ([0, 0, 0], 0, 0, 0),
    ([1, 0, 0], 0, 0, 0),
    ([2, 0, 0], 0, 0, 0),
    ([0, 1, 0], 0, 0, 0),
    ([1, 1, 0], 0, 0, 0),
    ([2, 1, 0], 0, 0, 0),
];

// And of a sharded one, by shard and minishard.
const BY_SHARD: &[([u64; 3], u64, u64, u64)] = &[
    ([2, 0, 0], 4, 0, 0),
    ([2, 1, 0], 6, 0, 0),
    ([0, 0, 0], 0, 0, 1),
    ([1, 1, 0], 3, 0, 1),
    ([1, 0, 0], 1, 1, 0),
    ([0, 1, 0], 2, 1, 0),
];

#[test]
fn orders_jobs(rt: HostRuntime) -> Result<(), Fail> {
    let plain = scale_of(&rt, [3, 2, 1], [0; 3], [1; 3]);
    check_order(&rt, rt.alloc(), &plain, BY_CELL)?;
    check_order(&rt, rt.alloc(), &in_shards(&rt, &plain), BY_SHARD)
}

// The stream of a write of zeros, twice.
fn twice(alloc: Global, size: [u64; 3], len: usize) -> Result<Vec<u8>, AllocError> {
    let values = zeros(alloc, len)?;
    let whole = (part([0; 3], size), values.as_slice());
    print_stream(alloc, &[whole, whole])
}

#[test]
fn refuses_too_many_pairs(rt: HostRuntime) -> Result<(), Fail> {
    let alloc = rt.alloc();
    // One voxel a cell, more cells than half of the most pairs.
    let size = [2_097_153, 1, 1];
    let scale = scale_of(&rt, size, [0; 3], [1; 3]);
    let stream = twice(alloc, size, 2_097_153)?;
    let writes = read_pieces(alloc, &scale, &stream, 1 << 20)?;
    share(&writes);
    let refusal = Plan::of(alloc, &scale, writes).err();
    assert_eq!(rt;
        refusal,
        Some(PlanRefusal::TooManyCells { cells: 4_194_306 })
    );
    Ok(())
}
