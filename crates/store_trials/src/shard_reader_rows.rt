//! Look-ups in shards of known bytes.
ghost use Rattle.std.specs.Prelude.{◌≡◌, ◌≤◌, ◌<◌, ◌*◌, ◌^◌, length, IfOk, Some};
ghost use Rattle.vol_base.specs.Memory.{seen};
ghost use Rattle.shard_reader.specs.Readers.{Keeps, KeepsNothing};

use byteorder::{ByteOrder, LittleEndian};
use chunk_pool::Pool;
use memory_rows::store_of;
use shard_reader::{LookupFault, ShardReader, WINDOW_LEN};
use std::alloc::{AllocError, Global};
use std::process::Abort;
use std::test::Fail;
use vol_base::{Fault, IndexFault, MemoryStore, Name, ShardFault};
use vol_spec::{ChunkSizes, ChunkSpan, Encoding, HashKind, Scale, Sharding, StoredScale};

fn name(rt: &impl Abort, text: &[u8]) -> Name
    ensures { length result ≤ 200 }
{
    let name = Name::new(text).expect(rt, "a name");
    assert!(rt; name.as_bytes().len() <= 200);
    name
}

// One shard with one minishard.
fn one_minishard() -> Sharding {
    Sharding {
        preshift: 0,
        hash: HashKind::Identity,
        minishard_bits: 0,
        shard_bits: 0,
    }
}

// A scale of one voxel.
fn one_voxel(key: Name, sharding: Sharding) -> Scale
    requires { length key ≤ 200 }
    ensures { result.sharding ≡ Some sharding }
{
    Scale {
        key,
        width: 1,
        channels: 1,
        size: [1; 3],
        offset: [0; 3],
        chunk: [1; 3],
        encoding: Encoding::Raw,
        sharding: Some(sharding),
        more: ChunkSizes::none(),
    }
}

// The scale `s` of one voxel, of the data set `d`.
fn stored_voxel(rt: &impl Abort, sharding: Sharding) -> StoredScale
    ensures { result.scale.sharding ≡ Some sharding }
{
    StoredScale {
        dataset: name(rt, b"d"),
        scale: one_voxel(name(rt, b"s"), sharding),
    }
}

fn zeros(alloc: Global, len: usize) -> Result<Vec<u8>, AllocError>
    ensures { IfOk result (λ v. length v.items ≡ len) }
{
    vec![in alloc; 0u8; len]
}

fn reader(rt: &impl Abort, alloc: Global) -> Result<ShardReader, Fail>
    ensures { IfOk result KeepsNothing }
{
    let mut pool = Pool::reserve(alloc, 1, WINDOW_LEN)?;
    let window = pool.take().expect(rt, "a frame");
    Ok(ShardReader::new(window))
}

// Numbers of eight bytes each.
fn put_numbers(numbers: &[u64], out: &mut [u8])
    requires { 8 * length numbers.now ≤ length out.old }
{
    for i in 0..numbers.len() {
        LittleEndian::write_u64(&mut out[8 * i..], numbers[i]);
    }
}

// Rows of a byte each, without gaps, over zeros: ids 3, 6, 9 and so on. Row `bad` has the id before it.
fn put_rows(rows: usize, bad: usize, out: &mut [u8])
    requires room { 24 * rows ≤ length out.old }
    requires few { rows < 2 ^ 20 }
{
    for r in 0..rows {
        LittleEndian::write_u64(&mut out[8 * r..], if r == bad { 0 } else { 3 });
        LittleEndian::write_u64(&mut out[8 * (2 * rows + r)..], 1);
    }
}

// Looks an id up: what is answered, and how many bytes were asked for by then.
fn check_row(
    rt: &impl Abort,
    reader: &mut ShardReader,
    store: &mut MemoryStore,
    stored: &StoredScale,
    sharding: &Sharding,
    id: u64,
    wanted: Result<Option<ChunkSpan>, LookupFault>,
    asked: u64,
)
    requires sharding { stored.now.scale.sharding ≡ Some sharding.now }
    requires keeps { Keeps (Some (seen store.old).objects) stored.now.dataset stored.now.scale sharding.now reader.old }
    ensures { Keeps (Some (seen store.new).objects) stored.now.dataset stored.now.scale sharding.now reader.new }
{
    let found = reader.locate(store, stored, sharding, 1, id);
    assert_eq!(rt; found, wanted);
    assert_eq!(rt; store.asked(), asked);
}

fn at(row: u64) -> Result<Option<ChunkSpan>, LookupFault>
    requires { row < 2 ^ 32 }
{
    Ok(Some(ChunkSpan {
        start: 16 + row,
        len: 1,
    }))
}

#[test]
fn walks_windows(rt: HostRuntime) -> Result<(), Fail> {
    let alloc = rt.alloc();
    let mut object = zeros(alloc, 62516)?;
    put_numbers(&[2500, 62500], &mut object);
    put_rows(2500, 2300, &mut object[2516..]);
    let mut store = MemoryStore::new(alloc, Vec::new(alloc));
    store.put(&name(&rt, b"d/s/0.shard"), object)?;
    let sharding = one_minishard();
    let stored = stored_voxel(&rt, sharding);
    let mut reader = reader(&rt, alloc)?;
    let bad = Err(LookupFault::Faulty(Fault::Index(IndexFault::BadId { row: 2300 })));
    let looks = [
        // the entry and a window, and then nothing, in either order of ids
        (3, at(0), 24592),
        (3072, at(1023), 24592),
        (6, at(1), 24592),
        (7, Ok(None), 24592),
        // the next window, and behind it the last one, of 452 rows
        (3075, at(1024), 49168),
        (6144, at(2047), 49168),
        (6147, at(2048), 60016),
        (6901, bad, 60016),
        // back to the front
        (4500, at(1499), 109168),
    ];
    for (id, wanted, asked) in looks {
        check_row(
            &rt,
            &mut reader,
            &mut store,
            &stored,
            &sharding,
            id,
            wanted,
            asked,
        );
    }
    Ok(())
}

// A shard of one chunk, the byte 7: an entry, the chunk, and an index of one row.
fn one_chunk(alloc: Global, entry: [u64; 2], row: [u64; 3]) -> Result<Vec<u8>, AllocError> {
    let mut object = zeros(alloc, 41)?;
    put_numbers(&entry, &mut object);
    object[16] = 7;
    put_numbers(&row, &mut object[17..]);
    Ok(object)
}

// A store of such a shard, one of whose calls fails.
fn store_of_one(
    alloc: Global,
    entry: [u64; 2],
    row: [u64; 3],
    failing: u64,
) -> Result<MemoryStore, Fail> {
    let shard = one_chunk(alloc, entry, row)?;
    store_of(alloc, &[("d/s/0.shard", shard.as_slice())], &[failing])
}

// Reads the chunk 0 of a shard of one chunk, one of the store's calls failing.
fn read_one(
    rt: &impl Abort,
    alloc: Global,
    entry: [u64; 2],
    row: [u64; 3],
    failing: u64,
) -> Result<Result<Option<u64>, LookupFault>, Fail> {
    let mut store = store_of_one(alloc, entry, row, failing)?;
    let mut reader = reader(rt, alloc)?;
    let sharding = one_minishard();
    let stored = stored_voxel(rt, sharding);
    let mut buffer = [0; 1];
    let read = reader.read_chunk(&mut store, &stored, &sharding, 1, 0, &mut buffer);
    if read == Ok(Some(1)) {
        assert!(rt; buffer == [7] && store.asked() == 41);
    }
    Ok(read)
}

// A call that isn't made.
const NONE_FAILS: u64 = 99;

fn check_one(
    rt: &impl Abort,
    alloc: Global,
    entry: [u64; 2],
    row: [u64; 3],
    wanted: Result<Option<u64>, LookupFault>,
) -> Result<(), Fail> {
    let read = read_one(rt, alloc, entry, row, NONE_FAILS)?;
    assert!(rt; read == wanted);
    Ok(())
}

#[test]
fn reads_a_chunk(rt: HostRuntime) -> Result<(), Fail> {
    let alloc = rt.alloc();
    let row = [0, 0, 1];
    check_one(&rt, alloc, [1, 25], row, Ok(Some(1)))?;
    check_one(&rt, alloc, [0, 0], row, Ok(None))?;
    // the length, the entry, three columns, the chunk
    for call in 0..6 {
        let read = read_one(&rt, alloc, [1, 25], row, call)?;
        assert_eq!(rt; read, Err(LookupFault::NotRead));
    }
    Ok(())
}

#[test]
fn tells_faults(rt: HostRuntime) -> Result<(), Fail> {
    let alloc = rt.alloc();
    let row = [0, 0, 1];
    let range = Fault::Shard(ShardFault::BadRange);
    check_one(&rt, alloc, [25, 1], row, Err(LookupFault::Faulty(range)))?;
    let short = Fault::Shard(ShardFault::ShortMinishard);
    check_one(&rt, alloc, [2, 26], row, Err(LookupFault::Faulty(short)))?;
    let long = Fault::Shard(ShardFault::ChunkTooLong { found: 2, limit: 1 });
    check_one(
        &rt,
        alloc,
        [1, 25],
        [0, 0, 2],
        Err(LookupFault::Faulty(long)),
    )?;
    let past = Fault::Shard(ShardFault::ShortChunk);
    check_one(
        &rt,
        alloc,
        [1, 25],
        [0, 25, 1],
        Err(LookupFault::Faulty(past)),
    )?;
    let start = Fault::Index(IndexFault::BadStart { row: 0 });
    check_one(
        &rt,
        alloc,
        [1, 25],
        [0, u64::MAX, 1],
        Err(LookupFault::Faulty(start)),
    )
}
