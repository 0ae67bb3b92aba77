//! How many bytes preparing jobs asks for.
ghost use Rattle.std.specs.Prelude.{◌≡◌, ◌≤◌, length, IfOk};
ghost use Rattle.write_plan.specs.Jobs.{window_of};
ghost use Rattle.write_plan.specs.Pairs.{cell_count};

use chunk_grid::{count_cells, whole};
use copier::Copier;
use memory_rows::store_of;
use std::alloc::{AllocError, Global};
use std::process::Abort;
use std::test::Fail;
use vol_base::{MemoryStore, Name, StoreRefusal};
use vol_spec::{ChunkSizes, Encoding, HashKind, Scale, Sharding, StoredScale};
use write_plan::{Chunks, window};

fn short_name(rt: &impl Abort, text: &[u8]) -> Name
    ensures { length result ≤ 200 }
{
    let name = Name::new(text).expect(rt, "a name");
    assert!(rt; name.as_bytes().len() <= 200);
    name
}

// One shard with one minishard.
fn one_minishard() -> Sharding {
    Sharding {
        preshift: 0,
        hash: HashKind::Identity,
        minishard_bits: 0,
        shard_bits: 0,
    }
}

// A row of 300 voxels, each in a cell of its own.
fn row_scale(key: Name) -> Scale
    requires { length key ≤ 200 }
{
    Scale {
        key,
        width: 1,
        channels: 1,
        size: [300, 1, 1],
        offset: [0; 3],
        chunk: [1; 3],
        encoding: Encoding::Raw,
        sharding: Some(one_minishard()),
        more: ChunkSizes::none(),
    }
}

// How many cells the grid of a scale has.
fn count_grid(scale: &Scale) -> u128
    ensures { result ≡ cell_count scale.now }
{
    count_cells(scale, &whole(scale))
}

// Puts a column of an index, of 300 numbers: the first one, and the same number 299 times.
fn push_column(bytes: &mut Vec<u8>, first: u64, others: u64) -> Result<(), AllocError> {
    bytes.extend_from_slice(&first.to_le_bytes())?;
    for _ in 1..300 {
        bytes.extend_from_slice(&others.to_le_bytes())?;
    }
    Ok(())
}

// An entry, 300 chunks of a byte each, and an index of as many rows. The index stands behind 300 bytes, and has 7,200.
fn print_shard(alloc: Global) -> Result<Vec<u8>, AllocError> {
    let mut bytes = vec![in alloc; 44, 1, 0, 0, 0, 0, 0, 0, 76, 29, 0, 0, 0, 0, 0, 0]?;
    bytes.extend_from_slice(&[7; 300])?;
    push_column(&mut bytes, 0, 1)?;
    push_column(&mut bytes, 0, 0)?;
    push_column(&mut bytes, 1, 1)?;
    Ok(bytes)
}

// A store of this shard.
fn store_of_shard(alloc: Global) -> Result<MemoryStore, Fail> {
    let shard = print_shard(alloc)?;
    store_of(alloc, &[("d/s/0.shard", shard.as_slice())], &[])
}

// A copier of the row into itself.
fn row_copier(
    rt: &impl Abort,
    alloc: Global,
    store: &mut MemoryStore,
) -> Result<Copier, StoreRefusal>
    ensures { IfOk result (λ copier. window_of copier.to ≡ 256) }
{
    let stored = StoredScale {
        dataset: short_name(rt, b"d"),
        scale: row_scale(short_name(rt, b"s")),
    };
    assert!(rt; count_grid(&stored.scale) <= 1 << 22);
    assert!(rt; window(&stored.scale) == 256);
    Copier::of(alloc, store, &stored, &stored.scale)
}

// Preparing 256 jobs asks for the entry and the index once, and for the chunks.
fn check_window(rt: &impl Abort, copier: &mut Copier, store: &mut MemoryStore)
    requires { window_of copier.old.to ≡ 256 }
{
    assert_eq!(rt; copier.jobs().len(), 300);
    copier.forget();
    let before = store.asked();
    assert!(rt; copier.prepare(store, 0, 256).is_ok());
    let asked = store.asked().checked_sub(before);
    assert_eq!(rt; asked, Some(16 + 24 * 300 + 256));
}

// A window of 256 jobs, each of a kept chunk in one minishard: the entry and the index are read once, and the chunks.
#[test]
fn reads_an_index_once_a_window(rt: HostRuntime) -> Result<(), Fail> {
    let alloc = rt.alloc();
    let mut store = store_of_shard(alloc)?;
    let mut copier = row_copier(&rt, alloc, &mut store)?;
    check_window(&rt, &mut copier, &mut store);
    Ok(())
}
