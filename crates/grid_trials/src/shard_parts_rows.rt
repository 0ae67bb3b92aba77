//! A shard worked out by hand, in a store in memory.

ghost use Rattle.std.specs.Prelude.{◌≡◌, ◌∷◌, [], IsSome, OnOk, length};
ghost use Rattle.vol_spec.specs.IndexBytes.{AreRows};

use minishard::Row;
use shard_parts::{begin_if, end_if, finish_if};
use small_scales::short_name;
use std::test::Fail;
use vol_base::{MemoryStore, Name, Store, StoreRefusal};

// A shard of one minishard with two chunks of a byte each: where the index starts and ends, the
// chunks, and the index by ids, starts and sizes.
const SHARD: &[u8] = &[
    2, 0, 0, 0, 0, 0, 0, 0, 50, 0, 0, 0, 0, 0, 0, 0, // entry
    7, 8, // chunks
    3, 0, 0, 0, 0, 0, 0, 0, 2, 0, 0, 0, 0, 0, 0, 0, // ids
    0, 0, 0, 0, 0, 0, 0, 0, 0, 0, 0, 0, 0, 0, 0, 0, // starts
    1, 0, 0, 0, 0, 0, 0, 0, 1, 0, 0, 0, 0, 0, 0, 0, // sizes
];

fn row(id: u64, start: u64) -> Row
    ensures { result ≡ record { id = id; start = start; size = 1 } }
{
    Row { id, start, size: 1 }
}

// Begins a shard and appends two chunks and their index: where the index starts, and where it ends.
fn write_parts<S: Store>(
    store: &mut S,
    name: &Name,
    rows: &mut Vec<Row>,
) -> Result<[u64; 2], StoreRefusal>
    requires rows { AreRows rows.old.items }
    requires two { length rows.old.items ≡ 2 }
    ensures { OnOk result (IsSome (S.draft store.new)) }
{
    // a buffer that holds one number and a half
    let mut piece = [9; 12];
    begin_if(store, true, name, 0, &mut piece)?;
    store.append(&[7])?;
    begin_if(store, false, name, 0, &mut piece)?;
    store.append(&[8])?;
    let next = end_if(store, false, 0, rows, 2, &mut piece)?;
    let end = end_if(store, true, 0, rows, 2, &mut piece)?;
    Ok([next, end])
}

#[test]
fn writes_a_shard(rt: HostRuntime) -> Result<(), Fail> {
    let alloc = rt.alloc();
    let name = short_name(b"d/s/0.shard").expect(&rt, "a name");
    let mut store = MemoryStore::new(alloc, Vec::new(alloc));
    let mut rows = vec![in alloc; row(3, 0), row(5, 1)]?;
    let places = write_parts(&mut store, &name, &mut rows)?;
    assert_eq!(rt; places, [2, 50]);
    assert!(rt; rows.is_empty());
    finish_if(&mut store, false)?;
    assert_eq!(rt; store.get(&name), None);
    finish_if(&mut store, true)?;
    assert_eq!(rt; store.get(&name), Some(SHARD));
    Ok(())
}
