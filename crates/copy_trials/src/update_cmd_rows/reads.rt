//! How many bytes an update asks for.

use super::rows::IN_ORDER;
use super::{NO_FAULTS, Row, THREE, check_store};
use memory_rows::{put, store_of};
use std::alloc::{AllocError, Global};
use std::process::Abort;
use std::sync::Wait;
use std::test::Fail;
use std::thread::Threads;
use vol_base::MemoryStore;

// 4,000 voxels, each a cell, in one minishard.
const ROW: &str =
    "{\"type\":\"image\",\"data_type\":\"uint8\",\"num_channels\":1,\"scales\":[{\"key\":\"s\",\"size\":[4000,1,1],\"chunk_sizes\":[[1,1,1]],\"resolution\":[8,8,40],\"encoding\":\"raw\",\"sharding\":{\"@type\":\"neuroglancer_uint64_sharded_v1\",\"preshift_bits\":0,\"hash\":\"identity\",\"minishard_bits\":0,\"shard_bits\":0}}]}";

// The last of them is written.
const LAST: Row = Row {
    info: ROW,
    writes: &[([3999, 0, 0], [1, 1, 1], &[9])],
    line: "objects 1 cells 4000\n",
    ..THREE
};

// A column of the index: a number, and another one in all rows but the first.
fn put_column(object: &mut Vec<u8>, first: u64, other: u64) -> Result<(), AllocError> {
    object.extend_from_slice(&first.to_le_bytes())?;
    for _ in 1..4000 {
        object.extend_from_slice(&other.to_le_bytes())?;
    }
    Ok(())
}

// An entry of 16 bytes, and 4,000 chunks of a byte.
fn put_chunks(object: &mut Vec<u8>) -> Result<(), AllocError> {
    object.extend_from_slice(&4000u64.to_le_bytes())?;
    object.extend_from_slice(&100_000u64.to_le_bytes())?;
    for _ in 0..4000 {
        object.push(7)?;
    }
    Ok(())
}

// The entry, the chunks, and the 96,000 bytes of their index: the steps of the ids, those of the starts, and the sizes.
fn chunks_of_a_row(alloc: Global) -> Result<Vec<u8>, AllocError> {
    let mut object = Vec::new(alloc);
    put_chunks(&mut object)?;
    put_column(&mut object, 0, 1)?;
    put_column(&mut object, 0, 0)?;
    put_column(&mut object, 1, 1)?;
    Ok(object)
}

// So much of a document is asked for at first.
const DOCUMENT: u64 = 1 << 16;

// A store of the row.
fn row_store(alloc: Global) -> Result<MemoryStore, Fail> {
    let mut store = store_of(alloc, &[], &[])?;
    put(alloc, &mut store, "d/info", ROW.as_bytes())?;
    put(alloc, &mut store, "d/s/0.shard", &chunks_of_a_row(alloc)?)?;
    Ok(store)
}

// The bytes that an update of the last chunk asks for.
fn check_asked<R: Threads + Wait + Abort + Sync>(
    rt: &R,
    alloc: Global,
    workers: u32,
) -> Result<(), Fail> {
    let mut store = row_store(alloc)?;
    check_store(rt, alloc, &mut store, &LAST, workers, &NO_FAULTS)?;
    assert_eq!(rt; store.asked(), DOCUMENT + 2 * (16 + 24 * 4000) + 4000);
    Ok(())
}

// The document; the entry and the index where it is found what is kept; and the entry, the index and the chunks where they
// are read. So it is with any number of workers, though the chunks are prepared 256 at a time.
#[test]
fn reads_an_index_once(rt: HostRuntime) -> Result<(), Fail> {
    check_asked(&rt, rt.alloc(), 1)?;
    check_asked(&rt, rt.alloc(), 2)?;
    check_asked(&rt, rt.alloc(), 16)
}

// The bytes that an update of a row asks for, where it is refused before what the scale holds is looked for.
fn check_refused<R: Threads + Wait + Abort + Sync>(
    rt: &R,
    alloc: Global,
    row: &Row,
) -> Result<(), Fail> {
    let mut store = super::row_store(alloc, row, &[])?;
    check_store(rt, alloc, &mut store, row, 1, &NO_FAULTS)?;
    assert_eq!(rt; store.asked(), DOCUMENT, "at {}", row.line);
    Ok(())
}

#[test]
fn asks_for_the_document_alone(rt: HostRuntime) -> Result<(), Fail> {
    for row in IN_ORDER {
        check_refused(&rt, rt.alloc(), row)?;
    }
    Ok(())
}
