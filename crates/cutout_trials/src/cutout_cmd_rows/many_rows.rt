//! A shard whose index has five thousand rows: what a cutout asks for is bounded by the rows up to the wanted one.

use super::damages::check_asked;
use super::{Cut, WHOLE};
use std::alloc::{AllocError, Global};
use std::test::Fail;

// A row of 5,000 voxels, each a cell, in one minishard.
const FIVE_THOUSAND: &[u8] =
    b"{\"type\":\"image\",\"data_type\":\"uint8\",\"num_channels\":1,\"scales\":[{\"key\":\"s\",\"size\":[5000,1,1],\"chunk_sizes\":[[1,1,1]],\"resolution\":[8,8,40],\"encoding\":\"raw\",\"sharding\":{\"@type\":\"neuroglancer_uint64_sharded_v1\",\"preshift_bits\":0,\"hash\":\"identity\",\"minishard_bits\":0,\"shard_bits\":0}}]}";

// A column of the index: a number, and another one in all rows but the first.
fn put_column(bytes: &mut Vec<u8>, first: u64, other: u64) -> Result<(), AllocError> {
    bytes.extend_from_slice(&first.to_le_bytes())?;
    for _ in 1..5_000 {
        bytes.extend_from_slice(&other.to_le_bytes())?;
    }
    Ok(())
}

// The shard of the values 0, 1, 2 and so on modulo 251: the entry, the chunks, and the rows. It has 125,016 bytes.
fn many_rows(alloc: Global) -> Result<Vec<u8>, AllocError> {
    let mut bytes = Vec::new(alloc);
    bytes.extend_from_slice(&5_000u64.to_le_bytes())?;
    bytes.extend_from_slice(&125_000u64.to_le_bytes())?;
    for value in 0..5_000u64 {
        bytes.push((value % 251) as u8)?;
    }
    put_column(&mut bytes, 0, 1)?;
    put_column(&mut bytes, 0, 0)?;
    put_column(&mut bytes, 1, 1)?;
    Ok(bytes)
}

const FIRST: Cut = Cut {
    part: "[0:1,0:1,0:1]",
    out: &[0],
    ..WHOLE
};

const LAST: Cut = Cut {
    part: "[4999:5000,0:1,0:1]",
    out: &[230],
    ..WHOLE
};

#[test]
fn asks_for_the_rows_up_to_the_wanted_one(rt: HostRuntime) -> Result<(), Fail> {
    let alloc = rt.alloc();
    let shard = many_rows(alloc)?;
    assert_eq!(rt; shard.len(), 125_016);
    // the entry, one window of 1,024 rows and a byte; and the entry, all rows and a byte
    check_asked(&rt, alloc, FIVE_THOUSAND, &shard, &FIRST, 24_593)?;
    check_asked(&rt, alloc, FIVE_THOUSAND, &shard, &LAST, 120_017)
}
