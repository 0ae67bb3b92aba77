//! Two voxels in shards, and numbers that are put into shards.

use std::alloc::{AllocError, Global};

/// Two voxels of a byte each, each a cell, in two minishards of one shard.
pub(super) const TWO_MINISHARDS: &[u8] =
    b"{\"type\":\"image\",\"data_type\":\"uint8\",\"num_channels\":1,\"scales\":[{\"key\":\"s\",\"size\":[2,1,1],\"chunk_sizes\":[[1,1,1]],\"resolution\":[8,8,40],\"encoding\":\"raw\",\"sharding\":{\"@type\":\"neuroglancer_uint64_sharded_v1\",\"preshift_bits\":0,\"hash\":\"identity\",\"minishard_bits\":1,\"shard_bits\":0}}]}";

/// The same in one minishard.
pub(super) const ONE_MINISHARD: &[u8] =
    b"{\"type\":\"image\",\"data_type\":\"uint8\",\"num_channels\":1,\"scales\":[{\"key\":\"s\",\"size\":[2,1,1],\"chunk_sizes\":[[1,1,1]],\"resolution\":[8,8,40],\"encoding\":\"raw\",\"sharding\":{\"@type\":\"neuroglancer_uint64_sharded_v1\",\"preshift_bits\":0,\"hash\":\"identity\",\"minishard_bits\":0,\"shard_bits\":0}}]}";

/// The values 10 and 11 in two minishards: two entries, and each chunk in front of its row.
pub(super) const TWO_INDEXES: &[u8] = &[
    1, 0, 0, 0, 0, 0, 0, 0, 25, 0, 0, 0, 0, 0, 0, 0, 26, 0, 0, 0, 0, 0, 0, 0, 50, 0, 0, 0, 0, 0, 0,
    0, 10, 0, 0, 0, 0, 0, 0, 0, 0, 0, 0, 0, 0, 0, 0, 0, 0, 1, 0, 0, 0, 0, 0, 0, 0, 11, 1, 0, 0, 0,
    0, 0, 0, 0, 25, 0, 0, 0, 0, 0, 0, 0, 1, 0, 0, 0, 0, 0, 0, 0,
];

/// The same in one minishard: an entry, the chunks, and two rows.
pub(super) const ONE_INDEX: &[u8] = &[
    2, 0, 0, 0, 0, 0, 0, 0, 50, 0, 0, 0, 0, 0, 0, 0, 10, 11, 0, 0, 0, 0, 0, 0, 0, 0, 1, 0, 0, 0, 0,
    0, 0, 0, 0, 0, 0, 0, 0, 0, 0, 0, 0, 0, 0, 0, 0, 0, 0, 0, 1, 0, 0, 0, 0, 0, 0, 0, 1, 0, 0, 0, 0,
    0, 0, 0,
];

/// Numbers of eight bytes, each with a place of a shard.
pub(super) type Numbers = &'static [(u8, u64)];

// Puts a number at a place, its lowest byte first.
fn put_number(bytes: &mut [u8], at: u8, number: u64) {
    for (i, byte) in number.to_le_bytes().iter().enumerate() {
        if let Some(place) = bytes.get_mut((at as usize).wrapping_add(i)) {
            *place = *byte;
        }
    }
}

/// A shard into which these numbers are put.
pub(super) fn changed(
    alloc: Global,
    shard: &[u8],
    numbers: &[(u8, u64)],
) -> Result<Vec<u8>, AllocError> {
    let mut bytes = shard.to_vec(alloc)?;
    for (at, number) in numbers {
        put_number(&mut bytes, *at, *number);
    }
    Ok(bytes)
}
