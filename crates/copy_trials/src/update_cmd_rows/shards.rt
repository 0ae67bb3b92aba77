//! Scales in shards.

use super::{Object, Row, THREE, check_rows};
use command_base::Status;
use std::test::Fail;

// Two voxels, each a cell, in two minishards of one shard.
const PAIR: &str =
    "{\"type\":\"image\",\"data_type\":\"uint8\",\"num_channels\":1,\"scales\":[{\"key\":\"s\",\"size\":[2,1,1],\"chunk_sizes\":[[1,1,1]],\"resolution\":[8,8,40],\"encoding\":\"raw\",\"sharding\":{\"@type\":\"neuroglancer_uint64_sharded_v1\",\"preshift_bits\":0,\"hash\":\"identity\",\"minishard_bits\":1,\"shard_bits\":0}}]}";

// The shard with the values 10 and 11; with an entry that isn't sound; with a row of another place, and with one that no cell has;
// and with one of its values changed.
const SHARD: &[u8] = &[
    1, 0, 0, 0, 0, 0, 0, 0, 25, 0, 0, 0, 0, 0, 0, 0, 26, 0, 0, 0, 0, 0, 0, 0, 50, 0, 0, 0, 0, 0, 0,
    0, 10, 0, 0, 0, 0, 0, 0, 0, 0, 0, 0, 0, 0, 0, 0, 0, 0, 1, 0, 0, 0, 0, 0, 0, 0, 11, 1, 0, 0, 0,
    0, 0, 0, 0, 25, 0, 0, 0, 0, 0, 0, 0, 1, 0, 0, 0, 0, 0, 0, 0,
];

const BAD_ENTRY: &[u8] = &[
    2, 0, 0, 0, 0, 0, 0, 0, 25, 0, 0, 0, 0, 0, 0, 0, 26, 0, 0, 0, 0, 0, 0, 0, 50, 0, 0, 0, 0, 0, 0,
    0, 10, 0, 0, 0, 0, 0, 0, 0, 0, 0, 0, 0, 0, 0, 0, 0, 0, 1, 0, 0, 0, 0, 0, 0, 0, 11, 1, 0, 0, 0,
    0, 0, 0, 0, 25, 0, 0, 0, 0, 0, 0, 0, 1, 0, 0, 0, 0, 0, 0, 0,
];

const MISPLACED: &[u8] = &[
    1, 0, 0, 0, 0, 0, 0, 0, 25, 0, 0, 0, 0, 0, 0, 0, 26, 0, 0, 0, 0, 0, 0, 0, 50, 0, 0, 0, 0, 0, 0,
    0, 10, 1, 0, 0, 0, 0, 0, 0, 0, 0, 0, 0, 0, 0, 0, 0, 0, 1, 0, 0, 0, 0, 0, 0, 0, 11, 1, 0, 0, 0,
    0, 0, 0, 0, 25, 0, 0, 0, 0, 0, 0, 0, 1, 0, 0, 0, 0, 0, 0, 0,
];

const BEYOND: &[u8] = &[
    2, 0, 0, 0, 0, 0, 0, 0, 50, 0, 0, 0, 0, 0, 0, 0, 51, 0, 0, 0, 0, 0, 0, 0, 75, 0, 0, 0, 0, 0, 0,
    0, 10, 13, 0, 0, 0, 0, 0, 0, 0, 0, 2, 0, 0, 0, 0, 0, 0, 0, 0, 0, 0, 0, 0, 0, 0, 0, 0, 0, 0, 0,
    0, 0, 0, 0, 1, 0, 0, 0, 0, 0, 0, 0, 1, 0, 0, 0, 0, 0, 0, 0, 11, 1, 0, 0, 0, 0, 0, 0, 0, 50, 0,
    0, 0, 0, 0, 0, 0, 1, 0, 0, 0, 0, 0, 0, 0,
];

const SECOND_PUT: &[u8] = &[
    1, 0, 0, 0, 0, 0, 0, 0, 25, 0, 0, 0, 0, 0, 0, 0, 26, 0, 0, 0, 0, 0, 0, 0, 50, 0, 0, 0, 0, 0, 0,
    0, 10, 0, 0, 0, 0, 0, 0, 0, 0, 0, 0, 0, 0, 0, 0, 0, 0, 1, 0, 0, 0, 0, 0, 0, 0, 12, 1, 0, 0, 0,
    0, 0, 0, 0, 25, 0, 0, 0, 0, 0, 0, 0, 1, 0, 0, 0, 0, 0, 0, 0,
];

const FIRST_PUT: &[u8] = &[
    1, 0, 0, 0, 0, 0, 0, 0, 25, 0, 0, 0, 0, 0, 0, 0, 26, 0, 0, 0, 0, 0, 0, 0, 50, 0, 0, 0, 0, 0, 0,
    0, 13, 0, 0, 0, 0, 0, 0, 0, 0, 0, 0, 0, 0, 0, 0, 0, 0, 1, 0, 0, 0, 0, 0, 0, 0, 11, 1, 0, 0, 0,
    0, 0, 0, 0, 25, 0, 0, 0, 0, 0, 0, 0, 1, 0, 0, 0, 0, 0, 0, 0,
];

pub(super) const OLD_PAIR: &[Object] = &[("d/s/0.shard", SHARD)];

pub(super) const SECOND: Row = Row {
    info: PAIR,
    before: OLD_PAIR,
    writes: &[([1, 0, 0], [1, 1, 1], &[12])],
    line: "objects 1 cells 2\n",
    after: &[("d/s/0.shard", SECOND_PUT)],
    ..THREE
};

// A shard that is written anew keeps its other chunks, and drops a row that no cell reads. One of its minishards that no write
// meets is judged too.
const ONE_SHARD: &[Row] = &[
    SECOND,
    Row {
        before: &[("d/s/0.shard", MISPLACED)],
        writes: &[([0, 0, 0], [1, 1, 1], &[13])],
        after: &[("d/s/0.shard", FIRST_PUT)],
        ..SECOND
    },
    Row {
        before: &[("d/s/0.shard", BEYOND)],
        ..SECOND
    },
    Row {
        before: &[("d/s/0.shard", BAD_ENTRY)],
        status: Status::Damaged,
        line: "shard 0 0: shard bad length 23\n",
        after: &[("d/s/0.shard", BAD_ENTRY)],
        ..SECOND
    },
];

// Four voxels, each a cell, in two shards of one minishard.
const FOUR: &str =
    "{\"type\":\"image\",\"data_type\":\"uint8\",\"num_channels\":1,\"scales\":[{\"key\":\"s\",\"size\":[4,1,1],\"chunk_sizes\":[[1,1,1]],\"resolution\":[8,8,40],\"encoding\":\"raw\",\"sharding\":{\"@type\":\"neuroglancer_uint64_sharded_v1\",\"preshift_bits\":0,\"hash\":\"identity\",\"minishard_bits\":0,\"shard_bits\":1}}]}";

// The first shard with the values 5 and 6, and with 9 for 5.
const EVEN: &[u8] = &[
    2, 0, 0, 0, 0, 0, 0, 0, 50, 0, 0, 0, 0, 0, 0, 0, 5, 6, 0, 0, 0, 0, 0, 0, 0, 0, 2, 0, 0, 0, 0,
    0, 0, 0, 0, 0, 0, 0, 0, 0, 0, 0, 0, 0, 0, 0, 0, 0, 0, 0, 1, 0, 0, 0, 0, 0, 0, 0, 1, 0, 0, 0, 0,
    0, 0, 0,
];

const EVEN_PUT: &[u8] = &[
    2, 0, 0, 0, 0, 0, 0, 0, 50, 0, 0, 0, 0, 0, 0, 0, 9, 6, 0, 0, 0, 0, 0, 0, 0, 0, 2, 0, 0, 0, 0,
    0, 0, 0, 0, 0, 0, 0, 0, 0, 0, 0, 0, 0, 0, 0, 0, 0, 0, 0, 1, 0, 0, 0, 0, 0, 0, 0, 1, 0, 0, 0, 0,
    0, 0, 0,
];

const OLD_SHARDS: &[Object] = &[("d/s/0.shard", EVEN), ("d/s/1.shard", &[1, 2])];

const FIRST: Row = Row {
    info: FOUR,
    before: OLD_SHARDS,
    writes: &[([0, 0, 0], [1, 1, 1], &[9])],
    after: &[("d/s/0.shard", EVEN_PUT), ("d/s/1.shard", &[1, 2])],
    ..SECOND
};

const ALL: Row = Row {
    writes: &[([0, 0, 0], [4, 1, 1], &[1, 2, 3, 4])],
    status: Status::Damaged,
    after: OLD_SHARDS,
    ..FIRST
};

// A shard that no write meets isn't judged. Of two that are, the first fault is told, and nothing is put.
const TWO_SHARDS: &[Row] = &[
    FIRST,
    Row {
        line: "shard 1 0: shard short index\n",
        ..ALL
    },
    Row {
        before: &[("d/s/0.shard", &[1]), ("d/s/1.shard", &[1, 2])],
        line: "shard 0 0: shard short index\n",
        after: &[("d/s/0.shard", &[1]), ("d/s/1.shard", &[1, 2])],
        ..ALL
    },
];

// Two labels, each a chunk of a shard.
const LABELS: &str =
    "{\"type\":\"segmentation\",\"data_type\":\"uint32\",\"num_channels\":1,\"scales\":[{\"key\":\"s\",\"size\":[2,1,1],\"chunk_sizes\":[[1,1,1]],\"resolution\":[8,8,40],\"encoding\":\"compressed_segmentation\",\"compressed_segmentation_block_size\":[1,1,1],\"sharding\":{\"@type\":\"neuroglancer_uint64_sharded_v1\",\"preshift_bits\":0,\"hash\":\"identity\",\"minishard_bits\":0,\"shard_bits\":0}}]}";

// The label 7 with a word that nothing needs; and the same in this program's spelling, beside the label 8.
const FOREIGN: &[u8] = &[
    20, 0, 0, 0, 0, 0, 0, 0, 44, 0, 0, 0, 0, 0, 0, 0, 1, 0, 0, 0, 3, 0, 0, 0, 2, 0, 0, 0, 0, 0, 0,
    0, 7, 0, 0, 0, 0, 0, 0, 0, 0, 0, 0, 0, 0, 0, 0, 0, 0, 0, 0, 0, 20, 0, 0, 0, 0, 0, 0, 0,
];

const SPELLED: &[u8] = &[
    32, 0, 0, 0, 0, 0, 0, 0, 80, 0, 0, 0, 0, 0, 0, 0, 1, 0, 0, 0, 2, 0, 0, 0, 2, 0, 0, 0, 7, 0, 0,
    0, 1, 0, 0, 0, 2, 0, 0, 0, 2, 0, 0, 0, 8, 0, 0, 0, 0, 0, 0, 0, 0, 0, 0, 0, 1, 0, 0, 0, 0, 0, 0,
    0, 0, 0, 0, 0, 0, 0, 0, 0, 0, 0, 0, 0, 0, 0, 0, 0, 16, 0, 0, 0, 0, 0, 0, 0, 16, 0, 0, 0, 0, 0,
    0, 0,
];

const RESPELLED: &[Row] = &[Row {
    info: LABELS,
    before: &[("d/s/0.shard", FOREIGN)],
    writes: &[([1, 0, 0], [1, 1, 1], &[8, 0, 0, 0])],
    after: &[("d/s/0.shard", SPELLED)],
    ..SECOND
}];

#[test]
fn keeps_the_rest_of_a_shard(rt: HostRuntime) -> Result<(), Fail> {
    let alloc = rt.alloc();
    check_rows(&rt, alloc, ONE_SHARD, 1, 255)?;
    check_rows(&rt, alloc, TWO_SHARDS, 2, 7)?;
    check_rows(&rt, alloc, RESPELLED, 16, 255)
}
