//! Scales without shards, and what is refused.

use super::{NO_FAULTS, Object, POINTS, Row, THREE, check, check_rows};
use command_base::Status;
use memory_rows::raw_info;
use std::alloc::{AllocError, Global};
use std::test::Fail;

// A square of four voxels in one chunk.
const PLANE: &str =
    "{\"type\":\"image\",\"data_type\":\"uint8\",\"num_channels\":1,\"scales\":[{\"key\":\"s\",\"size\":[2,2,1],\"chunk_sizes\":[[2,2,1]],\"resolution\":[8,8,40],\"encoding\":\"raw\"}]}";

// Five voxels in a chunk of four and one of the last.
const FIVE: &str =
    "{\"type\":\"image\",\"data_type\":\"uint8\",\"num_channels\":1,\"scales\":[{\"key\":\"s\",\"size\":[5,1,1],\"chunk_sizes\":[[4,1,1]],\"resolution\":[8,8,40],\"encoding\":\"raw\"}]}";

// Two labels as one compressed segmentation; the labels 7 and 9, and 9 twice.
const LABELS: &str =
    "{\"type\":\"segmentation\",\"data_type\":\"uint32\",\"num_channels\":1,\"scales\":[{\"key\":\"s\",\"size\":[2,1,1],\"chunk_sizes\":[[2,1,1]],\"resolution\":[8,8,40],\"encoding\":\"compressed_segmentation\",\"compressed_segmentation_block_size\":[2,1,1]}]}";

const SEVEN_NINE: &[u8] = &[
    1, 0, 0, 0, 3, 0, 0, 1, 2, 0, 0, 0, 2, 0, 0, 0, 7, 0, 0, 0, 9, 0, 0, 0,
];

const TWO_NINES: &[u8] = &[1, 0, 0, 0, 2, 0, 0, 0, 2, 0, 0, 0, 9, 0, 0, 0];

const OLD_PLANE: &[Object] = &[("d/s/0-2_0-2_0-1", &[1, 2, 3, 4])];

const CORNER: Row = Row {
    info: PLANE,
    before: OLD_PLANE,
    writes: &[([1, 1, 0], [1, 1, 1], &[9])],
    line: "objects 1 cells 1\n",
    after: &[("d/s/0-2_0-2_0-1", &[1, 2, 3, 9])],
    ..THREE
};

const WHOLE: Row = Row {
    before: &[],
    writes: &[([0, 0, 0], [2, 2, 1], &[1, 2, 3, 4])],
    after: OLD_PLANE,
    ..CORNER
};

// Each voxel is the last write, else what was there, else 0; a damaged chunk that no write meets stays as it is.
const STORED: &[Row] = &[
    THREE,
    Row {
        before: &[],
        ..THREE
    },
    CORNER,
    WHOLE,
    Row {
        writes: &[],
        line: "objects 0 cells 0\n",
        after: OLD_PLANE,
        ..CORNER
    },
    Row {
        before: &[],
        after: &[("d/s/0-2_0-2_0-1", &[0, 0, 0, 9])],
        ..CORNER
    },
    Row {
        writes: &[
            ([1, 1, 0], [1, 1, 1], &[9]),
            ([0, 1, 0], [2, 1, 1], &[7, 8]),
        ],
        after: &[("d/s/0-2_0-2_0-1", &[1, 2, 7, 8])],
        ..CORNER
    },
    Row {
        info: FIVE,
        before: &[
            ("d/s/0-4_0-1_0-1", &[1, 2, 3, 4]),
            ("d/s/4-5_0-1_0-1", &[5]),
        ],
        writes: &[([3, 0, 0], [2, 1, 1], &[7, 8])],
        line: "objects 2 cells 2\n",
        after: &[
            ("d/s/0-4_0-1_0-1", &[1, 2, 3, 7]),
            ("d/s/4-5_0-1_0-1", &[8]),
        ],
        ..THREE
    },
    Row {
        info: LABELS,
        before: &[("d/s/0-2_0-1_0-1", SEVEN_NINE)],
        writes: &[([0, 0, 0], [1, 1, 1], &[9, 0, 0, 0])],
        line: "objects 1 cells 1\n",
        after: &[("d/s/0-2_0-1_0-1", TWO_NINES)],
        ..THREE
    },
    Row {
        before: &[("d/s/0-1_0-1_0-1", &[7]), ("d/s/1-2_0-1_0-1", &[8, 8])],
        writes: &[([2, 0, 0], [1, 1, 1], &[5])],
        line: "objects 1 cells 1\n",
        after: &[
            ("d/s/0-1_0-1_0-1", &[7]),
            ("d/s/1-2_0-1_0-1", &[8, 8]),
            ("d/s/2-3_0-1_0-1", &[5]),
        ],
        ..THREE
    },
];

#[test]
fn lays_writes_over_chunks(rt: HostRuntime) -> Result<(), Fail> {
    let alloc = rt.alloc();
    check_rows(&rt, alloc, STORED, 1, 255)?;
    check_rows(&rt, alloc, STORED, 2, 1)?;
    check_rows(&rt, alloc, STORED, 16, 7)
}

const REFUSED: Row = Row {
    status: Status::RequestRefused,
    after: OLD_PLANE,
    ..CORNER
};

// A segmentation with a second chunk size of a padded voxel more than are written; and four voxels in chunks of two sizes.
const WIDE: &str =
    "{\"type\":\"segmentation\",\"data_type\":\"uint32\",\"num_channels\":1,\"scales\":[{\"key\":\"s\",\"size\":[4194305,1,1],\"chunk_sizes\":[[64,1,1],[4194305,1,1]],\"resolution\":[8,8,40],\"encoding\":\"compressed_segmentation\",\"compressed_segmentation_block_size\":[1,1,1]}]}";

const SIZES: &str =
    "{\"type\":\"image\",\"data_type\":\"uint8\",\"num_channels\":1,\"scales\":[{\"key\":\"s\",\"size\":[4,1,1],\"chunk_sizes\":[[4,1,1],[2,1,1]],\"resolution\":[8,8,40],\"encoding\":\"raw\"}]}";

// In the order in which they are judged: each has the faults of all behind it.
pub(super) const IN_ORDER: &[Row] = &[
    Row {
        info: "{",
        status: Status::InfoRefused,
        line: "info of d: not json\n",
        ..REFUSED
    },
    Row {
        info: WIDE,
        behind: &[0],
        line: "padded voxels 4194305 over 4194304\n",
        ..REFUSED
    },
    Row {
        info: SIZES,
        behind: &[0],
        line: "several chunk sizes\n",
        ..REFUSED
    },
    Row {
        behind: &[0],
        line: "stream: trailing bytes\n",
        ..REFUSED
    },
    Row {
        writes: &[([1, 1, 0], [2, 1, 1], &[9])],
        line: "write 0: outside scale\n",
        ..REFUSED
    },
];

// A damaged chunk that a write meets, in part or whole. It is found before any of the chunks that are read with it is put.
const DAMAGED: &[Row] = &[
    Row {
        before: &[("d/s/0-2_0-2_0-1", &[1, 2, 3])],
        status: Status::Damaged,
        line: "damaged 0,0,0: chunk length 3 wanted 4\n",
        after: &[("d/s/0-2_0-2_0-1", &[1, 2, 3])],
        ..CORNER
    },
    Row {
        before: &[("d/s/0-2_0-2_0-1", &[])],
        status: Status::Damaged,
        line: "damaged 0,0,0: chunk length 0 wanted 4\n",
        after: &[("d/s/0-2_0-2_0-1", &[])],
        ..WHOLE
    },
    Row {
        info: POINTS,
        before: &[("d/s/0-1_0-1_0-1", &[7]), ("d/s/1-2_0-1_0-1", &[8, 8])],
        status: Status::Damaged,
        line: "damaged 1,0,0: chunk length 2 wanted 1\n",
        after: &[("d/s/0-1_0-1_0-1", &[7]), ("d/s/1-2_0-1_0-1", &[8, 8])],
        ..THREE
    },
];

#[test]
fn refuses_updates(rt: HostRuntime) -> Result<(), Fail> {
    let alloc = rt.alloc();
    check_rows(&rt, alloc, IN_ORDER, 1, 7)?;
    check_rows(&rt, alloc, DAMAGED, 1, 255)?;
    check_rows(&rt, alloc, DAMAGED, 16, 255)
}

fn ones(alloc: Global, count: usize) -> Result<Vec<u8>, AllocError> {
    vec![in alloc; 1; count]
}

// More pairs of a write and a chunk than are taken.
#[test]
fn refuses_too_many_pairs(rt: HostRuntime) -> Result<(), Fail> {
    let alloc = rt.alloc();
    let info = raw_info(alloc, "[2097153,1,1]", "[1,1,1]")?;
    let values = ones(alloc, 2_097_153)?;
    let write = ([0, 0, 0], [2_097_153, 1, 1], values.as_slice());
    let row = Row {
        info: &info,
        before: &[],
        writes: &[write, write],
        behind: &[],
        status: Status::RequestRefused,
        line: "too many cells 4194306\n",
        after: &[],
    };
    check(&rt, alloc, &row, 1, &NO_FAULTS)
}
