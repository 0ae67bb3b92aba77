//! Scales and the next ones: what a reduction of what was written prints, and what a cutout of all of it gives. It was worked out
//! by the plain models of `tests/model`.

use crate::tests::sizes::push_box;
use crate::tests::{call, check};
use memory_rows::{outlet_of, store_of};
use std::alloc::{AllocError, Global};
use std::process::Abort;
use std::sync::Wait;
use std::test::Fail;
use std::thread::Threads;
use vol_base::MemoryStore;

// Which values a write has: spread over all that there are; 0, 1 and 2; or the two largest.
#[derive(Clone, Copy)]
enum Values {
    Spread,
    Few,
    Most,
}

// Two scales, the boxes of two writes into the first one, its channels and the bytes of a value, which values are written, how
// they are reduced, what that prints, the box of the second scale, and its values.
struct Level<'a> {
    info: &'a str,
    writes: [([i64; 3], [u64; 3]); 2],
    channels: u64,
    width: usize,
    values: Values,
    method: &'a str,
    made: &'a str,
    whole: &'a str,
    found: &'a [u8],
}

const LEVELS: &[Level] = &[
    // odd sizes, bytes
    Level {
        info: "{\"type\":\"image\",\"data_type\":\"uint8\",\"num_channels\":1,\"scales\":[{\"key\":\"s\",\"size\":[5,3,2],\"chunk_sizes\":[[2,2,2]],\"resolution\":[8,8,40],\"encoding\":\"raw\",\"voxel_offset\":[0,0,0]},{\"key\":\"t\",\"size\":[3,2,1],\"chunk_sizes\":[[2,1,1]],\"resolution\":[8,8,40],\"encoding\":\"raw\",\"voxel_offset\":[0,0,0]}]}",
        writes: [([0, 0, 0], [5, 3, 2]), ([1, 1, 0], [2, 1, 1])],
        channels: 1,
        width: 1,
        values: Values::Spread,
        method: "mean",
        made: "objects 4 cells 4\n",
        whole: "[0:3,0:2,0:1]",
        found: &[77, 119, 167, 123, 101, 68],
    },
    // ties, bytes
    Level {
        info: "{\"type\":\"image\",\"data_type\":\"uint8\",\"num_channels\":1,\"scales\":[{\"key\":\"s\",\"size\":[7,3,1],\"chunk_sizes\":[[3,3,1]],\"resolution\":[8,8,40],\"encoding\":\"raw\",\"voxel_offset\":[0,0,0]},{\"key\":\"t\",\"size\":[4,2,1],\"chunk_sizes\":[[4,2,1]],\"resolution\":[8,8,40],\"encoding\":\"raw\",\"voxel_offset\":[0,0,0]}]}",
        writes: [([0, 0, 0], [7, 3, 1]), ([2, 0, 0], [3, 2, 1])],
        channels: 1,
        width: 1,
        values: Values::Few,
        method: "mode",
        made: "objects 1 cells 1\n",
        whole: "[0:4,0:2,0:1]",
        found: &[1, 0, 1, 0, 0, 1, 0, 1],
    },
    // three channels of 16 bits, an offset below 0
    Level {
        info: "{\"type\":\"image\",\"data_type\":\"uint16\",\"num_channels\":3,\"scales\":[{\"key\":\"s\",\"size\":[5,4,1],\"chunk_sizes\":[[2,4,1]],\"resolution\":[8,8,40],\"encoding\":\"raw\",\"voxel_offset\":[-6,2,0]},{\"key\":\"t\",\"size\":[3,2,1],\"chunk_sizes\":[[3,1,1]],\"resolution\":[8,8,40],\"encoding\":\"raw\",\"voxel_offset\":[-3,1,0]}]}",
        writes: [([-6, 2, 0], [3, 3, 1]), ([-4, 4, 0], [2, 2, 1])],
        channels: 3,
        width: 2,
        values: Values::Spread,
        method: "mean",
        made: "objects 2 cells 2\n",
        whole: "[-3:0,1:3,0:1]",
        found: &[
            43, 120, 37, 89, 0, 0, 68, 83, 32, 122, 0, 0, 232, 148, 131, 71, 0, 0, 163, 65, 116,
            170, 0, 0, 165, 113, 226, 53, 0, 0, 1, 48, 200, 154, 0, 0,
        ],
    },
    // the largest values of 32 bits
    Level {
        info: "{\"type\":\"image\",\"data_type\":\"uint32\",\"num_channels\":1,\"scales\":[{\"key\":\"s\",\"size\":[4,2,3],\"chunk_sizes\":[[4,2,1]],\"resolution\":[8,8,40],\"encoding\":\"raw\",\"voxel_offset\":[0,0,0]},{\"key\":\"t\",\"size\":[2,1,2],\"chunk_sizes\":[[1,1,2]],\"resolution\":[8,8,40],\"encoding\":\"raw\",\"voxel_offset\":[0,0,0]}]}",
        writes: [([0, 0, 0], [4, 2, 3]), ([1, 0, 1], [3, 1, 2])],
        channels: 1,
        width: 4,
        values: Values::Most,
        method: "mean",
        made: "objects 2 cells 2\n",
        whole: "[0:2,0:1,0:2]",
        found: &[
            254, 255, 255, 255, 254, 255, 255, 255, 254, 255, 255, 255, 254, 255, 255, 255,
        ],
    },
    // the largest values of 64 bits
    Level {
        info: "{\"type\":\"image\",\"data_type\":\"uint64\",\"num_channels\":1,\"scales\":[{\"key\":\"s\",\"size\":[3,3,3],\"chunk_sizes\":[[2,2,2]],\"resolution\":[8,8,40],\"encoding\":\"raw\",\"voxel_offset\":[0,0,0]},{\"key\":\"t\",\"size\":[2,2,2],\"chunk_sizes\":[[2,2,2]],\"resolution\":[8,8,40],\"encoding\":\"raw\",\"voxel_offset\":[0,0,0]}]}",
        writes: [([0, 0, 0], [3, 3, 3]), ([0, 2, 1], [2, 1, 1])],
        channels: 1,
        width: 8,
        values: Values::Most,
        method: "mean",
        made: "objects 1 cells 1\n",
        whole: "[0:2,0:2,0:2]",
        found: &[
            254, 255, 255, 255, 255, 255, 255, 255, 254, 255, 255, 255, 255, 255, 255, 255, 254,
            255, 255, 255, 255, 255, 255, 255, 254, 255, 255, 255, 255, 255, 255, 255, 254, 255,
            255, 255, 255, 255, 255, 255, 254, 255, 255, 255, 255, 255, 255, 255, 254, 255, 255,
            255, 255, 255, 255, 255, 255, 255, 255, 255, 255, 255, 255, 255,
        ],
    },
    // from shards into files
    Level {
        info: "{\"type\":\"image\",\"data_type\":\"uint64\",\"num_channels\":1,\"scales\":[{\"key\":\"s\",\"size\":[6,4,2],\"chunk_sizes\":[[2,2,1]],\"resolution\":[8,8,40],\"encoding\":\"raw\",\"voxel_offset\":[0,0,0],\"sharding\":{\"@type\":\"neuroglancer_uint64_sharded_v1\",\"preshift_bits\":0,\"hash\":\"identity\",\"minishard_bits\":0,\"shard_bits\":0}},{\"key\":\"t\",\"size\":[3,2,1],\"chunk_sizes\":[[1,2,1]],\"resolution\":[8,8,40],\"encoding\":\"raw\",\"voxel_offset\":[0,0,0]}]}",
        writes: [([0, 0, 0], [4, 3, 2]), ([3, 1, 1], [3, 3, 1])],
        channels: 1,
        width: 8,
        values: Values::Few,
        method: "mode",
        made: "objects 3 cells 3\n",
        whole: "[0:3,0:2,0:1]",
        found: &[
            1, 0, 0, 0, 0, 0, 0, 0, 0, 0, 0, 0, 0, 0, 0, 0, 0, 0, 0, 0, 0, 0, 0, 0, 0, 0, 0, 0, 0,
            0, 0, 0, 0, 0, 0, 0, 0, 0, 0, 0, 0, 0, 0, 0, 0, 0, 0, 0,
        ],
    },
    // from files into shards
    Level {
        info: "{\"type\":\"image\",\"data_type\":\"uint8\",\"num_channels\":1,\"scales\":[{\"key\":\"s\",\"size\":[8,3,2],\"chunk_sizes\":[[2,1,1]],\"resolution\":[8,8,40],\"encoding\":\"raw\",\"voxel_offset\":[0,0,0]},{\"key\":\"t\",\"size\":[4,2,1],\"chunk_sizes\":[[1,1,1]],\"resolution\":[8,8,40],\"encoding\":\"raw\",\"voxel_offset\":[0,0,0],\"sharding\":{\"@type\":\"neuroglancer_uint64_sharded_v1\",\"preshift_bits\":0,\"hash\":\"identity\",\"minishard_bits\":1,\"shard_bits\":1}}]}",
        writes: [([0, 0, 0], [5, 2, 2]), ([6, 1, 0], [2, 2, 1])],
        channels: 1,
        width: 1,
        values: Values::Spread,
        method: "mean",
        made: "objects 2 cells 5\n",
        whole: "[0:4,0:2,0:1]",
        found: &[105, 115, 57, 2, 0, 0, 0, 26],
    },
    // from shards into shards
    Level {
        info: "{\"type\":\"image\",\"data_type\":\"uint16\",\"num_channels\":1,\"scales\":[{\"key\":\"s\",\"size\":[7,5,1],\"chunk_sizes\":[[2,2,1]],\"resolution\":[8,8,40],\"encoding\":\"raw\",\"voxel_offset\":[0,0,0],\"sharding\":{\"@type\":\"neuroglancer_uint64_sharded_v1\",\"preshift_bits\":0,\"hash\":\"identity\",\"minishard_bits\":0,\"shard_bits\":1}},{\"key\":\"t\",\"size\":[4,3,1],\"chunk_sizes\":[[2,1,1]],\"resolution\":[8,8,40],\"encoding\":\"raw\",\"voxel_offset\":[0,0,0],\"sharding\":{\"@type\":\"neuroglancer_uint64_sharded_v1\",\"preshift_bits\":0,\"hash\":\"identity\",\"minishard_bits\":2,\"shard_bits\":0}}]}",
        writes: [([0, 0, 0], [4, 5, 1]), ([3, 1, 0], [4, 2, 1])],
        channels: 1,
        width: 2,
        values: Values::Spread,
        method: "mode",
        made: "objects 1 cells 5\n",
        whole: "[0:4,0:3,0:1]",
        found: &[
            1, 0, 1, 0, 0, 0, 0, 0, 18, 77, 60, 69, 0, 0, 0, 0, 102, 61, 144, 53, 0, 0, 0, 0,
        ],
    },
    // labels of 32 bits
    Level {
        info: "{\"type\":\"image\",\"data_type\":\"uint32\",\"num_channels\":1,\"scales\":[{\"key\":\"s\",\"size\":[5,4,3],\"chunk_sizes\":[[4,4,2]],\"resolution\":[8,8,40],\"encoding\":\"compressed_segmentation\",\"voxel_offset\":[0,0,0],\"compressed_segmentation_block_size\":[2,2,2]},{\"key\":\"t\",\"size\":[3,2,2],\"chunk_sizes\":[[2,2,2]],\"resolution\":[8,8,40],\"encoding\":\"compressed_segmentation\",\"voxel_offset\":[0,0,0],\"compressed_segmentation_block_size\":[2,2,2]}]}",
        writes: [([0, 0, 0], [5, 4, 3]), ([1, 1, 1], [2, 2, 2])],
        channels: 1,
        width: 4,
        values: Values::Few,
        method: "mode",
        made: "objects 2 cells 2\n",
        whole: "[0:3,0:2,0:2]",
        found: &[
            0, 0, 0, 0, 1, 0, 0, 0, 0, 0, 0, 0, 1, 0, 0, 0, 0, 0, 0, 0, 1, 0, 0, 0, 1, 0, 0, 0, 0,
            0, 0, 0, 1, 0, 0, 0, 1, 0, 0, 0, 1, 0, 0, 0, 0, 0, 0, 0,
        ],
    },
    // labels of 64 bits into shards
    Level {
        info: "{\"type\":\"image\",\"data_type\":\"uint64\",\"num_channels\":1,\"scales\":[{\"key\":\"s\",\"size\":[6,3,2],\"chunk_sizes\":[[3,3,2]],\"resolution\":[8,8,40],\"encoding\":\"compressed_segmentation\",\"voxel_offset\":[0,0,0],\"compressed_segmentation_block_size\":[2,1,2]},{\"key\":\"t\",\"size\":[3,2,1],\"chunk_sizes\":[[2,2,1]],\"resolution\":[8,8,40],\"encoding\":\"compressed_segmentation\",\"voxel_offset\":[0,0,0],\"compressed_segmentation_block_size\":[1,2,1],\"sharding\":{\"@type\":\"neuroglancer_uint64_sharded_v1\",\"preshift_bits\":0,\"hash\":\"identity\",\"minishard_bits\":1,\"shard_bits\":0}}]}",
        writes: [([0, 0, 0], [3, 3, 2]), ([2, 0, 0], [4, 2, 1])],
        channels: 1,
        width: 8,
        values: Values::Spread,
        method: "mode",
        made: "objects 1 cells 2\n",
        whole: "[0:3,0:2,0:1]",
        found: &[
            1, 0, 0, 0, 0, 0, 0, 0, 0, 0, 0, 0, 0, 0, 0, 0, 0, 0, 0, 0, 0, 0, 0, 0, 60, 69, 93,
            117, 222, 33, 64, 69, 0, 0, 0, 0, 0, 0, 0, 0, 0, 0, 0, 0, 0, 0, 0, 0,
        ],
    },
    // labels in shards into raw chunks
    Level {
        info: "{\"type\":\"image\",\"data_type\":\"uint64\",\"num_channels\":1,\"scales\":[{\"key\":\"s\",\"size\":[4,4,2],\"chunk_sizes\":[[2,2,2]],\"resolution\":[8,8,40],\"encoding\":\"compressed_segmentation\",\"voxel_offset\":[0,0,0],\"compressed_segmentation_block_size\":[8,8,8],\"sharding\":{\"@type\":\"neuroglancer_uint64_sharded_v1\",\"preshift_bits\":0,\"hash\":\"identity\",\"minishard_bits\":1,\"shard_bits\":0}},{\"key\":\"t\",\"size\":[2,2,1],\"chunk_sizes\":[[2,1,1]],\"resolution\":[8,8,40],\"encoding\":\"raw\",\"voxel_offset\":[0,0,0]}]}",
        writes: [([0, 0, 0], [4, 2, 2]), ([1, 2, 1], [2, 2, 1])],
        channels: 1,
        width: 8,
        values: Values::Most,
        method: "mean",
        made: "objects 2 cells 2\n",
        whole: "[0:2,0:2,0:1]",
        found: &[
            254, 255, 255, 255, 255, 255, 255, 255, 254, 255, 255, 255, 255, 255, 255, 255, 255,
            255, 255, 255, 255, 255, 255, 63, 255, 255, 255, 255, 255, 255, 255, 63,
        ],
    },
    // raw chunks into labels
    Level {
        info: "{\"type\":\"image\",\"data_type\":\"uint32\",\"num_channels\":1,\"scales\":[{\"key\":\"s\",\"size\":[5,2,2],\"chunk_sizes\":[[5,1,2]],\"resolution\":[8,8,40],\"encoding\":\"raw\",\"voxel_offset\":[0,0,0]},{\"key\":\"t\",\"size\":[3,1,1],\"chunk_sizes\":[[3,1,1]],\"resolution\":[8,8,40],\"encoding\":\"compressed_segmentation\",\"voxel_offset\":[0,0,0],\"compressed_segmentation_block_size\":[2,2,1]}]}",
        writes: [([0, 0, 0], [5, 2, 2]), ([2, 1, 0], [3, 1, 1])],
        channels: 1,
        width: 4,
        values: Values::Few,
        method: "mode",
        made: "objects 1 cells 1\n",
        whole: "[0:3,0:1,0:1]",
        found: &[1, 0, 0, 0, 0, 0, 0, 0, 1, 0, 0, 0],
    },
    // a column
    Level {
        info: "{\"type\":\"image\",\"data_type\":\"uint8\",\"num_channels\":1,\"scales\":[{\"key\":\"s\",\"size\":[1,1,9],\"chunk_sizes\":[[1,1,2]],\"resolution\":[8,8,40],\"encoding\":\"raw\",\"voxel_offset\":[0,0,0]},{\"key\":\"t\",\"size\":[1,1,5],\"chunk_sizes\":[[1,1,3]],\"resolution\":[8,8,40],\"encoding\":\"raw\",\"voxel_offset\":[0,0,0]}]}",
        writes: [([0, 0, 0], [1, 1, 4]), ([0, 0, 7], [1, 1, 2])],
        channels: 1,
        width: 1,
        values: Values::Spread,
        method: "mode",
        made: "objects 2 cells 2\n",
        whole: "[0:1,0:1,0:5]",
        found: &[1, 43, 0, 0, 22],
    },
    // a row of voxels that are each a chunk
    Level {
        info: "{\"type\":\"image\",\"data_type\":\"uint16\",\"num_channels\":1,\"scales\":[{\"key\":\"s\",\"size\":[9,1,1],\"chunk_sizes\":[[1,1,1]],\"resolution\":[8,8,40],\"encoding\":\"raw\",\"voxel_offset\":[0,0,0]},{\"key\":\"t\",\"size\":[5,1,1],\"chunk_sizes\":[[2,1,1]],\"resolution\":[8,8,40],\"encoding\":\"raw\",\"voxel_offset\":[0,0,0]}]}",
        writes: [([1, 0, 0], [3, 1, 1]), ([8, 0, 0], [1, 1, 1])],
        channels: 1,
        width: 2,
        values: Values::Spread,
        method: "mean",
        made: "objects 2 cells 2\n",
        whole: "[0:5,0:1,0:1]",
        found: &[0, 0, 32, 186, 0, 0, 0, 0, 1, 0],
    },
    // one voxel
    Level {
        info: "{\"type\":\"image\",\"data_type\":\"uint64\",\"num_channels\":1,\"scales\":[{\"key\":\"s\",\"size\":[1,1,1],\"chunk_sizes\":[[1,1,1]],\"resolution\":[8,8,40],\"encoding\":\"raw\",\"voxel_offset\":[-2,0,4]},{\"key\":\"t\",\"size\":[1,1,1],\"chunk_sizes\":[[1,1,1]],\"resolution\":[8,8,40],\"encoding\":\"raw\",\"voxel_offset\":[-1,0,2]}]}",
        writes: [([-2, 0, 4], [1, 1, 1]), ([-2, 0, 4], [1, 1, 1])],
        channels: 1,
        width: 8,
        values: Values::Most,
        method: "mean",
        made: "objects 1 cells 1\n",
        whole: "[-1:0,0:1,2:3]",
        found: &[255, 255, 255, 255, 255, 255, 255, 255],
    },
    // a chunk that is larger than the scale
    Level {
        info: "{\"type\":\"image\",\"data_type\":\"uint8\",\"num_channels\":2,\"scales\":[{\"key\":\"s\",\"size\":[3,5,1],\"chunk_sizes\":[[64,64,64]],\"resolution\":[8,8,40],\"encoding\":\"raw\",\"voxel_offset\":[0,0,0]},{\"key\":\"t\",\"size\":[2,3,1],\"chunk_sizes\":[[32,32,32]],\"resolution\":[8,8,40],\"encoding\":\"raw\",\"voxel_offset\":[0,0,0]}]}",
        writes: [([0, 0, 0], [3, 5, 1]), ([1, 2, 0], [2, 2, 1])],
        channels: 2,
        width: 1,
        values: Values::Few,
        method: "mode",
        made: "objects 1 cells 1\n",
        whole: "[0:2,0:3,0:1]",
        found: &[0, 1, 0, 0, 0, 1, 0, 1, 0, 1, 0, 1],
    },
    // cells under which some are absent
    Level {
        info: "{\"type\":\"image\",\"data_type\":\"uint8\",\"num_channels\":1,\"scales\":[{\"key\":\"s\",\"size\":[12,2,2],\"chunk_sizes\":[[2,2,2]],\"resolution\":[8,8,40],\"encoding\":\"raw\",\"voxel_offset\":[0,0,0]},{\"key\":\"t\",\"size\":[6,1,1],\"chunk_sizes\":[[4,1,1]],\"resolution\":[8,8,40],\"encoding\":\"raw\",\"voxel_offset\":[0,0,0]}]}",
        writes: [([2, 0, 0], [2, 1, 1]), ([11, 1, 1], [1, 1, 1])],
        channels: 1,
        width: 1,
        values: Values::Spread,
        method: "mean",
        made: "objects 2 cells 2\n",
        whole: "[0:6,0:1,0:1]",
        found: &[0, 2, 0, 0, 0, 0],
    },
    // two channels of labels
    Level {
        info: "{\"type\":\"image\",\"data_type\":\"uint64\",\"num_channels\":2,\"scales\":[{\"key\":\"s\",\"size\":[4,3,2],\"chunk_sizes\":[[2,3,2]],\"resolution\":[8,8,40],\"encoding\":\"compressed_segmentation\",\"voxel_offset\":[0,0,0],\"compressed_segmentation_block_size\":[2,2,2]},{\"key\":\"t\",\"size\":[2,2,1],\"chunk_sizes\":[[2,2,1]],\"resolution\":[8,8,40],\"encoding\":\"compressed_segmentation\",\"voxel_offset\":[0,0,0],\"compressed_segmentation_block_size\":[2,2,2]}]}",
        writes: [([0, 0, 0], [4, 3, 2]), ([1, 1, 1], [1, 2, 1])],
        channels: 2,
        width: 8,
        values: Values::Few,
        method: "mode",
        made: "objects 1 cells 1\n",
        whole: "[0:2,0:2,0:1]",
        found: &[
            1, 0, 0, 0, 0, 0, 0, 0, 0, 0, 0, 0, 0, 0, 0, 0, 1, 0, 0, 0, 0, 0, 0, 0, 1, 0, 0, 0, 0,
            0, 0, 0, 1, 0, 0, 0, 0, 0, 0, 0, 0, 0, 0, 0, 0, 0, 0, 0, 0, 0, 0, 0, 0, 0, 0, 0, 1, 0,
            0, 0, 0, 0, 0, 0,
        ],
    },
    // the mean of the largest bytes
    Level {
        info: "{\"type\":\"image\",\"data_type\":\"uint8\",\"num_channels\":1,\"scales\":[{\"key\":\"s\",\"size\":[4,4,1],\"chunk_sizes\":[[2,4,1]],\"resolution\":[8,8,40],\"encoding\":\"raw\",\"voxel_offset\":[0,0,0]},{\"key\":\"t\",\"size\":[2,2,1],\"chunk_sizes\":[[1,2,1]],\"resolution\":[8,8,40],\"encoding\":\"raw\",\"voxel_offset\":[0,0,0]}]}",
        writes: [([0, 0, 0], [4, 4, 1]), ([1, 0, 0], [1, 3, 1])],
        channels: 1,
        width: 1,
        values: Values::Most,
        method: "mean",
        made: "objects 2 cells 2\n",
        whole: "[0:2,0:2,0:1]",
        found: &[254, 254, 254, 254],
    },
    // the mode of the largest values of 16 bits
    Level {
        info: "{\"type\":\"image\",\"data_type\":\"uint16\",\"num_channels\":1,\"scales\":[{\"key\":\"s\",\"size\":[3,2,5],\"chunk_sizes\":[[3,2,2]],\"resolution\":[8,8,40],\"encoding\":\"raw\",\"voxel_offset\":[0,0,0]},{\"key\":\"t\",\"size\":[2,1,3],\"chunk_sizes\":[[2,1,2]],\"resolution\":[8,8,40],\"encoding\":\"raw\",\"voxel_offset\":[0,0,0]}]}",
        writes: [([0, 0, 0], [3, 2, 5]), ([0, 1, 2], [3, 1, 1])],
        channels: 1,
        width: 2,
        values: Values::Most,
        method: "mode",
        made: "objects 2 cells 2\n",
        whole: "[0:2,0:1,0:3]",
        found: &[254, 255, 254, 255, 254, 255, 255, 255, 254, 255, 254, 255],
    },
    // small values of 32 bits
    Level {
        info: "{\"type\":\"image\",\"data_type\":\"uint32\",\"num_channels\":1,\"scales\":[{\"key\":\"s\",\"size\":[5,5,1],\"chunk_sizes\":[[2,3,1]],\"resolution\":[8,8,40],\"encoding\":\"raw\",\"voxel_offset\":[0,0,0],\"sharding\":{\"@type\":\"neuroglancer_uint64_sharded_v1\",\"preshift_bits\":0,\"hash\":\"identity\",\"minishard_bits\":1,\"shard_bits\":1}},{\"key\":\"t\",\"size\":[3,3,1],\"chunk_sizes\":[[1,3,1]],\"resolution\":[8,8,40],\"encoding\":\"raw\",\"voxel_offset\":[0,0,0],\"sharding\":{\"@type\":\"neuroglancer_uint64_sharded_v1\",\"preshift_bits\":0,\"hash\":\"identity\",\"minishard_bits\":1,\"shard_bits\":1}}]}",
        writes: [([0, 0, 0], [5, 5, 1]), ([4, 0, 0], [1, 5, 1])],
        channels: 1,
        width: 4,
        values: Values::Few,
        method: "mean",
        made: "objects 2 cells 3\n",
        whole: "[0:3,0:3,0:1]",
        found: &[
            0, 0, 0, 0, 0, 0, 0, 0, 0, 0, 0, 0, 0, 0, 0, 0, 0, 0, 0, 0, 0, 0, 0, 0, 0, 0, 0, 0, 1,
            0, 0, 0, 1, 0, 0, 0,
        ],
    },
    // several minishards of unequal size
    Level {
        info: "{\"type\":\"image\",\"data_type\":\"uint8\",\"num_channels\":1,\"scales\":[{\"key\":\"s\",\"size\":[10,3,1],\"chunk_sizes\":[[1,1,1]],\"resolution\":[8,8,40],\"encoding\":\"raw\",\"voxel_offset\":[0,0,0],\"sharding\":{\"@type\":\"neuroglancer_uint64_sharded_v1\",\"preshift_bits\":0,\"hash\":\"identity\",\"minishard_bits\":2,\"shard_bits\":0}},{\"key\":\"t\",\"size\":[5,2,1],\"chunk_sizes\":[[1,1,1]],\"resolution\":[8,8,40],\"encoding\":\"raw\",\"voxel_offset\":[0,0,0],\"sharding\":{\"@type\":\"neuroglancer_uint64_sharded_v1\",\"preshift_bits\":0,\"hash\":\"identity\",\"minishard_bits\":1,\"shard_bits\":1}}]}",
        writes: [([0, 0, 0], [7, 2, 1]), ([5, 1, 0], [5, 2, 1])],
        channels: 1,
        width: 1,
        values: Values::Spread,
        method: "mode",
        made: "objects 2 cells 8\n",
        whole: "[0:5,0:2,0:1]",
        found: &[1, 43, 1, 0, 0, 0, 0, 0, 127, 169],
    },
];

fn value_at(values: Values, number: u64) -> u64 {
    match values {
        Values::Spread => number.wrapping_mul(0x9e37_79b9_7f4a_7c15).wrapping_add(1),
        Values::Few => number.wrapping_mul(number) % 3,
        Values::Most => u64::MAX - number % 2,
    }
}

fn push_values(bytes: &mut Vec<u8>, level: &Level, size: [u64; 3]) -> Result<(), AllocError> {
    let voxels = size[0].wrapping_mul(size[1]).wrapping_mul(size[2]);
    for number in 0..voxels.wrapping_mul(level.channels) {
        let value = value_at(level.values, number).to_le_bytes();
        for byte in value.iter().take(level.width) {
            bytes.push(*byte)?;
        }
    }
    Ok(())
}

fn print_stream(alloc: Global, level: &Level) -> Result<Vec<u8>, AllocError> {
    let mut bytes = Vec::from_slice(alloc, b"PVW1\x02\0\0\0")?;
    for write in &level.writes {
        push_box(&mut bytes, write)?;
        push_values(&mut bytes, level, write.1)?;
    }
    Ok(bytes)
}

// A store of the first scale.
fn written<R: Threads + Wait + Abort + Sync>(
    rt: &R,
    alloc: Global,
    level: &Level,
) -> Result<MemoryStore, Fail> {
    let mut store = store_of(alloc, &[("d/info", level.info.as_bytes())], &[])?;
    let stream = print_stream(alloc, level)?;
    let mut out = outlet_of(alloc, 64, &[])?;
    let mut err = outlet_of(alloc, 64, &[])?;
    let words = "write d s";
    let status = call(rt, alloc, words, &stream, &mut store, &mut out, &mut err)?;
    assert_eq!(rt; status.number(), 0, "at {}", level.info);
    Ok(store)
}

// What so many workers make of it.
fn check_level<R: Threads + Wait + Abort + Sync>(
    rt: &R,
    alloc: Global,
    level: &Level,
    workers: &str,
) -> Result<(), Fail> {
    let mut store = written(rt, alloc, level)?;
    let mut words = String::from_str(alloc, "downsample d s t --method=")?;
    words.push_str(level.method)?;
    words.push_str(workers)?;
    let made = level.made.as_bytes();
    check(rt, alloc, &mut store, &(words.as_str(), 0, made, ""))?;
    let mut words = String::from_str(alloc, "cutout d t ")?;
    words.push_str(level.whole)?;
    check(rt, alloc, &mut store, &(words.as_str(), 0, level.found, ""))
}

fn check_levels<R: Threads + Wait + Abort + Sync>(
    rt: &R,
    alloc: Global,
    levels: &[Level],
    workers: &str,
) -> Result<(), Fail> {
    for level in levels {
        check_level(rt, alloc, level, workers)?;
    }
    Ok(())
}

#[test]
fn makes_next_scales(rt: HostRuntime) -> Result<(), Fail> {
    check_levels(&rt, rt.alloc(), LEVELS, "")?;
    check_levels(&rt, rt.alloc(), LEVELS, " --workers=2")?;
    check_levels(&rt, rt.alloc(), LEVELS, " --workers=16")
}
