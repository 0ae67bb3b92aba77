//! Scales of two to eight chunk sizes: what a write prints, what a judgement finds, and what a cutout gives. It was worked out by
//! the plain models of `tests/model`.

use crate::tests::{call, check};
use memory_rows::{outlet_of, store_of};
use std::alloc::{AllocError, Global};
use std::process::Abort;
use std::sync::Wait;
use std::test::Fail;
use std::thread::Threads;
use vol_base::MemoryStore;

// A scale, the boxes of two writes, how many bytes a voxel has in all channels, what the write prints and a judgement
// behind it, and the values of a part.
struct Copies<'a> {
    info: &'a str,
    writes: [([i64; 3], [u64; 3]); 2],
    value_len: u64,
    written: &'a str,
    verified: &'a str,
    part: &'a str,
    values: &'a [u8],
}

const COPIES: [Copies; 18] = [
    // halves
    Copies {
        info: "{\"type\":\"image\",\"data_type\":\"uint8\",\"num_channels\":1,\"scales\":[{\"key\":\"s\",\"size\":[8,4,2],\"chunk_sizes\":[[8,4,2],[4,4,2]],\"resolution\":[8,8,40],\"encoding\":\"raw\",\"voxel_offset\":[0,0,0]}]}",
        writes: [([5, 1, 1], [3, 2, 1]), ([0, 0, 0], [6, 1, 1])],
        value_len: 1,
        written: "objects 3 cells 3\n",
        verified: "cells 3 stored 3 absent 0\n",
        part: "[4:8,0:3,0:2]",
        values: &[
            149, 186, 0, 0, 0, 0, 0, 0, 0, 0, 0, 0, 0, 0, 0, 0, 0, 1, 38, 75, 0, 112, 149, 186,
        ],
    },
    // halves and quarters of cubes
    Copies {
        info: "{\"type\":\"image\",\"data_type\":\"uint8\",\"num_channels\":1,\"scales\":[{\"key\":\"s\",\"size\":[8,8,8],\"chunk_sizes\":[[8,8,8],[4,4,4],[2,2,2]],\"resolution\":[8,8,40],\"encoding\":\"raw\",\"voxel_offset\":[0,0,0]}]}",
        writes: [([0, 0, 0], [5, 5, 5]), ([2, 3, 0], [1, 2, 4])],
        value_len: 1,
        written: "objects 36 cells 36\n",
        verified: "cells 73 stored 36 absent 37\n",
        part: "[3:5,0:4,1:5]",
        values: &[
            13, 50, 198, 235, 127, 164, 56, 93, 170, 207, 99, 136, 28, 65, 213, 250, 71, 108, 0,
            37, 185, 222, 114, 151, 228, 9, 157, 194, 86, 123, 15, 52,
        ],
    },
    // sizes that don't divide
    Copies {
        info: "{\"type\":\"image\",\"data_type\":\"uint8\",\"num_channels\":1,\"scales\":[{\"key\":\"s\",\"size\":[11,5,3],\"chunk_sizes\":[[4,5,3],[3,2,3],[5,5,1]],\"resolution\":[8,8,40],\"encoding\":\"raw\",\"voxel_offset\":[0,0,0]}]}",
        writes: [([0, 0, 0], [7, 3, 2]), ([4, 1, 0], [7, 1, 2])],
        value_len: 1,
        written: "objects 16 cells 16\n",
        verified: "cells 24 stored 16 absent 8\n",
        part: "[1:5,1:4,0:2]",
        values: &[
            41, 78, 115, 1, 44, 81, 118, 155, 0, 0, 0, 0, 50, 87, 124, 4, 53, 90, 127, 164, 0, 0,
            0, 0,
        ],
    },
    // one size twice
    Copies {
        info: "{\"type\":\"image\",\"data_type\":\"uint8\",\"num_channels\":1,\"scales\":[{\"key\":\"s\",\"size\":[5,4,3],\"chunk_sizes\":[[2,2,2],[2,2,2]],\"resolution\":[8,8,40],\"encoding\":\"raw\",\"voxel_offset\":[0,0,0]}]}",
        writes: [([4, 0, 1], [1, 2, 2]), ([3, 0, 0], [2, 4, 2])],
        value_len: 1,
        written: "objects 10 cells 10\n",
        verified: "cells 24 stored 10 absent 14\n",
        part: "[1:5,0:3,0:3]",
        values: &[
            0, 0, 1, 38, 0, 0, 75, 112, 0, 0, 149, 186, 0, 0, 41, 78, 0, 0, 115, 152, 0, 0, 189,
            226, 0, 0, 0, 75, 0, 0, 0, 112, 0, 0, 0, 0,
        ],
    },
    // the first size again at the end
    Copies {
        info: "{\"type\":\"image\",\"data_type\":\"uint8\",\"num_channels\":1,\"scales\":[{\"key\":\"s\",\"size\":[5,4,3],\"chunk_sizes\":[[2,2,2],[5,1,3],[2,2,2]],\"resolution\":[8,8,40],\"encoding\":\"raw\",\"voxel_offset\":[0,0,0]}]}",
        writes: [([0, 0, 0], [3, 2, 2]), ([4, 1, 0], [1, 3, 3])],
        value_len: 1,
        written: "objects 16 cells 16\n",
        verified: "cells 28 stored 16 absent 12\n",
        part: "[0:3,0:3,0:3]",
        values: &[
            1, 38, 75, 112, 149, 186, 0, 0, 0, 223, 4, 41, 78, 115, 152, 0, 0, 0, 0, 0, 0, 0, 0, 0,
            0, 0, 0,
        ],
    },
    // sizes that are clipped to one box
    Copies {
        info: "{\"type\":\"image\",\"data_type\":\"uint8\",\"num_channels\":1,\"scales\":[{\"key\":\"s\",\"size\":[5,4,3],\"chunk_sizes\":[[64,64,64],[5,4,3],[8,8,8]],\"resolution\":[8,8,40],\"encoding\":\"raw\",\"voxel_offset\":[0,0,0]}]}",
        writes: [([0, 0, 0], [3, 2, 2]), ([4, 2, 0], [1, 1, 2])],
        value_len: 1,
        written: "objects 3 cells 3\n",
        verified: "cells 3 stored 3 absent 0\n",
        part: "[0:3,0:3,0:2]",
        values: &[
            1, 38, 75, 112, 149, 186, 0, 0, 0, 223, 4, 41, 78, 115, 152, 0, 0, 0,
        ],
    },
    // sizes of which some boxes are the same
    Copies {
        info: "{\"type\":\"image\",\"data_type\":\"uint8\",\"num_channels\":1,\"scales\":[{\"key\":\"s\",\"size\":[5,4,3],\"chunk_sizes\":[[4,4,3],[2,4,3],[4,2,3]],\"resolution\":[8,8,40],\"encoding\":\"raw\",\"voxel_offset\":[0,0,0]}]}",
        writes: [([2, 2, 2], [3, 2, 1]), ([1, 1, 2], [2, 1, 1])],
        value_len: 1,
        written: "objects 8 cells 8\n",
        verified: "cells 9 stored 8 absent 1\n",
        part: "[2:5,1:4,1:3]",
        values: &[
            0, 0, 0, 0, 0, 0, 0, 0, 0, 38, 0, 0, 1, 38, 75, 112, 149, 186,
        ],
    },
    // cubes and slabs
    Copies {
        info: "{\"type\":\"image\",\"data_type\":\"uint8\",\"num_channels\":1,\"scales\":[{\"key\":\"s\",\"size\":[12,12,6],\"chunk_sizes\":[[4,4,4],[12,12,1]],\"resolution\":[8,8,40],\"encoding\":\"raw\",\"voxel_offset\":[0,0,0]}]}",
        writes: [([0, 0, 0], [8, 8, 4]), ([10, 8, 1], [2, 3, 3])],
        value_len: 1,
        written: "objects 9 cells 9\n",
        verified: "cells 24 stored 9 absent 15\n",
        part: "[3:7,1:5,1:3]",
        values: &[
            216, 253, 34, 71, 0, 37, 74, 111, 40, 77, 114, 151, 80, 117, 154, 191, 24, 61, 98, 135,
            64, 101, 138, 175, 104, 141, 178, 215, 144, 181, 218, 255,
        ],
    },
    // voxels and one box
    Copies {
        info: "{\"type\":\"image\",\"data_type\":\"uint8\",\"num_channels\":1,\"scales\":[{\"key\":\"s\",\"size\":[4,3,2],\"chunk_sizes\":[[4,3,2],[1,1,1]],\"resolution\":[8,8,40],\"encoding\":\"raw\",\"voxel_offset\":[0,0,0]}]}",
        writes: [([0, 0, 0], [2, 2, 1]), ([1, 0, 0], [1, 3, 1])],
        value_len: 1,
        written: "objects 6 cells 6\n",
        verified: "cells 25 stored 6 absent 19\n",
        part: "[1:4,0:3,0:1]",
        values: &[1, 0, 0, 38, 0, 0, 75, 0, 0],
    },
    // eight sizes
    Copies {
        info: "{\"type\":\"image\",\"data_type\":\"uint8\",\"num_channels\":1,\"scales\":[{\"key\":\"s\",\"size\":[6,4,3],\"chunk_sizes\":[[6,4,3],[1,1,1],[2,1,1],[3,2,1],[4,2,2],[5,3,3],[64,1,3],[1,4,2]],\"resolution\":[8,8,40],\"encoding\":\"raw\",\"voxel_offset\":[0,0,0]}]}",
        writes: [([2, 3, 1], [4, 1, 2]), ([2, 3, 0], [4, 1, 2])],
        value_len: 1,
        written: "objects 40 cells 40\n",
        verified: "cells 149 stored 40 absent 109\n",
        part: "[2:6,2:4,0:3]",
        values: &[
            0, 0, 0, 0, 1, 38, 75, 112, 0, 0, 0, 0, 149, 186, 223, 4, 0, 0, 0, 0, 149, 186, 223, 4,
        ],
    },
    // an offset below 0
    Copies {
        info: "{\"type\":\"image\",\"data_type\":\"uint8\",\"num_channels\":1,\"scales\":[{\"key\":\"s\",\"size\":[9,7,4],\"chunk_sizes\":[[4,4,4],[3,3,2]],\"resolution\":[8,8,40],\"encoding\":\"raw\",\"voxel_offset\":[-5,-7,3]}]}",
        writes: [([-5, -7, 3], [6, 4, 2]), ([0, -5, 4], [3, 1, 1])],
        value_len: 1,
        written: "objects 7 cells 7\n",
        verified: "cells 24 stored 7 absent 17\n",
        part: "[-2:2,-6:-3,3:5]",
        values: &[
            78, 115, 152, 0, 44, 81, 118, 0, 10, 47, 84, 0, 198, 235, 16, 0, 164, 201, 1, 38, 130,
            167, 204, 0,
        ],
    },
    // 16 bits, 3 channels, another offset
    Copies {
        info: "{\"type\":\"image\",\"data_type\":\"uint16\",\"num_channels\":3,\"scales\":[{\"key\":\"s\",\"size\":[6,5,4],\"chunk_sizes\":[[3,3,3],[2,5,1]],\"resolution\":[8,8,40],\"encoding\":\"raw\",\"voxel_offset\":[1,0,-2]}]}",
        writes: [([1, 0, -2], [4, 3, 2]), ([3, 1, -1], [4, 4, 1])],
        value_len: 6,
        written: "objects 9 cells 9\n",
        verified: "cells 20 stored 9 absent 11\n",
        part: "[2:5,0:2,-1:0]",
        values: &[
            195, 232, 13, 50, 87, 124, 235, 16, 1, 38, 75, 112, 179, 216, 253, 34, 71, 108, 219, 0,
            161, 198, 235, 16, 163, 200, 237, 18, 55, 92, 203, 240, 65, 102, 139, 176,
        ],
    },
    // 64 bits, 2 channels
    Copies {
        info: "{\"type\":\"image\",\"data_type\":\"uint64\",\"num_channels\":2,\"scales\":[{\"key\":\"s\",\"size\":[6,5,4],\"chunk_sizes\":[[6,5,4],[4,4,4],[1,5,4]],\"resolution\":[8,8,40],\"encoding\":\"raw\",\"voxel_offset\":[0,0,0]}]}",
        writes: [([5, 0, 0], [1, 3, 2]), ([4, 1, 3], [2, 3, 1])],
        value_len: 16,
        written: "objects 4 cells 4\n",
        verified: "cells 11 stored 4 absent 7\n",
        part: "[5:6,1:3,1:2]",
        values: &[
            161, 198, 235, 16, 53, 90, 127, 164, 201, 238, 19, 56, 93, 130, 167, 204, 145, 182,
            219, 0, 37, 74, 111, 148, 185, 222, 3, 40, 77, 114, 151, 188,
        ],
    },
    // labels of 32 bits
    Copies {
        info: "{\"type\":\"segmentation\",\"data_type\":\"uint32\",\"num_channels\":1,\"scales\":[{\"key\":\"s\",\"size\":[9,6,5],\"chunk_sizes\":[[4,4,4],[9,6,1]],\"resolution\":[8,8,40],\"encoding\":\"compressed_segmentation\",\"voxel_offset\":[0,0,0],\"compressed_segmentation_block_size\":[2,2,2]}]}",
        writes: [([0, 0, 0], [6, 4, 3]), ([5, 4, 1], [1, 2, 4])],
        value_len: 4,
        written: "objects 9 cells 9\n",
        verified: "cells 17 stored 9 absent 8\n",
        part: "[0:3,1:4,0:1]",
        values: &[
            121, 158, 195, 232, 13, 50, 87, 124, 161, 198, 235, 16, 241, 22, 59, 96, 133, 170, 207,
            244, 25, 62, 99, 136, 105, 142, 179, 216, 253, 34, 71, 108, 145, 182, 219, 0,
        ],
    },
    // labels of 64 bits
    Copies {
        info: "{\"type\":\"segmentation\",\"data_type\":\"uint64\",\"num_channels\":1,\"scales\":[{\"key\":\"s\",\"size\":[7,7,3],\"chunk_sizes\":[[7,7,3],[3,3,3],[7,1,1]],\"resolution\":[8,8,40],\"encoding\":\"compressed_segmentation\",\"voxel_offset\":[-3,0,0],\"compressed_segmentation_block_size\":[3,3,3]}]}",
        writes: [([-3, 0, 0], [4, 4, 2]), ([0, 5, 1], [4, 1, 2])],
        value_len: 8,
        written: "objects 16 cells 16\n",
        verified: "cells 31 stored 16 absent 15\n",
        part: "[-1:1,3:4,0:2]",
        values: &[
            49, 86, 123, 160, 197, 234, 15, 52, 89, 126, 163, 200, 237, 18, 55, 92, 177, 214, 251,
            32, 69, 106, 143, 180, 217, 254, 35, 72, 109, 146, 183, 220,
        ],
    },
    // labels in blocks that are larger, 2 channels
    Copies {
        info: "{\"type\":\"image\",\"data_type\":\"uint32\",\"num_channels\":2,\"scales\":[{\"key\":\"s\",\"size\":[5,4,3],\"chunk_sizes\":[[2,2,2],[5,4,1]],\"resolution\":[8,8,40],\"encoding\":\"compressed_segmentation\",\"voxel_offset\":[0,0,0],\"compressed_segmentation_block_size\":[8,8,8]}]}",
        writes: [([1, 1, 0], [3, 2, 2]), ([4, 3, 0], [1, 1, 1])],
        value_len: 8,
        written: "objects 7 cells 7\n",
        verified: "cells 15 stored 7 absent 8\n",
        part: "[3:5,2:4,0:1]",
        values: &[
            229, 10, 47, 84, 0, 0, 0, 0, 0, 0, 0, 0, 1, 38, 75, 112, 213, 250, 31, 68, 0, 0, 0, 0,
            0, 0, 0, 0, 149, 186, 223, 4,
        ],
    },
    // labels of eight sizes
    Copies {
        info: "{\"type\":\"segmentation\",\"data_type\":\"uint64\",\"num_channels\":1,\"scales\":[{\"key\":\"s\",\"size\":[6,4,3],\"chunk_sizes\":[[6,4,3],[1,1,1],[2,1,1],[3,2,1],[4,2,2],[5,3,3],[64,1,3],[1,4,2]],\"resolution\":[8,8,40],\"encoding\":\"compressed_segmentation\",\"voxel_offset\":[-9,8,-7],\"compressed_segmentation_block_size\":[2,3,1]}]}",
        writes: [([-9, 8, -7], [4, 2, 2]), ([-5, 10, -6], [2, 2, 1])],
        value_len: 8,
        written: "objects 52 cells 52\n",
        verified: "cells 149 stored 52 absent 97\n",
        part: "[-5:-3,10:12,-6:-5]",
        values: &[
            1, 38, 75, 112, 149, 186, 223, 4, 41, 78, 115, 152, 189, 226, 7, 44, 81, 118, 155, 192,
            229, 10, 47, 84, 121, 158, 195, 232, 13, 50, 87, 124,
        ],
    },
    // rows and boxes
    Copies {
        info: "{\"type\":\"image\",\"data_type\":\"uint8\",\"num_channels\":1,\"scales\":[{\"key\":\"s\",\"size\":[7,3,2],\"chunk_sizes\":[[7,1,1],[2,3,2],[3,3,2]],\"resolution\":[8,8,40],\"encoding\":\"raw\",\"voxel_offset\":[0,-2,9]}]}",
        writes: [([0, -2, 9], [4, 2, 1]), ([1, -2, 9], [2, 3, 1])],
        value_len: 1,
        written: "objects 7 cells 7\n",
        verified: "cells 13 stored 7 absent 6\n",
        part: "[1:4,-2:1,9:11]",
        values: &[
            1, 38, 112, 75, 112, 4, 149, 186, 0, 0, 0, 0, 0, 0, 0, 0, 0, 0,
        ],
    },
];

// The bytes of the values of a write, by their places.
fn byte_at(place: u64) -> u8 {
    place.to_le_bytes()[0].wrapping_mul(37).wrapping_add(1)
}

/// The box of a write, as a stream has it.
pub(super) fn push_box(
    bytes: &mut Vec<u8>,
    write: &([i64; 3], [u64; 3]),
) -> Result<(), AllocError> {
    let (begin, size) = *write;
    for at in begin {
        bytes.extend_from_slice(&at.to_le_bytes())?;
    }
    for len in size {
        bytes.extend_from_slice(&len.to_le_bytes())?;
    }
    Ok(())
}

fn push_write(
    bytes: &mut Vec<u8>,
    write: &([i64; 3], [u64; 3]),
    value_len: u64,
) -> Result<(), AllocError> {
    push_box(bytes, write)?;
    let size = write.1;
    let voxels = size[0].wrapping_mul(size[1]).wrapping_mul(size[2]);
    for place in 0..voxels.wrapping_mul(value_len) {
        bytes.push(byte_at(place))?;
    }
    Ok(())
}

fn print_stream(alloc: Global, copies: &Copies) -> Result<Vec<u8>, AllocError> {
    let mut bytes = Vec::from_slice(alloc, b"PVW1\x02\0\0\0")?;
    for write in &copies.writes {
        push_write(&mut bytes, write, copies.value_len)?;
    }
    Ok(bytes)
}

fn check_part<R: Threads + Wait + Abort + Sync>(
    rt: &R,
    alloc: Global,
    store: &mut MemoryStore,
    copies: &Copies,
) -> Result<(), Fail> {
    let mut words = String::from_str(alloc, "cutout d s ")?;
    words.push_str(copies.part)?;
    check(rt, alloc, store, &(words.as_str(), 0, copies.values, ""))
}

fn check_copies<R: Threads + Wait + Abort + Sync>(
    rt: &R,
    alloc: Global,
    copies: &Copies,
) -> Result<(), Fail> {
    let mut store = store_of(alloc, &[("d/info", copies.info.as_bytes())], &[])?;
    let stream = print_stream(alloc, copies)?;
    let mut out = outlet_of(alloc, 7, &[])?;
    let mut err = outlet_of(alloc, 7, &[])?;
    let words = "write d s --workers=2";
    let status = call(rt, alloc, words, &stream, &mut store, &mut out, &mut err)?;
    let info = copies.info;
    assert_eq!(rt; status.number(), 0, "at {info}");
    assert!(rt; out.written() == copies.written.as_bytes(), "out at {info}");
    check(
        rt,
        alloc,
        &mut store,
        &("verify d s", 0, copies.verified.as_bytes(), ""),
    )?;
    check_part(rt, alloc, &mut store, copies)
}

#[test]
fn stores_each_chunk_size(rt: HostRuntime) -> Result<(), Fail> {
    for copies in &COPIES {
        check_copies(&rt, rt.alloc(), copies)?;
    }
    Ok(())
}
