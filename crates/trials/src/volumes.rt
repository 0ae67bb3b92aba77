//! Small volumes, and what is written into them.

use chunk_grid::byte_len;
use command_base::Crew;
use info_doc::{Scale, scale_of};
use memory_rows::{name_of, outlet_of, put};
use std::alloc::{AllocError, Global};
use std::process::Abort;
use std::sync::Wait;
use std::test::Fail;
use std::thread::Threads;
use vol_base::{Box3, FreeGate, MemoryFeed, MemoryStore};
use write_cmd::run_write;

// A box; the first byte of its values; and how much each byte is above the last one.
pub(crate) struct Write {
    pub(crate) part: Box3,
    pub(crate) first: u8,
    pub(crate) step: u8,
}

// The document of a scale, writes, and the lines that `write` and `verify` print.
pub(crate) struct Volume<'a> {
    pub(crate) info: &'a [u8],
    pub(crate) writes: &'a [Write],
    pub(crate) written: &'a str,
    pub(crate) verified: &'a str,
}

// A box, and one that lies partly over it.
const BOXES: &[Write] = &[
    Write {
        part: Box3 {
            begin: [-2, 1, 0],
            size: [4, 3, 2],
        },
        first: 1,
        step: 1,
    },
    Write {
        part: Box3 {
            begin: [-1, 2, 1],
            size: [3, 3, 1],
        },
        first: 201,
        step: 3,
    },
];

// Cells of six voxels, and of three, two and one at the edges; two channels.
pub(crate) const RAW: Volume = Volume {
    info: b"{\"type\":\"image\",\"data_type\":\"uint16\",\"num_channels\":2,\"scales\":[{\"key\":\"s\",\"size\":[5,4,2],\"voxel_offset\":[-2,1,0],\"chunk_sizes\":[[2,3,1]],\"resolution\":[8,8,40],\"encoding\":\"raw\"}]}",
    writes: BOXES,
    written: "objects 6 cells 6\n",
    verified: "cells 12 stored 6 absent 6\n",
};

// The same, once more in slabs of twenty voxels and less.
pub(crate) const RAW_TWICE: Volume = Volume {
    info: b"{\"type\":\"image\",\"data_type\":\"uint16\",\"num_channels\":2,\"scales\":[{\"key\":\"s\",\"size\":[5,4,2],\"voxel_offset\":[-2,1,0],\"chunk_sizes\":[[2,3,1],[5,2,2]],\"resolution\":[8,8,40],\"encoding\":\"raw\"}]}",
    writes: BOXES,
    written: "objects 8 cells 8\n",
    verified: "cells 14 stored 8 absent 6\n",
};

// The cells of one plane in two shards of two minishards, which have two chunks, or one; one chunk is absent.
pub(crate) const SHARDED: Volume = Volume {
    info: b"{\"type\":\"image\",\"data_type\":\"uint8\",\"num_channels\":1,\"scales\":[{\"key\":\"s\",\"size\":[5,4,1],\"chunk_sizes\":[[2,3,1]],\"resolution\":[8,8,40],\"encoding\":\"raw\",\"sharding\":{\"@type\":\"neuroglancer_uint64_sharded_v1\",\"preshift_bits\":0,\"hash\":\"identity\",\"minishard_bits\":1,\"shard_bits\":1}}]}",
    writes: &[
        Write {
            part: Box3 {
                begin: [0, 0, 0],
                size: [4, 4, 1],
            },
            first: 1,
            step: 1,
        },
        Write {
            part: Box3 {
                begin: [3, 0, 0],
                size: [2, 2, 1],
            },
            first: 99,
            step: 0,
        },
    ],
    written: "objects 2 cells 5\n",
    verified: "cells 6 stored 5 absent 1\n",
};

// Four cells of eighteen voxels and less, with blocks of four and less, in shards by the hash; two channels.
pub(crate) const SEGMENTED: Volume = Volume {
    info: b"{\"type\":\"image\",\"data_type\":\"uint32\",\"num_channels\":2,\"scales\":[{\"key\":\"s\",\"size\":[5,3,2],\"chunk_sizes\":[[3,2,2]],\"resolution\":[8,8,40],\"encoding\":\"compressed_segmentation\",\"compressed_segmentation_block_size\":[2,2,1],\"sharding\":{\"@type\":\"neuroglancer_uint64_sharded_v1\",\"preshift_bits\":0,\"hash\":\"murmurhash3_x86_128\",\"minishard_bits\":1,\"shard_bits\":1}}]}",
    writes: &[
        Write {
            part: Box3 {
                begin: [0, 0, 0],
                size: [5, 3, 2],
            },
            first: 7,
            step: 0,
        },
        Write {
            part: Box3 {
                begin: [1, 1, 0],
                size: [3, 2, 1],
            },
            first: 0,
            step: 1,
        },
    ],
    written: "objects 2 cells 4\n",
    verified: "cells 4 stored 4 absent 0\n",
};

// One cell of a segmentation of eight bytes a value, by itself.
pub(crate) const LABELS: Volume = Volume {
    info: b"{\"type\":\"segmentation\",\"data_type\":\"uint64\",\"num_channels\":1,\"scales\":[{\"key\":\"s\",\"size\":[3,2,1],\"chunk_sizes\":[[4,4,4]],\"resolution\":[8,8,40],\"encoding\":\"compressed_segmentation\",\"compressed_segmentation_block_size\":[2,2,2]}]}",
    writes: &[Write {
        part: Box3 {
            begin: [0, 0, 0],
            size: [3, 1, 1],
        },
        first: 1,
        step: 1,
    }],
    written: "objects 1 cells 1\n",
    verified: "cells 1 stored 1 absent 0\n",
};

/// The byte of a write's values at a place.
pub(crate) fn byte_at(write: &Write, place: u64) -> u8 {
    let steps = (place % 256) as u8;
    write.first.wrapping_add(write.step.wrapping_mul(steps))
}

fn push_write(bytes: &mut Vec<u8>, scale: &Scale, write: &Write) -> Result<(), AllocError> {
    for begin in write.part.begin {
        bytes.extend_from_slice(&begin.to_le_bytes())?;
    }
    for size in write.part.size {
        bytes.extend_from_slice(&size.to_le_bytes())?;
    }
    let len = byte_len(&write.part, scale.channels, scale.width).min(1 << 16) as u64;
    for place in 0..len {
        bytes.push(byte_at(write, place))?;
    }
    Ok(())
}

// A feed of writes, which gives 7 bytes at a time.
fn feed_of(alloc: Global, scale: &Scale, writes: &[Write]) -> Result<MemoryFeed, AllocError> {
    let mut bytes = Vec::from_slice(alloc, b"PVW1")?;
    let count = (writes.len() % 256) as u32;
    bytes.extend_from_slice(&count.to_le_bytes())?;
    for write in writes {
        push_write(&mut bytes, scale, write)?;
    }
    Ok(MemoryFeed::new(bytes, 7, Vec::new(alloc)))
}

/// The scale of a volume.
pub(crate) fn find_scale(alloc: Global, volume: &Volume) -> Result<Scale, Fail> {
    let scale = scale_of(alloc, volume.info, &name_of("s")?)?;
    Ok(scale)
}

/// A store with all that is written into a volume.
pub(crate) fn written<R: Threads + Wait + Abort + Sync>(
    rt: &R,
    alloc: Global,
    scale: &Scale,
    volume: &Volume,
) -> Result<MemoryStore, Fail> {
    let mut store = MemoryStore::new(alloc, Vec::new(alloc));
    put(alloc, &mut store, "d/info", volume.info)?;
    let mut feed = feed_of(alloc, scale, volume.writes)?;
    let mut out = outlet_of(alloc, 7, &[])?;
    let mut err = outlet_of(alloc, 7, &[])?;
    let dataset = name_of("d")?;
    let key = name_of("s")?;
    let crew = Crew::of(rt, alloc, 2, &FreeGate);
    let status = run_write(
        &crew, &mut store, &mut feed, &mut out, &mut err, &dataset, &key,
    );
    assert_eq!(rt; status.number(), 0, "at {}", volume.written);
    assert!(rt;
        out.written() == volume.written.as_bytes(),
        "at {}",
        volume.written
    );
    Ok(store)
}
