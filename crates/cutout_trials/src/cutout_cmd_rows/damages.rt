//! Cutouts of damaged shards and segmentations. What each answers of a shard was worked out by the plain reader in
//! `tests/model/shards.py`; the words of the segmentations were worked out by hand from docs/format.md.

use super::{Cut, NO_FAULTS, WHOLE, check_cut};
use crate::shards::{Numbers, changed};
use command_base::Status;
use memory_rows::store_of;
use std::alloc::{AllocError, Global};
use std::process::Abort;
use std::test::Fail;

// Eleven voxels in cells of two, by their ids in two minishards of one shard.
pub(super) const SIX_CELLS: &[u8] =
    b"{\"type\":\"image\",\"data_type\":\"uint8\",\"num_channels\":1,\"scales\":[{\"key\":\"s\",\"size\":[11,1,1],\"chunk_sizes\":[[2,1,1]],\"resolution\":[8,8,40],\"encoding\":\"raw\",\"sharding\":{\"@type\":\"neuroglancer_uint64_sharded_v1\",\"preshift_bits\":0,\"hash\":\"identity\",\"minishard_bits\":1,\"shard_bits\":0}}]}";

// The values 1 to 11: minishard 0 has the chunks 0, 2 and 4, minishard 1 has 1, 3 and 5.
pub(super) const SIX_CHUNKS: &[u8] = &[
    6, 0, 0, 0, 0, 0, 0, 0, 78, 0, 0, 0, 0, 0, 0, 0, 83, 0, 0, 0, 0, 0, 0, 0, 155, 0, 0, 0, 0, 0,
    0, 0, 1, 2, 5, 6, 9, 10, 0, 0, 0, 0, 0, 0, 0, 0, 2, 0, 0, 0, 0, 0, 0, 0, 2, 0, 0, 0, 0, 0, 0,
    0, 0, 0, 0, 0, 0, 0, 0, 0, 0, 0, 0, 0, 0, 0, 0, 0, 0, 0, 0, 0, 0, 0, 0, 0, 2, 0, 0, 0, 0, 0, 0,
    0, 2, 0, 0, 0, 0, 0, 0, 0, 2, 0, 0, 0, 0, 0, 0, 0, 3, 4, 7, 8, 11, 1, 0, 0, 0, 0, 0, 0, 0, 2,
    0, 0, 0, 0, 0, 0, 0, 2, 0, 0, 0, 0, 0, 0, 0, 78, 0, 0, 0, 0, 0, 0, 0, 0, 0, 0, 0, 0, 0, 0, 0,
    0, 0, 0, 0, 0, 0, 0, 0, 2, 0, 0, 0, 0, 0, 0, 0, 2, 0, 0, 0, 0, 0, 0, 0, 1, 0, 0, 0, 0, 0, 0, 0,
];

// Numbers of eight bytes, each put at a place of a shard; how many bytes of it are left; a box; and the bytes of the
// cutout, or the line of its refusal.
#[derive(Clone, Copy)]
struct Damage<'a> {
    numbers: Numbers,
    len: usize,
    part: &'a str,
    out: &'a [u8],
    err: &'a str,
}

const DAMAGES: &[Damage] = &[
    Damage {
        numbers: &[],
        len: 187,
        part: "[0:11,0:1,0:1]",
        out: &[1, 2, 3, 4, 5, 6, 7, 8, 9, 10, 11],
        err: "",
    },
    Damage {
        numbers: &[],
        len: 15,
        part: "[0:2,0:1,0:1]",
        out: &[],
        err: "damaged 0,0,0: shard short index\n",
    },
    Damage {
        numbers: &[],
        len: 31,
        part: "[2:4,0:1,0:1]",
        out: &[],
        err: "damaged 1,0,0: shard short index\n",
    },
    Damage {
        numbers: &[],
        len: 110,
        part: "[2:4,0:1,0:1]",
        out: &[],
        err: "damaged 1,0,0: shard short minishard\n",
    },
    Damage {
        numbers: &[(16, 155), (24, 83)],
        len: 187,
        part: "[2:4,0:1,0:1]",
        out: &[],
        err: "damaged 1,0,0: shard bad range\n",
    },
    Damage {
        numbers: &[(8, 79), (24, 154)],
        len: 187,
        part: "[3:11,0:1,0:1]",
        out: &[],
        err: "damaged 1,0,0: shard bad length 71\n",
    },
    Damage {
        numbers: &[(24, u64::MAX)],
        len: 187,
        part: "[2:4,0:1,0:1]",
        out: &[],
        err: "damaged 1,0,0: shard bad length 18446744073709551532\n",
    },
    Damage {
        numbers: &[(0, 0), (8, 100663320)],
        len: 187,
        part: "[0:2,0:1,0:1]",
        out: &[],
        err: "damaged 0,0,0: shard too many rows 4194305\n",
    },
    Damage {
        numbers: &[(0, 0), (8, 100663296)],
        len: 187,
        part: "[0:2,0:1,0:1]",
        out: &[],
        err: "damaged 0,0,0: shard short minishard\n",
    },
    Damage {
        numbers: &[(0, 6), (8, 6)],
        len: 187,
        part: "[0:11,0:1,0:1]",
        out: &[0, 0, 3, 4, 0, 0, 7, 8, 0, 0, 11],
        err: "",
    },
    Damage {
        numbers: &[(46, 0)],
        len: 187,
        part: "[4:6,0:1,0:1]",
        out: &[],
        err: "damaged 2,0,0: index id 1\n",
    },
    Damage {
        numbers: &[(46, 0)],
        len: 187,
        part: "[0:2,0:1,0:1]",
        out: &[1, 2],
        err: "",
    },
    Damage {
        numbers: &[(70, u64::MAX - 3)],
        len: 187,
        part: "[4:6,0:1,0:1]",
        out: &[],
        err: "damaged 2,0,0: index start 1\n",
    },
    Damage {
        numbers: &[(62, 155)],
        len: 187,
        part: "[0:2,0:1,0:1]",
        out: &[],
        err: "damaged 0,0,0: shard short chunk\n",
    },
    Damage {
        numbers: &[(94, 3), (123, 0)],
        len: 187,
        part: "[0:11,0:1,0:1]",
        out: &[],
        err: "damaged 2,0,0: chunk too long 3 limit 2\n",
    },
    Damage {
        numbers: &[(86, 1)],
        len: 187,
        part: "[0:2,0:1,0:1]",
        out: &[],
        err: "damaged 0,0,0: chunk length 1 wanted 2\n",
    },
    Damage {
        numbers: &[(123, 0)],
        len: 187,
        part: "[2:11,0:1,0:1]",
        out: &[],
        err: "damaged 3,0,0: index id 1\n",
    },
];

// A cutout that gives values, or tells damage.
fn cut_of<'a>(part: &'a str, out: &'a [u8], err: &'a str) -> Cut<'a> {
    let status = if err.is_empty() {
        Status::Ok
    } else {
        Status::Damaged
    };
    Cut {
        key: "s",
        part,
        status,
        out,
        err,
    }
}

/// A cutout over a document and one object: values, or a refusal of damage.
pub(super) fn check_object<'a>(
    rt: &impl Abort,
    alloc: Global,
    info: &'a [u8],
    name: &'a str,
    object: &'a [u8],
    part: &'a str,
    out: &'a [u8],
    err: &'a str,
) -> Result<(), Fail> {
    let objects = [("d/info", info), (name, object)];
    let mut store = store_of(alloc, &objects, &[])?;
    check_cut(rt, alloc, &mut store, &NO_FAULTS, &cut_of(part, out, err))
}

// A cutout over the shard that is so damaged.
fn check_damage(rt: &impl Abort, alloc: Global, damage: &Damage) -> Result<(), Fail> {
    let mut bytes = changed(alloc, SIX_CHUNKS, damage.numbers)?;
    bytes.truncate(damage.len);
    let name = "d/s/0.shard";
    let Damage { part, out, err, .. } = *damage;
    check_object(rt, alloc, SIX_CELLS, name, &bytes, part, out, err)
}

fn check_damages(rt: &impl Abort, alloc: Global, rows: &[Damage]) -> Result<(), Fail> {
    for damage in rows {
        check_damage(rt, alloc, damage)?;
    }
    Ok(())
}

#[test]
fn tells_damaged_shards(rt: HostRuntime) -> Result<(), Fail> {
    check_damages(&rt, rt.alloc(), DAMAGES)
}

// Two voxels in one block.
const LABELS: &[u8] =
    b"{\"type\":\"segmentation\",\"data_type\":\"uint32\",\"num_channels\":1,\"scales\":[{\"key\":\"s\",\"size\":[2,1,1],\"chunk_sizes\":[[2,1,1]],\"resolution\":[8,8,40],\"encoding\":\"compressed_segmentation\",\"compressed_segmentation_block_size\":[2,1,1]}]}";

// Where the channel begins, the header of the block, with one bit an index, the indices, and the table.
const TWO_LABELS: &[u32] = &[1, 0x01000003, 2, 2, 7, 9];

// A word that is put in the place of another, how many bytes there are (zeros behind the words), and the values or the
// line.
const LABEL_DAMAGES: &[(usize, u32, usize, &[u8], &str)] = &[
    (0, 1, 24, &[7, 0, 0, 0, 9, 0, 0, 0], ""),
    (0, 1, 23, &[], "damaged 0,0,0: seg length 23\n"),
    (0, 1, 40, &[], "damaged 0,0,0: seg length 37\n"),
    (0, 5, 24, &[], "damaged 0,0,0: seg channel 0\n"),
    (1, 0x03000003, 24, &[], "damaged 0,0,0: seg bits 0 0 3\n"),
    (2, 5, 24, &[], "damaged 0,0,0: seg values 0 0\n"),
    (1, 0x01000004, 24, &[], "damaged 0,0,0: seg table 0 0 1\n"),
];

// The chunk with such a word, and so long.
fn labels_of(alloc: Global, at: usize, word: u32, len: usize) -> Result<Vec<u8>, AllocError> {
    let mut chunk = Vec::new(alloc);
    for (place, own) in TWO_LABELS.iter().enumerate() {
        let put = if place == at { word } else { *own };
        chunk.extend_from_slice(&put.to_le_bytes())?;
    }
    chunk.resize(len, 0)?;
    Ok(chunk)
}

// A cutout of both voxels over this chunk.
fn check_label<'a>(
    rt: &impl Abort,
    alloc: Global,
    row: &(usize, u32, usize, &'a [u8], &'a str),
) -> Result<(), Fail> {
    let (at, word, len, out, err) = *row;
    let chunk = labels_of(alloc, at, word, len)?;
    let name = "d/s/0-2_0-1_0-1";
    check_object(rt, alloc, LABELS, name, &chunk, "[0:2,0:1,0:1]", out, err)
}

#[test]
fn tells_damaged_labels(rt: HostRuntime) -> Result<(), Fail> {
    for row in LABEL_DAMAGES {
        check_label(&rt, rt.alloc(), row)?;
    }
    Ok(())
}

// Four cells in as many layers, of two channels, in one minishard: the entry, the chunks, and four rows.
pub(super) const FOUR_LAYERS: &[u8] =
    b"{\"type\":\"image\",\"data_type\":\"uint8\",\"num_channels\":2,\"scales\":[{\"key\":\"s\",\"size\":[1,1,4],\"chunk_sizes\":[[1,1,1]],\"resolution\":[8,8,40],\"encoding\":\"raw\",\"sharding\":{\"@type\":\"neuroglancer_uint64_sharded_v1\",\"preshift_bits\":0,\"hash\":\"identity\",\"minishard_bits\":0,\"shard_bits\":0}}]}";

pub(super) const FOUR_CHUNKS: &[u8] = &[
    8, 0, 0, 0, 0, 0, 0, 0, 104, 0, 0, 0, 0, 0, 0, 0, 1, 5, 2, 6, 3, 7, 4, 8, 0, 0, 0, 0, 0, 0, 0,
    0, 1, 0, 0, 0, 0, 0, 0, 0, 1, 0, 0, 0, 0, 0, 0, 0, 1, 0, 0, 0, 0, 0, 0, 0, 0, 0, 0, 0, 0, 0, 0,
    0, 0, 0, 0, 0, 0, 0, 0, 0, 0, 0, 0, 0, 0, 0, 0, 0, 0, 0, 0, 0, 0, 0, 0, 0, 2, 0, 0, 0, 0, 0, 0,
    0, 2, 0, 0, 0, 0, 0, 0, 0, 2, 0, 0, 0, 0, 0, 0, 0, 2, 0, 0, 0, 0, 0, 0, 0,
];

// So much of a document is asked for at first.
const FRONT: u64 = 1 << 16;

/// How many bytes a cutout of a shard asks for, beside those of the document.
pub(super) fn check_asked(
    rt: &impl Abort,
    alloc: Global,
    info: &[u8],
    shard: &[u8],
    cut: &Cut,
    asked: u64,
) -> Result<(), Fail> {
    let objects = [("d/info", info), ("d/s/0.shard", shard)];
    let mut store = store_of(alloc, &objects, &[])?;
    check_cut(rt, alloc, &mut store, &NO_FAULTS, cut)?;
    assert_eq!(rt; store.asked(), FRONT.wrapping_add(asked));
    Ok(())
}

pub(super) const SIX: Cut = Cut {
    part: "[0:11,0:1,0:1]",
    out: &[1, 2, 3, 4, 5, 6, 7, 8, 9, 10, 11],
    ..WHOLE
};

pub(super) const FOUR: Cut = Cut {
    part: "[0:1,0:1,0:4]",
    out: &[1, 2, 3, 4, 5, 6, 7, 8],
    ..WHOLE
};

#[test]
fn asks_for_nothing_twice(rt: HostRuntime) -> Result<(), Fail> {
    let alloc = rt.alloc();
    // Each cell is in the other minishard than the last: its entry, three rows and its chunk.
    check_asked(&rt, alloc, SIX_CELLS, SIX_CHUNKS, &SIX, 539)?;
    // One entry and one index through all layers, and the chunks once for each channel.
    check_asked(&rt, alloc, FOUR_LAYERS, FOUR_CHUNKS, &FOUR, 128)
}
