//! A small scale in shards, what is stored of it, and plans of writes into it.
ghost use Rattle.std.specs.Prelude.{◌≡◌, ◌≤◌, IfOk, Some, length};

use info_doc::{Scale, Sharding, scale_of};
use memory_rows::name_of;
use std::alloc::{AllocError, Global};
use std::test::Fail;
use vol_base::{MemoryFeed, MemoryStore, Name};
use write_plan::{Plan, read_writes};

// Six cells of two voxels along x, and of one at the edge, in two shards of two minishards. By the lowest bits of the ids
// the shard 0 has the ids 0 and 4, and 1, and the shard 1 the ids 2 and 6, and 3.
const INFO: &[u8] =
    b"{\"type\":\"image\",\"data_type\":\"uint8\",\"num_channels\":1,\"scales\":[{\"key\":\"s\",\"size\":[5,2,1],\"chunk_sizes\":[[2,1,1]],\"resolution\":[8,8,40],\"encoding\":\"raw\",\"sharding\":{\"@type\":\"neuroglancer_uint64_sharded_v1\",\"preshift_bits\":0,\"hash\":\"identity\",\"minishard_bits\":1,\"shard_bits\":1}}]}";

/// The scale.
pub(crate) fn find_scale(alloc: Global) -> Result<Scale, Fail> {
    let scale = scale_of(alloc, INFO, &name_of("s")?)?;
    Ok(scale)
}

/// How it is put into shards.
pub(crate) fn sharding_of(scale: &Scale) -> Result<Sharding, Fail>
    ensures { IfOk result (λ sharding. scale.now.sharding ≡ Some sharding) }
{
    match scale.sharding {
        Some(sharding) => Ok(sharding),
        None => Err(Fail::from("no sharding")),
    }
}

/// Where a write begins, its size, and the bytes of its values.
pub(crate) type Write<'a> = ([i64; 3], [u64; 3], &'a [u8]);

/// One voxel of the cell with the id 2, 1 or 4; and one voxel of the cells 0 and 1 each.
pub(crate) const SECOND_ROW: Write = ([1, 1, 0], [1, 1, 1], &[20]);

pub(crate) const MIDDLE: Write = ([3, 0, 0], [1, 1, 1], &[21]);

pub(crate) const EDGE: Write = ([4, 0, 0], [1, 1, 1], &[22]);

pub(crate) const TWO_CELLS: Write = ([1, 0, 0], [2, 1, 1], &[23, 24]);

fn put_write(bytes: &mut Vec<u8>, write: &Write) -> Result<(), AllocError> {
    let (begin, size, values) = write;
    for at in begin {
        bytes.extend_from_slice(&at.to_le_bytes())?;
    }
    for len in size {
        bytes.extend_from_slice(&len.to_le_bytes())?;
    }
    bytes.extend_from_slice(values)?;
    Ok(())
}

fn print_stream(alloc: Global, writes: &[Write]) -> Result<Vec<u8>, AllocError> {
    let mut bytes = Vec::from_slice(alloc, b"PVW1")?;
    bytes.extend_from_slice(&writes.len().to_le_bytes()[..4])?;
    for write in writes {
        put_write(&mut bytes, write)?;
    }
    Ok(bytes)
}

/// The plan of some writes.
pub(crate) fn plan_of(alloc: Global, scale: &Scale, writes: &[Write]) -> Result<Plan, Fail>
    ensures { IfOk result (λ plan. plan.scale ≡ scale.now) }
{
    let mut feed = MemoryFeed::new(print_stream(alloc, writes)?, 64, Vec::new(alloc));
    let Ok(writes) = read_writes(alloc, &mut feed, scale) else {
        return Err("the stream has no fault".into());
    };
    let Ok(plan) = Plan::of(alloc, scale, writes) else {
        return Err("the plan has no refusal".into());
    };
    Ok(plan)
}

/// Bytes, and numbers of eight bytes behind them.
pub(crate) type Piece<'a> = (&'a [u8], &'a [u64]);

/// The shard 0: the entries of its minishards, the chunks 0 and 4, and the rows of these, the chunk 1, and its row.
pub(crate) const SHARD: &[Piece] = &[
    (&[], &[3, 51, 53, 77]),
    (&[10, 11, 12], &[0, 4, 0, 0, 2, 1]),
    (&[13, 14], &[1, 51, 2]),
];

/// Its second minishard has a row of the id 3, which belongs into the shard 1, and one of the id 5, which no cell has.
pub(crate) const STRANGE: &[Piece] = &[
    (&[], &[3, 51, 53, 101]),
    (&[10, 11, 12], &[0, 4, 0, 0, 2, 1]),
    (&[13, 14], &[3, 2, 51, 0, 2, 0]),
];

/// Its first minishard has the id 4 twice.
pub(crate) const TWICE: &[Piece] = &[
    (&[], &[3, 51, 53, 77]),
    (&[10, 11, 12], &[4, 0, 0, 0, 2, 1]),
    (&[13, 14], &[1, 51, 2]),
];

/// Its second minishard ends before it begins.
pub(crate) const BAD_RANGE: &[Piece] = &[
    (&[], &[3, 51, 77, 53]),
    (&[10, 11, 12], &[0, 4, 0, 0, 2, 1]),
    (&[13, 14], &[1, 51, 2]),
];

fn put_piece(object: &mut Vec<u8>, piece: &Piece) -> Result<(), AllocError> {
    let (bytes, numbers) = piece;
    object.extend_from_slice(bytes)?;
    for number in *numbers {
        object.extend_from_slice(&number.to_le_bytes())?;
    }
    Ok(())
}

fn print_pieces(alloc: Global, pieces: &[Piece]) -> Result<Vec<u8>, AllocError> {
    let mut object = Vec::new(alloc);
    for piece in pieces {
        put_piece(&mut object, piece)?;
    }
    Ok(object)
}

/// A store with an object of some pieces, unless there are none, of whose calls those with some numbers fail.
pub(crate) fn store_with(
    alloc: Global,
    name: &Name,
    pieces: &[Piece],
    failing: &[u64],
) -> Result<MemoryStore, Fail> {
    let mut store = MemoryStore::new(alloc, failing.to_vec(alloc)?);
    if !pieces.is_empty() {
        store.put(name, print_pieces(alloc, pieces)?)?;
    }
    Ok(store)
}
