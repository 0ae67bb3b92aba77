//! Memory for writing, taken beforehand.
ghost use Rattle.std.specs.Prelude.{◌≡◌, ◌≤◌, length, IfOk};
ghost use Rattle.segment_blocks.specs.Rooms.{IsRoom};
ghost use Rattle.segment_blocks.specs.Singles.{IsSingles};

use crate::locate::{count_blocks, count_voxels};
use crate::room::Room;
use crate::single::{Singles, reserve_singles, test_single};
use std::alloc::{AllocError, Global};
use vol_base::OutOfMemory;
use vol_spec::SegShape;

/// What writing a chunk needs besides its bytes.
#[derive(Drop)]
pub struct Scratch {
    shape: SegShape,
    pub(crate) room: Room,
    // where each channel starts
    pub(crate) starts: Vec<u32>,
    pub(crate) singles: Singles,
    ghost room_ok: { IsRoom (record {
      size = shape.size;
      block = shape.block;
      channels =
          shape.channels;
      wide = shape.wide;
    }) room },
    ghost starts_ok: { shape.channels ≤ length starts.items },
    ghost singles_ok: { IsSingles (record {
      size = shape.size;
      block = shape.block;
      channels =
          shape.channels;
      wide = shape.wide;
    }) singles },
}

// The lists for these blocks.
fn reserve_room(alloc: Global, shape: &SegShape) -> Result<Room, AllocError>
    ensures { IfOk result (IsRoom (record {
      size = shape.now.size;
      block = shape.now.block;
      channels =
          shape.now.channels;
      wide = shape.now.wide;
    })) }
{
    let blocks = count_blocks(shape);
    let voxels = count_voxels(shape);
    let heads = if test_single(shape) { 1 } else { 4 * blocks };
    Ok(Room {
        voxels: vec![in alloc; 0u64; voxels]?,
        table: vec![in alloc; 0u64; voxels]?,
        heads: vec![in alloc; 0u32; heads]?,
        next: vec![in alloc; 0u32; blocks]?,
        at: vec![in alloc; 0u32; blocks]?,
        lens: vec![in alloc; 0u32; blocks]?,
        headers: vec![in alloc; 0u32; 2 * blocks]?,
    })
}

fn reserve_starts(alloc: Global, channels: u32) -> Result<Vec<u32>, AllocError>
    ensures { IfOk result (λ v. length v.items ≡ channels) }
{
    vec![in alloc; 0u32; channels as usize]
}

// The same, with the refusal that is told.
fn take_room(alloc: Global, shape: &SegShape) -> Result<Room, OutOfMemory>
    ensures { IfOk result (IsRoom (record {
      size = shape.now.size;
      block = shape.now.block;
      channels =
          shape.now.channels;
      wide = shape.now.wide;
    })) }
{
    reserve_room(alloc, shape).map_err(|_| OutOfMemory)
}

impl Scratch {
    ghost use Rattle.vol_spec.specs.SegShapes.{sizes_of};
    ghost use Rattle.segment_blocks.specs.Reserved.{sizes_for};

    /// Memory for chunks of this shape, and for smaller ones in the same blocks.
    pub fn reserve(alloc: Global, shape: &SegShape) -> Result<Scratch, OutOfMemory>
        ensures { IfOk result (λ s. sizes_for s ≡ sizes_of shape.now) }
    {
        let room = take_room(alloc, shape)?;
        let starts = reserve_starts(alloc, shape.channels).map_err(|_| OutOfMemory)?;
        let singles = reserve_singles(alloc, shape)?;
        Ok(Scratch {
            shape: *shape,
            room,
            starts,
            singles,
        })
    }
}
