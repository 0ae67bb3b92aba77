//! A chunk's values out of its bytes.
ghost use Rattle.std.specs.Prelude.{◌≡◌, ◌+◌, ◌*◌, ◌/◌, ◌%◌, ◌<◌, ◌≤◌, ℕ, length, OnOk, not, ◌||◌, ◌==◌, nat_lt};
ghost use Rattle.vol_spec.specs.SegShapes.{sizes_of};
ghost use Rattle.vol_spec.specs.SegChunks.{word, words, start, seg_at};
ghost use Rattle.std.specs.Result.{result_err};
ghost use Rattle.vol_spec.specs.BoxValues.{first_some};
ghost use Rattle.vol_spec.specs.SegFaults.{block_faults, channel_faults, seg_fault};
ghost use Rattle.segment_blocks.specs.Filled.{Filled};
ghost use Rattle.vol_spec.specs.SegBlocks.{InChunk, block_count, num, raw_len, width};
ghost use Rattle.vol_spec.specs.Raw.{digit};
ghost use Rattle.segment_blocks.specs.Whole.{OfBlock, OfBlocks, place_of, entry_of};

use crate::block::fill_block;
use crate::header::{find_part, judge_header, read_header};
use crate::locate::{count_blocks, find_block};
use crate::word::read_word;
use vol_base::ChunkFault;
use vol_spec::SegShape;

fn decode_block(
    bytes: &[u8],
    shape: &SegShape,
    c: u32,
    k: usize,
    raw: &mut [u8],
) -> Result<(), ChunkFault>
    requires channel { c < shape.now.channels }
    requires block { k < block_count (sizes_of shape.now) }
    requires whole { length bytes.now % 4 ≡ 0 }
    requires starts { 4 * shape.now.channels ≤ length bytes.now }
    requires headers { start bytes.now c + 2 * block_count (sizes_of shape.now) ≤ words bytes.now }
    requires raw { length raw.old ≡ raw_len (sizes_of shape.now) }
    ensures fault { result_err result ≡ first_some (block_faults bytes.now (sizes_of shape.now) c k) }
    ensures filled { OnOk result (Filled (OfBlock (sizes_of shape.now) c k) (place_of (sizes_of shape.now))
        (entry_of bytes.now (sizes_of shape.now)) (width (sizes_of shape.now)) raw.old raw.new) }
{
    let header = read_header(bytes, c as usize, k);
    let block = find_block(shape, c as usize, k);
    match judge_header(&header, block.indices, bytes.len() / 4, c, k) {
        Ok(()) => {}
        Err(fault) => return Err(fault),
    }
    let values = find_part(bytes, header.values);
    let table = find_part(bytes, header.table);
    match fill_block(&block, values, header.bits, table, shape.wide, raw) {
        Ok(()) => Ok(()),
        Err(n) => Err(ChunkFault::SegTable {
            c,
            b: k as u64,
            n: n as u64,
        }),
    }
}

fn decode_channel(bytes: &[u8], shape: &SegShape, c: u32, raw: &mut [u8]) -> Result<(), ChunkFault>
    requires channel { c < shape.now.channels }
    requires whole { length bytes.now % 4 ≡ 0 }
    requires starts { 4 * shape.now.channels ≤ length bytes.now }
    requires raw { length raw.old ≡ raw_len (sizes_of shape.now) }
    ensures fault { result_err result ≡ first_some (channel_faults bytes.now (sizes_of shape.now) c) }
    ensures filled { OnOk result (Filled (OfBlocks (sizes_of shape.now) c (block_count (sizes_of shape.now)))
        (place_of (sizes_of shape.now)) (entry_of bytes.now (sizes_of shape.now))
        (width (sizes_of shape.now)) raw.old raw.new) }
{
    let start = read_word(bytes, c as usize) as usize;
    let count = count_blocks(shape);
    if bytes.len() / 4 < start + 2 * count {
        return Err(ChunkFault::SegChannel { c });
    }
    for k in 0..count {
        match decode_block(bytes, shape, c, k, raw) {
            Ok(()) => {}
            Err(fault) => return Err(fault),
        }
    }
    Ok(())
}

/// Whether the words aren't whole, or the channels have no place.
pub(crate) fn test_length(len: usize, channels: u32) -> bool
    ensures { result ≡ (not (len % 4 == 0) || nat_lt len (4 * channels)) }
{
    len % 4 != 0 || len < 4 * channels as usize
}

/// Reads a chunk's values into `raw`, side by side: x fastest, then y, z and the channel, 4 or 8 bytes
/// each, the lowest first. `bytes` is the whole chunk and nothing else. An error is the chunk's first
/// fault, and `raw` then holds unspecified bytes.
pub fn decode(bytes: &[u8], shape: &SegShape, raw: &mut [u8]) -> Result<(), ChunkFault>
    requires raw { length raw.old ≡ raw_len (sizes_of shape.now) }
    ensures fault { result_err result ≡ seg_fault bytes.now (sizes_of shape.now) }
    ensures read { OnOk result ((x y z c : ℕ) → InChunk (sizes_of shape.now) x y z → c < shape.now.channels →
        digit raw.new (width (sizes_of shape.now)) (num (sizes_of shape.now) x y z c)
        ≡ seg_at bytes.now (sizes_of shape.now) x y z c) }
{
    if test_length(bytes.len(), shape.channels) {
        return Err(ChunkFault::SegLength {
            found: bytes.len() as u64,
        });
    }
    for c in 0..shape.channels {
        match decode_channel(bytes, shape, c, raw) {
            Ok(()) => {}
            Err(fault) => return Err(fault),
        }
    }
    Ok(())
}
