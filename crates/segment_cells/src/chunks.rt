//! A cell's values out of the bytes of its chunk, and back.
ghost use Rattle.std.specs.Prelude.{◌≡◌, ◌≤◌, ◌^◌, List, ℕ, length, take, IfOk, IsTrue, None, OnOk};
ghost use Rattle.std.specs.Result.{result_err};
ghost use Rattle.vol_base.specs.Bytes.{AreBytes};
ghost use Rattle.vol_spec.specs.Encodings.{chunk_fault, encoded, raw_size};
ghost use Rattle.vol_spec.specs.Grid.{IsCell};
ghost use Rattle.vol_spec.specs.Limits.{limit_of};
ghost use Rattle.vol_spec.specs.declared.encoding.Encoding.TheVariants.{Seg};
ghost use Rattle.vol_spec.specs.Writable.{IsWritable};
ghost use Rattle.segment_cells.specs.Decoding.{HoldsValues};
ghost use Rattle.segment_cells.specs.Serving.{ServesScale};
ghost use Rattle.segment_blocks.specs.Reserved.{sizes_for};

use crate::shapes::shape_of;
use segment_blocks::{Scratch, decode, encode, is_own_spelling, own_again};
use std::alloc::Global;
use vol_base::{ChunkFault, OutOfMemory};
use vol_spec::Scale;

/// Puts the values of a cell's chunk side by side: x fastest, then y, z and the channel, each in as many
/// bytes as the scale's values have, the lowest first. After a fault `values` holds anything.
///
/// # Errors
/// The first fault of the chunk.
pub fn decode_cell(
    bytes: &[u8],
    scale: &Scale,
    cell: [u64; 3],
    block: [u64; 3],
    values: &mut [u8],
) -> Result<(), ChunkFault>
    requires block { scale.now.encoding ≡ Seg block }
    requires cell { IsCell scale.now cell }
    requires len { length values.old ≡ raw_size scale.now cell }
    ensures fault { result_err result ≡ chunk_fault scale.now cell bytes.now }
    ensures values { OnOk result (HoldsValues scale.now cell bytes.now values.new) }
{
    decode(bytes, &shape_of(scale, cell, block), values)
}

/// Memory for encoding each chunk of a scale.
pub fn reserve_scratch(
    alloc: Global,
    scale: &Scale,
    block: [u64; 3],
) -> Result<Scratch, OutOfMemory>
    requires { scale.now.encoding ≡ Seg block }
    ensures { IfOk result (ServesScale scale.now) }
{
    Scratch::reserve(alloc, &shape_of(scale, [0; 3], block))
}

/// Puts the chunk of a cell's values in front of `out`, and tells its length in bytes.
pub fn encode_cell(
    values: &[u8],
    scale: &Scale,
    cell: [u64; 3],
    block: [u64; 3],
    scratch: &mut Scratch,
    out: &mut [u8],
) -> usize
    requires block { scale.now.encoding ≡ Seg block }
    requires cell { IsCell scale.now cell }
    requires writable { IsWritable scale.now }
    requires len { length values.now ≡ raw_size scale.now cell }
    requires scratch { ServesScale scale.now scratch.old }
    requires room { limit_of scale.now.encoding scale.now.width scale.now.channels scale.now.size
        scale.now.chunk ≤ length out.old }
    ensures bytes { take result out.new ≡ encoded scale.now cell values.now }
    ensures within { result ≤ length out.new }
    ensures small { result ≤ 2 ^ 27 }
    ensures scratch { ServesScale scale.now scratch.new }
{
    encode(values, &shape_of(scale, cell, block), scratch, out)
}

/// Whether a cell's chunk is surely spelled as this writer spells it. Then there is no fault of it, and the chunk of the
/// values that it says is the same: it can be stored again as it is.
pub fn test_own(
    chunk: &[u8],
    scale: &Scale,
    cell: [u64; 3],
    block: [u64; 3],
    scratch: &mut Scratch,
) -> bool
    requires block { scale.now.encoding ≡ Seg block }
    requires cell { IsCell scale.now cell }
    requires writable { IsWritable scale.now }
    requires scratch { ServesScale scale.now scratch.old }
    ensures sound { IsTrue result → chunk_fault scale.now cell chunk.now ≡ None }
    ensures again { IsTrue result → (values : List ℕ) → AreBytes values → length values ≡ raw_size scale.now cell →
        HoldsValues scale.now cell chunk.now values → encoded scale.now cell values ≡ chunk.now }
    ensures room { IsTrue result → length chunk.now
        ≤ limit_of scale.now.encoding scale.now.width scale.now.channels scale.now.size scale.now.chunk }
    ensures scratch { ServesScale scale.now scratch.new }
{
    let shape = shape_of(scale, cell, block);
    if !is_own_spelling(chunk, &shape, scratch) {
        return false;
    }
    own_again(&shape, chunk);
    true
}
