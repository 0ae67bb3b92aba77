//! One row of a block.
ghost use Rattle.std.specs.Prelude.{◌≡◌, ◌+◌, ◌*◌, ◌/◌, ◌<◌, ◌≤◌, ◌^◌, ℕ, length, IsTrue, OnOk, IfErr, if◌then◌else◌};
ghost use Rattle.vol_spec.specs.SegChunks.{word};
ghost use Rattle.vol_spec.specs.SegFaults.{is_allowed};
ghost use Rattle.vol_base.specs.Boxes.{value};
ghost use Rattle.vol_spec.specs.SegSizes.{width_of};
ghost use Rattle.vol_spec.specs.SegBlocks.{packed_words};
ghost use Rattle.segment_blocks.specs.Row.{index_in, Has, Unpacked, IsFirstOut};

use crate::word::{copy_value, read_word};

/// The index of so many bits that begins at a bit.
pub(crate) fn read_index(values: &[u8], bits: u32, n: usize) -> u32
    requires bits { IsTrue (is_allowed bits) }
    requires some { 0 < bits }
    requires place { n < 2 ^ 32 }
    requires within { 4 * (n * bits / 32) + 4 ≤ length values.now }
    ensures { result ≡ index_in values.now bits n }
{
    let bit = n * bits as usize;
    let word = read_word(values, bit / 32);
    (word >> (bit % 32) as u32) & (u32::MAX >> (32 - bits))
}

/// How many values the bytes hold.
pub(crate) fn count_values(bytes: &[u8], wide: bool) -> usize
    ensures { (i : ℕ) → (i < result → Has (width_of wide) bytes.now i) ×
        (result ≤ i → length bytes.now < width_of wide * i + width_of wide) }
{
    if wide {
        bytes.len() / 8
    } else {
        bytes.len() / 4
    }
}

// The values of the indices from a place on.
fn unpack_row(
    values: &[u8],
    bits: u32,
    table: &[u8],
    wide: bool,
    first: usize,
    row: &mut [u8],
    count: usize,
) -> Result<(), usize>
    requires bits { IsTrue (is_allowed bits) }
    requires some { 0 < bits }
    requires place { first + count < 2 ^ 32 }
    requires within { 4 * packed_words bits (first + count) ≤ length values.now }
    requires row { width_of wide * count ≤ length row.old }
    ensures unpacked { OnOk result (Unpacked values.now table.now (width_of wide) bits first count row.new) }
    ensures out { IfErr result (λ at. IsFirstOut values.now table.now (width_of wide) bits first count at) }
{
    let room = count_values(table, wide);
    for j in 0..count {
        let index = read_index(values, bits, first + j) as usize;
        if index >= room {
            return Err(j);
        }
        copy_value(table, index, row, j, wide);
    }
    Ok(())
}

// The same where an index has no bits.
fn repeat_row(
    values: &[u8],
    table: &[u8],
    wide: bool,
    first: usize,
    row: &mut [u8],
    count: usize,
) -> Result<(), usize>
    requires row { width_of wide * count ≤ length row.old }
    ensures unpacked { OnOk result (Unpacked values.now table.now (width_of wide) 0 first count row.new) }
    ensures out { IfErr result (λ at. IsFirstOut values.now table.now (width_of wide) 0 first count at) }
{
    if count == 0 {
        return Ok(());
    }
    if count_values(table, wide) == 0 {
        return Err(0);
    }
    for j in 0..count {
        copy_value(table, 0, row, j, wide);
    }
    Ok(())
}

/// The values of the indices from a place on, `count` of them; or the first that the table has no entry for, counted from there.
pub(crate) fn unpack(
    values: &[u8],
    bits: u32,
    table: &[u8],
    wide: bool,
    first: usize,
    row: &mut [u8],
    count: usize,
) -> Result<(), usize>
    requires bits { IsTrue (is_allowed bits) }
    requires place { first + count < 2 ^ 32 }
    requires within { 4 * packed_words bits (first + count) ≤ length values.now }
    requires row { width_of wide * count ≤ length row.old }
    ensures unpacked { OnOk result (Unpacked values.now table.now (width_of wide) bits first count row.new) }
    ensures out { IfErr result (λ at. IsFirstOut values.now table.now (width_of wide) bits first count at) }
{
    if bits == 0 {
        repeat_row(values, table, wide, first, row, count)
    } else {
        unpack_row(values, bits, table, wide, first, row, count)
    }
}
