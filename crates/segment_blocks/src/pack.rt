//! Packed indices.
ghost use Rattle.std.specs.Prelude.{◌≡◌, ◌+◌, ◌*◌, ◌/◌, ◌%◌, ◌<◌, ◌≤◌, ◌^◌, ℕ, length, ◌++◌, slice_index, IsTrue, map, take};
ghost use Rattle.vol_spec.specs.Raw.{number};
ghost use Rattle.vol_spec.specs.SegFaults.{is_allowed};
ghost use Rattle.vol_spec.specs.SegBlocks.{packed_words};
ghost use Rattle.vol_spec.specs.SegWritten.{bits_for, packed};
ghost use Rattle.segment_blocks.specs.Voxels.{place_in};
ghost use Rattle.std.specs.List.{Contains};
ghost use Rattle.vol_spec.specs.BoxValues.{bytes_of};

use crate::header::count_words;
use crate::table::{find_index, find_spot};
use byteorder::{ByteOrder, LittleEndian};
use vol_base::tell_bytes;

/// The least allowed number of bits that can tell so many entries apart.
pub(crate) fn find_bits(entries: usize) -> u32
    ensures { result ≡ bits_for entries }
{
    if entries <= 1 {
        0
    } else if entries <= 2 {
        1
    } else if entries <= 4 {
        2
    } else if entries <= 16 {
        4
    } else if entries <= 256 {
        8
    } else if entries <= 65536 {
        16
    } else {
        32
    }
}

/// Puts an index behind those that are packed.
pub(crate) fn put_index(values: &mut [u8], bits: u32, n: usize, index: u32)
    requires bits { IsTrue (is_allowed bits) }
    requires index { index < 2 ^ bits }
    requires place { n < 2 ^ 32 }
    requires within { 4 * (n * bits / 32) + 4 ≤ length values.old }
    requires front { number values.old < 2 ^ (n * bits) }
    ensures { number values.new ≡ number values.old + index * 2 ^ (n * bits) }
{
    tell_bytes(values);
    let bit = n * bits as usize;
    let at = 4 * (bit / 32);
    let word = LittleEndian::read_u32(&values[at..]);
    let more = index << (bit % 32) as u32;
    LittleEndian::write_u32(&mut values[at..], word + more);
}

// The place of a value in an ascending table that has it; the last one at its spot is tried first.
fn find_near(table: &[u64], x: u64, guesses: &mut [usize; 64]) -> usize
    requires rises { (i j : ℕ) → i < j → j < length table.now →
        slice_index table.now i < slice_index table.now j }
    requires there { Contains table.now x }
    requires guesses { (s : ℕ) → s < 64 → slice_index guesses.old s < length table.now }
    ensures within { result < length table.now }
    ensures is { result ≡ place_in table.now x }
    ensures guesses { (s : ℕ) → s < 64 → slice_index guesses.new s < length table.now }
{
    let spot = find_spot(x);
    let guess = guesses[spot];
    if table[guess] == x {
        return guess;
    }
    let place = find_index(table, x);
    guesses[spot] = place;
    place
}

/// Puts the places of the values in a table side by side into bytes that are 0.
pub(crate) fn pack_places(voxels: &[u64], table: &[u64], bits: u32, values: &mut [u8])
    requires bits { IsTrue (is_allowed bits) }
    requires some { 0 < bits }
    requires rises { (i j : ℕ) → i < j → j < length table.now →
        slice_index table.now i < slice_index table.now j }
    requires there { (n : ℕ) → n < length voxels.now → Contains table.now (slice_index voxels.now n) }
    requires few { length table.now ≤ 2 ^ bits }
    requires small { length voxels.now < 2 ^ 32 }
    requires within { 4 * packed_words bits (length voxels.now) ≤ length values.old }
    requires clear { number values.old ≡ 0 }
    ensures { number values.new ≡ packed bits (map (place_in table.now) voxels.now) }
{
    let mut guesses = [0usize; 64];
    for n in 0..voxels.len() {
        let place = find_near(table, voxels[n], &mut guesses);
        put_index(values, bits, n, place as u32);
    }
}

fn clear(values: &mut [u8])
    ensures { number values.new ≡ 0 }
{
    values.fill(0);
}

// The places of the values in a table, side by side, and nothing behind them.
fn fill_places(voxels: &[u64], table: &[u64], bits: u32, values: &mut [u8])
    requires bits { IsTrue (is_allowed bits) }
    requires rises { (i j : ℕ) → i < j → j < length table.now →
        slice_index table.now i < slice_index table.now j }
    requires there { (n : ℕ) → n < length voxels.now → Contains table.now (slice_index voxels.now n) }
    requires few { length table.now ≤ 2 ^ bits }
    requires small { length voxels.now < 2 ^ 32 }
    requires len { length values.old ≡ 4 * packed_words bits (length voxels.now) }
    ensures { values.new ≡ bytes_of (length values.old) (packed bits (map (place_in table.now) voxels.now)) }
{
    if bits == 0 {
        return;
    }
    clear(values);
    pack_places(voxels, table, bits, values);
}

/// Puts the places of the values in a table behind the first `at` bytes, and tells where they end.
pub(crate) fn put_places(
    out: &mut [u8],
    at: usize,
    voxels: &[u64],
    table: &[u64],
    bits: u32,
) -> usize
    requires bits { IsTrue (is_allowed bits) }
    requires rises { (i j : ℕ) → i < j → j < length table.now →
        slice_index table.now i < slice_index table.now j }
    requires there { (n : ℕ) → n < length voxels.now → Contains table.now (slice_index voxels.now n) }
    requires few { length table.now ≤ 2 ^ bits }
    requires small { length voxels.now < 2 ^ 32 }
    requires room { at + 4 * packed_words bits (length voxels.now) ≤ length out.old }
    ensures end { result ≡ at + 4 * packed_words bits (length voxels.now) }
    ensures bytes { take result out.new ≡ take at out.old
        ++ bytes_of (4 * packed_words bits (length voxels.now))
        (packed bits (map (place_in table.now) voxels.now)) }
{
    let end = at + 4 * count_words(bits, voxels.len());
    fill_places(voxels, table, bits, &mut out[at..end]);
    end
}
