//! What is written behind what is written.
ghost use Rattle.std.specs.Prelude.{◌≡◌, ◌+◌, ◌*◌, ◌<◌, ◌≤◌, ◌^◌, ◌++◌, ℕ, length, slice_index, take, flat_map, if◌then◌else◌};
ghost use Rattle.vol_spec.specs.BoxValues.{bytes_of};
ghost use Rattle.vol_spec.specs.SegSizes.{width_of};

use crate::word::find_width;
use byteorder::{ByteOrder, LittleEndian};

fn put_narrow(out: &mut [u8], at: usize, x: u64)
    requires room { at + 4 ≤ length out.old }
    requires fits { x < 2 ^ 32 }
    ensures { take (at + 4) out.new ≡ take at out.old ++ bytes_of 4 x }
{
    LittleEndian::write_u32(&mut out[at..], x as u32);
}

fn put_wide(out: &mut [u8], at: usize, x: u64)
    requires { at + 8 ≤ length out.old }
    ensures { take (at + 8) out.new ≡ take at out.old ++ bytes_of 8 x }
{
    LittleEndian::write_u64(&mut out[at..], x);
}

fn put_value(out: &mut [u8], at: usize, x: u64, wide: bool)
    requires room { at + width_of wide ≤ length out.old }
    requires fits { x < 256 ^ width_of wide }
    ensures { take (at + width_of wide) out.new ≡ take at out.old ++ bytes_of (width_of wide) x }
{
    if wide {
        put_wide(out, at, x);
    } else {
        put_narrow(out, at, x);
    }
}

/// A table behind the first `at` bytes.
pub(crate) fn put_values(out: &mut [u8], at: usize, values: &[u64], wide: bool)
    requires room { at + width_of wide * length values.now ≤ length out.old }
    requires fits { (i : ℕ) → i < length values.now → slice_index values.now i < 256 ^ width_of wide }
    ensures { take (at + width_of wide * length values.now) out.new ≡ take at out.old
        ++ flat_map (bytes_of (width_of wide)) values.now }
{
    let width = find_width(wide);
    for i in 0..values.len() {
        put_value(out, at + width * i, values[i], wide);
    }
}

/// Words, from the first byte on.
pub(crate) fn put_words(out: &mut [u8], words: &[u32])
    requires { length out.old ≡ 4 * length words.now }
    ensures { out.new ≡ flat_map (bytes_of 4) words.now }
{
    for i in 0..words.len() {
        put_narrow(out, 4 * i, words[i] as u64);
    }
}
