//! Words and values in bytes.
ghost use Rattle.std.specs.Prelude.{◌≡◌, ◌≢◌, ◌+◌, ◌*◌, ◌≤◌, ℕ, length, if◌then◌else◌};
ghost use Rattle.vol_spec.specs.SegChunks.{word};
ghost use Rattle.vol_base.specs.Boxes.{value};
ghost use Rattle.vol_spec.specs.Raw.{digit};
ghost use Rattle.vol_spec.specs.SegSizes.{width_of};

use byteorder::{ByteOrder, LittleEndian};

/// Reads the word of number i, four bytes with the lowest first.
pub(crate) fn read_word(bytes: &[u8], i: usize) -> u32
    requires { 4 * i + 4 ≤ length bytes.now }
    ensures { result ≡ word bytes.now i }
{
    LittleEndian::read_u32(&bytes[4 * i..])
}

fn copy_narrow(from: &[u8], i: usize, to: &mut [u8], j: usize)
    requires source { 4 * i + 4 ≤ length from.now }
    requires target { 4 * j + 4 ≤ length to.old }
    ensures placed { value 4 to.new j ≡ value 4 from.now i }
    ensures kept { (m : ℕ) → m ≢ j → value 4 to.new m ≡ value 4 to.old m }
{
    LittleEndian::write_u32(&mut to[4 * j..], LittleEndian::read_u32(&from[4 * i..]));
}

fn copy_wide(from: &[u8], i: usize, to: &mut [u8], j: usize)
    requires source { 8 * i + 8 ≤ length from.now }
    requires target { 8 * j + 8 ≤ length to.old }
    ensures placed { value 8 to.new j ≡ value 8 from.now i }
    ensures kept { (m : ℕ) → m ≢ j → value 8 to.new m ≡ value 8 to.old m }
{
    LittleEndian::write_u64(&mut to[8 * j..], LittleEndian::read_u64(&from[8 * i..]));
}

/// The i-th value of the one becomes the j-th of the other.
pub(crate) fn copy_value(from: &[u8], i: usize, to: &mut [u8], j: usize, wide: bool)
    requires source { width_of wide * i + width_of wide ≤ length from.now }
    requires target { width_of wide * j + width_of wide ≤ length to.old }
    ensures placed { value (width_of wide) to.new j ≡ value (width_of wide) from.now i }
    ensures kept { (m : ℕ) → m ≢ j → value (width_of wide) to.new m ≡ value (width_of wide) to.old m }
{
    if wide {
        copy_wide(from, i, to, j);
    } else {
        copy_narrow(from, i, to, j);
    }
}

/// The i-th value of four bytes.
pub(crate) fn read_narrow(bytes: &[u8], i: usize) -> u64
    requires { 4 * i + 4 ≤ length bytes.now }
    ensures { result ≡ digit bytes.now 4 i }
{
    read_word(bytes, i) as u64
}

/// The i-th value of eight bytes.
pub(crate) fn read_wide(bytes: &[u8], i: usize) -> u64
    requires { 8 * i + 8 ≤ length bytes.now }
    ensures { result ≡ digit bytes.now 8 i }
{
    LittleEndian::read_u64(&bytes[8 * i..])
}

/// The i-th value.
pub(crate) fn read_value(bytes: &[u8], i: usize, wide: bool) -> u64
    requires { width_of wide * i + width_of wide ≤ length bytes.now }
    ensures { result ≡ digit bytes.now (width_of wide) i }
{
    if wide {
        read_wide(bytes, i)
    } else {
        read_narrow(bytes, i)
    }
}

/// The bytes of a value.
pub(crate) fn find_width(wide: bool) -> usize
    ensures { result ≡ width_of wide }
{
    if wide { 8 } else { 4 }
}
