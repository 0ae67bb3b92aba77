//! The sum of values.
ghost use Rattle.std.specs.Prelude.{◌≡◌, ◌<◌, ◌≤◌, ◌+◌, ◌*◌, ◌/◌, ◌%◌, ◌^◌, length};
ghost use Rattle.vol_spec.specs.Raw.{digit};
ghost use Rattle.value_sums.specs.Sums.{sum_in};

use byteorder::{ByteOrder, LittleEndian};

// The value of this number.
#[tactic(auto, using(crate::proofs::SumSteps::value_fits, crate::proofs::SumSteps::digit_read))]
fn value_at(values: &[u8], width: usize, n: usize) -> u64
    requires some { 1 ≤ width }
    requires width { width ≤ 8 }
    requires within { n < length values.now / width }
    ensures { result ≡ digit values.now width n }
{
    LittleEndian::read_uint(&values[n * width..], width)
}

/// The sum of values of `width` bytes each, the lowest byte first, modulo 2^64.
#[tactic(auto, using(crate::proofs::SumSteps::sum_more))]
pub(crate) fn sum_values(values: &[u8], width: usize) -> u64
    requires some { 1 ≤ width }
    requires width { width ≤ 8 }
    ensures { result ≡ sum_in width (length values.now / width) values.now }
{
    let mut sum: u64 = 0;
    for n in 0..values.len() / width {
        sum = sum.wrapping_add(value_at(values, width, n));
    }
    sum
}

/// The sum with one byte more, which stands at a place of its value, the lowest first.
pub(crate) fn add_byte(sum: u64, byte: u8, place: usize) -> u64
    requires { place < 8 }
    ensures { result ≡ (sum + byte * 256 ^ place) % 2 ^ 64 }
{
    sum.wrapping_add((byte as u64) << (8 * place))
}
