//! Values that count up, as bytes.
ghost use Rattle.std.specs.Prelude.{◌≡◌, ◌+◌, ◌*◌, ◌<◌, ◌≤◌, ◌^◌, ℕ, length, slice_index};
ghost use Rattle.vectors_vol.specs.ValueBytes.{counting_byte};

// The number of the first value that begins at or behind a byte.
fn find_value(at: u64, width: u64) -> u64
    requires width { 0 < width }
    requires at { at ≤ 2 ^ 40 }
    ensures from { at ≤ result * width }
    ensures near { result * width < at + width }
{
    let number = at / width;
    if at % width == 0 { number } else { number + 1 }
}

// Fills a piece with the bytes of values that count up from `first`, from the byte `at` on.
fn fill_counting(out: &mut [u8], width: u64, first: u64, at: u64)
    requires width { (0 < width) × (width ≤ 8) }
    requires first { first ≤ 2 ^ 32 }
    requires at { at + length out.old ≤ 2 ^ 40 }
    ensures { (k : ℕ) → k < length out.new → slice_index out.new k ≡ counting_byte width first (at + k) }
{
    out.fill(0);
    let mut number = find_value(at, width);
    let mut place = number * width - at;
    while place < out.len() as u64 {
        out[place as usize] = ((first + number) % 256) as u8;
        number += 1;
        place += width;
    }
}

/// Fills the front of a piece, so many bytes, in the same way.
pub(crate) fn fill_front(out: &mut [u8], n: usize, width: u64, first: u64, at: u64)
    requires n { n ≤ length out.old }
    requires width { (0 < width) × (width ≤ 8) }
    requires first { first ≤ 2 ^ 32 }
    requires at { at + n ≤ 2 ^ 40 }
    ensures { (k : ℕ) → k < n → slice_index out.new k ≡ counting_byte width first (at + k) }
{
    fill_counting(&mut out[..n], width, first, at);
}
