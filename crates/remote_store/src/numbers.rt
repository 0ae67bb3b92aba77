//! Numbers and parts that the fields of a head say.
ghost use Rattle.std.specs.Prelude.{◌≡◌, ◌^◌, ◌+◌, ◌<◌, ◌==◌, ℕ, List, Some, length, position, IfSome};
ghost use Rattle.std.specs.Option.{option_map};
ghost use Rattle.range_server.specs.Ranges.{number};
ghost use Rattle.remote_store.specs.Fits.{below, is_place, number_before, number_to, place_told, with_last, with_total};
ghost use Rattle.remote_store.specs.Reading.{capped_before, capped_number, capped_place};

/// The number of one or more digits; the greatest of 128 bits stands for all above it.
pub(crate) fn read_number(text: &[u8]) -> Option<u128>
    ensures { result ≡ capped_number text.now }
{
    if text.is_empty() {
        return None;
    }
    let mut count = 0u128;
    for b in text {
        if !b.is_ascii_digit() {
            return None;
        }
        count = count.saturating_mul(10).saturating_add((*b - b'0') as u128);
    }
    Some(count)
}

/// The length in bytes that a value says, where 64 bits have room for it.
pub fn read_length(text: &[u8]) -> Option<u64>
    ensures { result ≡ below (2 ^ 64) (number text.now) }
{
    let Some(n) = read_number(text) else {
        return None;
    };
    if n < 1 << 64 { Some(n as u64) } else { None }
}

fn find_mark(mark: u8, text: &[u8]) -> Option<usize>
    ensures place { result ≡ position (λ b. b == mark) text.now }
    ensures within { IfSome result (λ at. at < length text.now) }
{
    text.iter().position(|b| *b == mark)
}

/// A number up to a mark, and what stands behind the mark.
#[tactic(auto, unfolding(crate::specs::Reading::capped_before))]
pub(crate) fn read_before(mark: u8, text: &[u8]) -> Option<(u128, &[u8])>
    ensures { option_map {U = ℕ × List ℕ} (λ r. (r.0, r.1.now)) result ≡ capped_before mark text.now }
{
    let at = find_mark(mark, text)?;
    let n = read_number(&text[..at])?;
    Some((n, &text[at + 1..]))
}

/// The part that the value of a Content-Range field says, `bytes FIRST-LAST/LENGTH` (RFC 9110, section 14.4): the places of its
/// first and of its last byte, and the object's length; the greatest number of 128 bits stands for all above it.
#[tactic(auto, unfolding(crate::specs::Reading::capped_place))]
pub fn read_place(value: &[u8]) -> Option<(u128, u128, u128)>
    ensures { result ≡ capped_place value.now }
{
    if value.len() < 6 || &value[..6] != b"bytes ".as_slice() {
        return None;
    }
    let (first, rest) = read_before(b'-', &value[6..])?;
    let (last, text) = read_before(b'/', rest)?;
    let total = read_number(text)?;
    Some((first, last, total))
}

/// Whether a part is what was asked for, as far as the object reaches, and `len` is its length.
pub(crate) fn is_place(
    from: u64,
    count: u64,
    len: u64,
    first: u128,
    last: u128,
    total: u128,
) -> bool
    requires { from + count < 2 ^ 64 }
    ensures { result ≡ is_place from count len (Some (first, last, total)) }
{
    let end = ((from + count) as u128).min(total);
    if end <= last {
        return false;
    }
    first == from as u128
        && from as u128 <= last
        && last + 1 == end
        && len as u128 + from as u128 == last + 1
}
