//! The front of some bytes.
ghost use Rattle.std.specs.Prelude.{◌≡◌, min, length, take};

/// Puts the front of some bytes, at most so many, in front of a buffer, as far as there is room, and answers how many.
pub(crate) fn give_front(left: &[u8], most: usize, out: &mut [u8]) -> usize
    ensures count { result ≡ min most (min (length left.now) (length out.old)) }
    ensures bytes { take result out.new ≡ take result left.now }
{
    let n = most.min(left.len().min(out.len()));
    out[..n].copy_from_slice(&left[..n]);
    n
}
