//! A number that equal tables share.
ghost use Rattle.std.specs.Prelude.{◌≡◌, ◌+◌, ◌*◌, ◌^◌, ◌<◌, ◌≤◌, ◌↔◌, length, take, drop, IsTrue};
ghost use Rattle.segment_blocks.specs.Hashes.{mixed, hash_of};

use equal_values::index::spread_hash;

#[tactic(auto, unfolding(crate::specs::Hashes::mixed))]
fn mix(h: u64, v: u64) -> u64
    ensures { result ≡ mixed h v }
{
    let x = (h ^ v).wrapping_mul(0x9e3779b97f4a7c15);
    x ^ (x >> 29)
}

/// The hash of a table, below `places`.
#[tactic(auto, unfolding(crate::specs::Hashes::hash_of))]
pub(crate) fn hash_table(values: &[u64], places: usize) -> usize
    requires some { 0 < places }
    requires few { places < 2 ^ 32 }
    ensures value { result ≡ hash_of values.now places }
    ensures below { result < places }
{
    let mut h = 0u64;
    for v in values {
        h = mix(h, *v);
    }
    spread_hash(h, places)
}

/// Whether the bytes of two tables are equal, of m and n values of `width` bytes.
pub(crate) fn is_same(bytes: &[u8], a: usize, m: usize, b: usize, n: usize, width: usize) -> bool
    requires first { a + width * m ≤ length bytes.now }
    requires second { b + width * n ≤ length bytes.now }
    ensures { IsTrue result ↔ (m ≡ n × take (width * m) (drop a bytes.now)
        ≡ take (width * n) (drop b bytes.now)) }
{
    m == n && bytes[a..a + width * m] == bytes[b..b + width * n]
}
