//! Known bytes in each width, written in pieces.
ghost use Rattle.std.specs.Prelude.{◌≡◌, ◌≤◌, ◌*◌, ◌++◌, ℕ, length, IsOk, IfOk};
ghost use Rattle.value_sums.specs.Sums.{sum_in};

use value_sums::SumOutlet;
use vol_base::{Failed, write_all};

// As three values of eight bytes they pass 2^64 together.
const BYTES: [u8; 24] = [
    3, 1, 4, 1, 5, 9, 2, 254, 6, 5, 3, 5, 8, 9, 7, 255, 9, 3, 2, 3, 8, 4, 6, 253,
];

// The sum of values that are written as two pieces.
fn sum_two<const WIDTH: usize>(front: &[u8], rest: &[u8]) -> Result<u64, Failed>
    requires some { 1 ≤ WIDTH }
    requires width { WIDTH ≤ 8 }
    ensures sum { IfOk result (λ sum. (count : ℕ) → length (front.now ++ rest.now) ≡ count * WIDTH →
        sum ≡ sum_in WIDTH count (front.now ++ rest.now)) }
    ensures never { IsOk result }
{
    let mut outlet: SumOutlet<WIDTH> = SumOutlet::new();
    write_all(&mut outlet, front)?;
    write_all(&mut outlet, rest)?;
    Ok(outlet.sum())
}

// The sum of values that are written byte by byte.
fn sum_single<const WIDTH: usize>(bytes: &[u8]) -> Result<u64, Failed>
    requires some { 1 ≤ WIDTH }
    requires width { WIDTH ≤ 8 }
{
    let mut outlet: SumOutlet<WIDTH> = SumOutlet::new();
    for byte in bytes {
        write_all(&mut outlet, &[*byte])?;
    }
    Ok(outlet.sum())
}

// Whether the sum of bytes is this one, wherever they are cut into two pieces, and byte by byte.
fn sums_to<const WIDTH: usize>(bytes: &[u8], wanted: u64) -> bool
    requires some { 1 ≤ WIDTH }
    requires width { WIDTH ≤ 8 }
{
    for cut in 0..=bytes.len() {
        if sum_two::<WIDTH>(&bytes[..cut], &bytes[cut..]) != Ok(wanted) {
            return false;
        }
    }
    sum_single::<WIDTH>(bytes) == Ok(wanted)
}

#[test]
fn sums_known_bytes(rt: HostRuntime) {
    assert!(rt; sums_to::<1>(&BYTES, 865));
    assert!(rt; sums_to::<2>(&BYTES, 205_375));
    assert!(rt; sums_to::<3>(&BYTES, 19_407_640));
    assert!(rt; sums_to::<4>(&BYTES, 12_936_814_375));
    assert!(rt; sums_to::<5>(&BYTES[..20], 86_218_969_614));
    assert!(rt; sums_to::<6>(&BYTES, 296_971_371_416_335));
    assert!(rt; sums_to::<7>(&BYTES[..21], 5_370_066_448_353_032));
    assert!(rt; sums_to::<8>(&BYTES, 18_018_644_913_734_355_218));
    assert!(rt; sums_to::<8>(&[], 0));
}
