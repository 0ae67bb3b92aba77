//! Lists of values against a plain slow program.
ghost use Rattle.std.specs.Prelude.{◌≡◌, ◌<◌, ◌^◌, IfOk, length};
ghost use Rattle.equal_values.specs.Earlier.{earlier as earlier_of, coded};
ghost use Rattle.equal_values.specs.Reserved.{most_of};

use equal_values::{Finder, find_earlier};
use std::alloc::{AllocError, Global};
use std::process::Abort;
use std::test::Fail;
use vol_base::OutOfMemory;

// For the value at place k: the first place before with an equal one and 1, or 0.
fn plain_number(values: &[u64], k: usize) -> u32
    requires place { k < length values.now }
    requires few { length values.now < 2 ^ 24 }
    ensures { result ≡ coded (earlier_of values.now k) }
{
    for j in 0..k {
        if values[j] == values[k] {
            return j as u32 + 1;
        }
    }
    0
}

fn plain_numbers(alloc: Global, values: &[u64]) -> Result<Vec<u32>, AllocError>
    requires few { length values.now < 2 ^ 24 }
{
    let mut numbers = Vec::new(alloc);
    for k in 0..values.len() {
        numbers.push(plain_number(values, k))?;
    }
    Ok(numbers)
}

// Room for the answers, with nothing of them in it.
fn sevens(alloc: Global, len: usize) -> Result<Vec<u32>, AllocError>
    ensures { IfOk result (λ v. length v.items ≡ len) }
{
    vec![in alloc; 7u32; len]
}

fn test_list(
    rt: &impl Abort,
    alloc: Global,
    finder: &mut Finder,
    values: &[u64],
) -> Result<(), Fail>
    requires { most_of finder.old ≡ 3000 }
    ensures { most_of finder.new ≡ most_of finder.old }
{
    assert!(rt; values.len() <= 3000);
    let mut earlier = sevens(alloc, values.len())?;
    find_earlier(values, finder, &mut earlier);
    let wanted = plain_numbers(alloc, values)?;
    assert_eq!(rt; earlier, wanted);
    Ok(())
}

fn reserve(alloc: Global) -> Result<Finder, OutOfMemory>
    ensures { IfOk result (λ f. most_of f ≡ 3000) }
{
    Finder::reserve(alloc, 3000)
}

// So many values below a bound.
fn values_below(alloc: Global, len: u64, bound: u64) -> Result<Vec<u64>, AllocError>
    requires { 0 < bound }
{
    let mut values = Vec::new(alloc);
    for k in 0..len {
        values.push(k.wrapping_mul(k).wrapping_mul(0x9e3779b97f4a7c15) % bound)?;
    }
    Ok(values)
}

// Longer and shorter lists one after the other, so that they meet what earlier ones left.
fn test_lists(rt: &impl Abort, alloc: Global, finder: &mut Finder, bound: u64) -> Result<(), Fail>
    requires finder { most_of finder.old ≡ 3000 }
    requires bound { 0 < bound }
    ensures { most_of finder.new ≡ most_of finder.old }
{
    for len in [3000, 65, 64, 63, 1, 0, 1000] {
        let values = values_below(alloc, len, bound)?;
        test_list(rt, alloc, finder, &values)?;
    }
    Ok(())
}

#[test]
fn finds_what_a_plain_program_finds(rt: HostRuntime) -> Result<(), Fail> {
    let mut finder = reserve(rt.alloc()).ok().ok_or("memory")?;
    test_lists(&rt, rt.alloc(), &mut finder, 1)?;
    test_lists(&rt, rt.alloc(), &mut finder, 2)?;
    test_lists(&rt, rt.alloc(), &mut finder, 300)?;
    test_lists(&rt, rt.alloc(), &mut finder, 2999)?;
    test_lists(&rt, rt.alloc(), &mut finder, 1 << 40)
}

// Written out by hand: equal at both ends, zeros, values that differ in one half alone.
const CASES: &[(&[u64], &[u32])] = &[
    (&[], &[]),
    (&[5], &[0]),
    (&[9, 9, 9], &[0, 1, 1]),
    (&[0, 4, 0, 4, 8, 0], &[0, 0, 1, 2, 0, 1]),
    (&[1, 1 << 32, (1 << 32) + 1, 1, 1 << 32], &[0, 0, 0, 1, 2]),
];

#[test]
fn finds_by_hand(rt: HostRuntime) -> Result<(), Fail> {
    let mut finder = reserve(rt.alloc()).ok().ok_or("memory")?;
    for (values, wanted) in CASES {
        assert!(&rt; values.len() <= 3000);
        let mut earlier = sevens(rt.alloc(), values.len())?;
        find_earlier(values, &mut finder, &mut earlier);
        assert_eq!(&rt; earlier.as_slice(), *wanted);
    }
    Ok(())
}
