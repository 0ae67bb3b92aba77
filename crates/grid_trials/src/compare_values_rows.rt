//! Lists of values whose first difference is known, within a block and across blocks.

use compare_values::first_difference;
use std::process::Abort;
use std::test::Fail;

// A list of so many bytes of 7, and one that has another byte at some place.
fn check<R: Abort>(
    rt: &R,
    list: &[u8],
    other: &mut [u8],
    place: usize,
    width: usize,
    wanted: usize,
) -> Result<(), Fail> {
    assert!(rt; list.len() == other.len() && place < other.len() && width > 0);
    assert_eq!(rt; first_difference(list, other, width), None);
    other[place] = 8;
    assert_eq!(rt; first_difference(list, other, width), Some(wanted));
    other[place] = 7;
    Ok(())
}

// The place of the byte that differs, the bytes of a value, and the number of the value.
const ROWS: &[(usize, usize, usize)] = &[
    (0, 1, 0),
    (1, 2, 0),
    (2, 2, 1),
    (4095, 1, 4095),
    (4096, 1, 4096),
    (4103, 8, 512),
    (8191, 4, 2047),
    (12_295, 8, 1536),
    (12_295, 1, 12_295),
];

#[test]
fn finds_the_first_difference(rt: HostRuntime) -> Result<(), Fail> {
    let alloc = rt.alloc();
    let list = vec![in alloc; 7; 12_296]?;
    let mut other = vec![in alloc; 7; 12_296]?;
    for (place, width, wanted) in ROWS {
        check(&rt, &list, &mut other, *place, *width, *wanted)?;
    }
    Ok(())
}

#[test]
fn finds_the_first_of_two(rt: HostRuntime) -> Result<(), Fail> {
    assert_eq!(&rt; first_difference(&[1, 2, 3, 4], &[1, 9, 3, 9], 1), Some(1));
    assert_eq!(&rt; first_difference(&[1, 2, 3, 4], &[1, 2, 9, 9], 2), Some(1));
    assert_eq!(&rt; first_difference(&[], &[], 8), None);
    Ok(())
}
