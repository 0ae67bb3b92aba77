//! Names and scales at their limits.

use small_scales::{raw_scale, short_name};

#[test]
fn makes_short_names(rt: HostRuntime) {
    assert!(rt; short_name(b"a/b").is_some());
    assert!(rt; short_name(b"a//b").is_none());
    assert!(rt; short_name(&[b'a'; 200]).is_some());
    assert!(rt; short_name(&[b'a'; 201]).is_none());
}

const MOST: u64 = 1 << 40;

const END: i64 = 1 << 40;

// The width, the channels, the size, the offset and the chunk size of a scale, and whether there is one.
const SCALES: &[(u32, u32, [u64; 3], [i64; 3], [u64; 3], bool)] = &[
    (1, 1, [5, 1, 3], [-3, 0, 2], [2, 2, 2], true),
    (
        8,
        1024,
        [MOST, 1, MOST],
        [-END, END, 0],
        [128, MOST, 128],
        true,
    ),
    (
        8,
        1024,
        [MOST, 1, MOST],
        [-END, END, 0],
        [129, MOST, 128],
        false,
    ),
    (8, 1024, [MOST; 3], [0; 3], [MOST; 3], false),
    (3, 1, [1; 3], [0; 3], [1; 3], false),
    (1, 0, [1; 3], [0; 3], [1; 3], false),
    (1, 1025, [1; 3], [0; 3], [1; 3], false),
    (1, 1, [1, 1, 0], [0; 3], [1; 3], false),
    (1, 1, [1, MOST + 1, 1], [0; 3], [1; 3], false),
    (1, 1, [1; 3], [-END - 1, 0, 0], [1; 3], false),
    (1, 1, [1; 3], [0, 0, END + 1], [1; 3], false),
    (1, 1, [1; 3], [i64::MIN; 3], [1; 3], false),
    (1, 1, [1; 3], [0; 3], [0, 1, 1], false),
];

#[test]
fn makes_raw_scales(rt: HostRuntime) {
    for (width, channels, size, offset, chunk, is_some) in SCALES {
        let key = short_name(b"s").expect(&rt, "a name");
        let scale = raw_scale(key, *width, *channels, *size, *offset, *chunk);
        assert_eq!(rt; scale.is_some(), *is_some);
    }
}
