//! Places of known ids, known entries and names.
ghost use Rattle.std.specs.Prelude.{◌≡◌, ◌+◌, ◌≤◌, ◌<◌, ◌^◌, Some, IsSome, length};
ghost use Rattle.vol_spec.specs.ShardNames.{shard_bits_of};

use shard_index::{
    Entry, ShardPlace, base_len, judge_entry, place, read_entry, shard_name, write_entry,
};
use std::process::Abort;
use vol_base::{Name, ShardFault};
use vol_spec::{ChunkSizes, Encoding, HashKind, Scale, Sharding};

fn unhashed(preshift: u32, minishard_bits: u32, shard_bits: u32) -> Sharding
    requires preshift { preshift ≤ 64 }
    requires minishard { minishard_bits ≤ 24 }
    requires bits { minishard_bits + shard_bits ≤ 64 }
    ensures { result.shard_bits ≡ shard_bits }
{
    Sharding {
        preshift,
        hash: HashKind::Identity,
        minishard_bits,
        shard_bits,
    }
}

fn at(shard: u64, minishard: u64) -> ShardPlace {
    ShardPlace { shard, minishard }
}

#[test]
fn places_hashed_ids(rt: HostRuntime) {
    let sharding = Sharding {
        preshift: 0,
        hash: HashKind::Murmur,
        minishard_bits: 3,
        shard_bits: 4,
    };
    assert_eq!(rt; place(&sharding, 0), at(8, 1));
    assert_eq!(rt; place(&sharding, 1), at(3, 2));
}

const ID: u64 = 0xfedc_ba98_7654_3210;

// How many low bits of an id are dropped, how many name the minishard and the shard, an id, and its shard and minishard.
const PLACES: &[(u32, u32, u32, u64, u64, u64)] = &[
    (4, 8, 12, ID, 0x543, 0x21),
    (4, 8, 12, 19, 0, 1),
    // no bit is left
    (64, 24, 40, ID, 0, 0),
    // each bit names something
    (0, 24, 40, ID, 0xfe_dcba_9876, 0x54_3210),
    (0, 0, 64, ID, ID, 0),
    // one shard, and one shard with one minishard
    (0, 24, 0, ID, 0, 0x54_3210),
    (0, 0, 0, ID, 0, 0),
    // the topmost bit alone
    (63, 1, 63, ID, 0, 1),
];

#[test]
fn places_plain_ids(rt: HostRuntime) {
    for (preshift, minishard_bits, shard_bits, id, shard, minishard) in PLACES {
        assert!(rt;
            *preshift <= 64 && *minishard_bits <= 24 && *shard_bits <= 64 - *minishard_bits
        );
        let sharding = unhashed(*preshift, *minishard_bits, *shard_bits);
        assert_eq!(rt; place(&sharding, *id), at(*shard, *minishard));
    }
}

fn entry(start: u64, end: u64) -> Entry {
    Entry { start, end }
}

#[test]
fn knows_the_length_of_entries(rt: HostRuntime) {
    assert_eq!(rt; base_len(&unhashed(0, 0, 0)), 16);
    assert_eq!(rt; base_len(&unhashed(0, 1, 0)), 32);
    assert_eq!(rt; base_len(&unhashed(0, 24, 40)), 1 << 28);
}

// The bytes of an entry, and its start and end.
const ENTRIES: &[([u8; 16], u64, u64)] = &[
    ([1, 0, 0, 0, 0, 0, 0, 0, 25, 0, 0, 0, 0, 0, 0, 0], 1, 25),
    (
        [
            0xe7, 0xff, 0xff, 0xff, 0xff, 0xff, 0xff, 0xff, // 2^64 - 25
            0xff, 0xff, 0xff, 0xff, 0xff, 0xff, 0xff, 0xff,
        ],
        u64::MAX - 24,
        u64::MAX,
    ),
    (
        [1, 2, 3, 4, 5, 6, 7, 8, 9, 10, 11, 12, 13, 14, 15, 16],
        0x0807_0605_0403_0201,
        0x100f_0e0d_0c0b_0a09,
    ),
];

#[test]
fn reads_and_writes_entries(rt: HostRuntime) {
    for (bytes, start, end) in ENTRIES {
        let known = entry(*start, *end);
        assert_eq!(rt; read_entry(bytes), known);
        assert_eq!(rt; write_entry(&known), *bytes);
    }
}

// An entry's start and end, the length of the entries, the length of the object, and the number of rows or a fault.
type Judged = (u64, u64, u64, u64, Result<u64, ShardFault>);

const JUDGED: &[Judged] = &[
    // two minishards of a row each, 82 bytes
    (1, 25, 32, 82, Ok(1)),
    (26, 50, 32, 82, Ok(1)),
    // one minishard of two rows, 66 bytes
    (2, 50, 16, 66, Ok(2)),
    // empty ones, wherever they point
    (0, 0, 32, 32, Ok(0)),
    (u64::MAX, u64::MAX, 32, 32, Ok(0)),
    (25, 1, 32, 82, Err(ShardFault::BadRange)),
    (u64::MAX, 0, 32, 82, Err(ShardFault::BadRange)),
    (2, 25, 32, 82, Err(ShardFault::BadLength { bytes: 23 })),
    (1, 25, 32, 33, Err(ShardFault::ShortMinishard)),
    (26, 50, 32, 81, Err(ShardFault::ShortMinishard)),
    (0, 24, 32, 31, Err(ShardFault::ShortMinishard)),
    (
        u64::MAX - 24,
        u64::MAX,
        32,
        82,
        Err(ShardFault::ShortMinishard),
    ),
];

const MOST: u64 = 24 << 22;

const ONE_MORE: Result<u64, ShardFault> = Err(ShardFault::TooManyRows { rows: 4_194_305 });

const ALL: Result<u64, ShardFault> = Err(ShardFault::TooManyRows {
    rows: 768_614_336_404_564_650,
});

const ODD: Result<u64, ShardFault> = Err(ShardFault::BadLength { bytes: u64::MAX });

const JUDGED_LARGE: &[Judged] = &[
    (0, MOST, 16, u64::MAX, Ok(1 << 22)),
    (2, MOST + 26, 16, 66, ONE_MORE),
    (0, u64::MAX - 15, 16, 66, ALL),
    (0, u64::MAX, 16, 66, ODD),
];

fn check_judged(rt: &impl Abort, rows: &[Judged]) {
    for (start, end, base, len, wanted) in rows {
        let found = judge_entry(&entry(*start, *end), *base, *len);
        assert_eq!(rt; found, *wanted, "from {start} to {end}");
    }
}

#[test]
fn judges_entries(rt: HostRuntime) {
    check_judged(&rt, JUDGED);
}

#[test]
fn judges_large_entries(rt: HostRuntime) {
    check_judged(&rt, JUDGED_LARGE);
}

// A scale of one voxel.
fn one_voxel(key: Name, sharding: Sharding) -> Scale
    requires { length key ≤ 200 }
    ensures key { result.key ≡ key }
    ensures sharding { result.sharding ≡ Some sharding }
{
    Scale {
        key,
        width: 1,
        channels: 1,
        size: [1, 1, 1],
        offset: [0, 0, 0],
        chunk: [1, 1, 1],
        encoding: Encoding::Raw,
        sharding: Some(sharding),
        more: ChunkSizes::none(),
    }
}

fn short_name(rt: &impl Abort, text: &[u8]) -> Name
    ensures { length result ≤ 200 }
{
    let name = Name::new(text).expect(rt, "a name");
    assert!(rt; name.as_bytes().len() <= 200);
    name
}

// The name of a shard's object.
fn check_name(rt: &impl Abort, scale: &Scale, shard: u64, wanted: &[u8])
    requires sharded { IsSome scale.now.sharding }
    requires shard { shard < 2 ^ shard_bits_of scale.now }
{
    let dataset = short_name(rt, b"a/d");
    assert_eq!(rt; shard_name(&dataset, scale, shard).as_bytes(), wanted);
}

#[test]
fn names_shards(rt: HostRuntime) {
    let one = one_voxel(short_name(&rt, b"s"), unhashed(0, 1, 0));
    check_name(&rt, &one, 0, b"a/d/s/0.shard");
    let few = one_voxel(short_name(&rt, b"8_8_40"), unhashed(9, 6, 11));
    check_name(&rt, &few, 0, b"a/d/8_8_40/000.shard");
    check_name(&rt, &few, 0x7af, b"a/d/8_8_40/7af.shard");
    let all = one_voxel(short_name(&rt, b"s"), unhashed(0, 0, 64));
    check_name(&rt, &all, ID, b"a/d/s/fedcba9876543210.shard");
}
