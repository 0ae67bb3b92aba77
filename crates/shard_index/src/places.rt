//! Places of chunk ids.
ghost use Rattle.std.specs.Prelude.{◌≡◌, ◌/◌, ◌%◌, ◌<◌, ◌≤◌, ◌^◌};
ghost use Rattle.vol_spec.specs.Places.{hash_of, minishard_of, shard_of};

use murmur_hash::{hash8, identity};
use vol_spec::{HashKind, ShardPlace, Sharding};

fn hash(kind: HashKind, value: u64) -> u64
    ensures { result ≡ hash_of kind value }
{
    match kind {
        HashKind::Identity => identity(value),
        HashKind::Murmur => hash8(value),
    }
}

// Without its low bits; 0 where all are dropped.
fn drop_bits(value: u64, bits: u32) -> u64
    requires { bits ≤ 64 }
    ensures { result ≡ value / 2 ^ bits }
{
    value.checked_shr(bits).unwrap_or(0)
}

// The low bits alone.
fn keep_bits(value: u64, bits: u32) -> u64
    requires { bits ≤ 64 }
    ensures { result ≡ value % 2 ^ bits }
{
    match 1u64.checked_shl(bits) {
        Some(past) => value % past,
        None => value,
    }
}

/// The place of a chunk id (precomputed volume format, sharded format, sharding specification):
/// the id without its low `preshift` bits is hashed, the low `minishard_bits` bits of the hash
/// are the minishard, and the `shard_bits` bits above them are the shard.
pub fn place(sharding: &Sharding, id: u64) -> ShardPlace
    ensures shard { result.shard ≡ shard_of sharding.now id }
    ensures minishard { result.minishard ≡ minishard_of sharding.now id }
{
    let hash = hash(sharding.hash, drop_bits(id, sharding.preshift));
    ShardPlace {
        shard: keep_bits(
            drop_bits(hash, sharding.minishard_bits),
            sharding.shard_bits,
        ),
        minishard: keep_bits(hash, sharding.minishard_bits),
    }
}
