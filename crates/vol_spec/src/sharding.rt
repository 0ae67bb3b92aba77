//! How a sharded scale's chunks are put into shards.

ghost use Rattle.std.specs.Prelude.{◌+◌, ◌≤◌};

/// The hash of a shifted chunk id.
#[derive(Clone, Copy, Debug, PartialEq, Eq)]
pub enum HashKind {
    Identity,
    Murmur,
}

/// The sharding of a scale (sharded format, sharding specification): how many low bits of a chunk
/// id are dropped before it is hashed, the hash, and how many bits name the minishard and the shard.
#[derive(Clone, Copy, Debug, PartialEq, Eq)]
pub struct Sharding {
    pub preshift: u32,
    pub hash: HashKind,
    pub minishard_bits: u32,
    pub shard_bits: u32,
    ghost preshift_ok: { preshift ≤ 64 },
    ghost minishard_ok: { minishard_bits ≤ 24 },
    ghost bits_ok: { minishard_bits + shard_bits ≤ 64 },
}

/// The shard that has a chunk, and the minishard in it.
#[derive(Clone, Copy, Debug, PartialEq, Eq)]
pub struct ShardPlace {
    pub shard: u64,
    pub minishard: u64,
}
