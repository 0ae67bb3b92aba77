//! The names of shards' objects.
ghost use Rattle.std.specs.Prelude.{◌≡◌, ◌-◌, ◌<◌, ◌≤◌, ◌^◌, ◌++◌, IsSome, length};
ghost use Rattle.vol_spec.specs.ShardNames.{filled_hex, hex_at, hex_len, shard_bits_of, shard_file, shard_name, suffix};

use vol_base::Name;
use vol_spec::Scale;

const SUFFIX: &[u8; 6] = b".shard";

// The hexadecimal digit at a place, counted from the lowest.
fn hex_digit(number: u64, place: usize) -> u8
    requires { place < 16 }
    ensures { result ≡ hex_at number place }
{
    let digit = ((number >> (4 * place)) % 16) as u8;
    if digit < 10 {
        b'0' + digit
    } else {
        b'a' + (digit - 10)
    }
}

// Fills a buffer with the lowest digits of a number, the highest first.
fn put_hex(to: &mut [u8], number: u64)
    requires { length to.old ≤ 16 }
    ensures { to.new ≡ filled_hex number (length to.old) }
{
    let count = to.len();
    for i in 0..count {
        to[i] = hex_digit(number, count - 1 - i);
    }
}

// How many bits name the shard; 0 in a scale without shards.
fn shard_bits(scale: &Scale) -> u32
    ensures bits { result ≡ shard_bits_of scale.now }
    ensures small { result ≤ 64 }
{
    match scale.sharding {
        Some(sharding) => sharding.shard_bits,
        None => 0,
    }
}

// Fills a buffer with the lowest digits of a number and `.shard`.
fn put_file(to: &mut [u8], number: u64)
    requires some { 6 ≤ length to.old }
    requires few { length to.old ≤ 22 }
    ensures { to.new ≡ filled_hex number (length to.old - 6) ++ suffix }
{
    let count = to.len() - SUFFIX.len();
    put_hex(&mut to[..count], number);
    to[count..].copy_from_slice(SUFFIX);
}

// The name that a buffer has room for.
fn name_file(to: &mut [u8], number: u64) -> Name
    requires some { 6 ≤ length to.old }
    requires few { length to.old ≤ 22 }
    ensures text { result ≡ filled_hex number (length to.old - 6) ++ suffix }
    ensures short { length result ≤ 22 }
{
    put_file(to, number);
    match Name::new(to) {
        Some(name) => name,
        None => unreachable!(),
    }
}

// The last part of a shard's name.
fn file_name(shard: u64, bits: u32) -> Name
    requires { bits ≤ 64 }
    ensures text { result ≡ shard_file bits shard }
    ensures short { length result ≤ 22 }
{
    let mut text = [0; 22];
    let len = bits.div_ceil(4).max(1) as usize + SUFFIX.len();
    name_file(&mut text[..len], shard)
}

/// The object of a shard: the data set, the scale's key, and the shard's number in lower-case
/// hexadecimal, filled with zeros to a digit for each four shard bits and at least one, with
/// `.shard` behind it.
pub fn shard_name(dataset: &Name, scale: &Scale, shard: u64) -> Name
    requires dataset { length dataset.now ≤ 200 }
    requires sharded { IsSome scale.now.sharding }
    requires shard { shard < 2 ^ shard_bits_of scale.now }
    ensures { result ≡ shard_name dataset.now scale.now shard }
{
    let file = file_name(shard, shard_bits(scale));
    let Some(folder) = dataset.join(&scale.key) else {
        unreachable!()
    };
    let Some(name) = folder.join(&file) else {
        unreachable!()
    };
    name
}
