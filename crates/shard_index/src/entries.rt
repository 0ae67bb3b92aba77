//! The entries in front of a shard.
ghost use Rattle.std.specs.Prelude.{◌≡◌, ◌<◌, ◌≤◌, ◌^◌, length};
ghost use Rattle.byteorder.specs.Endian.{little_bytes};
ghost use Rattle.vol_spec.specs.Entries.{base_of, entry_bytes, entry_of, judged_entry};

use byteorder::{ByteOrder, LittleEndian};
use vol_base::ShardFault;
use vol_spec::{Entry, Sharding};

// The most rows of a minishard index (this project's limit), and the bytes of each.
const ROWS_LIMIT: u64 = 1 << 22;

const ROW_LEN: u64 = 24;

/// The bytes of all entries of a shard: 16 for each minishard.
pub fn base_len(sharding: &Sharding) -> u64
    ensures value { result ≡ base_of sharding.now }
    ensures small { result ≤ 2 ^ 28 }
{
    16 << sharding.minishard_bits
}

/// An entry from its bytes: the start, then the end, each with its lowest byte first.
#[tactic(auto, unfolding(vol_spec::specs::Entries::entry_of))]
pub fn read_entry(bytes: &[u8; 16]) -> Entry
    ensures value { result ≡ entry_of bytes.now }
    // It is written back as it was.
    ensures written { entry_bytes result ≡ bytes.now }
{
    Entry {
        start: LittleEndian::read_u64(&bytes[..8]),
        end: LittleEndian::read_u64(&bytes[8..]),
    }
}

fn put_number(out: &mut [u8], number: u64)
    requires { length out.old ≡ 8 }
    ensures bytes { out.new ≡ little_bytes 8 number }
    ensures fits { number < 2 ^ 64 }
{
    LittleEndian::write_u64(out, number);
}

// The bytes of an entry, into 16 bytes.
#[tactic(auto, unfolding(vol_spec::specs::Entries::entry_bytes))]
fn put_entry(out: &mut [u8], entry: &Entry)
    requires { length out.old ≡ 16 }
    ensures bytes { out.new ≡ entry_bytes entry.now }
    ensures fits { (entry.now.start < 2 ^ 64) × (entry.now.end < 2 ^ 64) }
{
    put_number(&mut out[..8], entry.start);
    put_number(&mut out[8..], entry.end);
}

/// The bytes of an entry.
pub fn write_entry(entry: &Entry) -> [u8; 16]
    ensures bytes { result ≡ entry_bytes entry.now }
    // It is read back as it was.
    ensures read { entry_of result ≡ entry.now }
{
    let mut bytes = [0; 16];
    put_entry(&mut bytes, entry);
    bytes
}

/// How many rows the index behind an entry has, 0 for an empty minishard, by the length of the
/// shard's entries and that of its object in bytes. The first that is found is the answer: an empty
/// minishard, BadRange, BadLength, TooManyRows, ShortMinishard.
pub fn judge_entry(entry: &Entry, base: u64, object_len: u64) -> Result<u64, ShardFault>
    ensures { result ≡ judged_entry entry.now base object_len }
{
    if entry.start == entry.end {
        return Ok(0);
    }
    if entry.end < entry.start {
        return Err(ShardFault::BadRange);
    }
    let bytes = entry.end - entry.start;
    if bytes % ROW_LEN != 0 {
        return Err(ShardFault::BadLength { bytes });
    }
    let rows = bytes / ROW_LEN;
    if rows > ROWS_LIMIT {
        return Err(ShardFault::TooManyRows { rows });
    }
    if object_len < base || object_len - base < entry.end {
        return Err(ShardFault::ShortMinishard);
    }
    Ok(rows)
}
