//! A chunk's bytes out of its values.
ghost use Rattle.std.specs.Prelude.{◌≡◌, ◌+◌, ◌*◌, ◌/◌, ◌<◌, ◌≤◌, ◌^◌, ◌++◌, ℕ, length, slice_index, slice_set, take, drop, flat_map, ◌∷◌, [], None};
ghost use Rattle.std.specs.List.{range_with_len};
ghost use Rattle.vol_spec.specs.BoxValues.{bytes_of};
ghost use Rattle.vol_spec.specs.Raw.{digit};
ghost use Rattle.vol_spec.specs.SegBlocks.{InChunk, block_count, block_voxels, num, raw_len, width};
ghost use Rattle.vol_spec.specs.SegChunks.{seg_at};
ghost use Rattle.vol_spec.specs.SegFaults.{seg_fault};
ghost use Rattle.vol_spec.specs.SegShapes.{sizes_of};
ghost use Rattle.vol_spec.specs.SegSizes.{encoded_limit, padded_in, width_of};
ghost use Rattle.vol_spec.specs.SegWritten as seg;
ghost use Rattle.vol_spec.specs.SegWritten.{channel_bytes, channel_start, packed_bytes, packed_len, seg_bytes, table_place, values_place};
ghost use Rattle.segment_blocks.specs.Located.{IsBlock};
ghost use Rattle.segment_blocks.specs.Reserved.{sizes_for};
ghost use Rattle.segment_blocks.specs.Rooms.{IsRoom, SameRoom, Serves};
ghost use Rattle.segment_blocks.specs.Shape.{padded};
ghost use Rattle.segment_blocks.specs.Singles.{IsSingles, KnowsSpots, SameSingles};
ghost use Rattle.segment_blocks.specs.Stored.{Candidate, HasTables, IsBegun};

use crate::append::{put_values, put_words};
use crate::block::Block;
use crate::hashes::hash_table;
use crate::known::{Known, add_block, locate_table};
use crate::locate::{count_blocks, find_block};
use crate::one::find_one;
use crate::pack::{find_bits, put_places};
use crate::room::Room;
use crate::scratch::Scratch;
use crate::single::{Singles, find_singles};
use crate::voxels::tabulate;
use crate::word::find_width;
use equal_values::index::clear;
use vol_spec::SegShape;

/// Where a block's indices end, and how many entries its table has.
#[derive(Clone, Copy)]
pub(crate) struct Ends {
    pub indices: usize,
    pub entries: usize,
}

// The table of a block of one value, behind the first `at` bytes: such a block has no indices.
fn write_one(
    _raw: &[u8],
    shape: &SegShape,
    _c: u32,
    _k: usize,
    value: u64,
    table: &mut [u64],
    out: &mut [u8],
    at: usize,
) -> Ends
    requires one { seg.table (sizes_of shape.now) _raw.now _c _k ≡ value ∷ [] }
    requires table { 0 < length table.old }
    requires room { at + width_of shape.now.wide ≤ length out.old }
    ensures indices { result.indices ≡ at + 4 * packed_len (sizes_of shape.now) _raw.now _c _k }
    ensures entries { result.entries ≡ length (seg.table (sizes_of shape.now) _raw.now _c _k) }
    ensures table { take result.entries table.new ≡ seg.table (sizes_of shape.now) _raw.now _c _k }
    ensures bytes { take (result.indices + width_of shape.now.wide * result.entries) out.new ≡ take at out.old
        ++ packed_bytes (sizes_of shape.now) _raw.now _c _k
        ++ flat_map (bytes_of (width_of shape.now.wide)) (seg.table (sizes_of shape.now) _raw.now _c _k) }
{
    table[0] = value;
    put_values(out, at, &table[..1], shape.wide);
    Ends {
        indices: at,
        entries: 1,
    }
}

// The indices of a block behind the first `at` bytes, and its table behind them.
fn write_many(
    raw: &[u8],
    shape: &SegShape,
    c: u32,
    k: usize,
    b: &Block,
    voxels: &mut [u64],
    table: &mut [u64],
    out: &mut [u8],
    at: usize,
) -> Ends
    requires block { k < block_count (sizes_of shape.now) }
    requires channel { c < shape.now.channels }
    requires is { IsBlock (sizes_of shape.now) c k b.now }
    requires raw { length raw.now ≡ raw_len (sizes_of shape.now) }
    requires voxels { length voxels.old ≡ block_voxels (sizes_of shape.now) }
    requires table { length table.old ≡ block_voxels (sizes_of shape.now) }
    requires room { at + 4 * packed_len (sizes_of shape.now) raw.now c k
        + width_of shape.now.wide * length (seg.table (sizes_of shape.now) raw.now c k) ≤ length out.old }
    ensures indices { result.indices ≡ at + 4 * packed_len (sizes_of shape.now) raw.now c k }
    ensures entries { result.entries ≡ length (seg.table (sizes_of shape.now) raw.now c k) }
    ensures table { take result.entries table.new ≡ seg.table (sizes_of shape.now) raw.now c k }
    ensures bytes { take (result.indices + width_of shape.now.wide * result.entries) out.new ≡ take at out.old
        ++ packed_bytes (sizes_of shape.now) raw.now c k
        ++ flat_map (bytes_of (width_of shape.now.wide)) (seg.table (sizes_of shape.now) raw.now c k) }
{
    let count = tabulate(raw, shape, c, k, b, voxels, table);
    let indices = put_places(out, at, voxels, &table[..count], find_bits(count));
    put_values(out, indices, &table[..count], shape.wide);
    Ends {
        indices,
        entries: count,
    }
}

// The indices of block k of channel c behind the first `at` bytes, and its table behind them.
fn write_block(
    raw: &[u8],
    shape: &SegShape,
    c: u32,
    k: usize,
    voxels: &mut [u64],
    table: &mut [u64],
    out: &mut [u8],
    at: usize,
) -> Ends
    requires block { k < block_count (sizes_of shape.now) }
    requires channel { c < shape.now.channels }
    requires raw { length raw.now ≡ raw_len (sizes_of shape.now) }
    requires voxels { length voxels.old ≡ block_voxels (sizes_of shape.now) }
    requires table { length table.old ≡ block_voxels (sizes_of shape.now) }
    requires room { at + 4 * packed_len (sizes_of shape.now) raw.now c k
        + width_of shape.now.wide * length (seg.table (sizes_of shape.now) raw.now c k) ≤ length out.old }
    ensures indices { result.indices ≡ at + 4 * packed_len (sizes_of shape.now) raw.now c k }
    ensures entries { result.entries ≡ length (seg.table (sizes_of shape.now) raw.now c k) }
    ensures table { take result.entries table.new ≡ seg.table (sizes_of shape.now) raw.now c k }
    ensures bytes { take (result.indices + width_of shape.now.wide * result.entries) out.new ≡ take at out.old
        ++ packed_bytes (sizes_of shape.now) raw.now c k
        ++ flat_map (bytes_of (width_of shape.now.wide)) (seg.table (sizes_of shape.now) raw.now c k) }
{
    let b = find_block(shape, c as usize, k);
    match find_one(raw, shape, c, k, &b) {
        Some(value) => write_one(raw, shape, c, k, value, table, out, at),
        None => write_many(raw, shape, c, k, &b, voxels, table, out, at),
    }
}

// Takes the table of block k, whose bytes stand behind its indices, for the block's own or, where an
// earlier block has the same table, that block's for it; tells where the next block begins.
fn settle(
    raw: &[u8],
    shape: &SegShape,
    c: u32,
    k: usize,
    spots: &[u32],
    room: &mut Room,
    out: &[u8],
    ends: Ends,
) -> usize
    requires spots { KnowsSpots (sizes_of shape.now) raw.now c spots.now }
    requires block { k < block_count (sizes_of shape.now) }
    requires channel { c < shape.now.channels }
    requires room { IsRoom (sizes_of shape.now) room.old }
    requires limit { padded (sizes_of shape.now) ≤ 2 ^ 22 }
    requires tables { HasTables
        (sizes_of shape.now) raw.now c out.now
        room.old.at.items room.old.lens.items room.old.heads.items room.old.next.items k }
    requires candidate { Candidate (sizes_of shape.now) raw.now c out.now k ends.indices ends.entries }
    requires indices { ends.indices ≡ 4 * (values_place (sizes_of shape.now) raw.now c k
        + packed_len (sizes_of shape.now) raw.now c k) }
    requires table { take ends.entries room.old.table.items ≡ seg.table (sizes_of shape.now) raw.now c k }
    ensures at { result ≡ 4 * values_place (sizes_of shape.now) raw.now c (k + 1) }
    ensures tables { HasTables
        (sizes_of shape.now) raw.now c out.now
        room.new.at.items room.new.lens.items room.new.heads.items room.new.next.items (k + 1) }
    ensures same { SameRoom room.old room.new }
    ensures headers { room.new.headers.items ≡ room.old.headers.items }
{
    let hash = hash_table(&room.table[..ends.entries], room.heads.len());
    // where the table stands now, to be compared with others
    room.at[k] = ends.indices as u32;
    room.lens[k] = ends.entries as u32;
    let known = Known {
        raw,
        shape,
        c,
        k,
        bytes: out,
        at: &room.at,
        lens: &room.lens,
    };
    let spot = locate_table(&known, spots, &room.heads, &room.next, hash);
    room.at[k] = spot;
    // a block is the first with its table where that stays behind its own indices
    if spot as usize == ends.indices {
        add_block(raw, shape, c, &mut room.heads, &mut room.next, hash, k);
        ends.indices + find_width(shape.wide) * ends.entries
    } else {
        ends.indices
    }
}

// The two words of the header of block k.
fn put_header(headers: &mut [u32], k: usize, table: u32, bits: u32, values: u32)
    requires within { 2 * k + 1 < length headers.old }
    requires table { table < 2 ^ 24 }
    requires bits { bits ≤ 32 }
    ensures { headers.new ≡ slice_set (slice_set headers.old (2 * k) (table + 2 ^ 24 * bits))
        (2 * k + 1) values }
{
    headers[2 * k] = table + (1 << 24) * bits;
    headers[2 * k + 1] = values;
}

// Block k of channel c behind those before it, up to `at`; tells where the next one begins.
fn encode_block(
    raw: &[u8],
    shape: &SegShape,
    c: u32,
    k: usize,
    spots: &[u32],
    room: &mut Room,
    out: &mut [u8],
    at: usize,
) -> usize
    requires spots { KnowsSpots (sizes_of shape.now) raw.now c spots.now }
    requires block { k < block_count (sizes_of shape.now) }
    requires channel { c < shape.now.channels }
    requires raw { length raw.now ≡ raw_len (sizes_of shape.now) }
    requires limit { padded (sizes_of shape.now) ≤ 2 ^ 22 }
    requires room { IsRoom (sizes_of shape.now) room.old }
    requires out { 16 * padded (sizes_of shape.now) ≤ length out.old }
    requires begun { IsBegun (sizes_of shape.now) raw.now c out.old room.old k }
    requires at { at ≡ 4 * values_place (sizes_of shape.now) raw.now c k }
    ensures at { result ≡ 4 * values_place (sizes_of shape.now) raw.now c (k + 1) }
    ensures begun { IsBegun (sizes_of shape.now) raw.now c out.new room.new (k + 1) }
    ensures same { SameRoom room.old room.new }
{
    let ends = write_block(raw, shape, c, k, &mut room.voxels, &mut room.table, out, at);
    let next = settle(raw, shape, c, k, spots, room, out, ends);
    let table = room.at[k] / 4;
    let bits = find_bits(ends.entries);
    put_header(&mut room.headers, k, table, bits, (at / 4) as u32);
    next
}

// The blocks of channel c behind the place of their headers; tells where they end.
fn encode_blocks(
    raw: &[u8],
    shape: &SegShape,
    c: u32,
    blocks: usize,
    singles: &mut Singles,
    room: &mut Room,
    out: &mut [u8],
) -> usize
    requires singles { IsSingles (sizes_of shape.now) singles.old }
    requires blocks { blocks ≡ block_count (sizes_of shape.now) }
    requires channel { c < shape.now.channels }
    requires raw { length raw.now ≡ raw_len (sizes_of shape.now) }
    requires limit { padded (sizes_of shape.now) ≤ 2 ^ 22 }
    requires room { IsRoom (sizes_of shape.now) room.old }
    requires out { 16 * padded (sizes_of shape.now) ≤ length out.old }
    ensures at { result ≡ 4 * values_place (sizes_of shape.now) raw.now c (block_count (sizes_of shape.now)) }
    ensures begun { IsBegun (sizes_of shape.now) raw.now c out.new room.new
        (block_count (sizes_of shape.now)) }
    ensures same { SameRoom room.old room.new }
    ensures singles { SameSingles singles.old singles.new }
{
    find_singles(raw, shape, c, singles);
    // forget the tables of another channel
    clear(&mut room.heads);
    let mut at = 8 * blocks;
    for k in 0..blocks {
        at = encode_block(raw, shape, c, k, &singles.spots, room, out, at);
    }
    at
}

// Channel c in front of `out`; tells its length.
fn encode_channel(
    raw: &[u8],
    shape: &SegShape,
    c: u32,
    singles: &mut Singles,
    room: &mut Room,
    out: &mut [u8],
) -> usize
    requires singles { IsSingles (sizes_of shape.now) singles.old }
    requires channel { c < shape.now.channels }
    requires raw { length raw.now ≡ raw_len (sizes_of shape.now) }
    requires limit { padded (sizes_of shape.now) ≤ 2 ^ 22 }
    requires room { IsRoom (sizes_of shape.now) room.old }
    requires out { 16 * padded (sizes_of shape.now) ≤ length out.old }
    ensures len { result ≡ 4 * values_place (sizes_of shape.now) raw.now c
        (block_count (sizes_of shape.now)) }
    ensures bytes { take result out.new ≡ channel_bytes (sizes_of shape.now) raw.now c }
    ensures same { SameRoom room.old room.new }
    ensures singles { SameSingles singles.old singles.new }
{
    let blocks = count_blocks(shape);
    let len = encode_blocks(raw, shape, c, blocks, singles, room, out);
    put_words(&mut out[..8 * blocks], &room.headers[..2 * blocks]);
    len
}

// The channels behind the place of their words; tells where they end.
fn encode_channels(
    raw: &[u8],
    shape: &SegShape,
    singles: &mut Singles,
    room: &mut Room,
    starts: &mut [u32],
    out: &mut [u8],
) -> usize
    requires singles { IsSingles (sizes_of shape.now) singles.old }
    requires raw { length raw.now ≡ raw_len (sizes_of shape.now) }
    requires limit { padded (sizes_of shape.now) * shape.now.channels ≤ 2 ^ 22 }
    requires room { IsRoom (sizes_of shape.now) room.old }
    requires starts { shape.now.channels ≤ length starts.old }
    requires out { 4 * shape.now.channels + 16 * (padded (sizes_of shape.now) * shape.now.channels)
        ≤ length out.old }
    ensures len { result ≡ 4 * channel_start (sizes_of shape.now) raw.now shape.now.channels }
    ensures bytes { drop (4 * shape.now.channels) (take result out.new)
        ≡ flat_map (channel_bytes (sizes_of shape.now) raw.now) (range_with_len 0 shape.now.channels) }
    ensures starts { (c : ℕ) → c < shape.now.channels →
        slice_index starts.new c ≡ channel_start (sizes_of shape.now) raw.now c }
    ensures same { SameRoom room.old room.new }
    ensures singles { SameSingles singles.old singles.new }
{
    let mut at = 4 * shape.channels as usize;
    for c in 0..shape.channels {
        starts[c as usize] = (at / 4) as u32;
        at += encode_channel(raw, shape, c, singles, room, &mut out[at..]);
    }
    at
}

/// Puts the chunk of these values in front of `out`, as this writer spells it, and tells its length in
/// bytes. `raw` has the values side by side: x fastest, then y, z and the channel, 4 or 8 bytes each, the
/// lowest first.
pub fn encode(raw: &[u8], shape: &SegShape, scratch: &mut Scratch, out: &mut [u8]) -> usize
    requires limit { padded_in (sizes_of shape.now) ≤ 2 ^ 22 }
    requires scratch { Serves (sizes_for scratch.old) (sizes_of shape.now) }
    requires raw { length raw.now ≡ raw_len (sizes_of shape.now) }
    requires out { encoded_limit (sizes_of shape.now) ≤ length out.old }
    ensures bytes { take result out.new ≡ seg_bytes (sizes_of shape.now) raw.now }
    ensures len { result ≤ encoded_limit (sizes_of shape.now) }

    // So there is no fault, the values are read back, and the tables are where a header can tell.
    ensures sound { seg_fault (take result out.new) (sizes_of shape.now) ≡ None }
    ensures read_back { (x y z c : ℕ) → InChunk (sizes_of shape.now) x y z → c < shape.now.channels →
        seg_at (take result out.new) (sizes_of shape.now) x y z c
        ≡ digit raw.now (width (sizes_of shape.now)) (num (sizes_of shape.now) x y z c) }
    ensures offsets { (c k : ℕ) → k < block_count (sizes_of shape.now) →
        table_place (sizes_of shape.now) raw.now c k < 2 ^ 24 }
    ensures scratch { sizes_for scratch.new ≡ sizes_for scratch.old }
{
    let channels = shape.channels as usize;
    let len = encode_channels(
        raw,
        shape,
        &mut scratch.singles,
        &mut scratch.room,
        &mut scratch.starts,
        out,
    );
    put_words(&mut out[..4 * channels], &scratch.starts[..channels]);
    len
}
