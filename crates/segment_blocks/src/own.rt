//! Whether a chunk is spelled as this writer spells it.
ghost use Rattle.std.specs.Prelude.{List, ◌≡◌, ◌≢◌, ◌+◌, ◌*◌, ◌/◌, ◌<◌, ◌≤◌, ◌^◌, ◌%◌, ℕ, length, slice_index, slice_set, take, drop, IsTrue, IfSome, false, not, None, nat_lt, ◌&&◌, if◌then◌else◌};
ghost use Rattle.vol_base.specs.Bytes.{AreBytes};
ghost use Rattle.vol_spec.specs.Raw.{digit};
ghost use Rattle.vol_spec.specs.SegBlocks.{InChunk, block, block_count, block_voxels, in_chunk, num, packed_words, raw_len, width};
ghost use Rattle.vol_spec.specs.SegChunks.{bits, seg_at, start, table_at, values_at, word};
ghost use Rattle.vol_spec.specs.SegFaults.{is_allowed, seg_fault};
ghost use Rattle.vol_spec.specs.SegShapes.{sizes_of};
ghost use Rattle.vol_spec.specs.SegSizes.{encoded_limit, padded_in, width_of};
ghost use Rattle.vol_spec.specs.SegWritten as seg;
ghost use Rattle.vol_spec.specs.SegWritten.{block_bits, channel_bytes, channel_start, packed_len, seg_bytes, values_place};
ghost use Rattle.segment_blocks.specs.Located.{IsBlock};
ghost use Rattle.segment_blocks.specs.Own.{IsOwn};
ghost use Rattle.segment_blocks.specs.Reserved.{sizes_for};
ghost use Rattle.segment_blocks.specs.Rooms.{IsRoom, SameRoom, Serves};
ghost use Rattle.segment_blocks.specs.Row.{index_in};
ghost use Rattle.segment_blocks.specs.Said.{said};
ghost use Rattle.segment_blocks.specs.Shape.{padded};
ghost use Rattle.segment_blocks.specs.Singles.{is_single};
ghost use Rattle.equal_values.specs.Chains.{IsIndex};
ghost use Rattle.segment_blocks.specs.Stored.{AreStored, Candidate, HasTables, hash_at, indexed};
ghost use Rattle.segment_blocks.specs.Walked.{HasIndices, IsSpelled, IsWalked, Noted};

use crate::block::Block;
use crate::hashes::{hash_table, is_same};
use crate::header::{count_words, read_header};
use crate::locate::{count_blocks, find_block, get_block};
use crate::pack::find_bits;
use crate::reading::test_length;
use crate::room::Room;
use crate::row::read_index;
use crate::scratch::Scratch;
use crate::single::{fill_values, test_single};
use crate::word::{find_width, read_word};
use equal_values::index::{Sought, add, clear, find_equal};
use vol_spec::SegShape;

/// Law: a chunk as this writer spells it is no longer than any that it writes, there is no fault of it, and all values
/// that it says have this chunk.
pub fn own_again(_shape: &SegShape, _chunk: &[u8])
    requires own { IsOwn (sizes_of _shape.now) _chunk.now }
    requires limit { padded_in (sizes_of _shape.now) ≤ 2 ^ 22 }
    ensures len { length _chunk.now ≤ encoded_limit (sizes_of _shape.now) }
    ensures sound { seg_fault _chunk.now (sizes_of _shape.now) ≡ None }
    ensures again { (raw : List ℕ) → AreBytes raw → length raw ≡ raw_len (sizes_of _shape.now) →
        ((x y z c : ℕ) → InChunk (sizes_of _shape.now) x y z → c < _shape.now.channels →
        digit raw (width (sizes_of _shape.now)) (num (sizes_of _shape.now) x y z c)
        ≡ seg_at _chunk.now (sizes_of _shape.now) x y z c) →
        seg_bytes (sizes_of _shape.now) raw ≡ _chunk.now }
{}

/// Block k of a channel, whose table is sought among those of the blocks before it; and where the tables are.
#[derive(Clone, Copy)]
pub(crate) struct Spelled<'a> {
    pub chunk: &'a [u8],
    pub shape: &'a SegShape,
    pub c: u32,
    pub k: usize,
    pub channel: &'a [u8],
    pub at: &'a [u32],
    pub lens: &'a [u32],
}

impl Sought for Spelled<'_> {
    ghost use Rattle.std.specs.Prelude.{◌+◌, ◌<◌, length};
    ghost use Rattle.segment_blocks.specs.Said.{said};
    ghost use Rattle.segment_blocks.specs.Stored.{AreStored, hash_at, indexed};
    ghost use Rattle.vol_spec.specs.SegShapes.{sizes_of};
    ghost use Rattle.vol_spec.specs.SegWritten.{same, table};

    ghost number = { λ b. b.k };

    ghost home_of = { λ b. hash_at (sizes_of b.shape.now) (said (sizes_of b.shape.now) b.chunk.now) b.c };

    ghost placed = { λ b. indexed (sizes_of b.shape.now) (said (sizes_of b.shape.now) b.chunk.now) b.c };

    ghost equals = { λ b j. same (table (sizes_of b.shape.now) (said (sizes_of b.shape.now) b.chunk.now) b.c j)
        (table (sizes_of b.shape.now) (said (sizes_of b.shape.now) b.chunk.now) b.c b.k) };

    ghost ready = { λ b. AreStored (sizes_of b.shape.now) (said (sizes_of b.shape.now) b.chunk.now) b.c
        b.channel.now b.at.now b.lens.now (b.k + 1) × (b.k < length b.at.now) × (b.k < length b.lens.now) };

    fn is_equal(&self, j: usize) -> bool {
        is_same(
            self.channel,
            self.at[j] as usize,
            self.lens[j] as usize,
            self.at[self.k] as usize,
            self.lens[self.k] as usize,
            find_width(self.shape.wide),
        )
    }
}

// Whether the values ascend, no two of them equal.
fn test_rises(values: &[u64]) -> bool
    ensures { IsTrue result → (i j : ℕ) → i < j → j < length values.now →
        slice_index values.now i < slice_index values.now j }
{
    for i in 1..values.len() {
        if values[i] <= values[i - 1] {
            return false;
        }
    }
    true
}

// Whether the voxel n of a block is among those that count.
fn test_counts(b: &Block, n: usize) -> bool
    requires x { 0 < b.now.block_x }
    requires y { 0 < b.now.block_y }
    ensures { result ≡ (nat_lt (n % b.now.block_x) b.now.count_x
        && nat_lt (n / b.now.block_x % b.now.block_y) b.now.count_y
        && nat_lt (n / b.now.block_x / b.now.block_y) b.now.count_z) }
{
    n % b.block_x < b.count_x
        && n / b.block_x % b.block_y < b.count_y
        && n / b.block_x / b.block_y < b.count_z
}

// Whether the voxel n of a block is in the chunk.
fn test_inside(_shape: &SegShape, _c: u32, _k: usize, b: &Block, n: usize) -> bool
    requires block { _k < block_count (sizes_of _shape.now) }
    requires is { IsBlock (sizes_of _shape.now) _c _k b.now }
    requires n { n < block_voxels (sizes_of _shape.now) }
    ensures { result ≡ in_chunk (sizes_of _shape.now) _k n }
{
    test_counts(b, n)
}

// Marks the place of an index, which a voxel in the chunk has among the marks; padding has 0.
fn note_index(index: usize, inside: bool, marks: &mut [u64]) -> bool
    ensures marked { IsTrue result → marks.new ≡ (if inside then slice_set marks.old index 1 else marks.old) }
    ensures below { IsTrue result → IsTrue inside → index < length marks.old }
    ensures padding { IsTrue result → inside ≡ false → index ≡ 0 }
{
    if !inside {
        return index == 0;
    }
    if index >= marks.len() {
        return false;
    }
    marks[index] = 1;
    true
}

// Marks the places of the indices of a block, which is whole in the chunk.
fn note_whole(
    values: &[u8],
    bits: u32,
    _shape: &SegShape,
    _k: usize,
    n: usize,
    marks: &mut [u64],
) -> bool
    requires bits { IsTrue (is_allowed bits) }
    requires some { 0 < bits }
    requires n { n ≡ block_voxels (sizes_of _shape.now) }
    requires within { 4 * packed_words bits n ≤ length values.now }
    requires clear { (i : ℕ) → slice_index marks.old i ≡ 0 }
    requires whole { (m : ℕ) → m < n → IsTrue (in_chunk (sizes_of _shape.now) _k m) }
    ensures noted { IsTrue result → Noted (in_chunk (sizes_of _shape.now) _k) (index_in values.now bits) marks.new n }
    ensures marks { length marks.new ≡ length marks.old }
{
    for m in 0..n {
        if !note_index(read_index(values, bits, m) as usize, true, marks) {
            return false;
        }
    }
    true
}

// The same for a block that the chunk may clip.
fn note_clipped(
    values: &[u8],
    bits: u32,
    shape: &SegShape,
    c: u32,
    k: usize,
    b: &Block,
    marks: &mut [u64],
) -> bool
    requires bits { IsTrue (is_allowed bits) }
    requires some { 0 < bits }
    requires block { k < block_count (sizes_of shape.now) }
    requires is { IsBlock (sizes_of shape.now) c k b.now }
    requires within { 4 * packed_words bits (block_voxels (sizes_of shape.now)) ≤ length values.now }
    requires clear { (i : ℕ) → slice_index marks.old i ≡ 0 }
    ensures noted { IsTrue result → Noted (in_chunk (sizes_of shape.now) k) (index_in values.now bits) marks.new
        (block_voxels (sizes_of shape.now)) }
    ensures marks { length marks.new ≡ length marks.old }
{
    for m in 0..b.indices {
        let inside = test_inside(shape, c, k, b, m);
        if !note_index(read_index(values, bits, m) as usize, inside, marks) {
            return false;
        }
    }
    true
}

// Whether each place is marked.
fn test_marks(marks: &[u64]) -> bool
    ensures { IsTrue result → (i : ℕ) → i < length marks.now → slice_index marks.now i ≢ 0 }
{
    for i in 0..marks.len() {
        if marks[i] == 0 {
            return false;
        }
    }
    true
}

// Whether the indices behind n of them are 0, as far as so many words go.
fn test_rest(values: &[u8], bits: u32, n: usize, words: usize) -> bool
    requires bits { IsTrue (is_allowed bits) }
    requires some { 0 < bits }
    requires small { words < 2 ^ 26 }
    requires within { 4 * words ≤ length values.now }
    ensures { IsTrue result → (m : ℕ) → n ≤ m → m * bits < 32 * words → index_in values.now bits m ≡ 0 }
{
    for m in n..32 * words / bits as usize {
        if read_index(values, bits, m) != 0 {
            return false;
        }
    }
    true
}

fn clear_marks(marks: &mut [u64])
    ensures { (i : ℕ) → slice_index marks.new i ≡ 0 }
{
    marks.fill(0);
}

// Whether a block isn't clipped.
fn test_whole(shape: &SegShape, b: &Block) -> bool
    ensures { IsTrue result → (block (sizes_of shape.now) 0 ≤ b.now.count_x)
        × (block (sizes_of shape.now) 1 ≤ b.now.count_y) × (block (sizes_of shape.now) 2 ≤ b.now.count_z) }
{
    get_block(shape, 0) <= b.count_x
        && get_block(shape, 1) <= b.count_y
        && get_block(shape, 2) <= b.count_z
}

// Marks the places of the indices of a block.
fn note_block(
    values: &[u8],
    bits: u32,
    shape: &SegShape,
    c: u32,
    k: usize,
    b: &Block,
    marks: &mut [u64],
) -> bool
    requires bits { IsTrue (is_allowed bits) }
    requires some { 0 < bits }
    requires block { k < block_count (sizes_of shape.now) }
    requires is { IsBlock (sizes_of shape.now) c k b.now }
    requires within { 4 * packed_words bits (block_voxels (sizes_of shape.now)) ≤ length values.now }
    requires clear { (i : ℕ) → slice_index marks.old i ≡ 0 }
    ensures noted { IsTrue result → Noted (in_chunk (sizes_of shape.now) k) (index_in values.now bits) marks.new
        (block_voxels (sizes_of shape.now)) }
    ensures marks { length marks.new ≡ length marks.old }
{
    if test_whole(shape, b) {
        note_whole(values, bits, shape, k, b.indices, marks)
    } else {
        note_clipped(values, bits, shape, c, k, b, marks)
    }
}

// Whether the indices of a block, of some bits each, are those of a table of as many entries as there are marks.
fn test_packed(
    values: &[u8],
    bits: u32,
    shape: &SegShape,
    c: u32,
    k: usize,
    b: &Block,
    marks: &mut [u64],
) -> bool
    requires bits { IsTrue (is_allowed bits) }
    requires some { 0 < bits }
    requires block { k < block_count (sizes_of shape.now) }
    requires is { IsBlock (sizes_of shape.now) c k b.now }
    requires within { 4 * packed_words bits (block_voxels (sizes_of shape.now)) ≤ length values.now }
    ensures { IsTrue result → HasIndices (sizes_of shape.now) k bits (length marks.old) values.now }
{
    clear_marks(marks);
    if !note_block(values, bits, shape, c, k, b, marks) {
        return false;
    }
    if !test_marks(marks) {
        return false;
    }
    test_rest(values, bits, b.indices, count_words(bits, b.indices))
}

// The same for any bits: of no bits all indices are 0.
fn test_indices(
    values: &[u8],
    bits: u32,
    shape: &SegShape,
    c: u32,
    k: usize,
    b: &Block,
    marks: &mut [u64],
) -> bool
    requires bits { IsTrue (is_allowed bits) }
    requires block { k < block_count (sizes_of shape.now) }
    requires is { IsBlock (sizes_of shape.now) c k b.now }
    requires within { 4 * packed_words bits (block_voxels (sizes_of shape.now)) ≤ length values.now }
    requires marks { 0 < length marks.old }
    ensures { IsTrue result → HasIndices (sizes_of shape.now) k bits (length marks.old) values.now }
{
    if bits == 0 {
        marks.len() == 1
    } else {
        test_packed(values, bits, shape, c, k, b, marks)
    }
}

// Where the table that begins at a word would end in this writer's spelling, both counted from the channel's start: where
// the next block's indices begin behind the last block whose indices don't begin behind the table.
fn guess_end(channel: &[u8], k: usize, blocks: usize, table: usize, end: usize) -> usize
    requires block { k < blocks }
    requires small { blocks ≤ 2 ^ 24 }
    requires headers { 8 * blocks ≤ length channel.now }
{
    let mut low = 0usize;
    let mut high = k + 1;
    while low + 1 < high {
        let middle = low + (high - low) / 2;
        if read_word(channel, 2 * middle + 1) as usize <= table {
            low = middle;
        } else {
            high = middle;
        }
    }
    if high < blocks {
        read_word(channel, 2 * high + 1) as usize
    } else {
        end
    }
}

// How many entries the table at a word has in this writer's spelling.
fn guess_entries(
    channel: &[u8],
    wide: bool,
    k: usize,
    blocks: usize,
    table: usize,
    end: usize,
) -> usize
    requires block { k < blocks }
    requires small { blocks ≤ 2 ^ 24 }
    requires headers { 8 * blocks ≤ length channel.now }
{
    let words = guess_end(channel, k, blocks, table, end).saturating_sub(table);
    if wide { words / 2 } else { words }
}

// So many values from a byte on, in front of `table`.
fn read_table(channel: &[u8], from: usize, wide: bool, table: &mut [u64], entries: usize)
    requires within { from + width_of wide * entries ≤ length channel.now }
    requires room { entries ≤ length table.old }
    ensures { (i : ℕ) → i < entries → slice_index (take entries table.new) i
        ≡ digit (drop from channel.now) (width_of wide) i }
{
    fill_values(&channel[from..], 0, wide, &mut table[..entries]);
}

// Whether the table of so many entries from a byte on ascends, and the indices of block k from another on are its own.
fn test_entries(
    channel: &[u8],
    bits: u32,
    shape: &SegShape,
    c: u32,
    k: usize,
    b: &Block,
    at: usize,
    from: usize,
    entries: usize,
    marks: &mut [u64],
    table: &mut [u64],
) -> bool
    requires bits { IsTrue (is_allowed bits) }
    requires block { k < block_count (sizes_of shape.now) }
    requires is { IsBlock (sizes_of shape.now) c k b.now }
    requires indices { at + 4 * packed_words bits (block_voxels (sizes_of shape.now)) ≤ length channel.now }
    requires table { from + width_of shape.now.wide * entries ≤ length channel.now }
    requires some { 0 < entries }
    requires marks { entries ≤ length marks.old }
    requires room { entries ≤ length table.old }
    ensures rises { IsTrue result → (i j : ℕ) → i < j → j < length (take entries table.new) →
        slice_index (take entries table.new) i < slice_index (take entries table.new) j }
    ensures entries { IsTrue result → (i : ℕ) → i < entries → slice_index (take entries table.new) i
        ≡ digit (drop from channel.now) (width_of shape.now.wide) i }
    ensures indices { IsTrue result → HasIndices (sizes_of shape.now) k bits entries (drop at channel.now) }
{
    read_table(channel, from, shape.wide, table, entries);
    if !test_rises(&table[..entries]) {
        return false;
    }
    test_indices(&channel[at..], bits, shape, c, k, b, &mut marks[..entries])
}

/// Where a block's indices end and where its table is, in bytes from the channel's start, and how many entries that has.
#[derive(Clone, Copy)]
pub(crate) struct Read {
    pub indices: usize,
    pub table: usize,
    pub entries: usize,
}

// The table of block k, as its header tells it, in front of `table`; `None` where the block isn't as it is written.
fn read_block(
    chunk: &[u8],
    shape: &SegShape,
    c: u32,
    k: usize,
    channel: &[u8],
    blocks: usize,
    end: usize,
    at: usize,
    marks: &mut [u64],
    table: &mut [u64],
) -> Option<Read>
    requires block { k < block_count (sizes_of shape.now) }
    requires channel { c < shape.now.channels }
    requires blocks { blocks ≡ block_count (sizes_of shape.now) }
    requires starts { 4 * shape.now.channels ≤ length chunk.now }
    requires is { channel.now ≡ drop (4 * start chunk.now c) chunk.now }
    requires headers { 8 * blocks ≤ length channel.now }
    requires at { at < 2 ^ 40 }
    requires whole { at % 4 ≡ 0 }
    requires marks { length marks.old ≡ block_voxels (sizes_of shape.now) }
    requires table { length table.old ≡ block_voxels (sizes_of shape.now) }
    ensures spelled { IfSome result (λ r. IsSpelled
        (sizes_of shape.now) (said (sizes_of shape.now) chunk.now) c channel.now k at r.table r.entries) }
    ensures indices { IfSome result (λ r. r.indices
        ≡ at + 4 * packed_len (sizes_of shape.now) (said (sizes_of shape.now) chunk.now) c k) }
    ensures table { IfSome result (λ r. take r.entries table.new
        ≡ seg.table (sizes_of shape.now) (said (sizes_of shape.now) chunk.now) c k) }
    ensures values { IfSome result (λ r. 4 * values_at chunk.now c k ≡ at) }
    ensures place { IfSome result (λ r. r.table ≡ 4 * table_at chunk.now c k) }
    ensures bits { IfSome result (λ r. bits chunk.now c k
        ≡ block_bits (sizes_of shape.now) (said (sizes_of shape.now) chunk.now) c k) }
{
    let from = read_word(chunk, c as usize) as usize;
    let header = read_header(chunk, c as usize, k);
    if header.values != from + at / 4 {
        return None;
    }
    let begin = header.table - from;
    let b = find_block(shape, c as usize, k);
    let entries = guess_entries(channel, shape.wide, k, blocks, begin, end);
    if entries == 0 {
        return None;
    }
    if entries > b.indices {
        return None;
    }
    if find_bits(entries) != header.bits {
        return None;
    }
    let indices = at + 4 * count_words(header.bits, b.indices);
    if indices > channel.len() {
        return None;
    }
    let width = find_width(shape.wide);
    if 4 * begin + width * entries > channel.len() {
        return None;
    }
    if !test_entries(
        channel,
        header.bits,
        shape,
        c,
        k,
        &b,
        at,
        4 * begin,
        entries,
        marks,
        table,
    ) {
        return None;
    }
    Some(Read {
        indices,
        table: 4 * begin,
        entries,
    })
}

// The first block before block k that has its table.
fn find_same(spelled: &Spelled, heads: &[u32], next: &[u32], hash: usize) -> Option<usize>
    requires several { is_single (sizes_of spelled.now.shape.now) ≡ false }
    requires stored { AreStored
        (sizes_of spelled.now.shape.now)
        (said (sizes_of spelled.now.shape.now) spelled.now.chunk.now) spelled.now.c
        spelled.now.channel.now spelled.now.at.now spelled.now.lens.now (spelled.now.k + 1) }
    requires index { IsIndex (hash_at
        (sizes_of spelled.now.shape.now)
        (said (sizes_of spelled.now.shape.now) spelled.now.chunk.now) spelled.now.c (length heads.now))
        (indexed
        (sizes_of spelled.now.shape.now)
        (said (sizes_of spelled.now.shape.now) spelled.now.chunk.now) spelled.now.c) heads.now next.now spelled.now.k }
    requires hash { hash ≡ hash_at
        (sizes_of spelled.now.shape.now)
        (said (sizes_of spelled.now.shape.now) spelled.now.chunk.now) spelled.now.c
        (length heads.now) spelled.now.k }
    requires heads { hash < length heads.now }
    requires next { spelled.now.k < length next.now }
    requires at { spelled.now.k < length spelled.now.at.now }
    requires lens { spelled.now.k < length spelled.now.lens.now }
    ensures before { IfSome result (λ j. j < spelled.now.k) }
    ensures placed { IfSome result (λ j. IsTrue (seg.places
        (sizes_of spelled.now.shape.now)
        (said (sizes_of spelled.now.shape.now) spelled.now.chunk.now) spelled.now.c j)) }
    ensures same { IfSome result (λ j. IsTrue (seg.same
        (seg.table
        (sizes_of spelled.now.shape.now)
        (said (sizes_of spelled.now.shape.now) spelled.now.chunk.now) spelled.now.c j)
        (seg.table
        (sizes_of spelled.now.shape.now)
        (said (sizes_of spelled.now.shape.now) spelled.now.chunk.now) spelled.now.c spelled.now.k))) }
    ensures none { result ≡ None → seg.owner
        (sizes_of spelled.now.shape.now)
        (said (sizes_of spelled.now.shape.now) spelled.now.chunk.now) spelled.now.c spelled.now.k ≡ spelled.now.k }
{
    match find_equal(spelled, heads, next, hash) {
        Some(j) => Some(j),
        None => None,
    }
}

// Puts block k, which no earlier one has the table of, into the index.
fn add_spelled(
    _chunk: &[u8],
    _shape: &SegShape,
    _c: u32,
    heads: &mut [u32],
    next: &mut [u32],
    hash: usize,
    k: usize,
)
    requires several { is_single (sizes_of _shape.now) ≡ false }
    requires index { IsIndex (hash_at
        (sizes_of _shape.now) (said (sizes_of _shape.now) _chunk.now) _c (length heads.old))
        (indexed
        (sizes_of _shape.now) (said (sizes_of _shape.now) _chunk.now) _c) heads.old next.old k }
    requires some { 0 < length heads.old }
    requires hash { hash ≡ hash_at
        (sizes_of _shape.now) (said (sizes_of _shape.now) _chunk.now) _c (length heads.old) k }
    requires heads { hash < length heads.old }
    requires next { k < length next.old }
    requires small { k + 1 < 2 ^ 32 }
    requires placed { seg.owner (sizes_of _shape.now) (said (sizes_of _shape.now) _chunk.now) _c k ≡ k }
    ensures { IsIndex (hash_at
        (sizes_of _shape.now) (said (sizes_of _shape.now) _chunk.now) _c (length heads.old))
        (indexed
        (sizes_of _shape.now) (said (sizes_of _shape.now) _chunk.now) _c) heads.new next.new (k + 1) }
{
    add(heads, next, hash, k);
}

// Whether the table of block k is where it would be written: where the one of an earlier block with an equal table is, or
// behind the block's own indices. Tells where the next block begins.
fn place_block(
    chunk: &[u8],
    shape: &SegShape,
    c: u32,
    k: usize,
    channel: &[u8],
    room: &mut Room,
    read: Read,
) -> Option<usize>
    requires several { is_single (sizes_of shape.now) ≡ false }
    requires block { k < block_count (sizes_of shape.now) }
    requires channel { c < shape.now.channels }
    requires room { IsRoom (sizes_of shape.now) room.old }
    requires limit { padded (sizes_of shape.now) ≤ 2 ^ 22 }
    requires tables { HasTables
        (sizes_of shape.now) (said (sizes_of shape.now) chunk.now) c channel.now
        room.old.at.items room.old.lens.items room.old.heads.items room.old.next.items k }
    requires candidate { Candidate
        (sizes_of shape.now) (said (sizes_of shape.now) chunk.now) c channel.now k read.table read.entries }
    requires indices { read.indices
        ≡ 4 * (values_place (sizes_of shape.now) (said (sizes_of shape.now) chunk.now) c k
        + packed_len (sizes_of shape.now) (said (sizes_of shape.now) chunk.now) c k) }
    requires table { take read.entries room.old.table.items
        ≡ seg.table (sizes_of shape.now) (said (sizes_of shape.now) chunk.now) c k }
    requires small { read.table < 2 ^ 32 }
    ensures at { IfSome result (λ next. next
        ≡ 4 * values_place (sizes_of shape.now) (said (sizes_of shape.now) chunk.now) c (k + 1)) }
    ensures spot { IfSome result (λ next. read.table
        ≡ 4 * seg.table_place (sizes_of shape.now) (said (sizes_of shape.now) chunk.now) c k) }
    ensures tables { IfSome result (λ next. HasTables
        (sizes_of shape.now) (said (sizes_of shape.now) chunk.now) c channel.now
        room.new.at.items room.new.lens.items room.new.heads.items room.new.next.items (k + 1)) }
    ensures same { SameRoom room.old room.new }
{
    let hash = hash_table(&room.table[..read.entries], room.heads.len());
    room.at[k] = read.table as u32;
    room.lens[k] = read.entries as u32;
    let spelled = Spelled {
        chunk,
        shape,
        c,
        k,
        channel,
        at: &room.at,
        lens: &room.lens,
    };
    match find_same(&spelled, &room.heads, &room.next, hash) {
        Some(j) => {
            if room.at[j] as usize != read.table {
                return None;
            }
            Some(read.indices)
        }
        None => {
            if read.table != read.indices {
                return None;
            }
            add_spelled(chunk, shape, c, &mut room.heads, &mut room.next, hash, k);
            Some(read.indices + find_width(shape.wide) * read.entries)
        }
    }
}

// Whether block k is as it is written, behind those before it, up to `at`; tells where the next one begins.
fn walk_block(
    chunk: &[u8],
    shape: &SegShape,
    c: u32,
    k: usize,
    channel: &[u8],
    blocks: usize,
    end: usize,
    room: &mut Room,
    at: usize,
) -> Option<usize>
    requires several { is_single (sizes_of shape.now) ≡ false }
    requires block { k < block_count (sizes_of shape.now) }
    requires channel { c < shape.now.channels }
    requires blocks { blocks ≡ block_count (sizes_of shape.now) }
    requires starts { 4 * shape.now.channels ≤ length chunk.now }
    requires is { channel.now ≡ drop (4 * start chunk.now c) chunk.now }
    requires headers { 8 * blocks ≤ length channel.now }
    requires room { IsRoom (sizes_of shape.now) room.old }
    requires limit { padded (sizes_of shape.now) ≤ 2 ^ 22 }
    requires walked { IsWalked
        (sizes_of shape.now) (said (sizes_of shape.now) chunk.now) c channel.now room.old k }
    requires at { at ≡ 4 * values_place (sizes_of shape.now) (said (sizes_of shape.now) chunk.now) c k }
    ensures at { IfSome result (λ next. next
        ≡ 4 * values_place (sizes_of shape.now) (said (sizes_of shape.now) chunk.now) c (k + 1)) }
    ensures walked { IfSome result (λ next. IsWalked
        (sizes_of shape.now) (said (sizes_of shape.now) chunk.now) c channel.now room.new (k + 1)) }
    ensures same { SameRoom room.old room.new }
{
    let read = match read_block(
        chunk,
        shape,
        c,
        k,
        channel,
        blocks,
        end,
        at,
        &mut room.voxels,
        &mut room.table,
    ) {
        Some(read) => read,
        None => return None,
    };
    match place_block(chunk, shape, c, k, channel, room, read) {
        Some(next) => Some(next),
        None => None,
    }
}

// The same for the blocks of channel c, in front of `channel`, which ends at a word if the chunk is this writer's; tells
// the channel's length.
fn walk_channel(
    chunk: &[u8],
    shape: &SegShape,
    c: u32,
    channel: &[u8],
    end: usize,
    room: &mut Room,
) -> Option<usize>
    requires several { is_single (sizes_of shape.now) ≡ false }
    requires channel { c < shape.now.channels }
    requires starts { 4 * shape.now.channels ≤ length chunk.now }
    requires is { channel.now ≡ drop (4 * start chunk.now c) chunk.now }
    requires room { IsRoom (sizes_of shape.now) room.old }
    requires limit { padded (sizes_of shape.now) ≤ 2 ^ 22 }
    ensures len { IfSome result (λ n. n
        ≡ 4 * values_place
        (sizes_of shape.now)
        (said (sizes_of shape.now) chunk.now) c (block_count (sizes_of shape.now))) }
    ensures bytes { IfSome result (λ n. take n channel.now
        ≡ channel_bytes (sizes_of shape.now) (said (sizes_of shape.now) chunk.now) c) }
    ensures same { SameRoom room.old room.new }
{
    let blocks = count_blocks(shape);
    if channel.len() < 8 * blocks {
        return None;
    }
    clear(&mut room.heads);
    let mut at = 8 * blocks;
    for k in 0..blocks {
        match walk_block(chunk, shape, c, k, channel, blocks, end, room, at) {
            Some(next) => at = next,
            None => return None,
        }
    }
    Some(at)
}

// The word at which channel c ends, from its start, where that is a word.
fn find_end(chunk: &[u8], shape: &SegShape, c: u32, start: usize) -> usize
    requires channel { c < shape.now.channels }
    requires starts { 4 * shape.now.channels ≤ length chunk.now }
{
    let end = if c + 1 < shape.channels {
        read_word(chunk, c as usize + 1) as usize
    } else {
        chunk.len() / 4
    };
    end.saturating_sub(start)
}

// Whether all channels are as they are written.
fn walk_channels(chunk: &[u8], shape: &SegShape, room: &mut Room) -> bool
    requires several { is_single (sizes_of shape.now) ≡ false }
    requires starts { 4 * shape.now.channels ≤ length chunk.now }
    requires room { IsRoom (sizes_of shape.now) room.old }
    requires limit { padded (sizes_of shape.now) * shape.now.channels ≤ 2 ^ 22 }
    ensures own { IsTrue result → chunk.now ≡ seg_bytes (sizes_of shape.now) (said (sizes_of shape.now) chunk.now) }
    ensures same { SameRoom room.old room.new }
{
    let mut at = 4 * shape.channels as usize;
    for c in 0..shape.channels {
        if chunk.len() < at {
            return false;
        }
        if read_word(chunk, c as usize) as usize != at / 4 {
            return false;
        }
        let end = find_end(chunk, shape, c, at / 4);
        match walk_channel(chunk, shape, c, &chunk[at..], end, room) {
            Some(len) => at += len,
            None => return false,
        }
    }
    at == chunk.len()
}

/// Whether a chunk is surely spelled as this writer spells the values that it holds: `encode` of these gives the very
/// bytes. Of chunks in blocks of one voxel it isn't told.
pub fn is_own_spelling(chunk: &[u8], shape: &SegShape, scratch: &mut Scratch) -> bool
    requires limit { padded_in (sizes_of shape.now) ≤ 2 ^ 22 }
    requires scratch { Serves (sizes_for scratch.old) (sizes_of shape.now) }
    ensures own { IsTrue result → IsOwn (sizes_of shape.now) chunk.now }
    ensures scratch { sizes_for scratch.new ≡ sizes_for scratch.old }
{
    if test_single(shape) {
        return false;
    }
    if test_length(chunk.len(), shape.channels) {
        return false;
    }
    walk_channels(chunk, shape, &mut scratch.room)
}
