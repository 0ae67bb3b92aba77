//! Where a block's table is: known beforehand where blocks have one voxel, else found by the index of tables.
ghost use Rattle.std.specs.Prelude.{◌≡◌, ◌+◌, ◌*◌, ◌<◌, ◌^◌, ℕ, length, slice_index, IsTrue};
ghost use Rattle.equal_values.specs.Chains.{IsIndex};
ghost use Rattle.segment_blocks.specs.Singles.{KnowsSpots};
ghost use Rattle.segment_blocks.specs.Stored.{AreStored, hash_at, indexed};
ghost use Rattle.vol_spec.specs.SegBlocks.{block_count};
ghost use Rattle.vol_spec.specs.SegShapes.{sizes_of};
ghost use Rattle.vol_spec.specs.SegWritten.{packed_len, places, table_place, values_place};

use crate::hashes::is_same;
use crate::single::test_single;
use crate::word::find_width;
use equal_values::index::{Sought, add, find_equal};
use vol_spec::SegShape;

/// Block k of a channel, whose table is sought among those of the blocks before it; and where the tables are.
#[derive(Clone, Copy)]
pub(crate) struct Known<'a> {
    pub raw: &'a [u8],
    pub shape: &'a SegShape,
    pub c: u32,
    pub k: usize,
    pub bytes: &'a [u8],
    pub at: &'a [u32],
    pub lens: &'a [u32],
}

impl Sought for Known<'_> {
    ghost use Rattle.std.specs.Prelude.{◌+◌, ◌<◌, length};
    ghost use Rattle.segment_blocks.specs.Stored.{AreStored, hash_at, indexed};
    ghost use Rattle.vol_spec.specs.SegShapes.{sizes_of};
    ghost use Rattle.vol_spec.specs.SegWritten.{same, table};

    ghost number = { λ b. b.k };

    ghost home_of = { λ b. hash_at (sizes_of b.shape.now) b.raw.now b.c };

    ghost placed = { λ b. indexed (sizes_of b.shape.now) b.raw.now b.c };

    ghost equals = { λ b j. same (table (sizes_of b.shape.now) b.raw.now b.c j)
        (table (sizes_of b.shape.now) b.raw.now b.c b.k) };

    ghost ready = { λ b. AreStored (sizes_of b.shape.now) b.raw.now b.c b.bytes.now b.at.now b.lens.now
        (b.k + 1) × (b.k < length b.at.now) × (b.k < length b.lens.now) };

    fn is_equal(&self, j: usize) -> bool {
        is_same(
            self.bytes,
            self.at[j] as usize,
            self.lens[j] as usize,
            self.at[self.k] as usize,
            self.lens[self.k] as usize,
            find_width(self.shape.wide),
        )
    }
}

/// Where the table of block k is, in bytes from the channel's start: where that of the first block with an equal one is,
/// or behind the block's own indices.
pub(crate) fn locate_table(
    known: &Known,
    spots: &[u32],
    heads: &[u32],
    next: &[u32],
    hash: usize,
) -> u32
    requires spots { KnowsSpots (sizes_of known.now.shape.now) known.now.raw.now known.now.c spots.now }
    requires block { known.now.k < block_count (sizes_of known.now.shape.now) }
    requires stored { AreStored
        (sizes_of known.now.shape.now) known.now.raw.now known.now.c
        known.now.bytes.now known.now.at.now known.now.lens.now (known.now.k + 1) }
    requires before { (j : ℕ) → j < known.now.k → slice_index known.now.at.now j
        ≡ 4 * table_place (sizes_of known.now.shape.now) known.now.raw.now known.now.c j }
    requires here { slice_index known.now.at.now known.now.k
        ≡ 4 * (values_place (sizes_of known.now.shape.now) known.now.raw.now known.now.c known.now.k
        + packed_len (sizes_of known.now.shape.now) known.now.raw.now known.now.c known.now.k) }
    requires index { IsIndex (hash_at (sizes_of known.now.shape.now) known.now.raw.now known.now.c
        (length heads.now))
        (indexed
        (sizes_of known.now.shape.now) known.now.raw.now known.now.c) heads.now next.now known.now.k }
    requires hash { hash ≡ hash_at (sizes_of known.now.shape.now) known.now.raw.now known.now.c
        (length heads.now) known.now.k }
    requires heads { hash < length heads.now }
    requires next { known.now.k < length next.now }
    requires at { known.now.k < length known.now.at.now }
    requires lens { known.now.k < length known.now.lens.now }
    ensures { result
        ≡ 4 * table_place (sizes_of known.now.shape.now) known.now.raw.now known.now.c known.now.k }
{
    if test_single(known.shape) {
        return spots[known.k];
    }
    match find_equal(known, heads, next, hash) {
        Some(j) => known.at[j],
        None => known.at[known.k],
    }
}

/// Puts block k, whose table is written, into the index, where it is needed.
pub(crate) fn add_block(
    _raw: &[u8],
    shape: &SegShape,
    _c: u32,
    heads: &mut [u32],
    next: &mut [u32],
    hash: usize,
    k: usize,
)
    requires index { IsIndex (hash_at (sizes_of shape.now) _raw.now _c (length heads.old))
        (indexed (sizes_of shape.now) _raw.now _c) heads.old next.old k }
    requires some { 0 < length heads.old }
    requires hash { hash ≡ hash_at (sizes_of shape.now) _raw.now _c (length heads.old) k }
    requires heads { hash < length heads.old }
    requires next { k < length next.old }
    requires small { k + 1 < 2 ^ 32 }
    requires placed { IsTrue (places (sizes_of shape.now) _raw.now _c k) }
    ensures { IsIndex (hash_at (sizes_of shape.now) _raw.now _c (length heads.old))
        (indexed (sizes_of shape.now) _raw.now _c) heads.new next.new (k + 1) }
{
    if !test_single(shape) {
        add(heads, next, hash, k);
    }
}
