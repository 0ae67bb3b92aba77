//! Judgements of an index of many rows.
ghost use Rattle.std.specs.Prelude.{◌≡◌, ◌≤◌, ◌<◌, ◌*◌, ◌+◌, ◌^◌, length, IfOk, Some};
ghost use Rattle.vol_base.specs.Memory.{seen};
ghost use Rattle.index_judge.specs.Knowing.{Knows};

use byteorder::{ByteOrder, LittleEndian};
use index_judge::{IndexJudge, JudgeFault};
use memory_rows::store_of;
use shard_index::ShardPlace;
use small_scales::short_name;
use std::alloc::{AllocError, Global};
use std::process::Abort;
use std::test::Fail;
use vol_base::{Fault, IndexFault, MemoryStore, Name};
use vol_spec::{ChunkSizes, Encoding, HashKind, Scale, Sharding, StoredScale};

// Two shards of two minishards each, by the lowest bits of the ids.
fn two_shards() -> Sharding
    ensures { (result.minishard_bits ≡ 1) × (result.shard_bits ≡ 1) }
{
    Sharding {
        preshift: 0,
        hash: HashKind::Identity,
        minishard_bits: 1,
        shard_bits: 1,
    }
}

// A scale of one voxel.
fn one_voxel(key: Name, sharding: Sharding) -> Scale
    requires { length key ≤ 200 }
    ensures { result.sharding ≡ Some sharding }
{
    Scale {
        key,
        width: 1,
        channels: 1,
        size: [1; 3],
        offset: [0; 3],
        chunk: [1; 3],
        encoding: Encoding::Raw,
        sharding: Some(sharding),
        more: ChunkSizes::none(),
    }
}

fn zeros(alloc: Global, len: usize) -> Result<Vec<u8>, AllocError>
    ensures { IfOk result (λ v. length v.items ≡ len) }
{
    vec![in alloc; 0u8; len]
}

// Rows of a byte each, without gaps, over zeros: ids 4, 8, 12 and so on. The id of row `odd` has `more` over the one before
// it.
fn put_rows(rows: usize, odd: usize, more: u64, out: &mut [u8])
    requires room { 24 * rows ≤ length out.old }
    requires few { rows < 2 ^ 20 }
{
    for r in 0..rows {
        LittleEndian::write_u64(&mut out[8 * r..], if r == odd { more } else { 4 });
        LittleEndian::write_u64(&mut out[8 * (2 * rows + r)..], 1);
    }
}

// A shard of two minishards: the first one has 2,500 rows, the second is empty.
fn many_rows(alloc: Global, odd: usize, more: u64) -> Result<Vec<u8>, AllocError> {
    let mut object = zeros(alloc, 62532)?;
    LittleEndian::write_u64(&mut object, 2500);
    LittleEndian::write_u64(&mut object[8..], 62500);
    put_rows(2500, odd, more, &mut object[2532..]);
    Ok(object)
}

// Judges an index: what is answered, and how many bytes were asked for by then.
fn check(
    rt: &impl Abort,
    judge: &mut IndexJudge,
    store: &mut MemoryStore,
    stored: &StoredScale,
    sharding: &Sharding,
    home: &ShardPlace,
    wanted: Result<(), JudgeFault>,
    asked: u64,
)
    requires sharding { stored.now.scale.sharding ≡ Some sharding.now }
    requires bits { (sharding.now.minishard_bits ≡ 1) × (sharding.now.shard_bits ≡ 1) }
    requires knows { Knows (Some (seen store.old).objects) stored.now.dataset stored.now.scale sharding.now judge.old }
    ensures { Knows (Some (seen store.new).objects) stored.now.dataset stored.now.scale sharding.now judge.new }
{
    assert!(rt; home.shard < 2 && home.minishard < 2);
    let found = judge.judge(store, stored, sharding, home);
    assert_eq!(rt; found, wanted);
    assert_eq!(rt; store.asked(), asked);
}

const FIRST: ShardPlace = ShardPlace {
    shard: 0,
    minishard: 0,
};

const SECOND: ShardPlace = ShardPlace {
    shard: 0,
    minishard: 1,
};

// Judges the first index twice and the second one once.
fn check_thrice(
    rt: &impl Abort,
    judge: &mut IndexJudge,
    store: &mut MemoryStore,
    stored: &StoredScale,
    sharding: &Sharding,
    wanted: Result<(), JudgeFault>,
    asked: [u64; 3],
)
    requires sharding { stored.now.scale.sharding ≡ Some sharding.now }
    requires bits { (sharding.now.minishard_bits ≡ 1) × (sharding.now.shard_bits ≡ 1) }
    requires knows { Knows (Some (seen store.old).objects) stored.now.dataset stored.now.scale sharding.now judge.old }
{
    let [once, twice, last] = asked;
    check(rt, judge, store, stored, sharding, &FIRST, wanted, once);
    check(rt, judge, store, stored, sharding, &FIRST, wanted, twice);
    check(rt, judge, store, stored, sharding, &SECOND, Ok(()), last);
}

// A store of a shard of many rows, of which row 2,300 has `more` over the one before it.
fn store_of_rows(alloc: Global, more: u64) -> Result<MemoryStore, Fail> {
    let shard = many_rows(alloc, 2300, more)?;
    store_of(alloc, &[("d/s/0.shard", shard.as_slice())], &[])
}

// Judges the first index twice and the second one once, where row 2,300 has `more` over the one before it.
fn check_rows(
    rt: &impl Abort,
    alloc: Global,
    more: u64,
    wanted: Result<(), JudgeFault>,
    asked: [u64; 3],
) -> Result<(), Fail> {
    let mut store = store_of_rows(alloc, more)?;
    let mut judge = IndexJudge::reserve(alloc)?;
    let dataset = short_name(b"d").expect(rt, "a data set");
    let key = short_name(b"s").expect(rt, "a key");
    let sharding = two_shards();
    let scale = one_voxel(key, sharding);
    let stored = StoredScale { dataset, scale };
    check_thrice(
        rt, &mut judge, &mut store, &stored, &sharding, wanted, asked,
    );
    Ok(())
}

fn misplaced(id: u64) -> Result<(), JudgeFault> {
    Err(JudgeFault::Misplaced {
        shard: 0,
        minishard: 0,
        id,
    })
}

#[test]
fn judges_many_rows(rt: HostRuntime) -> Result<(), Fail> {
    let alloc = rt.alloc();
    // An index that is sound is read once, and then remembered.
    check_rows(&rt, alloc, 4, Ok(()), [60016, 60016, 60032])?;
    let bad_id = JudgeFault::Damaged(Fault::Index(IndexFault::BadId { row: 2300 }));
    let again = [60016, 120032, 120048];
    check_rows(&rt, alloc, 0, Err(bad_id), again)?;
    // Into the other minishard, and into the other shard.
    check_rows(&rt, alloc, 5, misplaced(9205), again)?;
    check_rows(&rt, alloc, 6, misplaced(9206), again)
}
