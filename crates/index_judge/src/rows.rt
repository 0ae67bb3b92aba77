//! All rows of an index, read by 1,024 at a time and judged in order.
ghost use Rattle.std.specs.Prelude.{◌≡◌, ◌≢◌, ◌+◌, ◌*◌, ◌<◌, ◌≤◌, ◌^◌, ℕ, length, Err, IfErr, OnOk};
ghost use Rattle.vol_base.specs.Calls.{ReadsFrom};
ghost use Rattle.vol_spec.specs.Rows.{Columns, columns_of};
ghost use Rattle.shard_reader.specs.Reading.{Holds, OnIndex};
ghost use Rattle.index_judge.specs.Judging.{IsPast, IsPlaced, Passes, Says, first_wrong_row};

use crate::JudgeFault;
use crate::row::judge_row;
use minishard::{Walk, read_number};
use shard_index::ShardPlace;
use shard_reader::{IndexSpan, read_numbers};
use vol_base::{Name, Source};
use vol_spec::Sharding;

// Judges the next rows of a walk, whose numbers stand in front of three columns.
fn judge_columns(
    walk: &mut Walk,
    count: usize,
    sharding: &Sharding,
    home: &ShardPlace,
    ids: &[u8],
    starts: &[u8],
    sizes: &[u8],
) -> Result<(), JudgeFault>
    requires rows { walk.old.rows + count ≤ 2 ^ 22 }
    requires ids { 8 * count ≤ length ids.now }
    requires starts { 8 * count ≤ length starts.now }
    requires sizes { 8 * count ≤ length sizes.now }
    ensures rows { OnOk result (walk.new.rows ≡ walk.old.rows + count) }
    ensures passes { (c : Columns) (n : ℕ) →
        IsPast c sharding.now home.now.shard home.now.minishard walk.old →
        Holds c walk.old.rows count ids.now starts.now sizes.now → walk.old.rows + count ≤ n →
        Passes c sharding.now home.now.shard home.now.minishard n result walk.new }
    ensures read { result ≢ Err JudgeFault.NotRead }
{
    for i in 0..count {
        let id = read_number(ids, i);
        let start = read_number(starts, i);
        let size = read_number(sizes, i);
        match judge_row(walk, sharding, home, id, start, size) {
            Ok(()) => {}
            Err(fault) => return Err(fault),
        }
    }
    Ok(())
}

/// Reads `count` rows of an index, from row `first` on, into the fronts of three columns.
pub fn read_rows<S: Source>(
    store: &mut S,
    name: &Name,
    span: &IndexSpan,
    first: u64,
    count: usize,
    ids: &mut [u8],
    starts: &mut [u8],
    sizes: &mut [u8],
) -> Result<(), JudgeFault>
    requires some { 0 < count }
    requires within { first + count ≤ span.now.rows }
    requires fits { span.now.at + 24 * span.now.rows < 2 ^ 64 }
    requires ids { 8 * count ≤ length ids.old }
    requires starts { 8 * count ≤ length starts.old }
    requires sizes { 8 * count ≤ length sizes.old }
    ensures read { OnOk result (OnIndex (S.objects store.old) name.now span.now.at span.now.rows (λ bytes.
        Holds (columns_of bytes) first count ids.new starts.new sizes.new)) }
    ensures whole { IfErr result (λ fault. OnIndex (S.objects store.old) name.now span.now.at span.now.rows
        (λ _. fault ≡ JudgeFault.NotRead)) }
    ensures placed { IsPlaced result }
    ensures asked { S.asked store.new ≤ S.asked store.old + 24 * count }
    ensures reads { ReadsFrom S.Source JudgeFault.NotRead store.old store.new result }
{
    read_numbers(store, name, span, first, count, ids)?;
    read_numbers(store, name, span, span.rows + first, count, starts)?;
    read_numbers(store, name, span, 2 * span.rows + first, count, sizes)?;
    Ok(())
}

// The most rows that are read at once, and the bytes of a column of so many.
const MOST_ROWS: u64 = 1024;

/// The bytes of 1,024 numbers.
pub const COLUMN_LEN: u64 = 8 * MOST_ROWS;

/// How many rows are read next, behind the first ones.
pub fn count_next(span: &IndexSpan, first: u64) -> usize
    requires { first < span.now.rows }
    ensures some { 0 < result }
    ensures within { first + result ≤ span.now.rows }
    ensures few { result ≤ 1024 }
{
    (span.rows - first).min(MOST_ROWS) as usize
}

/// Judges all rows of an index, from the first on, up to and with the first with which something is wrong:
/// a row that is at fault, or whose id belongs into another index. There is room for 1,024 numbers in each
/// column.
pub(crate) fn judge_rows<S: Source>(
    store: &mut S,
    name: &Name,
    span: &IndexSpan,
    sharding: &Sharding,
    home: &ShardPlace,
    ids: &mut [u8],
    starts: &mut [u8],
    sizes: &mut [u8],
) -> Result<(), JudgeFault>
    requires few { span.now.rows ≤ 2 ^ 22 }
    requires fits { span.now.at + 24 * span.now.rows < 2 ^ 64 }
    requires ids { length ids.old ≡ 8192 }
    requires starts { length starts.old ≡ 8192 }
    requires sizes { length sizes.old ≡ 8192 }
    ensures judged { OnIndex (S.objects store.old) name.now span.now.at span.now.rows (λ bytes.
        Says (first_wrong_row
        (columns_of bytes) sharding.now home.now.shard home.now.minishard span.now.rows) result) }
    ensures asked { S.asked store.new ≤ S.asked store.old + 24 * span.now.rows }
    ensures reads { ReadsFrom S.Source JudgeFault.NotRead store.old store.new result }
{
    let mut walk = Walk::new();
    while walk.rows() < span.rows {
        let first = walk.rows();
        let count = count_next(span, first);
        match read_rows(store, name, span, first, count, ids, starts, sizes) {
            Ok(()) => {}
            Err(fault) => return Err(fault),
        }
        match judge_columns(&mut walk, count, sharding, home, ids, starts, sizes) {
            Ok(()) => {}
            Err(fault) => return Err(fault),
        }
    }
    Ok(())
}
