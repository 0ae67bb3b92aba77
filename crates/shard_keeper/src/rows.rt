//! All rows of an index, read by 1,024 at a time, judged in order, and their ids kept where they belong there.
ghost use Rattle.std.specs.Prelude.{◌≡◌, ◌≢◌, ◌+◌, ◌*◌, ◌<◌, ◌≤◌, ◌^◌, ◌++◌, ◌∷◌, [], ℕ, List, length, Err, IfErr, OnOk, Some, if◌then◌else◌, ⊤};
ghost use Rattle.vol_base.specs.Calls.{ReadsFrom};
ghost use Rattle.vol_base.specs.declared.faults.Fault.{Fault};
ghost use Rattle.vol_spec.specs.Rows.{Columns, columns_of, judged_row};
ghost use Rattle.vol_spec.specs.Verdicts.{belongs};
ghost use Rattle.minishard.specs.Walks.{IsStored, IsWalked};
ghost use Rattle.shard_reader.specs.Reading.{Holds, OnIndex};
ghost use Rattle.update_laws.specs.Kept.{row_fault};
ghost use Rattle.index_judge.specs.Judging.{IsPlaced};
ghost use Rattle.shard_keeper.specs.Keeping.{Adds, HasAdded, HasKept, Keeps, KeepsRows};

use crate::KeepFault;
use index_judge::{JudgeFault, count_next, is_at_home, read_rows};
use minishard::{Walk, read_number};
use shard_index::ShardPlace;
use shard_reader::IndexSpan;
use std::alloc::AllocError;
use vol_base::{Fault, Name, Source};
use vol_spec::Sharding;

/// Why an index wasn't read, where no row was judged.
pub(crate) fn keep_fault(fault: JudgeFault) -> KeepFault
    requires { IsPlaced {A = ⊤} (Err fault) }
    ensures read { result ≡ KeepFault.NotRead → fault ≡ JudgeFault.NotRead }
    ensures not_read { fault ≡ JudgeFault.NotRead → result ≡ KeepFault.NotRead }
    ensures damaged { (f : Fault) → result ≡ KeepFault.Damaged f → fault ≡ JudgeFault.Damaged f }
{
    match fault {
        JudgeFault::NotRead => KeepFault::NotRead,
        JudgeFault::Damaged(fault) => KeepFault::Damaged(fault),
        JudgeFault::Misplaced { .. } => unreachable!(),
    }
}

// Puts an id behind others, if it belongs into an index.
fn keep_id(
    sharding: &Sharding,
    home: &ShardPlace,
    id: u64,
    kept: &mut Vec<u64>,
) -> Result<(), AllocError>
    ensures kept { OnOk result (kept.new.items ≡ (if belongs sharding.now home.now.shard home.now.minishard id
        then kept.old.items ++ id ∷ [] else kept.old.items)) }
    ensures few { OnOk result (length kept.new.items ≤ length kept.old.items + 1) }
{
    if is_at_home(sharding, home, id) {
        kept.push(id)?;
    }
    Ok(())
}

// Judges the next row of a walk by what is stored of it, and keeps its id if it belongs there.
fn keep_row(
    walk: &mut Walk,
    sharding: &Sharding,
    home: &ShardPlace,
    id: u64,
    start: u64,
    size: u64,
    kept: &mut Vec<u64>,
) -> Result<(), KeepFault>
    requires rows { walk.old.rows < 2 ^ 22 }
    ensures keeps { (c : Columns) (first : List ℕ) (n : ℕ) →
        HasKept c sharding.now home.now.shard home.now.minishard first walk.old kept.old.items →
        IsStored c walk.old.rows id start size → walk.old.rows < n →
        Keeps c sharding.now home.now.shard home.now.minishard first n result walk.new kept.new.items }
    ensures added { OnOk result ((first : List ℕ) →
        HasAdded sharding.now home.now.shard home.now.minishard first walk.old kept.old.items →
        HasAdded sharding.now home.now.shard home.now.minishard first walk.new kept.new.items) }
    ensures rows { OnOk result (walk.new.rows ≡ walk.old.rows + 1) }
    ensures few { OnOk result (length kept.new.items ≤ length kept.old.items + 1) }
    ensures read { result ≢ Err KeepFault.NotRead }
{
    match walk.next_row(id, start, size) {
        Err(fault) => Err(KeepFault::Damaged(Fault::Index(fault))),
        Ok(row) => match keep_id(sharding, home, row.id, kept) {
            Ok(()) => Ok(()),
            Err(_) => Err(KeepFault::OutOfMemory),
        },
    }
}

// Judges the next rows of a walk, whose numbers stand in front of three columns, and keeps their ids.
fn keep_columns(
    walk: &mut Walk,
    count: usize,
    sharding: &Sharding,
    home: &ShardPlace,
    ids: &[u8],
    starts: &[u8],
    sizes: &[u8],
    kept: &mut Vec<u64>,
) -> Result<(), KeepFault>
    requires rows { walk.old.rows + count ≤ 2 ^ 22 }
    requires ids { 8 * count ≤ length ids.now }
    requires starts { 8 * count ≤ length starts.now }
    requires sizes { 8 * count ≤ length sizes.now }
    ensures rows { OnOk result (walk.new.rows ≡ walk.old.rows + count) }
    ensures few { OnOk result (length kept.new.items ≤ length kept.old.items + count) }
    ensures keeps { (c : Columns) (first : List ℕ) (n : ℕ) →
        HasKept c sharding.now home.now.shard home.now.minishard first walk.old kept.old.items →
        Holds c walk.old.rows count ids.now starts.now sizes.now → walk.old.rows + count ≤ n →
        Keeps c sharding.now home.now.shard home.now.minishard first n result walk.new kept.new.items }
    ensures added { OnOk result ((first : List ℕ) →
        HasAdded sharding.now home.now.shard home.now.minishard first walk.old kept.old.items →
        HasAdded sharding.now home.now.shard home.now.minishard first walk.new kept.new.items) }
    ensures read { result ≢ Err KeepFault.NotRead }
{
    for i in 0..count {
        let id = read_number(ids, i);
        let start = read_number(starts, i);
        let size = read_number(sizes, i);
        match keep_row(walk, sharding, home, id, start, size, kept) {
            Ok(()) => {}
            Err(fault) => return Err(fault),
        }
    }
    Ok(())
}

/// Judges all rows of an index in order, up to and with the first that is at fault, and puts the ids of those
/// that belong there behind others; one that belongs elsewhere is passed over. There is room for 1,024 numbers
/// in each column.
pub fn keep_rows<S: Source>(
    store: &mut S,
    name: &Name,
    span: &IndexSpan,
    sharding: &Sharding,
    home: &ShardPlace,
    ids: &mut [u8],
    starts: &mut [u8],
    sizes: &mut [u8],
    kept: &mut Vec<u64>,
) -> Result<(), KeepFault>
    requires few { span.now.rows ≤ 2 ^ 22 }
    requires fits { span.now.at + 24 * span.now.rows < 2 ^ 64 }
    requires ids { length ids.old ≡ 8192 }
    requires starts { length starts.old ≡ 8192 }
    requires sizes { length sizes.old ≡ 8192 }
    ensures keeps { OnIndex (S.objects store.old) name.now span.now.at span.now.rows (λ bytes.
        KeepsRows (columns_of bytes) sharding.now home.now.shard home.now.minishard kept.old.items
        span.now.rows result kept.new.items) }
    ensures added { OnOk result (Adds sharding.now home.now.shard home.now.minishard kept.old.items
        kept.new.items) }
    ensures few { OnOk result (length kept.new.items ≤ length kept.old.items + span.now.rows) }
    ensures reads { ReadsFrom S.Source KeepFault.NotRead store.old store.new result }
{
    let mut walk = Walk::new();
    while walk.rows() < span.rows {
        let first = walk.rows();
        let count = count_next(span, first);
        match read_rows(store, name, span, first, count, ids, starts, sizes) {
            Ok(()) => {}
            Err(fault) => return Err(keep_fault(fault)),
        }
        match keep_columns(&mut walk, count, sharding, home, ids, starts, sizes, kept) {
            Ok(()) => {}
            Err(fault) => return Err(fault),
        }
    }
    Ok(())
}
