//! The begin of a shard, the end of a minishard, the end of a shard.
ghost use Rattle.std.specs.Prelude.{◌≡◌, ◌+◌, ◌*◌, ◌<◌, ◌≤◌, ◌^◌, [], if◌then◌else◌, IsSome, IsTrue, IfOk, IfSome, OnOk, OnErr, Some, None, length, replicate, vec_capacity};
ghost use Rattle.std.specs.Option.{option_map};
ghost use Rattle.vol_base.specs.Causes.{HasCauseOf};
ghost use Rattle.vol_base.specs.Outside.{Turns, appended, finished, patched};
ghost use Rattle.vol_spec.specs.Entries.{entry_bytes};
ghost use Rattle.vol_spec.specs.IndexBytes.{AreRows, index_bytes, stored};
ghost use Rattle.vol_spec.specs.Shards.{shard_bytes};
ghost use Rattle.shard_parts.specs.Parts.{draft_of};

use crate::index::append_index;
use minishard::Row;
use shard_index::{Entry, write_entry};
use vol_base::{Name, Store, StoreRefusal};

fn clear(piece: &mut [u8])
    ensures { piece.new ≡ replicate (length piece.old) 0 }
{
    piece.fill(0);
}

// Appends some of the zeros of a buffer.
fn append_some<S: Store>(store: &mut S, count: usize, piece: &[u8]) -> Result<(), StoreRefusal>
    requires some { IsSome (S.draft store.old) }
    requires within { count ≤ length piece.now }
    requires zeros { piece.now ≡ replicate (length piece.now) 0 }
    ensures appended { OnOk result (S.draft store.new
        ≡ option_map (λ d. appended d (replicate count 0)) (S.draft store.old)) }
    ensures refused { OnErr result (S.draft store.new ≡ None) }
    ensures objects { S.objects store.new ≡ S.objects store.old }
    ensures history { Turns (S.objects store.old) (S.objects store.new) (S.history store.old) (S.history store.new) }
    ensures cause { HasCauseOf StoreRefusal.Failed (S.faults store.old) (S.faults store.new) result }
{
    store.append(&piece[..count])
}

// Appends zeros, in pieces of a buffer.
fn append_zeros<S: Store>(store: &mut S, count: usize, piece: &mut [u8]) -> Result<(), StoreRefusal>
    requires some { IsSome (S.draft store.old) }
    requires room { 8 ≤ length piece.old }
    ensures appended { OnOk result (S.draft store.new
        ≡ option_map (λ d. appended d (replicate count 0)) (S.draft store.old)) }
    ensures refused { OnErr result (S.draft store.new ≡ None) }
    ensures objects { S.objects store.new ≡ S.objects store.old }
    ensures history { Turns (S.objects store.old) (S.objects store.new) (S.history store.old) (S.history store.new) }
    ensures cause { HasCauseOf StoreRefusal.Failed (S.faults store.old) (S.faults store.new) result }
{
    clear(piece);
    let mut done = 0;
    while done < count {
        let more = piece.len().min(count - done);
        append_some(store, more, piece)?;
        done += more;
    }
    Ok(())
}

fn entries_len(bits: u32) -> usize
    requires { bits ≤ 24 }
    ensures { result ≡ 16 * 2 ^ bits }
{
    16 << bits
}

// Begins a shard of no chunks.
fn begin_shard<S: Store>(
    store: &mut S,
    name: &Name,
    bits: u32,
    piece: &mut [u8],
) -> Result<(), StoreRefusal>
    requires bits { bits ≤ 24 }
    requires room { 8 ≤ length piece.old }
    ensures begun { OnOk result (S.draft store.new ≡ Some
        (draft_of (S.objects store.old) name.now (shard_bytes bits []))) }
    ensures refused { OnErr result (S.draft store.new ≡ None) }
    ensures objects { S.objects store.new ≡ S.objects store.old }
    ensures history { Turns (S.objects store.old) (S.objects store.new) (S.history store.old) (S.history store.new) }
    ensures cause { HasCauseOf StoreRefusal.Failed (S.faults store.old) (S.faults store.new) result }
{
    store.begin(name)?;
    append_zeros(store, entries_len(bits), piece)
}

/// Begins a shard of 2^`bits` minishards without chunks, where one is to be begun: its entries are
/// zeros, 16 bytes for each minishard. They are appended in pieces of a buffer of any 8 bytes or more,
/// whose bytes are lost.
///
/// # Errors
/// Those of the store. Then nothing is being written.
pub fn begin_if<S: Store>(
    store: &mut S,
    fresh: bool,
    name: &Name,
    bits: u32,
    piece: &mut [u8],
) -> Result<(), StoreRefusal>
    requires bits { bits ≤ 24 }
    requires room { 8 ≤ length piece.old }
    ensures begun { OnOk result (S.draft store.new ≡ (if fresh
        then Some (draft_of (S.objects store.old) name.now (shard_bytes bits [])) else S.draft store.old)) }
    ensures refused { OnErr result (S.draft store.new ≡ None) }
    ensures objects { S.objects store.new ≡ S.objects store.old }
    ensures history { Turns (S.objects store.old) (S.objects store.new) (S.history store.old) (S.history store.new) }
    ensures cause { HasCauseOf StoreRefusal.Failed (S.faults store.old) (S.faults store.new) result }
{
    if fresh {
        begin_shard(store, name, bits, piece)
    } else {
        Ok(())
    }
}

// Appends the index of a minishard, and puts its entry.
fn end_minishard<S: Store>(
    store: &mut S,
    minishard: u64,
    rows: &[Row],
    at: u64,
    piece: &mut [u8],
) -> Result<(), StoreRefusal>
    requires entry { IfSome (S.draft store.old) (λ d. 16 * minishard + 16 ≤ d.len) }
    requires some { IsSome (S.draft store.old) }
    requires number { minishard < 2 ^ 24 }
    requires room { 8 ≤ length piece.old }
    requires rows { AreRows rows.now }
    requires fits { at + 24 * length rows.now < 2 ^ 63 }
    ensures ended { OnOk result (S.draft store.new ≡ option_map (λ d.
        patched (appended d (index_bytes (stored rows.now))) (16 * minishard)
        (entry_bytes (record { start = at; end = at + 24 * length rows.now }))) (S.draft store.old)) }
    ensures refused { OnErr result (S.draft store.new ≡ None) }
    ensures objects { S.objects store.new ≡ S.objects store.old }
    ensures history { Turns (S.objects store.old) (S.objects store.new) (S.history store.old) (S.history store.new) }
    ensures cause { HasCauseOf StoreRefusal.Failed (S.faults store.old) (S.faults store.new) result }
{
    append_index(store, rows, piece)?;
    let entry = Entry {
        start: at,
        end: at + 24 * rows.len() as u64,
    };
    store.patch_front(16 * minishard, &write_entry(&entry))
}

/// Ends a minishard where its last chunk was appended: behind its chunks stands the index of its rows,
/// and its entry says where. `at` is where the next byte stands, counted from the end of the entries; the
/// answer is where it stands then. The index is appended in pieces of a buffer of any 8 bytes or more,
/// whose bytes are lost; where it succeeds the rows keep their memory.
///
/// # Errors
/// Those of the store. Then nothing is being written.
pub fn end_if<S: Store>(
    store: &mut S,
    ends: bool,
    minishard: u64,
    rows: &mut Vec<Row>,
    at: u64,
    piece: &mut [u8],
) -> Result<u64, StoreRefusal>
    requires entry { IfSome (S.draft store.old) (λ d. 16 * minishard + 16 ≤ d.len) }
    requires some { IsSome (S.draft store.old) }
    requires number { minishard < 2 ^ 24 }
    requires room { 8 ≤ length piece.old }
    requires rows { AreRows rows.old.items }
    requires fits { at + 24 * length rows.old.items < 2 ^ 63 }
    ensures ended { OnOk result (S.draft store.new ≡ (if ends
        then option_map (λ d. patched (appended d (index_bytes (stored rows.old.items))) (16 * minishard)
        (entry_bytes (record { start = at; end = at + 24 * length rows.old.items }))) (S.draft store.old)
        else S.draft store.old)) }
    ensures rows { OnOk result (rows.new.items ≡ (if ends then [] else rows.old.items)) }
    ensures capacity { OnOk result (vec_capacity rows.new ≡ vec_capacity rows.old) }
    ensures at { IfOk result (λ next. next ≡ (if ends then at + 24 * length rows.old.items else at)) }
    ensures refused { OnErr result (S.draft store.new ≡ None) }
    ensures objects { S.objects store.new ≡ S.objects store.old }
    ensures history { Turns (S.objects store.old) (S.objects store.new) (S.history store.old) (S.history store.new) }
    ensures cause { HasCauseOf StoreRefusal.Failed (S.faults store.old) (S.faults store.new) result }
{
    if !ends {
        return Ok(at);
    }
    end_minishard(store, minishard, rows, at, piece)?;
    let next = at + 24 * rows.len() as u64;
    rows.clear();
    Ok(next)
}

/// Puts the shard among the objects where its last chunk was appended.
///
/// # Errors
/// Those of the store. Then nothing is being written, and the objects are as before.
pub fn finish_if<S: Store>(store: &mut S, ends: bool) -> Result<(), StoreRefusal>
    requires { IsSome (S.draft store.old) }
    ensures finished { OnOk result (IfSome (S.draft store.old) (λ d.
        S.objects store.new ≡ (if ends then option_map (finished d.told) (S.objects store.old)
        else S.objects store.old))) }
    ensures draft { OnOk result (S.draft store.new ≡ (if ends then None else S.draft store.old)) }
    ensures refused { OnErr result (S.draft store.new ≡ None) }
    ensures kept { OnErr result (S.objects store.new ≡ S.objects store.old) }
    ensures history { Turns (S.objects store.old) (S.objects store.new) (S.history store.old) (S.history store.new) }
    ensures cause { HasCauseOf StoreRefusal.Failed (S.faults store.old) (S.faults store.new) result }
{
    if ends { store.finish() } else { Ok(()) }
}
