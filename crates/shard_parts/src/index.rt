//! The index of a minishard, appended in pieces.
ghost use Rattle.std.specs.Prelude.{◌≡◌, ◌+◌, ◌*◌, ◌<◌, ◌≤◌, ◌^◌, ◌∷◌, IsSome, None, OnOk, OnErr, length, slice_index, take, drop};
ghost use Rattle.std.specs.Option.{option_map};
ghost use Rattle.vol_base.specs.Causes.{HasCauseOf};
ghost use Rattle.vol_base.specs.Outside.{Turns, appended};
ghost use Rattle.minishard.specs.Numbers.{with_number};
ghost use Rattle.vol_spec.specs.IndexBytes.{AreRows, ends, ids, index_bytes, numbers, sizes, starts, stored};
ghost use Rattle.shard_parts.specs.Numbers.{column_of};

use byteorder::{ByteOrder, LittleEndian};
use minishard::Row;
use vol_base::{Store, StoreRefusal};

/// A column of an index.
#[derive(Clone, Copy)]
pub(crate) enum Column {
    Ids,
    Starts,
    Sizes,
}

#[tactic(auto, unfolding(vol_spec::specs::IndexBytes::eight))]
fn put_number(out: &mut [u8], place: usize, number: u64)
    requires { 8 * place + 8 ≤ length out.old }
    ensures { out.new ≡ with_number out.old place number }
{
    LittleEndian::write_u64(&mut out[8 * place..], number);
}

fn id_of(rows: &[Row], r: usize) -> u64
    requires { r < length rows.now }
    ensures { result ≡ slice_index (ids rows.now) r }
{
    rows[r].id
}

fn start_of(rows: &[Row], r: usize) -> u64
    requires { r < length rows.now }
    ensures { result ≡ slice_index (starts rows.now) r }
{
    rows[r].start
}

fn size_of(rows: &[Row], r: usize) -> u64
    requires { r < length rows.now }
    ensures { result ≡ slice_index (sizes rows.now) r }
{
    rows[r].size
}

fn end_of(rows: &[Row], r: usize) -> u64
    requires row { r < length rows.now }
    requires rows { AreRows rows.now }
    ensures { result ≡ slice_index (ends rows.now) r }
{
    rows[r].start + rows[r].size
}

fn id_before(rows: &[Row], r: usize) -> u64
    requires { r < length rows.now }
    ensures { result ≡ slice_index (0 ∷ ids rows.now) r }
{
    if r == 0 { 0 } else { id_of(rows, r - 1) }
}

fn end_before(rows: &[Row], r: usize) -> u64
    requires row { r < length rows.now }
    requires rows { AreRows rows.now }
    ensures { result ≡ slice_index (0 ∷ ends rows.now) r }
{
    if r == 0 { 0 } else { end_of(rows, r - 1) }
}

fn stored_id(rows: &[Row], r: usize) -> u64
    requires row { r < length rows.now }
    requires rows { AreRows rows.now }
    ensures { result ≡ slice_index (stored rows.now).ids r }
{
    id_of(rows, r) - id_before(rows, r)
}

fn stored_start(rows: &[Row], r: usize) -> u64
    requires row { r < length rows.now }
    requires rows { AreRows rows.now }
    ensures { result ≡ slice_index (stored rows.now).starts r }
{
    start_of(rows, r) - end_before(rows, r)
}

// What is stored of a row.
fn number_at(rows: &[Row], column: Column, r: usize) -> u64
    requires row { r < length rows.now }
    requires rows { AreRows rows.now }
    ensures { result ≡ slice_index (column_of column rows.now) r }
{
    match column {
        Column::Ids => stored_id(rows, r),
        Column::Starts => stored_start(rows, r),
        Column::Sizes => size_of(rows, r),
    }
}

// The numbers of some rows of a column.
fn put_numbers(rows: &[Row], column: Column, from: usize, count: usize, out: &mut [u8])
    requires within { from + count ≤ length rows.now }
    requires len { length out.old ≡ 8 * count }
    requires rows { AreRows rows.now }
    ensures { out.new ≡ numbers (take count (drop from (column_of column rows.now))) }
{
    for i in 0..count {
        let number = number_at(rows, column, from + i);
        put_number(out, i, number);
    }
}

// Appends the numbers of some rows of a column, which there is room for.
fn append_numbers<S: Store>(
    store: &mut S,
    rows: &[Row],
    column: Column,
    from: usize,
    count: usize,
    piece: &mut [u8],
) -> Result<(), StoreRefusal>
    requires some { IsSome (S.draft store.old) }
    requires within { from + count ≤ length rows.now }
    requires room { 8 * count ≤ length piece.old }
    requires rows { AreRows rows.now }
    ensures appended { OnOk result (S.draft store.new
        ≡ option_map (λ d. appended d (numbers (take count (drop from (column_of column rows.now)))))
        (S.draft store.old)) }
    ensures refused { OnErr result (S.draft store.new ≡ None) }
    ensures objects { S.objects store.new ≡ S.objects store.old }
    ensures history { Turns (S.objects store.old) (S.objects store.new) (S.history store.old) (S.history store.new) }
    ensures cause { HasCauseOf StoreRefusal.Failed (S.faults store.old) (S.faults store.new) result }
{
    let out = &mut piece[..8 * count];
    put_numbers(rows, column, from, count, out);
    store.append(out)
}

// Appends a column, in pieces of a buffer.
fn append_column<S: Store>(
    store: &mut S,
    rows: &[Row],
    column: Column,
    piece: &mut [u8],
) -> Result<(), StoreRefusal>
    requires some { IsSome (S.draft store.old) }
    requires room { 8 ≤ length piece.old }
    requires rows { AreRows rows.now }
    ensures appended { OnOk result (S.draft store.new
        ≡ option_map (λ d. appended d (numbers (column_of column rows.now))) (S.draft store.old)) }
    ensures refused { OnErr result (S.draft store.new ≡ None) }
    ensures objects { S.objects store.new ≡ S.objects store.old }
    ensures history { Turns (S.objects store.old) (S.objects store.new) (S.history store.old) (S.history store.new) }
    ensures cause { HasCauseOf StoreRefusal.Failed (S.faults store.old) (S.faults store.new) result }
{
    let most = piece.len() / 8;
    let mut done = 0;
    while done < rows.len() {
        let count = most.min(rows.len() - done);
        append_numbers(store, rows, column, done, count, piece)?;
        done += count;
    }
    Ok(())
}

/// Appends the index of rows, in pieces of a buffer.
pub(crate) fn append_index<S: Store>(
    store: &mut S,
    rows: &[Row],
    piece: &mut [u8],
) -> Result<(), StoreRefusal>
    requires some { IsSome (S.draft store.old) }
    requires room { 8 ≤ length piece.old }
    requires rows { AreRows rows.now }
    ensures appended { OnOk result (S.draft store.new
        ≡ option_map (λ d. appended d (index_bytes (stored rows.now))) (S.draft store.old)) }
    ensures refused { OnErr result (S.draft store.new ≡ None) }
    ensures objects { S.objects store.new ≡ S.objects store.old }
    ensures history { Turns (S.objects store.old) (S.objects store.new) (S.history store.old) (S.history store.new) }
    ensures cause { HasCauseOf StoreRefusal.Failed (S.faults store.old) (S.faults store.new) result }
{
    append_column(store, rows, Column::Ids, piece)?;
    append_column(store, rows, Column::Starts, piece)?;
    append_column(store, rows, Column::Sizes, piece)
}
