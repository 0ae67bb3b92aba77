//! Rows as the bytes of an index.
ghost use Rattle.std.specs.Prelude.{◌≡◌, ◌≢◌, ◌+◌, ◌*◌, ◌<◌, ◌≤◌, ◌^◌, ℕ, [], ◌∷◌, length, slice_index, slice_get};
ghost use Rattle.vol_spec.specs.Rows.{columns_of, find_in, judged_row};
ghost use Rattle.vol_spec.specs.declared.row.Row.{Row};
ghost use Rattle.minishard.specs.Numbers.{AreIds, with_number};
ghost use Rattle.vol_spec.specs.IndexBytes.{AreRows, ends, ids, index_bytes, numbers, sizes, starts, stored};

use crate::Row;
use byteorder::{ByteOrder, LittleEndian};

#[tactic(auto, unfolding(vol_spec::specs::IndexBytes::eight))]
fn put_number(out: &mut [u8], place: usize, number: u64)
    requires { 8 * place + 8 ≤ length out.old }
    ensures { out.new ≡ with_number out.old place number }
{
    LittleEndian::write_u64(&mut out[8 * place..], number);
}

fn id_of(rows: &[Row], r: usize) -> u64
    requires { r < length rows.now }
    ensures value { result ≡ slice_index (ids rows.now) r }
    ensures fits { slice_index (ids rows.now) r < 2 ^ 64 }
{
    rows[r].id
}

fn start_of(rows: &[Row], r: usize) -> u64
    requires { r < length rows.now }
    ensures { result ≡ slice_index (starts rows.now) r }
{
    rows[r].start
}

fn size_of(rows: &[Row], r: usize) -> u64
    requires { r < length rows.now }
    ensures { result ≡ slice_index (sizes rows.now) r }
{
    rows[r].size
}

fn end_of(rows: &[Row], r: usize) -> u64
    requires row { r < length rows.now }
    requires rows { AreRows rows.now }
    ensures { result ≡ slice_index (ends rows.now) r }
{
    rows[r].start + rows[r].size
}

fn write_ids(rows: &[Row], out: &mut [u8])
    requires len { length out.old ≡ 8 * length rows.now }
    requires rows { AreRows rows.now }
    ensures bytes { out.new ≡ numbers (stored rows.now).ids }
    ensures ids { AreIds rows.now }
{
    let mut before = 0;
    for r in 0..rows.len() {
        let id = id_of(rows, r);
        put_number(out, r, id - before);
        before = id;
    }
}

fn write_starts(rows: &[Row], out: &mut [u8])
    requires len { length out.old ≡ 8 * length rows.now }
    requires rows { AreRows rows.now }
    ensures { out.new ≡ numbers (stored rows.now).starts }
{
    let mut before = 0;
    for r in 0..rows.len() {
        let start = start_of(rows, r);
        put_number(out, r, start - before);
        before = end_of(rows, r);
    }
}

fn write_sizes(rows: &[Row], out: &mut [u8])
    requires len { length out.old ≡ 8 * length rows.now }
    ensures { out.new ≡ numbers (stored rows.now).sizes }
{
    for r in 0..rows.len() {
        put_number(out, r, size_of(rows, r));
    }
}

fn write_columns(rows: &[Row], out: &mut [u8])
    requires len { length out.old ≡ 24 * length rows.now }
    requires rows { AreRows rows.now }
    ensures bytes { out.new ≡ index_bytes (stored rows.now) }
    ensures ids { AreIds rows.now }
{
    let n = rows.len();
    write_ids(rows, &mut out[..8 * n]);
    write_starts(rows, &mut out[8 * n..16 * n]);
    write_sizes(rows, &mut out[16 * n..]);
}

/// Writes the index of rows into 24 bytes a row. Ids ascend, and each chunk starts at or after the
/// end of the one before. Of each row are stored what its id has over the id before, what its start
/// has over the end before (this project's profile), and its size.
pub fn write_rows(rows: &[Row], out: &mut [u8])
    requires len { length out.old ≡ 24 * length rows.now }
    requires rows { AreRows rows.now }
    ensures bytes { out.new ≡ index_bytes (stored rows.now) }
    // Each row is read back, by its number and by its id, and no other id is there.
    ensures rows { (r : ℕ) (row : Row) → slice_get rows.now r ≡ Some row →
        judged_row (columns_of out.new) r ≡ Ok row }
    ensures found { (r : ℕ) (row : Row) → slice_get rows.now r ≡ Some row →
        find_in (columns_of out.new) row.id ≡ Ok (Some row) }
    ensures absent { (id : ℕ) → ((r : ℕ) → r < length rows.now → slice_index (ids rows.now) r ≢ id) →
        find_in (columns_of out.new) id ≡ Ok None }
{
    write_columns(rows, out);
}
