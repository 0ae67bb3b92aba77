//! Rows of an index in three columns.
ghost use Rattle.std.specs.Prelude.{◌≡◌, ◌+◌, ◌*◌, ◌<◌, ◌≤◌, ◌^◌, length, OnOk, Ok};
ghost use Rattle.minishard.specs.Walks.{IsStored, IsWalked};
ghost use Rattle.shard_reader.specs.Reading.{EndsSeen, Holds, IsAt, Sees};
ghost use Rattle.vol_spec.specs.Rows.{Columns, judged_row, number_at};

use minishard::{Row, Walk, read_number};
use vol_base::IndexFault;

/// What some rows say of a look-up: its answer, or nothing.
#[derive(Clone, Copy, Debug, PartialEq, Eq)]
pub(crate) enum Seen {
    Answer(Option<Row>),
    Nothing,
}

// The next row of the walk, whose numbers are the i-th of three columns.
fn next_of(
    walk: &mut Walk,
    i: usize,
    ids: &[u8],
    starts: &[u8],
    sizes: &[u8],
) -> Result<Row, IndexFault>
    requires rows { walk.old.rows < 2 ^ 22 }
    requires ids { 8 * i + 8 ≤ length ids.now }
    requires starts { 8 * i + 8 ≤ length starts.now }
    requires sizes { 8 * i + 8 ≤ length sizes.now }
    ensures judged { (c : Columns) → IsWalked c walk.old →
        IsStored c walk.old.rows (number_at ids.now i) (number_at starts.now i) (number_at sizes.now i) →
        result ≡ judged_row c walk.old.rows }
    ensures walked { OnOk result ((c : Columns) → IsWalked c walk.old →
        IsStored c walk.old.rows (number_at ids.now i) (number_at starts.now i) (number_at sizes.now i) →
        IsWalked c walk.new) }
    ensures rows { OnOk result (walk.new.rows ≡ walk.old.rows + 1) }
{
    let id = read_number(ids, i);
    let start = read_number(starts, i);
    let size = read_number(sizes, i);
    walk.next_row(id, start, size)
}

/// Goes over the next rows of the walk, whose numbers stand in front of three columns, up to and with the
/// first one whose id isn't below the wanted one.
pub(crate) fn scan(
    walk: &mut Walk,
    count: usize,
    ids: &[u8],
    starts: &[u8],
    sizes: &[u8],
    id: u64,
) -> Result<Seen, IndexFault>
    requires rows { walk.old.rows + count ≤ 2 ^ 22 }
    requires ids { 8 * count ≤ length ids.now }
    requires starts { 8 * count ≤ length starts.now }
    requires sizes { 8 * count ≤ length sizes.now }
    ensures rows { result ≡ Ok Seen.Nothing → walk.new.rows ≡ walk.old.rows + count }
    ensures seen { (c : Columns) → IsAt c walk.old id →
        Holds c walk.old.rows count ids.now starts.now sizes.now → walk.old.rows + count ≤ length c.ids →
        Sees c id result walk.new }
    ensures ends { (c : Columns) → IsAt c walk.old id →
        Holds c walk.old.rows count ids.now starts.now sizes.now → walk.old.rows + count ≤ length c.ids →
        EndsSeen c id result walk.old.rows count }
{
    for i in 0..count {
        match next_of(walk, i, ids, starts, sizes) {
            Err(fault) => return Err(fault),
            Ok(row) => {
                if row.id >= id {
                    return Ok(Seen::Answer(if row.id == id { Some(row) } else { None }));
                }
            }
        }
    }
    Ok(Seen::Nothing)
}
