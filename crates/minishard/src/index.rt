//! A look-up in a whole index.
ghost use Rattle.std.specs.Prelude.{◌≡◌, ◌+◌, ◌*◌, ◌/◌, ◌%◌, ◌<◌, ◌≤◌, ◌^◌, length, OnOk};
ghost use Rattle.vol_spec.specs.Rows.{columns_of, find_in, number_at, judged_row};
ghost use Rattle.minishard.specs.Walks.{IsWalked};

use crate::{Row, Walk};
use byteorder::{ByteOrder, LittleEndian};
use vol_base::IndexFault;

/// The number at a place of a column: 64 bits, the lowest byte first.
#[tactic(auto, unfolding(vol_spec::specs::Rows::number_at))]
pub fn read_number(bytes: &[u8], place: usize) -> u64
    requires { 8 * place + 8 ≤ length bytes.now }
    ensures { result ≡ number_at bytes.now place }
{
    LittleEndian::read_u64(&bytes[8 * place..])
}

// The next row of a whole index, which is row `row`.
fn next_of(index: &[u8], row: usize, walk: &mut Walk) -> Result<Row, IndexFault>
    requires rows { length index.now ≤ 24 * 2 ^ 22 }
    requires walked { IsWalked (columns_of index.now) walk.old }
    requires here { walk.old.rows ≡ row }
    requires more { row < length index.now / 24 }
    ensures judged { result ≡ judged_row (columns_of index.now) row }
    ensures walked { OnOk result (IsWalked (columns_of index.now) walk.new) }
    ensures rows { OnOk result (walk.new.rows ≡ row + 1) }
{
    let rows = index.len() / 24;
    let id = read_number(index, row);
    let start = read_number(index, rows + row);
    let size = read_number(index, 2 * rows + row);
    walk.next_row(id, start, size)
}

/// The row with an id, None where there is none. Rows are judged from the first up to and with the
/// first one whose id isn't below the wanted one: the first fault up to there is the answer, and no
/// later one is seen.
pub fn find(index: &[u8], id: u64) -> Result<Option<Row>, IndexFault>
    requires whole { length index.now % 24 ≡ 0 }
    requires rows { length index.now ≤ 24 * 2 ^ 22 }
    ensures { result ≡ find_in (columns_of index.now) id }
{
    let mut walk = Walk::new();
    for row in 0..index.len() / 24 {
        let found = match next_of(index, row, &mut walk) {
            Ok(found) => found,
            Err(fault) => return Err(fault),
        };
        if found.id >= id {
            return Ok(if found.id == id { Some(found) } else { None });
        }
    }
    Ok(None)
}
