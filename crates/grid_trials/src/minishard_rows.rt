//! Indexes of known bytes, sound ones and damaged ones.

ghost use Rattle.std.specs.Prelude.{◌≡◌};

use byteorder::{ByteOrder, LittleEndian};
use minishard::{Row, Walk, find, write_rows};
use std::process::Abort;
use vol_base::IndexFault;

// The index of a minishard with the chunks 0 and 1, of a byte each, one behind the other.
const TWO_ROWS: [u8; 48] = [
    0, 0, 0, 0, 0, 0, 0, 0, 1, 0, 0, 0, 0, 0, 0, 0, // ids
    0, 0, 0, 0, 0, 0, 0, 0, 0, 0, 0, 0, 0, 0, 0, 0, // starts
    1, 0, 0, 0, 0, 0, 0, 0, 1, 0, 0, 0, 0, 0, 0, 0, // sizes
];

// The index of a second minishard: the chunk 1, of a byte, behind 25 bytes of the first minishard.
const FAR_ROW: [u8; 24] = [
    1, 0, 0, 0, 0, 0, 0, 0, 25, 0, 0, 0, 0, 0, 0, 0, 1, 0, 0, 0, 0, 0, 0, 0,
];

fn row(id: u64, start: u64, size: u64) -> Row
    ensures { result ≡ record { id = id; start = start; size = size } }
{
    Row { id, start, size }
}

fn index_of(ids: [u64; 2], starts: [u64; 2], sizes: [u64; 2]) -> [u8; 48] {
    let mut index = [0; 48];
    LittleEndian::write_u64(&mut index[..], ids[0]);
    LittleEndian::write_u64(&mut index[8..], ids[1]);
    LittleEndian::write_u64(&mut index[16..], starts[0]);
    LittleEndian::write_u64(&mut index[24..], starts[1]);
    LittleEndian::write_u64(&mut index[32..], sizes[0]);
    LittleEndian::write_u64(&mut index[40..], sizes[1]);
    index
}

// The id, the start and the size of the row that was found.
fn numbers_of(found: Result<Option<Row>, IndexFault>) -> Result<Option<[u64; 3]>, IndexFault> {
    match found {
        Ok(Some(row)) => Ok(Some([row.id, row.start, row.size])),
        Ok(None) => Ok(None),
        Err(fault) => Err(fault),
    }
}

#[test]
fn finds_rows(rt: HostRuntime) {
    assert_eq!(rt; find(&TWO_ROWS, 0), Ok(Some(row(0, 0, 1))));
    assert_eq!(rt; find(&TWO_ROWS, 1), Ok(Some(row(1, 1, 1))));
    assert_eq!(rt; find(&TWO_ROWS, 2), Ok(None));
    assert_eq!(rt; find(&FAR_ROW, 0), Ok(None));
    assert_eq!(rt; find(&FAR_ROW, 1), Ok(Some(row(1, 25, 1))));
    assert_eq!(rt; find(&[], 0), Ok(None));
}

// The ids, the starts and the sizes of two rows, an id, and the row that is found or a fault.
type Judged = ([[u64; 2]; 3], u64, Result<Option<[u64; 3]>, IndexFault>);

const SAME: [[u64; 2]; 3] = [[0, 0], [0, 0], [1, 1]];

const ABOVE: [[u64; 2]; 3] = [[1, 0], [0, 0], [1, 1]];

const AT_LAST: [[u64; 2]; 3] = [[u64::MAX, 1], [0, 0], [1, 1]];

const NEAR_LAST: [[u64; 2]; 3] = [[u64::MAX - 1, 1], [0, 0], [1, 1]];

const PAST_LAST: [[u64; 2]; 3] = [[u64::MAX - 1, 2], [0, 0], [1, 1]];

const IDS: &[Judged] = &[
    (SAME, 0, Ok(Some([0, 0, 1]))),
    (SAME, 1, Err(IndexFault::BadId { row: 1 })),
    (ABOVE, 0, Ok(None)),
    (ABOVE, 1, Ok(Some([1, 0, 1]))),
    (ABOVE, 2, Err(IndexFault::BadId { row: 1 })),
    (AT_LAST, 0, Ok(None)),
    (AT_LAST, 1, Ok(None)),
    (AT_LAST, u64::MAX, Ok(Some([u64::MAX, 0, 1]))),
    (NEAR_LAST, u64::MAX, Ok(Some([u64::MAX, 1, 1]))),
    (PAST_LAST, u64::MAX - 1, Ok(Some([u64::MAX - 1, 0, 1]))),
    (PAST_LAST, u64::MAX, Err(IndexFault::BadId { row: 1 })),
];

const FAR: [[u64; 2]; 3] = [[0, 1], [1000, 0], [1, 1]];

const LONG: [[u64; 2]; 3] = [[0, 1], [0, 0], [u64::MAX, 1]];

const NEAR: [[u64; 2]; 3] = [[0, 1], [1, 0], [u64::MAX - 1, 0]];

const PAST: [[u64; 2]; 3] = [[0, 1], [u64::MAX, 0], [1, 1]];

const START_ALONE: [[u64; 2]; 3] = [[0, 1], [1, u64::MAX], [0, 0]];

const BOTH: [[u64; 2]; 3] = [[0, 0], [0, u64::MAX], [1, 1]];

// Where both are wrong, the id is judged first.
const STARTS: &[Judged] = &[
    (FAR, 0, Ok(Some([0, 1000, 1]))),
    (FAR, 1, Ok(Some([1, 1001, 1]))),
    (LONG, 0, Ok(Some([0, 0, u64::MAX]))),
    (LONG, 1, Err(IndexFault::BadStart { row: 1 })),
    (NEAR, 0, Ok(Some([0, 1, u64::MAX - 1]))),
    (NEAR, 1, Ok(Some([1, u64::MAX, 0]))),
    (PAST, 0, Err(IndexFault::BadStart { row: 0 })),
    (START_ALONE, 1, Err(IndexFault::BadStart { row: 1 })),
    (BOTH, 9, Err(IndexFault::BadId { row: 1 })),
];

fn check_judged(rt: &impl Abort, rows: &[Judged]) {
    for ([ids, starts, sizes], id, wanted) in rows {
        let index = index_of(*ids, *starts, *sizes);
        assert_eq!(rt; numbers_of(find(&index, *id)), *wanted, "id {id}");
    }
}

#[test]
fn judges_ids(rt: HostRuntime) {
    check_judged(&rt, IDS);
}

#[test]
fn judges_starts(rt: HostRuntime) {
    check_judged(&rt, STARTS);
}

#[test]
fn goes_on_behind_a_refusal(rt: HostRuntime) {
    let mut walk = Walk::new();
    let first = walk.next_row(5, 7, 2);
    assert_eq!(rt; first, Ok(row(5, 7, 2)));
    let same = walk.next_row(0, 0, 1);
    assert_eq!(rt; same, Err(IndexFault::BadId { row: 1 }));
    let past = walk.next_row(1, u64::MAX, 0);
    assert_eq!(rt; past, Err(IndexFault::BadStart { row: 1 }));
    let next = walk.next_row(3, 1, 4);
    assert_eq!(rt; next, Ok(row(8, 10, 4)));
}

#[test]
fn writes_rows(rt: HostRuntime) {
    let mut index = [7; 48];
    write_rows(&[row(0, 0, 1), row(1, 1, 1)], &mut index);
    assert_eq!(rt; index, TWO_ROWS);
    let mut index = [7; 24];
    write_rows(&[row(1, 25, 1)], &mut index);
    assert_eq!(rt; index, FAR_ROW);
}
