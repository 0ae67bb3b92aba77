//! The names of cells' objects, and of the folder that they stand in.

ghost use Rattle.std.specs.Prelude.{◌≡◌, ◌≤◌, ◌<◌, ◌+◌, ◌^◌, ◌++◌, ◌∷◌, [], ℕ, pos, neg_ℤ, ◌≤ℤ◌, length, take};
ghost use Rattle.std.specs.Fmt.{decimal, signed_decimal};
ghost use Rattle.vol_spec.specs.Grid.{IsCell};
ghost use Rattle.vol_spec.specs.CellNames.{span_text, box_name, cell_name, folder_of, joined};
ghost use Rattle.chunk_grid.specs.Axes.{IsSmallOn};

use crate::cell_box;
use vol_base::{Box3, Name};
use vol_spec::Scale;

const BETWEEN_ENDS: u8 = b'-';

const BETWEEN_AXES: u8 = b'_';

const BETWEEN_NAMES: u8 = b'/';

// Each function here writes behind the text in front of a buffer and answers where the text then
// ends.

fn put_piece(to: &mut [u8], at: usize, piece: &[u8]) -> usize
    requires { at + length piece.now ≤ length to.old }
    ensures end { result ≡ at + length piece.now }
    ensures text { take result to.new ≡ take at to.old ++ piece.now }
{
    let end = at + piece.len();
    to[at..end].copy_from_slice(piece);
    end
}

fn put_byte(to: &mut [u8], at: usize, byte: u8) -> usize
    requires { at < length to.old }
    ensures end { result ≡ at + 1 }
    ensures text { take result to.new ≡ take at to.old ++ byte ∷ [] }
{
    to[at] = byte;
    at + 1
}

fn put_decimal(to: &mut [u8], at: usize, number: u64) -> usize
    requires { at + length (decimal number) ≤ length to.old }
    ensures end { result ≡ at + length (decimal number) }
    ensures text { take result to.new ≡ take at to.old ++ decimal number }
{
    if number < 10 {
        return put_byte(to, at, b'0' + number as u8);
    }
    let at = put_decimal(to, at, number / 10);
    put_byte(to, at, b'0' + (number % 10) as u8)
}

// A number of at most 13 digits, with its sign.
fn put_signed(to: &mut [u8], at: usize, number: i64) -> usize
    requires small { (neg_ℤ (pos (2 ^ 42)) ≤ℤ number) × (number ≤ℤ pos (2 ^ 42)) }
    requires room { at + 14 ≤ length to.old }
    ensures end { result ≤ at + 14 }
    ensures text { take result to.new ≡ take at to.old ++ signed_decimal number }
{
    let value = number.unsigned_abs();
    if number < 0 {
        let at = put_byte(to, at, b'-');
        put_decimal(to, at, value)
    } else {
        put_decimal(to, at, value)
    }
}

// The two ends of a part on an axis, with `-` between.
fn put_span(to: &mut [u8], at: usize, part: &Box3, axis: usize) -> usize
    requires axis { axis < 3 }
    requires small { IsSmallOn part.now axis }
    requires room { at + 29 ≤ length to.old }
    ensures end { result ≤ at + 29 }
    ensures text { take result to.new ≡ take at to.old ++ span_text part.now axis }
{
    let begin = part.begin[axis];
    let at = put_signed(to, at, begin);
    let at = put_byte(to, at, BETWEEN_ENDS);
    put_signed(to, at, begin + part.size[axis] as i64)
}

// The spans of the three axes, with `_` between.
fn put_box(to: &mut [u8], at: usize, part: &Box3) -> usize
    requires small { (axis : ℕ) → axis < 3 → IsSmallOn part.now axis }
    requires room { at + 89 ≤ length to.old }
    ensures end { result ≤ at + 89 }
    ensures text { take result to.new ≡ take at to.old ++ box_name part.now }
{
    let at = put_span(to, at, part, 0);
    let at = put_byte(to, at, BETWEEN_AXES);
    let at = put_span(to, at, part, 1);
    let at = put_byte(to, at, BETWEEN_AXES);
    put_span(to, at, part, 2)
}

// Two names with `/` between and behind.
fn put_folder(to: &mut [u8], dataset: &[u8], key: &[u8]) -> usize
    requires { length dataset.now + 1 + length key.now + 1 ≤ length to.old }
    ensures end { result ≡ length dataset.now + 1 + length key.now + 1 }
    ensures text { take result to.new ≡ joined dataset.now key.now ++ 47 ∷ [] }
{
    let at = put_piece(to, 0, dataset);
    let at = put_byte(to, at, BETWEEN_NAMES);
    let at = put_piece(to, at, key);
    put_byte(to, at, BETWEEN_NAMES)
}

/// The folder of a scale: the data set and the scale's key.
pub fn find_folder(dataset: &Name, scale: &Scale) -> Name
    requires { length dataset.now ≤ 200 }
    ensures { result ≡ folder_of dataset.now scale.now }
{
    dataset.join(&scale.key).unwrap()
}

/// The object of a cell of the grid: the data set, the scale's key and the cell's box
/// (precomputed volume format, chunk storage).
pub fn object_name(dataset: &Name, scale: &Scale, cell: [u64; 3]) -> Name
    requires cell { IsCell scale.now cell }
    requires dataset { length dataset.now ≤ 200 }
    ensures { result ≡ cell_name dataset.now scale.now cell }
{
    let part = cell_box(scale, cell);
    let mut text = [0; 512];
    let at = put_folder(&mut text, dataset.as_bytes(), scale.key.as_bytes());
    let at = put_box(&mut text, at, &part);
    match Name::new(&text[..at]) {
        Some(name) => name,
        None => unreachable!(),
    }
}
