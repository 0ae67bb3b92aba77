//! A walk over the rows of an index, in order.
ghost use Rattle.std.specs.Prelude.{◌≡◌, ◌+◌, ◌<◌, ◌≤◌, ◌^◌, ◌==◌, ◌&&◌, ◌||◌, nat_lt, nat_le, ℕ, OnOk, OnErr};
ghost use Rattle.vol_spec.specs.Rows.{Columns, judged_row, judged_by};
ghost use Rattle.minishard.specs.Walks.{IsWalked, IsStored};

use crate::Row;
use std::marker::Model;
use vol_base::IndexFault;

/// How far a walk over an index has come. It is given the stored numbers of each row in order, and
/// answers the row with absolute numbers.
#[derive(Drop)]
pub struct Walk {
    rows: u64,
    id: u64,
    end: u64,
}

impl Model for Walk {
    ghost use Rattle.minishard.specs.Walks.{Progress};

    ghost Value = { Progress };

    ghost view = { λ w. record { rows = w.rows; id = w.id; end = w.end } };
}

// Whether a sum passes 64 bits.
fn passes(a: u64, b: u64) -> bool
    ensures { result ≡ nat_le (2 ^ 64) (a + b) }
{
    a > u64::MAX - b
}

fn end_passes(end: u64, start_delta: u64, size: u64) -> bool
    ensures { result ≡ nat_le (2 ^ 64) (end + start_delta + size) }
{
    passes(end, start_delta) || passes(end + start_delta, size)
}

fn id_is_bad(rows: u64, id_delta: u64, last_id: u64) -> bool
    ensures { result ≡ (nat_lt 0 rows && (id_delta == 0)) || nat_le (2 ^ 64) (last_id + id_delta) }
{
    (rows > 0 && id_delta == 0) || passes(last_id, id_delta)
}

impl Walk {
    /// A walk before its first row.
    pub fn new() -> Walk
        ensures { result ≡ record { rows = 0; id = 0; end = 0 } }
    {
        Walk {
            rows: 0,
            id: 0,
            end: 0,
        }
    }

    /// The same walk once more.
    pub fn duplicate(&self) -> Walk
        ensures { result ≡ self.now }
    {
        Walk {
            rows: self.rows,
            id: self.id,
            end: self.end,
        }
    }

    /// How many rows it answered.
    pub fn rows(&self) -> u64
        ensures { result ≡ self.now.rows }
    {
        self.rows
    }

    /// The id of the last one; 0 before the first.
    pub fn id(&self) -> u64
        ensures { result ≡ self.now.id }
    {
        self.id
    }

    // The next row by the numbers so far.
    fn step(&mut self, id_delta: u64, start_delta: u64, size: u64) -> Result<Row, IndexFault>
        requires { self.old.rows < 2 ^ 22 }
        ensures judged { result ≡ judged_by self.old.rows id_delta (self.old.id + id_delta)
            (self.old.end + start_delta) size }
        ensures ok { OnOk result (self.new ≡ record {
          rows = self.old.rows + 1;
          id =
              self.old.id + id_delta;
          end = self.old.end + start_delta + size;
        }) }
        ensures err { OnErr result (self.new ≡ self.old) }
    {
        if id_is_bad(self.rows, id_delta, self.id) {
            return Err(IndexFault::BadId { row: self.rows });
        }
        if end_passes(self.end, start_delta, size) {
            return Err(IndexFault::BadStart { row: self.rows });
        }
        let row = Row {
            id: self.id + id_delta,
            start: self.end + start_delta,
            size,
        };
        self.rows += 1;
        self.id = row.id;
        self.end = row.start + size;
        Ok(row)
    }

    /// The next row, by what is stored of it: its id is the sum of the stored ids up to it, its
    /// start the sum of the stored starts up to it and of the sizes before it (this project's
    /// profile). BadId where it isn't the first row and its id doesn't ascend, or where the id passes
    /// 64 bits; else BadStart where its start or its end does. Then the walk is as before.
    pub fn next_row(
        &mut self,
        id_delta: u64,
        start_delta: u64,
        size: u64,
    ) -> Result<Row, IndexFault>
        requires { self.old.rows < 2 ^ 22 }
        ensures judged { (c : Columns) → IsWalked c self.old →
            IsStored c self.old.rows id_delta start_delta size → result ≡ judged_row c self.old.rows }
        ensures walked { OnOk result ((c : Columns) → IsWalked c self.old →
            IsStored c self.old.rows id_delta start_delta size → IsWalked c self.new) }
        ensures rows { OnOk result (self.new.rows ≡ self.old.rows + 1) }
        ensures refused { OnErr result (self.new ≡ self.old) }
    {
        self.step(id_delta, start_delta, size)
    }
}
