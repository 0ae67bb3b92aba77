//! An outlet that sums values.
ghost use Rattle.std.specs.Prelude.{◌≡◌, ◌+◌, ◌*◌, ◌<◌, ◌≤◌, ◌++◌, ℕ, [], Some, IfOk, OnErr, IsOk, length, take};
ghost use Rattle.std.specs.Option.{option_map};
ghost use Rattle.vol_base.specs.Causes.{HasCause, is_count};
ghost use Rattle.value_sums.specs.Sums.{sum_in};
ghost use Rattle.value_sums.specs.Weights.{noted};

use crate::sums::{add_byte, sum_values};
use http_server::Log;
use std::marker::Model;
use vol_base::{Failed, Outlet};

/// An outlet that keeps the sum of the values that it is given, `WIDTH` bytes each, the lowest byte first,
/// modulo 2^64, and none of their bytes.
#[derive(Drop)]
pub struct SumOutlet<const WIDTH: usize> {
    // of all bytes that came, also of a value that isn't whole
    sum: u64,
    // where the next byte stands in its value
    place: usize,
    // what was written, for the proof alone
    log: Log<u8, ()>,
}

// Clauses see the bytes that were written.
impl<const WIDTH: usize> Model for SumOutlet<WIDTH> {
    ghost use Rattle.std.specs.Prelude.{List, ℕ};
    ghost use Rattle.value_sums.specs.Weights.{IsSum, noted};

    ghost Value = { List ℕ };

    ghost view = { λ s. noted s.log.items };

    ghost invariant = { λ s. IsSum WIDTH s.place s.sum (noted s.log.items) };
}

// Notes bytes. At run time it does nothing.
fn note(log: &mut Log<u8, ()>, bytes: &[u8])
    ensures { noted log.new.items ≡ noted log.old.items ++ bytes.now }
{
    for byte in bytes {
        *log = log.and(byte, &());
    }
}

impl<const WIDTH: usize> SumOutlet<WIDTH> {
    /// Nothing was written yet.
    pub fn new() -> Self
        requires some { 1 ≤ WIDTH }
        requires width { WIDTH ≤ 8 }
        ensures { result ≡ [] }
    {
        SumOutlet {
            sum: 0,
            place: 0,
            log: Log::new(),
        }
    }

    /// The sum of the values that were written, if they are whole.
    pub fn sum(&self) -> u64
        ensures { (count : ℕ) → length self.now ≡ count * WIDTH → result ≡ sum_in WIDTH count self.now }
    {
        self.sum
    }
}

impl<const WIDTH: usize> Outlet for SumOutlet<WIDTH> {
    ghost use Rattle.std.specs.Prelude.{Some};

    ghost written = { λ s. Some s };

    ghost faults = { λ _. 0 };

    ghost counts = { λ _. is_count 0 };

    fn write(&mut self, piece: &[u8]) -> Result<usize, Failed>
        requires { 0 < length piece.now }
        ensures some { IfOk result (λ n. (0 < n) × (n ≤ length piece.now)) }
        ensures written { IfOk result (λ n. Some self.new
            ≡ option_map (λ w. w ++ take n piece.now) (Some self.old)) }
        ensures refused { OnErr result (Some self.new ≡ Some self.old) }
        ensures cause { HasCause 0 0 result }
        ensures never { IsOk result }
    {
        let place = self.place;
        let whole = piece.len() - piece.len() % WIDTH;

        // A value that is begun, or not whole in this piece, comes byte by byte.
        if place > 0 || whole == 0 {
            self.sum = add_byte(self.sum, piece[0], place);
            self.place = (place + 1) % WIDTH;
            note(&mut self.log, &piece[..1]);
            return Ok(1);
        }
        self.sum = self.sum.wrapping_add(sum_values(&piece[..whole], WIDTH));
        note(&mut self.log, &piece[..whole]);
        Ok(whole)
    }
}
