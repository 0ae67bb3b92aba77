//! A walk over a block of cells.

ghost use Rattle.std.specs.Prelude.{◌≡◌, length};
ghost use Rattle.std.specs.Iterator.{YieldsFirst, item_count};
ghost use Rattle.chunk_grid.specs.Walks.{AreEnds, cells_from, counts_between};

use std::marker::Model;

/// The cells of a block, x fastest, then y, then z. It is seen as the list of those that are left.
#[derive(Drop)]
pub struct CellWalk {
    first: [u64; 3],
    count: [u64; 3],
    next: u128,
}

impl Model for CellWalk {
    ghost use Rattle.std.specs.Prelude.{List, ℕ};
    ghost use Rattle.chunk_grid.specs.Walks.{cells_from, IsWalk};

    ghost Value = { List (List ℕ) };

    ghost view = { λ walk. cells_from walk.first walk.count walk.next };

    ghost invariant = { λ walk. IsWalk walk.first walk.count walk.next };
}

impl Iterator for CellWalk {
    type Item = [u64; 3];

    ghost next_gives = { YieldsFirst (λ left. left) };

    ghost remaining = { item_count (λ left. left) };

    fn next(&mut self) -> Option<[u64; 3]> {
        let [x, y, z] = self.count;
        let number = self.next;
        if number >= x as u128 * y as u128 * z as u128 {
            return None;
        }
        self.next = number + 1;
        let row = number / x as u128;
        Some([
            self.first[0] + (number % x as u128) as u64,
            self.first[1] + (row % y as u128) as u64,
            self.first[2] + (row / y as u128) as u64,
        ])
    }
}

impl CellWalk {
    /// All cells of the block from a first cell to a last one.
    pub(crate) fn between(first: [u64; 3], last: [u64; 3]) -> CellWalk
        requires { AreEnds first last }
        ensures { result ≡ cells_from first (counts_between first last) 0 }
    {
        CellWalk {
            first,
            count: [
                last[0] - first[0] + 1,
                last[1] - first[1] + 1,
                last[2] - first[2] + 1,
            ],
            next: 0,
        }
    }

    /// How many cells are left.
    pub(crate) fn count_left(&self) -> u128
        ensures { result ≡ length self.now }
    {
        let [x, y, z] = self.count;
        x as u128 * y as u128 * z as u128 - self.next
    }
}
