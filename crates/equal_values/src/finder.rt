//! Memory for finding, taken beforehand.
ghost use Rattle.std.specs.Prelude.{◌≡◌, ◌/◌, ◌≤◌, ◌<◌, ◌^◌, length, max, IfOk};

use crate::hash::GROUPS;
use crate::search::count_heads;
use std::alloc::{AllocError, Global};
use vol_base::OutOfMemory;

/// What finding equal values needs besides the values.
#[derive(Drop)]
pub struct Finder {
    // where the next value of each group comes
    pub(crate) cursors: Vec<u32>,
    // the places of the values by groups, and the values there
    pub(crate) order: Vec<u32>,
    pub(crate) moved: Vec<u64>,
    // the index: the chain's first position for each hash, and behind each position the next one
    pub(crate) heads: Vec<u32>,
    pub(crate) next: Vec<u32>,
    ghost cursors_ok: { length cursors.items ≡ 64 },
    ghost few: { length order.items ≤ 2 ^ 24 },
    ghost moved_ok: { length moved.items ≡ length order.items },
    ghost heads_ok: { length heads.items ≡ max (length order.items / 32) 64 },
    ghost next_ok: { length next.items ≡ length order.items },
}

fn reserve_words(alloc: Global, count: usize) -> Result<Vec<u32>, AllocError>
    ensures { IfOk result (λ v. length v.items ≡ count) }
{
    vec![in alloc; 0u32; count]
}

fn reserve_values(alloc: Global, count: usize) -> Result<Vec<u64>, AllocError>
    ensures { IfOk result (λ v. length v.items ≡ count) }
{
    vec![in alloc; 0u64; count]
}

impl Finder {
    ghost use Rattle.equal_values.specs.Reserved.{most_of};

    /// Memory for lists of so many values, and for shorter ones.
    pub fn reserve(alloc: Global, most: usize) -> Result<Finder, OutOfMemory>
        requires { most ≤ 2 ^ 24 }
        ensures { IfOk result (λ f. most_of f ≡ most) }
    {
        let cursors = reserve_words(alloc, GROUPS).map_err(|_| OutOfMemory)?;
        let order = reserve_words(alloc, most).map_err(|_| OutOfMemory)?;
        let moved = reserve_values(alloc, most).map_err(|_| OutOfMemory)?;
        let heads = reserve_words(alloc, count_heads(most)).map_err(|_| OutOfMemory)?;
        let next = reserve_words(alloc, most).map_err(|_| OutOfMemory)?;
        Ok(Finder {
            cursors,
            order,
            moved,
            heads,
            next,
        })
    }
}
