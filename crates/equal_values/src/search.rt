//! The first equal value for each, group by group. A place is one in the list of values; a position one in the order by
//! groups.
ghost use Rattle.std.specs.Prelude.{◌≡◌, ◌+◌, ◌*◌, ◌/◌, ◌^◌, ◌<◌, ◌≤◌, ℕ, length, slice_index, slice_set, IsTrue, max};
ghost use Rattle.equal_values.specs.Earlier.{earlier as earlier_of, coded};
ghost use Rattle.equal_values.specs.Orders.{IsOrder};
ghost use Rattle.equal_values.specs.Chains.{IsIndex};
ghost use Rattle.equal_values.specs.Members.{group_at, home_at, is_member};

use crate::hash::{GROUPS, find_group, hash};
use crate::index::{Sought, add, clear, find_equal, spread_hash};

// A position whose value is sought among those before it, in the index of its group.
#[derive(Clone, Copy)]
struct Position<'a> {
    moved: &'a [u64],
    at: usize,
}

impl Sought for Position<'_> {
    ghost use Rattle.std.specs.Prelude.{◌==◌, ◌<◌, slice_index, length};
    ghost use Rattle.equal_values.specs.Members.{group_at, home_at, is_member};

    ghost number = { λ p. p.at };

    ghost home_of = { λ p. home_at p.moved.now };

    ghost placed = { λ p. is_member p.moved.now (group_at p.moved.now p.at) };

    ghost equals = { λ p j. slice_index p.moved.now j == slice_index p.moved.now p.at };

    ghost ready = { λ p. p.at < length p.moved.now };

    fn is_equal(&self, j: usize) -> bool {
        self.moved[j] == self.moved[self.at]
    }
}

// The first position whose value equals that of position a, if it is before a.
fn find_position(moved: &[u64], heads: &[u32], next: &[u32], home: usize, a: usize) -> Option<usize>
    requires index { IsIndex (home_at moved.now (length heads.now))
        (is_member moved.now (group_at moved.now a)) heads.now next.now a }
    requires home { home ≡ home_at moved.now (length heads.now) a }
    requires heads { home < length heads.now }
    requires next { a < length next.now }
    requires moved { a < length moved.now }
    ensures { result ≡ earlier_of moved.now a }
{
    find_equal(&Position { moved, at: a }, heads, next, home)
}

// The answer for the value at position a, which is put into the index where it is new.
fn search_position(
    _values: &[u64],
    order: &[u32],
    moved: &[u64],
    heads: &mut [u32],
    next: &mut [u32],
    a: usize,
) -> u32
    requires order { IsOrder _values.now order.now moved.now (length _values.now) }
    requires few { length _values.now ≤ 2 ^ 24 }
    requires order_len { length _values.now ≤ length order.now }
    requires moved_len { length _values.now ≤ length moved.now }
    requires some_heads { 0 < length heads.old }
    requires few_heads { length heads.old < 2 ^ 32 }
    requires next { length _values.now ≤ length next.old }
    requires here { a < length _values.now }
    requires index { IsIndex (home_at moved.now (length heads.old))
        (is_member moved.now (group_at moved.now a)) heads.old next.old a }
    ensures value { result ≡ coded (earlier_of _values.now (slice_index order.now a)) }
    ensures index { IsIndex (home_at moved.now (length heads.old))
        (is_member moved.now (group_at moved.now a)) heads.new next.new (a + 1) }
{
    let home = spread_hash(hash(moved[a]), heads.len());
    match find_position(moved, heads, next, home, a) {
        Some(b) => order[b] + 1,
        None => {
            add(heads, next, home, a);
            0
        }
    }
}

// Puts a number at a place that has 0. Where most values stand once, most numbers are 0, and places far from each other
// take time to write.
fn put_number(earlier: &mut [u32], place: usize, number: u32)
    requires within { place < length earlier.old }
    requires free { slice_index earlier.old place ≡ 0 }
    ensures { earlier.new ≡ slice_set earlier.old place number }
{
    if number != 0 {
        earlier[place] = number;
    }
}

// The group of position a; the index is emptied where it is another than the one before.
fn enter_group(
    _values: &[u64],
    _order: &[u32],
    moved: &[u64],
    heads: &mut [u32],
    _next: &[u32],
    group: usize,
    a: usize,
) -> usize
    requires order { IsOrder _values.now _order.now moved.now (length _values.now) }
    requires here { a < length _values.now }
    requires moved { length _values.now ≤ length moved.now }
    requires before { (b : ℕ) → b + 1 ≡ a → group_at moved.now b ≡ group }
    requires index { IsIndex (home_at moved.now (length heads.old))
        (is_member moved.now group) heads.old _next.now a }
    ensures group { result ≡ group_at moved.now a }
    ensures index { IsIndex (home_at moved.now (length heads.old))
        (is_member moved.now (group_at moved.now a)) heads.new _next.now a }
{
    let entered = find_group(moved[a]);
    if entered != group {
        clear(heads);
    }
    entered
}

// All in order, with these heads.
fn search_positions(
    _values: &[u64],
    order: &[u32],
    moved: &[u64],
    heads: &mut [u32],
    next: &mut [u32],
    earlier: &mut [u32],
)
    requires order { IsOrder _values.now order.now moved.now (length _values.now) }
    requires few { length _values.now ≤ 2 ^ 24 }
    requires order_len { length _values.now ≤ length order.now }
    requires moved_len { length _values.now ≤ length moved.now }
    requires some_heads { 0 < length heads.old }
    requires few_heads { length heads.old < 2 ^ 32 }
    requires next { length _values.now ≤ length next.old }
    requires earlier { length _values.now ≡ length earlier.old }
    ensures { (k : ℕ) → k < length _values.now → slice_index earlier.new k
        ≡ coded (earlier_of _values.now k) }
{
    clear(heads);
    clear(earlier);
    let mut group = GROUPS;
    for a in 0..earlier.len() {
        group = enter_group(_values, order, moved, heads, next, group, a);
        let number = search_position(_values, order, moved, heads, next, a);
        put_number(earlier, order[a] as usize, number);
    }
}

/// How many heads the index of a group has, for so many values in all: about two for each value of a group, where the
/// groups are alike. The number is for speed alone.
pub(crate) fn count_heads(values: usize) -> usize
    ensures { result ≡ max (values / 32) 64 }
{
    (values / 32).max(64)
}

/// For each value the place of the first equal one before it and 1, or 0 for none.
///
/// `order` has the places of the values by groups, and `moved` the values there. `heads` and `next` are room for the
/// index.
pub(crate) fn find_in_order(
    _values: &[u64],
    order: &[u32],
    moved: &[u64],
    heads: &mut [u32],
    next: &mut [u32],
    earlier: &mut [u32],
)
    requires order { IsOrder _values.now order.now moved.now (length _values.now) }
    requires few { length _values.now ≤ 2 ^ 24 }
    requires order_len { length _values.now ≤ length order.now }
    requires moved_len { length _values.now ≤ length moved.now }
    requires heads { max (length _values.now / 32) 64 ≤ length heads.old }
    requires next { length _values.now ≤ length next.old }
    requires earlier { length _values.now ≡ length earlier.old }
    ensures { (k : ℕ) → k < length _values.now → slice_index earlier.new k
        ≡ coded (earlier_of _values.now k) }
{
    let count = count_heads(earlier.len());
    search_positions(_values, order, moved, &mut heads[..count], next, earlier);
}
