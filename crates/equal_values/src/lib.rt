//! For each value of a list, the first one before it that is equal.
#![tactic(auto)]

ghost use Rattle.std.specs.Prelude.{◌≡◌, ◌<◌, ◌≤◌, ℕ, length, slice_index};
ghost use Rattle.equal_values.specs.Earlier.{earlier as earlier_of, coded};
ghost use Rattle.equal_values.specs.Reserved.{most_of};

mod finder;
mod group;
mod hash;
pub mod index;
mod search;

pub use finder::Finder;
use group::group_values;
use search::find_in_order;

/// For each value the place of the first equal one before it and 1, or 0 for none.
pub fn find_earlier(values: &[u64], finder: &mut Finder, earlier: &mut [u32])
    requires room { length values.now ≤ most_of finder.old }
    requires earlier { length values.now ≡ length earlier.old }
    ensures earlier { (k : ℕ) → k < length values.now →
        slice_index earlier.new k ≡ coded (earlier_of values.now k) }
    ensures finder { most_of finder.new ≡ most_of finder.old }
{
    group_values(
        values,
        &mut finder.cursors,
        &mut finder.order,
        &mut finder.moved,
    );
    find_in_order(
        values,
        &finder.order,
        &finder.moved,
        &mut finder.heads,
        &mut finder.next,
        earlier,
    );
}
