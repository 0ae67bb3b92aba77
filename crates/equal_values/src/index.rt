//! An index of numbered things, by a hash that equal ones share. For each hash there is a chain of them, the one put in
//! last in front: `heads` has the first of each chain, and `next` the one behind each. A thing stands there as its number
//! and 1, and 0 ends a chain.
ghost use Rattle.std.specs.Prelude.{◌≡◌, ◌+◌, ◌^◌, ◌<◌, ◌≤◌, ℕ, Bool, IsTrue, length, slice_index};
ghost use Rattle.equal_values.specs.Chains.{Adds, IsFound, IsIndex, spread};

/// A thing that is sought among those before it.
pub trait Sought {
    // its number
    ghost number: { Self → ℕ };

    // the place of a thing's hash among so many
    ghost home_of: { Self → ℕ → ℕ → ℕ };

    // whether a thing is in the index, and whether it equals this one
    ghost placed: { Self → ℕ → Bool };

    ghost equals: { Self → ℕ → Bool };

    // what comparing needs
    ghost ready: { Self → Type 0 };

    /// Whether an earlier thing equals this one.
    fn is_equal(&self, j: usize) -> bool
        requires ready { ready self.now }
        requires before { j < number self.now }
        ensures { result ≡ equals self.now j };
}

/// The place of a hash among so many, by its high half.
pub fn spread_hash(h: u64, places: usize) -> usize
    requires some { 0 < places }
    requires few { places < 2 ^ 32 }
    ensures value { result ≡ spread h places }
    ensures below { result < places }
{
    (((h >> 32) * places as u64) >> 32) as usize
}

/// Makes all numbers 0. An index is emptied by its heads alone.
pub fn clear(numbers: &mut [u32])
    ensures { (i : ℕ) → i < length numbers.new → slice_index numbers.new i ≡ 0 }
{
    numbers.fill(0);
}

/// The last thing in the index that equals the sought one, whose home is told.
pub fn find_equal<S: Sought>(sought: &S, heads: &[u32], next: &[u32], home: usize) -> Option<usize>
    requires ready { S.ready sought.now }
    requires index { IsIndex (S.home_of sought.now (length heads.now))
        (S.placed sought.now) heads.now next.now (S.number sought.now) }
    requires home { home ≡ S.home_of sought.now (length heads.now) (S.number sought.now) }
    requires shared { (j : ℕ) → IsTrue (S.equals sought.now j) →
        S.home_of sought.now (length heads.now) j ≡ home }
    requires heads { home < length heads.now }
    requires next { S.number sought.now ≤ length next.now }
    ensures { IsFound (S.placed sought.now) (S.equals sought.now) (S.number sought.now) result }
{
    let mut cursor = heads[home] as usize;
    while cursor != 0 {
        let j = cursor - 1;
        if sought.is_equal(j) {
            return Some(j);
        }
        cursor = next[j] as usize;
    }
    None
}

/// Puts thing k into the index, in front of those with its home.
pub fn add(heads: &mut [u32], next: &mut [u32], home: usize, k: usize)
    requires heads { home < length heads.old }
    requires next { k < length next.old }
    requires small { k + 1 < 2 ^ 32 }
    ensures { Adds heads.old next.old heads.new next.new home k }
{
    next[k] = heads[home];
    heads[home] = (k + 1) as u32;
}
