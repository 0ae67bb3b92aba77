//! Further chunk sizes of a scale.
ghost use Rattle.std.specs.Prelude.{◌≡◌, ◌+◌, ◌<◌, ◌≤◌, ◌++◌, ◌∷◌, [], length, slice_index_or, take};

use std::marker::Model;

/// At most seven chunk sizes, in voxels, x first. They are seen as their list.
#[derive(Debug, Drop)]
pub struct ChunkSizes {
    sizes: [[u64; 3]; 7],
    len: u32,
}

impl Model for ChunkSizes {
    ghost use Rattle.std.specs.Prelude.{◌≤◌, List, ℕ, take};

    ghost Value = { List (List ℕ) };

    ghost view = { λ s. take s.len s.sizes };

    ghost invariant = { λ s. s.len ≤ 7 };
}

// Puts a size into a list of them.
fn put(sizes: &mut [[u64; 3]; 7], at: u32, size: [u64; 3])
    requires { at < 7 }
    ensures { take (at + 1) sizes.new ≡ take at sizes.old ++ size ∷ [] }
{
    sizes[at as usize] = size;
}

impl ChunkSizes {
    /// No size.
    pub fn none() -> ChunkSizes
        ensures { result ≡ [] }
    {
        ChunkSizes {
            sizes: [[0; 3]; 7],
            len: 0,
        }
    }

    /// How many sizes there are.
    pub fn len(&self) -> u32
        ensures len { result ≡ length self.now }
        ensures few { length self.now ≤ 7 }
    {
        self.len
    }

    /// A size, by its number.
    pub fn get(&self, k: u32) -> [u64; 3]
        requires { k < length self.now }
        ensures { result ≡ slice_index_or self.now k [] }
    {
        self.sizes[k as usize]
    }

    /// A size more, behind the others.
    pub fn push(&mut self, size: [u64; 3])
        requires { length self.old < 7 }
        ensures { self.new ≡ self.old ++ size ∷ [] }
    {
        put(&mut self.sizes, self.len, size);
        self.len += 1;
    }

    /// The same sizes once more. It takes no memory.
    pub fn duplicate(&self) -> ChunkSizes
        ensures { result ≡ self.now }
    {
        ChunkSizes {
            sizes: self.sizes,
            len: self.len,
        }
    }
}
