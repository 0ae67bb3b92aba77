//! What is put over the bytes of a box.
ghost use Rattle.std.specs.Prelude.{◌≡◌, ◌+◌, ◌≤◌, ℕ, List, length, take, drop, replicate};

/// Bytes that can be taken in parts.
pub(crate) trait Source {
    ghost bytes: { Self → List ℕ };

    /// How many there are.
    fn len(&self) -> usize
        ensures { result ≡ length (bytes self.now) };

    /// The `len` bytes from `at` on.
    fn part(&self, at: usize, len: usize) -> Self
        requires { at + len ≤ length (bytes self.now) }
        ensures { bytes result ≡ take len (drop at (bytes self.now)) };

    /// Puts all of them over `out`.
    fn put(&self, out: &mut [u8])
        requires { length out.old ≡ length (bytes self.now) }
        ensures { out.new ≡ bytes self.now };
}

/// Bytes that stand in memory.
#[derive(Clone, Copy)]
pub(crate) struct Stored<'a> {
    pub bytes: &'a [u8],
}

impl<'a> Source for Stored<'a> {
    ghost bytes = { λ s. s.bytes.now };

    fn len(&self) -> usize {
        self.bytes.len()
    }

    fn part(&self, at: usize, len: usize) -> Stored<'a> {
        Stored {
            bytes: &self.bytes[at..at + len],
        }
    }

    fn put(&self, out: &mut [u8]) {
        out.copy_from_slice(self.bytes);
    }
}

/// So many zeros.
#[derive(Clone, Copy)]
pub(crate) struct Zeros {
    pub len: usize,
}

impl Source for Zeros {
    ghost bytes = { λ s. replicate s.len 0 };

    fn len(&self) -> usize {
        self.len
    }

    fn part(&self, _at: usize, len: usize) -> Zeros {
        Zeros { len }
    }

    fn put(&self, out: &mut [u8]) {
        out.fill(0);
    }
}
