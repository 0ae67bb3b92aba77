//! Writes of boxes.

use std::fmt;
use std::marker::Model;
use vol_base::Box3;

/// A box and the bytes of its values, in the order of a raw chunk.
#[derive(Drop)]
pub(crate) struct Write {
    pub part: Box3,
    pub bytes: Vec<u8>,
}

/// Writes in order: at most 65,536, their values together at most 2^30 bytes, each box with no
/// empty axis and with the bytes of its values.
#[derive(Drop)]
pub struct Writes {
    pub(crate) items: Vec<Write>,
}

impl Model for Writes {
    ghost use Rattle.std.specs.Prelude.{List, ℕ};
    ghost use Rattle.write_plan.specs.WriteLists.{AreWrites, BoxWrite, writes_in};

    ghost Value = { List BoxWrite };

    ghost view = { λ w. writes_in w.items.items };

    ghost invariant = { λ w. AreWrites (writes_in w.items.items) };
}

impl Writes {
    ghost use Rattle.std.specs.Prelude.{◌≡◌, ◌<◌, ◌↔◌, IsTrue, length};
    ghost use Rattle.write_plan.specs.WriteLists.{AreWrites, write_of, writes_in};

    /// How many writes there are.
    pub fn len(&self) -> usize
        ensures { result ≡ length self.now }
    {
        self.items.len()
    }

    /// Whether there is no write.
    pub fn is_empty(&self) -> bool
        ensures { IsTrue result ↔ (length self.now ≡ 0) }
    {
        self.items.is_empty()
    }

    /// The box of a write, by its number.
    pub fn part(&self, write: usize) -> Box3
        requires { write < length self.now }
        ensures { result ≡ (write_of self.now write).0 }
    {
        self.items[write].part
    }

    /// The bytes of a write's values, by its number.
    pub fn bytes(&self, write: usize) -> &[u8]
        requires { write < length self.now }
        ensures { result.now ≡ (write_of self.now write).1 }
    {
        &self.items[write].bytes
    }

    /// All writes.
    pub(crate) fn list(&self) -> &[Write]
        ensures writes { writes_in result.now ≡ self.now }
        ensures limits { AreWrites self.now }
    {
        &self.items
    }
}

/// How many they are.
impl fmt::Debug for Writes {
    fn fmt<W: fmt::Write>(&self, f: &mut fmt::Formatter<W>) -> fmt::Result {
        f.debug_struct("Writes").field("len", &self.len()).finish()
    }
}
