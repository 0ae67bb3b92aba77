//! Whether two scales have their cells alike.
ghost use Rattle.std.specs.Prelude.{◌≡◌, ◌↔◌, IfOk, IsTrue};
ghost use Rattle.vol_spec.specs.Copies.{AreOfOneVolume};
ghost use Rattle.vol_spec.specs.declared.encoding.Encoding.TheVariants.{Raw, Seg};
ghost use Rattle.copy_laws.specs.Twins.{AreTwins};

use cutout::KeepingReader;
use std::alloc::Global;
use vol_base::OutOfMemory;
use vol_spec::{Encoding, Scale};

// Whether two scales have the same chunk size.
fn has_chunk(from: &Scale, to: &Scale) -> bool
    ensures { IsTrue result ↔ (from.now.chunk ≡ to.now.chunk) }
{
    from.chunk == to.chunk
}

// Whether two block sizes are the same.
fn is_block(a: [u64; 3], b: [u64; 3]) -> bool
    ensures { IsTrue result ↔ (a ≡ b) }
{
    a == b
}

// Whether the chunks of a scale have their values as they are.
fn is_raw(scale: &Scale) -> bool
    ensures { IsTrue result → scale.now.encoding ≡ Raw }
{
    match scale.encoding {
        Encoding::Raw => true,
        Encoding::Seg { .. } => false,
    }
}

// Whether the chunks of a scale are in blocks of this size.
fn is_blocked(scale: &Scale, block: [u64; 3]) -> bool
    ensures { IsTrue result → scale.now.encoding ≡ Seg block }
{
    match scale.encoding {
        Encoding::Raw => false,
        Encoding::Seg { block: own } => is_block(own, block),
    }
}

// Whether two scales have chunks of one encoding.
fn has_encoding(from: &Scale, to: &Scale) -> bool
    ensures { IsTrue result → from.now.encoding ≡ to.now.encoding }
{
    match from.encoding {
        Encoding::Raw => is_raw(to),
        Encoding::Seg { block } => is_blocked(to, block),
    }
}

/// Whether the chunks of two scales of one volume are of one grid and one encoding.
pub(crate) fn are_twins(from: &Scale, to: &Scale) -> bool
    requires { AreOfOneVolume from.now to.now }
    ensures { IsTrue result → AreTwins from.now to.now }
{
    if !has_chunk(from, to) {
        return false;
    }
    if !has_encoding(from, to) {
        return false;
    }
    true
}

/// The same reader, which takes chunks as they are stored where that is of use.
pub(crate) fn keep_reader(
    alloc: Global,
    reader: KeepingReader,
    twins: bool,
) -> Result<KeepingReader, OutOfMemory>
    ensures { IfOk result (λ kept. kept ≡ reader) }
{
    if twins {
        reader.taking(alloc)
    } else {
        Ok(reader)
    }
}
