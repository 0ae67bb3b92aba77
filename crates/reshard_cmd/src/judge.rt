//! Whether two scales are of one volume.
ghost use Rattle.std.specs.Prelude.{◌≡◌, ◌↔◌, IsTrue, MatchOption};
ghost use Rattle.vol_spec.specs.Copies.{AreOfOneVolume};
ghost use Rattle.reshard_cmd.specs.Judging.{DiffersFirst};

use info_doc::Item;
use vol_spec::Scale;

// Whether two scales have the same size.
fn has_size(from: &Scale, to: &Scale) -> bool
    ensures { IsTrue result ↔ (from.now.size ≡ to.now.size) }
{
    from.size == to.size
}

// Whether two scales have the same offset.
fn has_offset(from: &Scale, to: &Scale) -> bool
    ensures { IsTrue result ↔ (from.now.offset ≡ to.now.offset) }
{
    from.offset == to.offset
}

/// The first item in which two scales differ; none where they are of one volume.
pub(crate) fn find_difference(from: &Scale, to: &Scale) -> Option<Item>
    ensures { MatchOption result (AreOfOneVolume from.now to.now) (DiffersFirst from.now to.now) }
{
    if !has_size(from, to) {
        return Some(Item::Size);
    }
    if !has_offset(from, to) {
        return Some(Item::VoxelOffset);
    }
    if from.width != to.width {
        return Some(Item::DataType);
    }
    if from.channels != to.channels {
        return Some(Item::NumChannels);
    }
    None
}
