//! The regions in which the further views of a scale are compared with the first one.
ghost use Rattle.std.specs.Prelude.{◌≡◌, ◌<◌, ◌^◌, length};
ghost use Rattle.view_judge.specs.Regions.{has_most as most_of, is_joint as joint_of, longer, longest_of, own_regions, own_size as own_of, region_size as size_of, regions};

use chunk_grid::byte_len;
use vol_base::Box3;
use vol_spec::{ChunkSizes, Encoding, Scale};

// The values of a region of one view have at most so many bytes, unless it is a cell of the view.
const MOST_BYTES: u128 = 1 << 27;

// Those of a region of all views have fewer: all of them pass through memory for each view.
const JOINT_BYTES: u128 = 1 << 24;

// On each axis the longer of two sizes.
fn longer_size(a: [u64; 3], b: [u64; 3]) -> [u64; 3]
    ensures { result ≡ longer a b }
{
    [a[0].max(b[0]), a[1].max(b[1]), a[2].max(b[2])]
}

// On each axis the longest of all chunk sizes.
fn longest_size(scale: &Scale) -> [u64; 3]
    ensures { result ≡ longest_of scale.now (length scale.now.more) }
{
    let mut size = scale.chunk;
    for k in 0..scale.more.len() {
        let longest = longer_size(size, scale.view(k + 1).chunk);
        size = longest;
    }
    size
}

// Whether the values of a scale's first cell, were it of that size, have at most so many bytes.
fn has_most(most: u128, scale: &Scale, size: [u64; 3]) -> bool
    requires { most < 2 ^ 64 }
    ensures { result ≡ most_of most scale.now size }
{
    let [x, y, z] = scale.size;
    let first = Box3 {
        begin: scale.offset,
        size: [size[0].min(x), size[1].min(y), size[2].min(z)],
    };
    byte_len(&first, scale.channels, scale.width) <= most
}

/// Whether all views are compared by the same regions: where the values of these have few bytes.
pub(crate) fn is_joint(scale: &Scale) -> bool
    ensures { result ≡ joint_of scale.now }
{
    has_most(JOINT_BYTES, scale, longest_size(scale))
}

// The size of a region of all views: on each axis as long as the longest chunk, so that where each chunk size divides
// that no chunk lies in two regions.
fn region_size(scale: &Scale) -> [u64; 3]
    ensures { result ≡ size_of scale.now }
{
    if is_joint(scale) {
        longest_size(scale)
    } else {
        scale.chunk
    }
}

// The size of a region of one view: as long as the longer of both chunks; or as a chunk of the view, where the values of
// such a region would have too many bytes.
fn own_size(first: &Scale, view: &Scale) -> [u64; 3]
    ensures { result ≡ own_of first.now view.now }
{
    let longer = longer_size(first.chunk, view.chunk);
    if has_most(MOST_BYTES, view, longer) {
        longer
    } else {
        view.chunk
    }
}

/// The regions of a scale, as the cells of a scale, by which nothing is read. It takes no memory.
pub(crate) fn find_regions(scale: &Scale) -> Scale
    ensures { result ≡ regions scale.now }
{
    Scale {
        key: scale.key.duplicate(),
        width: scale.width,
        channels: scale.channels,
        size: scale.size,
        offset: scale.offset,
        chunk: region_size(scale),
        encoding: Encoding::Raw,
        sharding: None,
        more: ChunkSizes::none(),
    }
}

/// The regions of a view beside the first view, likewise.
pub(crate) fn find_own_regions(first: &Scale, view: &Scale) -> Scale
    ensures { result ≡ own_regions first.now view.now }
{
    Scale {
        key: view.key.duplicate(),
        width: view.width,
        channels: view.channels,
        size: view.size,
        offset: view.offset,
        chunk: own_size(first, view),
        encoding: Encoding::Raw,
        sharding: None,
        more: ChunkSizes::none(),
    }
}
