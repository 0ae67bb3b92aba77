//! Lengths of raw chunks.
ghost use Rattle.std.specs.Prelude.{◌≡◌, ◌<◌, ◌^◌, ◌==◌, if◌then◌else◌};
ghost use Rattle.vol_spec.specs.Raw.{raw_len};

use vol_base::{Box3, ChunkFault};

// The bytes of a box's values. Where no factor is 0, no product of some of them passes the whole.
fn count_bytes(part: &Box3, channels: u32, width: u32) -> u64
    requires { raw_len part.now channels width < 2 ^ 64 }
    ensures { result ≡ raw_len part.now channels width }
{
    let [x, y, z] = part.size;
    if x == 0 || y == 0 || z == 0 || channels == 0 || width == 0 {
        return 0;
    }
    x * y * z * channels as u64 * width as u64
}

/// Judges the length of a raw chunk, in bytes: it is the number of the box's voxels times the channels
/// times the width of a value in bytes (precomputed volume format, raw chunk encoding).
/// A length that isn't this one is `ChunkLength`.
pub fn check_len(found: u64, part: &Box3, channels: u32, width: u32) -> Result<(), ChunkFault>
    requires { raw_len part.now channels width < 2 ^ 64 }
    ensures { result ≡ (if found == raw_len part.now channels width then Ok tt
        else Err (ChunkFault.ChunkLength found (raw_len part.now channels width))) }
{
    let wanted = count_bytes(part, channels, width);
    if found == wanted {
        Ok(())
    } else {
        Err(ChunkFault::ChunkLength { found, wanted })
    }
}
