//! Raw scales without sharding.

ghost use Rattle.std.specs.Prelude.{◌≡◌, ◌↔◌, IfSome, IsSome, None, [], List, ℕ};
ghost use Rattle.vol_spec.specs.declared.encoding.Encoding.TheVariants.{Raw};
ghost use Rattle.small_scales.specs.RawScales.{AreParts};

use crate::sizes::{are_offsets, are_sizes, is_small, is_width};
use vol_base::Name;
use vol_spec::{ChunkSizes, Encoding, Scale};

/// The raw scale without sharding of these parts. None exactly where they don't keep the limits of
/// scales.
pub fn raw_scale(
    key: Name,
    width: u32,
    channels: u32,
    size: [u64; 3],
    offset: [i64; 3],
    chunk: [u64; 3],
) -> Option<Scale>
    ensures there { IsSome result ↔ AreParts key width channels size offset chunk }
    ensures key { IfSome result (λ s. s.key ≡ key) }
    ensures values { IfSome result (λ s. (s.width ≡ width) × (s.channels ≡ channels)) }
    ensures shape { IfSome result (λ s. (s.size ≡ size) × (s.offset ≡ offset) × (s.chunk ≡ chunk)) }
    ensures raw { IfSome result (λ s. s.encoding ≡ Raw) }
    ensures unsharded { IfSome result (λ s. s.sharding ≡ None) }
    ensures alone { IfSome result (λ s. s.more ≡ []) }
{
    if key.as_bytes().len() > 200 || !is_width(width) || channels < 1 || channels > 1024 {
        return None;
    }
    if !are_sizes(size) || !are_offsets(offset) || !are_sizes(chunk) {
        return None;
    }
    if !is_small(width, channels, size, chunk) {
        return None;
    }
    Some(Scale {
        key,
        width,
        channels,
        size,
        offset,
        chunk,
        encoding: Encoding::Raw,
        sharding: None,
        more: ChunkSizes::none(),
    })
}
