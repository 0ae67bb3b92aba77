//! Names of at most 200 bytes, as data sets and scales have.

ghost use Rattle.std.specs.Prelude.{◌≡◌, ◌≤◌, IfSome, Some, None, if◌then◌else◌, length};
ghost use Rattle.small_scales.specs.ShortNames.{is_short_name};

use vol_base::Name;

/// The name with these bytes. None exactly where they are no name or more than 200.
pub fn short_name(text: &[u8]) -> Option<Name>
    ensures name { result ≡ (if is_short_name text.now then Some text.now else None) }
    ensures short { IfSome result (λ name. length name ≤ 200) }
{
    if text.len() > 200 {
        return None;
    }
    Name::new(text)
}
