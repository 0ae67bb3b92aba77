//! Values of a JSON text.
ghost use Rattle.std.specs.Prelude.{◌≡◌, map, is_some, option_map};
ghost use Rattle.std.specs.Str.{str_eq_ignore_ascii_case};
ghost use Rattle.serde_json.specs.Find.{as_number};
ghost use Rattle.serde_json.specs.View.{view};
ghost use Rattle.info_doc.specs.Json.{triple, whole, signed, elements};
ghost use Rattle.info_doc.specs.Steps.{has_zero, passes, passes_either_way, is_like};

use serde_json::Value;

/// The elements of an array. None where the value is anything else.
pub(crate) fn read_elements(value: &Value) -> Option<&[Value]>
    ensures { option_map (λ s. map view s.now) result ≡ elements (view value.now) }
{
    Some(value.as_array()?.as_slice())
}

/// Three whole numbers. None where the value is anything else.
pub(crate) fn read_triple(value: &Value) -> Option<[u64; 3]>
    ensures { result ≡ triple whole (view value.now) }
{
    match read_elements(value)? {
        [x, y, z] => Some([x.as_u64()?, y.as_u64()?, z.as_u64()?]),
        _ => None,
    }
}

/// Three signed whole numbers. None where the value is anything else.
pub(crate) fn read_signed_triple(value: &Value) -> Option<[i64; 3]>
    ensures { result ≡ triple signed (view value.now) }
{
    match read_elements(value)? {
        [x, y, z] => Some([x.as_i64()?, y.as_i64()?, z.as_i64()?]),
        _ => None,
    }
}

/// Whether the value is an array of three numbers.
pub(crate) fn is_three_numbers(value: &Value) -> bool
    ensures { result ≡ is_some (triple as_number (view value.now)) }
{
    match read_elements(value) {
        Some([x, y, z]) => x.is_number() && y.is_number() && z.is_number(),
        _ => false,
    }
}

/// Whether the text is the wanted one but for the case of ASCII letters.
pub(crate) fn is_like(wanted: &str, found: &str) -> bool
    ensures { result ≡ is_like wanted.now found.now }
{
    found.eq_ignore_ascii_case(wanted)
}

/// Whether some number passes the limit.
pub(crate) fn passes(limit: u64, numbers: &[u64]) -> bool
    ensures { result ≡ passes limit numbers.now }
{
    numbers.iter().any(|n| *n > limit)
}

/// Whether some number passes the limit, either way.
pub(crate) fn passes_either_way(limit: u64, numbers: &[i64]) -> bool
    ensures { result ≡ passes_either_way limit numbers.now }
{
    numbers.iter().any(|n| n.unsigned_abs() > limit)
}

/// Whether some number is 0.
pub(crate) fn has_zero(numbers: &[u64]) -> bool
    ensures { result ≡ has_zero numbers.now }
{
    numbers.iter().any(|n| *n == 0)
}
