//! What the fields of a request ask.
ghost use Rattle.std.specs.Prelude.{◌≡◌, bytes_eq, codes, not};
ghost use Rattle.std.specs.List.{list_any};
ghost use Rattle.std.specs.Option.{option_map};
ghost use Rattle.request_heads.specs.Asks.{brings_body, bytes_of, only_range};
ghost use Rattle.request_heads.specs.Words.{has_close};

use crate::words::has_close;
use http_header::HeaderMap;

// Whether a length of a body isn't `0`.
fn has_length(fields: &HeaderMap) -> bool
    ensures { result ≡ list_any (λ v. not (bytes_eq v (codes "0")))
        (bytes_of fields.now (codes "content-length")) }
{
    fields
        .get_all("content-length")
        .iter()
        .any(|value| value.as_bytes() != b"0".as_slice())
}

/// Whether a body comes, or may come, behind the head.
pub fn has_body(fields: &HeaderMap) -> bool
    ensures { result ≡ brings_body (bytes_of fields.now (codes "transfer-encoding"))
        (bytes_of fields.now (codes "content-length")) }
{
    fields.get("transfer-encoding").is_some() || has_length(fields)
}

/// Whether `close` is a member of a Connection field.
pub fn asks_close(fields: &HeaderMap) -> bool
    ensures { result ≡ list_any has_close (bytes_of fields.now (codes "connection")) }
{
    fields
        .get_all("connection")
        .iter()
        .any(|value| has_close(value.as_bytes()))
}

/// The only range value, unless it is asked on a condition.
pub fn find_range(fields: &HeaderMap) -> Option<&[u8]>
    ensures { option_map (λ b. b.now) result ≡ only_range (bytes_of fields.now (codes "range"))
        (bytes_of fields.now (codes "if-range")) }
{
    if fields.get("if-range").is_some() {
        return None;
    }
    let mut values = fields.get_all("range").iter();
    match (values.next(), values.next()) {
        (Some(value), None) => Some(value.as_bytes()),
        _ => None,
    }
}
