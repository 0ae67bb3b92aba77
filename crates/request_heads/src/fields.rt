//! The fields of a head.
ghost use Rattle.std.specs.Prelude.{◌≡◌, ◌≤◌, List, ℕ, length, IfOk, OnOk};
ghost use Rattle.httparse.specs.Grammar.{ReadsRequest, RequestHead};
ghost use Rattle.httparse.specs.Spans.{header_bytes, IsHeaderWithin, IsRequestOf, IsRequestWithin, span_bytes};
ghost use Rattle.http_header.specs.FieldName.{IsFieldName};
ghost use Rattle.http_header.specs.FieldValue.{IsFieldValue, plain_value};
ghost use Rattle.http_header.specs.HeaderMap.{append, value_count};
ghost use Rattle.http_header.specs.Token.{lowercase};
ghost use Rattle.request_heads.specs.Fields.{entry_of, field_map};

use http_header::{
    HeaderMap, HeaderMapError, HeaderName, HeaderNameError, HeaderValue, HeaderValueError,
};
use httparse::spans::{HeaderSpan, RequestSpans};
use std::alloc::Global;
use vol_base::OutOfMemory;

// The name of a field, in lower case.
fn read_name(alloc: Global, bytes: &[u8]) -> Result<HeaderName, OutOfMemory>
    requires { IsFieldName bytes.now }
    ensures { IfOk result (λ name. name ≡ lowercase bytes.now) }
{
    match HeaderName::from_bytes(alloc, bytes) {
        Ok(name) => Ok(name),
        Err(HeaderNameError::OutOfMemory) => Err(OutOfMemory),
        Err(HeaderNameError::Invalid) => unreachable!(),
    }
}

// The value of a field.
fn read_value(alloc: Global, bytes: &[u8]) -> Result<HeaderValue, OutOfMemory>
    requires { IsFieldValue bytes.now }
    ensures { IfOk result (λ value. value ≡ plain_value bytes.now) }
{
    match HeaderValue::from_bytes(alloc, bytes) {
        Ok(value) => Ok(value),
        Err(HeaderValueError::OutOfMemory) => Err(OutOfMemory),
        Err(HeaderValueError::Invalid) => unreachable!(),
    }
}

// Puts a field behind the others.
fn add_field(
    alloc: Global,
    map: &mut HeaderMap,
    received: &[u8],
    span: &HeaderSpan,
) -> Result<(), OutOfMemory>
    requires within { IsHeaderWithin (length received.now) span.now }
    requires name { IsFieldName (span_bytes received.now span.now.name) }
    requires value { IsFieldValue (span_bytes received.now span.now.value) }
    requires names { length map.old ≤ 4096 }
    requires values { value_count map.old ≤ 4096 }
    ensures { OnOk result (map.new ≡ append map.old (entry_of (header_bytes received.now span.now)).0
        (entry_of (header_bytes received.now span.now)).1) }
{
    let name = read_name(alloc, span.name.of(received))?;
    let value = read_value(alloc, span.value.of(received))?;
    match map.append(name, value) {
        Ok(_) => Ok(()),
        Err(HeaderMapError::OutOfMemory) => Err(OutOfMemory),
        Err(HeaderMapError::MaxSizeReached) => unreachable!(),
    }
}

/// The fields of a head whose parts were found in received bytes, by their names.
///
/// # Errors
/// `OutOfMemory`.
pub fn read_fields(
    alloc: Global,
    received: &[u8],
    spans: &[HeaderSpan],
    parts: &RequestSpans,
) -> Result<HeaderMap, OutOfMemory>
    requires within { IsRequestWithin received.now spans.now parts.now }
    requires parts { IsRequestOf received.now spans.now parts.now }
    requires few { length spans.now ≤ 4096 }
    requires short { length received.now ≤ 8192 }
    ensures { IfOk result (λ map. (head : RequestHead) (rest : List ℕ) → ReadsRequest received.now head rest →
        map ≡ field_map head.fields) }
{
    let mut map = HeaderMap::new(alloc);
    for number in 0..parts.headers {
        add_field(alloc, &mut map, received, &spans[number])?;
    }
    Ok(map)
}
