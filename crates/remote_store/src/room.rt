//! Room that a store takes once.
ghost use Rattle.std.specs.Prelude.{◌≡◌, ◌≤◌, length, vec_capacity, IfOk};
ghost use Rattle.remote_store.specs.Requests.{peer_value};

use crate::text::{add, add_number};
use httparse::spans::{EMPTY_HEADER_SPAN, HeaderSpan};
use std::alloc::Global;
use vol_base::OutOfMemory;

/// So many bytes.
pub(crate) fn reserve_bytes(alloc: Global, len: usize) -> Result<Vec<u8>, OutOfMemory>
    ensures { IfOk result (λ bytes. length bytes.items ≡ len) }
{
    match Vec::from_elem(alloc, 0, len) {
        Ok(bytes) => Ok(bytes),
        Err(_) => Err(OutOfMemory),
    }
}

/// The spans of so many fields.
pub(crate) fn reserve_spans(alloc: Global, fields: usize) -> Result<Vec<HeaderSpan>, OutOfMemory>
    ensures { IfOk result (λ spans. length spans.items ≡ fields) }
{
    match Vec::from_elem(alloc, EMPTY_HEADER_SPAN, fields) {
        Ok(spans) => Ok(spans),
        Err(_) => Err(OutOfMemory),
    }
}

/// No bytes, and room for so many.
pub(crate) fn reserve_text(alloc: Global, len: usize) -> Result<Vec<u8>, OutOfMemory>
    ensures { IfOk result (λ text. len ≤ vec_capacity text) }
{
    match Vec::with_capacity(alloc, len) {
        Ok(text) => Ok(text),
        Err(_) => Err(OutOfMemory),
    }
}

/// A peer's name and port, as `HOST:PORT`.
pub(crate) fn write_peer(alloc: Global, host: &str, port: u16) -> Result<Vec<u8>, OutOfMemory>
    ensures { IfOk result (λ peer. peer.items ≡ peer_value host.now port) }
{
    let mut peer = Vec::new(alloc);
    add(&mut peer, host.as_bytes())?;
    add(&mut peer, b":")?;
    add_number(&mut peer, u64::from(port))?;
    Ok(peer)
}
