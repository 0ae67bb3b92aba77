//! The room that serving a connection takes.
ghost use Rattle.std.specs.Prelude.{◌≡◌, ◌≤◌, IfOk, None, OnErr, false, length};

use crate::plan::reserve_spans;
use crate::write::Writer;
use httparse::spans::HeaderSpan;
use std::alloc::Global;
use vol_base::OutOfMemory;

// How many bytes of a reply leave at once: a head, which has at most 512, and 64 KiB behind it. So a range of 64 KiB, as
// viewers ask for, is read and sent in one call each.
const PIECE: usize = 512 + (1 << 16);

/// What was received and not yet used, the parts of a head in it, as many as 8,192 bytes can have, and where replies are made. What
/// served one connection may serve the next one.
#[derive(Drop)]
pub struct Desk {
    pub(crate) received: Vec<u8>,
    pub(crate) spans: Vec<HeaderSpan>,
    pub(crate) writer: Writer,
    ghost received_ok: { length received.items ≡ 8192 },
    ghost spans_ok: { length spans.items ≡ 2730 },
    ghost piece_ok: { 512 ≤ length writer.piece.items },
}

// Room for so many bytes.
fn reserve_bytes(alloc: Global, len: usize) -> Result<Vec<u8>, OutOfMemory>
    ensures { IfOk result (λ bytes. length bytes.items ≡ len) }
{
    match Vec::from_elem(alloc, 0, len) {
        Ok(bytes) => Ok(bytes),
        Err(_) => Err(OutOfMemory),
    }
}

fn open_desk(alloc: Global) -> Result<Desk, OutOfMemory>
    ensures { IfOk result (λ desk. desk.writer.failing ≡ false) }
{
    let received = reserve_bytes(alloc, 8192)?;
    let spans = reserve_spans(alloc, 2730)?;
    let piece = reserve_bytes(alloc, PIECE)?;
    let Ok(text) = String::with_capacity(alloc, 512) else {
        return Err(OutOfMemory);
    };
    Ok(Desk {
        received,
        spans,
        writer: Writer {
            text,
            piece,
            failing: false,
        },
    })
}

/// The desk that is kept, or a new one.
pub(crate) fn take_desk(alloc: Global, kept: &mut Option<Desk>) -> Result<Desk, OutOfMemory>
    ensures calm { IfOk result (λ desk. desk.writer.failing ≡ false) }
    ensures none { OnErr result (kept.old ≡ None) }
{
    match kept.take() {
        Some(mut desk) => {
            desk.writer.failing = false;
            Ok(desk)
        }
        None => open_desk(alloc),
    }
}
