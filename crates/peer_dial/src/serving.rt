//! The replies of a server to what was sent.
ghost use Rattle.std.specs.Prelude.{◌≡◌, ◌++◌, [], IfOk, OnErr, OnOk};
ghost use Rattle.peer_dial.specs.Shelves.{HasReplies, objects_on};

use crate::entry::Entry;
use crate::shelf::Shelf;
use range_server::{serve_conn, tell_replies};
use std::alloc::Global;
use vol_base::{MemoryLink, Name, OutOfMemory};

// How many bytes of replies a connection has room for.
const ROOM: usize = 1 << 20;

fn copy_bytes(alloc: Global, bytes: &[u8]) -> Result<Vec<u8>, OutOfMemory>
    ensures { IfOk result (λ copy. copy.items ≡ bytes.now) }
{
    let mut copy = Vec::new(alloc);
    match copy.extend_from_slice(bytes) {
        Ok(()) => Ok(copy),
        Err(_) => Err(OutOfMemory),
    }
}

// The replies of a server of the objects to what was sent.
fn make_replies(
    alloc: Global,
    entries: &[Entry],
    dataset: &Name,
    sent: &[u8],
) -> Result<Vec<u8>, OutOfMemory>
    ensures { IfOk result (λ replies. HasReplies (objects_on entries.now) dataset.now sent.now replies.items) }
{
    let bytes = copy_bytes(alloc, sent)?;
    let mut link = MemoryLink::new(alloc, bytes, ROOM, ROOM, Vec::new(alloc))?;
    let mut shelf = Shelf { entries, asked: 0 };
    match serve_conn(alloc, &mut link, &mut shelf, dataset, &mut None) {
        Ok(()) => {}
        Err(_) => return Err(OutOfMemory),
    }
    tell_replies();
    copy_bytes(alloc, link.sent())
}

/// Nothing was sent on a new connection, and so nothing is to come.
pub(crate) fn clear(entries: &[Entry], dataset: &Name, sent: &mut Vec<u8>, replies: &mut Vec<u8>)
    ensures sent { sent.new.items ≡ [] }
    ensures replies { HasReplies (objects_on entries.now) dataset.now sent.new.items replies.new.items }
{
    let _ = entries.len();
    let _ = dataset.as_bytes();
    sent.clear();
    replies.clear();
    tell_replies();
}

/// Sends a piece, and makes the replies to all that was sent.
pub(crate) fn send_more(
    alloc: Global,
    entries: &[Entry],
    dataset: &Name,
    sent: &mut Vec<u8>,
    replies: &mut Vec<u8>,
    piece: &[u8],
) -> Result<(), OutOfMemory>
    ensures sent { OnOk result (sent.new.items ≡ sent.old.items ++ piece.now) }
    ensures replies { OnOk result (HasReplies (objects_on entries.now) dataset.now sent.new.items replies.new.items) }
    ensures refused { OnErr result (sent.new.items ≡ sent.old.items) }
    ensures refused_replies { OnErr result (replies.new.items ≡ replies.old.items) }
{
    let mut more = copy_bytes(alloc, sent.as_slice())?;
    if more.extend_from_slice(piece).is_err() {
        return Err(OutOfMemory);
    }
    let made = make_replies(alloc, entries, dataset, more.as_slice())?;
    *sent = more;
    *replies = made;
    Ok(())
}
