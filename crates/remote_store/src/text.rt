//! The bytes of a request.
ghost use Rattle.std.specs.Prelude.{◌≡◌, ◌+◌, ◌<◌, ◌≤◌, ◌^◌, ◌++◌, length, decimal, vec_capacity, OnOk, IsOk};
ghost use Rattle.remote_store.specs.Answers.{IsAsked};
ghost use Rattle.remote_store.specs.Texts.{length_text, part_text, range_text, request_text};

use crate::wanted::Wanted;
use itoa::Buffer;
use vol_base::{Name, OutOfMemory};

/// Puts bytes behind those that are there; it takes no memory where there is room.
pub(crate) fn add(text: &mut Vec<u8>, more: &[u8]) -> Result<(), OutOfMemory>
    ensures bytes { OnOk result (text.new.items ≡ text.old.items ++ more.now) }
    ensures room { vec_capacity text.old ≤ vec_capacity text.new }
    ensures succeeds { length text.old.items + length more.now ≤ vec_capacity text.old → IsOk result }
{
    match text.extend_from_slice(more) {
        Ok(()) => Ok(()),
        Err(_) => Err(OutOfMemory),
    }
}

/// Puts the digits of a number behind them.
pub(crate) fn add_number(text: &mut Vec<u8>, n: u64) -> Result<(), OutOfMemory>
    ensures bytes { OnOk result (text.new.items ≡ text.old.items ++ decimal n) }
    ensures room { vec_capacity text.old ≤ vec_capacity text.new }
    ensures succeeds { length text.old.items + length (decimal n) ≤ vec_capacity text.old → IsOk result }
{
    let mut buffer = Buffer::new();
    add(text, buffer.format(n).as_bytes())
}

// Writes the request for a length in place of what stands there, where the peer's name and port are given as `HOST:PORT`.
fn write_length_request(text: &mut Vec<u8>, peer: &[u8], key: &Name) -> Result<(), OutOfMemory>
    ensures bytes { OnOk result (text.new.items ≡ length_text peer.now key.now) }
    ensures room { vec_capacity text.old ≤ vec_capacity text.new }
    ensures succeeds { length (length_text peer.now key.now) ≤ vec_capacity text.old → IsOk result }
{
    text.clear();
    add(text, b"HEAD /")?;
    add(text, key.as_bytes())?;
    add(text, b" HTTP/1.1\r\nHost: ")?;
    add(text, peer)?;
    add(text, b"\r\n\r\n")?;
    Ok(())
}

// Puts the field that asks for a part, and the end of the head, behind the bytes that are there.
fn add_range(text: &mut Vec<u8>, first: u64, last: u64) -> Result<(), OutOfMemory>
    ensures bytes { OnOk result (text.new.items ≡ text.old.items ++ range_text first last) }
    ensures room { vec_capacity text.old ≤ vec_capacity text.new }
    ensures succeeds { length text.old.items + length (range_text first last) ≤ vec_capacity text.old → IsOk result }
{
    add(text, b"\r\nRange: bytes=")?;
    add_number(text, first)?;
    add(text, b"-")?;
    add_number(text, last)?;
    add(text, b"\r\n\r\n")?;
    Ok(())
}

// Writes the request for a part in place of what stands there.
fn write_part_request(
    text: &mut Vec<u8>,
    peer: &[u8],
    key: &Name,
    from: u64,
    count: u64,
) -> Result<(), OutOfMemory>
    requires some { 0 < count }
    requires fits { from + count < 2 ^ 64 }
    ensures bytes { OnOk result (text.new.items ≡ part_text peer.now key.now from count) }
    ensures room { vec_capacity text.old ≤ vec_capacity text.new }
    ensures succeeds { length (part_text peer.now key.now from count) ≤ vec_capacity text.old → IsOk result }
{
    text.clear();
    add(text, b"GET /")?;
    add(text, key.as_bytes())?;
    add(text, b" HTTP/1.1\r\nHost: ")?;
    add(text, peer)?;
    add_range(text, from, from + count - 1)?;
    Ok(())
}

// Writes the request for what is asked of an object in place of what stands there.
fn write_wanted(
    text: &mut Vec<u8>,
    peer: &[u8],
    key: &Name,
    wanted: Wanted,
) -> Result<(), OutOfMemory>
    requires some { IsAsked wanted }
    ensures bytes { OnOk result (text.new.items ≡ request_text peer.now key.now wanted) }
    ensures room { vec_capacity text.old ≤ vec_capacity text.new }
    ensures succeeds { length (request_text peer.now key.now wanted) ≤ vec_capacity text.old → IsOk result }
{
    match wanted {
        Wanted::Length => write_length_request(text, peer, key),
        Wanted::Part { from, count } => write_part_request(text, peer, key, from, count),
    }
}

/// Writes the request for what is asked of an object in place of what stands there, where the peer's name and port are
/// given as `HOST:PORT`. It takes no memory.
pub(crate) fn write_request(text: &mut Vec<u8>, peer: &[u8], key: &Name, wanted: Wanted)
    requires some { IsAsked wanted }
    requires room { 1024 ≤ vec_capacity text.old }
    requires peer { length peer.now ≤ 261 }
    ensures bytes { text.new.items ≡ request_text peer.now key.now wanted }
    ensures room { 1024 ≤ vec_capacity text.new }
{
    let _name = key.as_bytes();
    match write_wanted(text, peer, key, wanted) {
        Ok(()) => {}
        Err(_) => unreachable!(),
    }
}
