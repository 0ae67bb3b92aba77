//! The stream of box writes, this project's own format (docs/statuses.md).
ghost use Rattle.std.specs.Prelude.{◌≡◌, ◌+◌, ◌*◌, ◌<◌, ◌≤◌, ◌^◌, [], false, IsTrue, IfOk, IfSome, OnOk};
ghost use Rattle.vol_base.specs.Causes.{HasCauseOf};
ghost use Rattle.std.specs.List.{All};
ghost use Rattle.std.specs.Option.{option_map};
ghost use Rattle.std.specs.Str.{bytes_eq};
ghost use Rattle.vol_base.specs.Bytes.{AreBytes};
ghost use Rattle.vol_spec.specs.Grid.{Inside};
ghost use Rattle.write_plan.specs.Stream.{is_empty, is_within, magic, head_number, box_of, writes_of};
ghost use Rattle.write_plan.specs.Reading.{box_at, write_at, writes_at, count_at, end_at};
ghost use Rattle.write_plan.specs.Readers.{Took, Reads, Answers, AreReadWrites, IsReadWrite, IsSized, JudgesBox, most_of};
ghost use Rattle.write_plan.specs.WriteLists.{IsWriteOf, write_in, writes_in};

use crate::bytes::{read_front, read_values};
use crate::fault::PlanFault;
use crate::writes::{Write, Writes};
use chunk_grid::{byte_len, inside};
use std::alloc::Global;
use vol_base::{Box3, Feed};
use vol_spec::Scale;

const MOST_WRITES: u32 = 65_536;

// The most bytes of all values together.
const MOST_BYTES: u64 = 1 << 30;

fn find_word(head: &[u8; 48], n: usize) -> u64
    requires { n < 6 }
    ensures { result ≡ head_number head.now n }
{
    let bytes = &head[8 * n..8 * n + 8];
    u64::from_le_bytes([
        bytes[0], bytes[1], bytes[2], bytes[3], bytes[4], bytes[5], bytes[6], bytes[7],
    ])
}

fn read_box(head: &[u8; 48]) -> Box3
    ensures { result ≡ box_of head.now }
{
    Box3 {
        begin: [
            find_word(head, 0).cast_signed(),
            find_word(head, 1).cast_signed(),
            find_word(head, 2).cast_signed(),
        ],
        size: [find_word(head, 3), find_word(head, 4), find_word(head, 5)],
    }
}

fn has_empty_axis(part: &Box3) -> bool
    ensures { result ≡ is_empty part.now }
{
    part.size.contains(&0)
}

// Whether a box with no empty axis lies inside the scale.
fn lies_inside(scale: &Scale, part: &Box3) -> bool
    requires { is_empty part.now ≡ false }
    ensures test { result ≡ is_within scale.now part.now }
    ensures inside { IsTrue result → Inside scale.now part.now }
{
    inside(scale, part)
}

// How many bytes the values of a write's box have, behind so many bytes of values; or the first
// fault of the box.
#[tactic(auto, unfolding(crate::specs::Reading::judged))]
fn judge(scale: &Scale, number: u32, before: u64, part: &Box3) -> Result<usize, PlanFault>
    requires { before ≤ 2 ^ 30 }
    ensures { JudgesBox scale.now number before part.now result }
{
    if has_empty_axis(part) {
        return Err(PlanFault::EmptyBox { write: number });
    }
    if !lies_inside(scale, part) {
        return Err(PlanFault::OutsideBox { write: number });
    }
    let len = byte_len(part, scale.channels, scale.width);
    if len > u128::from(MOST_BYTES - before) {
        return Err(PlanFault::WritesTooLarge { write: number });
    }
    Ok(len as usize)
}

// The box of a write and how many bytes its values have.
fn read_part<F: Feed>(
    feed: &mut F,
    scale: &Scale,
    number: u32,
    before: u64,
) -> Result<(Box3, usize), PlanFault>
    requires { before ≤ 2 ^ 30 }
    ensures read { Reads F.left F.faults feed.old feed.new 48 (box_at scale.now number before)
        (λ r. r.0) result }
    ensures fits { IfOk result (λ r. IsSized scale.now before r.0 r.1) }
{
    let mut head = [0; 48];
    read_front(feed, &mut head, PlanFault::Truncated { write: number })?;
    let part = read_box(&head);
    let len = judge(scale, number, before, &part)?;
    Ok((part, len))
}

// A write behind so many bytes of values.
fn read_write<F: Feed>(
    alloc: Global,
    feed: &mut F,
    scale: &Scale,
    number: u32,
    before: u64,
) -> Result<Write, PlanFault>
    requires { before ≤ 2 ^ 30 }
    ensures read { Reads F.left F.faults feed.old feed.new (most_of before result)
        (write_at scale.now number before) write_in result }
    ensures fits { IfOk result (λ write. IsReadWrite scale.now before (write_in write)) }
{
    let (part, len) = read_part(feed, scale, number, before)?;
    let bytes = read_values(alloc, feed, len, PlanFault::Truncated { write: number })?;
    Ok(Write { part, bytes })
}

// So many writes.
fn read_list<F: Feed>(
    alloc: Global,
    feed: &mut F,
    scale: &Scale,
    count: u32,
) -> Result<Vec<Write>, PlanFault>
    requires { count ≤ 65536 }
    ensures read { Reads F.left F.faults feed.old feed.new (48 * 65536 + 2 ^ 30)
        (writes_at scale.now count []) (λ writes. writes_in writes.items) result }
    ensures fit { IfOk result (λ writes. AreReadWrites scale.now count (writes_in writes.items)) }
{
    let mut writes = Vec::new(alloc);
    let mut before = 0;
    for number in 0..count {
        let write = read_write(alloc, feed, scale, number, before)?;
        before += write.bytes.len() as u64;
        writes.push(write)?;
    }
    Ok(writes)
}

fn is_mark(head: &[u8]) -> bool
    ensures { result ≡ bytes_eq head.now magic }
{
    head == b"PVW1".as_slice()
}

// How many writes a stream has, behind the four bytes that it begins with.
fn read_count<F: Feed>(feed: &mut F) -> Result<u32, PlanFault>
    ensures read { Reads F.left F.faults feed.old feed.new 8 count_at (λ count. count) result }
    ensures small { IfOk result (λ count. count ≤ 65536) }
{
    let mut head = [0; 4];
    read_front(feed, &mut head, PlanFault::BadMagic)?;
    if !is_mark(&head) {
        return Err(PlanFault::BadMagic);
    }
    let mut bytes = [0; 4];
    read_front(feed, &mut bytes, PlanFault::Truncated { write: 0 })?;
    let count = u32::from_le_bytes(bytes);
    if count > MOST_WRITES {
        return Err(PlanFault::TooManyWrites { count });
    }
    Ok(count)
}

// That nothing is left.
fn read_end<F: Feed>(feed: &mut F) -> Result<(), PlanFault>
    ensures { Reads F.left F.faults feed.old feed.new 1 end_at (λ _. []) result }
{
    let mut byte = [0];
    match feed.read(&mut byte)? {
        0 => Ok(()),
        _ => Err(PlanFault::TrailingBytes),
    }
}

/// The writes of a stream, or its first fault from the front. After a list of writes the feed is at its
/// end. It takes at most 2^30 + 48 * 65,536 + 9 bytes.
///
/// # Errors
/// `FeedFault` only where the feed failed, `OutOfMemory`, and the faults of the stream.
pub fn read_writes<F: Feed>(alloc: Global, feed: &mut F, scale: &Scale) -> Result<Writes, PlanFault>
    ensures exact { IfSome (F.left feed.old) (λ bytes. Answers result (writes_of bytes scale.now)) }
    ensures end { OnOk result (F.left feed.new ≡ option_map (λ _. []) (F.left feed.old)) }
    ensures fits { IfOk result (All (IsWriteOf scale.now)) }
    ensures bytes { IfOk result (All (λ w. AreBytes w.1)) }
    ensures took { Took (2 ^ 30 + 48 * 65536 + 9) (F.left feed.old) (F.left feed.new) }
    ensures cause { HasCauseOf PlanFault.FeedFault (F.faults feed.old) (F.faults feed.new) result }
{
    let count = read_count(feed)?;
    let items = read_list(alloc, feed, scale, count)?;
    read_end(feed)?;
    Ok(Writes { items })
}
