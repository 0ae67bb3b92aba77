//! Bytes of a feed, into buffers.
ghost use Rattle.std.specs.Prelude.{◌≡◌, ◌+◌, ◌≤◌, ◌^◌, IfOk, IsTrue, length, take, drop, vec_capacity};
ghost use Rattle.vol_base.specs.Bytes.{AreBytes};
ghost use Rattle.write_plan.specs.Reading.{front};
ghost use Rattle.write_plan.specs.Readers.{Reads, always, of_stream};

use crate::fault::PlanFault;
use std::alloc::Global;
use vol_base::{Feed, tell_bytes};

// What stands behind the bytes that came, until others come: so few that they stay close to the processor.
const ZEROS: &[u8; 1 << 16] = &[0; 1 << 16];

/// Reads the front of the feed into a buffer, all of it; a feed that ends before is a fault.
pub(crate) fn read_front<F: Feed>(
    feed: &mut F,
    buffer: &mut [u8],
    fault: PlanFault,
) -> Result<(), PlanFault>
    requires { IsTrue (of_stream fault) }
    ensures read { Reads F.left F.faults feed.old feed.new (length buffer.old)
        (front (length buffer.old) fault) (always buffer.new) result }
    ensures bytes { AreBytes buffer.new }
{
    let mut done = 0;
    while done < buffer.len() {
        match feed.read(&mut buffer[done..])? {
            0 => return Err(fault),
            n => done += n,
        }
    }
    Ok(())
}

// Reads so many bytes behind others, in memory that is there.
fn read_more<F: Feed>(
    feed: &mut F,
    bytes: &mut Vec<u8>,
    count: usize,
    fault: PlanFault,
) -> Result<(), PlanFault>
    requires fault { IsTrue (of_stream fault) }
    requires few { count ≤ 2 ^ 16 }
    requires room { length bytes.old.items + count ≤ vec_capacity bytes.old }
    ensures read { Reads F.left F.faults feed.old feed.new count (front count fault)
        (always (drop (length bytes.old.items) bytes.new.items)) result }
    ensures front { take (length bytes.old.items) bytes.new.items ≡ bytes.old.items }
    ensures len { length bytes.new.items ≡ length bytes.old.items + count }
    ensures room { vec_capacity bytes.old ≤ vec_capacity bytes.new }
{
    let done = bytes.len();
    match bytes.extend_from_slice(&ZEROS[..count]) {
        Ok(()) => {}
        Err(_) => unreachable!(),
    }
    read_front(feed, &mut bytes[done..], fault)
}

/// Reads so many bytes, piece by piece, with a buffer of their own; a feed that ends before is a fault.
pub(crate) fn read_values<F: Feed>(
    alloc: Global,
    feed: &mut F,
    len: usize,
    fault: PlanFault,
) -> Result<Vec<u8>, PlanFault>
    requires { IsTrue (of_stream fault) }
    ensures read { Reads F.left F.faults feed.old feed.new len (front len fault)
        (λ bytes. bytes.items) result }
    ensures bytes { IfOk result (λ bytes. AreBytes bytes.items) }
    ensures len { IfOk result (λ bytes. length bytes.items ≡ len) }
{
    let mut bytes = Vec::with_capacity(alloc, len)?;
    while bytes.len() < len {
        let count = (len - bytes.len()).min(ZEROS.len());
        read_more(feed, &mut bytes, count, fault)?;
    }
    tell_bytes(&bytes);
    Ok(bytes)
}
