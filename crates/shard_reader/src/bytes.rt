//! Bytes of an object.
ghost use Rattle.std.specs.Prelude.{◌≡◌, ◌+◌, ◌<◌, ◌≤◌, ◌^◌, nat_le, ℕ, List, length, IfOk, Some};
ghost use Rattle.vol_base.specs.Calls.{ReadsFrom};
ghost use Rattle.vol_base.specs.Outside.{part};
ghost use Rattle.shard_reader.specs.Reading.{failure, told_object};

use vol_base::{Failed, Fault, Got, Name, Source};

/// Why the way to a chunk ended: the store failed, or what it has is at fault.
#[derive(Clone, Copy, Debug, PartialEq, Eq)]
pub enum LookupFault {
    NotRead,
    Faulty(Fault),
}

/// Fills some bytes from the byte `at` of an object on: whether it has so many.
pub(crate) fn read_exact<S: Source>(
    store: &mut S,
    name: &Name,
    at: u64,
    out: &mut [u8],
) -> Result<bool, Failed>
    requires some { 0 < length out.old }
    requires fits { at + length out.old < 2 ^ 64 }
    ensures whole { IfOk result (λ whole. (object : List ℕ) →
        told_object (S.objects store.old) name.now ≡ Some object →
        whole ≡ nat_le (at + length out.old) (length object)) }
    ensures read { IfOk result (λ _. (object : List ℕ) →
        told_object (S.objects store.old) name.now ≡ Some object → at + length out.old ≤ length object →
        out.new ≡ part object at (length out.old)) }
    ensures asked { S.asked store.new ≤ S.asked store.old + length out.old }
    ensures reads { ReadsFrom S.Source failure store.old store.new result }
{
    match store.read_at(name, at, out) {
        Err(failed) => Err(failed),
        Ok(Got::Absent) => Ok(false),
        Ok(Got::Bytes(found)) => Ok(found == out.len() as u64),
    }
}
