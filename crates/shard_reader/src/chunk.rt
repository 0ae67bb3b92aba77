//! The bytes of a chunk.
ghost use Rattle.std.specs.Prelude.{◌≡◌, ◌+◌, ◌<◌, ◌≤◌, ◌^◌, length, Err, IfErr, OnOk, take};
ghost use Rattle.shard_reader.specs.Reading.{OnObject};
ghost use Rattle.vol_base.specs.Calls.{ReadsFrom};
ghost use Rattle.vol_base.specs.Outside.{part};

use crate::bytes::{LookupFault, read_exact};
use vol_base::{Fault, Name, ShardFault, Source};
use vol_spec::ChunkSpan;

/// Reads the bytes of a span into the front of a buffer.
pub(crate) fn read_span<S: Source>(
    store: &mut S,
    name: &Name,
    span: &ChunkSpan,
    buffer: &mut [u8],
) -> Result<(), LookupFault>
    requires room { span.now.len ≤ length buffer.old }
    requires within { span.now.start + span.now.len < 2 ^ 64 }
    ensures read { OnOk result (OnObject (S.objects store.old) name.now (λ object.
        span.now.start + span.now.len ≤ length object →
        take span.now.len buffer.new ≡ part object span.now.start span.now.len)) }
    ensures whole { IfErr result (λ fault. OnObject (S.objects store.old) name.now (λ object.
        span.now.start + span.now.len ≤ length object → fault ≡ LookupFault.NotRead)) }
    ensures asked { S.asked store.new ≤ S.asked store.old + span.now.len }
    ensures reads { ReadsFrom S.Source LookupFault.NotRead store.old store.new result }
{
    if span.len == 0 {
        return Ok(());
    }
    match read_exact(store, name, span.start, &mut buffer[..span.len as usize]) {
        Err(_) => Err(LookupFault::NotRead),
        Ok(true) => Ok(()),
        Ok(false) => Err(LookupFault::Faulty(Fault::Shard(ShardFault::ShortChunk))),
    }
}
