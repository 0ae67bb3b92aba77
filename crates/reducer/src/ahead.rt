//! Reducing jobs while those behind them are read.
ghost use Rattle.std.specs.Prelude.{◌≡◌, ◌+◌, ◌<◌, ◌≤◌, ◌^◌, Err, length, map, take, All, IfSome, OnOk};
ghost use Rattle.vol_base.specs.Calls.{ReadsFrom};
ghost use Rattle.vol_spec.specs.Encodings.{raw_size};
ghost use Rattle.vol_spec.specs.Grid.{IsCell};
ghost use Rattle.vol_spec.specs.Raw.{raw_len};
ghost use Rattle.write_plan.specs.Jobs.{cells_in};
ghost use Rattle.cutout.specs.Kept.{KeepsIndex};
ghost use Rattle.copier.specs.Held.{AreFilled, CutsBox, Holds, IsFilled};
ghost use Rattle.reduce_laws.specs.Reduced.{IsNext, source_box as source_of};
ghost use Rattle.reducer.specs.Reading.{HasRoom, IsReducedOf, ReadsReductions};

use crate::reading::{cut_source, reduce_source};
use cutout::KeepingReader;
use reduce_laws::Method;
use std::mem;
use std::thread::{Threads, join_mut};
use vol_base::Source;
use vol_spec::Scale;
use write_plan::{JobList, PrepareFault};

// Reduces the values of a cell's source box into a frame, in a thread of its own where one can be made, while those of
// the next cell are read into another buffer.
fn reduce_beside<R: Threads, S: Source>(
    rt: &R,
    reader: &mut KeepingReader,
    store: &mut S,
    method: Method,
    from: &Scale,
    to: &Scale,
    cell: [u64; 3],
    raw: &[u8],
    frame: &mut Vec<u8>,
    next: [u64; 3],
    other: &mut Vec<u8>,
) -> Result<(), PrepareFault>
    requires source { reader.old.opened.scale ≡ from.now }
    requires keeps { KeepsIndex (S.objects store.old) reader.old }
    requires halves { IsNext from.now to.now }
    requires cell { IsCell to.now cell }
    requires next { IsCell to.now next }
    requires raw { length raw.now ≡ raw_len (source_of from.now to.now cell) from.now.channels from.now.width }
    requires holds { Holds to.now frame.old }
    requires room { HasRoom from.now to.now other.old }
    ensures reduced { IsReducedOf method from.now to.now cell raw.now
        (take (raw_size to.now cell) frame.new.items) }
    ensures filled { IsFilled to.now frame.new.items }
    ensures holds { Holds to.now frame.new }
    ensures cut { IfSome (S.objects store.old) (λ m. CutsBox result m reader.old.opened.dataset from.now
        (source_of from.now to.now next) other.new.items) }
    ensures len { length other.new.items
        ≡ raw_len (source_of from.now to.now next) from.now.channels from.now.width }
    ensures room { HasRoom from.now to.now other.new }
    ensures keeps { KeepsIndex (S.objects store.old) reader.new }
    ensures same { reader.new.opened ≡ reader.old.opened }
    ensures reads { ReadsFrom S.Source PrepareFault.StoreFault store.old store.new result }
{
    let mut reduce = ||
        requires next { IsNext from.now to.now }
        requires cell { IsCell to.now cell }
        requires raw { length raw.now ≡ raw_len (source_of from.now to.now cell) from.now.channels from.now.width }
        requires holds { Holds to.now frame.now }
        ensures reduced { IsReducedOf method from.entry.now to.entry.now cell raw.entry.now
            (take (raw_size to.entry.now cell) frame.exit.now.items) }
        ensures filled { IsFilled to.entry.now frame.exit.now.items }
        ensures holds { Holds to.entry.now frame.exit.now }
    { reduce_source(method, from, to, cell, raw, frame) };
    let mut read = || -> Result<(), PrepareFault>
        requires source { reader.now.opened.scale ≡ from.now }
        requires keeps { KeepsIndex (S.objects store.now) reader.now }
        requires halves { IsNext from.now to.now }
        requires next { IsCell to.now next }
        requires room { HasRoom from.now to.now other.now }
        ensures cut { IfSome (S.objects store.entry.now) (λ m.
            CutsBox result m reader.entry.now.opened.dataset from.entry.now
            (source_of from.entry.now to.entry.now next) other.exit.now.items) }
        ensures len { length other.exit.now.items
            ≡ raw_len (source_of from.entry.now to.entry.now next) from.entry.now.channels from.entry.now.width }
        ensures room { HasRoom from.entry.now to.entry.now other.exit.now }
        ensures keeps { KeepsIndex (S.objects store.entry.now) reader.exit.now }
        ensures same { reader.exit.now.opened ≡ reader.entry.now.opened }
        ensures reads { ReadsFrom S.Source PrepareFault.StoreFault store.entry.now store.exit.now result }
    { cut_source(reader, store, from, to, next, other) };
    let ((), answer) = join_mut(rt, &mut reduce, &mut read);
    answer
}

// Reduces the values of a cell's source box, which a buffer has, into a frame, and reads those of the next cell into the
// buffer. Where there is another buffer, they are read into that one meanwhile, and the two are swapped.
fn reduce_and_read<R: Threads, S: Source>(
    rt: &R,
    reader: &mut KeepingReader,
    store: &mut S,
    method: Method,
    from: &Scale,
    to: &Scale,
    cell: [u64; 3],
    buffer: &mut Vec<u8>,
    ahead: &mut Option<Vec<u8>>,
    frame: &mut Vec<u8>,
    next: [u64; 3],
) -> Result<(), PrepareFault>
    requires source { reader.old.opened.scale ≡ from.now }
    requires keeps { KeepsIndex (S.objects store.old) reader.old }
    requires halves { IsNext from.now to.now }
    requires cell { IsCell to.now cell }
    requires next { IsCell to.now next }
    requires raw { length buffer.old.items
        ≡ raw_len (source_of from.now to.now cell) from.now.channels from.now.width }
    requires holds { Holds to.now frame.old }
    requires room { HasRoom from.now to.now buffer.old }
    requires ahead { IfSome ahead.old (HasRoom from.now to.now) }
    ensures reduced { IsReducedOf method from.now to.now cell buffer.old.items
        (take (raw_size to.now cell) frame.new.items) }
    ensures filled { IsFilled to.now frame.new.items }
    ensures holds { Holds to.now frame.new }
    ensures cut { IfSome (S.objects store.old) (λ m. CutsBox result m reader.old.opened.dataset from.now
        (source_of from.now to.now next) buffer.new.items) }
    ensures len { length buffer.new.items
        ≡ raw_len (source_of from.now to.now next) from.now.channels from.now.width }
    ensures room { HasRoom from.now to.now buffer.new }
    ensures ahead { IfSome ahead.new (HasRoom from.now to.now) }
    ensures keeps { KeepsIndex (S.objects store.old) reader.new }
    ensures same { reader.new.opened ≡ reader.old.opened }
    ensures reads { ReadsFrom S.Source PrepareFault.StoreFault store.old store.new result }
{
    match ahead {
        Some(other) => {
            let answer = reduce_beside(
                rt, reader, store, method, from, to, cell, buffer, frame, next, other,
            );
            mem::swap(buffer, other);
            answer
        }
        None => {
            reduce_source(method, from, to, cell, buffer, frame);
            cut_source(reader, store, from, to, next, buffer)
        }
    }
}

/// Reduces so many jobs, one after the other from a number on, into frames, and fills up those frames that it uses. Their
/// source boxes are cut out into a buffer; where there is another one, a job is reduced in a thread of its own, where one
/// can be made, while the next one is read into the other. What the reader kept before is forgotten; an index that it
/// reads here is kept from job to job. It takes no memory.
pub(crate) fn reduce_jobs<R: Threads, S: Source>(
    rt: &R,
    reader: &mut KeepingReader,
    store: &mut S,
    method: Method,
    from: &Scale,
    to: &Scale,
    jobs: &JobList,
    buffer: &mut Vec<u8>,
    ahead: &mut Option<Vec<u8>>,
    frames: &mut [Vec<u8>],
    first: u64,
    count: usize,
) -> Result<(), PrepareFault>
    requires source { reader.old.opened.scale ≡ from.now }
    requires next { IsNext from.now to.now }
    requires cells { All (IsCell to.now) (cells_in jobs.now) }
    requires room { HasRoom from.now to.now buffer.old }
    requires ahead { IfSome ahead.old (HasRoom from.now to.now) }
    requires each { All (Holds to.now) frames.old }
    requires within { first + count ≤ length jobs.now }
    requires fits { first + count < 2 ^ 64 }
    requires enough { count ≤ length frames.old }
    ensures read { IfSome (S.objects store.old) (λ m.
        ReadsReductions result method m reader.old.opened.dataset from.now to.now (cells_in jobs.now)
        first count (map (λ f. f.items) frames.new)) }
    ensures filled { OnOk result (AreFilled to.now count (map (λ f. f.items) frames.new)) }
    ensures each { All (Holds to.now) frames.new }
    ensures frames { length frames.new ≡ length frames.old }
    ensures room { HasRoom from.now to.now buffer.new }
    ensures ahead { IfSome ahead.new (HasRoom from.now to.now) }
    ensures same { reader.new.opened ≡ reader.old.opened }
    ensures reads { ReadsFrom S.Source PrepareFault.StoreFault store.old store.new result }
{
    reader.forget();
    if count == 0 {
        return Ok(());
    }
    let mut cell = jobs.get(first).cell;
    match cut_source(reader, store, from, to, cell, buffer) {
        Ok(()) => {}
        Err(fault) => return Err(fault),
    }
    let last = count - 1;
    for k in 0..last {
        let next = jobs.get(first + k as u64 + 1).cell;
        let frame = &mut frames[k];
        match reduce_and_read(
            rt, reader, store, method, from, to, cell, buffer, ahead, frame, next,
        ) {
            Ok(()) => {}
            Err(fault) => return Err(fault),
        }
        cell = next;
    }
    reduce_source(method, from, to, cell, buffer, &mut frames[last]);
    Ok(())
}
