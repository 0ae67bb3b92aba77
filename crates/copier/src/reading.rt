//! Reading the bytes of jobs.
ghost use Rattle.std.specs.Prelude.{is_ok, ◌≡◌, ◌∷◌, [], ◌+◌, ◌<◌, ◌≤◌, ◌^◌, Err, length, map, take, All, IfOk, IfSome, IsTrue, OnOk};
ghost use Rattle.vol_base.specs.Bytes.{AreBytes};
ghost use Rattle.vol_base.specs.Calls.{ReadsFrom};
ghost use Rattle.vol_spec.specs.Copies.{AreOfOneVolume};
ghost use Rattle.vol_spec.specs.Encodings.{raw_size};
ghost use Rattle.vol_spec.specs.Grid.{Inside, IsCell, cells_in as meeting};
ghost use Rattle.vol_spec.specs.Raw.{raw_len};
ghost use Rattle.write_plan.specs.Jobs.{cells_in};
ghost use Rattle.cutout.specs.Kept.{KeepsIndex};
ghost use Rattle.cutout.specs.Runs.{RunsOn};
ghost use Rattle.cutout.specs.Taking.{HasOwnChunk};
ghost use Rattle.copy_laws.specs.Twins.{AreTwins};
ghost use Rattle.copier.specs.Frames.{HasRoom, KeepChunks, KeepsBy, KeepsOwn, Takes, TakesJob, owned, values_in};
ghost use Rattle.copier.specs.Held.{AreFilled, CutsBox, Holds, IsFilled, ReadsJob, ReadsJobs};
ghost use Rattle.copier.specs.Sources.{cells_under, sources};

use crate::frame::{JobFrame, OwnChunk};
use chunk_grid::{byte_len, cell_box};
use cutout::{CutFault, KeepingReader};
use vol_base::{Box3, Source};
use vol_spec::Scale;
use write_plan::{JobList, PrepareFault};

/// Cuts a box out of the source.
pub fn cut_box<S: Source>(
    reader: &mut KeepingReader,
    store: &mut S,
    part: &Box3,
    out: &mut [u8],
) -> Result<(), PrepareFault>
    requires inside { Inside reader.old.opened.scale part.now }
    requires len { length out.old ≡ raw_len part.now reader.old.opened.scale.channels
        reader.old.opened.scale.width }
    requires limit { length out.old ≤ 2 ^ 30 }
    requires keeps { KeepsIndex (S.objects store.old) reader.old }
    ensures cut { IfSome (S.objects store.old) (λ m.
        CutsBox result m reader.old.opened.dataset reader.old.opened.scale part.now out.new) }
    ensures keeps { KeepsIndex (S.objects store.old) reader.new }
    ensures same { reader.new.opened ≡ reader.old.opened }
    ensures run { IfSome (S.objects store.old) (λ m. RunsOn (is_ok result) m reader.old.opened.dataset
        reader.old.opened.scale (meeting reader.old.opened.scale part.now) (S.asked store.old)
        (S.asked store.new) reader.old.shards reader.new.shards) }
    ensures reads { ReadsFrom S.Source PrepareFault.StoreFault store.old store.new result }
{
    match reader.cutout(store, part, out) {
        Ok(()) => Ok(()),
        Err(CutFault::StoreFault) => Err(PrepareFault::StoreFault),
        Err(CutFault::Damaged { cell, fault }) => Err(PrepareFault::Damaged { cell, fault }),
        Err(CutFault::OutsideScale) => unreachable!(),
    }
}

/// How many bytes the values of a cell have.
pub fn values_len(scale: &Scale, cell: [u64; 3]) -> usize
    requires { IsCell scale.now cell }
    ensures { result ≡ raw_size scale.now cell }
{
    let part = cell_box(scale, cell);
    byte_len(&part, scale.channels, scale.width) as usize
}

// Reads the source's values in the box of a cell of the target into the front of a frame.
fn read_into<S: Source>(
    reader: &mut KeepingReader,
    store: &mut S,
    to: &Scale,
    cell: [u64; 3],
    frame: &mut [u8],
) -> Result<(), PrepareFault>
    requires volume { AreOfOneVolume reader.old.opened.scale to.now }
    requires keeps { KeepsIndex (S.objects store.old) reader.old }
    requires cell { IsCell to.now cell }
    requires len { raw_size to.now cell ≤ length frame.old }
    ensures read { IfSome (S.objects store.old) (λ m.
        ReadsJob result m reader.old.opened.dataset reader.old.opened.scale to.now cell
        (take (raw_size to.now cell) frame.new)) }
    ensures len { length frame.new ≡ length frame.old }
    ensures keeps { KeepsIndex (S.objects store.old) reader.new }
    ensures same { reader.new.opened ≡ reader.old.opened }
    ensures run { IfSome (S.objects store.old) (λ m. RunsOn (is_ok result) m reader.old.opened.dataset
        reader.old.opened.scale (cells_under reader.old.opened.scale to.now cell)
        (S.asked store.old) (S.asked store.new) reader.old.shards reader.new.shards) }
    ensures reads { ReadsFrom S.Source PrepareFault.StoreFault store.old store.new result }
{
    let len = values_len(to, cell);
    let part = cell_box(to, cell);
    cut_box(reader, store, &part, &mut frame[..len])
}

/// Fills a frame up with zeros, as far as it isn't yet. So its memory is touched the first time that it is used.
pub fn fill_up(scale: &Scale, frame: &mut Vec<u8>)
    requires { Holds scale.now frame.old }
    ensures filled { IsFilled scale.now frame.new.items }
    ensures room { Holds scale.now frame.new }
{
    let filled = frame.resize(scale.raw_limit() as usize, 0);
    prove!(filled.is_ok());
}

// Takes a cell of the source: the bytes of its chunk, so many in front of `out`, where this writer spells it, else its
// values.
fn take_cell<S: Source>(
    reader: &mut KeepingReader,
    store: &mut S,
    cell: [u64; 3],
    out: &mut [u8],
) -> Result<Option<usize>, PrepareFault>
    requires cell { IsCell reader.old.opened.scale cell }
    requires len { length out.old ≡ raw_size reader.old.opened.scale cell }
    requires keeps { KeepsIndex (S.objects store.old) reader.old }
    ensures taken { IfSome (S.objects store.old) (λ m.
        Takes result m reader.old.opened.dataset reader.old.opened.scale cell out.new) }
    ensures own { IfOk result (λ len. IfSome len (HasOwnChunk reader.old.opened.scale cell out.new)) }
    ensures bytes { AreBytes out.new }
    ensures len { length out.new ≡ length out.old }
    ensures keeps { KeepsIndex (S.objects store.old) reader.new }
    ensures same { reader.new.opened ≡ reader.old.opened }
    ensures run { IfSome (S.objects store.old) (λ m. RunsOn (is_ok result) m reader.old.opened.dataset
        reader.old.opened.scale (cell ∷ []) (S.asked store.old) (S.asked store.new) reader.old.shards
        reader.new.shards) }
    ensures reads { ReadsFrom S.Source PrepareFault.StoreFault store.old store.new result }
{
    match reader.take_cell(store, cell, out) {
        Ok(len) => Ok(len),
        Err(CutFault::StoreFault) => Err(PrepareFault::StoreFault),
        Err(CutFault::Damaged { cell: at, fault }) => {
            Err(PrepareFault::Damaged { cell: at, fault })
        }
        Err(CutFault::OutsideScale) => unreachable!(),
    }
}

// The chunk of a cell that stands in front of a frame, where one does.
fn note_own(cell: [u64; 3], len: Option<usize>) -> Option<OwnChunk>
    ensures { result ≡ owned cell len }
{
    match len {
        None => None,
        Some(len) => Some(OwnChunk { cell, len }),
    }
}

// Takes the chunk of a cell that source and target have alike into bytes as many as its values: as it is stored, where
// this writer spells it, else its values.
fn take_part<S: Source>(
    reader: &mut KeepingReader,
    store: &mut S,
    to: &Scale,
    cell: [u64; 3],
    part: &mut [u8],
) -> Result<Option<OwnChunk>, PrepareFault>
    requires twins { AreTwins reader.old.opened.scale to.now }
    requires keeps { KeepsIndex (S.objects store.old) reader.old }
    requires cell { IsCell to.now cell }
    requires len { length part.old ≡ raw_size to.now cell }
    ensures read { IfSome (S.objects store.old) (λ m.
        TakesJob result m reader.old.opened.dataset reader.old.opened.scale to.now cell part.new) }
    ensures chunk { IfOk result (λ own. KeepsBy to.now cell own part.new) }
    ensures len { length part.new ≡ length part.old }
    ensures keeps { KeepsIndex (S.objects store.old) reader.new }
    ensures same { reader.new.opened ≡ reader.old.opened }
    ensures run { IfSome (S.objects store.old) (λ m. RunsOn (is_ok result) m reader.old.opened.dataset
        reader.old.opened.scale (cells_under reader.old.opened.scale to.now cell)
        (S.asked store.old) (S.asked store.new) reader.old.shards reader.new.shards) }
    ensures reads { ReadsFrom S.Source PrepareFault.StoreFault store.old store.new result }
{
    match take_cell(reader, store, cell, part) {
        Ok(len) => Ok(note_own(cell, len)),
        Err(fault) => Err(fault),
    }
}

// The same into the front of a frame.
fn take_into<S: Source>(
    reader: &mut KeepingReader,
    store: &mut S,
    to: &Scale,
    cell: [u64; 3],
    frame: &mut [u8],
) -> Result<Option<OwnChunk>, PrepareFault>
    requires twins { AreTwins reader.old.opened.scale to.now }
    requires keeps { KeepsIndex (S.objects store.old) reader.old }
    requires cell { IsCell to.now cell }
    requires len { raw_size to.now cell ≤ length frame.old }
    ensures read { IfSome (S.objects store.old) (λ m.
        TakesJob result m reader.old.opened.dataset reader.old.opened.scale to.now cell frame.new) }
    ensures chunk { IfOk result (λ own. KeepsBy to.now cell own frame.new) }
    ensures len { length frame.new ≡ length frame.old }
    ensures keeps { KeepsIndex (S.objects store.old) reader.new }
    ensures same { reader.new.opened ≡ reader.old.opened }
    ensures run { IfSome (S.objects store.old) (λ m. RunsOn (is_ok result) m reader.old.opened.dataset
        reader.old.opened.scale (cells_under reader.old.opened.scale to.now cell)
        (S.asked store.old) (S.asked store.new) reader.old.shards reader.new.shards) }
    ensures reads { ReadsFrom S.Source PrepareFault.StoreFault store.old store.new result }
{
    let len = values_len(to, cell);
    take_part(reader, store, to, cell, &mut frame[..len])
}

// Takes a job into the front of a frame: where source and target have their cells alike its chunk as it is stored, if this
// writer spells it; else its values.
fn read_job<S: Source>(
    reader: &mut KeepingReader,
    store: &mut S,
    to: &Scale,
    cell: [u64; 3],
    twins: bool,
    frame: &mut [u8],
) -> Result<Option<OwnChunk>, PrepareFault>
    requires volume { AreOfOneVolume reader.old.opened.scale to.now }
    requires twins { IsTrue twins → AreTwins reader.old.opened.scale to.now }
    requires keeps { KeepsIndex (S.objects store.old) reader.old }
    requires cell { IsCell to.now cell }
    requires len { raw_size to.now cell ≤ length frame.old }
    ensures read { IfSome (S.objects store.old) (λ m.
        TakesJob result m reader.old.opened.dataset reader.old.opened.scale to.now cell frame.new) }
    ensures chunk { IfOk result (λ own. KeepsBy to.now cell own frame.new) }
    ensures len { length frame.new ≡ length frame.old }
    ensures keeps { KeepsIndex (S.objects store.old) reader.new }
    ensures same { reader.new.opened ≡ reader.old.opened }
    ensures run { IfSome (S.objects store.old) (λ m. RunsOn (is_ok result) m reader.old.opened.dataset
        reader.old.opened.scale (cells_under reader.old.opened.scale to.now cell)
        (S.asked store.old) (S.asked store.new) reader.old.shards reader.new.shards) }
    ensures reads { ReadsFrom S.Source PrepareFault.StoreFault store.old store.new result }
{
    if twins {
        return take_into(reader, store, to, cell, frame);
    }
    match read_into(reader, store, to, cell, frame) {
        Ok(()) => Ok(None),
        Err(fault) => Err(fault),
    }
}

// Fills a frame up, and takes a job into its front.
fn read_frame<S: Source>(
    reader: &mut KeepingReader,
    store: &mut S,
    to: &Scale,
    cell: [u64; 3],
    twins: bool,
    frame: &mut JobFrame,
) -> Result<(), PrepareFault>
    requires volume { AreOfOneVolume reader.old.opened.scale to.now }
    requires twins { IsTrue twins → AreTwins reader.old.opened.scale to.now }
    requires keeps { KeepsIndex (S.objects store.old) reader.old }
    requires cell { IsCell to.now cell }
    requires room { HasRoom to.now frame.old }
    ensures read { IfSome (S.objects store.old) (λ m.
        ReadsJob result m reader.old.opened.dataset reader.old.opened.scale to.now cell
        (take (raw_size to.now cell) (values_in to.now frame.new))) }
    ensures filled { OnOk result (IsFilled to.now (values_in to.now frame.new)) }
    ensures chunk { OnOk result (KeepsOwn to.now cell frame.new) }
    ensures room { HasRoom to.now frame.new }
    ensures keeps { KeepsIndex (S.objects store.old) reader.new }
    ensures same { reader.new.opened ≡ reader.old.opened }
    ensures run { IfSome (S.objects store.old) (λ m. RunsOn (is_ok result) m reader.old.opened.dataset
        reader.old.opened.scale (cells_under reader.old.opened.scale to.now cell)
        (S.asked store.old) (S.asked store.new) reader.old.shards reader.new.shards) }
    ensures reads { ReadsFrom S.Source PrepareFault.StoreFault store.old store.new result }
{
    fill_up(to, &mut frame.bytes);
    match read_job(reader, store, to, cell, twins, &mut frame.bytes) {
        Ok(own) => {
            frame.own = own;
            Ok(())
        }
        Err(fault) => Err(fault),
    }
}

/// Takes so many jobs, one after the other from a number on, into frames, and fills up those that it uses. An
/// index is kept from job to job, and behind the last one.
pub(crate) fn read_jobs<S: Source>(
    reader: &mut KeepingReader,
    store: &mut S,
    to: &Scale,
    jobs: &JobList,
    twins: bool,
    frames: &mut [JobFrame],
    first: u64,
    count: usize,
) -> Result<(), PrepareFault>
    requires volume { AreOfOneVolume reader.old.opened.scale to.now }
    requires twins { IsTrue twins → AreTwins reader.old.opened.scale to.now }
    requires keeps { KeepsIndex (S.objects store.old) reader.old }
    requires cells { All (IsCell to.now) (cells_in jobs.now) }
    requires each { All (HasRoom to.now) frames.old }
    requires within { first + count ≤ length jobs.now }
    requires fits { first + count < 2 ^ 64 }
    requires room { count ≤ length frames.old }
    ensures read { IfSome (S.objects store.old) (λ m.
        ReadsJobs result m reader.old.opened.dataset reader.old.opened.scale to.now (cells_in jobs.now)
        first count (map (values_in to.now) frames.new)) }
    ensures filled { OnOk result (AreFilled to.now count (map (values_in to.now) frames.new)) }
    ensures chunks { OnOk result (KeepChunks to.now (cells_in jobs.now) first count frames.new) }
    ensures each { All (HasRoom to.now) frames.new }
    ensures frames { length frames.new ≡ length frames.old }
    ensures same { reader.new.opened ≡ reader.old.opened }
    ensures keeps { KeepsIndex (S.objects store.old) reader.new }
    ensures run { IfSome (S.objects store.old) (λ m. RunsOn (is_ok result) m reader.old.opened.dataset
        reader.old.opened.scale (sources reader.old.opened.scale to.now (cells_in jobs.now) first count)
        (S.asked store.old) (S.asked store.new) reader.old.shards reader.new.shards) }
    ensures reads { ReadsFrom S.Source PrepareFault.StoreFault store.old store.new result }
{
    for k in 0..count {
        let cell = jobs.get(first + k as u64).cell;
        match read_frame(reader, store, to, cell, twins, &mut frames[k]) {
            Ok(()) => {}
            Err(fault) => return Err(fault),
        }
    }
    Ok(())
}
