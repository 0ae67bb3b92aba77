//! The command `generate`.
ghost use Rattle.std.specs.Prelude.{◌≡◌, ◌≤◌, ◌<◌, ◌^◌, ℕ, All, List, Some, false, length, IfErr, IfSome};
ghost use Rattle.vol_base.specs.Calls.{ReadsFrom};
ghost use Rattle.vol_base.specs.Causes.{Rose};
ghost use Rattle.vol_base.specs.Outside.{Objects, OnlyReads};
ghost use Rattle.vol_spec.specs.Grid.{whole as whole_of};
ghost use Rattle.vol_spec.specs.Writable.{IsWritable};
ghost use Rattle.shard_writer.specs.Writing.{Drops};
ghost use Rattle.command_base.specs.Ending.{EndsWell, IsCaused};
ghost use Rattle.command_base.specs.Outlets.{outlets_of};
ghost use Rattle.size_laws.specs.Further.{all_views};
ghost use Rattle.command_base.specs.Scales.{stored_scale};
ghost use Rattle.command_base.specs.Statuses.{prints, puts};
ghost use Rattle.cutout_cmd.specs.Cutouts.{IsRequest};
ghost use Rattle.write_cmd.specs.Storing.{AreReady, PassesList, PassesPut, WrittenBack};
ghost use Rattle.generate_cmd.specs.Generating.{CanGenerate, drawn, Generated, GenerateLeaves, Generates, IsRefusal, IsUnsummed, JudgesWhole, SumsScale};

use crate::lines::write_generated_line;
use crate::refusal::GenerateRefusal;
use chunk_grid::{find_folder, whole};
use command_base::{Crew, Status, finish, read_scale, report};
use cutout::Reader;
use cutout_cmd::{CutoutRefusal, judge_part, stream_part};
use info_doc::Scale;
use shard_writer::Written;
use std::alloc::Global;
use std::sync::Wait;
use std::thread::Threads;
use value_sums::SumOutlet;
use vectors_vol::Generator;
use vol_base::{Gate, Name, Outlet, Source, Store};
use vol_spec::StoredScale;
use write_cmd::{WriteRefusal, judge_limit, write_list};

/// What was written, and the sum of the values of the whole scale modulo 2^64.
#[derive(Clone, Copy)]
pub struct Summary {
    pub written: Written,
    pub sum: u64,
}

// Whether all values of a scale can be cut out.
fn judge_whole(scale: &Scale) -> Result<(), GenerateRefusal>
    ensures { JudgesWhole result scale.now }
{
    match judge_part(scale, &whole(scale)) {
        Ok(()) => Ok(()),
        Err(refusal) => Err(GenerateRefusal::Cutout(refusal)),
    }
}

// The sum of the values of the whole scale of a reader, which have `WIDTH` bytes each.
fn sum_values<S: Source, const WIDTH: usize>(
    alloc: Global,
    store: &mut S,
    reader: &mut Reader,
    scale: &Scale,
) -> Result<u64, CutoutRefusal>
    requires scale { reader.old.scale ≡ scale.now }
    requires width { scale.now.width ≡ WIDTH }
    requires small { IsRequest scale.now (whole_of scale.now) }
    ensures sums { IfSome (S.objects store.old) (λ m. SumsScale result m reader.old.dataset scale.now) }
    ensures refused { IfErr result IsUnsummed }
    ensures reads { ReadsFrom S.Source CutoutRefusal.StoreFault store.old store.new result }
{
    let mut sums: SumOutlet<WIDTH> = SumOutlet::new();
    match stream_part(alloc, store, &mut sums, reader, &whole(scale)) {
        Ok(()) => Ok(sums.sum()),
        Err(refusal) => Err(refusal),
    }
}

// The sum of the values of the whole scale of a reader.
fn sum_whole<S: Source>(
    alloc: Global,
    store: &mut S,
    reader: &mut Reader,
    scale: &Scale,
) -> Result<u64, CutoutRefusal>
    requires scale { reader.old.scale ≡ scale.now }
    requires small { IsRequest scale.now (whole_of scale.now) }
    ensures sums { IfSome (S.objects store.old) (λ m. SumsScale result m reader.old.dataset scale.now) }
    ensures refused { IfErr result IsUnsummed }
    ensures reads { ReadsFrom S.Source CutoutRefusal.StoreFault store.old store.new result }
{
    match scale.width {
        1 => sum_values::<S, 1>(alloc, store, reader, scale),
        2 => sum_values::<S, 2>(alloc, store, reader, scale),
        4 => sum_values::<S, 4>(alloc, store, reader, scale),
        _ => sum_values::<S, 8>(alloc, store, reader, scale),
    }
}

// The sum of the values of a whole scale.
fn sum_scale<S: Source>(
    alloc: Global,
    store: &mut S,
    stored: &StoredScale,
) -> Result<u64, CutoutRefusal>
    requires small { IsRequest stored.now.scale (whole_of stored.now.scale) }
    ensures sums { IfSome (S.objects store.old) (λ m. SumsScale result m stored.now.dataset stored.now.scale) }
    ensures refused { IfErr result IsUnsummed }
    ensures reads { ReadsFrom S.Source CutoutRefusal.StoreFault store.old store.new result }
{
    let mut reader = Reader::open(alloc, &stored.dataset, &stored.scale)?;
    sum_whole(alloc, store, &mut reader, &stored.scale)
}

// Writes a list that a number makes into a scale that is ready, and sums the scale.
fn write_and_sum<R: Threads + Wait + Sync, S: Store, G: Gate + Sync>(
    crew: &Crew<R, G>,
    store: &mut S,
    stored: &StoredScale,
    number: u32,
    count: u32,
) -> Result<Summary, GenerateRefusal>
    requires writable { All IsWritable (all_views stored.now.scale) }
    requires empty { IfSome (S.objects store.old) (λ m. AreReady m stored.now.dataset stored.now.scale) }
    requires small { IsRequest stored.now.scale (whole_of stored.now.scale) }
    requires number { number < 2 ^ 31 }
    requires count { count ≤ 4096 }
    ensures generates { (key : List ℕ) → IfSome (S.objects store.old) (λ m.
        Generates result (Ok stored.now.scale) m (S.objects store.new) (drawn number count)
        stored.now.dataset key) }
    ensures killed { PassesPut (drawn number count stored.now.scale) stored.now.dataset stored.now.scale
        (S.objects store.old) (S.history store.old) (S.history store.new) }
    ensures refused { IfErr result IsRefusal }
    ensures leaves { GenerateLeaves S.Source store.old store.new result }
{
    let mut list = Generator::new(&stored.scale, number, count);
    let written = match write_list(crew, store, &mut list, &stored.dataset, &stored.scale) {
        Ok(written) => written,
        Err(refusal) => return Err(GenerateRefusal::Write(refusal)),
    };
    match sum_scale(crew.alloc, store, stored) {
        Ok(sum) => Ok(Summary { written, sum }),
        Err(refusal) => Err(GenerateRefusal::Cutout(refusal)),
    }
}

// Writes the list of writes that a number makes into the scale of a key, and sums the scale's values. The folder is
// judged before the scale's size.
fn generate_objects<R: Threads + Wait + Sync, S: Store, G: Gate + Sync>(
    crew: &Crew<R, G>,
    store: &mut S,
    dataset: &Name,
    key: &Name,
    number: u32,
    count: u32,
) -> Result<Summary, GenerateRefusal>
    requires dataset { length dataset.now ≤ 200 }
    requires key { length key.now ≤ 200 }
    requires number { number < 2 ^ 31 }
    requires count { count ≤ 4096 }
    ensures generates { IfSome (S.objects store.old) (λ m.
        Generates result (stored_scale m dataset.now key.now) m (S.objects store.new)
        (drawn number count) dataset.now key.now) }
    ensures killed { PassesList (drawn number count) dataset.now key.now (S.objects store.old) (S.history store.old)
        (S.history store.new) }
    ensures refused { IfErr result IsRefusal }
    ensures leaves { GenerateLeaves S.Source store.old store.new result }
{
    let scale = match read_scale(crew.alloc, store, dataset, key) {
        Ok(scale) => scale,
        Err(refusal) => return Err(GenerateRefusal::Write(WriteRefusal::from(refusal))),
    };
    if let Err(refusal) = judge_limit(&scale) {
        return Err(GenerateRefusal::Write(refusal));
    }
    match store.any_under(&find_folder(dataset, &scale)) {
        Ok(false) => {}
        Ok(true) => return Err(GenerateRefusal::Write(WriteRefusal::NotEmpty)),
        Err(_) => return Err(GenerateRefusal::Write(WriteRefusal::StoreFault)),
    }
    judge_whole(&scale)?;
    let stored = StoredScale::of(dataset, &scale);
    write_and_sum(crew, store, &stored, number, count)
}

/// The command `generate`: puts the list of so many writes that a number makes into the scale of a key, sums the values
/// of the whole scale, and prints how many objects of how many bytes were put, and the sum. The crew encodes.
pub fn run_generate<R: Threads + Wait + Sync, S: Store, O: Outlet, E: Outlet, G: Gate + Sync>(
    crew: &Crew<R, G>,
    store: &mut S,
    out: &mut O,
    err: &mut E,
    dataset: &Name,
    key: &Name,
    number: u32,
    count: u32,
) -> Status
    requires dataset { length dataset.now ≤ 200 }
    requires key { length key.now ≤ 200 }
    requires number { number < 2 ^ 31 }
    requires count { count ≤ 4096 }
    ensures generated { Generated result (S.objects store.old) (S.objects store.new) number count dataset.now
        key.now (outlets_of O.written O.faults E.written E.faults out.old out.new err.old err.new) }
    ensures complete { (m : Objects) → S.objects store.old ≡ Some m →
        CanGenerate m number count dataset.now key.now
        → (Rose (S.faults store.old) (S.faults store.new) → ⊥)
        → (Rose (O.faults out.old) (O.faults out.new) → ⊥)
        → EndsWell result }
    ensures back { result ≡ Status.Ok → IfSome (S.objects store.old) (λ m.
        WrittenBack m (S.objects store.new) (drawn number count) dataset.now key.now) }
    ensures killed { PassesList (drawn number count) dataset.now key.now (S.objects store.old) (S.history store.old)
        (S.history store.new) }
    ensures draft { Drops (S.draft store.old) (S.draft store.new) }
    ensures kept { puts result ≡ false → OnlyReads (S.objects store.old) (S.objects store.new)
        (S.draft store.old) (S.draft store.new) }
    ensures unprinted { prints result ≡ false → out.new ≡ out.old }
    ensures causes { IsCaused result (S.faults store.old) (S.faults store.new) (O.faults out.old)
        (O.faults out.new) (E.faults err.old) (E.faults err.new) }
{
    let summary = match generate_objects(crew, store, dataset, key, number, count) {
        Ok(summary) => summary,
        Err(refusal) => return report(crew.alloc, err, dataset, &refusal),
    };
    let written = &summary.written;
    let line = write_generated_line(
        crew.alloc,
        count,
        written.objects,
        written.bytes,
        summary.sum,
    );
    finish(out, err, line)
}
