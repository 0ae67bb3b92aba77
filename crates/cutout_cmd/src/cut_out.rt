//! The command `cutout`.
ghost use Rattle.std.specs.Prelude.{◌≡◌, ◌≢◌, ◌≤◌, ◌+◌, ◌^◌, true, length, IfErr, IfSome, Some};
ghost use Rattle.vol_base.specs.Calls.{ReadsFrom};
ghost use Rattle.vol_base.specs.Causes.{HasCauseOf, Rose};
ghost use Rattle.vol_base.specs.Outside.{Objects, OnlyReads};
ghost use Rattle.command_base.specs.Ending.{EndsWell, IsCaused};
ghost use Rattle.command_base.specs.Outlets.{outlets_of};
ghost use Rattle.command_base.specs.Scales.{stored_scale};
ghost use Rattle.command_base.specs.Statuses.{refuses};
ghost use Rattle.cutout_cmd.specs.Cutouts.{AsksFor, broken_by, CanCut, Cuts, CutsOut, CutsScale, IsBroken, IsRequest, JudgesPart, parts_cost, Writes};
ghost use Rattle.cutout_cmd.specs.Refusals.{cutout_status};

use crate::refusal::CutoutRefusal;
use chunk_grid::{byte_len, inside, whole};
use command_base::{Status, read_scale, report};
use cutout::{Reader, StreamFault};
use info_doc::Scale;
use std::alloc::Global;
use vol_base::{Box3, Name, Outlet, Source};
use vol_spec::StoredScale;

/// A cutout has at most so many bytes.
const MOST_BYTES: u128 = 1 << 30;

/// Whether a part can be cut out, or why it can't.
pub fn judge_part(scale: &Scale, part: &Box3) -> Result<(), CutoutRefusal>
    ensures { JudgesPart result scale.now part.now }
{
    if !inside(scale, part) {
        return Err(CutoutRefusal::Outside {
            part: *part,
            whole: whole(scale),
        });
    }
    let bytes = byte_len(part, scale.channels, scale.width);
    if bytes > MOST_BYTES {
        return Err(CutoutRefusal::TooLarge(bytes));
    }
    Ok(())
}

// The refusal of a box that isn't written whole.
fn as_refusal(fault: StreamFault) -> CutoutRefusal
    requires { fault ≢ StreamFault.OutsideScale }
    ensures { result ≡ broken_by fault }
{
    match fault {
        StreamFault::OutsideScale => unreachable!(),
        StreamFault::StoreFault => CutoutRefusal::StoreFault,
        StreamFault::Damaged { cell, fault } => CutoutRefusal::Damaged { cell, fault },
        StreamFault::OutFault => CutoutRefusal::OutFault,
        StreamFault::OutOfMemory => CutoutRefusal::NoMemory,
    }
}

/// Writes the values of a part that can be cut out.
pub fn stream_part<S: Source, O: Outlet>(
    alloc: Global,
    store: &mut S,
    out: &mut O,
    reader: &mut Reader,
    part: &Box3,
) -> Result<(), CutoutRefusal>
    requires part { IsRequest reader.old.scale part.now }
    ensures cuts { IfSome (S.objects store.old) (λ m.
        CutsScale result m reader.old.dataset reader.old.scale part.now (O.written out.old) (O.written out.new)) }
    ensures broken { IfErr result IsBroken }
    ensures asked { IfSome (S.objects store.old) (λ m.
        S.asked store.new ≤ S.asked store.old + parts_cost m reader.old.dataset reader.old.scale part.now) }
    ensures reads { ReadsFrom S.Source CutoutRefusal.StoreFault store.old store.new result }
    ensures out_cause { HasCauseOf CutoutRefusal.OutFault (O.faults out.old) (O.faults out.new) result }
    ensures unwritten { Writes result part.now (O.written out.old) (O.written out.new) }
{
    match reader.stream(alloc, store, part, out) {
        Ok(()) => Ok(()),
        Err(fault) => Err(as_refusal(fault)),
    }
}

// Cuts a part out of a scale.
fn cut_scale<S: Source, O: Outlet>(
    alloc: Global,
    store: &mut S,
    out: &mut O,
    stored: &StoredScale,
    part: &Box3,
) -> Result<(), CutoutRefusal>
    ensures cuts { IfSome (S.objects store.old) (λ m.
        CutsScale result m stored.now.dataset stored.now.scale part.now (O.written out.old) (O.written out.new)) }
    ensures asked { IfSome (S.objects store.old) (λ m.
        S.asked store.new ≤ S.asked store.old + parts_cost m stored.now.dataset stored.now.scale part.now) }
    ensures reads { ReadsFrom S.Source CutoutRefusal.StoreFault store.old store.new result }
    ensures out_cause { HasCauseOf CutoutRefusal.OutFault (O.faults out.old) (O.faults out.new) result }
    ensures unwritten { Writes result part.now (O.written out.old) (O.written out.new) }
    // Of a box that is refused neither the store nor the output is called.
    ensures unasked { IfErr result (λ refusal. refuses (cutout_status refusal) ≡ true →
        store.new ≡ store.old) }
    ensures unprinted { IfErr result (λ refusal. refuses (cutout_status refusal) ≡ true → out.new ≡ out.old) }
{
    judge_part(&stored.scale, part)?;
    let mut reader = Reader::open(alloc, &stored.dataset, &stored.scale)?;
    stream_part(alloc, store, out, &mut reader, part)
}

// Cuts a box out of the scale of a key, and writes its values, channel by channel and layer by layer. At
// Damaged what was written is channel 0 below the layer of the first cell that has a fault; where the store or the
// outlet fails, a front of the whole; else nothing where it is refused.
fn cut_out<S: Source, O: Outlet>(
    alloc: Global,
    store: &mut S,
    out: &mut O,
    dataset: &Name,
    key: &Name,
    part: &Box3,
) -> Result<(), CutoutRefusal>
    requires dataset { length dataset.now ≤ 200 }
    requires key { length key.now ≤ 200 }
    ensures cuts { IfSome (S.objects store.old) (λ m. Cuts result (stored_scale m dataset.now key.now) m
        dataset.now part.now (O.written out.old) (O.written out.new)) }
    ensures asked { IfSome (S.objects store.old) (λ m.
        AsksFor m dataset.now key.now part.now (S.asked store.old) (S.asked store.new)) }
    ensures reads { ReadsFrom S.Source CutoutRefusal.StoreFault store.old store.new result }
    ensures out_cause { HasCauseOf CutoutRefusal.OutFault (O.faults out.old) (O.faults out.new) result }
    ensures unwritten { Writes result part.now (O.written out.old) (O.written out.new) }
    ensures unread { IfErr result (λ refusal. refuses (cutout_status refusal) ≡ true →
        S.asked store.new ≤ S.asked store.old + (2 ^ 20 + 1)) }
    ensures unprinted { IfErr result (λ refusal. refuses (cutout_status refusal) ≡ true → out.new ≡ out.old) }
{
    let scale = read_scale(alloc, store, dataset, key)?;
    let stored = StoredScale::of(dataset, &scale);
    cut_scale(alloc, store, out, &stored, part)
}

/// The command `cutout`: writes the values of a box of the scale of a key, channel by channel and layer by layer. At
/// Damaged what was written is channel 0 below the layer of the first cell that has a fault; where the store or the
/// output fails, a front of the whole; else nothing where it is refused.
pub fn run_cutout<S: Source, O: Outlet, E: Outlet>(
    alloc: Global,
    store: &mut S,
    out: &mut O,
    err: &mut E,
    dataset: &Name,
    key: &Name,
    part: &Box3,
) -> Status
    requires dataset { length dataset.now ≤ 200 }
    requires key { length key.now ≤ 200 }
    ensures cuts { CutsOut result (S.objects store.old) dataset.now key.now part.now
        (outlets_of O.written O.faults E.written E.faults out.old out.new err.old err.new) }
    ensures complete { (m : Objects) → S.objects store.old ≡ Some m → CanCut m dataset.now key.now part.now
        → (Rose (S.faults store.old) (S.faults store.new) → ⊥)
        → (Rose (O.faults out.old) (O.faults out.new) → ⊥)
        → EndsWell result }
    ensures asked { IfSome (S.objects store.old) (λ m.
        AsksFor m dataset.now key.now part.now (S.asked store.old) (S.asked store.new)) }
    // A box that is refused asks for the document alone, and calls no output.
    ensures unread { refuses result ≡ true → S.asked store.new ≤ S.asked store.old + (2 ^ 20 + 1) }
    ensures unprinted { refuses result ≡ true → out.new ≡ out.old }
    ensures kept { OnlyReads (S.objects store.old) (S.objects store.new) (S.draft store.old)
        (S.draft store.new) }
    ensures history { S.history store.new ≡ S.history store.old }
    ensures causes { IsCaused result (S.faults store.old) (S.faults store.new) (O.faults out.old)
        (O.faults out.new) (E.faults err.old) (E.faults err.new) }
{
    match cut_out(alloc, store, out, dataset, key, part) {
        Ok(()) => Status::Ok,
        Err(refusal) => report(alloc, err, dataset, &refusal),
    }
}
