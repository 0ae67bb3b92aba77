//! The command `verify`.
ghost use Rattle.std.specs.Prelude.{◌≡◌, ◌≤◌, ◌+◌, ◌^◌, true, false, length, Err, IfErr, IfSome, Some};
ghost use Rattle.vol_base.specs.Causes.{Rose};
ghost use Rattle.vol_base.specs.Outside.{Objects, OnlyReads};
ghost use Rattle.vol_spec.specs.Grid.{whole as whole_of};
ghost use Rattle.vol_base.specs.Calls.{AsksFor, ReadsFrom};
ghost use Rattle.command_base.specs.Ending.{EndsWell, IsCaused};
ghost use Rattle.command_base.specs.Outlets.{outlets_of};
ghost use Rattle.command_base.specs.Statuses.{prints, refuses};
ghost use Rattle.verify_cmd.specs.Refusals.{verify_status};
ghost use Rattle.verify_cmd.specs.Verified.{AsksTwice, CanVerify, IsAsked, IsRight, JudgesScale, part_in, unverified, Verified};
ghost use Rattle.verify_cmd.specs.Verifying.{part_cost};

use crate::lines::write_verified_line;
use crate::refusal::VerifyRefusal;
use crate::{Report, VerifyFault, verify};
use chunk_grid::whole;
use command_base::{Status, finish, read_scale, report};
use std::alloc::Global;
use vol_base::{Box3, Name, Outlet, Source};
use vol_spec::{Scale, StoredScale};

// The box that is judged: all of the scale where none is given.
fn pick_part(scale: &Scale, part: &Option<Box3>) -> Box3
    ensures { result ≡ part_in scale.now part.now }
{
    match part {
        Some(part) => *part,
        None => whole(scale),
    }
}

// A fault of the judgement of a part.
fn refuse(scale: &Scale, part: &Box3, fault: VerifyFault) -> VerifyRefusal
    ensures { result ≡ unverified part.now (whole_of scale.now) fault }
{
    match fault {
        VerifyFault::OutsideScale => VerifyRefusal::Outside {
            part: *part,
            whole: whole(scale),
        },
        VerifyFault::TooManyCells { cells } => VerifyRefusal::TooManyCells(cells),
        VerifyFault::Damaged { cell, fault } => VerifyRefusal::Damaged { cell, fault },
        VerifyFault::Misplaced {
            shard,
            minishard,
            id,
        } => VerifyRefusal::Misplaced {
            shard,
            minishard,
            id,
        },
        VerifyFault::ViewDamaged { view, cell, fault } => {
            VerifyRefusal::ViewDamaged { view, cell, fault }
        }
        VerifyFault::Conflict {
            view,
            at,
            channel,
            found,
            wanted,
        } => VerifyRefusal::Conflict {
            view,
            at,
            channel,
            found,
            wanted,
        },
        VerifyFault::StoreFault => VerifyRefusal::StoreFault,
        VerifyFault::OutOfMemory => VerifyRefusal::NoMemory,
    }
}

// Judges a box of a scale, or all of it.
fn judge_scale<S: Source>(
    alloc: Global,
    store: &mut S,
    stored: &StoredScale,
    part: &Option<Box3>,
) -> Result<Report, VerifyRefusal>
    ensures judges { IfSome (S.objects store.old) (λ m.
        JudgesScale result m stored.now.dataset stored.now.scale (part_in stored.now.scale part.now)) }
    ensures asked { IsAsked result part.now }
    ensures unread { IfErr result (λ refusal. refuses (verify_status refusal) ≡ true →
        S.asked store.new ≡ S.asked store.old) }
    ensures asks { AsksFor S.Source (λ m.
        part_cost m stored.now.dataset stored.now.scale (part_in stored.now.scale part.now))
        VerifyRefusal.StoreFault store.old store.new result }
{
    let chosen = pick_part(&stored.scale, part);
    match verify(alloc, store, &stored.dataset, &stored.scale, &chosen) {
        Ok(report) => Ok(report),
        Err(fault) => Err(refuse(&stored.scale, &chosen, fault)),
    }
}

// Judges the stored chunks of a box of the scale of a key, or of all of it.
fn judge_stored<S: Source>(
    alloc: Global,
    store: &mut S,
    dataset: &Name,
    key: &Name,
    part: &Option<Box3>,
) -> Result<Report, VerifyRefusal>
    requires dataset { length dataset.now ≤ 200 }
    requires key { length key.now ≤ 200 }
    ensures right { IsRight result (S.objects store.old) dataset.now key.now part.now }
    ensures unread { IfErr result (λ refusal. refuses (verify_status refusal) ≡ true →
        S.asked store.new ≤ S.asked store.old + (2 ^ 20 + 1)) }
    ensures cost { IfSome (S.objects store.old) (λ m.
        AsksTwice m dataset.now key.now part.now (S.asked store.old) (S.asked store.new)) }
    ensures reads { ReadsFrom S.Source VerifyRefusal.StoreFault store.old store.new result }
{
    match read_scale(alloc, store, dataset, key) {
        Ok(scale) => {
            let stored = StoredScale::of(dataset, &scale);
            judge_scale(alloc, store, &stored, part)
        }
        Err(refusal) => Err(VerifyRefusal::from(refusal)),
    }
}

/// The command `verify`: judges the stored chunks of a box of the scale of a key, or of all of it, and prints how many
/// there are.
pub fn run_verify<S: Source, O: Outlet, E: Outlet>(
    alloc: Global,
    store: &mut S,
    out: &mut O,
    err: &mut E,
    dataset: &Name,
    key: &Name,
    part: &Option<Box3>,
) -> Status
    requires dataset { length dataset.now ≤ 200 }
    requires key { length key.now ≤ 200 }
    ensures verified { Verified result (S.objects store.old) dataset.now key.now part.now
        (outlets_of O.written O.faults E.written E.faults out.old out.new err.old err.new) }
    ensures complete { (m : Objects) → S.objects store.old ≡ Some m → CanVerify m dataset.now key.now part.now
        → (Rose (S.faults store.old) (S.faults store.new) → ⊥)
        → (Rose (O.faults out.old) (O.faults out.new) → ⊥)
        → EndsWell result }
    // It asks for the document, and for no more than twice what the cells of the first view cost, and what the further
    // views cost beside it.
    ensures cost { IfSome (S.objects store.old) (λ m.
        AsksTwice m dataset.now key.now part.now (S.asked store.old) (S.asked store.new)) }
    // A box that is refused asks for the document alone, and what isn't printed calls no output.
    ensures unread { refuses result ≡ true → S.asked store.new ≤ S.asked store.old + (2 ^ 20 + 1) }
    ensures unprinted { prints result ≡ false → out.new ≡ out.old }
    ensures kept { OnlyReads (S.objects store.old) (S.objects store.new) (S.draft store.old)
        (S.draft store.new) }
    ensures history { S.history store.new ≡ S.history store.old }
    ensures causes { IsCaused result (S.faults store.old) (S.faults store.new) (O.faults out.old)
        (O.faults out.new) (E.faults err.old) (E.faults err.new) }
{
    let found = match judge_stored(alloc, store, dataset, key, part) {
        Ok(found) => found,
        Err(refusal) => return report(alloc, err, dataset, &refusal),
    };
    let line = write_verified_line(alloc, found.cells, found.stored, found.absent);
    finish(out, err, line)
}
