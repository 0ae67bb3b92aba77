//! All cells that an update stores.
ghost use Rattle.std.specs.Prelude.{◌≡◌, ◌≤◌, ◌^◌, length, Err, IfOk, IfSome, Some};
ghost use Rattle.vol_base.specs.Calls.{ReadsFrom};
ghost use Rattle.vol_spec.specs.StoredCells.{met, met_cells};
ghost use Rattle.cell_lists.specs.Counted.{Counts};
ghost use Rattle.cell_lists.specs.Lists.{AreDistinct, Lists};
ghost use Rattle.update_laws.specs.Overlaid.{is_after};
ghost use Rattle.kept_cells.specs.Gathered.{Gathers};

use crate::KeepRefusal;
use crate::gathering::Gathering;
use crate::met::list_met;
use crate::sharded_plan::ShardedPlan;
use cell_lists::FoundCells;
use std::alloc::Global;
use touched_shards::find_shards;
use vol_base::Source;
use vol_spec::StoredScale;
use write_plan::Plan;

// The cells that an update of a sharded scale stores, where those that some write meets are counted.
fn gather_sharded<S: Source>(
    alloc: Global,
    store: &mut S,
    over: &ShardedPlan,
    found: FoundCells,
) -> Result<Vec<[u64; 3]>, KeepRefusal>
    requires few { found.count ≤ 2 ^ 22 }
    requires counted { Counts over.now.stored.now.scale
        (met over.now.stored.now.scale over.now.plan.now.writes) found }
    ensures gathers { IfSome (S.objects store.old) (λ m. Gathers result
        (λ cells. Lists over.now.stored.now.scale
        (is_after m over.now.stored.now.dataset over.now.stored.now.scale over.now.plan.now.writes) cells.items)
        m over.now.stored.now.dataset over.now.stored.now.scale over.now.plan.now.writes) }
    ensures distinct { IfOk result (λ cells. AreDistinct over.now.stored.now.scale cells.items) }
    ensures few { IfOk result (λ cells. length cells.items ≤ 2 ^ 22) }
    ensures reads { ReadsFrom S.Source KeepRefusal.NotRead store.old store.new result }
{
    let Ok(shards) = find_shards(alloc, &over.stored.scale, over.sharding, over.plan) else {
        return Err(KeepRefusal::OutOfMemory);
    };
    let Ok(mut gathering) = Gathering::of(alloc, found) else {
        return Err(KeepRefusal::OutOfMemory);
    };
    match gathering.keep_touched(store, over, &shards) {
        Ok(()) => Ok(gathering.found.cells),
        Err(refusal) => Err(refusal),
    }
}

/// The cells that an update stores, each once: those that some write of its plan meets, and, in a sharded scale, those
/// that are kept of the shards that are written anew. These shards are judged in the order of their numbers.
///
/// # Errors
/// `BadShard` with the first fault of a shard, and `TooManyCells` where more than 2^22 cells are met or kept, once a
/// shard is judged: whichever comes first.
pub fn gather_cells<S: Source>(
    alloc: Global,
    store: &mut S,
    stored: &StoredScale,
    plan: &Plan,
) -> Result<Vec<[u64; 3]>, KeepRefusal>
    requires plan { plan.now.scale ≡ stored.now.scale }
    requires few { length (met_cells stored.now.scale plan.now.writes) ≤ 2 ^ 22 }
    ensures gathers { IfSome (S.objects store.old) (λ m. Gathers result
        (λ cells. Lists stored.now.scale
        (is_after m stored.now.dataset stored.now.scale plan.now.writes) cells.items)
        m stored.now.dataset stored.now.scale plan.now.writes) }
    ensures distinct { IfOk result (λ cells. AreDistinct stored.now.scale cells.items) }
    ensures few { IfOk result (λ cells. length cells.items ≤ 2 ^ 22) }
    ensures reads { ReadsFrom S.Source KeepRefusal.NotRead store.old store.new result }
{
    let Ok(found) = list_met(alloc, plan) else {
        return Err(KeepRefusal::OutOfMemory);
    };
    match &stored.scale.sharding {
        None => Ok(found.cells),
        Some(sharding) => {
            let over = ShardedPlan {
                stored,
                sharding,
                plan,
            };
            gather_sharded(alloc, store, &over, found)
        }
    }
}
