//! A way to make a scale of another one.
ghost use Rattle.std.specs.Prelude.{◌≡◌, ◌≤◌, ◌^◌, false, List, ℕ, Option, Some, Result, length, IfOk, IfSome, MatchOption};
ghost use Rattle.vol_base.specs.Calls.{ReadsFrom};
ghost use Rattle.vol_base.specs.Outside.{Objects, any_under};
ghost use Rattle.vol_spec.specs.CellNames.{folder_of};
ghost use Rattle.vol_spec.specs.Types.{Listed};
ghost use Rattle.vol_spec.specs.Writable.{IsWritable};
ghost use Rattle.vol_spec.specs.declared.scale.Scale.{Scale};
ghost use Rattle.info_doc.specs.declared.fault.Item.{Item};
ghost use Rattle.shard_writer.specs.Works.{job_objects};
ghost use Rattle.shard_writer.specs.declared.written.WriteFault.{WriteFault};
ghost use Rattle.shard_writer.specs.declared.written.Written.{Written};
ghost use Rattle.write_plan.specs.Pairs.{cell_count};
ghost use Rattle.make_scale.specs.Making.{Puts, Said, Wrote};

use info_doc::Item;
use std::alloc::Global;
use vol_base::{Store, StoreRefusal};
use vol_spec::{Scale, StoredScale};
use write_plan::Chunks;

/// A way to make a scale of another one: which target it fits, what makes the target's chunks, and what is said of the
/// target once they are written.
pub trait Making {
    type Maker: Chunks + Sync + Drop;

    /// The target may be in the second data set, where the source is in the first.
    ghost suits: { Self → List ℕ → List ℕ → Type 0 };

    /// The target is as it is to be; and the first item in which it isn't.
    ghost fits: { Self → Scale → Scale → Type 0 };

    ghost differs: { Self → Scale → Scale → Item → Type 0 };

    /// The objects that are due of a source and a target, over the objects that the store has.
    ghost due: { Self → Objects → List ℕ → Scale → List ℕ → Scale → Listed };

    /// What is said of a source and a target over objects before and after.
    ghost says: { Self → Objects → Option Objects → List ℕ → Scale → List ℕ → Scale → Said };

    /// The first item in which a target isn't as it is to be; none where it fits.
    fn find_difference(&self, from: &Scale, to: &Scale) -> Option<Item>
        ensures { MatchOption result (fits self.now from.now to.now) (differs self.now from.now to.now) };

    /// What makes the chunks of a target whose folder is empty.
    ///
    /// # Errors
    /// `Failed` only where the store failed, and `OutOfMemory`.
    fn begin<S: Store>(
        &self,
        alloc: Global,
        store: &mut S,
        from: &StoredScale,
        to: &StoredScale,
    ) -> Result<Self::Maker, StoreRefusal>
        requires suits { suits self.now from.now.dataset to.now.dataset }
        requires fits { fits self.now from.now.scale to.now.scale }
        requires writable { IsWritable to.now.scale }
        requires few { cell_count to.now.scale ≤ 2 ^ 22 }
        requires empty { IfSome (S.objects store.old) (λ m.
            any_under m (folder_of to.now.dataset to.now.scale) ≡ false) }
        ensures scale { IfOk result (λ maker. (Self.Maker.work maker).scale ≡ to.now.scale) }
        ensures few { IfOk result (λ maker. length (Self.Maker.work maker).cells ≤ 2 ^ 22) }
        ensures apart { IfOk result (λ maker. IfSome (S.objects store.old) (λ m.
            Self.Maker.apart maker to.now.dataset to.now.scale)) }
        ensures due { IfOk result (λ maker. IfSome (S.objects store.old) (λ m.
            job_objects to.now.dataset (Self.Maker.work maker) m
            ≡ due self.now m from.now.dataset from.now.scale to.now.dataset to.now.scale)) }
        ensures says { IfOk result (λ maker. IfSome (S.objects store.old) (λ m.
            (now : Option Objects) (answer : Result Written WriteFault) →
            Wrote to.now.dataset (Self.Maker.work maker) m now answer →
            Puts (says self.now m now from.now.dataset from.now.scale to.now.dataset to.now.scale)
            answer)) }
        ensures reads { ReadsFrom S.Source StoreRefusal.Failed store.old store.new result };

    /// Where nothing is put yet, a front of the objects is.
    ghost untouched: { (x : Self) (m : Objects) (from_dataset : List ℕ) (from : Scale) (to_dataset : List ℕ)
        (to : Scale) → (says x m (Some m) from_dataset from to_dataset to).front };
}
