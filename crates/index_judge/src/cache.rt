//! The indexes that were judged last.
ghost use Rattle.std.specs.Prelude.{◌≡◌, ◌⊎◌, [], Contains, IfOk, IsTrue};
ghost use Rattle.index_judge.specs.Keys.{keys};
ghost use Rattle.index_judge.specs.declared.key.IndexKey.{IndexKey};

use crate::key::IndexKey;
use lru::LruCache;
use std::alloc::Global;
use std::num::NonZeroUsize;
use vol_base::OutOfMemory;

/// Indexes whose rows were all judged without a fault, the one that was asked for last in front.
pub(crate) type Judged = LruCache<IndexKey, ()>;

/// A cache of 1,024 indexes, with none.
pub(crate) fn new_judged(alloc: Global) -> Result<Judged, OutOfMemory>
    ensures { IfOk result (λ judged. keys judged ≡ []) }
{
    match LruCache::new(alloc, NonZeroUsize::new(1024).unwrap()) {
        Ok(judged) => Ok(judged),
        Err(_) => Err(OutOfMemory),
    }
}

/// Whether an index is one of those; only where it is noted.
pub(crate) fn was_judged(judged: &mut Judged, index: IndexKey) -> bool
    ensures found { IsTrue result → Contains (keys judged.old) index }
    ensures kept { (i : IndexKey) → Contains (keys judged.new) i → Contains (keys judged.old) i }
{
    judged.get(&index).is_some()
}

/// Notes an index. Want of memory is passed over: the index isn't noted then.
pub(crate) fn note_judged(judged: &mut Judged, index: IndexKey)
    ensures { (i : IndexKey) → Contains (keys judged.new) i → Contains (keys judged.old) i ⊎ (i ≡ index) }
{
    let _passed_over = judged.put(index, ());
}
