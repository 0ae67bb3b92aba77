//! Where a scale is stored.
ghost use Rattle.std.specs.Prelude.{◌≡◌, ◌≤◌, length};

use crate::Scale;
use vol_base::Name;

/// A scale with the data set that it is stored under: the objects of its chunks have names below `DATASET/KEY` (precomputed
/// volume format, chunk storage). The name of a data set has at most 200 bytes (this project's limit).
#[derive(Drop)]
pub struct StoredScale {
    pub dataset: Name,
    pub scale: Scale,
    pub ghost short: { length dataset ≤ 200 },
}

impl StoredScale {
    /// The scale of the data set. It takes no memory.
    pub fn of(dataset: &Name, scale: &Scale) -> StoredScale
        requires short { length dataset.now ≤ 200 }
        ensures dataset { result.dataset ≡ dataset.now }
        ensures scale { result.scale ≡ scale.now }
    {
        StoredScale {
            dataset: dataset.duplicate(),
            scale: scale.duplicate(),
        }
    }
}
