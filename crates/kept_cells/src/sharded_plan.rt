//! A plan of writes over what a sharded scale holds.
ghost use Rattle.std.specs.Prelude.{◌≡◌, Some};

use vol_spec::{Sharding, StoredScale};
use write_plan::Plan;

/// A plan of writes over what a sharded scale holds.
#[derive(Drop)]
pub(crate) struct ShardedPlan<'a> {
    pub stored: &'a StoredScale,
    pub sharding: &'a Sharding,
    pub plan: &'a Plan,
    pub ghost is_sharding: { stored.now.scale.sharding ≡ Some sharding.now },
    pub ghost is_plan: { plan.now.scale ≡ stored.now.scale },
}
