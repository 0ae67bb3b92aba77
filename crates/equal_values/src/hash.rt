//! The hash of a value, and its group.
ghost use Rattle.std.specs.Prelude.{◌≡◌, ◌<◌};
ghost use Rattle.equal_values.specs.Hashes.{group_of, hashed};

/// How many groups there are.
pub(crate) const GROUPS: usize = 64;

/// The hash of a value.
#[tactic(auto, unfolding(crate::specs::Hashes::hashed))]
pub(crate) fn hash(value: u64) -> u64
    ensures { result ≡ hashed value }
{
    let x = value.wrapping_mul(0x9e3779b97f4a7c15);
    x ^ (x >> 29)
}

/// The group of a value, below `GROUPS`.
#[tactic(auto, unfolding(crate::specs::Hashes::group_of))]
pub(crate) fn find_group(value: u64) -> usize
    ensures value { result ≡ group_of value }
    ensures below { result < 64 }
{
    hash(value) as usize % GROUPS
}
