//! The index that was opened last.
ghost use Rattle.std.specs.Prelude.{◌+◌, ◌*◌, ◌<◌, ◌≤◌, ◌^◌};

use crate::opened::OpenedIndex;

/// The index that was opened last: that of a minishard of a shard.
#[derive(Clone, Copy, Debug, PartialEq, Eq)]
pub(crate) struct KeptIndex {
    pub(crate) shard: u64,
    pub(crate) minishard: u64,
    pub(crate) opened: OpenedIndex,
    ghost few: { opened.index.rows ≤ 2 ^ 22 },
    ghost fits: { opened.index.at + 24 * opened.index.rows < 2 ^ 64 },
}
