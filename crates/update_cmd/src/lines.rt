//! The line that only `update` tells.
ghost use Rattle.std.specs.Prelude.{◌≡◌, IfOk, string_bytes};
ghost use Rattle.update_cmd.specs.Lines.{shard_line};

use std::alloc::{AllocError, Global};
use vol_base::Fault;

/// A shard with a fault, and the minishard that has it.
pub(crate) fn write_shard_line(
    alloc: Global,
    shard: u64,
    minishard: u64,
    fault: Fault,
) -> Result<String, AllocError>
    ensures { IfOk result (λ line. string_bytes line ≡ shard_line shard minishard fault) }
{
    format!(in alloc; "shard {shard} {minishard}: {fault}\n")
}
