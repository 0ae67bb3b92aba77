//! The line that `generate` prints.
ghost use Rattle.std.specs.Prelude.{◌≡◌, IfOk, string_bytes};
ghost use Rattle.generate_cmd.specs.Lines.{generated_line};

use std::alloc::{AllocError, Global};

/// What `generate` prints: how many writes there were, how many objects were put, how many bytes these have together,
/// and the sum of the values.
pub(crate) fn write_generated_line(
    alloc: Global,
    writes: u32,
    objects: u64,
    bytes: u64,
    sum: u64,
) -> Result<String, AllocError>
    ensures { IfOk result (λ line. string_bytes line ≡ generated_line writes objects bytes sum) }
{
    format!(in alloc; "writes {writes} objects {objects} bytes {bytes} sum {sum}\n")
}
