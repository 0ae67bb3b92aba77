//! The line of a stream with a fault.
ghost use Rattle.std.specs.Prelude.{◌≡◌, IfOk, string_bytes};
ghost use Rattle.write_cmd.specs.Lines.{stream_line};

use std::alloc::{AllocError, Global};
use write_plan::PlanFault;

/// A stream of writes with a fault.
pub fn write_stream_line(alloc: Global, fault: PlanFault) -> Result<String, AllocError>
    ensures { IfOk result (λ line. string_bytes line ≡ stream_line fault) }
{
    format!(in alloc; "{fault}\n")
}
