//! The line that only `reshard` tells.
ghost use Rattle.std.specs.Prelude.{◌≡◌, IfOk, string_bytes};
ghost use Rattle.make_scale.specs.Lines.{differs_line};

use std::alloc::{AllocError, Global};

/// Two scales that aren't of one volume: the first item in which they differ.
pub(crate) fn write_differs_line(alloc: Global, item: &str) -> Result<String, AllocError>
    ensures { IfOk result (λ line. string_bytes line ≡ differs_line item.now) }
{
    format!(in alloc; "differs {item}\n")
}
