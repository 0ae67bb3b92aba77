//! The line that `serve` prints.
ghost use Rattle.std.specs.Prelude.{◌≡◌, IfOk, string_bytes};
ghost use Rattle.serve_cmd.specs.Lines.{listening_line};

use std::alloc::{AllocError, Global};

/// The port where a server listens.
pub(crate) fn write_listening_line(alloc: Global, port: u16) -> Result<String, AllocError>
    ensures { IfOk result (λ line. string_bytes line ≡ listening_line port) }
{
    format!(in alloc; "listening {port}\n")
}
