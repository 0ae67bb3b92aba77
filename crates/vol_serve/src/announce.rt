//! The port, which is told before the first accept.
ghost use Rattle.std.specs.Prelude.{◌≡◌, IfOk, None, string_bytes};
ghost use Rattle.vol_base.specs.Causes.{HasCauseOf};
ghost use Rattle.serve_cmd.specs.Lines.{listening_line};
ghost use Rattle.serve_cmd.specs.Servings.{Announces, IsBoundTo};

use hall::Entrance;
use serve_cmd::ServeRefusal;
use std::alloc::{AllocError, Global};
use vol_base::{Outlet, write_all};

fn write_listening_line(alloc: Global, port: u16) -> Result<String, AllocError>
    ensures { IfOk result (λ line. string_bytes line ≡ listening_line port) }
{
    format!(in alloc; "listening {port}\n")
}

/// Binds a port of the entrance, or a free one for 0, and prints it.
pub(crate) fn announce<O: Outlet, D: Entrance>(
    alloc: Global,
    out: &mut O,
    entrance: &mut D,
    port: u16,
) -> Result<(), ServeRefusal>
    requires { D.bound entrance.old ≡ None }
    ensures told { Announces result (D.bound entrance.new) (O.written out.old) (O.written out.new) }
    ensures bound { IsBoundTo port (D.bound entrance.new) }
    ensures accepted { D.accepted entrance.new ≡ D.accepted entrance.old }
    ensures out_cause { HasCauseOf ServeRefusal.OutFault (O.faults out.old) (O.faults out.new) result }
    ensures entrance_cause { HasCauseOf ServeRefusal.DoorFault (D.faults entrance.old) (D.faults entrance.new)
        result }
{
    let Ok(port) = entrance.listen(port) else {
        return Err(ServeRefusal::DoorFault);
    };
    let Ok(line) = write_listening_line(alloc, port) else {
        return Err(ServeRefusal::NoMemory);
    };
    match write_all(out, line.as_bytes()) {
        Ok(()) => Ok(()),
        Err(_) => Err(ServeRefusal::OutFault),
    }
}
