//! Lines to an outlet.
ghost use Rattle.std.specs.Prelude.{◌≤◌};
ghost use Rattle.vol_shell.specs.Effects.{Says};

use vol_base::{Outlet, write_all};

/// Writes a line. That it can't be written is passed over.
pub fn say<E: Outlet>(err: &mut E, line: &[u8])
    ensures said { Says (E.written err.old) (E.written err.new) (E.faults err.old)
        (E.faults err.new) line.now }
    ensures later { E.faults err.old ≤ E.faults err.new }
{
    let _ = write_all(err, line);
}
