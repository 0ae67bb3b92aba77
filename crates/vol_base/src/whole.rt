//! Whole texts to an outlet, and what is known of bytes.
ghost use Rattle.std.specs.Prelude.{◌≤◌, OnOk, OnErr};
ghost use Rattle.vol_base.specs.Bytes.{AreBytes};
ghost use Rattle.vol_base.specs.Causes.{HasCause};
ghost use Rattle.vol_base.specs.Gains.{Gains, GainsFront};

use crate::{Failed, Outlet};

/// Knows that the elements of bytes are bytes: of a buffer behind a `&mut` a proof learns it by this call.
pub fn tell_bytes(bytes: &[u8])
    ensures { AreBytes bytes.now }
{
    let _ = bytes.len();
}

/// Writes all the bytes, or a front of them where the outlet fails.
pub fn write_all<O: Outlet>(out: &mut O, bytes: &[u8]) -> Result<(), Failed>
    ensures ok { OnOk result (Gains (O.written out.old) (O.written out.new) bytes.now) }
    ensures err { OnErr result (GainsFront (O.written out.old) (O.written out.new) bytes.now) }
    ensures cause { HasCause (O.faults out.old) (O.faults out.new) result }
{
    let mut done = 0;
    while done < bytes.len() {
        match out.write(&bytes[done..]) {
            Ok(count) => done += count,
            Err(failed) => return Err(failed),
        }
    }
    Ok(())
}
