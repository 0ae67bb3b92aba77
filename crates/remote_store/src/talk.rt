//! Bytes that are sent.
ghost use Rattle.std.specs.Prelude.{◌≡◌, IsTrue, OnOk};
ghost use Rattle.std.specs.Option.{option_map};
ghost use Rattle.vol_base.specs.Causes.{HasCause};
ghost use Rattle.vol_base.specs.Gains.{Gains, GainsFront};
ghost use Rattle.remote_store.specs.Dials.{SamePeer, sent_more};

use crate::dial::Dial;
use vol_base::Failed;

/// Sends all the bytes.
pub(crate) fn send_all<D: Dial>(dial: &mut D, bytes: &[u8]) -> Result<(), Failed>
    requires { IsTrue (D.holds dial.old) }
    ensures line { OnOk result (D.line dial.new ≡ option_map (sent_more bytes.now) (D.line dial.old)) }
    ensures sent { OnOk result (Gains (D.sent dial.old) (D.sent dial.new) bytes.now) }
    ensures front { GainsFront (D.sent dial.old) (D.sent dial.new) bytes.now }
    ensures received { D.received dial.new ≡ D.received dial.old }
    ensures ends { D.ends dial.new ≡ D.ends dial.old }
    ensures held { D.holds dial.new ≡ D.holds dial.old }
    ensures same { SamePeer (D.peer dial.old) (D.peer dial.new) (D.dialled dial.old) (D.dialled dial.new) }
    ensures cause { HasCause (D.faults dial.old) (D.faults dial.new) result }
{
    let mut done = 0;
    while done < bytes.len() {
        match dial.send(&bytes[done..]) {
            Ok(n) => done += n,
            Err(failed) => return Err(failed),
        }
    }
    Ok(())
}
