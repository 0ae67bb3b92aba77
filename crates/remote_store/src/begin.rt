//! The front of a reply: its head, and the first bytes that follow it.
ghost use Rattle.std.specs.Prelude.{◌≡◌, ◌+◌, ◌<◌, ◌≤◌, min, None, length, take, IfOk, IfSome, IsTrue};
ghost use Rattle.vol_base.specs.Causes.{HasCause};
ghost use Rattle.vol_base.specs.Gains.{Gains};
ghost use Rattle.remote_store.specs.Answers.{IsAsked};
ghost use Rattle.remote_store.specs.Bodies.{Came, IsBegun};
ghost use Rattle.remote_store.specs.Dials.{OnlyReceives};
ghost use Rattle.remote_store.specs.Talks.{Unfit};

use crate::body::fill;
use crate::dial::Dial;
use crate::judge::{count_following, judge_front_of};
use crate::wait::{Front, wait_head};
use crate::wanted::{Begun, Wanted};
use httparse::spans::HeaderSpan;
use vol_base::Failed;

// How many of the first 8,192 bytes of a reply are to come.
fn find_stop(head: usize, len: u64) -> usize
    requires { head ≤ 8192 }
    ensures { result ≡ min 8192 (head + len) }
{
    head + (8192 - head as u64).min(len) as usize
}

/// Receives the head of a reply, and what follows it up to 8,192 bytes in all.
pub(crate) fn begin<D: Dial>(
    dial: &mut D,
    received: &mut [u8],
    there: &mut usize,
    spans: &mut [HeaderSpan],
    wanted: Wanted,
) -> Result<Option<Begun>, Failed>
    requires held { IsTrue (D.holds dial.old) }
    requires size { length received.old ≡ 8192 }
    requires room { 2730 ≤ length spans.old }
    requires some { IsAsked wanted }
    ensures within { there.new ≤ 8192 }
    ensures received { Gains (D.received dial.old) (D.received dial.new) (take there.new received.new) }
    ensures begun { IfOk result (λ o. IfSome o (λ b. IsBegun wanted (take there.new received.new) b)) }
    ensures unfit { IfOk result (λ o. o ≡ None → Unfit wanted (take there.new received.new)
        (D.ends dial.old) (D.ends dial.new) (D.left dial.old)) }
    ensures came { IfOk result (λ _. Came (take there.new received.new) (D.left dial.old) (D.left dial.new)
        (D.line dial.old) (D.line dial.new)) }
    ensures ends { D.ends dial.old ≤ D.ends dial.new }
    ensures held { D.holds dial.new ≡ D.holds dial.old }
    ensures same { OnlyReceives (D.peer dial.old) (D.peer dial.new) (D.dialled dial.old) (D.dialled dial.new)
        (D.sent dial.old) (D.sent dial.new) }
    ensures cause { HasCause (D.faults dial.old) (D.faults dial.new) result }
{
    let parts = match wait_head(dial, received, there, spans) {
        Ok(Front::Head(parts)) => parts,
        Ok(Front::Partial) => return Ok(None),
        Ok(Front::Never) => return Ok(None),
        Err(failed) => return Err(failed),
    };
    let begun = match judge_front_of(&received[..*there], spans, &parts, wanted) {
        Some(begun) => begun,
        None => return Ok(None),
    };
    let stop = find_stop(begun.head, count_following(wanted, begun.promise.len));
    match fill(dial, &mut received[..stop], there) {
        Ok(()) => {}
        Err(failed) => return Err(failed),
    }
    if *there < stop {
        return Ok(None);
    }
    Ok(Some(begun))
}
