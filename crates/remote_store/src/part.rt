//! What is asked of an object, and what the reply says.
ghost use Rattle.std.specs.Prelude.{◌≡◌, ◌+◌, ◌<◌, ◌≤◌, ℕ, List, [], None, length, take, IfOk, IfSome, IsTrue};
ghost use Rattle.vol_base.specs.Causes.{HasCause};
ghost use Rattle.vol_base.specs.Gains.{Gains};
ghost use Rattle.remote_store.specs.Answers.{IsAsked};
ghost use Rattle.remote_store.specs.Asking.{IsAskFor};
ghost use Rattle.remote_store.specs.Bodies.{Finished, IsBegun, IsCounted, Replied};
ghost use Rattle.remote_store.specs.Dials.{OnlyReceives};
ghost use Rattle.remote_store.specs.Ends.{Asks, KeepsEnd};
ghost use Rattle.remote_store.specs.Fits.{Fits};
ghost use Rattle.remote_store.specs.Quiet.{IsQuietFor};
ghost use Rattle.remote_store.specs.Sent.{Sends, SendsRequest};
ghost use Rattle.remote_store.specs.Talks.{IsUnfit, SaysLength, SaysPart};
ghost use Rattle.remote_store.specs.declared.wanted.Wanted.TheVariants.{Length, Part};

use crate::body::end_part;
use crate::dial::Dial;
use crate::start::start;
use crate::wanted::{Begun, Promise, Wanted};
use httparse::spans::HeaderSpan;
use vol_base::Failed;

/// Receives the rest of the reply to a request for a part, of which the first bytes came, and puts what it says into a
/// buffer; answers whether it came whole. `body` is how many bytes came behind the head.
fn finish_part<D: Dial>(
    dial: &mut D,
    first: &[u8],
    scratch: &mut [u8],
    begun: Begun,
    from: u64,
    out: &mut [u8],
    body: &mut u64,
) -> Result<bool, Failed>
    requires held { IsTrue (D.holds dial.old) }
    requires few { length first.now ≤ 8192 }
    requires scratch { 0 < length scratch.old }
    requires begun { IsBegun (Part from (length out.old)) first.now begun }
    ensures finished { (more : List ℕ) × Finished from (length out.old) first.now more begun out.old out.new body.new
        (D.received dial.old) (D.received dial.new) (D.left dial.old) (D.left dial.new)
        (D.line dial.old) (D.line dial.new) (D.ends dial.old) (D.ends dial.new) result }
    ensures held { D.holds dial.new ≡ D.holds dial.old }
    ensures same { OnlyReceives (D.peer dial.old) (D.peer dial.new) (D.dialled dial.old) (D.dialled dial.new)
        (D.sent dial.old) (D.sent dial.new) }
    ensures cause { HasCause (D.faults dial.old) (D.faults dial.new) result }
{
    end_part(
        dial,
        &first[begun.head..],
        scratch,
        begun.promise,
        from,
        out,
        body,
    )
}

/// Asks a peer for the length of an object of a data set: what the reply says, or None where it doesn't fit. An end is
/// kept from call to call. It takes no memory.
///
/// # Errors
/// `Failed` only where the dial failed.
pub(crate) fn ask_length<D: Dial>(
    dial: &mut D,
    kept: &mut bool,
    host: &str,
    port: u16,
    text: &[u8],
    received: &mut [u8],
    there: &mut usize,
    body: &mut u64,
    spans: &mut [HeaderSpan],
) -> Result<Option<Promise>, Failed>
    requires held { IsTrue kept.old → IsTrue (D.holds dial.old) }
    requires size { length received.old ≡ 8192 }
    requires room { 2730 ≤ length spans.old }
    ensures within { there.new ≤ 8192 }
    ensures received { Gains (D.received dial.old) (D.received dial.new) (take there.new received.new) }
    ensures counted { IsCounted Length (take there.new received.new) body.new }
    ensures fits { IfOk result (λ o. IfSome o (λ promise. Fits Length (take there.new received.new) promise [])) }
    ensures unfit { IfOk result (λ o. o ≡ None → IsUnfit Length (take there.new received.new)
        (D.ends dial.old) (D.ends dial.new)) }
    ensures told { IfOk result (λ o. (dataset key : List ℕ) → IsAskFor dataset host.now port key Length text.now
        → (IsTrue kept.old → IsQuietFor dataset (D.peer dial.old) (D.line dial.old))
        → SaysLength dataset (D.peer dial.old) key o) }
    ensures end { KeepsEnd (Asks host.now port Length text.now) (host.now, port)
        there.new received.new kept.old kept.new (D.holds dial.new) (D.peer dial.old) (D.peer dial.new)
        (D.line dial.old) (D.line dial.new) (D.dialled dial.old) (D.dialled dial.new) result }
    ensures sent { IfOk result (λ _. Sends kept.old text.now (D.peer dial.old) (D.line dial.old) (D.line dial.new)) }
    ensures asks { SendsRequest text.now (D.sent dial.old) (D.sent dial.new) result }
    ensures peer { D.peer dial.new ≡ D.peer dial.old }
    ensures cause { HasCause (D.faults dial.old) (D.faults dial.new) result }
{
    let was_kept = *kept;
    *kept = false;
    match start(
        dial,
        was_kept,
        host,
        port,
        Wanted::Length,
        text,
        received,
        there,
        body,
        spans,
    ) {
        Ok(Some(begun)) => {
            *kept = !begun.closes;
            Ok(Some(begun.promise))
        }
        Ok(None) => Ok(None),
        Err(failed) => Err(failed),
    }
}

/// Asks a peer for a part of an object of a data set, and puts what the reply says into a buffer; None where it doesn't
/// fit. An end is kept from call to call. It takes no memory.
///
/// # Errors
/// `Failed` only where the dial failed.
pub(crate) fn ask_part<D: Dial>(
    dial: &mut D,
    kept: &mut bool,
    host: &str,
    port: u16,
    text: &[u8],
    received: &mut [u8],
    there: &mut usize,
    body: &mut u64,
    scratch: &mut [u8],
    spans: &mut [HeaderSpan],
    from: u64,
    out: &mut [u8],
) -> Result<Option<Promise>, Failed>
    requires held { IsTrue kept.old → IsTrue (D.holds dial.old) }
    requires asked { IsAsked (Part from (length out.old)) }
    requires size { length received.old ≡ 8192 }
    requires scratch { 0 < length scratch.old }
    requires room { 2730 ≤ length spans.old }
    ensures within { there.new ≤ 8192 }
    ensures replied { (gained : List ℕ) × Replied from (length out.old) gained (take there.new received.new) out.old out.new body.new
        (D.received dial.old) (D.received dial.new) (D.ends dial.old) (D.ends dial.new) result }
    ensures told { IfOk result (λ o. (dataset key : List ℕ)
        → IsAskFor dataset host.now port key (Part from (length out.old)) text.now
        → (IsTrue kept.old → IsQuietFor dataset (D.peer dial.old) (D.line dial.old))
        → SaysPart dataset (D.peer dial.old) key from out.old out.new o) }
    ensures end { KeepsEnd (Asks host.now port (Part from (length out.old)) text.now) (host.now, port)
        there.new received.new kept.old kept.new (D.holds dial.new) (D.peer dial.old) (D.peer dial.new)
        (D.line dial.old) (D.line dial.new) (D.dialled dial.old) (D.dialled dial.new) result }
    ensures sent { IfOk result (λ _. Sends kept.old text.now (D.peer dial.old) (D.line dial.old) (D.line dial.new)) }
    ensures asks { SendsRequest text.now (D.sent dial.old) (D.sent dial.new) result }
    ensures peer { D.peer dial.new ≡ D.peer dial.old }
    ensures cause { HasCause (D.faults dial.old) (D.faults dial.new) result }
{
    let was_kept = *kept;
    *kept = false;
    let wanted = Wanted::Part {
        from,
        count: out.len() as u64,
    };
    let begun = match start(
        dial, was_kept, host, port, wanted, text, received, there, body, spans,
    ) {
        Ok(Some(begun)) => begun,
        Ok(None) => return Ok(None),
        Err(failed) => return Err(failed),
    };
    match finish_part(dial, &received[..*there], scratch, begun, from, out, body) {
        Ok(true) => {
            *kept = !begun.closes;
            Ok(Some(begun.promise))
        }
        Ok(false) => Ok(None),
        Err(failed) => Err(failed),
    }
}
