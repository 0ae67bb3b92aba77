//! A request that is sent, and the front of the reply to it.
ghost use Rattle.std.specs.Prelude.{◌≡◌, ◌≢◌, ◌≤◌, ◌++◌, ℕ, List, None, length, take, IfOk, IfSome, IsTrue, OnErr, OnOk};
ghost use Rattle.std.specs.Option.{option_map};
ghost use Rattle.vol_base.specs.Causes.{HasCause};
ghost use Rattle.vol_base.specs.Gains.{Gains, GainsFront};
ghost use Rattle.remote_store.specs.Answers.{IsAsked};
ghost use Rattle.remote_store.specs.Asking.{HasBegun, IsAskFor};
ghost use Rattle.remote_store.specs.Bodies.{IsBegun, IsCounted};
ghost use Rattle.remote_store.specs.Dials.{Dials, DialsOnce, SamePeer};
ghost use Rattle.remote_store.specs.Quiet.{IsQuietFor};
ghost use Rattle.remote_store.specs.Sent.{OnceAtMost, Sends, SendsRequest, sent_on};
ghost use Rattle.remote_store.specs.Shown.{IsServed};
ghost use Rattle.remote_store.specs.Talks.{IsUnfit};

use crate::begin::begin;
use crate::dial::Dial;
use crate::talk::send_all;
use crate::wait::count_behind;
use crate::wanted::{Begun, Wanted};
use httparse::spans::HeaderSpan;
use vol_base::Failed;

/// Sends a request for an object of a data set on the end, and receives the front of the reply; `body` is how many bytes came
/// behind the head.
fn ask_once<D: Dial>(
    dial: &mut D,
    wanted: Wanted,
    text: &[u8],
    received: &mut [u8],
    there: &mut usize,
    body: &mut u64,
    spans: &mut [HeaderSpan],
) -> Result<Option<Begun>, Failed>
    requires held { IsTrue (D.holds dial.old) }
    requires some { IsAsked wanted }
    requires size { length received.old ≡ 8192 }
    requires room { 2730 ≤ length spans.old }
    ensures within { there.new ≤ 8192 }
    ensures received { Gains (D.received dial.old) (D.received dial.new) (take there.new received.new) }
    ensures begun { IfOk result (λ o. IfSome o (λ b. IsBegun wanted (take there.new received.new) b)) }
    ensures unfit { IfOk result (λ o. o ≡ None → IsUnfit wanted (take there.new received.new)
        (D.ends dial.old) (D.ends dial.new)) }
    ensures told { IfOk result (λ o. (dataset host key : List ℕ) (port : ℕ)
        → IsAskFor dataset host port key wanted text.now
        → IsQuietFor dataset (D.peer dial.old) (D.line dial.old)
        → HasBegun dataset (D.peer dial.old) text.now (take there.new received.new)
        (D.left dial.new) (D.line dial.new) o) }
    ensures sent { IfOk result (λ _. sent_on (D.line dial.new)
        ≡ option_map (λ sent. sent ++ text.now) (sent_on (D.line dial.old))) }
    ensures whole { OnOk result (Gains (D.sent dial.old) (D.sent dial.new) text.now) }
    ensures front { GainsFront (D.sent dial.old) (D.sent dial.new) text.now }
    ensures counted { IsCounted wanted (take there.new received.new) body.new }
    ensures ends { D.ends dial.old ≤ D.ends dial.new }
    ensures held { D.holds dial.new ≡ D.holds dial.old }
    ensures same { SamePeer (D.peer dial.old) (D.peer dial.new) (D.dialled dial.old) (D.dialled dial.new) }
    ensures cause { HasCause (D.faults dial.old) (D.faults dial.new) result }
{
    *there = 0;
    *body = 0;
    match send_all(dial, text) {
        Ok(()) => {}
        Err(failed) => return Err(failed),
    }
    let answer = begin(dial, received, there, spans, wanted);
    *body = count_behind(&received[..*there], spans);
    answer
}

/// The same on an end that is kept, where there is one; None where it ended before a byte of the reply came, so that the
/// request may be sent on a new one.
fn ask_kept<D: Dial>(
    dial: &mut D,
    kept: bool,
    wanted: Wanted,
    text: &[u8],
    received: &mut [u8],
    there: &mut usize,
    body: &mut u64,
    spans: &mut [HeaderSpan],
) -> Result<Option<Option<Begun>>, Failed>
    requires held { IsTrue kept → IsTrue (D.holds dial.old) }
    requires some { IsAsked wanted }
    requires size { length received.old ≡ 8192 }
    requires room { 2730 ≤ length spans.old }
    ensures within { there.new ≤ 8192 }
    ensures received { Gains (D.received dial.old) (D.received dial.new) (take there.new received.new) }
    ensures again { IfOk result (λ t. t ≡ None → there.new ≡ 0) }
    ensures some { IfOk result (λ t. IfSome t (λ o. o ≡ None → there.new ≢ 0)) }
    ensures goes_on { IfOk result (λ t. t ≡ None → (dataset host key : List ℕ) (port : ℕ)
        → IsAskFor dataset host port key wanted text.now → IsTrue kept
        → IsQuietFor dataset (D.peer dial.old) (D.line dial.old) → IsServed dataset (D.peer dial.old) → ⊥) }
    ensures begun { IfOk result (λ t. IfSome t (λ o. IfSome o (λ b. IsBegun wanted (take there.new received.new) b))) }
    ensures unfit { IfOk result (λ t. IfSome t (λ o. o ≡ None → IsUnfit wanted (take there.new received.new)
        (D.ends dial.old) (D.ends dial.new))) }
    ensures told { IfOk result (λ t. IfSome t (λ o. (dataset host key : List ℕ) (port : ℕ)
        → IsAskFor dataset host port key wanted text.now
        → (IsTrue kept → IsQuietFor dataset (D.peer dial.old) (D.line dial.old))
        → HasBegun dataset (D.peer dial.old) text.now (take there.new received.new)
        (D.left dial.new) (D.line dial.new) o)) }
    ensures sent { IfOk result (λ t. IfSome t (λ _. Sends kept text.now (D.peer dial.old)
        (D.line dial.old) (D.line dial.new))) }
    ensures whole { IfOk result (λ t. IfSome t (λ _. Gains (D.sent dial.old) (D.sent dial.new) text.now)) }
    ensures once { IfOk result (λ t. t ≡ None → OnceAtMost text.now (D.sent dial.old) (D.sent dial.new)) }
    ensures front { GainsFront (D.sent dial.old) (D.sent dial.new) text.now }
    ensures counted { IsCounted wanted (take there.new received.new) body.new }
    ensures held { IfOk result (λ t. IfSome t (λ o. IsTrue (D.holds dial.new))) }
    ensures ends { D.ends dial.old ≤ D.ends dial.new }
    ensures same { SamePeer (D.peer dial.old) (D.peer dial.new) (D.dialled dial.old) (D.dialled dial.new) }
    ensures cause { HasCause (D.faults dial.old) (D.faults dial.new) result }
{
    *there = 0;
    *body = 0;
    if !kept {
        return Ok(None);
    }
    match ask_once(dial, wanted, text, received, there, body, spans) {
        Ok(None) => {
            if *there == 0 {
                return Ok(None);
            }
            Ok(Some(None))
        }
        Ok(Some(begun)) => Ok(Some(Some(begun))),
        Err(failed) => Err(failed),
    }
}

/// Sends a request for an object of a data set, on the end that is kept or on a new one, and receives the front of the
/// reply; None where it doesn't fit. A kept end that ended before a byte of the reply came is dialled anew, once. `body` is
/// how many bytes came behind the head. It takes no memory.
///
/// # Errors
/// `Failed` only where the dial failed.
pub(crate) fn start<D: Dial>(
    dial: &mut D,
    kept: bool,
    host: &str,
    port: u16,
    wanted: Wanted,
    text: &[u8],
    received: &mut [u8],
    there: &mut usize,
    body: &mut u64,
    spans: &mut [HeaderSpan],
) -> Result<Option<Begun>, Failed>
    requires held { IsTrue kept → IsTrue (D.holds dial.old) }
    requires some { IsAsked wanted }
    requires size { length received.old ≡ 8192 }
    requires room { 2730 ≤ length spans.old }
    ensures within { there.new ≤ 8192 }
    ensures received { Gains (D.received dial.old) (D.received dial.new) (take there.new received.new) }
    ensures begun { IfOk result (λ o. IfSome o (λ b. IsBegun wanted (take there.new received.new) b)) }
    ensures unfit { IfOk result (λ o. o ≡ None → IsUnfit wanted (take there.new received.new)
        (D.ends dial.old) (D.ends dial.new)) }
    ensures told { IfOk result (λ o. (dataset key : List ℕ) → IsAskFor dataset host.now port key wanted text.now
        → (IsTrue kept → IsQuietFor dataset (D.peer dial.old) (D.line dial.old))
        → HasBegun dataset (D.peer dial.old) text.now (take there.new received.new)
        (D.left dial.new) (D.line dial.new) o) }
    ensures sent { IfOk result (λ _. Sends kept text.now (D.peer dial.old) (D.line dial.old) (D.line dial.new)) }
    ensures asks { SendsRequest text.now (D.sent dial.old) (D.sent dial.new) result }
    ensures held { IfOk result (λ _. IsTrue (D.holds dial.new)) }
    ensures ends { D.ends dial.old ≤ D.ends dial.new }
    ensures dialled { Dials (host.now, port) (D.dialled dial.old) (D.dialled dial.new) }
    ensures again { IfOk result (λ o. o ≡ None → there.new ≡ 0
        → DialsOnce (host.now, port) (D.dialled dial.old) (D.dialled dial.new)) }
    ensures goes_on { IfOk result (λ _. (dataset key : List ℕ) → IsAskFor dataset host.now port key wanted text.now
        → IsTrue kept → IsQuietFor dataset (D.peer dial.old) (D.line dial.old) → IsServed dataset (D.peer dial.old)
        → D.dialled dial.new ≡ D.dialled dial.old) }
    ensures peer { D.peer dial.new ≡ D.peer dial.old }
    ensures cause { HasCause (D.faults dial.old) (D.faults dial.new) result }
    ensures counted { IsCounted wanted (take there.new received.new) body.new }
{
    match ask_kept(dial, kept, wanted, text, received, there, body, spans) {
        Ok(None) => {}
        Ok(Some(answer)) => return Ok(answer),
        Err(failed) => return Err(failed),
    }
    match dial.dial(host, port) {
        Ok(()) => {}
        Err(failed) => return Err(failed),
    }
    ask_once(dial, wanted, text, received, there, body, spans)
}
