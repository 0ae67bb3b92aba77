//! What is asked of an object by its name below the data set.
ghost use Rattle.std.specs.Prelude.{◌≡◌, ◌+◌, ◌<◌, ◌≤◌, ℕ, List, [], None, true, length, take, vec_capacity, IfOk, IfSome, IsTrue};
ghost use Rattle.vol_base.specs.Causes.{HasCause};
ghost use Rattle.vol_base.specs.Gains.{Gains};
ghost use Rattle.remote_store.specs.Answers.{IsAsked};
ghost use Rattle.remote_store.specs.Bodies.{IsCounted, Replied, empty_got, got_of_kind, stretch_count};
ghost use Rattle.remote_store.specs.Ends.{IsShort, KeepsEnd};
ghost use Rattle.remote_store.specs.Fits.{Fits, size_said};
ghost use Rattle.remote_store.specs.Hosts.{is_host};
ghost use Rattle.remote_store.specs.Quiet.{IsQuietFor};
ghost use Rattle.remote_store.specs.Requests.{peer_value};
ghost use Rattle.remote_store.specs.Sent.{Requests, SendsRequest, request_bytes};
ghost use Rattle.remote_store.specs.Talks.{IsUnfit, SaysLength, SaysPart};
ghost use Rattle.remote_store.specs.declared.wanted.Wanted.TheVariants.{Length, Part};

use crate::dial::Dial;
use crate::part::{ask_length, ask_part};
use crate::text::write_request;
use crate::wanted::{Kind, Promise, Wanted};
use httparse::spans::HeaderSpan;
use vol_base::{Failed, Got, Name};

/// The length that a reply says, or None where there is no object.
pub(crate) fn find_size(promise: Promise) -> Option<u64>
    ensures { result ≡ size_said promise.kind promise.len }
{
    match promise.kind {
        Kind::Missing => None,
        Kind::Beyond | Kind::Whole | Kind::Part => Some(promise.len),
    }
}

/// How many bytes a reply says to a request for `count` bytes from a place on, or that there is no object.
pub(crate) fn find_got(promise: Promise, from: u64, count: u64) -> Got
    ensures { result ≡ got_of_kind promise.kind (stretch_count promise.kind promise.len from count) }
{
    match promise.kind {
        Kind::Missing => Got::Absent,
        Kind::Beyond => Got::Bytes(0),
        Kind::Whole => Got::Bytes((promise.len - from.min(promise.len)).min(count)),
        Kind::Part => Got::Bytes(promise.len),
    }
}

/// How many bytes a reply says to a request for a length that stands for a read of no bytes.
pub(crate) fn find_empty_got(promise: Promise) -> Got
    ensures { result ≡ empty_got promise.kind }
{
    match promise.kind {
        Kind::Missing => Got::Absent,
        Kind::Beyond | Kind::Whole | Kind::Part => Got::Bytes(0),
    }
}

/// Asks for the length of an object: what the reply says, or None where it doesn't fit. It takes no memory.
///
/// # Errors
/// `Failed` only where the dial failed.
pub(crate) fn call_length<D: Dial>(
    dial: &mut D,
    kept: &mut bool,
    host: &str,
    port: u16,
    peer: &[u8],
    key: &Name,
    text: &mut Vec<u8>,
    received: &mut [u8],
    there: &mut usize,
    body: &mut u64,
    spans: &mut [HeaderSpan],
) -> Result<Option<Promise>, Failed>
    requires held { IsTrue kept.old → IsTrue (D.holds dial.old) }
    requires host { IsTrue (is_host host.now) }
    requires peer { peer.now ≡ peer_value host.now port }
    requires text { 1024 ≤ vec_capacity text.old }
    requires size { length received.old ≡ 8192 }
    requires room { 2730 ≤ length spans.old }
    ensures within { there.new ≤ 8192 }
    ensures received { Gains (D.received dial.old) (D.received dial.new) (take there.new received.new) }
    ensures counted { IsCounted Length (take there.new received.new) body.new }
    ensures fits { IfOk result (λ o. IfSome o (λ promise. Fits Length (take there.new received.new) promise [])) }
    ensures unfit { IfOk result (λ o. o ≡ None → IsUnfit Length (take there.new received.new)
        (D.ends dial.old) (D.ends dial.new)) }
    ensures told { IfOk result (λ o. (dataset : List ℕ) → length dataset + 1 + length key.now ≤ 512
        → (IsTrue kept.old → IsQuietFor dataset (D.peer dial.old) (D.line dial.old))
        → SaysLength dataset (D.peer dial.old) key.now o) }
    ensures end { KeepsEnd (IsShort key.now) (host.now, port) there.new received.new kept.old kept.new
        (D.holds dial.new) (D.peer dial.old) (D.peer dial.new) (D.line dial.old) (D.line dial.new)
        (D.dialled dial.old) (D.dialled dial.new) result }
    ensures asks { SendsRequest (request_bytes (host.now, port) key.now Length) (D.sent dial.old) (D.sent dial.new) result }
    ensures sent { IfOk result (λ _. Requests (host.now, port) key.now Length kept.old
        (D.peer dial.old) (D.line dial.old) (D.line dial.new)) }
    ensures text { 1024 ≤ vec_capacity text.new }
    ensures peer { D.peer dial.new ≡ D.peer dial.old }
    ensures cause { HasCause (D.faults dial.old) (D.faults dial.new) result }
{
    let _name = key.as_bytes();
    write_request(text, peer, key, Wanted::Length);
    ask_length(
        dial,
        kept,
        host,
        port,
        text.as_slice(),
        received,
        there,
        body,
        spans,
    )
}

/// Asks for a part of an object, and puts what the reply says into a buffer; None where it doesn't fit. It takes no memory.
///
/// # Errors
/// `Failed` only where the dial failed.
pub(crate) fn call_part<D: Dial>(
    dial: &mut D,
    kept: &mut bool,
    host: &str,
    port: u16,
    peer: &[u8],
    key: &Name,
    text: &mut Vec<u8>,
    received: &mut [u8],
    there: &mut usize,
    body: &mut u64,
    scratch: &mut [u8],
    spans: &mut [HeaderSpan],
    from: u64,
    out: &mut [u8],
) -> Result<Option<Promise>, Failed>
    requires held { IsTrue kept.old → IsTrue (D.holds dial.old) }
    requires host { IsTrue (is_host host.now) }
    requires peer { peer.now ≡ peer_value host.now port }
    requires asked { IsAsked (Part from (length out.old)) }
    requires text { 1024 ≤ vec_capacity text.old }
    requires size { length received.old ≡ 8192 }
    requires scratch { 0 < length scratch.old }
    requires room { 2730 ≤ length spans.old }
    ensures within { there.new ≤ 8192 }
    ensures replied { (gained : List ℕ) × Replied from (length out.old) gained (take there.new received.new) out.old out.new body.new
        (D.received dial.old) (D.received dial.new) (D.ends dial.old) (D.ends dial.new) result }
    ensures told { IfOk result (λ o. (dataset : List ℕ) → length dataset + 1 + length key.now ≤ 512
        → (IsTrue kept.old → IsQuietFor dataset (D.peer dial.old) (D.line dial.old))
        → SaysPart dataset (D.peer dial.old) key.now from out.old out.new o) }
    ensures end { KeepsEnd (IsShort key.now) (host.now, port) there.new received.new kept.old kept.new
        (D.holds dial.new) (D.peer dial.old) (D.peer dial.new) (D.line dial.old) (D.line dial.new)
        (D.dialled dial.old) (D.dialled dial.new) result }
    ensures asks { SendsRequest (request_bytes (host.now, port) key.now (Part from (length out.old)))
        (D.sent dial.old) (D.sent dial.new) result }
    ensures sent { IfOk result (λ _. Requests (host.now, port) key.now (Part from (length out.old)) kept.old
        (D.peer dial.old) (D.line dial.old) (D.line dial.new)) }
    ensures text { 1024 ≤ vec_capacity text.new }
    ensures peer { D.peer dial.new ≡ D.peer dial.old }
    ensures cause { HasCause (D.faults dial.old) (D.faults dial.new) result }
{
    let _name = key.as_bytes();
    let wanted = Wanted::Part {
        from,
        count: out.len() as u64,
    };
    write_request(text, peer, key, wanted);
    ask_part(
        dial,
        kept,
        host,
        port,
        text.as_slice(),
        received,
        there,
        body,
        scratch,
        spans,
        from,
        out,
    )
}
