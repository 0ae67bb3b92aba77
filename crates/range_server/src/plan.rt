//! What the head of a request is answered.
ghost use Rattle.std.specs.Prelude.{◌≡◌, ◌≢◌, [], ◌<◌, ◌≤◌, ◌==◌, ◌||◌, codes, length, true, Some, IfOk, IfSome, IsTrue};
ghost use Rattle.std.specs.List.{list_any};
ghost use Rattle.httparse.specs.Grammar.{ReadsRequest, RequestHead};
ghost use Rattle.httparse.specs.Spans.{IsRequestOf, IsRequestWithin};
ghost use Rattle.request_heads.specs.Asks.{bytes_of};
ghost use Rattle.request_heads.specs.Words.{has_close};
ghost use Rattle.std.specs.Option.{option_map};
ghost use Rattle.vol_base.specs.Calls.{ReadsFrom};
ghost use Rattle.vol_base.specs.Causes.{Rose};
ghost use Rattle.vol_base.specs.Outside.{OnlyReads};
ghost use Rattle.range_server.specs.Ranges.{range_in};
ghost use Rattle.range_server.specs.Replies.{IsPlanAt, numbered};
ghost use Rattle.range_server.specs.Bodies.{HasBody, WhereTold, failure};
ghost use Rattle.range_server.specs.Plans.{IsPlan, IsSound, by_name, by_range, by_size, failed_reply, judged, object_name, part_of, refused, whole};

use crate::range::{RangeAnswer, range_of};
use crate::reply::Reply;
use http_header::HeaderMap;
use httparse::spans::{EMPTY_HEADER_SPAN, HeaderSpan, RequestSpans};
use request_heads::{Front, asks_close, find_range, has_body, judge_front, read_fields};
use std::alloc::Global;
use vol_base::{Failed, Name, OutOfMemory, Source, StoreRefusal};

/// No object, and no body.
pub(crate) fn refuse(status: u16, close: bool) -> Reply
    ensures { result ≡ refused status close }
{
    Reply {
        status,
        name: None,
        from: 0,
        count: 0,
        total: 0,
        close,
        body: false,
    }
}

// All of an object, or its head alone.
fn plan_whole(name: Name, close: bool, len: u64, body: bool) -> Reply
    ensures reply { result ≡ whole name close len body }
    ensures sound { IsSound result }
{
    Reply {
        status: 200,
        name: Some(name),
        from: 0,
        count: len,
        total: len,
        close,
        body,
    }
}

fn plan_part(name: Name, close: bool, len: u64, first: u64, last: u64) -> Reply
    requires order { first ≤ last }
    requires within { last < len }
    ensures reply { result ≡ part_of name close len first last }
    ensures sound { IsSound result }
{
    Reply {
        status: 206,
        name: Some(name),
        from: first,
        count: last - first + 1,
        total: len,
        close,
        body: true,
    }
}

fn plan_range(name: Name, close: bool, len: u64, value: &[u8]) -> Reply
    ensures reply { result ≡ by_range name close len (range_in value.now len) }
    ensures sized { IsTrue result.body → (result.name ≡ Some name) × (result.total ≡ len) }
    ensures sound { IsSound result }
{
    match range_of(value, len) {
        RangeAnswer::Whole => plan_whole(name, close, len, true),
        RangeAnswer::Part { first, last } => plan_part(name, close, len, first, last),
        RangeAnswer::Unsatisfiable => Reply {
            total: len,
            ..refuse(416, close)
        },
    }
}

// The reply by the length of the object, where there is one.
fn plan_size(
    head_alone: bool,
    range: Option<&[u8]>,
    close: bool,
    name: Name,
    size: Option<u64>,
) -> Reply
    ensures reply { result ≡ by_size head_alone (option_map (λ b. b.now) range.entry) close name size }
    ensures sized { IsTrue result.body → (result.name ≡ Some name) × (size ≡ Some result.total) }
    ensures sound { IsSound result }
{
    let Some(len) = size else {
        return refuse(404, close);
    };
    match range {
        Some(value) if !head_alone => plan_range(name, close, len, value),
        _ => plan_whole(name, close, len, !head_alone),
    }
}

// The name that a target gives.
fn find_name(dataset: &Name, target: &[u8]) -> Option<Name>
    ensures { result ≡ object_name dataset.now target.now }
{
    let [b'/', rest @ ..] = target else {
        return None;
    };
    dataset.join(&Name::new(rest)?)
}

// The reply by the object of a name, where the target gives one.
fn plan_name<S: Source>(
    head_alone: bool,
    range: Option<&[u8]>,
    close: bool,
    name: Option<Name>,
    store: &mut S,
) -> Result<Reply, Failed>
    ensures sound { IfOk result IsSound }
    ensures body { IfOk result (λ reply. WhereTold (S.objects store.old) (λ m. HasBody m reply)) }
    ensures reply { IfOk result (λ reply. IfSome (S.objects store.old) (λ m.
        reply ≡ by_name m head_alone (option_map (λ b. b.now) range.entry) close name)) }
    ensures reads { ReadsFrom S.Source failure store.old store.new result }
{
    let Some(name) = name else {
        return Ok(refuse(404, close));
    };
    match store.size(&name) {
        Ok(size) => Ok(plan_size(head_alone, range, close, name, size)),
        Err(Failed) => Err(Failed),
    }
}

// The reply to a head by its parts.
fn plan_parts<S: Source>(
    body: bool,
    method: &[u8],
    target: &[u8],
    range: Option<&[u8]>,
    close: bool,
    store: &mut S,
    dataset: &Name,
) -> Result<Reply, Failed>
    ensures sound { IfOk result IsSound }
    ensures body { IfOk result (λ reply. WhereTold (S.objects store.old) (λ m. HasBody m reply)) }
    ensures reply { IfOk result (λ reply. IfSome (S.objects store.old) (λ m.
        reply ≡ judged m dataset.now body method.now target.now
        (option_map (λ b. b.now) range.entry) close)) }
    ensures reads { ReadsFrom S.Source failure store.old store.new result }
{
    if body {
        return Ok(refuse(400, true));
    }
    let head_alone = method == b"HEAD".as_slice();
    if !head_alone && method != b"GET".as_slice() {
        return Ok(refuse(405, close));
    }
    plan_name(head_alone, range, close, find_name(dataset, target), store)
}

// Whether the connection ends behind the reply.
fn closes(version: u8, fields: &HeaderMap) -> bool
    ensures { result ≡ (version == 0 || list_any has_close (bytes_of fields.now (codes "connection"))) }
{
    version == 0 || asks_close(fields)
}

/// The reply to the head at the front of what was received.
pub(crate) fn plan_head<S: Source>(
    alloc: Global,
    received: &[u8],
    spans: &[HeaderSpan],
    parts: &RequestSpans,
    store: &mut S,
    dataset: &Name,
) -> Result<Reply, StoreRefusal>
    requires within { IsRequestWithin received.now spans.now parts.now }
    requires parts { IsRequestOf received.now spans.now parts.now }
    requires few { length spans.now ≤ 4096 }
    requires short { length received.now ≤ 8192 }
    ensures sound { IfOk result IsSound }
    ensures body { IfOk result (λ reply. WhereTold (S.objects store.old) (λ m. HasBody m reply)) }
    ensures reply { IfOk result (λ reply. IfSome (S.objects store.old) (λ m.
        IsPlan m dataset.now received.now reply)) }
    ensures reads { ReadsFrom S.Source StoreRefusal.Failed store.old store.new result }
{
    let Ok(fields) = read_fields(alloc, received, spans, parts) else {
        return Err(StoreRefusal::OutOfMemory);
    };
    let body = has_body(&fields);
    let range = find_range(&fields);
    let close = closes(parts.version, &fields);
    let method = parts.method.of(received);
    let target = parts.path.of(received);
    match plan_parts(body, method, target, range, close, store, dataset) {
        Ok(reply) => Ok(reply),
        Err(Failed) => Err(StoreRefusal::Failed),
    }
}

/// Room for the spans of as many fields as a head can have.
pub(crate) fn reserve_spans(alloc: Global, fields: usize) -> Result<Vec<HeaderSpan>, OutOfMemory>
    ensures { IfOk result (λ spans. length spans.items ≡ fields) }
{
    match Vec::from_elem(alloc, EMPTY_HEADER_SPAN, fields) {
        Ok(spans) => Ok(spans),
        Err(_) => Err(OutOfMemory),
    }
}

/// The reply to a head of at most 8,192 bytes, whichever request of its connection it is. Status 500 comes only
/// where the store failed.
///
/// # Errors
/// `OutOfMemory`.
pub fn plan_reply<S: Source>(
    alloc: Global,
    head: &[u8],
    store: &mut S,
    dataset: &Name,
) -> Result<Reply, OutOfMemory>
    requires head { (h : RequestHead) × ReadsRequest head.now h [] }
    requires short { length head.now ≤ 8192 }
    ensures planned { IfOk result (λ reply. reply.status ≢ 500 →
        IfSome (S.objects store.old) (λ m. IsPlan m dataset.now head.now reply)) }
    ensures failed { IfOk result (λ reply. reply.status ≡ 500 → (reply ≡ failed_reply) ×
        Rose (S.faults store.old) (S.faults store.new)) }
    ensures kept { OnlyReads (S.objects store.old) (S.objects store.new) (S.draft store.old)
        (S.draft store.new) }
    ensures history { S.history store.new ≡ S.history store.old }
    ensures later { S.faults store.old ≤ S.faults store.new }
{
    let mut spans = reserve_spans(alloc, 2730)?;
    let parts = match judge_front(head, &mut spans) {
        Front::Head(parts) => parts,
        Front::Partial | Front::Never => unreachable!(),
    };
    match plan_head(alloc, head, &spans, &parts, store, dataset) {
        Ok(reply) => Ok(reply),
        Err(StoreRefusal::Failed) => Ok(refuse(500, true)),
        Err(StoreRefusal::OutOfMemory) => Err(OutOfMemory),
    }
}

// A reply by the number of its request.
fn number_reply(number: u64, reply: Reply) -> Reply
    ensures reply { result ≡ numbered number reply }
    ensures last { number ≡ 65535 → result.close ≡ true }
{
    Reply {
        close: reply.close || number == 65535,
        ..reply
    }
}

/// The reply to the head at the front of what was received, by the number of the request from 0 on.
pub(crate) fn plan_numbered<S: Source>(
    number: u64,
    alloc: Global,
    received: &[u8],
    spans: &[HeaderSpan],
    parts: &RequestSpans,
    store: &mut S,
    dataset: &Name,
) -> Result<Reply, StoreRefusal>
    requires within { IsRequestWithin received.now spans.now parts.now }
    requires parts { IsRequestOf received.now spans.now parts.now }
    requires few { length spans.now ≤ 4096 }
    requires short { length received.now ≤ 8192 }
    ensures sound { IfOk result IsSound }
    ensures body { IfOk result (λ reply. WhereTold (S.objects store.old) (λ m. HasBody m reply)) }
    ensures reply { IfOk result (λ reply. WhereTold (S.objects store.old) (λ m.
        IsPlanAt number m dataset.now received.now reply)) }
    ensures last { IfOk result (λ reply. number ≡ 65535 → reply.close ≡ true) }
    ensures reads { ReadsFrom S.Source StoreRefusal.Failed store.old store.new result }
{
    match plan_head(alloc, received, spans, parts, store, dataset) {
        Ok(reply) => Ok(number_reply(number, reply)),
        Err(refusal) => Err(refusal),
    }
}
