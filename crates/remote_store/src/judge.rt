//! What the head of a reply says.
ghost use Rattle.std.specs.Prelude.{◌≡◌, ◌<◌, ◌≤◌, ◌==◌, ◌||◌, ◌&&◌, ◌+◌, ◌^◌, ℕ, List, All, IfSome, length, take, codes, Option, Some, None, if◌then◌else◌};
ghost use Rattle.httparse.specs.Grammar.{ReadsResponse, ResponseHead};
ghost use Rattle.httparse.specs.Spans.{IsHeaderWithin, IsResponseOf, IsResponseWithin};
ghost use Rattle.remote_store.specs.Answers.{IsAsked};
ghost use Rattle.remote_store.specs.Bodies.{IsHeard};
ghost use Rattle.remote_store.specs.Fits.{NeverFits, ends_behind, following, is_right, judged, kind_of, length_of, only, promised};
ghost use Rattle.remote_store.specs.Reading.{capped_in};
ghost use Rattle.remote_store.specs.Values.{values_in};

use crate::fields::{asks_close, find_only, has_field, is_plain};
use crate::numbers::{is_place, read_length, read_place};
use crate::wanted::{Begun, Kind, Promise, Wanted};
use httparse::spans::{HeaderSpan, ResponseSpans};

// The answer to what was asked, by its status.
fn find_kind(wanted: Wanted, status: u16) -> Option<Kind>
    ensures { result ≡ kind_of wanted status }
{
    match wanted {
        Wanted::Length => match status {
            200 => Some(Kind::Whole),
            404 => Some(Kind::Missing),
            _ => None,
        },
        Wanted::Part { .. } => match status {
            206 => Some(Kind::Part),
            200 => Some(Kind::Whole),
            404 => Some(Kind::Missing),
            416 => Some(Kind::Beyond),
            _ => None,
        },
    }
}

// The length that the fields of a head say.
fn find_length(received: &[u8], fields: &[HeaderSpan]) -> Option<u64>
    requires { All (IsHeaderWithin (length received.now)) fields.now }
    ensures { result ≡ length_of (values_in received.now fields.now (codes "content-encoding"))
        (values_in received.now fields.now (codes "transfer-encoding"))
        (values_in received.now fields.now (codes "content-length")) }
{
    if !is_plain(received, fields) {
        return None;
    }
    if has_field(received, fields, b"transfer-encoding") {
        return None;
    }
    match find_only(received, fields, b"content-length") {
        Some(value) => read_length(value),
        None => None,
    }
}

// The part that the fields of a head say.
fn find_place(received: &[u8], fields: &[HeaderSpan]) -> Option<(u128, u128, u128)>
    requires { All (IsHeaderWithin (length received.now)) fields.now }
    ensures { result ≡ capped_in (only (values_in received.now fields.now (codes "content-range"))) }
{
    match find_only(received, fields, b"content-range") {
        Some(value) => read_place(value),
        None => None,
    }
}

// Whether an answer of this kind may have this length, and this place in the object.
fn is_right(wanted: Wanted, kind: Kind, len: u64, place: Option<(u128, u128, u128)>) -> bool
    requires { IsAsked wanted }
    ensures { result ≡ is_right wanted kind len place }
{
    match wanted {
        Wanted::Length => true,
        Wanted::Part { from, count } => match kind {
            Kind::Part => match place {
                None => false,
                Some((first, last, total)) => is_place(from, count, len, first, last, total),
            },
            Kind::Missing => len <= 1 << 30,
            Kind::Beyond => len <= 1 << 30,
            Kind::Whole => len <= 1 << 30,
        },
    }
}

fn promise(
    wanted: Wanted,
    kind: Option<Kind>,
    len: Option<u64>,
    place: Option<(u128, u128, u128)>,
) -> Option<Promise>
    requires { IsAsked wanted }
    ensures { result ≡ promised wanted kind len place }
{
    match kind {
        None => None,
        Some(kind) => match len {
            None => None,
            Some(len) => {
                if is_right(wanted, kind, len, place) {
                    Some(Promise { kind, len })
                } else {
                    None
                }
            }
        },
    }
}

// What a head says, by its parts, where it is that of a reply to what was asked.
fn judge_reply(
    received: &[u8],
    spans: &[HeaderSpan],
    parts: &ResponseSpans,
    wanted: Wanted,
) -> Option<Promise>
    requires within { IsResponseWithin received.now spans.now parts.now }
    requires parts { IsResponseOf received.now spans.now parts.now }
    requires some { IsAsked wanted }
    ensures { (head : ResponseHead) (rest : List ℕ) → ReadsResponse received.now head rest
        → result ≡ judged wanted head }
{
    let fields = &spans[..parts.headers];
    let kind = find_kind(wanted, parts.code);
    let len = find_length(received, fields);
    let place = find_place(received, fields);
    promise(wanted, kind, len, place)
}

fn is_last(version: u8, close: bool) -> bool
    ensures { result ≡ (version == 0 || close) }
{
    version == 0 || close
}

/// Whether the connection ends behind the reply, by the parts of its head.
pub(crate) fn ends_behind(received: &[u8], spans: &[HeaderSpan], parts: &ResponseSpans) -> bool
    requires within { IsResponseWithin received.now spans.now parts.now }
    requires parts { IsResponseOf received.now spans.now parts.now }
    ensures { (head : ResponseHead) (rest : List ℕ) → ReadsResponse received.now head rest → result ≡ ends_behind head }
{
    let close = asks_close(received, &spans[..parts.headers]);
    is_last(parts.version, close)
}

/// How many bytes follow the head of a reply that says this length.
pub(crate) fn count_following(wanted: Wanted, len: u64) -> u64
    ensures { result ≡ following wanted len }
{
    match wanted {
        Wanted::Length => 0,
        Wanted::Part { .. } => len,
    }
}

/// The front of the reply that some bytes begin with, by the parts of its head; None where no bytes behind them make them
/// fit.
pub(crate) fn judge_front_of(
    received: &[u8],
    spans: &[HeaderSpan],
    parts: &ResponseSpans,
    wanted: Wanted,
) -> Option<Begun>
    requires within { IsResponseWithin received.now spans.now parts.now }
    requires parts { IsResponseOf received.now spans.now parts.now }
    requires some { IsAsked wanted }
    requires few { length received.now ≤ 8192 }
    ensures heard { IfSome result (λ b. IsHeard wanted received.now b) }
    ensures never { result ≡ None → NeverFits wanted received.now }
{
    let promise = match judge_reply(received, spans, parts, wanted) {
        Some(promise) => promise,
        None => return None,
    };
    if (received.len() - parts.len) as u64 > count_following(wanted, promise.len) {
        return None;
    }
    let closes = ends_behind(received, spans, parts);
    Some(Begun {
        head: parts.len,
        promise,
        closes,
    })
}
