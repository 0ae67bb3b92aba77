//! The front of what was received.
ghost use Rattle.std.specs.Prelude.{◌≡◌, ◌≤◌, length};
ghost use Rattle.request_heads.specs.Answers.{IsFront};

use crate::kinds::Front;
use httparse::Status;
use httparse::spans::{HeaderSpan, parse_request};

/// Judges at most 8,192 received bytes, with room for as many fields as they can hold. It takes no memory.
pub fn judge_front(received: &[u8], spans: &mut [HeaderSpan]) -> Front
    requires few { length received.now ≤ 8192 }
    requires room { 2730 ≤ length spans.old }
    ensures { IsFront received.now spans.new result }
{
    if received.is_empty() {
        return Front::Partial;
    }
    match parse_request(received, spans) {
        Ok(Status::Complete(head)) => Front::Head(head),
        Ok(Status::Partial) => Front::Partial,
        Err(_) => Front::Never,
    }
}
