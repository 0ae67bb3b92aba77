//! What a Range field asks.
ghost use Rattle.std.specs.Prelude.{◌≡◌, ◌==◌, nat_lt, length, position, List, Option, Some, None, ℕ, ◌<◌, IfSome, if◌then◌else◌};
ghost use Rattle.std.specs.Option.{option_map};
ghost use Rattle.std.specs.Char.{is_ascii_digit};
ghost use Rattle.vol_base.specs.Causes.{counted};
ghost use Rattle.range_server.specs.declared.range.RangeAnswer.TheVariants.{Whole};
ghost use Rattle.range_server.specs.Ranges.{at_end, between, by_dash, by_ends, by_unit, number, onward, range_in};

use crate::digits::is_less;
use request_heads::{read_count, trim};

/// What a range asks of an object: all of it, a part from its first byte to its last, or nothing that it has.
#[derive(Clone, Copy, Debug, PartialEq, Eq)]
pub enum RangeAnswer {
    Whole,
    Part { first: u64, last: u64 },
    Unsatisfiable,
}

/// The answer to the value of a Range field over an object of `len` bytes. It takes no memory.
pub fn range_of(value: &[u8], len: u64) -> RangeAnswer
    ensures { result ≡ range_in value.now len }
{
    answer_unit(trim(value), len)
}

fn answer_unit(text: &[u8], len: u64) -> RangeAnswer
    ensures { result ≡ by_unit len text.now }
{
    if text.len() < 6 || !text[..6].eq_ignore_ascii_case(b"bytes=") {
        return RangeAnswer::Whole;
    }
    answer_dash(&text[6..], len)
}

fn find_dash(text: &[u8]) -> Option<usize>
    ensures dash { result ≡ position (λ b. b == 45) text.now }
    ensures within { IfSome result (λ at. at < length text.now) }
{
    text.iter().position(|b| *b == b'-')
}

fn answer_dash(text: &[u8], len: u64) -> RangeAnswer
    ensures { result ≡ by_dash len text.now (position (λ b. b == 45) text.now) }
{
    match find_dash(text) {
        None => RangeAnswer::Whole,
        Some(at) => answer_ends(&text[..at], &text[at + 1..], len),
    }
}

// From a byte up to another, where the greatest count stands for all above it, and it is known which is less.
fn answer_between(a: u64, b: u64, turned: bool, len: u64) -> RangeAnswer
    ensures { (x y : ℕ) → a ≡ counted x → b ≡ counted y → turned ≡ nat_lt y x → result ≡ between len x y }
{
    if turned {
        RangeAnswer::Whole
    } else if a >= len {
        RangeAnswer::Unsatisfiable
    } else {
        RangeAnswer::Part {
            first: a,
            last: b.min(len - 1),
        }
    }
}

// From a byte on, where nothing comes behind its number.
fn answer_onward(a: u64, alone: bool, len: u64) -> RangeAnswer
    ensures { (x : ℕ) → a ≡ counted x → result ≡ (if alone then onward len x else Whole) }
{
    if !alone {
        RangeAnswer::Whole
    } else if a >= len {
        RangeAnswer::Unsatisfiable
    } else {
        RangeAnswer::Part {
            first: a,
            last: len - 1,
        }
    }
}

// So many bytes at the end, where nothing comes before their number.
fn answer_end(n: u64, alone: bool, len: u64) -> RangeAnswer
    ensures { (x : ℕ) → n ≡ counted x → result ≡ (if alone then at_end len x else Whole) }
{
    if !alone {
        RangeAnswer::Whole
    } else if n == 0 {
        RangeAnswer::Unsatisfiable
    } else if len == 0 {
        RangeAnswer::Whole
    } else {
        RangeAnswer::Part {
            first: len.saturating_sub(n),
            last: len - 1,
        }
    }
}

fn answer_ends(first: &[u8], last: &[u8], len: u64) -> RangeAnswer
    ensures { result ≡ by_ends len first.now last.now }
{
    match (read_count(first), read_count(last)) {
        (Some(a), Some(b)) => answer_between(a, b, is_less(last, first), len),
        (Some(a), None) => answer_onward(a, last.is_empty(), len),
        (None, Some(n)) => answer_end(n, first.is_empty(), len),
        (None, None) => RangeAnswer::Whole,
    }
}
